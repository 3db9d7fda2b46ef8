//! The order of all systems: each group gives way to its children in their places.
ghost use Rattle.std.specs.Prelude.{◌≡◌, ◌++◌, ◌^◌, ◌<◌, IfErr, IfOk, OnOk, None, length, map};
ghost use Rattle.std.specs.Bool.{OnTrue};
ghost use Rattle.std.specs.List.{flat_map, list_any, range_with_len};
ghost use Rattle.system_order.specs.Child.{child_at};
ghost use Rattle.system_order.specs.Order.{cycle_in, first_cycle, opened, order_of, placed_in, IsCycleOf, IsFaultOf, IsFirstCycle};
ghost use Rattle.system_order.specs.Roots.{systems_below, systems_by_root};
ghost use Rattle.system_order.specs.declared.splice.OrderFault.TheVariants.{Memory as OutOfMemory};

use crate::Child;
use crate::group::order_group;
use ent_types::{Memory, Sequence};
use std::alloc::{AllocError, AllocFailed, Global};
use thiserror::Error;

/// Why children have no order.
#[derive(Clone, Copy, Debug, PartialEq, Eq, Error)]
pub enum OrderFault {
    /// The earliest declared child that precedes itself through a chain, in the first group that has one.
    #[error("child {0} precedes itself")]
    Cycle(u32),
    /// Memory ran out.
    #[error("out of memory")]
    Memory,
}

impl From<Memory> for OrderFault {
    ghost from_gives = { λ _ fault. fault ≡ OutOfMemory };

    fn from(_: Memory) -> OrderFault {
        OrderFault::Memory
    }
}

impl From<AllocError> for OrderFault {
    ghost from_gives = { λ _ fault. fault ≡ OutOfMemory };

    fn from(_: AllocError) -> OrderFault {
        OrderFault::Memory
    }
}

impl<T: Drop> From<AllocFailed<T>> for OrderFault {
    ghost from_gives = { λ _ fault. fault ≡ OutOfMemory };

    fn from(_: AllocFailed<T>) -> OrderFault {
        OrderFault::Memory
    }
}

/// The systems below each of the three roots, in their order.
#[derive(Debug, Drop)]
pub struct RootOrders {
    /// The systems below child 0.
    pub initialization: Sequence<u32>,
    /// The systems below child 1.
    pub simulation: Sequence<u32>,
    /// The systems below child 2.
    pub presentation: Sequence<u32>,
}

/// Returns the children of a group in their places. A system has none.
fn order_child(alloc: Global, children: &[Child], number: u32) -> Result<Vec<u32>, OrderFault>
    requires few { length children.now < 2 ^ 32 }
    requires known { number < length children.now }
    ensures acyclic { OnOk result (cycle_in children.now number ≡ None) }
    ensures value { IfOk result (λ placed. placed.items ≡ placed_in children.now number) }
    ensures cycle { IfErr result (IsCycleOf children.now number) }
{
    if children[number as usize].is_group {
        order_group(alloc, children, number)
    } else {
        Ok(Vec::new(alloc))
    }
}

/// Returns the children of every child in their places, by number.
fn list_orders(alloc: Global, children: &[Child]) -> Result<Vec<Sequence<u32>>, OrderFault>
    requires { length children.now < 2 ^ 32 }
    ensures acyclic { OnOk result (first_cycle children.now ≡ None) }
    ensures value { IfOk result (λ orders. orders.items ≡ map (placed_in children.now) (range_with_len 0 (length children.now))) }
    ensures cycle { IfErr result (IsFirstCycle children.now) }
{
    let mut orders = Vec::with_capacity(alloc, children.len())?;
    for number in 0..children.len() {
        let placed = order_child(alloc, children, number as u32)?;
        orders.push(Sequence::from_vec(placed))?;
    }
    Ok(orders)
}

/// `true` if a number is that of a group.
fn is_group(children: &[Child], number: u32) -> bool
    ensures value { result ≡ (child_at children.now number).is_group }
    ensures known { OnTrue result (number < length children.now) }
{
    match children.get(number as usize) {
        Some(child) => child.is_group,
        None => false,
    }
}

/// `true` if there is a group in a row.
fn has_group(children: &[Child], row: &[u32]) -> bool
    ensures { result ≡ list_any (λ number. (child_at children.now number).is_group) row.now }
{
    row.iter().any(|number| is_group(children, *number))
}

/// Appends a system's number, or the children of a group in their places.
fn push_opened(
    children: &[Child],
    orders: &[Sequence<u32>],
    row: &mut Vec<u32>,
    number: u32,
) -> Result<(), Memory>
    requires { orders.now ≡ map (placed_in children.now) (range_with_len 0 (length children.now)) }
    ensures { OnOk result (row.new.items ≡ row.old.items ++ opened children.now number) }
{
    if is_group(children, number) {
        row.extend_from_slice(orders[number as usize].as_slice())?;
    } else {
        row.push(number)?;
    }
    Ok(())
}

/// Returns a row whose groups have given way to their children.
fn open_row(
    alloc: Global,
    children: &[Child],
    orders: &[Sequence<u32>],
    row: &[u32],
) -> Result<Vec<u32>, Memory>
    requires { orders.now ≡ map (placed_in children.now) (range_with_len 0 (length children.now)) }
    ensures { IfOk result (λ wider. wider.items ≡ flat_map (opened children.now) row.now) }
{
    let mut wider = Vec::with_capacity(alloc, row.len())?;
    for number in row {
        push_opened(children, orders, &mut wider, *number)?;
    }
    Ok(wider)
}

/// Returns the systems below a group, in their order.
fn splice(
    alloc: Global,
    children: &[Child],
    orders: &[Sequence<u32>],
    group: u32,
) -> Result<Vec<u32>, Memory>
    requires { orders.now ≡ map (placed_in children.now) (range_with_len 0 (length children.now)) }
    ensures { IfOk result (λ row. row.items ≡ systems_below children.now group) }
{
    let mut row = vec![in alloc; group]?;
    for level in 0..children.len() {
        if !has_group(children, &row) {
            break;
        }
        row = open_row(alloc, children, orders, &row)?;
    }
    Ok(row)
}

/// Returns the systems below each root, in the order in which they run. [`order`] says what that order is, and when
/// there is none.
///
/// The law `each_system_is_once_below_its_root` says that no system is missing, and none is there twice.
#[tactic(auto, unfolding(crate::specs::Order::order_of))]
pub fn order_by_root(alloc: Global, children: &[Child]) -> Result<RootOrders, OrderFault>
    requires { length children.now < 2 ^ 32 }
    ensures acyclic { OnOk result (first_cycle children.now ≡ None) }
    ensures initialization { IfOk result (λ roots. roots.initialization ≡ systems_below children.now 0) }
    ensures simulation { IfOk result (λ roots. roots.simulation ≡ systems_below children.now 1) }
    ensures presentation { IfOk result (λ roots. roots.presentation ≡ systems_below children.now 2) }
    ensures err { IfErr result (IsFaultOf children.now) }
{
    let orders = list_orders(alloc, children)?;
    let initialization = splice(alloc, children, &orders, 0)?;
    let simulation = splice(alloc, children, &orders, 1)?;
    let presentation = splice(alloc, children, &orders, 2)?;
    Ok(RootOrders {
        initialization: Sequence::from_vec(initialization),
        simulation: Sequence::from_vec(simulation),
        presentation: Sequence::from_vec(presentation),
    })
}

/// Returns the systems of the three roots in the order in which they run, one root after the other.
///
/// Each place among the children of a group has the earliest declared child whose predecessors all come before it.
/// A child precedes its sibling if its band is lower, if the sibling names it in `after`, or if it names the sibling
/// in `before`. A group among the children then gives way to its own children.
///
/// It returns [`OrderFault::Cycle`] if and only if in some group a child precedes itself through a chain. The fault
/// names the earliest declared such child of the first such group, where the roots come first.
///
/// Callers ensure that the children 0, 1 and 2 are groups, that all groups come before all systems, that the parent
/// of each later child is an earlier group, and that a child's names are its siblings. No step relies on that: a
/// name that is no sibling says nothing.
///
/// The bands and names are those of Unity's system groups. These two rules are entsim's own: bands and names count
/// alike, so one against the other is a cycle, and the earliest declared child comes first.
#[tactic(auto, using(crate::proofs::ByRoot::order_by_roots))]
pub fn order(alloc: Global, children: &[Child]) -> Result<Vec<u32>, OrderFault>
    requires { length children.now < 2 ^ 32 }
    ensures ok { IfOk result (λ systems. order_of children.now ≡ Ok systems.items) }
    ensures roots { IfOk result (λ systems. systems.items ≡ systems_by_root children.now) }
    ensures err { IfErr result (IsFaultOf children.now) }
{
    let roots = order_by_root(alloc, children)?;
    let mut systems = roots.initialization.into_vec();
    systems.extend_from_slice(roots.simulation.as_slice())?;
    systems.extend_from_slice(roots.presentation.as_slice())?;
    Ok(systems)
}
