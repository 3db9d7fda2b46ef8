//! The children of one group, and which of two siblings precedes the other.
ghost use Rattle.std.specs.Prelude.{◌≡◌, ◌^◌, ◌<◌, All, IfErr, IfOk, OnOk, length, None, true};
ghost use Rattle.system_order.specs.Child.{child_at, members, precedes};
ghost use Rattle.system_order.specs.Order.{cycle_in, placed_in, IsCycleOf};

use crate::Child;
use crate::cycle::find_cycle;
use crate::place::place;
use crate::splice::OrderFault;
use ent_types::Memory;
use std::alloc::Global;

/// How many children are roots, which are in no group.
const ROOTS: usize = 3;

/// `true` if the first of two siblings precedes the second.
#[tactic(auto, unfolding(crate::specs::Child::precedes))]
pub(crate) fn is_before(children: &[Child], first: u32, second: u32) -> bool
    requires first { first < length children.now }
    requires second { second < length children.now }
    ensures { result ≡ precedes children.now first second }
{
    let one = &children[first as usize];
    let other = &children[second as usize];
    if one.band.rank() < other.band.rank() {
        return true;
    }
    if other.after.as_slice().contains(&first) {
        return true;
    }
    one.before.as_slice().contains(&second)
}

/// Returns the children of a group, in declared order.
#[tactic(auto, unfolding(crate::specs::Child::members))]
fn members_of(alloc: Global, children: &[Child], group: u32) -> Result<Vec<u32>, Memory>
    requires { length children.now < 2 ^ 32 }
    ensures value { IfOk result (λ siblings. siblings.items ≡ members children.now group) }
    ensures known { IfOk result (λ siblings. All (λ number. number < length children.now) siblings.items) }
{
    let mut siblings = Vec::new(alloc);
    for number in ROOTS..children.len() {
        if children[number].parent == group {
            siblings.push(number as u32)?;
        }
    }
    Ok(siblings)
}

/// Returns the children of a group in their places.
pub(crate) fn order_group(
    alloc: Global,
    children: &[Child],
    group: u32,
) -> Result<Vec<u32>, OrderFault>
    requires few { length children.now < 2 ^ 32 }
    requires group { (child_at children.now group).is_group ≡ true }
    ensures acyclic { OnOk result (cycle_in children.now group ≡ None) }
    ensures value { IfOk result (λ placed. placed.items ≡ placed_in children.now group) }
    ensures cycle { IfErr result (IsCycleOf children.now group) }
{
    let siblings = members_of(alloc, children, group)?;
    let placed = place(alloc, children, &siblings)?;
    if placed.len() == siblings.len() {
        return Ok(placed);
    }
    // Siblings that don't all get a place have a cycle.
    match find_cycle(alloc, children, &siblings)? {
        Some(child) => Err(OrderFault::Cycle(child)),
        None => unreachable!(),
    }
}
