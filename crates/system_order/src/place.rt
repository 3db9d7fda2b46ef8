//! The places of siblings: each place has the earliest of the rest that none of the rest precedes.
ghost use Rattle.std.specs.Prelude.{◌≡◌, ◌<◌, All, IfOk, length, map, position, ◌==◌};
ghost use Rattle.system_order.specs.Child.{precedes};
ghost use Rattle.system_order.specs.Place.{blockers_of, places, released, waiting_list};

use crate::Child;
use crate::group::is_before;
use ent_types::Memory;
use std::alloc::Global;

/// A sibling that has no place yet.
#[derive(Clone, Copy, Debug, PartialEq, Eq)]
pub(crate) struct Waiting {
    /// The sibling.
    child: u32,
    /// How many of those that have no place yet precede it.
    blockers: usize,
}

/// Counts the siblings that precede one of them.
fn count_blockers(children: &[Child], siblings: &[u32], child: u32) -> usize
    requires known { All (λ number. number < length children.now) siblings.now }
    requires child { child < length children.now }
    ensures { result ≡ blockers_of (precedes children.now) siblings.now child }
{
    siblings
        .iter()
        .filter(|other| is_before(children, **other, child))
        .count()
}

/// Returns all siblings, each with the number of its blockers.
fn list_waiting(alloc: Global, children: &[Child], siblings: &[u32]) -> Result<Vec<Waiting>, Memory>
    requires { All (λ number. number < length children.now) siblings.now }
    ensures { IfOk result (λ rest. rest.items ≡ waiting_list (precedes children.now) siblings.now) }
{
    let mut rest = Vec::with_capacity(alloc, siblings.len())?;
    for child in siblings {
        let blockers = count_blockers(children, siblings, *child);
        rest.push(Waiting {
            child: *child,
            blockers,
        })?;
    }
    Ok(rest)
}

/// Returns the place of the first of the rest that none of the rest precedes.
fn first_free(rest: &[Waiting]) -> Option<usize>
    ensures { result ≡ position (λ waiting. waiting.blockers == 0) rest.now }
{
    rest.iter().position(|waiting| waiting.blockers == 0)
}

/// Returns a waiting sibling after another one has got its place.
fn released_by(children: &[Child], waiting: Waiting, placed: u32) -> Waiting
    requires known { waiting.child < length children.now }
    requires placed { placed < length children.now }
    ensures { result ≡ released (precedes children.now) placed waiting }
{
    if is_before(children, placed, waiting.child) {
        Waiting {
            child: waiting.child,
            blockers: waiting.blockers.saturating_sub(1),
        }
    } else {
        waiting
    }
}

/// Removes a sibling that has got its place from the blockers of those that wait.
fn release(children: &[Child], rest: &mut [Waiting], placed: u32)
    requires known { All (λ waiting. waiting.child < length children.now) rest.old }
    requires placed { placed < length children.now }
    ensures { rest.new ≡ map (released (precedes children.now) placed) rest.old }
{
    for waiting in rest.iter_mut() {
        *waiting = released_by(children, *waiting, placed);
    }
}

/// Returns siblings in their places. Siblings that precede each other in a circle, and those after them, are left out.
///
/// It takes as many steps as there are pairs of siblings.
pub(crate) fn place(alloc: Global, children: &[Child], siblings: &[u32]) -> Result<Vec<u32>, Memory>
    requires { All (λ number. number < length children.now) siblings.now }
    ensures { IfOk result (λ placed. placed.items ≡ places (precedes children.now) (length siblings.now) siblings.now) }
{
    let mut rest = list_waiting(alloc, children, siblings)?;
    let mut placed = Vec::with_capacity(alloc, siblings.len())?;
    while let Some(at) = first_free(&rest) {
        let child = rest.remove(at).child;
        release(children, &mut rest, child);
        placed.push(child)?;
    }
    Ok(placed)
}
