//! The gaps that emptied blocks leave in block order, and how they are closed.
ghost use Rattle.std.specs.Prelude.{◌≡◌, ◌+◌, ◌<◌, ◌^◌, filter, is_some, map, IfSome, IsSome, if◌then◌else◌, vec_capacity};
ghost use Rattle.archetype_store.specs.Slots.{AreOrdered, slot_at};
ghost use Rattle.archetype_store.specs.Homes.{homes_of};
ghost use Rattle.archetype_store.specs.Gaps.{Renumbers, ranked, rank_there, reranked};

use crate::homes::Home;
use crate::slots::Held;

/// Gives the block of a place a rank, and returns the next rank. An empty place has no block.
fn rank_block(slots: &mut Vec<Option<Held>>, place: Option<u32>, rank: usize) -> usize
    requires there { IfSome place (λ n. IsSome (slot_at slots.old.items n)) }
    requires fits { rank + 1 < 2 ^ 64 }
    ensures slots { slots.new.items ≡ ranked place rank slots.old.items }
    ensures next { result ≡ (if is_some place then rank + 1 else rank) }
{
    match place {
        None => rank,
        Some(number) => {
            match &mut slots[number as usize] {
                Some(held) => held.rank = rank,
                None => unreachable!(),
            }
            rank + 1
        }
    }
}

/// Gives each block the rank that it has once the empty places are gone.
pub(crate) fn rank_blocks(slots: &mut Vec<Option<Held>>, order: &[Option<u32>])
    requires { AreOrdered (λ h. h.rank) slots.old.items order.now }
    ensures { Renumbers slots.old.items slots.new.items order.now }
{
    let mut rank = 0;
    for place in 0..order.len() {
        rank = rank_block(slots, order[place], rank);
    }
}

/// Returns the rank of the block at a place; 0 if there is none.
fn rank_at(slots: &[Option<Held>], order: &[Option<u32>], place: usize) -> usize
    ensures { result ≡ rank_there slots.now (slot_at order.now place) }
{
    match order.get(place) {
        Some(Some(number)) => match slots.get(*number as usize) {
            Some(Some(held)) => held.rank,
            _ => 0,
        },
        _ => 0,
    }
}

/// Replaces places by the ranks of their blocks.
fn rerank(places: &mut Vec<usize>, slots: &[Option<Held>], order: &[Option<u32>])
    ensures ranks { places.new.items ≡ map (λ place. rank_there slots.now (slot_at order.now place)) places.old.items }
    ensures capacity { vec_capacity places.new ≡ vec_capacity places.old }
{
    for i in 0..places.len() {
        places[i] = rank_at(slots, order, places[i]);
    }
}

/// Gives homes the new ranks of their blocks.
pub(crate) fn rerank_homes(homes: &mut Vec<Home>, slots: &[Option<Held>], order: &[Option<u32>])
    ensures { homes_of homes.new.items ≡ map (reranked slots.now order.now) (homes_of homes.old.items) }
{
    for h in 0..homes.len() {
        rerank(&mut homes[h].ranks, slots, order);
    }
}

/// Drops the empty places.
pub(crate) fn drop_gaps(order: &mut Vec<Option<u32>>)
    ensures { order.new.items ≡ filter is_some order.old.items }
{
    order.retain(|place| place.is_some());
}
