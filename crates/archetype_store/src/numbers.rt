//! The numbers of blocks: those that are free, and the next one.
ghost use Rattle.std.specs.Prelude.{◌≡◌, ◌+◌, ◌<◌, ◌≤◌, length, IfOk, OnOk, OnErr, vec_capacity, None, Some, IsNone, [], ◌∷◌, ◌++◌, slice_set};
ghost use Rattle.archetype_store.specs.Slots.{AreFree, slot_at, put_slot};
ghost use Rattle.archetype_store.specs.declared.numbers.TheConstants.{MOST_NUMBERS};

use crate::slots::Held;
use ent_types::Memory;

/// The most blocks that a store has at once.
pub const MOST_NUMBERS: u32 = u32::MAX;

/// Takes the memory for one more block, for its number when it is free again, and for its place in two lists.
pub(crate) fn take_room(
    slots: &mut Vec<Option<Held>>,
    free: &mut Vec<u32>,
    order: &mut Vec<Option<u32>>,
    members: &mut Vec<u32>,
) -> Result<(), Memory>
    ensures slots_stay { slots.new.items ≡ slots.old.items }
    ensures free_stay { free.new.items ≡ free.old.items }
    ensures order_stays { order.new.items ≡ order.old.items }
    ensures members_stay { members.new.items ≡ members.old.items }
    ensures free_capacity { vec_capacity free.old ≤ vec_capacity free.new }
    ensures slots_room { OnOk result (length slots.new.items < vec_capacity slots.new) }
    ensures free_room { OnOk result (length slots.new.items + 1 ≤ vec_capacity free.new) }
    ensures order_room { OnOk result (length order.new.items < vec_capacity order.new) }
    ensures members_room { OnOk result (length members.new.items < vec_capacity members.new) }
{
    slots.reserve(1)?;
    let numbers = slots.len() + 1;
    free.reserve(numbers.saturating_sub(free.len()))?;
    order.reserve(1)?;
    members.reserve(1)?;
    Ok(())
}

/// Puts a block into a free number, or into a new one if none is free, and returns the number.
pub(crate) fn put(slots: &mut Vec<Option<Held>>, free: &mut Vec<u32>, held: Held) -> u32
    requires room { length slots.old.items < vec_capacity slots.old }
    requires few { free.old.items ≡ [] → length slots.old.items < MOST_NUMBERS }
    requires bound { length slots.old.items ≤ MOST_NUMBERS }
    requires are_free { AreFree slots.old.items free.old.items }
    ensures vacant { slot_at slots.old.items result ≡ None }
    ensures slots { slots.new.items ≡ put_slot slots.old.items result held }
    ensures within { result ≤ length slots.old.items }
    ensures bound { length slots.new.items ≤ MOST_NUMBERS }
    ensures are_free { AreFree slots.new.items free.new.items }
    ensures count { length free.new.items + 1 + length slots.old.items ≡ length free.old.items + length slots.new.items }
    ensures free_capacity { vec_capacity free.new ≡ vec_capacity free.old }
{
    match free.pop() {
        Some(number) => {
            slots[number as usize] = Some(held);
            number
        }
        None => {
            let number = slots.len() as u32;
            slots.push_reserved(Some(held));
            number
        }
    }
}
