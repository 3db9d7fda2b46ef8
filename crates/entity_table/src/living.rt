//! The walk over the alive entities.
ghost use Rattle.std.specs.Prelude.{◌≡◌, ◌+◌, ◌≤◌, length};
ghost use Rattle.std.specs.Iterator.{YieldsFirst, item_count};
ghost use Rattle.entity_table.specs.Table.{living_from};
ghost use Rattle.entity_table.specs.Slots.{holders_of, FindsFirst};

use crate::Place;
use crate::table::Slot;
use ent_types::Entity;
use ent_types::limits::MOST_INDEXES;
use std::marker::Model;

/// A walk over the alive entities with the places of their rows, by rising index. Contracts see the list of those
/// that are left.
///
/// A whole walk reads each index that was ever made once, alive or not.
#[derive(Drop)]
pub struct Living<'a> {
    slots: &'a [Slot],
    index: u32,
}

impl<'a> Model for Living<'a> {
    ghost use Rattle.std.specs.Prelude.{◌+◌, ◌≤◌, List, length};
    ghost use Rattle.ent_types.specs.declared.entity.Entity.{Entity as Name};
    ghost use Rattle.ent_types.specs.declared.limits.TheConstants.{MOST_INDEXES};
    ghost use Rattle.entity_table.specs.declared.table.Place.{Place as At};

    ghost Value = { List (Name × At) };

    ghost use Rattle.entity_table.specs.Table.{living_from};
    ghost use Rattle.entity_table.specs.Slots.{holders_of};

    ghost view = { λ l. living_from l.index (holders_of l.slots.now) };

    ghost invariant = { λ l. l.index + length l.slots.now ≤ MOST_INDEXES };
}

impl<'a> Living<'a> {
    /// Returns the walk over these slots, the first of which is that of `index`.
    pub(crate) fn new(slots: &'a [Slot], index: u32) -> Living<'a>
        requires { index + length slots.now ≤ MOST_INDEXES }
        ensures { result ≡ living_from index (holders_of slots.now) }
    {
        Living { slots, index }
    }
}

impl<'a> Iterator for Living<'a> {
    type Item = (Entity, Place);

    ghost next_gives = { YieldsFirst (λ living. living) };

    ghost remaining = { item_count (λ living. living) };

    fn next(&mut self) -> Option<(Entity, Place)> {
        let (at, version, place) = first_alive(self.slots)?;
        let index = self.index + at as u32;
        self.slots = &self.slots[at + 1..];
        self.index = index + 1;
        Some((Entity { index, version }, place))
    }
}

/// Returns the first slot of an alive entity: where it is, and the entity's version and place.
fn first_alive(slots: &[Slot]) -> Option<(usize, u32, Place)>
    ensures { FindsFirst slots.now result }
{
    for (at, slot) in slots.iter().enumerate() {
        if let Some(place) = slot.place {
            return Some((at, slot.version, place));
        }
    }
    None
}
