//! Playback order.
ghost use Rattle.std.specs.Prelude.{◌≡◌, IfOk};
ghost use Rattle.ent_types.specs.declared.point.Point.{Point};
ghost use Rattle.run_model.specs.Buffers.{arranged};
ghost use Rattle.command_record.specs.Entries.{entries_at as seen_at};
ghost use Rattle.playback.specs.Order.{AreApart, Arranges, all_entries};

use crate::places::{entries_at, places_of, refuse_shared};
use command_record::{Chain, Entry};
use ent_types::{Memory, Sequence};
use std::alloc::Global;

/// Why a buffer can't be played.
#[derive(Clone, Copy, Debug, PartialEq, Eq)]
pub enum ArrangeEnd {
    /// A key comes from two items.
    KeyShared {
        /// The least such key.
        key: i32,
        /// Its least item.
        first_item: u32,
        /// Its least item but one.
        second_item: u32,
    },
    /// Memory ran out.
    Memory,
}

impl From<Memory> for ArrangeEnd {
    ghost use Rattle.std.specs.Prelude.{◌≡◌};
    ghost use Rattle.playback.specs.declared.order.ArrangeEnd.TheVariants as ends;

    ghost from_gives = { λ _ end. end ≡ ends.Memory };

    fn from(_: Memory) -> ArrangeEnd {
        ArrangeEnd::Memory
    }
}

/// Returns the entries of a buffer in the order in which they are played: by key, then item, row and number. `KeyShared` comes if
/// and only if a key comes from two items.
///
/// No two entries may agree in item, row and number. Each entry is copied once, after a sort of the places of all.
///
/// ```text
/// let entries = arrange(alloc, &chains)?;
/// let notes = play(alloc, &mut world, entries.as_slice())?;
/// ```
pub fn arrange(alloc: Global, chains: &[Chain]) -> Result<Sequence<Entry>, ArrangeEnd>
    requires { AreApart (all_entries chains.now) }
    ensures arranges { Arranges (all_entries chains.now) result }
    ensures defined { IfOk result (λ entries. (point : Point) → seen_at point entries ≡ arranged (seen_at point (all_entries chains.now))) }
{
    let mut places = places_of(alloc, chains)?;
    places.sort_unstable_by_key(|place| place.turn);
    refuse_shared(&places)?;
    Ok(entries_at(alloc, chains, &places)?)
}
