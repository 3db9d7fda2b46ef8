//! Where entries are kept, so that they can be put in order before one of them is copied.
ghost use Rattle.std.specs.Prelude.{◌≡◌, ◌++◌, length, map, min, OnOk, IfOk};
ghost use Rattle.world_model.specs.Members.{In};
ghost use Rattle.playback.specs.Order.{all_entries};
ghost use Rattle.playback.specs.Places.{IsPlaced, TellsShared, all_places, entry_in, places_in, shared_in, shares};

use crate::ArrangeEnd;
use command_record::{Chain, Entry, Turn};
use ent_types::{Memory, Sequence};
use std::alloc::Global;

/// The place of an entry, and when it is played.
#[derive(Clone, Copy, Debug)]
pub(crate) struct Place {
    pub(crate) turn: Turn,
    /// The place of the chain among the chains.
    pub(crate) chain: usize,
    /// The place of the entry in the chain.
    pub(crate) entry: u32,
}

/// Adds the places of the entries of a chain.
fn add_places(places: &mut Vec<Place>, number: usize, chain: &Chain) -> Result<(), Memory>
    ensures { OnOk result (places.new.items ≡ places.old.items ++ places_in number chain.now) }
{
    for k in 0..chain.len() {
        places.push(Place {
            turn: chain.turn(k),
            chain: number,
            entry: k,
        })?;
    }
    Ok(())
}

/// Counts the entries of all chains, up to `usize::MAX`.
fn count(chains: &[Chain]) -> usize
    ensures { result ≡ min (length (all_entries chains.now)) usize.MAX }
{
    let mut entries = 0usize;
    for chain in chains {
        entries = entries.saturating_add(chain.len() as usize);
    }
    entries
}

/// Returns the places of all entries, chain by chain.
pub(crate) fn places_of(alloc: Global, chains: &[Chain]) -> Result<Vec<Place>, Memory>
    ensures { IfOk result (λ places. places.items ≡ all_places chains.now) }
{
    let mut places = Vec::with_capacity(alloc, count(chains))?;
    for (number, chain) in chains.iter().enumerate() {
        add_places(&mut places, number, chain)?;
    }
    Ok(places)
}

/// Says whether two turns have one key, and the first a lower item than the second.
fn share_key(first: Turn, second: Turn) -> bool
    ensures { result ≡ shares first second }
{
    first.key == second.key && first.item < second.item
}

/// Refuses places of which two neighbours have one key, and the first a lower item than the second.
pub(crate) fn refuse_shared(places: &[Place]) -> Result<(), ArrangeEnd>
    ensures { TellsShared (shared_in places.now) result }
{
    for k in 1..places.len() {
        let (first, second) = (places[k - 1].turn, places[k].turn);
        if share_key(first, second) {
            return Err(ArrangeEnd::KeyShared {
                key: first.key,
                first_item: first.item,
                second_item: second.item,
            });
        }
    }
    Ok(())
}

/// Copies the entry at a place.
fn entry_at(alloc: Global, chains: &[Chain], place: Place) -> Result<Entry, Memory>
    requires { IsPlaced chains.now place }
    ensures { IfOk result (λ e. e ≡ entry_in chains.now place) }
{
    chains[place.chain].entry(alloc, place.entry)
}

/// Copies the entries at some places.
pub(crate) fn entries_at(
    alloc: Global,
    chains: &[Chain],
    places: &[Place],
) -> Result<Sequence<Entry>, Memory>
    requires { (p : Place) → In p places.now → IsPlaced chains.now p }
    ensures { IfOk result (λ entries. entries ≡ map (entry_in chains.now) places.now) }
{
    let mut entries = Vec::with_capacity(alloc, places.len())?;
    for place in places {
        entries.push(entry_at(alloc, chains, *place)?)?;
    }
    Ok(Sequence::from_vec(entries))
}
