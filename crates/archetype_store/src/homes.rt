//! Which blocks have room for a row.
//!
//! A home is an archetype with the values of its shared types. It is found by the ids of these values, so that its blocks are found
//! without a look at those of other homes.
ghost use Rattle.std.specs.Prelude.{◌≡◌, ℕ, List, ◌++◌, ◌+◌, ◌<◌, ◌≤◌, false, true, length, Option, None, IfOk, OnOk, vec_capacity};
ghost use Rattle.std.specs.Cmp.{partial_equiv_from_equiv};
ghost use Rattle.std.specs.HashMap.{get};
ghost use Rattle.world_model.specs.Members.{IsRising};
ghost use Rattle.archetype_store.specs.declared.numbers.TheConstants.{MOST_NUMBERS};
ghost use Rattle.archetype_store.specs.Holding.{ids_of};
ghost use Rattle.archetype_store.specs.HomeKeys.{same_home, home_writes, same_home_equiv, home_writes_alike};
ghost use Rattle.archetype_store.specs.Homes.{AreFew, AreHomes, AreKnown, IsHomeFor, Lodger, LosesRank, NotesRoom, TakesRank, first_number, has_rank, home_state, homes_of, number_at_first};

use crate::shared_parts::SharedPart;
use ent_types::{Memory, Sequence};
use shared_values::SharedId;
use std::alloc::Global;
use std::collections::HashMap;
use std::hash::{Hash, Hasher};

/// An archetype with the ids of the values of its shared types.
#[derive(Drop)]
pub(crate) struct HomeKey {
    pub(crate) archetype: u32,
    pub(crate) ids: Sequence<SharedId>,
}

impl PartialEq for HomeKey {
    ghost eq = { same_home };

    ghost laws = { partial_equiv_from_equiv same_home_equiv };

    fn eq(&self, other: &HomeKey) -> bool {
        self.archetype == other.archetype && self.ids.as_slice() == other.ids.as_slice()
    }
}

impl Eq for HomeKey {
    ghost laws = { same_home_equiv };
}

impl Hash for HomeKey {
    ghost hash_input = { home_writes };

    ghost respects_eq = { home_writes_alike.fed };

    fn hash<H: Hasher>(&self, state: &mut H) {
        self.archetype.hash(state);
        self.ids.as_slice().hash(state);
    }
}

/// The ranks of the blocks of a home that have room, and how many full ones it has.
#[derive(Drop)]
pub(crate) struct Home {
    pub(crate) ranks: Vec<usize>,
    pub(crate) full: usize,
}

/// Puts a rank among rising ones, for which they have room.
pub(crate) fn put_rank(ranks: &mut Vec<usize>, rank: usize)
    requires room { length ranks.old.items < vec_capacity ranks.old }
    requires rising { IsRising ranks.old.items }
    requires new { has_rank rank ranks.old.items ≡ false }
    ensures ranks { TakesRank ranks.old.items ranks.new.items rank }
    ensures capacity { vec_capacity ranks.old ≤ vec_capacity ranks.new }
{
    if let Err(place) = ranks.binary_search(&rank) {
        let _ = ranks.insert(place, rank);
    }
}

/// Takes a rank from rising ones.
pub(crate) fn drop_rank(ranks: &mut Vec<usize>, rank: usize)
    requires rising { IsRising ranks.old.items }
    requires there { has_rank rank ranks.old.items ≡ true }
    ensures ranks { LosesRank ranks.old.items ranks.new.items rank }
    ensures capacity { vec_capacity ranks.new ≡ vec_capacity ranks.old }
{
    if let Ok(place) = ranks.binary_search(&rank) {
        ranks.remove(place);
    }
}

/// Notes whether a block of a home has room for a row, as it had or had not before.
pub(crate) fn note_room(home: &mut Home, rank: usize, was: bool, is: bool)
    requires rising { IsRising home.old.ranks.items }
    requires there { has_rank rank home.old.ranks.items ≡ was }
    requires room { length home.old.ranks.items + home.old.full ≤ vec_capacity home.old.ranks }
    requires full { was ≡ false → 0 < home.old.full }
    requires few { home.old.full ≤ MOST_NUMBERS }
    ensures { NotesRoom (home_state home.old) (home_state home.new) rank was is }
{
    match (was, is) {
        (true, false) => {
            drop_rank(&mut home.ranks, rank);
            home.full += 1;
        }
        (false, true) => {
            put_rank(&mut home.ranks, rank);
            home.full -= 1;
        }
        _ => {}
    }
}

/// Returns the number of the first block with room in the home of a key.
pub(crate) fn first_in(
    homes: &[Home],
    found: &HashMap<HomeKey, usize>,
    order: &[Option<u32>],
    key: &HomeKey,
) -> Option<u32>
    requires known { AreKnown (homes_of homes.now) (get same_home found.now) }
    ensures { result ≡ first_number (homes_of homes.now) order.now (get same_home found.now key.now) }
{
    match found.get(key) {
        None => None,
        Some(home) => number_of_first(order, &homes[*home].ranks),
    }
}

/// Returns the number at the first of some ranks.
fn number_of_first(order: &[Option<u32>], ranks: &[usize]) -> Option<u32>
    ensures { result ≡ number_at_first order.now ranks.now }
{
    match ranks.first() {
        None => None,
        Some(rank) => match order.get(*rank) {
            Some(number) => *number,
            None => None,
        },
    }
}

/// Adds the ids of some parts to a list that has room for them.
fn add_ids(shared: &[SharedPart], ids: &mut Vec<SharedId>)
    requires { length ids.old.items + length shared.now ≤ vec_capacity ids.old }
    ensures { ids.new.items ≡ ids.old.items ++ ids_of shared.now }
{
    match shared.split_first() {
        None => {}
        Some((part, rest)) => {
            ids.push_reserved(part.id);
            add_ids(rest, ids);
        }
    }
}

/// Returns the key of the home of some parts.
fn key_of(alloc: Global, archetype: u32, shared: &[SharedPart]) -> Result<HomeKey, Memory>
    ensures { IfOk result (λ key. key ≡ record { archetype = archetype; ids = ids_of shared.now }) }
{
    let mut ids = Vec::with_capacity(alloc, shared.len())?;
    add_ids(shared, &mut ids);
    Ok(HomeKey {
        archetype,
        ids: Sequence::from_vec(ids),
    })
}

/// Takes the memory for one more block of a home.
fn reserve_block(home: &mut Home) -> Result<(), Memory>
    requires { home.old.full ≤ MOST_NUMBERS }
    ensures ranks { home.new.ranks.items ≡ home.old.ranks.items }
    ensures full { home.new.full ≡ home.old.full }
    ensures capacity { vec_capacity home.old.ranks ≤ vec_capacity home.new.ranks }
    ensures ok { OnOk result (length home.new.ranks.items + home.new.full < vec_capacity home.new.ranks) }
{
    home.ranks.reserve(home.full + 1)?;
    Ok(())
}

/// Makes a home without blocks for a key that has none, with room for a block.
fn add_home(
    alloc: Global,
    homes: &mut Vec<Home>,
    found: &mut HashMap<HomeKey, usize>,
    key: HomeKey,
) -> Result<usize, Memory>
    requires known { AreKnown (homes_of homes.old.items) (get same_home found.old) }
    requires new { get same_home found.old key ≡ None }
    ensures keeps { (slots : List (Option Lodger)) (order : List (Option ℕ)) → AreHomes (homes_of homes.old.items) (get same_home found.old) slots order → AreHomes (homes_of homes.new.items) (get same_home found.new) slots order }
    ensures ok { IfOk result (IsHomeFor (homes_of homes.new.items) (get same_home found.new) key) }
{
    let home = homes.len();
    homes.reserve(1)?;
    let ranks = Vec::with_capacity(alloc, 1)?;
    found.insert(key, home)?;
    homes.push_reserved(Home { ranks, full: 0 });
    Ok(home)
}

/// Returns the home of some parts, with room for one more block, and makes it if there is none.
pub(crate) fn home_for(
    alloc: Global,
    homes: &mut Vec<Home>,
    found: &mut HashMap<HomeKey, usize>,
    archetype: u32,
    shared: &[SharedPart],
) -> Result<usize, Memory>
    requires known { AreKnown (homes_of homes.old.items) (get same_home found.old) }
    requires few { AreFew (homes_of homes.old.items) }
    ensures keeps { (slots : List (Option Lodger)) (order : List (Option ℕ)) → AreHomes (homes_of homes.old.items) (get same_home found.old) slots order → AreHomes (homes_of homes.new.items) (get same_home found.new) slots order }
    ensures ok { IfOk result (IsHomeFor (homes_of homes.new.items) (get same_home found.new) (record { archetype = archetype; ids = ids_of shared.now })) }
{
    let key = key_of(alloc, archetype, shared)?;
    match found.get(&key).copied() {
        Some(home) => {
            reserve_block(&mut homes[home])?;
            Ok(home)
        }
        None => add_home(alloc, homes, found, key),
    }
}
