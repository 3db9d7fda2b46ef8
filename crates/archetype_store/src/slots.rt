//! What a store keeps for each block, by the block's number.
ghost use Rattle.std.specs.Prelude.{◌≡◌, ℕ, List, Option, ◌<◌, [], length, map, unwrap_or, slice_set, None, Some, IsSome, IfSome, IfOk, OnErr};
ghost use Rattle.std.specs.HashMap.{get};
ghost use Rattle.world_model.specs.Members.{In, IsRising};
ghost use Rattle.world_model.specs.World.{capacity};
ghost use Rattle.chunk_block.specs.Blocks.{new_block as block_of};
ghost use Rattle.world_model.specs.Part.{part_of as seen_part};
ghost use Rattle.archetype_store.specs.Slots.{slot_at};
ghost use Rattle.archetype_store.specs.Holding.{AreTyped, Backs, Holds, ids_of, parts_of};
ghost use Rattle.archetype_store.specs.HomeKeys.{same_home};
ghost use Rattle.archetype_store.specs.Homes.{AreFew, AreHomes, AreKnown, IsHomeFor, Lodger, homes_of};
ghost use Rattle.archetype_store.specs.Inside.{AreUsed, number_at, rank_at};

use crate::homes::{Home, HomeKey, home_for};
use crate::shared_parts::{SharedPart, hold_all, release_all};
use chunk_block::{Block, BlockFault};
use ent_types::{Memory, Part, Registry, TypeSet};
use shared_values::SharedTable;
use std::alloc::Global;
use std::collections::HashMap;

/// A block with what its store keeps beside it.
#[derive(Drop)]
pub(crate) struct Held {
    pub(crate) block: Block,
    pub(crate) archetype: u32,
    pub(crate) shared: Vec<SharedPart>,
    /// The place in block order.
    pub(crate) rank: usize,
    /// The home of its rows.
    pub(crate) home: usize,
}

/// Returns the block of a number.
pub(crate) fn held_at(slots: &[Option<Held>], number: u32) -> &Held
    requires { IsSome (slot_at slots.now number) }
    ensures { slot_at slots.now number ≡ Some result.now }
{
    match &slots[number as usize] {
        Some(held) => held,
        None => unreachable!(),
    }
}

/// Returns the archetype and the rank of a block.
pub(crate) fn archetype_and_rank(slots: &[Option<Held>], number: u32) -> (usize, usize)
    requires { IsSome (slot_at slots.now number) }
    ensures { IfSome (slot_at slots.now number) (λ held. (result.0 ≡ held.archetype) × (result.1 ≡ held.rank)) }
{
    let held = held_at(slots, number);
    (held.archetype as usize, held.rank)
}

/// Returns the place of the block with a rank, among numbers of blocks in block order.
pub(crate) fn place_in(slots: &[Option<Held>], numbers: &[u32], rank: usize) -> usize
    requires used { AreUsed slots.now numbers.now }
    requires rising { IsRising (map (rank_at slots.now) numbers.now) }
    requires there { In rank (map (rank_at slots.now) numbers.now) }
    ensures within { result < length numbers.now }
    ensures rank { rank_at slots.now (number_at numbers.now result) ≡ rank }
{
    let mut low = 0;
    let mut high = numbers.len();
    while high - low > 1 {
        let middle = low + (high - low) / 2;
        if held_at(slots, numbers[middle]).rank <= rank {
            low = middle;
        } else {
            high = middle;
        }
    }
    low
}

/// Takes a block out of its slot.
pub(crate) fn take_out(slots: &mut Vec<Option<Held>>, number: u32) -> Held
    requires { IsSome (slot_at slots.old.items number) }
    ensures held { slot_at slots.old.items number ≡ Some result }
    ensures slots { slots.new.items ≡ slice_set slots.old.items number None }
{
    match slots[number as usize].take() {
        Some(held) => held,
        None => unreachable!(),
    }
}

/// Returns a block of some types, of which a block has room for a row.
fn new_block(alloc: Global, registry: &Registry, types: &TypeSet) -> Result<Block, Memory>
    requires { 0 < capacity registry.now types.now }
    ensures { IfOk result (λ b. b ≡ block_of registry.now types.now (capacity registry.now types.now)) }
{
    match Block::new(alloc, registry, types) {
        Ok(block) => Ok(block),
        Err(BlockFault::Memory) => Err(Memory),
        Err(BlockFault::TooLarge) => unreachable!(),
    }
}

/// Returns a new block of some types, holds its shared values, and makes room for it in their home. After `Memory` nothing more is
/// held than before.
pub(crate) fn new_held(
    alloc: Global,
    registry: &Option<Registry>,
    types: &TypeSet,
    table: &mut SharedTable,
    homes: &mut Vec<Home>,
    found: &mut HashMap<HomeKey, usize>,
    archetype: u32,
    rank: usize,
    parts: &[Part],
) -> Result<Held, Memory>
    requires fit { 0 < capacity (unwrap_or registry.now []) types.now }
    requires registered { IsSome registry.now }
    requires known { AreKnown (homes_of homes.old.items) (get same_home found.old) }
    requires few { AreFew (homes_of homes.old.items) }
    ensures block { IfOk result (λ h. h.block ≡ block_of (unwrap_or registry.now []) types.now (capacity (unwrap_or registry.now []) types.now)) }
    ensures archetype { IfOk result (λ h. h.archetype ≡ archetype) }
    ensures rank { IfOk result (λ h. h.rank ≡ rank) }
    ensures parts { IfOk result (λ h. parts_of table.new h.shared.items ≡ map seen_part parts.now) }
    ensures held { IfOk result (λ h. (others : List ℕ) → Backs table.old others → Holds table.old table.new [] h.shared.items others) }
    ensures typed { IfOk result (λ h. AreTyped table.new h.shared.items) }
    ensures home { IfOk result (λ h. IsHomeFor (homes_of homes.new.items) (get same_home found.new) (record { archetype = archetype; ids = ids_of h.shared.items }) h.home) }
    ensures homes { (slots : List (Option Lodger)) (order : List (Option ℕ)) → AreHomes (homes_of homes.old.items) (get same_home found.old) slots order → AreHomes (homes_of homes.new.items) (get same_home found.new) slots order }
    ensures err { OnErr result ((others : List ℕ) → Backs table.old others → Holds table.old table.new [] [] others) }
{
    let block = match registry {
        None => unreachable!(),
        Some(registry) => new_block(alloc, registry, types)?,
    };
    let (shared, home) = hold_home(alloc, table, homes, found, archetype, parts)?;
    Ok(Held {
        block,
        archetype,
        shared,
        rank,
        home,
    })
}

/// Holds the values of some parts, and returns them with their home, which has room for one more block. After `Memory` nothing more
/// is held than before.
fn hold_home(
    alloc: Global,
    table: &mut SharedTable,
    homes: &mut Vec<Home>,
    found: &mut HashMap<HomeKey, usize>,
    archetype: u32,
    parts: &[Part],
) -> Result<(Vec<SharedPart>, usize), Memory>
    requires known { AreKnown (homes_of homes.old.items) (get same_home found.old) }
    requires few { AreFew (homes_of homes.old.items) }
    ensures parts { IfOk result (λ r. parts_of table.new r.0.items ≡ map seen_part parts.now) }
    ensures held { IfOk result (λ r. (others : List ℕ) → Backs table.old others → Holds table.old table.new [] r.0.items others) }
    ensures typed { IfOk result (λ r. AreTyped table.new r.0.items) }
    ensures home { IfOk result (λ r. IsHomeFor (homes_of homes.new.items) (get same_home found.new) (record { archetype = archetype; ids = ids_of r.0.items }) r.1) }
    ensures homes { (slots : List (Option Lodger)) (order : List (Option ℕ)) → AreHomes (homes_of homes.old.items) (get same_home found.old) slots order → AreHomes (homes_of homes.new.items) (get same_home found.new) slots order }
    ensures err { OnErr result ((others : List ℕ) → Backs table.old others → Holds table.old table.new [] [] others) }
{
    let shared = hold_all(alloc, table, parts)?;
    match home_for(alloc, homes, found, archetype, &shared) {
        Ok(home) => Ok((shared, home)),
        Err(fault) => {
            release_all(table, &shared);
            Err(fault)
        }
    }
}
