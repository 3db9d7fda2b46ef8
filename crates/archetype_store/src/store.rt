//! The store.
ghost use Rattle.std.specs.Prelude.{◌≡◌, ℕ, ⊤, ◌<◌, ◌≤◌, ◌++◌, ◌∷◌, [], length, map, not, slice_get, slice_set, fold, option_map, IfOk, OnOk, OnErr, MatchOption, MatchResult, None, Some, OnSome, IfSome, IsSome, IfNone, IfErr, true, false, nat_eq, vec_capacity};
ghost use Rattle.std.specs.Cmp.Lexicographic.{pointwise};
ghost use Rattle.std.specs.HashMap.{get, IsUnchanged, Updates};
ghost use Rattle.chunk_block.specs.declared.block.BlockFault.TheVariants as fault;
ghost use Rattle.std.specs.List.{flat_map, list_any};
ghost use Rattle.ent_types.specs.declared.limits.TheConstants.{MOST_BLOCK_ROWS};
ghost use Rattle.world_model.specs.Part.{part_of as seen_part, part_type};
ghost use Rattle.world_model.specs.World.{capacity};
ghost use Rattle.world_model.specs.Found.{part_at};
ghost use Rattle.block_columns.specs.Types.{with_value, with_off, with_values, TakesValue, TakesElements, IsEnableable};
ghost use Rattle.buffer_store.specs.Buffers.{buffer};
ghost use Rattle.chunk_block.specs.Blocks.{BlockState, LoanState, IsWhole, IsLoanOf, AreHeld, OfType, changed, content_at, given_rows, given_type, new_block, lent_piece, lent_row, lent_type, new_row, row_in, with_mark};
ghost use Rattle.archetype_store.specs.declared.numbers.TheConstants.{MOST_NUMBERS as most_numbers};
ghost use Rattle.archetype_store.specs.Stores.{StoreState, OfNumber, OfBlock, with_block_in, Adds, Finds, HasBlocks, IsStore, LacksTypes, Opens, IsFirstWithRoom, is_full, left, moved_into, numbered_blocks, numbers_in, rank_of, types_at, shared_types, registry_of, without_block, without_row};

use crate::blocks::Blocks;
use crate::gaps::{drop_gaps, rank_blocks, rerank_homes};
use crate::homes::{Home, HomeKey, drop_rank, first_in, note_room};
use crate::numbers::{MOST_NUMBERS, put, take_room};
use crate::shared_parts::{find_ids, release_all, values_in};
use crate::slots::{Held, archetype_and_rank, held_at, new_held, place_in, take_out};
use buffer_store::Elements;
use chunk_block::{Block, BlockFault, Loan};
use ent_types::{
    Entity, Memory, Part, Registry, Sequence, SystemVersion, TypeId, TypeSet, Value, Values,
};
use shared_values::SharedTable;
use std::alloc::Global;
use std::collections::HashMap;
use std::marker::Model;

/// The id of an archetype. It is the archetype's place in the order in which the archetypes were made.
#[derive(Clone, Copy, Debug, PartialEq, Eq)]
pub struct ArchetypeId(pub(crate) u32);

impl Model for ArchetypeId {
    ghost use Rattle.std.specs.Prelude.{ℕ};
    ghost use Rattle.std.specs.Coded.{coded_ℕ};

    ghost Value = { ℕ };

    ghost coded = { coded_ℕ };

    ghost view = { λ id. id.0 };

    ghost inverse = { λ n. record { 0 = n } };
}

/// Blocks of many archetypes, in block order.
#[derive(Drop)]
pub struct ArchetypeStore {
    pub(crate) registry: Option<Registry>,
    archetypes: Vec<TypeSet>,
    members: Vec<Vec<u32>>,
    pub(crate) slots: Vec<Option<Held>>,
    free: Vec<u32>,
    pub(crate) order: Vec<Option<u32>>,
    pub(crate) shared: SharedTable,
    pub(crate) homes: Vec<Home>,
    found: HashMap<HomeKey, usize>,
    by_types: HashMap<TypeSet, u32>,
}

impl Model for ArchetypeStore {
    ghost use Rattle.archetype_store.specs.Stores.{StoreState};

    ghost Value = { StoreState };

    ghost use Rattle.archetype_store.specs.Inside.{view_of, IsConsistent};

    ghost view = { view_of };

    ghost invariant = { IsConsistent };
}

impl ArchetypeStore {
    /// Returns the store without a block. It takes no memory.
    pub fn new(alloc: Global) -> ArchetypeStore
        ensures { result ≡ record { registry = None; archetypes = []; blocks = []; ranks = [] } }
    {
        ArchetypeStore {
            registry: None,
            archetypes: Vec::new(alloc),
            members: Vec::new(alloc),
            slots: Vec::new(alloc),
            free: Vec::new(alloc),
            order: Vec::new(alloc),
            shared: SharedTable::new(alloc),
            homes: Vec::new(alloc),
            found: HashMap::new(alloc),
            by_types: HashMap::new(alloc),
        }
    }

    /// Returns a block.
    pub fn block(&self, number: u32) -> &Block
        requires { OfBlock number (λ _. ⊤) self.now.blocks }
        ensures { OfBlock number (λ b. result.now ≡ b) self.now.blocks }
    {
        &held_at(&self.slots, number).block
    }

    /// Says what always holds of a store. It does nothing.
    pub fn is_sound(&self)
        ensures { IsStore self.now }
    {
        let _ = &self.slots;
    }

    /// Counts the archetypes. Their ids are the numbers below it.
    pub fn archetypes(&self) -> u32
        ensures { result ≡ length self.now.archetypes }
    {
        self.archetypes.len() as u32
    }

    /// Returns the archetype that was made after `k` others.
    pub fn archetype_at(&self, k: u32) -> ArchetypeId
        requires { k < length self.now.archetypes }
        ensures { result ≡ k }
    {
        ArchetypeId(k)
    }

    /// Returns the types of an archetype.
    pub fn types_of(&self, a: ArchetypeId) -> &TypeSet
        requires { a < length self.now.archetypes }
        ensures { result.now ≡ types_at self.now.archetypes a }
    {
        &self.archetypes[a.0 as usize]
    }

    /// Returns the numbers of the blocks of an archetype, in block order.
    pub fn blocks_of(&self, a: ArchetypeId) -> &[u32]
        requires { a < length self.now.archetypes }
        ensures { result.now ≡ numbers_in a self.now.blocks }
    {
        &self.members[a.0 as usize]
    }

    /// Returns the archetype of a block.
    pub fn archetype(&self, number: u32) -> ArchetypeId
        requires { OfBlock number (λ _. ⊤) self.now.blocks }
        ensures { OfNumber number (λ b. result ≡ b.archetype) self.now.blocks }
    {
        ArchetypeId(held_at(&self.slots, number).archetype)
    }

    /// Returns the rank of a block. Ranks rise in block order.
    pub fn rank(&self, number: u32) -> u64
        requires { OfBlock number (λ _. ⊤) self.now.blocks }
        ensures { result ≡ rank_of number self.now.blocks self.now.ranks }
    {
        held_at(&self.slots, number).rank as u64
    }

    /// Returns the values of a block for one of its shared types.
    pub fn shared_of(&self, number: u32, ty: TypeId) -> &Values
        requires { OfNumber number (λ b. IsSome (part_at ty.0 b.shared)) self.now.blocks }
        ensures { OfNumber number (λ b. part_at ty.0 b.shared ≡ Some result.now) self.now.blocks }
    {
        values_in(&self.shared, &held_at(&self.slots, number).shared, ty)
    }

    /// Walks the blocks with their numbers, in block order.
    pub fn blocks(&self) -> Blocks<'_>
        ensures { result ≡ numbered_blocks self.now.blocks }
    {
        Blocks::new(&self.slots, &self.order)
    }

    /// Adds a row for an entity to a block that has room.
    pub fn push_row(&mut self, number: u32, e: Entity) -> u32
        requires { OfBlock number (λ b. (length b.rows < b.capacity) × IsWhole b.columns) self.old.blocks }
        ensures place { OfBlock number (λ b. result ≡ length b.rows) self.old.blocks }
        ensures store { self.new ≡ with_block_in number (λ b. record b { rows = b.rows ++ new_row b.columns e ∷ [] }) self.old }
    {
        let held = held_at(&self.slots, number);
        let (home, rank) = (held.home, held.rank);
        let roomy = held.block.capacity() - held.block.len() > 1;
        note_room(&mut self.homes[home], rank, true, roomy);
        match &mut self.slots[number as usize] {
            Some(held) => held.block.push_row(e),
            None => unreachable!(),
        }
    }

    /// Replaces the entity of a row.
    pub fn put_entity(&mut self, number: u32, row: u32, e: Entity)
        requires { OfBlock number (λ b. row < length b.rows) self.old.blocks }
        ensures { self.new ≡ with_block_in number (λ b. record b { rows = slice_set b.rows row (record (row_in row b.rows) { entity = e }) }) self.old }
    {
        match &mut self.slots[number as usize] {
            Some(held) => held.block.put_entity(row, e),
            None => unreachable!(),
        }
    }

    /// Says whether a row is dying.
    pub fn set_dying(&mut self, number: u32, row: u32, on: bool)
        requires { OfBlock number (λ b. row < length b.rows) self.old.blocks }
        ensures { self.new ≡ with_block_in number (λ b. record b { rows = slice_set b.rows row (record (row_in row b.rows) { dying = on }) }) self.old }
    {
        match &mut self.slots[number as usize] {
            Some(held) => held.block.set_dying(row, on),
            None => unreachable!(),
        }
    }

    /// Writes a value that fits into a row of a field of a type.
    pub fn field_set(&mut self, number: u32, row: u32, ty: TypeId, field: u8, value: Value)
        requires { OfBlock number (λ b. (row < length b.rows) × OfType ty.0 (TakesValue field value) b.columns) self.old.blocks }
        ensures { self.new ≡ with_block_in number (λ b. record b { rows = slice_set b.rows row (changed ty.0 (with_value field value) (row_in row b.rows)) }) self.old }
    {
        match &mut self.slots[number as usize] {
            Some(held) => held.block.field_set(row, ty, field, value),
            None => unreachable!(),
        }
    }

    /// Enables or disables a type in a row.
    pub fn set_enabled(&mut self, number: u32, row: u32, ty: TypeId, on: bool)
        requires { OfBlock number (λ b. (row < length b.rows) × OfType ty.0 IsEnableable b.columns) self.old.blocks }
        ensures { self.new ≡ with_block_in number (λ b. record b { rows = slice_set b.rows row (changed ty.0 (with_off (not on)) (row_in row b.rows)) }) self.old }
    {
        match &mut self.slots[number as usize] {
            Some(held) => held.block.set_enabled(row, ty, on),
            None => unreachable!(),
        }
    }

    /// Marks a type with a version.
    pub fn mark(&mut self, number: u32, ty: TypeId, version: SystemVersion)
        requires { OfBlock number (λ b. ⊤) self.old.blocks }
        ensures { self.new ≡ with_block_in number (λ b. record b { marks = with_mark ty.0 version.0 b.marks }) self.old }
    {
        match &mut self.slots[number as usize] {
            Some(held) => held.block.mark(ty, version),
            None => unreachable!(),
        }
    }

    /// Marks the order of the rows with a version.
    pub fn mark_order(&mut self, number: u32, version: SystemVersion)
        requires { OfBlock number (λ b. ⊤) self.old.blocks }
        ensures { self.new ≡ with_block_in number (λ b. record b { order = version.0 }) self.old }
    {
        match &mut self.slots[number as usize] {
            Some(held) => held.block.mark_order(version),
            None => unreachable!(),
        }
    }

    /// Replaces the elements of a row of a buffer type, and returns the old ones.
    pub fn put_elements(
        &mut self,
        number: u32,
        row: u32,
        ty: TypeId,
        new: Elements<Value>,
    ) -> Elements<Value>
        requires { OfBlock number (λ b. (row < length b.rows) × OfType ty.0 (TakesElements new) b.columns) self.old.blocks }
        ensures old { OfBlock number (λ b. OfType ty.0 (λ shape. result ≡ buffer (length shape.kinds) (content_at ty.0 (row_in row b.rows).cells).values) b.columns) self.old.blocks }
        ensures new { self.new ≡ with_block_in number (λ b. record b { rows = slice_set b.rows row (changed ty.0 (with_values new.values) (row_in row b.rows)) }) self.old }
    {
        match &mut self.slots[number as usize] {
            Some(held) => held.block.put_elements(row, ty, new),
            None => unreachable!(),
        }
    }

    /// Lends the columns and bits of some types of a block. The loan reports the block's number. It takes no memory.
    pub fn lend(&mut self, number: u32, types: &TypeSet) -> Loan
        requires { OfBlock number (λ b. AreHeld types.now b.columns) self.old.blocks }
        ensures store { self.new ≡ with_block_in number (λ b. record b { columns = map (lent_type types.now) b.columns; rows = map (lent_row types.now) b.rows }) self.old }
        ensures loan { OfBlock number (λ b. result ≡ record { number = number; types = types.now; pieces = flat_map (lent_piece types.now b.capacity b.rows) b.columns }) self.old.blocks }
        ensures own { OfBlock number (λ b. IsLoanOf b result) self.new.blocks }
        ensures others { (other : LoanState) → OfBlock number (λ b. IsLoanOf b other) self.old.blocks → OfBlock number (λ b. IsLoanOf b other) self.new.blocks }
    {
        match &mut self.slots[number as usize] {
            Some(held) => held.block.lend(number, types),
            None => unreachable!(),
        }
    }

    /// Takes back what a block lent. Loans may come back in any order. It takes no memory.
    pub fn give_back(&mut self, number: u32, loan: Loan)
        requires { OfBlock number (λ b. IsLoanOf b loan) self.old.blocks }
        ensures store { self.new ≡ with_block_in number (λ b. record b { columns = fold given_type b.columns loan.pieces; rows = fold given_rows b.rows loan.pieces }) self.old }
        ensures others { (other : LoanState) → OfBlock number (λ b. IsLoanOf b other) self.old.blocks → OfBlock number (λ b. IsLoanOf b other) self.new.blocks }
    {
        match &mut self.slots[number as usize] {
            Some(held) => held.block.give_back(loan),
            None => unreachable!(),
        }
    }

    /// Returns the block into which a row with these shared values enters: the first in block order that is of the archetype, has
    /// these values, and has room. If there is none, a new block without rows is made, which is the last. After `Memory` all is as
    /// before.
    pub fn place_for(&mut self, a: ArchetypeId, shared: &[Part]) -> Result<u32, Memory>
        requires there { a < length self.old.archetypes }
        requires parts { map (λ p. part_type (seen_part p)) shared.now ≡ shared_types (registry_of self.old) (types_at self.old.archetypes a) }
        requires few { length self.old.blocks < most_numbers }
        ensures ok { IfOk result (Opens self.old self.new a (map seen_part shared.now)) }
        ensures err { OnErr result (self.new ≡ self.old) }
    {
        match self.open_block(a, shared)? {
            Some(number) => Ok(number),
            None => self.add_block(a, shared),
        }
    }

    /// Returns the first block that has room for a row with these shared values.
    fn open_block(&self, a: ArchetypeId, shared: &[Part]) -> Result<Option<u32>, Memory>
        ensures { IfOk result (λ found. MatchOption found (is_full a (map seen_part shared.now) self.now.blocks ≡ true) (λ n. IsFirstWithRoom a (map seen_part shared.now) n self.now.blocks)) }
    {
        self.shared.has_one_each();
        let alloc = *self.order.allocator();
        match find_ids(alloc, &self.shared, shared)? {
            None => Ok(None),
            Some(ids) => {
                let key = HomeKey {
                    archetype: a.0,
                    ids: Sequence::from_vec(ids),
                };
                Ok(first_in(&self.homes, &self.found, &self.order, &key))
            }
        }
    }

    /// Adds a block without rows at the end.
    pub(crate) fn add_block(&mut self, a: ArchetypeId, shared: &[Part]) -> Result<u32, Memory>
        requires there { a < length self.old.archetypes }
        requires parts { map (λ p. part_type (seen_part p)) shared.now ≡ shared_types (registry_of self.old) (types_at self.old.archetypes a) }
        requires few { length self.old.blocks < most_numbers }
        ensures ok { IfOk result (Adds self.old self.new a (map seen_part shared.now)) }
        ensures err { OnErr result (self.new ≡ self.old) }
    {
        let at = a.0 as usize;
        take_room(
            &mut self.slots,
            &mut self.free,
            &mut self.order,
            &mut self.members[at],
        )?;
        let types = &self.archetypes[at];
        let rank = self.order.len();
        let alloc = *self.order.allocator();
        let held = new_held(
            alloc,
            &self.registry,
            types,
            &mut self.shared,
            &mut self.homes,
            &mut self.found,
            a.0,
            rank,
            shared,
        )?;
        let home = held.home;
        let number = put(&mut self.slots, &mut self.free, held);
        self.order.push_reserved(Some(number));
        self.members[at].push_reserved(number);
        self.homes[home].ranks.push_reserved(rank);
        Ok(number)
    }

    /// Removes a row. The last row of the block takes its place, and its entity is returned; `None` if and only if the row was the
    /// last. If it was the only row, the block goes: its number is free again, its shared values are released, and the other blocks
    /// keep their order. It takes no memory.
    pub fn leave(&mut self, number: u32, row: u32) -> Option<Entity>
        requires { OfBlock number (λ b. (row < length b.rows) × IsWhole b.columns) self.old.blocks }
        ensures moved { OfBlock number (λ b. result ≡ moved_into row b) self.old.blocks }
        ensures blocks { HasBlocks self.old self.new (left number row self.old.blocks) }
    {
        let moved = self.remove_row(number, row);
        self.is_sound();
        if self.block(number).len() == 0 {
            self.remove_block(number);
            self.close_gaps();
        }
        moved
    }

    /// Removes a row. The last row of the block takes its place, and its entity is returned.
    fn remove_row(&mut self, number: u32, row: u32) -> Option<Entity>
        requires { OfBlock number (λ b. (row < length b.rows) × IsWhole b.columns) self.old.blocks }
        ensures moved { OfBlock number (λ b. result ≡ moved_into row b) self.old.blocks }
        ensures store { self.new ≡ with_block_in number (without_row row) self.old }
    {
        let held = held_at(&self.slots, number);
        let (home, rank) = (held.home, held.rank);
        let roomy = held.block.len() < held.block.capacity();
        note_room(&mut self.homes[home], rank, roomy, true);
        match &mut self.slots[number as usize] {
            Some(held) => held.block.swap_remove_row(row),
            None => unreachable!(),
        }
    }

    /// Removes a block that has room for a row, and releases its shared values. Its number is free again.
    pub(crate) fn remove_block(&mut self, number: u32)
        requires { OfBlock number (λ b. length b.rows < b.capacity) self.old.blocks }
        ensures { HasBlocks self.old self.new (without_block number self.old.blocks) }
    {
        let (archetype, rank) = archetype_and_rank(&self.slots, number);
        let at = place_in(&self.slots, &self.members[archetype], rank);
        self.members[archetype].remove(at);
        let held = take_out(&mut self.slots, number);
        drop_rank(&mut self.homes[held.home].ranks, rank);
        self.order[rank] = None;
        self.free.push_reserved(number);
        release_all(&mut self.shared, &held.shared);
    }

    /// Closes the gaps in block order if more than half of its places are empty. So its length grows with the blocks that are
    /// there, and a block that goes costs a constant time in the mean. Blocks get lower ranks. It takes no memory.
    fn close_gaps(&mut self)
        ensures { HasBlocks self.old self.new self.old.blocks }
    {
        let there = self.slots.len() - self.free.len();
        if self.order.len() / 2 <= there {
            return;
        }
        rank_blocks(&mut self.slots, &self.order);
        rerank_homes(&mut self.homes, &self.slots, &self.order);
        drop_gaps(&mut self.order);
    }

    /// Returns the archetype with some types, and makes it if there is none. The registry is that of each earlier call. `TooLarge`
    /// is returned if and only if no row of these types fits into a block.
    pub fn archetype_of(
        &mut self,
        registry: &Registry,
        types: &TypeSet,
    ) -> Result<ArchetypeId, BlockFault>
        requires { IfSome self.old.registry (λ r. r ≡ registry.now) }
        ensures ok { IfOk result (Finds self.old self.new registry.now types.now) }
        ensures fault { IfErr result (λ f. f ≡ fault.TooLarge → capacity registry.now types.now ≡ 0) }
        ensures err { OnErr result (self.new ≡ self.old) }
    {
        match self.by_types.get(types).copied() {
            Some(a) => Ok(ArchetypeId(a)),
            None => self.add_archetype(registry, types),
        }
    }

    /// Makes an archetype.
    fn add_archetype(
        &mut self,
        registry: &Registry,
        types: &TypeSet,
    ) -> Result<ArchetypeId, BlockFault>
        requires same { IfSome self.old.registry (λ r. r ≡ registry.now) }
        requires new { LacksTypes types.now self.old.archetypes }
        ensures ok { IfOk result (Finds self.old self.new registry.now types.now) }
        ensures fault { IfErr result (λ f. f ≡ fault.TooLarge → capacity registry.now types.now ≡ 0) }
        ensures err { OnErr result (self.new ≡ self.old) }
    {
        let alloc = *self.order.allocator();
        let a = self.archetypes.len();
        if a >= MOST_NUMBERS as usize {
            return Err(BlockFault::Memory);
        }
        has_room(alloc, registry, types)?;
        let a = a as u32;
        reserve_both(&mut self.archetypes, &mut self.members)?;
        remember(
            alloc,
            &mut self.registry,
            &mut self.by_types,
            registry,
            types,
            a,
        )?;
        self.archetypes.push_reserved(*types);
        self.members.push_reserved(Vec::new(alloc));
        Ok(ArchetypeId(a))
    }
}

/// Tests whether a row of some types fits into a block.
fn has_room(alloc: Global, registry: &Registry, types: &TypeSet) -> Result<(), BlockFault>
    ensures ok { OnOk result (0 < capacity registry.now types.now) }
    ensures fault { IfErr result (λ f. f ≡ fault.TooLarge → capacity registry.now types.now ≡ 0) }
{
    match Block::new(alloc, registry, types) {
        Ok(_) => Ok(()),
        Err(fault) => Err(fault),
    }
}

/// Takes the memory for one more archetype.
fn reserve_both(archetypes: &mut Vec<TypeSet>, members: &mut Vec<Vec<u32>>) -> Result<(), Memory>
    ensures archetypes_stay { archetypes.new.items ≡ archetypes.old.items }
    ensures members_stay { members.new.items ≡ members.old.items }
    ensures archetypes_room { OnOk result (length archetypes.new.items < vec_capacity archetypes.new) }
    ensures members_room { OnOk result (length members.new.items < vec_capacity members.new) }
{
    archetypes.reserve(1)?;
    members.reserve(1)?;
    Ok(())
}

/// Notes the id of some types, and keeps a copy of the registry if none is there.
fn remember(
    alloc: Global,
    kept: &mut Option<Registry>,
    by_types: &mut HashMap<TypeSet, u32>,
    registry: &Registry,
    types: &TypeSet,
    a: u32,
) -> Result<(), Memory>
    requires { IfSome kept.old (λ r. r ≡ registry.now) }
    ensures ok { OnOk result (kept.new ≡ Some registry.now) }
    ensures err { OnErr result (kept.new ≡ kept.old) }
    ensures noted { OnOk result (Updates (pointwise nat_eq) by_types.old by_types.new types.now (Some a)) }
    ensures unnoted { OnErr result (IsUnchanged by_types.old by_types.new) }
{
    match kept {
        Some(_) => {
            by_types.insert(*types, a)?;
            Ok(())
        }
        None => {
            let copy = registry.copy(alloc)?;
            by_types.insert(*types, a)?;
            *kept = Some(copy);
            Ok(())
        }
    }
}
