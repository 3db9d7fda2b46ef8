//! Appending the blocks of another store.
//!
//! First a block without rows is added for each block of the other store, which may run out of memory and is undone then. After
//! that each of them is replaced by its block, which takes no memory.
ghost use Rattle.std.specs.Prelude.{◌≡◌, ℕ, List, ◌++◌, ◌+◌, ◌<◌, ◌≤◌, ⊤, [], length, map, IfOk, IfErr, OnOk, OnErr, IfSome, IsSome};
ghost use Rattle.archetype_store.specs.Slots.{slot_at};
ghost use Rattle.archetype_store.specs.Inside.{number_at};
ghost use Rattle.world_model.specs.Members.{In};
ghost use Rattle.world_model.specs.Part.{part_of as seen_part};
ghost use Rattle.archetype_store.specs.declared.numbers.TheConstants.{MOST_NUMBERS};
ghost use Rattle.archetype_store.specs.Holding.{Backs, ids_of, parts_of};
ghost use Rattle.archetype_store.specs.Stores.{Numbered, OfBlock, OfNumber, with_block_in};
ghost use Rattle.archetype_store.specs.Attached.{AddsHollow, Agree, Attaches, AwaitsBlocks, CopiesAt, EndsHollow, Extends, Grows, HasHollows, IsHollow, IsMoved, IsOneKind, TakesAt};

use crate::homes::note_room;
use crate::shared_parts::SharedPart;
use crate::slots::{Held, held_at, take_out};
use crate::store::ArchetypeStore;
use chunk_block::Block;
use ent_types::{Memory, Part, Values};
use shared_values::SharedTable;
use std::alloc::Global;

/// Adds copies of the values that some ids stand for to a list.
fn copy_parts(
    alloc: Global,
    table: &SharedTable,
    held: &[SharedPart],
    parts: &mut Vec<Part>,
) -> Result<(), Memory>
    requires { Backs table.now (ids_of held.now) }
    ensures { OnOk result (map seen_part parts.new.items ≡ map seen_part parts.old.items ++ parts_of table.now held.now) }
{
    match held.split_first() {
        None => Ok(()),
        Some((part, rest)) => {
            let values = Values::from_slice(alloc, table.values_of(part.id).as_slice())?;
            parts.push(Part {
                ty: part.ty,
                values,
            })?;
            copy_parts(alloc, table, rest, parts)
        }
    }
}

impl ArchetypeStore {
    /// Appends the blocks of another store in their order, and returns their numbers. No row is copied, and the archetypes here keep
    /// their ids. An error is returned only if memory runs out, with the other store; then the blocks here are as before, and no more
    /// than archetypes were made. A block that is lent stays lent, and takes its loan back under its new number.
    pub fn attach(&mut self, other: ArchetypeStore) -> Result<Vec<u32>, ArchetypeStore>
        requires agree { Agree self.old other }
        requires few { length self.old.blocks + length other.blocks ≤ MOST_NUMBERS }
        ensures ok { IfOk result (λ numbers. Attaches self.old self.new other numbers.items) }
        ensures err { IfErr result (λ back. back ≡ other) }
        ensures blocks { OnErr result (self.new.blocks ≡ self.old.blocks) }
        ensures grows { OnErr result (Grows other.registry self.old self.new) }
    {
        match self.copy_blocks(&other) {
            Ok(numbers) => {
                self.take_blocks(other, &numbers);
                self.is_sound();
                Ok(numbers)
            }
            Err(_) => Err(other),
        }
    }

    /// Adds a block without rows for each block of another store, and returns their numbers. After `Memory` the blocks are as before.
    fn copy_blocks(&mut self, other: &ArchetypeStore) -> Result<Vec<u32>, Memory>
        requires agree { Agree self.old other.now }
        requires few { length self.old.blocks + length other.now.blocks ≤ MOST_NUMBERS }
        ensures grows { Grows other.now.registry self.old self.new }
        ensures ok { IfOk result (λ numbers. Extends IsHollow other.now.blocks numbers.items self.old.blocks self.new) }
        ensures err { OnErr result (self.new.blocks ≡ self.old.blocks) }
    {
        let mut numbers = Vec::new(*self.order.allocator());
        match self.copy_into(other, &mut numbers) {
            Ok(()) => Ok(numbers),
            Err(fault) => {
                self.remove_last(numbers);
                Err(fault)
            }
        }
    }

    /// Adds a block without rows for each block of another store, and notes their numbers, also those that were added before `Memory`.
    fn copy_into(&mut self, other: &ArchetypeStore, numbers: &mut Vec<u32>) -> Result<(), Memory>
        requires agree { Agree self.old other.now }
        requires few { length self.old.blocks + length other.now.blocks ≤ MOST_NUMBERS }
        requires none { numbers.old.items ≡ [] }
        ensures grows { Grows other.now.registry self.old self.new }
        ensures ok { OnOk result (Extends IsHollow other.now.blocks numbers.new.items self.old.blocks self.new) }
        ensures err { OnErr result (EndsHollow numbers.new.items self.old.blocks self.new) }
    {
        for place in 0..other.order.len() {
            self.copy_at(other, other.order[place], numbers)?;
        }
        Ok(())
    }

    /// Returns copies of the shared values of a block.
    fn parts_of(&self, number: u32) -> Result<Vec<Part>, Memory>
        requires { OfBlock number (λ _. ⊤) self.now.blocks }
        ensures { IfOk result (λ parts. OfNumber number (λ b. map seen_part parts.items ≡ b.shared) self.now.blocks) }
    {
        let alloc = *self.order.allocator();
        let mut parts = Vec::new(alloc);
        copy_parts(
            alloc,
            &self.shared,
            &held_at(&self.slots, number).shared,
            &mut parts,
        )?;
        Ok(parts)
    }

    /// Adds a block without rows for a block of another store, with its types and its shared values. After `Memory` the blocks are
    /// as before.
    fn copy_block(&mut self, other: &ArchetypeStore, number: u32) -> Result<u32, Memory>
        requires agree { Agree self.old other.now }
        requires there { OfBlock number (λ _. ⊤) other.now.blocks }
        requires few { length self.old.blocks < MOST_NUMBERS }
        ensures grows { Grows other.now.registry self.old self.new }
        ensures ok { IfOk result (λ n. (b : Numbered) → In b other.now.blocks → b.number ≡ number → AddsHollow self.old self.new b n) }
        ensures err { OnErr result (self.new.blocks ≡ self.old.blocks) }
    {
        other.is_sound();
        let types = *other.types_of(other.archetype(number));
        let parts = other.parts_of(number)?;
        let a = match &other.registry {
            None => unreachable!(),
            Some(registry) => match self.archetype_of(registry, &types) {
                Ok(a) => a,
                Err(_) => return Err(Memory),
            },
        };
        self.add_block(a, &parts)
    }

    /// Adds a block without rows for the block at a place of another store's block order, and notes its number.
    fn copy_at(
        &mut self,
        other: &ArchetypeStore,
        place: Option<u32>,
        numbers: &mut Vec<u32>,
    ) -> Result<(), Memory>
        requires agree { Agree self.old other.now }
        requires there { IfSome place (λ n. OfBlock n (λ _. ⊤) other.now.blocks) }
        requires few { IfSome place (λ n. length self.old.blocks < MOST_NUMBERS) }
        ensures grows { Grows other.now.registry self.old self.new }
        ensures ok { OnOk result (CopiesAt other.now.blocks self.old self.new numbers.old.items numbers.new.items place) }
        ensures err { OnErr result ((self.new.blocks ≡ self.old.blocks) × (numbers.new.items ≡ numbers.old.items)) }
    {
        match place {
            None => Ok(()),
            Some(number) => {
                numbers.reserve(1)?;
                let n = self.copy_block(other, number)?;
                numbers.push_reserved(n);
                Ok(())
            }
        }
    }

    /// Removes the last blocks, which have no rows and these numbers.
    fn remove_last(&mut self, numbers: Vec<u32>)
        requires { HasHollows numbers.items self.old }
        ensures registry { self.new.registry ≡ self.old.registry }
        ensures archetypes { self.new.archetypes ≡ self.old.archetypes }
        ensures blocks { (old : List Numbered) → EndsHollow numbers.items old self.old → self.new.blocks ≡ old }
    {
        let mut left = numbers;
        self.is_sound();
        while let Some(number) = left.pop() {
            self.remove_block(number);
            self.is_sound();
        }
    }

    /// Replaces the last blocks, which have no rows and these numbers, by those of another store.
    fn take_blocks(&mut self, other: ArchetypeStore, numbers: &[u32])
        requires { AwaitsBlocks other.blocks numbers.now self.old }
        ensures registry { self.new.registry ≡ self.old.registry }
        ensures archetypes { self.new.archetypes ≡ self.old.archetypes }
        ensures blocks { (old : List Numbered) → Extends IsHollow other.blocks numbers.now old self.old → Extends IsMoved other.blocks numbers.now old self.new }
    {
        self.is_sound();
        let ArchetypeStore {
            mut slots,
            order,
            ..
        } = other;
        let mut done = 0;
        for place in 0..order.len() {
            done = self.take_at(&mut slots, order[place], numbers, done);
            self.is_sound();
        }
    }

    /// Takes the block at a place of another store, and puts it into the number that comes after some others. Returns how many
    /// numbers have their blocks.
    fn take_at(
        &mut self,
        slots: &mut Vec<Option<Held>>,
        place: Option<u32>,
        numbers: &[u32],
        done: usize,
    ) -> usize
        requires there { IfSome place (λ m. IsSome (slot_at slots.old.items m)) }
        requires next { IfSome place (λ m. done < length numbers.now) }
        requires kind { IfSome place (λ m. IfSome (slot_at slots.old.items m) (λ held. OfBlock (number_at numbers.now done) (λ b. IsOneKind b held.block) self.old.blocks)) }
        ensures { TakesAt self.old self.new slots.old.items slots.new.items place (number_at numbers.now done) done result }
    {
        match place {
            None => done,
            Some(number) => {
                let held = take_out(slots, number);
                self.put_block(numbers[done], held.block);
                done + 1
            }
        }
    }

    /// Replaces a block by one of the same types. It takes no memory.
    fn put_block(&mut self, number: u32, block: Block)
        requires { OfBlock number (λ b. IsOneKind b block) self.old.blocks }
        ensures { self.new ≡ with_block_in number (λ _. block) self.old }
    {
        let held = held_at(&self.slots, number);
        let (home, rank) = (held.home, held.rank);
        let was = held.block.len() < held.block.capacity();
        let is = block.len() < block.capacity();
        note_room(&mut self.homes[home], rank, was, is);
        match &mut self.slots[number as usize] {
            Some(held) => held.block = block,
            None => unreachable!(),
        }
    }
}
