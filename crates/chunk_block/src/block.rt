//! A block.
ghost use Rattle.std.specs.Prelude.{◌≡◌, ℕ, ◌<◌, ◌≤◌, ◌++◌, ◌∷◌, not, length, map, fold, slice_get, slice_index_or, slice_set, option_map, vec_capacity, IfOk, IfSome, MatchOption, MatchResult, [], ⊤};
ghost use Rattle.std.specs.List.{flat_map, swap_remove};
ghost use Rattle.ent_types.specs.declared.limits.TheConstants.{MOST_BLOCK_ROWS};
ghost use Rattle.buffer_store.specs.Buffers.{buffer};
ghost use Rattle.enable_bits.specs.Masks.{has};
ghost use Rattle.ent_types.specs.Fitting.{null_entity};
ghost use Rattle.world_model.specs.World.{capacity};
ghost use Rattle.block_columns.specs.Places.{at_places};
ghost use Rattle.block_columns.specs.Slices.{slice_values};
ghost use Rattle.block_columns.specs.Types.{with_value, with_off, with_values, with_number_in, with_reference_in, with_enabled_in, HasField, TakesValue, TakesNumbers, TakesReferences, TakesElements, IsEnableable, IsBuffer};
ghost use Rattle.chunk_block.specs.declared.block.BlockFault.TheVariants as fault;
ghost use Rattle.chunk_block.specs.Blocks.{LoanState, new_block, content_at, changed, no_row, row_in, field_at, is_off, OfType, Lacks, IsNotLent, IsWhole, AreHeld, IsLoanOf, kind_at, new_row, lent_type, lent_row, lent_piece, given_type, given_rows, mark_at, with_mark, AreDistinct, column_types, HaveTypes};

use crate::loan::Loan;
use crate::make::{capacity_of, new_slots};
use crate::marks::{TypeMark, mark_type, new_marks, version_of};
use crate::slot::{
    Slot, find_rows, is_enabled, lend_all, look_up, push_all, put_back, put_elements, remove_all,
    set_enabled, set_value, store, store_enabled, store_references,
};
use block_columns::{ColumnSlice, TypeRows};
use buffer_store::Elements;
use enable_bits::Mask;
use ent_types::{Entity, Memory, Registry, SystemVersion, TypeId, TypeSet, Value};
use std::alloc::Global;
use std::marker::Model;
use thiserror::Error;

/// Rows that have the same types. Contracts see the rows, each with a cell for each type that isn't shared; the cell of a
/// type that is lent is blank.
///
/// Types, fields and rows that a call names must be there, and what it reads or writes must not be lent.
#[derive(Drop)]
pub struct Block {
    types: TypeSet,
    slots: Vec<Slot>,
    marks: Vec<TypeMark>,
    order: u32,
    entities: Vec<Entity>,
    dying: Mask,
    capacity: u32,
}

impl Model for Block {
    ghost use Rattle.std.specs.Prelude.{map, length, vec_capacity};
    ghost use Rattle.block_columns.specs.Places.{tabulated};
    ghost use Rattle.chunk_block.specs.Pieces.{places_of};
    ghost use Rattle.chunk_block.specs.Blocks.{BlockState, type_of, row_at, marks_of, IsSound};

    ghost Value = { BlockState };

    ghost view = { λ b. record {
      types = b.types;
      columns = map type_of (places_of b.slots.items);
      capacity = b.capacity;
      rows = tabulated (row_at (places_of b.slots.items) b.dying b.entities.items) 0 (length b.entities.items);
      marks = marks_of b.marks.items;
      order = b.order;
    } };

    ghost invariant = { λ b. IsSound (length b.entities.items) (vec_capacity b.entities) b.capacity b.dying (places_of b.slots.items) };
}

/// Why a block was not made.
#[derive(Clone, Copy, Debug, PartialEq, Eq, Error)]
pub enum BlockFault {
    /// Not even one row of these types fits into a block.
    #[error("no row of these types fits into a block")]
    TooLarge,
    /// Memory ran out.
    #[error("out of memory")]
    Memory,
}

impl From<Memory> for BlockFault {
    ghost use Rattle.std.specs.Prelude.{◌≡◌};
    ghost use Rattle.chunk_block.specs.declared.block.BlockFault.TheVariants as fault;

    ghost from_gives = { λ _ f. f ≡ fault.Memory };

    fn from(_: Memory) -> BlockFault {
        BlockFault::Memory
    }
}

/// Returns no entities, with room for some.
fn new_entities(alloc: Global, capacity: u32) -> Result<Vec<Entity>, Memory>
    ensures items { IfOk result (λ v. v.items ≡ []) }
    ensures room { IfOk result (λ v. capacity ≤ vec_capacity v) }
{
    Ok(Vec::with_capacity(alloc, capacity as usize)?)
}

/// Returns the number of entities.
fn count(entities: &Vec<Entity>) -> u32
    requires { length entities.now.items ≤ MOST_BLOCK_ROWS }
    ensures { result ≡ length entities.now.items }
{
    entities.len() as u32
}

/// Adds an entity, for which there is room.
fn push_entity(entities: &mut Vec<Entity>, e: Entity)
    requires { length entities.old.items < vec_capacity entities.old }
    ensures items { entities.new.items ≡ entities.old.items ++ e ∷ [] }
    ensures room { vec_capacity entities.old ≤ vec_capacity entities.new }
{
    let _ = entities.push(e);
}

/// Removes an entity; the last one takes its place.
fn remove_entity(entities: &mut Vec<Entity>, row: u32)
    requires { row < length entities.old.items }
    ensures items { entities.new.items ≡ swap_remove entities.old.items row null_entity }
    ensures room { vec_capacity entities.new ≡ vec_capacity entities.old }
{
    entities.swap_remove(row as usize);
}

/// Replaces an entity.
fn replace_entity(entities: &mut Vec<Entity>, row: u32, e: Entity)
    requires { row < length entities.old.items }
    ensures items { entities.new.items ≡ slice_set entities.old.items row e }
    ensures room { vec_capacity entities.new ≡ vec_capacity entities.old }
{
    entities[row as usize] = e;
}

/// Returns the entity of a row.
fn entity_of(entities: &Vec<Entity>, row: u32) -> Entity
    requires { row < length entities.now.items }
    ensures { result ≡ slice_index_or entities.now.items row null_entity }
{
    entities[row as usize]
}

/// Returns all entities.
fn all_of(entities: &Vec<Entity>) -> &[Entity]
    ensures { result.now ≡ entities.now.items }
{
    entities
}

/// Returns the entity of a row, or `None` past the last row.
fn entity_in(entities: &Vec<Entity>, row: u32) -> Option<Entity>
    ensures { result ≡ slice_get entities.now.items row }
{
    entities.get(row as usize).copied()
}

impl Block {
    /// Returns a block of these types with no row and no mark. `TooLarge` is returned if and only if no row fits. A type
    /// that the registry doesn't know counts as a tag.
    pub fn new(alloc: Global, registry: &Registry, types: &TypeSet) -> Result<Block, BlockFault>
        ensures whole { IfOk result (λ b. IsWhole b.columns) }
        ensures ok { IfOk result (λ b. b ≡ new_block registry.now types.now (capacity registry.now types.now)) }
        ensures answer { MatchResult result
            (λ _. 0 < capacity registry.now types.now)
            (λ f. (f ≡ fault.TooLarge → capacity registry.now types.now ≡ 0) × (f ≡ fault.Memory → ⊤)) }
    {
        let capacity = capacity_of(alloc, registry, types)?;
        if capacity == 0 {
            return Err(BlockFault::TooLarge);
        }
        let slots = new_slots(alloc, registry, types, capacity)?;
        let marks = new_marks(alloc, types)?;
        let entities = new_entities(alloc, capacity)?;
        Ok(Block {
            types: *types,
            slots,
            marks,
            order: 0,
            entities,
            dying: Mask::empty(),
            capacity,
        })
    }

    /// Returns the number of rows.
    pub fn len(&self) -> u32
        ensures value { result ≡ length self.now.rows }
        ensures bound { result ≤ self.now.capacity }
    {
        count(&self.entities)
    }

    /// Returns the most rows that the block can have.
    pub fn capacity(&self) -> u32
        ensures value { result ≡ self.now.capacity }
        ensures bound { result ≤ MOST_BLOCK_ROWS }
    {
        self.capacity
    }

    /// Returns the block's types, shared ones among them.
    pub fn types(&self) -> &TypeSet
        ensures value { result.now ≡ self.now.types }
        ensures distinct { AreDistinct (column_types self.now.columns) }
        ensures cells { HaveTypes (column_types self.now.columns) self.now.rows }
    {
        &self.types
    }

    /// Returns the entity of a row.
    pub fn entity_at(&self, row: u32) -> Entity
        requires { row < length self.now.rows }
        ensures { result ≡ (row_in row self.now.rows).entity }
    {
        entity_of(&self.entities, row)
    }

    /// Returns the entities of all rows.
    pub fn entities(&self) -> &[Entity]
        ensures { result.now ≡ map (λ r. r.entity) self.now.rows }
    {
        all_of(&self.entities)
    }

    /// Replaces the entity of a row.
    pub fn put_entity(&mut self, row: u32, e: Entity)
        requires { row < length self.old.rows }
        ensures { self.new ≡ record self.old { rows = slice_set self.old.rows row (record (row_in row self.old.rows) { entity = e }) } }
    {
        replace_entity(&mut self.entities, row, e);
    }

    /// `true` if a row is dying.
    pub fn dying(&self, row: u32) -> bool
        requires { row < length self.now.rows }
        ensures { result ≡ (row_in row self.now.rows).dying }
    {
        self.dying.get(row)
    }

    /// Says whether a row is dying.
    pub fn set_dying(&mut self, row: u32, on: bool)
        requires { row < length self.old.rows }
        ensures { self.new ≡ record self.old { rows = slice_set self.old.rows row (record (row_in row self.old.rows) { dying = on }) } }
    {
        self.dying.set(row, on);
    }

    /// Marks a type with a version.
    pub fn mark(&mut self, ty: TypeId, version: SystemVersion)
        ensures { self.new ≡ record self.old { marks = with_mark ty.0 version.0 self.old.marks } }
    {
        mark_type(&mut self.marks, ty, version);
    }

    /// Marks the order of the rows with a version.
    pub fn mark_order(&mut self, version: SystemVersion)
        ensures { self.new ≡ record self.old { order = version.0 } }
    {
        self.order = version.0;
    }

    /// Returns the version of a type's mark; 0 if the block lacks the type.
    pub fn changed(&self, ty: TypeId) -> SystemVersion
        ensures { result.0 ≡ mark_at ty.0 self.now.marks }
    {
        version_of(&self.marks, ty)
    }

    /// Returns the version of the order mark.
    pub fn order_version(&self) -> SystemVersion
        ensures { result.0 ≡ self.now.order }
    {
        SystemVersion(self.order)
    }

    /// Adds a row for an entity, and returns its place. Fields are 0 or null, buffers are empty, all types are enabled, and
    /// the row isn't dying. It takes no memory.
    pub fn push_row(&mut self, e: Entity) -> u32
        requires room { length self.old.rows < self.old.capacity }
        requires whole { IsWhole self.old.columns }
        ensures place { result ≡ length self.old.rows }
        ensures block { self.new ≡ record self.old { rows = self.old.rows ++ new_row self.old.columns e ∷ [] } }
    {
        let row = count(&self.entities);
        push_all(&mut self.slots);
        push_entity(&mut self.entities, e);
        row
    }

    /// Removes a row. The last row takes its place, and its entity is returned.
    pub fn swap_remove_row(&mut self, row: u32) -> Option<Entity>
        requires within { row < length self.old.rows }
        requires whole { IsWhole self.old.columns }
        ensures moved { result ≡ option_map (λ r. r.entity) (slice_get self.new.rows row) }
        ensures block { self.new ≡ record self.old { rows = swap_remove self.old.rows row no_row } }
    {
        let rows = count(&self.entities);
        remove_all(&mut self.slots, row);
        self.dying.swap_back(row, rows);
        remove_entity(&mut self.entities, row);
        entity_in(&self.entities, row)
    }

    /// Returns the rows of a type, or `None` if the type isn't there, is shared or is lent. One call finds the type for
    /// many reads.
    pub fn rows_of(&self, ty: TypeId) -> Option<&TypeRows>
        ensures shape { MatchOption result (Lacks ty.0 self.now.columns) (λ rows. OfType ty.0 (λ shape. rows.now.shape ≡ shape) self.now.columns) }
        ensures cells { IfSome result (λ rows. rows.now.cells ≡ map (λ r. content_at ty.0 r.cells) self.now.rows) }
    {
        look_up(&self.slots, ty)
    }

    /// Returns the value of a row in a field of a type.
    pub fn field_get(&self, row: u32, ty: TypeId, field: u8) -> Value
        requires within { row < length self.now.rows }
        requires there { OfType ty.0 (HasField field) self.now.columns }
        ensures { result ≡ field_at ty.0 field (row_in row self.now.rows) }
    {
        find_rows(&self.slots, ty).get(row, field)
    }

    /// Writes a value that fits into a row of a field of a type.
    pub fn field_set(&mut self, row: u32, ty: TypeId, field: u8, value: Value)
        requires within { row < length self.old.rows }
        requires there { OfType ty.0 (TakesValue field value) self.old.columns }
        ensures { self.new ≡ record self.old { rows = slice_set self.old.rows row (changed ty.0 (with_value field value) (row_in row self.old.rows)) } }
    {
        set_value(&mut self.slots, ty, row, field, value);
    }

    /// `true` if a type is enabled in a row. A shared type always is.
    pub fn enabled(&self, row: u32, ty: TypeId) -> bool
        requires within { row < length self.now.rows }
        requires there { IsNotLent ty.0 self.now.columns }
        ensures { result ≡ not (is_off ty.0 (row_in row self.now.rows)) }
    {
        is_enabled(&self.slots, ty, row)
    }

    /// Enables or disables a type in a row.
    pub fn set_enabled(&mut self, row: u32, ty: TypeId, on: bool)
        requires within { row < length self.old.rows }
        requires there { OfType ty.0 IsEnableable self.old.columns }
        ensures { self.new ≡ record self.old { rows = slice_set self.old.rows row (changed ty.0 (with_off (not on)) (row_in row self.old.rows)) } }
    {
        set_enabled(&mut self.slots, ty, row, on);
    }

    /// Returns the elements of a row of a buffer type.
    pub fn elements_at(&self, row: u32, ty: TypeId) -> &Elements<Value>
        requires within { row < length self.now.rows }
        requires there { OfType ty.0 IsBuffer self.now.columns }
        ensures { OfType ty.0 (λ shape. result.now ≡ buffer (length shape.kinds) (content_at ty.0 (row_in row self.now.rows).cells).values) self.now.columns }
    {
        find_rows(&self.slots, ty).elements_at(row)
    }

    /// Replaces the elements of a row of a buffer type, and returns the old ones.
    pub fn put_elements(&mut self, row: u32, ty: TypeId, new: Elements<Value>) -> Elements<Value>
        requires within { row < length self.old.rows }
        requires there { OfType ty.0 (TakesElements new) self.old.columns }
        ensures old { OfType ty.0 (λ shape. result ≡ buffer (length shape.kinds) (content_at ty.0 (row_in row self.old.rows).cells).values) self.old.columns }
        ensures new { self.new ≡ record self.old { rows = slice_set self.old.rows row (changed ty.0 (with_values new.values) (row_in row self.old.rows)) } }
    {
        put_elements(&mut self.slots, ty, row, new)
    }

    /// Returns the values of a field of a type in all rows.
    pub fn column(&self, ty: TypeId, field: u8) -> ColumnSlice<'_>
        requires { OfType ty.0 (HasField field) self.now.columns }
        ensures { slice_values result ≡ map (field_at ty.0 field) self.now.rows }
    {
        find_rows(&self.slots, ty).column(field)
    }

    /// Returns the rows in which a type is disabled.
    pub fn disabled(&self, ty: TypeId) -> Mask
        requires { OfType ty.0 (λ _. ⊤) self.now.columns }
        ensures { (k : ℕ) → has result k ≡ is_off ty.0 (row_in k self.now.rows) }
    {
        find_rows(&self.slots, ty).disabled()
    }

    /// Writes what a field of numbers keeps of the numbers of some rows.
    pub fn store(&mut self, ty: TypeId, field: u8, numbers: &[i64], rows: &Mask)
        requires size { length numbers.now ≡ length self.old.rows }
        requires there { OfType ty.0 (TakesNumbers field) self.old.columns }
        ensures { self.new ≡ record self.old { rows = at_places (λ k r. changed ty.0 (with_number_in rows.now (kind_at ty.0 field self.old.columns) field numbers.now k) r) 0 self.old.rows } }
    {
        store(&mut self.slots, ty, field, numbers, rows);
    }

    /// Writes the references of some rows into a ref field.
    pub fn store_references(&mut self, ty: TypeId, field: u8, references: &[Entity], rows: &Mask)
        requires size { length references.now ≡ length self.old.rows }
        requires there { OfType ty.0 (TakesReferences field) self.old.columns }
        ensures { self.new ≡ record self.old { rows = at_places (λ k r. changed ty.0 (with_reference_in rows.now field references.now k) r) 0 self.old.rows } }
    {
        store_references(&mut self.slots, ty, field, references, rows);
    }

    /// Enables a type in those of some rows that the mask `on` has, and disables it in the others of these.
    pub fn store_enabled(&mut self, ty: TypeId, on: &Mask, rows: &Mask)
        requires { OfType ty.0 IsEnableable self.old.columns }
        ensures { self.new ≡ record self.old { rows = at_places (λ k r. changed ty.0 (with_enabled_in rows.now on.now k) r) 0 self.old.rows } }
    {
        store_enabled(&mut self.slots, ty, on, rows);
    }

    /// Lends the columns and bits of some types. The number is the one that the loan reports. It takes no memory, since the
    /// columns themselves move.
    pub fn lend(&mut self, number: u32, types: &TypeSet) -> Loan
        requires { AreHeld types.now self.old.columns }
        ensures block { self.new ≡ record self.old { columns = map (lent_type types.now) self.old.columns; rows = map (lent_row types.now) self.old.rows } }
        ensures own { IsLoanOf self.new result }
        ensures others { (other : LoanState) → IsLoanOf self.old other → IsLoanOf self.new other }
        ensures loan { result ≡ record { number = number; types = types.now; pieces = flat_map (lent_piece types.now self.old.capacity self.old.rows) self.old.columns } }
    {
        let pieces = lend_all(&mut self.slots, types);
        Loan {
            number,
            types: *types,
            pieces,
        }
    }

    /// Takes back what the block lent. Loans may come back in any order. It takes no memory.
    pub fn give_back(&mut self, loan: Loan)
        requires { IsLoanOf self.old loan }
        ensures block { self.new ≡ record self.old { columns = fold given_type self.old.columns loan.pieces; rows = fold given_rows self.old.rows loan.pieces } }
        ensures others { (other : LoanState) → IsLoanOf self.old other → IsLoanOf self.new other }
    {
        let Loan { pieces, .. } = loan;
        put_back(&mut self.slots, pieces);
    }
}
