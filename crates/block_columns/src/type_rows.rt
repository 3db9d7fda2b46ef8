//! The rows of one type: columns or buffers, and enable bits.
ghost use Rattle.std.specs.Prelude.{◌≡◌, ◌<◌, ◌≤◌, ℕ, [], ◌∷◌, ◌++◌, not, true, false, length, map, slice_index_or, slice_set, if◌then◌else◌, IfOk};
ghost use Rattle.std.specs.List.{swap_remove};
ghost use Rattle.ent_types.specs.declared.limits.TheConstants.{MOST_BLOCK_ROWS};
ghost use Rattle.buffer_store.specs.Buffers.{buffer};
ghost use Rattle.enable_bits.specs.Masks.{has};
ghost use Rattle.block_columns.specs.Columns.{value_at};
ghost use Rattle.block_columns.specs.Slices.{slice_values};
ghost use Rattle.block_columns.specs.Types.{TypeState, HasLawfulWidth, HasField, TakesValue, TakesNumbers, TakesReferences, IsEnableable, IsBuffer, TakesElements, one_row, all_rows, blank_cell, cell_in, kind_in, new_cell, with_value, with_off, with_values, with_number_in, with_reference_in, with_enabled_in};

use crate::column::ColumnSlice;
use crate::fields::{Fields, new_fields};
use crate::shape::TypeShape;
use buffer_store::Elements;
use enable_bits::Mask;
use ent_types::{Entity, Memory, TypeId, Value};
use std::alloc::Global;
use std::marker::Model;

/// What a block keeps of one type that isn't shared. Contracts see the type, for how many rows there is room, and a cell
/// for each row.
#[derive(Drop)]
pub struct TypeRows {
    shape: TypeShape,
    fields: Fields,
    // The rows in which the type is disabled.
    off: Mask,
    rows: u32,
    capacity: u32,
}

impl Model for TypeRows {
    ghost use Rattle.block_columns.specs.Places.{tabulated};
    ghost use Rattle.block_columns.specs.Fields.{fields_of};
    ghost use Rattle.block_columns.specs.Types.{TypeState, cell_at, IsEven};

    ghost Value = { TypeState };

    ghost view = { λ t. record { shape = t.shape; capacity = t.capacity; cells = tabulated (cell_at t.shape (fields_of t.fields) t.off) 0 t.rows } };

    ghost invariant = { λ t. IsEven t.rows t.capacity t.shape t.off (fields_of t.fields) };
}

impl TypeRows {
    /// Returns a type with no row.
    pub fn new(alloc: Global, shape: TypeShape, capacity: u32) -> Result<TypeRows, Memory>
        requires most { capacity ≤ MOST_BLOCK_ROWS }
        requires width { HasLawfulWidth shape }
        ensures { IfOk result (λ t. t ≡ record { shape = shape; capacity = capacity; cells = [] }) }
    {
        let fields = new_fields(alloc, &shape, capacity as usize)?;
        Ok(TypeRows {
            shape,
            fields,
            off: Mask::empty(),
            rows: 0,
            capacity,
        })
    }

    /// Returns the type.
    pub fn ty(&self) -> TypeId
        ensures { result ≡ self.now.shape.ty }
    {
        self.shape.ty
    }

    /// Returns what the block knows of the type.
    pub fn shape(&self) -> &TypeShape
        ensures { result.now ≡ self.now.shape }
    {
        &self.shape
    }

    /// Returns the number of rows.
    pub fn len(&self) -> u32
        ensures value { result ≡ length self.now.cells }
        ensures bound { result ≤ MOST_BLOCK_ROWS }
    {
        self.rows
    }

    /// Adds a row with 0 or null in each field, or with no element, and enabled. It takes no memory.
    pub fn push(&mut self)
        requires { length self.old.cells < self.old.capacity }
        ensures { self.new ≡ record self.old { cells = self.old.cells ++ new_cell self.old.shape ∷ [] } }
    {
        self.fields.push(self.rows as usize, self.capacity as usize);
        self.rows += 1;
    }

    /// Removes a row; the last row takes its place.
    pub fn swap_remove(&mut self, row: u32)
        requires { row < length self.old.cells }
        ensures { self.new ≡ record self.old { cells = swap_remove self.old.cells row blank_cell } }
    {
        self.fields
            .swap_remove(row as usize, self.rows as usize, self.capacity as usize);
        self.off.swap_back(row, self.rows);
        self.rows -= 1;
    }

    /// Returns the value of a row in a field.
    pub fn get(&self, row: u32, field: u8) -> Value
        requires within { row < length self.now.cells }
        requires there { HasField field self.now.shape }
        ensures { result ≡ value_at field (cell_in row self.now.cells).values }
    {
        self.fields.get(field as usize, row as usize)
    }

    /// Writes a value into a row of a field.
    pub fn set(&mut self, row: u32, field: u8, value: Value)
        requires within { row < length self.old.cells }
        requires takes { TakesValue field value self.old.shape }
        ensures { self.new ≡ one_row row (with_value field value) self.old }
    {
        self.fields.set(field as usize, row as usize, value);
    }

    /// `true` if the type is enabled in a row.
    pub fn enabled(&self, row: u32) -> bool
        requires { row < length self.now.cells }
        ensures { result ≡ not (cell_in row self.now.cells).off }
    {
        !self.off.get(row)
    }

    /// Enables or disables the type in a row.
    pub fn set_enabled(&mut self, row: u32, on: bool)
        requires within { row < length self.old.cells }
        requires enableable { IsEnableable self.old.shape }
        ensures { self.new ≡ one_row row (with_off (not on)) self.old }
    {
        self.off.set(row, !on);
    }

    /// Returns the elements of a row of a buffer type.
    pub fn elements_at(&self, row: u32) -> &Elements<Value>
        requires within { row < length self.now.cells }
        requires buffer { IsBuffer self.now.shape }
        ensures { result.now ≡ buffer (length self.now.shape.kinds) (cell_in row self.now.cells).values }
    {
        self.fields.elements(row as usize)
    }

    /// Replaces the elements of a row of a buffer type, and returns the old ones.
    pub fn put_elements(&mut self, row: u32, new: Elements<Value>) -> Elements<Value>
        requires within { row < length self.old.cells }
        requires takes { TakesElements new self.old.shape }
        ensures old { result ≡ buffer (length self.old.shape.kinds) (cell_in row self.old.cells).values }
        ensures new { self.new ≡ one_row row (with_values new.values) self.old }
    {
        self.fields.put_elements(row as usize, new)
    }

    /// Returns the values of a field in all rows.
    pub fn column(&self, field: u8) -> ColumnSlice<'_>
        requires { HasField field self.now.shape }
        ensures { slice_values result ≡ map (λ c. value_at field c.values) self.now.cells }
    {
        self.fields.slice(field as usize)
    }

    /// Returns the rows in which the type is disabled.
    pub fn disabled(&self) -> Mask
        ensures { (k : ℕ) → has result k ≡ (cell_in k self.now.cells).off }
    {
        self.off
    }

    /// Writes what a field keeps of the numbers of some rows.
    pub fn store(&mut self, field: u8, numbers: &[i64], rows: &Mask)
        requires takes { TakesNumbers field self.old.shape }
        requires size { length numbers.now ≡ length self.old.cells }
        ensures { self.new ≡ all_rows (with_number_in rows.now (kind_in field self.old.shape.kinds) field numbers.now) self.old }
    {
        self.fields.store(field as usize, numbers, rows);
    }

    /// Writes the references of some rows into a field.
    pub fn store_references(&mut self, field: u8, references: &[Entity], rows: &Mask)
        requires takes { TakesReferences field self.old.shape }
        requires size { length references.now ≡ length self.old.cells }
        ensures { self.new ≡ all_rows (with_reference_in rows.now field references.now) self.old }
    {
        self.fields
            .store_references(field as usize, references, rows);
    }

    /// Enables the type in those of some rows that the mask `on` has, and disables it in the others of these.
    pub fn store_enabled(&mut self, on: &Mask, rows: &Mask)
        requires enableable { IsEnableable self.old.shape }
        ensures { self.new ≡ all_rows (with_enabled_in rows.now on.now) self.old }
    {
        self.off = disabled_in(self.rows, &self.off, on, rows);
    }
}

/// Returns the rows of `off` that aren't in `rows`, and those of the first `n` rows that are in `rows` and not in `on`.
fn disabled_in(n: u32, off: &Mask, on: &Mask, rows: &Mask) -> Mask
    requires { n ≤ MOST_BLOCK_ROWS }
    ensures here { (k : ℕ) → k < n → has result k ≡ (if has rows.now k then not (has on.now k) else has off.now k) }
    ensures past { (k : ℕ) → n ≤ k → has result k ≡ false }
{
    let all = Mask::first(n);
    let kept = off.and_not(rows);
    let switched = rows.and_not(on);
    all.and_not(&all.and_not(&kept).and_not(&switched))
}
