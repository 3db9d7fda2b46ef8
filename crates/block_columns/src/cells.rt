//! The cells of one field, by its kind.
ghost use Rattle.std.specs.Prelude.{◌≡◌, ◌<◌, ◌≤◌, ◌++◌, ◌∷◌, [], length, slice_set, IfOk, vec_capacity, if◌then◌else◌};
ghost use Rattle.std.specs.List.{swap_remove};
ghost use Rattle.ent_types.specs.declared.limits.TheConstants.{MOST_BLOCK_ROWS};
ghost use Rattle.ent_types.specs.Fitting.{default_value, fit, fit_number};
ghost use Rattle.ent_types.specs.declared.kinds.FieldKind.TheVariants.{I32, I64, Ref as KindRef};
ghost use Rattle.ent_types.specs.declared.value.Value.TheVariants.{Int, Ref};
ghost use Rattle.enable_bits.specs.Masks.{has};
ghost use Rattle.block_columns.specs.Places.{at_places};
ghost use Rattle.block_columns.specs.Columns.{kind_of, values_of, room_of, value_at, number_at, reference_at, HoldsNumbers, HoldsReferences, IsNumberKind, with_number, with_reference};

use crate::stores::{low_half, store_i32, store_i64, store_references};
use enable_bits::Mask;
use ent_types::{Entity, FieldKind, Memory, Value, fit};
use std::alloc::Global;

/// The values of one field, one for each row.
#[derive(Drop)]
pub enum Cells {
    /// Of an i32 field.
    I32(Vec<i32>),
    /// Of an i64 field.
    I64(Vec<i64>),
    /// Of a ref field.
    Refs(Vec<Entity>),
}

/// What an i32 field keeps of a value.
fn narrow_number(value: Value) -> i32
    ensures { Int result ≡ fit I32 value }
{
    match value {
        Value::Int(z) => low_half(z),
        Value::Ref(_) => 0,
    }
}

/// What an i64 field keeps of a value.
fn wide_number(value: Value) -> i64
    ensures { Int result ≡ fit I64 value }
{
    match value {
        Value::Int(z) => fit(FieldKind::I64, z),
        Value::Ref(_) => 0,
    }
}

/// What a ref field keeps of a value.
fn reference(value: Value) -> Entity
    ensures { Ref result ≡ fit KindRef value }
{
    match value {
        Value::Int(_) => Entity::NULL,
        Value::Ref(e) => e,
    }
}

/// Writes the element of a row.
fn put<T: Copy + Drop>(elements: &mut Vec<T>, row: usize, element: T)
    requires { row < length elements.old.items }
    ensures items { elements.new.items ≡ slice_set elements.old.items row element }
    ensures room { vec_capacity elements.new ≡ vec_capacity elements.old }
{
    elements[row] = element;
}

/// Writes the numbers of some rows of an i32 field.
fn store_narrow(column: &mut Vec<i32>, numbers: &[i64], rows: &Mask)
    requires size { length numbers.now ≡ length column.old.items }
    requires few { length column.old.items ≤ MOST_BLOCK_ROWS }
    ensures items { HoldsNumbers column.new.items (length column.old.items) (λ k. if has rows.now k then fit_number I32 (number_at k numbers.now) else number_at k column.old.items) }
    ensures room { vec_capacity column.new ≡ vec_capacity column.old }
{
    store_i32(column, numbers, rows);
}

/// Writes the numbers of some rows of an i64 field.
fn store_wide(column: &mut Vec<i64>, numbers: &[i64], rows: &Mask)
    requires size { length numbers.now ≡ length column.old.items }
    requires few { length column.old.items ≤ MOST_BLOCK_ROWS }
    ensures items { HoldsNumbers column.new.items (length column.old.items) (λ k. if has rows.now k then fit_number I64 (number_at k numbers.now) else number_at k column.old.items) }
    ensures room { vec_capacity column.new ≡ vec_capacity column.old }
{
    store_i64(column, numbers, rows);
}

/// Writes the references of some rows of a ref field.
fn store_refs(column: &mut Vec<Entity>, references: &[Entity], rows: &Mask)
    requires size { length references.now ≡ length column.old.items }
    requires few { length column.old.items ≤ MOST_BLOCK_ROWS }
    ensures items { HoldsReferences column.new.items (length column.old.items) (λ k. if has rows.now k then reference_at k references.now else reference_at k column.old.items) }
    ensures room { vec_capacity column.new ≡ vec_capacity column.old }
{
    store_references(column, references, rows);
}

impl Cells {
    /// Returns no cells, with room for some rows.
    pub(crate) fn new(alloc: Global, kind: FieldKind, rows: usize) -> Result<Cells, Memory>
        ensures values { IfOk result (λ c. values_of c ≡ []) }
        ensures kind { IfOk result (λ c. kind_of c ≡ kind) }
        ensures room { IfOk result (λ c. rows ≤ room_of c) }
    {
        match kind {
            FieldKind::I32 => Ok(Cells::I32(Vec::with_capacity(alloc, rows)?)),
            FieldKind::I64 => Ok(Cells::I64(Vec::with_capacity(alloc, rows)?)),
            FieldKind::Ref => Ok(Cells::Refs(Vec::with_capacity(alloc, rows)?)),
        }
    }

    /// Returns the value of a row.
    pub(crate) fn get(&self, row: usize) -> Value
        requires { row < length (values_of self.now) }
        ensures { result ≡ value_at row (values_of self.now) }
    {
        match self {
            Cells::I32(numbers) => Value::Int(i64::from(numbers[row])),
            Cells::I64(numbers) => Value::Int(numbers[row]),
            Cells::Refs(references) => Value::Ref(references[row]),
        }
    }

    /// Writes what the field keeps of a value into a row.
    pub(crate) fn set(&mut self, row: usize, value: Value)
        requires { row < length (values_of self.old) }
        ensures values { values_of self.new ≡ slice_set (values_of self.old) row (fit (kind_of self.old) value) }
        ensures kind { kind_of self.new ≡ kind_of self.old }
        ensures room { room_of self.new ≡ room_of self.old }
    {
        match self {
            Cells::I32(numbers) => put(numbers, row, narrow_number(value)),
            Cells::I64(numbers) => put(numbers, row, wide_number(value)),
            Cells::Refs(references) => put(references, row, reference(value)),
        }
    }

    /// Adds a row of 0 or null, for which there is room.
    pub(crate) fn push(&mut self)
        requires { length (values_of self.old) < room_of self.old }
        ensures values { values_of self.new ≡ values_of self.old ++ default_value (kind_of self.old) ∷ [] }
        ensures kind { kind_of self.new ≡ kind_of self.old }
        ensures room { room_of self.old ≤ room_of self.new }
    {
        match self {
            Cells::I32(numbers) => {
                let _ = numbers.push(0);
            }
            Cells::I64(numbers) => {
                let _ = numbers.push(0);
            }
            Cells::Refs(references) => {
                let _ = references.push(Entity::NULL);
            }
        }
    }

    /// Removes a row; the last row takes its place.
    pub(crate) fn swap_remove(&mut self, row: usize)
        requires { row < length (values_of self.old) }
        ensures values { values_of self.new ≡ swap_remove (values_of self.old) row (default_value (kind_of self.old)) }
        ensures kind { kind_of self.new ≡ kind_of self.old }
        ensures room { room_of self.new ≡ room_of self.old }
    {
        match self {
            Cells::I32(numbers) => {
                numbers.swap_remove(row);
            }
            Cells::I64(numbers) => {
                numbers.swap_remove(row);
            }
            Cells::Refs(references) => {
                references.swap_remove(row);
            }
        }
    }

    /// Writes what the field keeps of the numbers of some rows.
    pub(crate) fn store(&mut self, numbers: &[i64], rows: &Mask)
        requires numbers { IsNumberKind (kind_of self.old) }
        requires size { length numbers.now ≡ length (values_of self.old) }
        requires few { length (values_of self.old) ≤ MOST_BLOCK_ROWS }
        ensures values { values_of self.new ≡ at_places (with_number rows.now (kind_of self.old) numbers.now) 0 (values_of self.old) }
        ensures kind { kind_of self.new ≡ kind_of self.old }
        ensures room { room_of self.new ≡ room_of self.old }
    {
        match self {
            Cells::I32(column) => store_narrow(column, numbers, rows),
            Cells::I64(column) => store_wide(column, numbers, rows),
            Cells::Refs(_) => {}
        }
    }

    /// Writes the references of some rows.
    pub(crate) fn store_references(&mut self, references: &[Entity], rows: &Mask)
        requires references { kind_of self.old ≡ KindRef }
        requires size { length references.now ≡ length (values_of self.old) }
        requires few { length (values_of self.old) ≤ MOST_BLOCK_ROWS }
        ensures values { values_of self.new ≡ at_places (with_reference rows.now references.now) 0 (values_of self.old) }
        ensures kind { kind_of self.new ≡ kind_of self.old }
        ensures room { room_of self.new ≡ room_of self.old }
    {
        match self {
            Cells::I32(_) => {}
            Cells::I64(_) => {}
            Cells::Refs(column) => store_refs(column, references, rows),
        }
    }
}
