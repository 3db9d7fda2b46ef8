//! The columns or the buffers of one type.
ghost use Rattle.std.specs.Prelude.{◌≡◌, ◌<◌, ◌≤◌, ℕ, length, map, slice_index_or, slice_set, IfOk, true, ⊤, [], ◌∷◌};
ghost use Rattle.buffer_store.specs.Buffers.{buffer};
ghost use Rattle.block_columns.specs.Columns.{value_at, pushed, swapped, written, empty_column};
ghost use Rattle.block_columns.specs.Slices.{slice_values};
ghost use Rattle.block_columns.specs.Fields.{Columns, fields_of, new_fields, column_at, AreEven, HaveRows, HasColumn, AreLists, HasRow, HasList, TakesElements, CanStoreNumbers, CanStoreReferences, with_column, pushed_fields, swapped_fields, put_list, stored_numbers, stored_references};

use crate::buffers::Buffers;
use crate::column::{Column, ColumnSlice};
use crate::shape::TypeShape;
use buffer_store::Elements;
use enable_bits::Mask;
use ent_types::{Entity, FieldKind, Memory, Value};
use std::alloc::Global;

/// What is kept of the fields of one type. Most types have one or two fields; their columns need no list, so that they are
/// found without a further read of memory.
#[derive(Drop)]
pub enum Fields {
    /// The column of a type with one field.
    One(Column),
    /// The columns of a type with two fields.
    Two(Column, Column),
    /// A column for each field of another type. A tag has none.
    Columns(Vec<Column>),
    /// The elements of a buffer type.
    Lists(Buffers),
}

/// Returns columns of these kinds with no row.
fn new_columns(alloc: Global, kinds: &[FieldKind], capacity: usize) -> Result<Vec<Column>, Memory>
    ensures { IfOk result (λ v. v.items ≡ map (empty_column capacity) kinds.now) }
{
    let mut columns = Vec::new(alloc);
    for kind in kinds {
        columns.push(Column::new(alloc, *kind, capacity)?)?;
    }
    Ok(columns)
}

/// Returns the columns of fields of these kinds with no row.
fn new_few(alloc: Global, kinds: &[FieldKind], capacity: usize) -> Result<Fields, Memory>
    ensures { IfOk result (λ f. fields_of f ≡ Columns (map (empty_column capacity) kinds.now)) }
{
    match kinds {
        [one] => Ok(Fields::One(Column::new(alloc, *one, capacity)?)),
        [first, second] => {
            let first = Column::new(alloc, *first, capacity)?;
            let second = Column::new(alloc, *second, capacity)?;
            Ok(Fields::Two(first, second))
        }
        _ => Ok(Fields::Columns(new_columns(alloc, kinds, capacity)?)),
    }
}

/// Returns the fields of a type with no row.
pub(crate) fn new_fields(
    alloc: Global,
    shape: &TypeShape,
    capacity: usize,
) -> Result<Fields, Memory>
    requires { shape.now.is_buffer ≡ true → (1 ≤ length shape.now.kinds) × (length shape.now.kinds ≤ 8) }
    ensures { IfOk result (λ f. fields_of f ≡ new_fields capacity shape.now) }
{
    if shape.is_buffer {
        Ok(Fields::Lists(Buffers::new(alloc, shape.kinds.len() as u8, capacity)?))
    } else {
        new_few(alloc, shape.kinds.as_slice(), capacity)
    }
}

/// Adds a row of 0 or null to columns of `rows` rows.
fn push_columns(columns: &mut [Column], rows: usize, capacity: usize)
    requires even { AreEven rows capacity columns.old }
    requires room { rows < capacity }
    ensures { columns.new ≡ map pushed columns.old }
{
    match columns.split_first_mut() {
        None => {}
        Some((column, rest)) => {
            column.push();
            push_columns(rest, rows, capacity);
        }
    }
}

/// Removes a row of columns; the last row takes its place.
fn remove_columns(columns: &mut [Column], row: usize, rows: usize, capacity: usize)
    requires even { AreEven rows capacity columns.old }
    requires within { row < rows }
    ensures { columns.new ≡ map (swapped row) columns.old }
{
    match columns.split_first_mut() {
        None => {}
        Some((column, rest)) => {
            column.swap_remove(row);
            remove_columns(rest, row, rows, capacity);
        }
    }
}

/// Adds a row to all columns.
fn push_all(columns: &mut Vec<Column>, rows: usize, capacity: usize)
    requires even { AreEven rows capacity columns.old.items }
    requires room { rows < capacity }
    ensures { columns.new.items ≡ map pushed columns.old.items }
{
    push_columns(columns, rows, capacity);
}

/// Removes a row of all columns.
fn remove_all(columns: &mut Vec<Column>, row: usize, rows: usize, capacity: usize)
    requires even { AreEven rows capacity columns.old.items }
    requires within { row < rows }
    ensures { columns.new.items ≡ map (swapped row) columns.old.items }
{
    remove_columns(columns, row, rows, capacity);
}

/// Writes what a field keeps of a value into a row.
fn set_in(columns: &mut Vec<Column>, field: usize, row: usize, value: Value)
    requires there { field < length columns.old.items }
    requires within { row < length (column_at field columns.old.items).values }
    ensures { columns.new.items ≡ slice_set columns.old.items field (written row value (column_at field columns.old.items)) }
{
    columns[field].set(row, value);
}

/// Writes what a field keeps of the numbers of some rows.
fn store_in(columns: &mut Vec<Column>, field: usize, numbers: &[i64], rows: &Mask)
    requires there { field < length columns.old.items }
    requires can { CanStoreNumbers (length numbers.now) (column_at field columns.old.items) }
    ensures { columns.new.items ≡ slice_set columns.old.items field (stored_numbers rows.now numbers.now (column_at field columns.old.items)) }
{
    columns[field].store(numbers, rows);
}

/// Writes the references of some rows into a field.
fn store_references_in(columns: &mut Vec<Column>, field: usize, references: &[Entity], rows: &Mask)
    requires there { field < length columns.old.items }
    requires can { CanStoreReferences (length references.now) (column_at field columns.old.items) }
    ensures { columns.new.items ≡ slice_set columns.old.items field (stored_references rows.now references.now (column_at field columns.old.items)) }
{
    columns[field].store_references(references, rows);
}

/// Returns the value of a row in a field.
fn get_in(columns: &Vec<Column>, field: usize, row: usize) -> Value
    requires there { field < length columns.now.items }
    requires within { row < length (column_at field columns.now.items).values }
    ensures { result ≡ value_at row (column_at field columns.now.items).values }
{
    columns[field].get(row)
}

/// Returns the values of a field in all rows.
fn slice_in(columns: &Vec<Column>, field: usize) -> ColumnSlice<'_>
    requires { field < length columns.now.items }
    ensures { slice_values result ≡ (column_at field columns.now.items).values }
{
    columns[field].as_slice()
}

/// Returns the only column.
fn only(column: &Column, field: usize) -> &Column
    requires { field < 1 }
    ensures { result.now ≡ column_at field (column.now ∷ []) }
{
    column
}

/// Returns the first of two columns or the second.
fn either<'a>(first: &'a Column, second: &'a Column, field: usize) -> &'a Column
    requires { field < 2 }
    ensures { result.now ≡ column_at field (first.now ∷ second.now ∷ []) }
{
    if field == 0 { first } else { second }
}

/// Writes what the only field keeps of a value into a row.
fn set_only(column: &mut Column, field: usize, row: usize, value: Value)
    requires there { field < 1 }
    requires within { row < length (column_at field (column.old ∷ [])).values }
    ensures { column.new ∷ [] ≡ slice_set (column.old ∷ []) field (written row value (column_at field (column.old ∷ []))) }
{
    column.set(row, value);
}

/// Writes what one of two fields keeps of a value into a row.
fn set_either(first: &mut Column, second: &mut Column, field: usize, row: usize, value: Value)
    requires there { field < 2 }
    requires within { row < length (column_at field (first.old ∷ second.old ∷ [])).values }
    ensures { first.new ∷ second.new ∷ [] ≡ slice_set (first.old ∷ second.old ∷ []) field (written row value (column_at field (first.old ∷ second.old ∷ []))) }
{
    if field == 0 {
        first.set(row, value);
    } else {
        second.set(row, value);
    }
}

/// Writes what the only field keeps of the numbers of some rows.
fn store_only(column: &mut Column, field: usize, numbers: &[i64], rows: &Mask)
    requires there { field < 1 }
    requires can { CanStoreNumbers (length numbers.now) (column_at field (column.old ∷ [])) }
    ensures { column.new ∷ [] ≡ slice_set (column.old ∷ []) field (stored_numbers rows.now numbers.now (column_at field (column.old ∷ []))) }
{
    column.store(numbers, rows);
}

/// Writes what one of two fields keeps of the numbers of some rows.
fn store_either(first: &mut Column, second: &mut Column, field: usize, numbers: &[i64], rows: &Mask)
    requires there { field < 2 }
    requires can { CanStoreNumbers (length numbers.now) (column_at field (first.old ∷ second.old ∷ [])) }
    ensures { first.new ∷ second.new ∷ [] ≡ slice_set (first.old ∷ second.old ∷ []) field (stored_numbers rows.now numbers.now (column_at field (first.old ∷ second.old ∷ []))) }
{
    if field == 0 {
        first.store(numbers, rows);
    } else {
        second.store(numbers, rows);
    }
}

/// Writes the references of some rows into the only field.
fn refer_only(column: &mut Column, field: usize, references: &[Entity], rows: &Mask)
    requires there { field < 1 }
    requires can { CanStoreReferences (length references.now) (column_at field (column.old ∷ [])) }
    ensures { column.new ∷ [] ≡ slice_set (column.old ∷ []) field (stored_references rows.now references.now (column_at field (column.old ∷ []))) }
{
    column.store_references(references, rows);
}

/// Writes the references of some rows into one of two fields.
fn refer_either(
    first: &mut Column,
    second: &mut Column,
    field: usize,
    references: &[Entity],
    rows: &Mask,
)
    requires there { field < 2 }
    requires can { CanStoreReferences (length references.now) (column_at field (first.old ∷ second.old ∷ [])) }
    ensures { first.new ∷ second.new ∷ [] ≡ slice_set (first.old ∷ second.old ∷ []) field (stored_references rows.now references.now (column_at field (first.old ∷ second.old ∷ []))) }
{
    if field == 0 {
        first.store_references(references, rows);
    } else {
        second.store_references(references, rows);
    }
}

impl Fields {
    /// Adds a row of 0 or null, or with no element. There are `rows` rows, and there is room.
    pub(crate) fn push(&mut self, rows: usize, capacity: usize)
        requires suits { HaveRows rows capacity (fields_of self.old) }
        requires room { rows < capacity }
        ensures { fields_of self.new ≡ pushed_fields (fields_of self.old) }
    {
        match self {
            Fields::One(column) => column.push(),
            Fields::Two(first, second) => {
                first.push();
                second.push();
            }
            Fields::Columns(columns) => push_all(columns, rows, capacity),
            Fields::Lists(buffers) => buffers.push(),
        }
    }

    /// Removes one of `rows` rows; the last row takes its place.
    pub(crate) fn swap_remove(&mut self, row: usize, rows: usize, capacity: usize)
        requires suits { HaveRows rows capacity (fields_of self.old) }
        requires within { row < rows }
        ensures { fields_of self.new ≡ swapped_fields row (fields_of self.old) }
    {
        match self {
            Fields::One(column) => column.swap_remove(row),
            Fields::Two(first, second) => {
                first.swap_remove(row);
                second.swap_remove(row);
            }
            Fields::Columns(columns) => remove_all(columns, row, rows, capacity),
            Fields::Lists(buffers) => buffers.swap_remove(row),
        }
    }

    /// Returns the value of a row in a field.
    pub(crate) fn get(&self, field: usize, row: usize) -> Value
        requires { HasColumn field (HasRow row) (fields_of self.now) }
        ensures { HasColumn field (λ c. result ≡ value_at row c.values) (fields_of self.now) }
    {
        match self {
            Fields::One(column) => only(column, field).get(row),
            Fields::Two(first, second) => either(first, second, field).get(row),
            Fields::Columns(columns) => get_in(columns, field, row),
            Fields::Lists(_) => unreachable!(),
        }
    }

    /// Writes what a field keeps of a value into a row.
    pub(crate) fn set(&mut self, field: usize, row: usize, value: Value)
        requires { HasColumn field (HasRow row) (fields_of self.old) }
        ensures { fields_of self.new ≡ with_column field (written row value) (fields_of self.old) }
    {
        match self {
            Fields::One(column) => set_only(column, field, row, value),
            Fields::Two(first, second) => set_either(first, second, field, row, value),
            Fields::Columns(columns) => set_in(columns, field, row, value),
            Fields::Lists(_) => unreachable!(),
        }
    }

    /// Writes what a field keeps of the numbers of some rows.
    pub(crate) fn store(&mut self, field: usize, numbers: &[i64], rows: &Mask)
        requires { HasColumn field (CanStoreNumbers (length numbers.now)) (fields_of self.old) }
        ensures { fields_of self.new ≡ with_column field (stored_numbers rows.now numbers.now) (fields_of self.old) }
    {
        match self {
            Fields::One(column) => store_only(column, field, numbers, rows),
            Fields::Two(first, second) => store_either(first, second, field, numbers, rows),
            Fields::Columns(columns) => store_in(columns, field, numbers, rows),
            Fields::Lists(_) => unreachable!(),
        }
    }

    /// Writes the references of some rows into a field.
    pub(crate) fn store_references(&mut self, field: usize, references: &[Entity], rows: &Mask)
        requires { HasColumn field (CanStoreReferences (length references.now)) (fields_of self.old) }
        ensures { fields_of self.new ≡ with_column field (stored_references rows.now references.now) (fields_of self.old) }
    {
        match self {
            Fields::One(column) => refer_only(column, field, references, rows),
            Fields::Two(first, second) => refer_either(first, second, field, references, rows),
            Fields::Columns(columns) => store_references_in(columns, field, references, rows),
            Fields::Lists(_) => unreachable!(),
        }
    }

    /// Returns the values of a field in all rows.
    pub(crate) fn slice(&self, field: usize) -> ColumnSlice<'_>
        requires { HasColumn field (λ _. ⊤) (fields_of self.now) }
        ensures { HasColumn field (λ c. slice_values result ≡ c.values) (fields_of self.now) }
    {
        match self {
            Fields::One(column) => only(column, field).as_slice(),
            Fields::Two(first, second) => either(first, second, field).as_slice(),
            Fields::Columns(columns) => slice_in(columns, field),
            Fields::Lists(_) => unreachable!(),
        }
    }

    /// Returns the elements of a row.
    pub(crate) fn elements(&self, row: usize) -> &Elements<Value>
        requires { AreLists (HasList row) (fields_of self.now) }
        ensures { AreLists (λ b. result.now ≡ buffer b.width (slice_index_or b.lists row [])) (fields_of self.now) }
    {
        match self {
            Fields::One(_) => unreachable!(),
            Fields::Two(_, _) => unreachable!(),
            Fields::Columns(_) => unreachable!(),
            Fields::Lists(buffers) => buffers.get(row),
        }
    }

    /// Replaces the elements of a row, and returns the old ones.
    pub(crate) fn put_elements(&mut self, row: usize, new: Elements<Value>) -> Elements<Value>
        requires { AreLists (TakesElements row new) (fields_of self.old) }
        ensures old { AreLists (λ b. result ≡ buffer b.width (slice_index_or b.lists row [])) (fields_of self.old) }
        ensures new { fields_of self.new ≡ put_list row new.values (fields_of self.old) }
    {
        match self {
            Fields::One(_) => unreachable!(),
            Fields::Two(_, _) => unreachable!(),
            Fields::Columns(_) => unreachable!(),
            Fields::Lists(buffers) => buffers.put(row, new),
        }
    }
}
