//! A column of one field that keeps its room.
ghost use Rattle.std.specs.Prelude.{◌≡◌, ◌<◌, ◌≤◌, [], map, length, IfOk};
ghost use Rattle.ent_types.specs.declared.limits.TheConstants.{MOST_BLOCK_ROWS};
ghost use Rattle.ent_types.specs.declared.kinds.FieldKind.TheVariants.{Ref as KindRef};
ghost use Rattle.block_columns.specs.Places.{at_places};
ghost use Rattle.block_columns.specs.Columns.{ColumnState, value_at, pushed, swapped, written, IsNumberKind, with_number, with_reference};
ghost use Rattle.block_columns.specs.Slices.{slice_values};

use crate::cells::Cells;
use enable_bits::Mask;
use ent_types::{Entity, FieldKind, Memory, Value};
use std::alloc::Global;
use std::marker::Model;

/// The values of one field, with room for some rows that it never loses. Contracts see its kind, its room and the rows'
/// values.
#[derive(Drop)]
pub struct Column {
    cells: Cells,
    room: usize,
}

impl Model for Column {
    ghost use Rattle.std.specs.Prelude.{◌≤◌};
    ghost use Rattle.block_columns.specs.Columns.{ColumnState, kind_of, room_of, values_of};

    ghost Value = { ColumnState };

    ghost view = { λ s. record { kind = kind_of s.cells; room = s.room; values = values_of s.cells } };

    ghost invariant = { λ s. s.room ≤ room_of s.cells };
}

/// The values of a column as a slice of its own type, so that a loop over them is chosen once.
#[derive(Clone, Copy)]
pub enum ColumnSlice<'a> {
    /// Of an i32 field.
    I32(&'a [i32]),
    /// Of an i64 field.
    I64(&'a [i64]),
    /// Of a ref field.
    Refs(&'a [Entity]),
}

impl Column {
    /// Returns a column with no row.
    pub(crate) fn new(alloc: Global, kind: FieldKind, room: usize) -> Result<Column, Memory>
        ensures { IfOk result (λ s. s ≡ record { kind = kind; room = room; values = [] }) }
    {
        let cells = Cells::new(alloc, kind, room)?;
        Ok(Column { cells, room })
    }

    /// Returns the value of a row.
    pub(crate) fn get(&self, row: usize) -> Value
        requires { row < length self.now.values }
        ensures { result ≡ value_at row self.now.values }
    {
        self.cells.get(row)
    }

    /// Writes what the field keeps of a value into a row.
    pub(crate) fn set(&mut self, row: usize, value: Value)
        requires { row < length self.old.values }
        ensures { self.new ≡ written row value self.old }
    {
        self.cells.set(row, value);
    }

    /// Adds a row of 0 or null. It takes no memory.
    pub(crate) fn push(&mut self)
        requires { length self.old.values < self.old.room }
        ensures { self.new ≡ pushed self.old }
    {
        self.cells.push();
    }

    /// Removes a row; the last row takes its place.
    pub(crate) fn swap_remove(&mut self, row: usize)
        requires { row < length self.old.values }
        ensures { self.new ≡ swapped row self.old }
    {
        self.cells.swap_remove(row);
    }

    /// Returns the values of all rows.
    pub(crate) fn as_slice(&self) -> ColumnSlice<'_>
        ensures { slice_values result ≡ self.now.values }
    {
        match &self.cells {
            Cells::I32(numbers) => ColumnSlice::I32(numbers),
            Cells::I64(numbers) => ColumnSlice::I64(numbers),
            Cells::Refs(references) => ColumnSlice::Refs(references),
        }
    }

    /// Writes what the field keeps of the numbers of some rows.
    pub(crate) fn store(&mut self, numbers: &[i64], rows: &Mask)
        requires numbers { IsNumberKind self.old.kind }
        requires size { length numbers.now ≡ length self.old.values }
        requires few { length self.old.values ≤ MOST_BLOCK_ROWS }
        ensures { self.new ≡ record self.old { values = at_places (with_number rows.now self.old.kind numbers.now) 0 self.old.values } }
    {
        self.cells.store(numbers, rows);
    }

    /// Writes the references of some rows.
    pub(crate) fn store_references(&mut self, references: &[Entity], rows: &Mask)
        requires references { self.old.kind ≡ KindRef }
        requires size { length references.now ≡ length self.old.values }
        requires few { length self.old.values ≤ MOST_BLOCK_ROWS }
        ensures { self.new ≡ record self.old { values = at_places (with_reference rows.now references.now) 0 self.old.values } }
    {
        self.cells.store_references(references, rows);
    }
}
