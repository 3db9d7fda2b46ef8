//! What a block lends.
ghost use Rattle.std.specs.Prelude.{◌≡◌, ℕ, not, length, map, ⊤, MatchOption};
ghost use Rattle.buffer_store.specs.Buffers.{buffer};
ghost use Rattle.enable_bits.specs.Masks.{has};
ghost use Rattle.block_columns.specs.Columns.{value_at};
ghost use Rattle.block_columns.specs.Slices.{slice_values};
ghost use Rattle.block_columns.specs.Types.{cell_in, with_value, with_off, with_values, with_reference_in, with_enabled_in, one_row, all_rows, HasField, TakesValue, TakesNumbers, TakesReferences, TakesElements, IsEnableable, IsBuffer};
ghost use Rattle.chunk_block.specs.Blocks.{BlockState, IsLoanOf};
ghost use Rattle.chunk_block.specs.Pieces.{OfPiece, LacksPiece, IfPiece, HasTheRow, piece_off, InRow, OfRows, OfShape, stored_numbers, change_piece};

use crate::piece::{
    Chain, find_rows, is_enabled, look_up, put_elements, set_enabled, set_value, store,
    store_enabled, store_references,
};
use block_columns::{ColumnSlice, TypeRows};
use buffer_store::Elements;
use enable_bits::Mask;
use ent_types::{Entity, TypeId, TypeSet, Value};
use std::marker::Model;

/// The columns and bits of some types of a block, while they are lent. Contracts see the rows of each type, by rising
/// type.
///
/// A loan that is dropped takes its columns with it, so its block can't be made whole any more.
#[derive(Drop)]
pub struct Loan {
    pub(crate) number: u32,
    pub(crate) types: TypeSet,
    pub(crate) pieces: Chain,
}

impl Model for Loan {
    ghost use Rattle.chunk_block.specs.Pieces.{pieces_in};
    ghost use Rattle.chunk_block.specs.Blocks.{LoanState};

    ghost Value = { LoanState };

    ghost view = { λ l. record { number = l.number; types = l.types; pieces = pieces_in l.pieces } };
}

impl Loan {
    /// Returns the number that `lend` was given.
    pub fn number(&self) -> u32
        ensures { result ≡ self.now.number }
    {
        self.number
    }

    /// Returns the types that are lent.
    pub fn types(&self) -> &TypeSet
        ensures { result.now ≡ self.now.types }
    {
        &self.types
    }

    /// Returns the rows of a type, or `None` if the loan lacks it. One call finds the type for many reads.
    pub fn rows_of(&self, ty: TypeId) -> Option<&TypeRows>
        ensures { MatchOption result (LacksPiece ty.0 self.now.pieces) (λ rows. OfPiece ty.0 (λ t. rows.now ≡ t) self.now.pieces) }
    {
        look_up(&self.pieces, ty)
    }

    /// Returns the value of a row in a field of a type.
    pub fn field_get(&self, row: u32, ty: TypeId, field: u8) -> Value
        requires { OfPiece ty.0 (InRow row (HasField field)) self.now.pieces }
        ensures { OfPiece ty.0 (λ t. result ≡ value_at field (cell_in row t.cells).values) self.now.pieces }
    {
        find_rows(&self.pieces, ty).get(row, field)
    }

    /// Writes a value that fits into a row of a field of a type.
    pub fn field_set(&mut self, row: u32, ty: TypeId, field: u8, value: Value)
        requires { OfPiece ty.0 (InRow row (TakesValue field value)) self.old.pieces }
        ensures loan { self.new ≡ record self.old { pieces = change_piece ty.0 (one_row row (with_value field value)) self.old.pieces } }
        ensures of { (b : BlockState) → IsLoanOf b self.old → IsLoanOf b self.new }
    {
        set_value(&mut self.pieces, ty, row, field, value);
    }

    /// `true` if a type is enabled in a row. A shared type always is.
    pub fn enabled(&self, row: u32, ty: TypeId) -> bool
        requires { IfPiece ty.0 (HasTheRow row) self.now.pieces }
        ensures { result ≡ not (piece_off row ty.0 self.now.pieces) }
    {
        is_enabled(&self.pieces, ty, row)
    }

    /// Enables or disables a type in a row.
    pub fn set_enabled(&mut self, row: u32, ty: TypeId, on: bool)
        requires { OfPiece ty.0 (InRow row IsEnableable) self.old.pieces }
        ensures loan { self.new ≡ record self.old { pieces = change_piece ty.0 (one_row row (with_off (not on))) self.old.pieces } }
        ensures of { (b : BlockState) → IsLoanOf b self.old → IsLoanOf b self.new }
    {
        set_enabled(&mut self.pieces, ty, row, on);
    }

    /// Returns the elements of a row of a buffer type.
    pub fn elements_at(&self, row: u32, ty: TypeId) -> &Elements<Value>
        requires { OfPiece ty.0 (InRow row IsBuffer) self.now.pieces }
        ensures { OfPiece ty.0 (λ t. result.now ≡ buffer (length t.shape.kinds) (cell_in row t.cells).values) self.now.pieces }
    {
        find_rows(&self.pieces, ty).elements_at(row)
    }

    /// Replaces the elements of a row of a buffer type, and returns the old ones.
    pub fn put_elements(&mut self, row: u32, ty: TypeId, new: Elements<Value>) -> Elements<Value>
        requires { OfPiece ty.0 (InRow row (TakesElements new)) self.old.pieces }
        ensures old { OfPiece ty.0 (λ t. result ≡ buffer (length t.shape.kinds) (cell_in row t.cells).values) self.old.pieces }
        ensures new { self.new ≡ record self.old { pieces = change_piece ty.0 (one_row row (with_values new.values)) self.old.pieces } }
        ensures of { (b : BlockState) → IsLoanOf b self.old → IsLoanOf b self.new }
    {
        put_elements(&mut self.pieces, ty, row, new)
    }

    /// Returns the values of a field of a type in all rows.
    pub fn column(&self, ty: TypeId, field: u8) -> ColumnSlice<'_>
        requires { OfPiece ty.0 (OfShape (HasField field)) self.now.pieces }
        ensures { OfPiece ty.0 (λ t. slice_values result ≡ map (λ c. value_at field c.values) t.cells) self.now.pieces }
    {
        find_rows(&self.pieces, ty).column(field)
    }

    /// Returns the rows in which a type is disabled.
    pub fn disabled(&self, ty: TypeId) -> Mask
        requires { OfPiece ty.0 (λ _. ⊤) self.now.pieces }
        ensures { OfPiece ty.0 (λ t. (k : ℕ) → has result k ≡ (cell_in k t.cells).off) self.now.pieces }
    {
        find_rows(&self.pieces, ty).disabled()
    }

    /// Writes what a field of numbers keeps of the numbers of some rows.
    pub fn store(&mut self, ty: TypeId, field: u8, numbers: &[i64], rows: &Mask)
        requires { OfPiece ty.0 (OfRows (length numbers.now) (TakesNumbers field)) self.old.pieces }
        ensures loan { self.new ≡ record self.old { pieces = change_piece ty.0 (stored_numbers rows.now field numbers.now) self.old.pieces } }
        ensures of { (b : BlockState) → IsLoanOf b self.old → IsLoanOf b self.new }
    {
        store(&mut self.pieces, ty, field, numbers, rows);
    }

    /// Writes the references of some rows into a ref field.
    pub fn store_references(&mut self, ty: TypeId, field: u8, references: &[Entity], rows: &Mask)
        requires { OfPiece ty.0 (OfRows (length references.now) (TakesReferences field)) self.old.pieces }
        ensures loan { self.new ≡ record self.old { pieces = change_piece ty.0 (all_rows (with_reference_in rows.now field references.now)) self.old.pieces } }
        ensures of { (b : BlockState) → IsLoanOf b self.old → IsLoanOf b self.new }
    {
        store_references(&mut self.pieces, ty, field, references, rows);
    }

    /// Enables a type in those of some rows that the mask `on` has, and disables it in the others of these.
    pub fn store_enabled(&mut self, ty: TypeId, on: &Mask, rows: &Mask)
        requires { OfPiece ty.0 (OfShape IsEnableable) self.old.pieces }
        ensures loan { self.new ≡ record self.old { pieces = change_piece ty.0 (all_rows (with_enabled_in rows.now on.now)) self.old.pieces } }
        ensures of { (b : BlockState) → IsLoanOf b self.old → IsLoanOf b self.new }
    {
        store_enabled(&mut self.pieces, ty, on, rows);
    }
}
