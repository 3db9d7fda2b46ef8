//! What an expression reads of the rows of a block.
ghost use Rattle.std.specs.Prelude.{◌≡◌, ℕ, Bool, true, false, ◌<◌, ◌≤◌, ◌+◌, MatchOption};
ghost use Rattle.ent_types.specs.declared.entity.TypeId.{TypeId};
ghost use Rattle.enable_bits.specs.Masks.{has};
ghost use Rattle.expr_eval.specs.Values.{OwnRow};
ghost use Rattle.block_columns.specs.Columns.{HoldsReferences};
ghost use Rattle.block_columns.specs.Slices.{slice_values};
ghost use Rattle.block_eval.specs.Columns.{HoldsValues};

use block_columns::ColumnSlice;
use enable_bits::Mask;
use ent_types::limits::MOST_BLOCK_ROWS;
use ent_types::{Entity, TypeId, Value};

/// The most rows of a block.
pub const MOST_ROWS: usize = MOST_BLOCK_ROWS as usize;

/// The rows of one block, as expressions see them. Implementers must report rows truthfully; `evaluate` relies on it.
pub trait BlockRows {
    /// The number of rows.
    ghost rows: { Self → ℕ };

    /// The row at a place.
    ghost own_row: { Self → ℕ → OwnRow };

    /// The type is bound and has the field.
    ghost has_field: { Self → TypeId → ℕ → Bool };

    /// The fields of the type lie in columns. Of any other type all rows have one value in each field.
    ghost has_column: { Self → TypeId → Bool };

    /// Returns the number of rows.
    fn len(&self) -> u32
        ensures { result ≡ rows self.now };

    /// Returns the value that all rows have of a field that lies in no column, as that of a shared type. Returns `None` if and only if
    /// the field lies in a column.
    fn constant(&self, ty: TypeId, field: u8) -> Option<Value>
        requires { has_field self.now ty field ≡ true }
        ensures { MatchOption result (has_column self.now ty ≡ true)
            (λ v. (has_column self.now ty ≡ false) × ((k : ℕ) → k < rows self.now → (own_row self.now k).field ty field ≡ v)) };

    /// Returns the values of a field in all rows.
    fn column(&self, ty: TypeId, field: u8) -> ColumnSlice<'_>
        requires has { has_field self.now ty field ≡ true }
        requires column { has_column self.now ty ≡ true }
        ensures { HoldsValues (slice_values result) (rows self.now) (λ k. (own_row self.now k).field ty field) };

    /// Returns the rows' entities.
    fn entities(&self) -> &[Entity]
        ensures { HoldsReferences result.now (rows self.now) (λ k. (own_row self.now k).me) };

    /// Returns the rows that have the type enabled.
    fn enabled(&self, ty: TypeId) -> Mask
        ensures { (k : ℕ) → k < rows self.now → has result k ≡ (own_row self.now k).on ty };

    /// Returns the number of the item: which of the visited blocks this is.
    fn item(&self) -> u32
        ensures { (k : ℕ) → k < rows self.now → (own_row self.now k).item ≡ result };

    /// Returns the place of the first row in its block. The others follow it.
    fn first_row(&self) -> u32
        requires { rows self.now ≤ MOST_BLOCK_ROWS }
        ensures value { (k : ℕ) → k < rows self.now → (own_row self.now k).row ≡ result + k }
        ensures bound { result + rows self.now ≤ MOST_BLOCK_ROWS };

    /// Returns the frame, from 1.
    fn frame(&self) -> u32
        ensures { (k : ℕ) → k < rows self.now → (own_row self.now k).frame ≡ result };

    /// Returns the number of a row in its spawn, from 0.
    fn n(&self) -> u32
        ensures { (k : ℕ) → k < rows self.now → (own_row self.now k).n ≡ result };
}
