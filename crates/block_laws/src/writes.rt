//! What is written into a loan is in its block once the loan is back.
ghost use Rattle.std.specs.Prelude.{◌≡◌, ℕ, List, ◌<◌, not, true, length, slice_set};
ghost use Rattle.ent_types.specs.TypeSets.{has_type};
ghost use Rattle.buffer_store.specs.Buffers.{buffer};
ghost use Rattle.block_columns.specs.Places.{at_places};
ghost use Rattle.block_columns.specs.Types.{TypeState, Content, with_value, with_off, with_values, with_number_in, with_reference_in, with_enabled_in, TakesValue, TakesNumbers, TakesReferences, TakesElements, IsEnableable};
ghost use Rattle.chunk_block.specs.Pieces.{OfPiece, change_piece};
ghost use Rattle.chunk_block.specs.Blocks.{BlockState, LoanState, AreHeld, AreDistinct, HaveTypes, OfType, column_types, content_at, changed, kind_at, row_in};
ghost use Rattle.block_laws.specs.Lending.{AreLentFrom, Writes, after_lending, given_back, lent_pieces, piece_types, with_pieces};

use buffer_store::Elements;
use chunk_block::Block;
use enable_bits::Mask;
use ent_types::{Entity, TypeId, TypeSet, Value};

/// A loan comes back, whatever was written into its rows: the block is as before it lent, with the loan's cells in place
/// of its own. For a block that never has a type twice, as `Block::types` promises.
pub fn loan_comes_back()
    ensures { (types : List ℕ) (b : BlockState) (loan : LoanState) → AreDistinct (column_types b.columns) → HaveTypes (column_types b.columns) b.rows → AreHeld types b.columns
        → AreLentFrom types b loan.pieces → given_back (after_lending types b) loan ≡ with_pieces b loan.pieces }
{}

/// With nothing written the block is as before. A write that changes the cells of one piece then changes the rows of the
/// block in the same way, so writes follow one another in a loan as in its block.
pub fn writes_follow()
    ensures none { (types : List ℕ) (b : BlockState) → AreDistinct (column_types b.columns) → HaveTypes (column_types b.columns) b.rows → AreHeld types b.columns
        → with_pieces b (lent_pieces types b) ≡ b }
    ensures next { (t : ℕ) (F : TypeState → TypeState) (G : ℕ → Content → Content) (b : BlockState) (pieces : List TypeState) → AreDistinct (piece_types pieces)
        → OfPiece t (Writes (length b.rows) F G) pieces
        → with_pieces b (change_piece t F pieces) ≡ record b { rows = at_places (λ k r. changed t (G k) r) 0 (with_pieces b pieces).rows } }
{}

/// Lends some types, writes a value into a row through the loan and gives it back. It is the write on the block.
pub fn field_set(block: &mut Block, types: &TypeSet, row: u32, ty: TypeId, field: u8, value: Value)
    requires among { has_type types.now ty.0 ≡ true }
    requires held { AreHeld types.now block.old.columns }
    requires within { row < length block.old.rows }
    requires there { OfType ty.0 (TakesValue field value) block.old.columns }
    ensures { block.new ≡ record block.old { rows = slice_set block.old.rows row (changed ty.0 (with_value field value) (row_in row block.old.rows)) } }
{
    let _ = block.types();
    let mut loan = block.lend(0, types);
    loan.field_set(row, ty, field, value);
    block.give_back(loan);
}

/// Lends some types, enables or disables one in a row through the loan and gives it back. It is the write on the block.
pub fn set_enabled(block: &mut Block, types: &TypeSet, row: u32, ty: TypeId, on: bool)
    requires among { has_type types.now ty.0 ≡ true }
    requires held { AreHeld types.now block.old.columns }
    requires within { row < length block.old.rows }
    requires there { OfType ty.0 IsEnableable block.old.columns }
    ensures { block.new ≡ record block.old { rows = slice_set block.old.rows row (changed ty.0 (with_off (not on)) (row_in row block.old.rows)) } }
{
    let _ = block.types();
    let mut loan = block.lend(0, types);
    loan.set_enabled(row, ty, on);
    block.give_back(loan);
}

/// Lends some types, replaces the elements of a row through the loan and gives it back. It is the write on the block.
pub fn put_elements(
    block: &mut Block,
    types: &TypeSet,
    row: u32,
    ty: TypeId,
    new: Elements<Value>,
) -> Elements<Value>
    requires among { has_type types.now ty.0 ≡ true }
    requires held { AreHeld types.now block.old.columns }
    requires within { row < length block.old.rows }
    requires there { OfType ty.0 (TakesElements new) block.old.columns }
    ensures old { OfType ty.0 (λ shape. result ≡ buffer (length shape.kinds) (content_at ty.0 (row_in row block.old.rows).cells).values) block.old.columns }
    ensures new { block.new ≡ record block.old { rows = slice_set block.old.rows row (changed ty.0 (with_values new.values) (row_in row block.old.rows)) } }
{
    let _ = block.types();
    let mut loan = block.lend(0, types);
    let old = loan.put_elements(row, ty, new);
    block.give_back(loan);
    old
}

/// Lends some types, writes numbers into some rows through the loan and gives it back. It is the write on the block.
pub fn store(
    block: &mut Block,
    types: &TypeSet,
    ty: TypeId,
    field: u8,
    numbers: &[i64],
    rows: &Mask,
)
    requires among { has_type types.now ty.0 ≡ true }
    requires held { AreHeld types.now block.old.columns }
    requires size { length numbers.now ≡ length block.old.rows }
    requires there { OfType ty.0 (TakesNumbers field) block.old.columns }
    ensures { block.new ≡ record block.old { rows = at_places (λ k r. changed ty.0 (with_number_in rows.now (kind_at ty.0 field block.old.columns) field numbers.now k) r) 0 block.old.rows } }
{
    let _ = block.types();
    let mut loan = block.lend(0, types);
    loan.store(ty, field, numbers, rows);
    block.give_back(loan);
}

/// Lends some types, writes references into some rows through the loan and gives it back. It is the write on the block.
pub fn store_references(
    block: &mut Block,
    types: &TypeSet,
    ty: TypeId,
    field: u8,
    references: &[Entity],
    rows: &Mask,
)
    requires among { has_type types.now ty.0 ≡ true }
    requires held { AreHeld types.now block.old.columns }
    requires size { length references.now ≡ length block.old.rows }
    requires there { OfType ty.0 (TakesReferences field) block.old.columns }
    ensures { block.new ≡ record block.old { rows = at_places (λ k r. changed ty.0 (with_reference_in rows.now field references.now k) r) 0 block.old.rows } }
{
    let _ = block.types();
    let mut loan = block.lend(0, types);
    loan.store_references(ty, field, references, rows);
    block.give_back(loan);
}

/// Lends some types, enables one in some rows through the loan and gives it back. It is the write on the block.
pub fn store_enabled(block: &mut Block, types: &TypeSet, ty: TypeId, on: &Mask, rows: &Mask)
    requires among { has_type types.now ty.0 ≡ true }
    requires held { AreHeld types.now block.old.columns }
    requires there { OfType ty.0 IsEnableable block.old.columns }
    ensures { block.new ≡ record block.old { rows = at_places (λ k r. changed ty.0 (with_enabled_in rows.now on.now k) r) 0 block.old.rows } }
{
    let _ = block.types();
    let mut loan = block.lend(0, types);
    loan.store_enabled(ty, on, rows);
    block.give_back(loan);
}
