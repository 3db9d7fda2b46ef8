//! Boxes with the rows that a block lent, one for each type. A box may hold the next one of its list, so that lending
//! relinks boxes and takes no memory.
ghost use Rattle.std.specs.Prelude.{◌≡◌, ◌<◌, ◌∷◌, not, length, true, ⊤, MatchOption};
ghost use Rattle.buffer_store.specs.Buffers.{buffer};
ghost use Rattle.block_columns.specs.Types.{cell_in, with_value, with_off, with_values, with_number_in, with_reference_in, with_enabled_in, one_row, all_rows, TakesValue, TakesNumbers, TakesReferences, TakesElements, IsEnableable};
ghost use Rattle.chunk_block.specs.Pieces.{pieces_in, OfPiece, LacksPiece, IfPiece, HasTheRow, piece_off, InRow, OfRows, OfShape, stored_numbers, change_piece};

use block_columns::TypeRows;
use buffer_store::Elements;
use enable_bits::Mask;
use ent_types::{Entity, TypeId, Value};

/// The rows of one type, and the rest of the list that they are in. It is empty while its type isn't lent.
#[derive(Drop)]
pub struct Piece {
    /// The rows of the type, while they are lent.
    pub rows: Option<TypeRows>,
    /// The next pieces, while the rows are lent.
    pub next: Option<Box<Piece>>,
}

/// A list of pieces.
pub type Chain = Option<Box<Piece>>;

/// Returns the list with rows before it, in a box.
pub(crate) fn put_first(rows: TypeRows, mut shell: Box<Piece>, list: Chain) -> Chain
    ensures { pieces_in result ≡ rows ∷ pieces_in list }
{
    shell.rows = Some(rows);
    shell.next = list;
    Some(shell)
}

/// Returns the rows of a type.
pub(crate) fn find_rows(list: &Chain, ty: TypeId) -> &TypeRows
    requires { OfPiece ty.0 (λ _. ⊤) (pieces_in list.now) }
    ensures { OfPiece ty.0 (λ t. result.now ≡ t) (pieces_in list.now) }
{
    match list {
        None => unreachable!(),
        Some(piece) => match &piece.rows {
            None => find_rows(&piece.next, ty),
            Some(held) => {
                if held.ty() == ty {
                    held
                } else {
                    find_rows(&piece.next, ty)
                }
            }
        },
    }
}

/// Returns the rows of a type, or `None` if the list lacks it.
pub(crate) fn look_up(list: &Chain, ty: TypeId) -> Option<&TypeRows>
    ensures { MatchOption result (LacksPiece ty.0 (pieces_in list.now)) (λ rows. OfPiece ty.0 (λ t. rows.now ≡ t) (pieces_in list.now)) }
{
    match list {
        None => None,
        Some(piece) => match &piece.rows {
            None => look_up(&piece.next, ty),
            Some(held) => {
                if held.ty() == ty {
                    Some(held)
                } else {
                    look_up(&piece.next, ty)
                }
            }
        },
    }
}

/// `true` if a type is enabled in a row. A type that isn't there is.
pub(crate) fn is_enabled(list: &Chain, ty: TypeId, row: u32) -> bool
    requires { IfPiece ty.0 (HasTheRow row) (pieces_in list.now) }
    ensures { result ≡ not (piece_off row ty.0 (pieces_in list.now)) }
{
    match list {
        None => true,
        Some(piece) => match &piece.rows {
            None => is_enabled(&piece.next, ty, row),
            Some(held) => {
                if held.ty() == ty {
                    held.enabled(row)
                } else {
                    is_enabled(&piece.next, ty, row)
                }
            }
        },
    }
}

/// Writes a value into a row of a field of a type.
pub(crate) fn set_value(list: &mut Chain, ty: TypeId, row: u32, field: u8, value: Value)
    requires { OfPiece ty.0 (InRow row (TakesValue field value)) (pieces_in list.old) }
    ensures { pieces_in list.new ≡ change_piece ty.0 (one_row row (with_value field value)) (pieces_in list.old) }
{
    match list {
        None => unreachable!(),
        Some(piece) => {
            let Piece { rows: lent, next } = &mut **piece;
            match lent {
                None => set_value(next, ty, row, field, value),
                Some(held) => {
                    if held.ty() == ty {
                        held.set(row, field, value);
                    } else {
                        set_value(next, ty, row, field, value);
                    }
                }
            }
        }
    }
}

/// Enables or disables a type in a row.
pub(crate) fn set_enabled(list: &mut Chain, ty: TypeId, row: u32, on: bool)
    requires { OfPiece ty.0 (InRow row IsEnableable) (pieces_in list.old) }
    ensures { pieces_in list.new ≡ change_piece ty.0 (one_row row (with_off (not on))) (pieces_in list.old) }
{
    match list {
        None => unreachable!(),
        Some(piece) => {
            let Piece { rows: lent, next } = &mut **piece;
            match lent {
                None => set_enabled(next, ty, row, on),
                Some(held) => {
                    if held.ty() == ty {
                        held.set_enabled(row, on);
                    } else {
                        set_enabled(next, ty, row, on);
                    }
                }
            }
        }
    }
}

/// Writes what a field keeps of the numbers of some rows.
pub(crate) fn store(list: &mut Chain, ty: TypeId, field: u8, numbers: &[i64], rows: &Mask)
    requires { OfPiece ty.0 (OfRows (length numbers.now) (TakesNumbers field)) (pieces_in list.old) }
    ensures { pieces_in list.new ≡ change_piece ty.0 (stored_numbers rows.now field numbers.now) (pieces_in list.old) }
{
    match list {
        None => unreachable!(),
        Some(piece) => {
            let Piece { rows: lent, next } = &mut **piece;
            match lent {
                None => store(next, ty, field, numbers, rows),
                Some(held) => {
                    if held.ty() == ty {
                        held.store(field, numbers, rows);
                    } else {
                        store(next, ty, field, numbers, rows);
                    }
                }
            }
        }
    }
}

/// Writes the references of some rows into a field.
pub(crate) fn store_references(
    list: &mut Chain,
    ty: TypeId,
    field: u8,
    references: &[Entity],
    rows: &Mask,
)
    requires { OfPiece ty.0 (OfRows (length references.now) (TakesReferences field)) (pieces_in list.old) }
    ensures { pieces_in list.new ≡ change_piece ty.0 (all_rows (with_reference_in rows.now field references.now)) (pieces_in list.old) }
{
    match list {
        None => unreachable!(),
        Some(piece) => {
            let Piece { rows: lent, next } = &mut **piece;
            match lent {
                None => store_references(next, ty, field, references, rows),
                Some(held) => {
                    if held.ty() == ty {
                        held.store_references(field, references, rows);
                    } else {
                        store_references(next, ty, field, references, rows);
                    }
                }
            }
        }
    }
}

/// Enables a type in those of some rows that the mask `on` has, and disables it in the others of these.
pub(crate) fn store_enabled(list: &mut Chain, ty: TypeId, on: &Mask, rows: &Mask)
    requires { OfPiece ty.0 (OfShape IsEnableable) (pieces_in list.old) }
    ensures { pieces_in list.new ≡ change_piece ty.0 (all_rows (with_enabled_in rows.now on.now)) (pieces_in list.old) }
{
    match list {
        None => unreachable!(),
        Some(piece) => {
            let Piece { rows: lent, next } = &mut **piece;
            match lent {
                None => store_enabled(next, ty, on, rows),
                Some(held) => {
                    if held.ty() == ty {
                        held.store_enabled(on, rows);
                    } else {
                        store_enabled(next, ty, on, rows);
                    }
                }
            }
        }
    }
}

/// Replaces the elements of a row of a buffer type, and returns the old ones.
pub(crate) fn put_elements(
    list: &mut Chain,
    ty: TypeId,
    row: u32,
    new: Elements<Value>,
) -> Elements<Value>
    requires { OfPiece ty.0 (InRow row (TakesElements new)) (pieces_in list.old) }
    ensures old { OfPiece ty.0 (λ t. result ≡ buffer (length t.shape.kinds) (cell_in row t.cells).values) (pieces_in list.old) }
    ensures new { pieces_in list.new ≡ change_piece ty.0 (one_row row (with_values new.values)) (pieces_in list.old) }
{
    match list {
        None => unreachable!(),
        Some(piece) => {
            let Piece { rows: lent, next } = &mut **piece;
            match lent {
                None => put_elements(next, ty, row, new),
                Some(held) => {
                    if held.ty() == ty {
                        held.put_elements(row, new)
                    } else {
                        put_elements(next, ty, row, new)
                    }
                }
            }
        }
    }
}
