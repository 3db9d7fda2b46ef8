//! Where a block keeps what it has of each type.
ghost use Rattle.std.specs.Prelude.{◌≡◌, ◌<◌, ◌++◌, ◌∷◌, not, length, map, true, None, ⊤, MatchOption};
ghost use Rattle.std.specs.List.{flat_map};
ghost use Rattle.buffer_store.specs.Buffers.{buffer};
ghost use Rattle.block_columns.specs.Types.{cell_in, with_value, with_off, with_values, with_number_in, with_reference_in, with_enabled_in, one_row, all_rows, TakesValue, TakesNumbers, TakesReferences, TakesElements, IsEnableable};
ghost use Rattle.chunk_block.specs.Pieces.{pieces_in, rows_of, place_of, places_of, InRow, OfRows, OfShape, stored_numbers, OfPlace, LacksPlace, place_off, Every, HasRoom, HasTheRow, AreSmall, change_place, pushed_place, swapped_place, kept, lent, lent_from, put, put_all};

use crate::piece::{Chain, Piece, put_first};
use block_columns::{TypeRows, TypeShape};
use buffer_store::Elements;
use enable_bits::Mask;
use ent_types::{Entity, TypeId, TypeSet, Value};

/// The rows of a type, and the empty box that they are lent in.
#[derive(Drop)]
pub struct Held {
    /// The rows of the type.
    pub rows: TypeRows,
    /// The box. It is made with the rows, so that lending them takes no memory.
    pub shell: Box<Piece>,
}

/// Where a block keeps what it has of one type that isn't shared. The rows lie in the slot, so that a column is found
/// without a further read of memory.
#[derive(Drop)]
pub struct Slot {
    /// The type.
    pub shape: TypeShape,
    /// The rows of the type, unless they are lent.
    pub held: Option<Held>,
}

/// Adds a row to each type.
fn push_in(slots: &mut [Slot])
    requires { Every HasRoom (places_of slots.old) }
    ensures { places_of slots.new ≡ map pushed_place (places_of slots.old) }
{
    match slots.split_first_mut() {
        None => {}
        Some((slot, rest)) => {
            match &mut slot.held {
                None => {}
                Some(held) => held.rows.push(),
            }
            push_in(rest);
        }
    }
}

/// Adds a row to each type.
pub(crate) fn push_all(slots: &mut Vec<Slot>)
    requires { Every HasRoom (places_of slots.old.items) }
    ensures { places_of slots.new.items ≡ map pushed_place (places_of slots.old.items) }
{
    push_in(slots);
}

/// Removes a row of each type; the last row takes its place.
fn remove_in(slots: &mut [Slot], row: u32)
    requires { Every (HasTheRow row) (places_of slots.old) }
    ensures { places_of slots.new ≡ map (swapped_place row) (places_of slots.old) }
{
    match slots.split_first_mut() {
        None => {}
        Some((slot, rest)) => {
            match &mut slot.held {
                None => {}
                Some(held) => held.rows.swap_remove(row),
            }
            remove_in(rest, row);
        }
    }
}

/// Removes a row of each type; the last row takes its place.
pub(crate) fn remove_all(slots: &mut Vec<Slot>, row: u32)
    requires { Every (HasTheRow row) (places_of slots.old.items) }
    ensures { places_of slots.new.items ≡ map (swapped_place row) (places_of slots.old.items) }
{
    remove_in(slots, row);
}

/// Lends the rows of a slot, if they are there, before a list of others.
fn lend_slot(slot: &mut Slot, list: Chain) -> Chain
    ensures slot { place_of slot.new ≡ record (place_of slot.old) { held = None } }
    ensures list { pieces_in result ≡ lent_from (place_of slot.old).held ++ pieces_in list }
{
    match slot.held.take() {
        None => list,
        Some(held) => {
            let Held { rows, shell } = held;
            put_first(rows, shell, list)
        }
    }
}

/// Lends the rows of some types.
fn lend_in(slots: &mut [Slot], types: &TypeSet) -> Chain
    requires { AreSmall (places_of slots.old) }
    ensures slots { places_of slots.new ≡ map (kept types.now) (places_of slots.old) }
    ensures list { pieces_in result ≡ flat_map (lent types.now) (places_of slots.old) }
{
    match slots.split_first_mut() {
        None => None,
        Some((slot, rest)) => {
            let list = lend_in(rest, types);
            if types.has(slot.shape.ty) {
                lend_slot(slot, list)
            } else {
                list
            }
        }
    }
}

/// Lends the rows of some types.
pub(crate) fn lend_all(slots: &mut Vec<Slot>, types: &TypeSet) -> Chain
    requires { AreSmall (places_of slots.old.items) }
    ensures slots { places_of slots.new.items ≡ map (kept types.now) (places_of slots.old.items) }
    ensures list { pieces_in result ≡ flat_map (lent types.now) (places_of slots.old.items) }
{
    lend_in(slots, types)
}

/// Puts rows into the slot of their type, with the box that they were lent in.
fn put_rows(slots: &mut [Slot], rows: TypeRows, shell: Box<Piece>)
    ensures { places_of slots.new ≡ put (places_of slots.old) rows }
{
    match slots.split_first_mut() {
        None => {}
        Some((slot, rest)) => {
            if slot.shape.ty == rows.ty() {
                slot.held = Some(Held { rows, shell });
            } else {
                put_rows(rest, rows, shell);
            }
        }
    }
}

/// Puts the rows of a box into the slot of their type.
fn put_piece(slots: &mut [Slot], mut piece: Box<Piece>)
    ensures { places_of slots.new ≡ put_all (places_of slots.old) (lent_from (rows_of piece.value)) }
{
    match piece.rows.take() {
        None => {}
        Some(rows) => put_rows(slots, rows, piece),
    }
}

/// Puts pieces into the slots of their types.
fn put_pieces(slots: &mut [Slot], mut list: Chain)
    ensures { places_of slots.new ≡ put_all (places_of slots.old) (pieces_in list) }
{
    while let Some(mut piece) = list {
        list = piece.next.take();
        put_piece(slots, piece);
    }
}

/// Puts pieces into the slots of their types.
pub(crate) fn put_back(slots: &mut Vec<Slot>, list: Chain)
    ensures { places_of slots.new.items ≡ put_all (places_of slots.old.items) (pieces_in list) }
{
    put_pieces(slots, list);
}

/// Returns the rows of a type.
fn find_in(slots: &[Slot], ty: TypeId) -> &TypeRows
    requires { OfPlace ty.0 (λ _. ⊤) (places_of slots.now) }
    ensures { OfPlace ty.0 (λ t. result.now ≡ t) (places_of slots.now) }
{
    match slots.split_first() {
        None => unreachable!(),
        Some((slot, rest)) => {
            if slot.shape.ty == ty {
                match &slot.held {
                    None => unreachable!(),
                    Some(held) => &held.rows,
                }
            } else {
                find_in(rest, ty)
            }
        }
    }
}

/// Returns the rows of a type.
pub(crate) fn find_rows(slots: &Vec<Slot>, ty: TypeId) -> &TypeRows
    requires { OfPlace ty.0 (λ _. ⊤) (places_of slots.now.items) }
    ensures { OfPlace ty.0 (λ t. result.now ≡ t) (places_of slots.now.items) }
{
    find_in(slots, ty)
}

/// Returns the rows of a type, or `None` if the type isn't there or is lent.
fn look_in(slots: &[Slot], ty: TypeId) -> Option<&TypeRows>
    ensures { MatchOption result (LacksPlace ty.0 (places_of slots.now)) (λ rows. OfPlace ty.0 (λ t. rows.now ≡ t) (places_of slots.now)) }
{
    match slots.split_first() {
        None => None,
        Some((slot, rest)) => {
            if slot.shape.ty == ty {
                match &slot.held {
                    None => None,
                    Some(held) => Some(&held.rows),
                }
            } else {
                look_in(rest, ty)
            }
        }
    }
}

/// Returns the rows of a type, or `None` if the type isn't there or is lent.
pub(crate) fn look_up(slots: &Vec<Slot>, ty: TypeId) -> Option<&TypeRows>
    ensures { MatchOption result (LacksPlace ty.0 (places_of slots.now.items)) (λ rows. OfPlace ty.0 (λ t. rows.now ≡ t) (places_of slots.now.items)) }
{
    look_in(slots, ty)
}

/// `true` if a type is enabled in a row. A type that isn't there is.
fn is_enabled_in(slots: &[Slot], ty: TypeId, row: u32) -> bool
    requires { Every (HasTheRow row) (places_of slots.now) }
    ensures { result ≡ not (place_off row ty.0 (places_of slots.now)) }
{
    match slots.split_first() {
        None => true,
        Some((slot, rest)) => {
            if slot.shape.ty == ty {
                match &slot.held {
                    None => true,
                    Some(held) => held.rows.enabled(row),
                }
            } else {
                is_enabled_in(rest, ty, row)
            }
        }
    }
}

/// `true` if a type is enabled in a row. A type that isn't there is.
pub(crate) fn is_enabled(slots: &Vec<Slot>, ty: TypeId, row: u32) -> bool
    requires { Every (HasTheRow row) (places_of slots.now.items) }
    ensures { result ≡ not (place_off row ty.0 (places_of slots.now.items)) }
{
    is_enabled_in(slots, ty, row)
}

/// Writes a value into a row of a field of a type.
fn set_value_in(slots: &mut [Slot], ty: TypeId, row: u32, field: u8, value: Value)
    requires { OfPlace ty.0 (InRow row (TakesValue field value)) (places_of slots.old) }
    ensures { places_of slots.new ≡ change_place ty.0 (one_row row (with_value field value)) (places_of slots.old) }
{
    match slots.split_first_mut() {
        None => unreachable!(),
        Some((slot, rest)) => {
            if slot.shape.ty == ty {
                match &mut slot.held {
                    None => unreachable!(),
                    Some(held) => held.rows.set(row, field, value),
                }
            } else {
                set_value_in(rest, ty, row, field, value);
            }
        }
    }
}

/// Writes a value into a row of a field of a type.
pub(crate) fn set_value(slots: &mut Vec<Slot>, ty: TypeId, row: u32, field: u8, value: Value)
    requires { OfPlace ty.0 (InRow row (TakesValue field value)) (places_of slots.old.items) }
    ensures { places_of slots.new.items ≡ change_place ty.0 (one_row row (with_value field value)) (places_of slots.old.items) }
{
    set_value_in(slots, ty, row, field, value);
}

/// Enables or disables a type in a row.
fn set_enabled_in(slots: &mut [Slot], ty: TypeId, row: u32, on: bool)
    requires { OfPlace ty.0 (InRow row IsEnableable) (places_of slots.old) }
    ensures { places_of slots.new ≡ change_place ty.0 (one_row row (with_off (not on))) (places_of slots.old) }
{
    match slots.split_first_mut() {
        None => unreachable!(),
        Some((slot, rest)) => {
            if slot.shape.ty == ty {
                match &mut slot.held {
                    None => unreachable!(),
                    Some(held) => held.rows.set_enabled(row, on),
                }
            } else {
                set_enabled_in(rest, ty, row, on);
            }
        }
    }
}

/// Enables or disables a type in a row.
pub(crate) fn set_enabled(slots: &mut Vec<Slot>, ty: TypeId, row: u32, on: bool)
    requires { OfPlace ty.0 (InRow row IsEnableable) (places_of slots.old.items) }
    ensures { places_of slots.new.items ≡ change_place ty.0 (one_row row (with_off (not on))) (places_of slots.old.items) }
{
    set_enabled_in(slots, ty, row, on);
}

/// Writes what a field keeps of the numbers of some rows.
fn store_in(slots: &mut [Slot], ty: TypeId, field: u8, numbers: &[i64], rows: &Mask)
    requires { OfPlace ty.0 (OfRows (length numbers.now) (TakesNumbers field)) (places_of slots.old) }
    ensures { places_of slots.new ≡ change_place ty.0 (stored_numbers rows.now field numbers.now) (places_of slots.old) }
{
    match slots.split_first_mut() {
        None => unreachable!(),
        Some((slot, rest)) => {
            if slot.shape.ty == ty {
                match &mut slot.held {
                    None => unreachable!(),
                    Some(held) => held.rows.store(field, numbers, rows),
                }
            } else {
                store_in(rest, ty, field, numbers, rows);
            }
        }
    }
}

/// Writes what a field keeps of the numbers of some rows.
pub(crate) fn store(slots: &mut Vec<Slot>, ty: TypeId, field: u8, numbers: &[i64], rows: &Mask)
    requires { OfPlace ty.0 (OfRows (length numbers.now) (TakesNumbers field)) (places_of slots.old.items) }
    ensures { places_of slots.new.items ≡ change_place ty.0 (stored_numbers rows.now field numbers.now) (places_of slots.old.items) }
{
    store_in(slots, ty, field, numbers, rows);
}

/// Writes the references of some rows into a field.
fn store_references_in(
    slots: &mut [Slot],
    ty: TypeId,
    field: u8,
    references: &[Entity],
    rows: &Mask,
)
    requires { OfPlace ty.0 (OfRows (length references.now) (TakesReferences field)) (places_of slots.old) }
    ensures { places_of slots.new ≡ change_place ty.0 (all_rows (with_reference_in rows.now field references.now)) (places_of slots.old) }
{
    match slots.split_first_mut() {
        None => unreachable!(),
        Some((slot, rest)) => {
            if slot.shape.ty == ty {
                match &mut slot.held {
                    None => unreachable!(),
                    Some(held) => held.rows.store_references(field, references, rows),
                }
            } else {
                store_references_in(rest, ty, field, references, rows);
            }
        }
    }
}

/// Writes the references of some rows into a field.
pub(crate) fn store_references(
    slots: &mut Vec<Slot>,
    ty: TypeId,
    field: u8,
    references: &[Entity],
    rows: &Mask,
)
    requires { OfPlace ty.0 (OfRows (length references.now) (TakesReferences field)) (places_of slots.old.items) }
    ensures { places_of slots.new.items ≡ change_place ty.0 (all_rows (with_reference_in rows.now field references.now)) (places_of slots.old.items) }
{
    store_references_in(slots, ty, field, references, rows);
}

/// Enables a type in those of some rows that the mask `on` has, and disables it in the others of these.
fn store_enabled_in(slots: &mut [Slot], ty: TypeId, on: &Mask, rows: &Mask)
    requires { OfPlace ty.0 (OfShape IsEnableable) (places_of slots.old) }
    ensures { places_of slots.new ≡ change_place ty.0 (all_rows (with_enabled_in rows.now on.now)) (places_of slots.old) }
{
    match slots.split_first_mut() {
        None => unreachable!(),
        Some((slot, rest)) => {
            if slot.shape.ty == ty {
                match &mut slot.held {
                    None => unreachable!(),
                    Some(held) => held.rows.store_enabled(on, rows),
                }
            } else {
                store_enabled_in(rest, ty, on, rows);
            }
        }
    }
}

/// Enables a type in those of some rows that the mask `on` has, and disables it in the others of these.
pub(crate) fn store_enabled(slots: &mut Vec<Slot>, ty: TypeId, on: &Mask, rows: &Mask)
    requires { OfPlace ty.0 (OfShape IsEnableable) (places_of slots.old.items) }
    ensures { places_of slots.new.items ≡ change_place ty.0 (all_rows (with_enabled_in rows.now on.now)) (places_of slots.old.items) }
{
    store_enabled_in(slots, ty, on, rows);
}

/// Replaces the elements of a row of a buffer type, and returns the old ones.
fn put_elements_in(
    slots: &mut [Slot],
    ty: TypeId,
    row: u32,
    new: Elements<Value>,
) -> Elements<Value>
    requires { OfPlace ty.0 (InRow row (TakesElements new)) (places_of slots.old) }
    ensures old { OfPlace ty.0 (λ t. result ≡ buffer (length t.shape.kinds) (cell_in row t.cells).values) (places_of slots.old) }
    ensures new { places_of slots.new ≡ change_place ty.0 (one_row row (with_values new.values)) (places_of slots.old) }
{
    match slots.split_first_mut() {
        None => unreachable!(),
        Some((slot, rest)) => {
            if slot.shape.ty == ty {
                match &mut slot.held {
                    None => unreachable!(),
                    Some(held) => held.rows.put_elements(row, new),
                }
            } else {
                put_elements_in(rest, ty, row, new)
            }
        }
    }
}

/// Replaces the elements of a row of a buffer type, and returns the old ones.
pub(crate) fn put_elements(
    slots: &mut Vec<Slot>,
    ty: TypeId,
    row: u32,
    new: Elements<Value>,
) -> Elements<Value>
    requires { OfPlace ty.0 (InRow row (TakesElements new)) (places_of slots.old.items) }
    ensures old { OfPlace ty.0 (λ t. result ≡ buffer (length t.shape.kinds) (cell_in row t.cells).values) (places_of slots.old.items) }
    ensures new { places_of slots.new.items ≡ change_place ty.0 (one_row row (with_values new.values)) (places_of slots.old.items) }
{
    put_elements_in(slots, ty, row, new)
}
