//! What calls on blocks and loans require, looked up at run time.
ghost use Rattle.std.specs.Prelude.{◌≡◌, ◌<◌, true, length, pos, IsTrue};
ghost use Rattle.ent_types.specs.declared.value.Value.TheVariants.{Int};
ghost use Rattle.ent_types.specs.declared.kinds.FieldKind.TheVariants.{Ref as KindRef};
ghost use Rattle.ent_types.specs.Fitting.{fits_field};
ghost use Rattle.block_columns.specs.Columns.{IsNumberKind};
ghost use Rattle.block_columns.specs.Types.{HasField, TakesValue, TakesNumbers, TakesReferences, TakesElements, IsEnableable, IsBuffer, kind_in};
ghost use Rattle.chunk_block.specs.Blocks.{OfType};
ghost use Rattle.chunk_block.specs.Pieces.{OfPiece, InRow, OfRows};

use block_columns::{TypeRows, TypeShape};
use buffer_store::Elements;
use chunk_block::{Block, Loan};
use ent_types::{FieldKind, TypeId, Value};

/// `true` if a field of this kind holds the number 5.
fn holds_five(kind: FieldKind) -> bool
    ensures { IsTrue result → fits_field kind (Int (pos 5)) ≡ true }
{
    match kind {
        FieldKind::I32 => true,
        FieldKind::I64 => true,
        FieldKind::Ref => false,
    }
}

/// `true` if a field of this kind holds numbers.
fn is_number(kind: FieldKind) -> bool
    ensures { IsTrue result → IsNumberKind kind }
{
    match kind {
        FieldKind::I32 => true,
        FieldKind::I64 => true,
        FieldKind::Ref => false,
    }
}

/// `true` if a field of this kind holds references.
fn is_reference(kind: FieldKind) -> bool
    ensures { IsTrue result → kind ≡ KindRef }
{
    match kind {
        FieldKind::I32 => false,
        FieldKind::I64 => false,
        FieldKind::Ref => true,
    }
}

/// `true` if the type has a column for the field.
pub fn has_field(shape: &TypeShape, field: u8) -> bool
    ensures { IsTrue result → HasField field shape.now }
{
    !shape.is_buffer && usize::from(field) < shape.kinds.len()
}

/// Returns the kind of a field.
fn kind_of(shape: &TypeShape, field: u8) -> FieldKind
    requires { field < length shape.now.kinds }
    ensures { result ≡ kind_in field shape.now.kinds }
{
    shape.kinds.as_slice()[usize::from(field)]
}

/// `true` if the field of the type holds the number 5.
fn takes_five(shape: &TypeShape, field: u8) -> bool
    ensures { IsTrue result → TakesValue field (Int (pos 5)) shape.now }
{
    has_field(shape, field) && holds_five(kind_of(shape, field))
}

/// `true` if the field of the type holds numbers.
fn takes_numbers(shape: &TypeShape, field: u8) -> bool
    ensures { IsTrue result → TakesNumbers field shape.now }
{
    has_field(shape, field) && is_number(kind_of(shape, field))
}

/// `true` if the field of the type holds references.
fn takes_references(shape: &TypeShape, field: u8) -> bool
    ensures { IsTrue result → TakesReferences field shape.now }
{
    has_field(shape, field) && is_reference(kind_of(shape, field))
}

/// `true` if the type is a buffer type with elements of this width.
fn takes_elements(shape: &TypeShape, new: &Elements<Value>, width: u8) -> bool
    requires { new.now.width ≡ width }
    ensures { IsTrue result → TakesElements new.now shape.now }
{
    shape.is_buffer && usize::from(width) == shape.kinds.len()
}

/// `true` if the type can be disabled in a row.
fn switches(shape: &TypeShape) -> bool
    ensures { IsTrue result → IsEnableable shape.now }
{
    shape.enableable
}

/// `true` if the type is in the block and can be disabled in a row.
pub fn can_switch(block: &Block, ty: TypeId) -> bool
    ensures { IsTrue result → OfType ty.0 IsEnableable block.now.columns }
{
    match block.rows_of(ty) {
        None => false,
        Some(rows) => switches(rows.shape()),
    }
}

/// `true` if the field is in the block and holds the number 5.
pub fn can_set_five(block: &Block, ty: TypeId, field: u8) -> bool
    ensures { IsTrue result → OfType ty.0 (TakesValue field (Int (pos 5))) block.now.columns }
{
    match block.rows_of(ty) {
        None => false,
        Some(rows) => takes_five(rows.shape(), field),
    }
}

/// `true` if the field is in the block and holds numbers.
pub fn can_store(block: &Block, ty: TypeId, field: u8) -> bool
    ensures { IsTrue result → OfType ty.0 (TakesNumbers field) block.now.columns }
{
    match block.rows_of(ty) {
        None => false,
        Some(rows) => takes_numbers(rows.shape(), field),
    }
}

/// `true` if the buffer type is in the block and has elements of this width.
pub fn can_put(block: &Block, ty: TypeId, new: &Elements<Value>, width: u8) -> bool
    requires { new.now.width ≡ width }
    ensures { IsTrue result → OfType ty.0 (TakesElements new.now) block.now.columns }
{
    match block.rows_of(ty) {
        None => false,
        Some(rows) => takes_elements(rows.shape(), new, width),
    }
}

/// `true` if the loan has the row of the type, which can be disabled in it.
pub fn loan_can_switch(loan: &Loan, ty: TypeId, row: u32) -> bool
    ensures { IsTrue result → OfPiece ty.0 (InRow row IsEnableable) loan.now.pieces }
{
    match loan.rows_of(ty) {
        None => false,
        Some(rows) => row < rows.len() && switches(rows.shape()),
    }
}

/// `true` if the loan has the field, which holds numbers, and this many rows of the type.
pub fn loan_can_store(loan: &Loan, ty: TypeId, field: u8, count: usize) -> bool
    ensures { IsTrue result → OfPiece ty.0 (OfRows count (TakesNumbers field)) loan.now.pieces }
{
    match loan.rows_of(ty) {
        None => false,
        Some(rows) => count == rows.len() as usize && takes_numbers(rows.shape(), field),
    }
}

/// `true` if the loan has the field, which holds references, and this many rows of the type.
pub fn loan_can_refer(loan: &Loan, ty: TypeId, field: u8, count: usize) -> bool
    ensures { IsTrue result → OfPiece ty.0 (OfRows count (TakesReferences field)) loan.now.pieces }
{
    match loan.rows_of(ty) {
        None => false,
        Some(rows) => count == rows.len() as usize && takes_references(rows.shape(), field),
    }
}

/// `true` if the loan has the row of the buffer type, which has elements of this width.
pub fn loan_can_put(loan: &Loan, ty: TypeId, row: u32, new: &Elements<Value>, width: u8) -> bool
    requires { new.now.width ≡ width }
    ensures { IsTrue result → OfPiece ty.0 (InRow row (TakesElements new.now)) loan.now.pieces }
{
    match loan.rows_of(ty) {
        None => false,
        Some(rows) => row < rows.len() && takes_elements(rows.shape(), new, width),
    }
}

/// `true` if the row has this value in the field.
pub fn has_value(rows: &TypeRows, row: u32, field: u8, wanted: Value) -> bool {
    row < rows.len() && has_field(rows.shape(), field) && rows.get(row, field) == wanted
}

/// `true` if the row has this many elements, and the last one begins with this number.
pub fn has_elements(rows: &TypeRows, row: u32, count: u32, wanted: i64) -> bool {
    if row >= rows.len() || !rows.shape().is_buffer || rows.shape().kinds.len() == 0 {
        return false;
    }
    let elements = rows.elements_at(row);
    elements.len() == count && (count == 0 || elements.value(count - 1, 0) == Value::Int(wanted))
}

/// `true` if the type is enabled in the row or not, as wanted.
pub fn is_enabled(rows: &TypeRows, row: u32, wanted: bool) -> bool {
    row < rows.len() && rows.enabled(row) == wanted
}
