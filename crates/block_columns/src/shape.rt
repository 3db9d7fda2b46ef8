//! What a block knows of one of its types.
use ent_types::{FieldKind, Sequence, TypeId};

/// A type that isn't shared, as far as a block keeps it.
#[derive(Debug, Drop)]
pub struct TypeShape {
    /// The type's number.
    pub ty: TypeId,
    /// The kinds of its fields.
    pub kinds: Sequence<FieldKind>,
    /// `true` if each row has a list of elements, which lies outside the columns.
    pub is_buffer: bool,
    /// `true` if the type can be disabled in a row.
    pub enableable: bool,
}
