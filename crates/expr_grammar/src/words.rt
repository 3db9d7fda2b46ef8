//! The words of the language that name neither a variable nor a type.
use expr_trees::BinaryOp;

/// A call, by its name. `min` and `max` have two operands.
#[derive(Clone, Copy, Debug, PartialEq, Eq)]
pub enum Call {
    /// `min(a, b)` or `max(a, b)`
    Two(BinaryOp),
    /// `pick(c, a, b)`
    Pick,
    /// `get(ref, TYPE.FIELD)`
    Get,
    /// `alive(ref)`
    Alive,
    /// `has(ref, TYPE)`
    Has,
    /// `same(ref, ref)`
    Same,
    /// `on(TYPE)`
    On,
}

/// The use of a field that a text names.
#[derive(Clone, Copy, Debug, PartialEq, Eq)]
pub enum FieldUse {
    /// In an expression: an i32 or i64 field of a bound type.
    Number,
    /// As a reference: a ref field of a bound type.
    Entity,
    /// In `get`: an i32 or i64 field of any type.
    Looked,
    /// On the left of an assign: a field of a bound plain or cleanup type.
    Assigned,
}

/// The use of a type that a text names without a field.
#[derive(Clone, Copy, Debug, PartialEq, Eq)]
pub enum TypeUse {
    /// In `has`: any type.
    Asked,
    /// In `on`: a type that isn't shared.
    Own,
    /// On the left of a switch: a bound enableable type.
    Switched,
    /// In `remove`: any type but SceneTag.
    Removed,
    /// In `enable` and `disable`: an enableable type.
    Enabled,
    /// In a part of `create` and `add`: any type but SceneTag.
    Added,
    /// In the part of `set`: a plain or cleanup type.
    Set,
    /// In the part of `set_shared`: a shared type but SceneTag.
    Shared,
}

/// The words that begin a command.
#[derive(Clone, Copy, Debug, PartialEq, Eq)]
pub enum Verb {
    /// `create NAME` and perhaps `with` parts
    Create,
    /// `destroy ref`
    Destroy,
    /// `add ref part`, `set ref part` or `set_shared ref part`
    Change(Change),
    /// `remove ref TYPE`, `enable ref TYPE` or `disable ref TYPE`
    Turn(Turn),
    /// `instantiate NAME from ref`
    Instantiate,
}

/// A command that takes a reference and a part.
#[derive(Clone, Copy, Debug, PartialEq, Eq)]
pub enum Change {
    /// `add`
    Add,
    /// `set`
    Set,
    /// `set_shared`
    SetShared,
}

/// A command that takes a reference and a type.
#[derive(Clone, Copy, Debug, PartialEq, Eq)]
pub enum Turn {
    /// `remove`
    Remove,
    /// `enable`
    Enable,
    /// `disable`
    Disable,
}
