//! What the parser expects.
ghost use Rattle.std.specs.Prelude.{◌≡◌};
ghost use Rattle.expr_grammar.specs.Fitting.{part_use, turn_use};
ghost use Rattle.expr_steps.specs.Expecting.{value_thing};

use ent_types::{TypeId, TypeSet};
use expr_grammar::{Call, Change, FieldUse, Turn, TypeUse};
use expr_trees::{BinaryOp, RefExpr, UnaryOp, Variable};

/// The level of a whole expression: operators of all levels.
pub const WHOLE: u8 = 5;

/// A place of the grammar that the next tokens have to fill. It stands for symbols of the grammar's machine: for one,
/// except `Operators`.
#[derive(Clone, Copy)]
pub enum Expected {
    /// An expression of operators below the level, at a depth.
    Level {
        level: u8,
        depth: u8,
    },
    /// Perhaps operators of some levels with their operands: of `count` levels from `level` on.
    Operators {
        level: u8,
        count: u8,
        depth: u8,
    },
    /// What follows a name in an expression, by what the name may be.
    Named {
        variable: Option<Variable>,
        ty: Option<TypeId>,
        call: Option<Call>,
        depth: u8,
    },
    /// `)`
    Close,
    /// `,`
    Comma,
    /// `.`
    Dot,
    /// `=`
    Becomes,
    /// A field of the type.
    Field {
        ty: TypeId,
        role: FieldUse,
    },
    /// A type, a dot and a field.
    TypeField(FieldUse),
    /// A reference; `made` is true if a made name fits.
    Ref {
        made: bool,
    },
    /// What follows a name in a reference, by what the name may be.
    NamedRef {
        plain: Option<RefExpr>,
        ty: Option<TypeId>,
    },
    /// The colon after an index.
    Colon {
        index: u32,
    },
    /// The version after an index and a colon.
    Version {
        index: u32,
    },
    /// A type.
    Type(TypeUse),
    /// The word that begins a command.
    Verb,
    /// A name to be made.
    New,
    /// `from`
    From,
    /// Perhaps `with` and parts.
    With,
    /// A part.
    Part(TypeUse),
    /// Parts of other types than those in the set.
    Parts(TypeSet),
    /// Perhaps a comma and such parts.
    MoreParts(TypeSet),
    /// The values of a part of this type, in parentheses.
    Values(TypeId),
    /// The values of the fields from this place on, each after a comma, and `)`.
    MoreValues {
        ty: TypeId,
        at: u8,
    },
    /// No token: a reduction of the operands.
    Reduce(Reduction),
}

/// A step that builds a tree from the operands that were read last.
#[derive(Clone, Copy)]
pub enum Reduction {
    /// A sign over the last expression.
    Unary(UnaryOp),
    /// An operator over the last two expressions.
    Binary(BinaryOp),
    /// `pick` over the last three.
    Pick,
    /// `get` over a reference and a field.
    Get,
    /// `alive` over a reference.
    Alive,
    /// `has` over a reference and a type.
    Has,
    /// `same` over two references.
    Same,
    /// `on` over a type.
    On,
    /// An empty list of parts.
    NoParts,
    /// The last value as one more of the part before it.
    Value,
    /// The last part as one more of the parts before it.
    Join,
    /// `create` over a name and parts.
    Create,
    /// `destroy` over a reference.
    Destroy,
    /// A command over a reference and a part.
    Change(Change),
    /// A command over a reference and a type.
    Turn(Turn),
    /// `instantiate` over a name and a reference.
    Instantiate,
}

/// Returns a whole expression at a depth.
pub fn whole(depth: u8) -> Expected
    ensures { result ≡ Expected.Level 5 depth }
{
    Expected::Level {
        level: WHOLE,
        depth,
    }
}

/// Returns a value by its field's kind; `made` is true if a made name fits.
pub fn value_by(made: bool, is_ref: bool) -> Expected
    ensures { result ≡ value_thing made is_ref }
{
    if is_ref {
        Expected::Ref { made }
    } else {
        whole(0)
    }
}

/// Returns the use of the type that a part of the command names.
pub fn part_use(change: Change) -> TypeUse
    ensures { result ≡ part_use change }
{
    match change {
        Change::Add => TypeUse::Added,
        Change::Set => TypeUse::Set,
        Change::SetShared => TypeUse::Shared,
    }
}

/// Returns the use of the type that the command names.
pub fn turn_use(turn: Turn) -> TypeUse
    ensures { result ≡ turn_use turn }
{
    match turn {
        Turn::Remove => TypeUse::Removed,
        Turn::Enable | Turn::Disable => TypeUse::Enabled,
    }
}
