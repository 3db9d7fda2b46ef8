//! What the machine of the grammar still waits for, and what it has built.
use crate::{Call, Change, FieldUse, Turn, TypeUse};
use ent_types::{Name, Sequence, TypeId, TypeSet};
use expr_trees::{BinaryOp, CommandText, Expr, PartExpr, RefExpr, UnaryOp, Variable};
use sqlite_items::Boxed;

/// A place of the grammar that the next tokens have to fill.
#[derive(Clone, Copy, Debug)]
pub enum Symbol {
    /// An expression of operators below the level, at a depth.
    Level {
        level: u8,
        depth: u8,
    },
    /// Perhaps operators of this level with their operands.
    Tail {
        level: u8,
        depth: u8,
    },
    /// What follows a name in an expression, by what the name may be.
    Named {
        variable: Option<Variable>,
        ty: Option<TypeId>,
        call: Option<Call>,
        depth: u8,
    },
    /// `)`
    Close,
    /// `,`
    Comma,
    /// `.`
    Dot,
    /// `=`
    Becomes,
    /// A field of the type.
    Field {
        ty: TypeId,
        role: FieldUse,
    },
    /// A type, a dot and a field.
    TypeField(FieldUse),
    /// A reference; `made` is true if a made name fits.
    Ref {
        made: bool,
    },
    /// What follows a name in a reference, by what the name may be.
    NamedRef {
        plain: Option<RefExpr>,
        ty: Option<TypeId>,
    },
    /// The colon after an index.
    Colon {
        index: u32,
    },
    /// The version after an index and a colon.
    Version {
        index: u32,
    },
    /// A type.
    Type(TypeUse),
    /// The word that begins a command.
    Verb,
    /// A name to be made.
    New,
    /// `from`
    From,
    /// Perhaps `with` and parts.
    With,
    /// A part.
    Part(TypeUse),
    /// Parts of other types than those in the set.
    Parts(TypeSet),
    /// Perhaps a comma and such parts.
    MoreParts(TypeSet),
    /// The values of a part of this type, in parentheses.
    Values(TypeId),
    /// The values of the fields from this place on, each after a comma, and `)`.
    MoreValues {
        ty: TypeId,
        at: u8,
    },
    /// No token: a step that builds a tree.
    Do(Action),
}

/// A step that builds a tree from the trees that were built last.
#[derive(Clone, Copy, Debug)]
pub enum Action {
    /// A number.
    Number(i64),
    /// A field of the own row, in an expression.
    Own { ty: TypeId, field: u8 },
    /// A reference.
    Ref(RefExpr),
    /// A type by itself.
    Type(TypeId),
    /// A type with a field.
    Field { ty: TypeId, field: u8 },
    /// A sign over the last expression.
    Unary(UnaryOp),
    /// An operator over the last two expressions.
    Binary(BinaryOp),
    /// `pick` over the last three.
    Pick,
    /// `get` over a reference and a field.
    Get,
    /// `alive` over a reference.
    Alive,
    /// `has` over a reference and a type.
    Has,
    /// `same` over two references.
    Same,
    /// `on` over a type.
    On,
    /// A name to be made.
    New(Name),
    /// An empty list of parts.
    NoParts,
    /// A part of this type, with no values yet.
    Part(TypeId),
    /// The last value as one more of the part before it.
    Value,
    /// The last part as one more of the parts before it.
    Join,
    /// `create` over a name and parts.
    Create,
    /// `destroy` over a reference.
    Destroy,
    /// A command over a reference and a part.
    Change(Change),
    /// A command over a reference and a type.
    Turn(Turn),
    /// `instantiate` over a name and a reference.
    Instantiate,
}

/// A tree that was built. Large trees are in boxes, so that a move of a built tree is cheap.
#[derive(Debug, Drop)]
pub enum Built {
    /// An expression.
    Int(Boxed<Expr>),
    /// A reference.
    Ref(RefExpr),
    /// A type.
    Type(TypeId),
    /// A type with a field.
    Field { ty: TypeId, field: u8 },
    /// A name to be made.
    Name(Boxed<Name>),
    /// A part.
    Part(PartExpr),
    /// Parts of `create`.
    Parts(Sequence<PartExpr>),
    /// A command.
    Command(Boxed<CommandText>),
}
