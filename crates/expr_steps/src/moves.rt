//! What an accepted token leaves.

use crate::expected::Expected;
use ent_types::{Name, TypeId, TypeSet};
use expr_grammar::{Call, FieldUse, Verb};
use expr_trees::{BinaryOp, RefExpr, UnaryOp};

/// What a token leaves instead of the expected thing that accepts it. It is decided before anything changes, so that
/// a token that nothing accepts leaves the parser as it was.
#[derive(Clone, Copy)]
pub enum Move {
    /// Nothing.
    Nothing,
    /// A number is an operand.
    Number(i64),
    /// A field of the own row is an operand.
    Own {
        ty: TypeId,
        field: u8,
    },
    /// A reference is an operand.
    Ref(RefExpr),
    /// A type is an operand.
    Type(TypeId),
    /// A type with a field is an operand.
    Field {
        ty: TypeId,
        field: u8,
    },
    /// A name to be made is an operand.
    New(Name),
    /// One thing is expected.
    One(Expected),
    /// An expression at this depth and `)`.
    Group {
        depth: u8,
    },
    /// An operand at this depth is expected. The sign is put over it.
    Signed {
        op: UnaryOp,
        depth: u8,
    },
    /// An operand below the operator's level is expected. The operator is put over it and the operand before it. Then
    /// operators of `count` levels from `from` on may follow.
    Operator {
        op: BinaryOp,
        level: u8,
        from: u8,
        count: u8,
        depth: u8,
    },
    /// The arguments of a call, at a depth.
    Arguments {
        call: Call,
        depth: u8,
    },
    /// A dot and a field of this type.
    Owner {
        ty: TypeId,
        role: FieldUse,
    },
    /// A type with a field is an operand; `=` and a value by the field's kind are expected.
    Assigned {
        ty: TypeId,
        field: u8,
        is_ref: bool,
    },
    /// What follows the word of a command.
    Behind(Verb),
    /// A part of this type is an operand. Its values are expected if it has fields.
    Part {
        ty: TypeId,
        has_fields: bool,
    },
    /// The same for a part of `create`, which is joined to the parts before it; then more parts of types other than
    /// those in the set.
    Joined {
        ty: TypeId,
        has_fields: bool,
        used: TypeSet,
    },
    /// A value by its field's kind, and then the values from `next` on.
    Value {
        ty: TypeId,
        is_ref: bool,
        next: u8,
    },
}

/// How an expected thing accepts a token.
#[derive(Clone, Copy)]
pub enum Accepted {
    /// As an operand, after which operators below the level may follow.
    Operand { left: Move, level: u8, depth: u8 },
    /// Otherwise.
    Other(Move),
}
