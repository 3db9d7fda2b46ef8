//! What a text of the little language means. A field stands here as its place in its type, and a made name as the
//! number of the command that makes it. Operators of one level group from the left, and parentheses leave nothing.
use ent_types::{Entity, Name, Sequence, TypeId};
use sqlite_items::Boxed;

/// A number that is known where an expression is evaluated, by its word in the text.
#[derive(Clone, Copy, Debug, PartialEq, Eq)]
pub enum Variable {
    /// The number of the frame, from 1.
    Frame,
    /// The number of the item: which of the visited blocks the row is in.
    Chunk,
    /// The place of the row in its block, from 0.
    Row,
    /// The index of the own entity.
    Index,
    /// The version of the own entity.
    Version,
    /// The number of the row in its spawn, from 0.
    N,
}

/// A sign before an operand.
#[derive(Clone, Copy, Debug, PartialEq, Eq)]
pub enum UnaryOp {
    /// `-`: the number with its sign changed, wrapped to 64 bits.
    Minus,
    /// `!`: 1 where the number is 0, else 0.
    Not,
}

/// An operator or a call of two operands. Arithmetic wraps to 64 bits; a comparison gives 1 or 0.
#[derive(Clone, Copy, Debug, PartialEq, Eq)]
pub enum BinaryOp {
    /// `||`: 1 where one of the two isn't 0.
    Or,
    /// `&&`: 1 where neither is 0.
    And,
    /// `==`
    Equal,
    /// `!=`
    NotEqual,
    /// `<`
    Less,
    /// `<=`
    LessEqual,
    /// `>`
    Greater,
    /// `>=`
    GreaterEqual,
    /// `+`
    Plus,
    /// `-`
    Minus,
    /// `*`
    Times,
    /// `/`, toward zero; 0 where the divisor is 0.
    Divide,
    /// `%`, the rest of `/`; 0 where the divisor is 0.
    Rest,
    /// `min(a, b)`
    Min,
    /// `max(a, b)`
    Max,
}

/// An expression, whose value is a signed number of 64 bits.
#[derive(Debug, Drop)]
pub enum Expr {
    /// The number itself.
    Number(i64),
    /// A number that is known where the expression is evaluated.
    Variable(Variable),
    /// An i32 or i64 field of the own row.
    Own {
        /// The field's type.
        ty: TypeId,
        /// The field's place in the type, from 0.
        field: u8,
    },
    /// A sign and its operand.
    Unary(UnaryOp, Boxed<Expr>),
    /// An operator and its operands.
    Binary(BinaryOp, Boxed<Expr>, Boxed<Expr>),
    /// `pick(c, a, b)`: a where c isn't 0, else b.
    Pick(Boxed<Expr>, Boxed<Expr>, Boxed<Expr>),
    /// A field of another entity; 0 where it isn't alive or lacks the type.
    Get {
        /// The entity.
        from: RefExpr,
        /// The field's type.
        ty: TypeId,
        /// The field's place in the type, from 0.
        field: u8,
    },
    /// 1 where the entity is alive, else 0.
    Alive(RefExpr),
    /// 1 where the entity is alive and has the type, else 0.
    Has(RefExpr, TypeId),
    /// 1 where both are the same entity, else 0.
    Same(RefExpr, RefExpr),
    /// 1 where the own row has the type and it isn't disabled there, else 0.
    On(TypeId),
}

/// A reference to an entity.
#[derive(Clone, Copy, Debug, PartialEq, Eq)]
pub enum RefExpr {
    /// The null entity, which is never alive.
    Null,
    /// The entity of the own row.
    Me,
    /// The entity that the command with this number makes.
    Made(u32),
    /// A ref field of the own row.
    Own {
        /// The field's type.
        ty: TypeId,
        /// The field's place in the type, from 0.
        field: u8,
    },
    /// An entity by its index and version.
    Entity(Entity),
}

/// A value for a field: a number for an i32 or i64 field, a reference for a ref field.
#[derive(Debug, Drop)]
pub enum ValueExpr {
    /// For an i32 or i64 field.
    Int(Expr),
    /// For a ref field.
    Ref(RefExpr),
}

/// A type with one value for each of its fields.
#[derive(Debug, Drop)]
pub struct PartExpr {
    /// The type.
    pub ty: TypeId,
    /// The values, in the order of the type's fields.
    pub values: Sequence<ValueExpr>,
}

/// `TYPE.FIELD = value`: what a system writes into a field of each row.
#[derive(Debug, Drop)]
pub struct Assign {
    /// The field's type.
    pub ty: TypeId,
    /// The field's place in the type, from 0.
    pub field: u8,
    /// What is written.
    pub value: ValueExpr,
}

/// `TYPE = expr`: a system enables the type in a row where the value isn't 0, else disables it.
#[derive(Debug, Drop)]
pub struct Switch {
    /// The type, which is enableable.
    pub ty: TypeId,
    /// What decides.
    pub value: Expr,
}

/// A structural change that a system records or an event does.
#[derive(Debug, Drop)]
pub enum CommandText {
    /// Makes an entity, which later commands of the system name.
    Create {
        /// The name that it makes.
        name: Name,
        /// The types of the new row with their values.
        parts: Sequence<PartExpr>,
    },
    /// Destroys an entity.
    Destroy(RefExpr),
    /// Adds a type, or sets the values of a type that is there.
    Add(RefExpr, PartExpr),
    /// Sets the values of a plain or cleanup type that is there.
    Set(RefExpr, PartExpr),
    /// Moves the entity to other shared values.
    SetShared(RefExpr, PartExpr),
    /// Removes a type.
    Remove(RefExpr, TypeId),
    /// Enables a type that is there.
    Enable(RefExpr, TypeId),
    /// Disables a type that is there.
    Disable(RefExpr, TypeId),
    /// Makes a copy of an entity, which later commands of the system name.
    Instantiate {
        /// The name that it makes.
        name: Name,
        /// The entity that is copied.
        source: RefExpr,
    },
}
