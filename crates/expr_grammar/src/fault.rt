//! The fault of a text.

/// Why a text is refused.
#[derive(Clone, Copy, Debug, PartialEq, Eq)]
pub enum ExprCause {
    /// The text has more than 1,024 bytes.
    TooLong,
    /// No token begins at this byte.
    BadChar,
    /// A number is above 9223372036854775807, or above 4294967295 in a reference.
    NumberRange,
    /// The token opens the 65th level of nesting.
    TooDeep,
    /// No name that is allowed here has this spelling.
    UnknownName,
    /// A sign, a number or the end is where none is allowed.
    Unexpected,
    /// Memory ran out.
    Memory,
}

/// The first fault of a text. Its place is that of the token's first byte, or the text's length if the fault is at the
/// end. With `Memory` the place is 0.
#[derive(Clone, Copy, Debug, PartialEq, Eq)]
pub struct ExprFault {
    /// Why the text is refused.
    pub cause: ExprCause,
    /// The place of the invalid token, in bytes from 0.
    pub at: u32,
}
