//! Tokens, and their places in a text.
use crate::Sign;

/// A token of a text.
#[derive(Clone, Copy, Debug)]
pub enum Token<'a> {
    /// A name: an ASCII letter or `_`, then letters, digits or `_`, of any length.
    Word(&'a [u8]),
    /// A number in decimal digits. A number above 9223372036854775807 is 9223372036854775808 here.
    Number(u64),
    /// A sign.
    Sign(Sign),
    /// No token begins here. The rest of the text isn't read.
    Bad,
}

/// A token with its place.
#[derive(Clone, Copy, Debug)]
pub struct Lexeme<'a> {
    /// The token.
    pub token: Token<'a>,
    /// The place of its first byte in the text, from 0.
    pub at: u32,
}
