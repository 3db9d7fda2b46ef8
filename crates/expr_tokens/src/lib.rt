//! The tokens of a text of the little language: names, numbers and signs, each the longest that fits at its
//! place, with spaces between them that mean nothing else.
#![tactic(auto)]

mod lexer;
mod sign;
mod token;

pub use lexer::{one_list, text_has_tokens, tokens};
pub use sign::Sign;
pub use token::{Lexeme, Token};
