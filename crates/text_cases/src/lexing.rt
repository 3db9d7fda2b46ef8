//! The tokens of a text.

use crate::fault::LineFault;
use expr_tokens::{Lexeme, Token, tokens};
use std::alloc::Global;

/// The texts of the table are shorter.
const LONGEST: usize = 4096;

/// Writes the tokens of a text, each with its place.
pub fn tokens_text(alloc: Global, text: &str) -> Result<String, LineFault> {
    if text.len() > LONGEST {
        return Err(LineFault::Unread);
    }
    let lexemes = tokens(alloc, text.as_bytes())?;
    list_text(alloc, &lexemes)
}

/// Writes tokens, with commas between them.
fn list_text(alloc: Global, lexemes: &[Lexeme<'_>]) -> Result<String, LineFault> {
    let mut written = String::new(alloc);
    for lexeme in lexemes {
        if !written.is_empty() {
            written.push_str(", ")?;
        }
        push_lexeme(&mut written, *lexeme)?;
    }
    Ok(written)
}

/// Writes the place of a token, and the number of its bytes, its number or its sign.
fn push_lexeme(written: &mut String, lexeme: Lexeme<'_>) -> Result<(), LineFault> {
    let at = lexeme.at;
    let done = match lexeme.token {
        Token::Word(bytes) => write!(written, "{at} Word {}", bytes.len()),
        Token::Number(number) => write!(written, "{at} Number {number}"),
        Token::Sign(sign) => write!(written, "{at} {sign:?}"),
        Token::Bad => write!(written, "{at} Bad"),
    };
    Ok(done?)
}
