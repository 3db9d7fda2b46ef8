//! From bytes to tokens.
ghost use Rattle.std.specs.Prelude.{List, ◌≡◌, ◌≢◌, ℕ, ◌+◌, ◌*◌, ◌^◌, ◌<◌, ◌≤◌, false, true, length, slice_index, min, map, All, IfOk, MatchOption};
ghost use Rattle.std.specs.Char.{is_ascii_digit};
ghost use Rattle.expr_tokens.specs.Tokens.{Placed, AreTokens, Spans, number_value, IsLongest, BeginsNoSign, IsLongestSign, NoPair};
ghost use Rattle.expr_tokens.specs.Lexing.{tokens_of};
ghost use Rattle.ent_types.specs.Names.{is_name_start};
ghost use Rattle.expr_tokens.specs.Seen.{seen, token_seen, belongs};

use crate::sign::{pair, single};
use crate::{Lexeme, Sign, Token};
use ent_types::Memory;
use std::alloc::Global;

/// The value of a number that is too large.
const TOO_LARGE: u64 = 1 << 63;

/// The kind of the bytes that a name or a number goes on with.
#[derive(Clone, Copy, Debug, PartialEq, Eq)]
enum Kind {
    Word,
    Digits,
}

impl Kind {
    fn holds(self, byte: u8) -> bool
        ensures { result ≡ belongs self byte }
    {
        match self {
            Kind::Word => byte.is_ascii_alphanumeric() || byte == b'_',
            Kind::Digits => byte.is_ascii_digit(),
        }
    }
}

/// `true` if a byte may begin a name.
fn is_start(byte: u8) -> bool
    ensures { result ≡ is_name_start byte }
{
    byte.is_ascii_alphabetic() || byte == b'_'
}

/// Returns how many bytes at the front are of one kind.
fn run_len(bytes: &[u8], kind: Kind) -> usize
    ensures within { result ≤ length bytes.now }
    ensures same { (k : ℕ) → k < result → belongs kind (slice_index bytes.now k) ≡ true }
    ensures stops { result < length bytes.now → belongs kind (slice_index bytes.now result) ≡ false }
{
    let mut n = 0;
    while n < bytes.len() && kind.holds(bytes[n]) {
        n += 1;
    }
    n
}

/// Returns the number with one digit more.
fn with_digit(value: u64, digit: u8) -> u64
    requires { digit < 10 }
    ensures { result ≡ min (10 * value + digit) (2 ^ 63) }
{
    if value > TOO_LARGE / 10 {
        return TOO_LARGE;
    }
    (10 * value + u64::from(digit)).min(TOO_LARGE)
}

/// Returns the number of the digits, or `TOO_LARGE`.
fn number_value(digits: &[u8]) -> u64
    requires { All (λ b. is_ascii_digit b ≡ true) digits.now }
    ensures { result ≡ number_value digits.now }
{
    let mut value = 0;
    for digit in digits {
        value = with_digit(value, *digit - b'0');
    }
    value
}

/// Returns the sign of the first two bytes.
fn pair_at(bytes: &[u8]) -> Option<Sign>
    ensures { MatchOption result (NoPair bytes.now) (λ s. IsLongestSign s 2 bytes.now) }
{
    if bytes.len() < 2 {
        return None;
    }
    pair(bytes[0], bytes[1])
}

/// Returns the sign at the front, and how many bytes it takes.
fn sign_at(bytes: &[u8]) -> Option<(Sign, usize)>
    requires { 0 < length bytes.now }
    ensures { MatchOption result (BeginsNoSign bytes.now) (λ found. IsLongestSign found.0 found.1 bytes.now) }
{
    if let Some(sign) = pair_at(bytes) {
        return Some((sign, 2));
    }
    match single(bytes[0]) {
        Some(sign) => Some((sign, 1)),
        None => None,
    }
}

/// Returns the token at the front, and how many bytes it takes.
fn token_at(bytes: &[u8]) -> (Token<'_>, usize)
    requires some { 0 < length bytes.now }
    requires no_space { slice_index bytes.now 0 ≢ 32 }
    ensures { Spans (token_seen result.0) result.1 bytes.now }
{
    let first = bytes[0];
    if is_start(first) {
        let n = run_len(bytes, Kind::Word);
        return (Token::Word(&bytes[..n]), n);
    }
    if first.is_ascii_digit() {
        let n = run_len(bytes, Kind::Digits);
        return (Token::Number(number_value(&bytes[..n])), n);
    }
    match sign_at(bytes) {
        Some((sign, n)) => (Token::Sign(sign), n),
        None => (Token::Bad, bytes.len()),
    }
}

/// Returns the tokens of a text, in order. After a place where no token begins nothing more is read. It takes memory once:
/// a text has at most as many tokens as bytes.
pub fn tokens(alloc: Global, text: &[u8]) -> Result<Vec<Lexeme<'_>>, Memory>
    requires { length text.now < 2 ^ 32 }
    ensures { IfOk result (λ v. AreTokens 0 text.now (map seen v.items)) }
{
    let mut out = Vec::with_capacity(alloc, text.len())?;
    let mut at = 0;
    while at < text.len() {
        let rest = &text[at..];
        if rest[0] == b' ' {
            at += 1;
        } else {
            let (token, len) = token_at(rest);
            out.push(Lexeme {
                token,
                at: at as u32,
            })?;
            at += len;
        }
    }
    Ok(out)
}

/// Shows that each text has tokens: the law that callers cite.
pub fn text_has_tokens()
    ensures { (text : List ℕ) → AreTokens 0 text (tokens_of text) }
{}

/// Shows that a text has one list of tokens: the law that callers cite.
pub fn one_list()
    ensures { (text : List ℕ) (ps qs : List Placed) → AreTokens 0 text ps → AreTokens 0 text qs → ps ≡ qs }
{}
