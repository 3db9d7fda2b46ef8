//! Why a token isn't taken.
ghost use Rattle.std.specs.Prelude.{◌≡◌, ◌+◌, ◌^◌, ◌||◌, List, is_some, nat_le};
ghost use Rattle.expr_tokens.specs.Tokens.{number};
ghost use Rattle.expr_tokens.specs.Seen.{token_seen};
ghost use Rattle.expr_grammar.specs.declared.symbol.Built.{Built};
ghost use Rattle.expr_grammar.specs.Machine.{settle};
ghost use Rattle.expr_grammar.specs.Stops.{cause_at, deep_or};
ghost use Rattle.expr_steps.specs.Expecting.{symbols};

use crate::expected::Expected;
use crate::names::Names;
use crate::stack::Stack;
use crate::step::find;
use ent_types::limits::MOST_NESTING;
use expr_grammar::ExprCause;
use expr_tokens::Token;

/// The nesting that is one too deep.
const DEEPER: u8 = MOST_NESTING + 1;

/// Numbers of an expression are below this one.
const INT_END: u64 = 1 << 63;

/// `true` if something accepts the token.
fn takes<N: Names>(names: &N, limit: u8, expected: &Stack<Expected>, token: Token<'_>) -> bool
    ensures { (bs : List Built) → result ≡ is_some (settle (N.scope names.now) limit (symbols expected.now) bs (token_seen token.entry)) }
{
    find(names, limit, expected, token).is_some()
}

/// Returns the cause at a token that isn't taken: the nesting, if the token is taken with more of it, else this cause.
fn deep_or<N: Names>(
    names: &N,
    expected: &Stack<Expected>,
    token: Token<'_>,
    cause: ExprCause,
) -> ExprCause
    ensures { (bs : List Built) → result ≡ deep_or (is_some (settle (N.scope names.now) (MOST_NESTING + 1) (symbols expected.now) bs (token_seen token.entry))) cause }
{
    if takes(names, DEEPER, expected, token) {
        ExprCause::TooDeep
    } else {
        cause
    }
}

/// `true` if a number is too large for every place, or for this one.
fn is_out_of_range<N: Names>(names: &N, expected: &Stack<Expected>, n: u64) -> bool
    ensures { (bs : List Built) → result ≡ (nat_le (2 ^ 63) n || is_some (settle (N.scope names.now) MOST_NESTING (symbols expected.now) bs (number 0))) }
{
    if n >= INT_END {
        return true;
    }
    takes(names, MOST_NESTING, expected, Token::Number(0))
}

/// Returns the cause at a number that isn't taken.
fn number_cause<N: Names>(names: &N, expected: &Stack<Expected>, n: u64) -> ExprCause
    ensures { (bs : List Built) → result ≡ cause_at (N.scope names.now) MOST_NESTING (symbols expected.now) bs (number n) }
{
    if is_out_of_range(names, expected, n) {
        ExprCause::NumberRange
    } else {
        deep_or(names, expected, Token::Number(n), ExprCause::Unexpected)
    }
}

/// Returns the cause at a token that isn't taken.
pub fn cause_at<N: Names>(names: &N, expected: &Stack<Expected>, token: Token<'_>) -> ExprCause
    ensures { (bs : List Built) → result ≡ cause_at (N.scope names.now) MOST_NESTING (symbols expected.now) bs (token_seen token.entry) }
{
    match token {
        Token::Word(_) => deep_or(names, expected, token, ExprCause::UnknownName),
        Token::Number(n) => number_cause(names, expected, n),
        Token::Sign(_) => deep_or(names, expected, token, ExprCause::Unexpected),
        Token::Bad => ExprCause::BadChar,
    }
}
