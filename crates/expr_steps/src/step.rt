//! One token: expected things that may end are reduced until one accepts it.
ghost use Rattle.std.specs.Prelude.{◌≡◌, ◌≤◌, ℕ, List, Bool, None, Some, length, drop, is_some, if◌then◌else◌, IfOk, IfSome, OnOk};
ghost use Rattle.expr_tokens.specs.Seen.{token_seen};
ghost use Rattle.expr_grammar.specs.declared.symbol.Built.{Built};
ghost use Rattle.expr_grammar.specs.Machine.{settle, finish};
ghost use Rattle.expr_grammar.specs.Scopes.{Scope};
ghost use Rattle.expr_steps.specs.Expecting.{placed, reduced_first, symbols, Took};

use crate::accept::{accept, is_passed};
use crate::expand::expand;
use crate::expected::Expected;
use crate::moves::Accepted;
use crate::names::Names;
use crate::reduce::{end, ends};
use crate::stack::Stack;
use ent_types::Memory;
use expr_grammar::Built;
use expr_tokens::Token;
use std::alloc::Global;

/// Where a token is accepted.
#[derive(Clone, Copy)]
pub struct Place {
    /// The number of expected things that end before the token.
    pub above: usize,
    /// How the token is accepted there.
    pub accepted: Accepted,
}

/// Returns how many things at the top end before the token by their kinds alone.
fn passed(expected: &Stack<Expected>, token: Token<'_>) -> usize
    ensures within { result ≤ length expected.now }
    ensures ended { (s : Scope) (limit : ℕ) (bs : List Built) → settle s limit (symbols expected.now) bs (token_seen token.entry) ≡ settle s limit (symbols (drop result expected.now)) (reduced_first result expected.now bs) (token_seen token.entry) }
{
    let count = expected.len();
    for above in 0..count {
        let next = expected.at(above);
        if !is_passed(next, token) {
            return above;
        }
    }
    count
}

/// Returns where the token is accepted. Nothing changes yet.
pub fn find<N: Names>(
    names: &N,
    limit: u8,
    expected: &Stack<Expected>,
    token: Token<'_>,
) -> Option<Place>
    ensures { (bs : List Built) → settle (N.scope names.now) limit (symbols expected.now) bs (token_seen token.entry) ≡ placed result expected.now bs }
{
    for above in passed(expected, token)..expected.len() {
        let next = expected.at(above);
        match accept(names, limit, next, token) {
            Some(accepted) => return Some(Place { above, accepted }),
            None => {
                if !ends(next) {
                    return None;
                }
            }
        }
    }
    None
}

/// `true` if everything that is expected may be left out.
pub fn may_finish(expected: &Stack<Expected>) -> bool
    ensures { (bs : List Built) → finish (symbols expected.now) bs ≡ (if result then Some (reduced_first (length expected.now) expected.now bs) else None) }
{
    for above in 0..expected.len() {
        let next = expected.at(above);
        if !ends(next) {
            return false;
        }
    }
    true
}

/// Ends the first expected things, and builds what they build.
pub fn end_first(
    alloc: Global,
    count: usize,
    expected: &mut Stack<Expected>,
    operands: &mut Stack<Built>,
) -> Result<(), Memory>
    ensures expected { OnOk result (expected.new ≡ drop count expected.old) }
    ensures operands { OnOk result (operands.new ≡ reduced_first count expected.old operands.old) }
{
    let mut left = count;
    while left > 0 {
        left -= 1;
        match expected.pop() {
            None => return Ok(()),
            Some(next) => end(alloc, next, operands)?,
        }
    }
    Ok(())
}

/// Takes the token, if something accepts it. Otherwise all stays as it is.
pub fn settle<N: Names>(
    alloc: Global,
    names: &N,
    limit: u8,
    expected: &mut Stack<Expected>,
    operands: &mut Stack<Built>,
    token: Token<'_>,
) -> Result<bool, Memory>
    ensures { IfOk result (λ taken. Took taken (settle (N.scope names.now) limit (symbols expected.old) operands.old (token_seen token.entry)) (record { waits = symbols expected.old; built = operands.old }) (record { waits = symbols expected.new; built = operands.new })) }
{
    match find(names, limit, expected, token) {
        None => Ok(false),
        Some(place) => {
            end_first(alloc, place.above, expected, operands)?;
            expected.lower();
            expand(alloc, &place.accepted, expected, operands)?;
            Ok(true)
        }
    }
}
