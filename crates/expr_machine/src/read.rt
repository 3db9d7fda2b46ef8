//! The tokens of a text, one after another.
ghost use Rattle.std.specs.Prelude.{◌≡◌, ◌⊎◌, ◌≤◌, ◌<◌, ◌^◌, [], ◌∷◌, None, Some, length, map, OnOk, IfErr, MatchResult};
ghost use Rattle.expr_tokens.specs.Seen.{seen, token_seen};
ghost use Rattle.expr_grammar.specs.Machine.{settle, finish, run};
ghost use Rattle.expr_grammar.specs.Stops.{Halts, Stops};
ghost use Rattle.expr_grammar.specs.Readings.{OutOfMemory, Reads, Refuses};
ghost use Rattle.expr_steps.specs.Expecting.{symbols, Follows};

use ent_types::limits::{LONGEST_TEXT, MOST_NESTING};
use expr_grammar::{Built, ExprCause, ExprFault};
use expr_steps::{Expected, Names, Stack, cause_at, end_first, may_finish, settle};
use expr_tokens::{Lexeme, tokens};
use std::alloc::Global;

/// Returns the fault if memory runs out.
pub(crate) fn out_of_memory() -> ExprFault
    ensures { OutOfMemory result }
{
    ExprFault {
        cause: ExprCause::Memory,
        at: 0,
    }
}

/// Takes the next token, or returns why it isn't taken.
fn step<N: Names>(
    alloc: Global,
    names: &N,
    expected: &mut Stack<Expected>,
    operands: &mut Stack<Built>,
    lexeme: Lexeme<'_>,
) -> Result<(), ExprFault>
    ensures taken { OnOk result (Follows (settle (N.scope names.now) MOST_NESTING (symbols expected.old) operands.old (token_seen lexeme.entry.token)) (record { waits = symbols expected.new; built = operands.new })) }
    ensures refused { IfErr result (λ f. OutOfMemory f ⊎ Halts (N.scope names.now) MOST_NESTING (record { waits = symbols expected.old; built = operands.old }) (seen lexeme.entry ∷ []) 0 f.cause f.at) }
{
    match settle(alloc, names, MOST_NESTING, expected, operands, lexeme.token) {
        Ok(taken) => {
            if taken {
                return Ok(());
            }
            Err(ExprFault {
                cause: cause_at(names, expected, lexeme.token),
                at: lexeme.at,
            })
        }
        Err(_) => Err(out_of_memory()),
    }
}

/// Returns what is built where the tokens end.
fn finish(
    alloc: Global,
    expected: Stack<Expected>,
    operands: Stack<Built>,
    end: u32,
) -> Result<Stack<Built>, ExprFault>
    ensures { MatchResult result (λ ws. finish (symbols expected) operands ≡ Some ws) (λ f. OutOfMemory f ⊎ ((finish (symbols expected) operands ≡ None) × (f.cause ≡ ExprCause.Unexpected) × (f.at ≡ end))) }
{
    if !may_finish(&expected) {
        return Err(ExprFault {
            cause: ExprCause::Unexpected,
            at: end,
        });
    }
    let mut expected = expected;
    let mut operands = operands;
    let count = expected.len();
    match end_first(alloc, count, &mut expected, &mut operands) {
        Ok(()) => Ok(operands),
        Err(_) => Err(out_of_memory()),
    }
}

/// Returns what the tokens build, or where they stop.
fn read_tokens<N: Names>(
    alloc: Global,
    names: &N,
    expected: Stack<Expected>,
    lexemes: &[Lexeme<'_>],
    end: u32,
) -> Result<Stack<Built>, ExprFault>
    ensures { MatchResult result (λ ws. run (N.scope names.now) MOST_NESTING (symbols expected) [] (map (λ p. p.token) (map seen lexemes.now)) ≡ Some ws) (λ f. OutOfMemory f ⊎ Stops (N.scope names.now) MOST_NESTING (symbols expected) (map seen lexemes.now) end f.cause f.at) }
{
    let mut expected = expected;
    let mut operands = Stack::new(alloc);
    for lexeme in lexemes {
        step(alloc, names, &mut expected, &mut operands, *lexeme)?;
    }
    finish(alloc, expected, operands, end)
}

/// Returns what the text builds, or why it isn't read.
pub(crate) fn read_text<N: Names>(
    alloc: Global,
    names: &N,
    expected: Stack<Expected>,
    text: &str,
) -> Result<Stack<Built>, ExprFault>
    ensures { MatchResult result (λ ws. Reads (N.scope names.now) (symbols expected) text.now ws) (λ f. Refuses (N.scope names.now) (symbols expected) text.now f) }
{
    let bytes = text.as_bytes();
    if bytes.len() > LONGEST_TEXT {
        return Err(ExprFault {
            cause: ExprCause::TooLong,
            at: LONGEST_TEXT as u32,
        });
    }
    match tokens(alloc, bytes) {
        Ok(lexemes) => read_tokens(
            alloc,
            names,
            expected,
            lexemes.as_slice(),
            bytes.len() as u32,
        ),
        Err(_) => Err(out_of_memory()),
    }
}
