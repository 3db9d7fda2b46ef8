//! A table of cases, tried line by line.
ghost use Rattle.std.specs.Prelude.{◌≡◌, ◌↔◌, string_bytes};

use crate::fault::{LineFault, TableFault};
use crate::lexing::tokens_text;
use crate::printing::{printed_field, printed_text};
use crate::reading::{Sort, answer_text, read, tree_text};
use crate::setting::{Setting, place_named};
use crate::values::{entity_text, value_text};
use expr_read::{Scope, TextPlace};
use std::alloc::Global;

/// How a case ended.
#[derive(Drop)]
pub enum Outcome {
    /// The result is the expected one.
    AsExpected,
    /// The result is another.
    Otherwise {
        /// The case's line, from 1.
        line: usize,
        /// The result.
        found: String,
    },
}

/// Returns how each case of a table ended, in order, or the first line that isn't taken.
///
/// A line is empty, a remark, a case, or one that changes the scope of the cases after it. The scope before the first
/// line is a spawn over the built-in types.
pub fn try_table(alloc: Global, text: &str) -> Result<Vec<Outcome>, TableFault> {
    let mut outcomes = Vec::new(alloc);
    match Setting::new(alloc, TextPlace::Spawn) {
        Ok(mut setting) => try_lines(alloc, &mut setting, &mut outcomes, text)?,
        Err(_) => return Err(out_of_memory()),
    }
    Ok(outcomes)
}

/// Returns the fault if memory runs out before the first line is taken.
fn out_of_memory() -> TableFault {
    TableFault {
        line: 1,
        fault: LineFault::Memory,
    }
}

/// Tries the lines of a table, and adds how each case ended.
fn try_lines(
    alloc: Global,
    setting: &mut Setting,
    outcomes: &mut Vec<Outcome>,
    text: &str,
) -> Result<(), TableFault> {
    for (at, line) in text.lines().enumerate() {
        let number = at + 1;
        if let Err(fault) = try_line(alloc, setting, outcomes, number, line) {
            return Err(TableFault {
                line: number,
                fault,
            });
        }
    }
    Ok(())
}

/// Tries the case of a line, or changes the scope of the cases after it.
fn try_line(
    alloc: Global,
    setting: &mut Setting,
    outcomes: &mut Vec<Outcome>,
    number: usize,
    line: &str,
) -> Result<(), LineFault> {
    match line.split_once('\t') {
        None => setting.take(alloc, line),
        Some((word, rest)) => {
            let outcome = try_case(alloc, setting, number, word, rest)?;
            outcomes.push(outcome)?;
            Ok(())
        }
    }
}

/// Returns how the case of a line ended. Its expected result is the last part of the line, but that of tokens is the
/// first, so that their text may have tabs.
fn try_case(
    alloc: Global,
    setting: &Setting,
    number: usize,
    word: &str,
    rest: &str,
) -> Result<Outcome, LineFault> {
    let (first, second) = rest.split_once('\t').ok_or(LineFault::Parts)?;
    if word == "tokens" {
        return Ok(compare(number, first, tokens_text(alloc, second)?));
    }
    if is_of_one_text(word) {
        let found = try_one_text(alloc, word, first, &setting.scope())?;
        return Ok(compare(number, second, found));
    }
    let (text, wanted) = second.split_once('\t').ok_or(LineFault::Parts)?;
    let found = try_text(alloc, setting, word, first, text)?;
    Ok(compare(number, wanted, found))
}

/// `true` if the lines with this word have a text and its expected result, and nothing else.
fn is_of_one_text(word: &str) -> bool {
    (word == "value") | (word == "entity") | (word == "field")
}

/// Returns the result of a case that has a text alone.
fn try_one_text(alloc: Global, word: &str, text: &str, scope: &Scope) -> Result<String, LineFault> {
    match word {
        "value" => value_text(alloc, text, scope),
        "entity" => entity_text(alloc, text, scope),
        _ => printed_field(alloc, text, scope),
    }
}

/// Returns the result of a case whose first part says how its text is read.
fn try_text(
    alloc: Global,
    setting: &Setting,
    word: &str,
    first: &str,
    text: &str,
) -> Result<String, LineFault> {
    let scope = setting.scope();
    match word {
        "case" => answer_text(alloc, read(alloc, Sort::named(first)?, text, &scope)),
        "tree" => tree_text(alloc, Sort::named(first)?, text, &scope),
        "print" => printed_text(alloc, text, &scope, &setting.scope_at(place_named(first)?)),
        _ => Err(LineFault::UnknownLine),
    }
}

/// Returns how a case ended, by the expected result and the one that was found.
fn compare(line: usize, wanted: &str, found: String) -> Outcome
    ensures as_expected { (result ≡ Outcome.AsExpected) ↔ (string_bytes found ≡ wanted.now) }
{
    if found.as_str() == wanted {
        Outcome::AsExpected
    } else {
        Outcome::Otherwise { line, found }
    }
}
