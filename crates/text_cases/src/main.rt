//! The cases of the expression language: tokens, answers of the readers, trees, printed texts and values.
//!
//! The table `texts.tsv` of the current folder has a line for each case, with the expected result, which an independent
//! program computed. The program tries each case, prints a line for each result that isn't the expected one, and then
//! the numbers of both.
//!
//! The status is 0 if each result is the expected one, 1 if some isn't, and 2 if the table can't be read.
#![tactic(auto)]

mod answer;
mod fault;
mod lexing;
mod printing;
mod reading;
mod rows;
mod setting;
mod table;
mod types;
mod values;

use std::process::ExitCode;
use std::rt::Files;
use std::{fs, io};
use table::Outcome;

/// The table's file.
const TABLE: &str = "texts.tsv";

/// The status where some result isn't the expected one.
const OTHERWISE: u8 = 1;

/// The status where the table can't be read.
const NO_TABLE: u8 = 2;

fn main(rt: HostRuntime) -> io::Result<ExitCode> {
    let status = try_file(&rt)?;
    Ok(ExitCode::from(status))
}

/// Tries the table's file, and returns the status.
fn try_file<R: Files + Print + Eprint + AllocGlobal>(rt: &R) -> io::Result<u8> {
    match fs::read_to_string(rt, TABLE) {
        Ok(text) => try_text(rt, text.as_str()),
        Err(error) => {
            eprintln!(rt; "{TABLE}: {error}")?;
            Ok(NO_TABLE)
        }
    }
}

/// Tries a table, and returns the status.
fn try_text<R: Print + Eprint + AllocGlobal>(rt: &R, text: &str) -> io::Result<u8> {
    match table::try_table(rt.alloc(), text) {
        Ok(outcomes) => report(rt, outcomes.as_slice()),
        Err(fault) => {
            eprintln!(rt; "{fault:?}")?;
            Ok(NO_TABLE)
        }
    }
}

/// Prints what came out, and returns the status.
fn report<R: Print>(rt: &R, outcomes: &[Outcome]) -> io::Result<u8> {
    let mut missed = 0usize;
    for outcome in outcomes {
        if let Outcome::Otherwise { line, found } = outcome {
            println!(rt; "line {line}: {found}")?;
            missed = missed.saturating_add(1);
        }
    }
    let met = outcomes.len().saturating_sub(missed);
    println!(rt; "cases: {met} as expected, {missed} not")?;
    Ok(if missed == 0 { 0 } else { OTHERWISE })
}
