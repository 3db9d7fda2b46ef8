//! Scenarios, each read and checked, and what comes out.
//!
//! The files of the current folder have scenarios with a line `----` between them. For each scenario of `scenarios.txt`
//! the program prints a line: `ok`, or the first fault with its place. For each scenario of `plans.txt` it prints the
//! numbers of its record, whether it is of a form that is run, and its plan. The expected lines were worked out by
//! independent programs.
//!
//! The status is 0, or 2 if a file can't be read or memory runs out.
#![tactic(auto)]

mod fault;
mod outcomes;
mod plans;

use fault::Fault;
use outcomes::try_scenario;
use plans::try_plan;
use std::process::ExitCode;
use std::rt::Files;
use std::{fs, io};

/// The file of scenarios whose outcome is printed.
const SCENARIOS: &str = "scenarios.txt";

/// The file of scenarios whose plan is printed.
const PLANS: &str = "plans.txt";

/// The line between two scenarios.
const BETWEEN: &str = "----\n";

/// The status if they can't be tried.
const NOT_TRIED: u8 = 2;

fn main(rt: HostRuntime) -> io::Result<ExitCode> {
    if try_outcomes(&rt)? && try_plans(&rt)? {
        Ok(ExitCode::SUCCESS)
    } else {
        Ok(ExitCode::from(NOT_TRIED))
    }
}

/// Tries each scenario whose outcome is printed. `false` if one can't be tried.
fn try_outcomes<R: Files + Print + Eprint + AllocGlobal>(rt: &R) -> io::Result<bool> {
    match fs::read_to_string(rt, SCENARIOS) {
        Ok(text) => is_tried(rt, SCENARIOS, print_outcomes(rt, text.as_str())),
        Err(error) => is_unread(rt, SCENARIOS, error),
    }
}

/// Tries each scenario whose plan is printed. `false` if one can't be tried.
fn try_plans<R: Files + Print + Eprint + AllocGlobal>(rt: &R) -> io::Result<bool> {
    match fs::read_to_string(rt, PLANS) {
        Ok(text) => is_tried(rt, PLANS, print_plans(rt, text.as_str())),
        Err(error) => is_unread(rt, PLANS, error),
    }
}

/// Says on standard error why a file isn't read, and returns `false`.
fn is_unread<R: Eprint>(rt: &R, file: &str, error: io::Error) -> io::Result<bool> {
    eprintln!(rt; "{file}: {error}")?;
    Ok(false)
}

/// `true` if a file was tried whole. A fault is printed on standard error.
fn is_tried<R: Eprint>(rt: &R, file: &str, tried: Result<(), Fault>) -> io::Result<bool> {
    match tried {
        Ok(()) => Ok(true),
        Err(fault) => {
            eprintln!(rt; "{file}: {fault:?}")?;
            Ok(false)
        }
    }
}

fn print_outcomes<R: Print + AllocGlobal>(rt: &R, text: &str) -> Result<(), Fault> {
    for text in text.split(BETWEEN) {
        try_scenario(rt, text)?;
    }
    Ok(())
}

fn print_plans<R: Print + AllocGlobal>(rt: &R, text: &str) -> Result<(), Fault> {
    for text in text.split(BETWEEN) {
        try_plan(rt, text)?;
    }
    Ok(())
}
