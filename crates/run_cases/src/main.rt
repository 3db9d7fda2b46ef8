//! Whole runs of the top call, over files and a text in memory.
//!
//! The table `cases.txt` of the current folder has cases: the files that the store has, the calls of the store and of the
//! sink that fail, and the words. The program does each case and prints the text and the status. What it must print was
//! worked out by an independent program, and for calls that fail by a script from the whole text.
//!
//! The status is 0, or 2 where the table can't be read or memory runs out.
#![tactic(auto)]

mod case;
mod fault;
mod folder;
mod table;

use std::process::ExitCode;
use std::rt::Files;
use std::sync::Wait;
use std::thread::Threads;
use std::{fs, io};

/// The table's file.
const TABLE: &str = "cases.txt";

/// The status if the cases can't be done.
const NOT_DONE: u8 = 2;

fn main(rt: HostRuntime) -> io::Result<ExitCode> {
    if do_file(&rt)? {
        Ok(ExitCode::SUCCESS)
    } else {
        Ok(ExitCode::from(NOT_DONE))
    }
}

/// Does the cases of the table's file. `false` if one can't be done.
fn do_file<R: Files + Print + Eprint + AllocGlobal + Threads + Wait>(rt: &R) -> io::Result<bool> {
    match fs::read_to_string(rt, TABLE) {
        Ok(text) => do_text(rt, text.as_str()),
        Err(error) => {
            eprintln!(rt; "{TABLE}: {error}")?;
            Ok(false)
        }
    }
}

/// Does the cases of a table. `false` if one can't be done, which is told on standard error.
fn do_text<R: Print + Eprint + AllocGlobal + Threads + Wait>(
    rt: &R,
    text: &str,
) -> io::Result<bool> {
    match table::do_table(rt, text) {
        Ok(()) => Ok(true),
        Err(stop) => {
            eprintln!(rt; "{TABLE}: {stop:?}")?;
            Ok(false)
        }
    }
}
