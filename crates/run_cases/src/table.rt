//! The table of cases, done line by line.
//!
//! An empty line and one that begins with `#` say nothing. `folder` begins a folder without files. `file NAME` adds a
//! file, and a line that begins with `|` adds a line to it, `hex DIGITS` bytes, and `fill N` as many `#` as make it N
//! bytes long. `reads N ..` and `writes N ..` say which calls of the store and of the sink fail in the next case, and
//! `by_one` that each of them moves one byte. `case` and `words` do a case, with tabs between the words: `case` prints the
//! text and the status, `words` the command and the status in one line.

use crate::case::{do_case, do_words};
use crate::fault::Fault;
use crate::folder::Folder;
use std::alloc::Global;
use std::sync::Wait;
use std::thread::Threads;

/// A line that isn't done, numbered from 0, and why.
#[derive(Clone, Copy, Debug)]
pub struct Stop {
    pub line: usize,
    pub fault: Fault,
}

/// Does the cases of a table, in order.
pub fn do_table<R: Print + AllocGlobal + Threads + Wait>(rt: &R, table: &str) -> Result<(), Stop> {
    let mut folder = Folder::new(rt.alloc());
    do_lines(rt, &mut folder, table)
}

fn do_lines<R: Print + AllocGlobal + Threads + Wait>(
    rt: &R,
    folder: &mut Folder,
    table: &str,
) -> Result<(), Stop> {
    for (line, text) in table.lines().enumerate() {
        if let Err(fault) = do_line(rt, folder, text) {
            return Err(Stop { line, fault });
        }
    }
    Ok(())
}

/// Does what a line of the table says.
fn do_line<R: Print + AllocGlobal + Threads + Wait>(
    rt: &R,
    folder: &mut Folder,
    line: &str,
) -> Result<(), Fault> {
    if let Some(text) = line.strip_prefix('|') {
        return folder.add_line(text);
    }
    match line.split_once(' ') {
        Some((word, rest)) => do_word(rt, folder, word, Some(rest)),
        None => do_word(rt, folder, line, None),
    }
}

/// Does a case, or sets what the next cases find.
fn do_word<R: Print + AllocGlobal + Threads + Wait>(
    rt: &R,
    folder: &mut Folder,
    word: &str,
    rest: Option<&str>,
) -> Result<(), Fault> {
    match word {
        "" | "#" => Ok(()),
        "case" => do_case(rt, folder, rest),
        "words" => do_words(rt, folder, rest),
        _ => set(rt.alloc(), folder, word, rest.unwrap_or("")),
    }
}

/// Sets what the next cases find.
fn set(alloc: Global, folder: &mut Folder, word: &str, rest: &str) -> Result<(), Fault> {
    match word {
        "folder" => folder.clear(alloc),
        "file" => folder.add_file(alloc, rest)?,
        "hex" => folder.add_bytes(alloc, rest)?,
        "fill" => folder.fill(rest)?,
        "reads" => folder.fail_reads(alloc, rest)?,
        "writes" => folder.fail_writes(alloc, rest)?,
        "by_one" => folder.move_by_one(),
        _ => return Err(Fault::Line),
    }
    Ok(())
}
