//! A case: the words, done by the top call over the folder, and what is printed of it.

use crate::fault::Fault;
use crate::folder::Folder;
use ent_io::{NoGate, Sink, Status, Store};
use std::alloc::{AllocError, Global};
use std::io;
use std::sync::Wait;
use std::thread::Threads;

/// Texts with more lines are printed without their middle.
const MOST_LINES: usize = 60;

/// How many lines of such a text are printed at its start, and as many at its end.
const END_LINES: usize = 10;

/// What is printed where a case has no words.
const NO_WORDS: &str = "no words";

/// How the top call ended, and what it wrote.
#[derive(Drop)]
struct Ended {
    status: Status,
    text: Vec<u8>,
}

/// Does a case, and prints the words, the text, the status, and the text's length and checksum.
pub fn do_case<R: Print + AllocGlobal + Threads + Wait>(
    rt: &R,
    folder: &mut Folder,
    words: Option<&str>,
) -> Result<(), Fault> {
    let list = words_of(rt.alloc(), words)?;
    let ended = do_list(rt, rt.alloc(), folder, &list)?;
    print_case(rt, words.unwrap_or(NO_WORDS), ended.status, &ended.text)
}

/// Does a case, and prints the words, the command that they are, and the status.
pub fn do_words<R: Print + AllocGlobal + Threads + Wait>(
    rt: &R,
    folder: &mut Folder,
    words: Option<&str>,
) -> Result<(), Fault> {
    let list = words_of(rt.alloc(), words)?;
    print_command(rt, words.unwrap_or(NO_WORDS), &list)?;
    let ended = do_list(rt, rt.alloc(), folder, &list)?;
    Ok(print_status(rt, ended.status)?)
}

/// Returns the words between the tabs, or none.
fn words_of(alloc: Global, words: Option<&str>) -> Result<Vec<String>, AllocError> {
    let mut list = Vec::new(alloc);
    if let Some(words) = words {
        for word in words.split('\t') {
            list.push(String::from_str(alloc, word)?)?;
        }
    }
    Ok(list)
}

/// Does the words over the folder.
fn do_list<R: Threads + Wait>(
    rt: &R,
    alloc: Global,
    folder: &mut Folder,
    list: &[String],
) -> Result<Ended, AllocError> {
    let (mut store, mut out) = folder.open(alloc)?;
    let status = obey(rt, alloc, list, &mut store, &mut out);
    let text = out.text().to_vec(alloc)?;
    Ok(Ended { status, text })
}

/// Does the words over a store and a sink. It has no clause, so that the proofs above don't read those of the call.
fn obey<R: Threads + Wait, S: Store, W: Sink>(
    rt: &R,
    alloc: Global,
    list: &[String],
    store: &mut S,
    out: &mut W,
) -> Status {
    entsim::entsim(rt, alloc, list, store, out, &NoGate)
}

/// Prints the words, and the command that they are.
fn print_command<R: Print>(rt: &R, words: &str, list: &[String]) -> io::Result<()> {
    let command = entsim::read_words(list);
    println!(rt; "{words}: {command:?}")
}

fn print_status<R: Print>(rt: &R, status: Status) -> io::Result<()> {
    println!(rt; "-- {status:?}")
}

fn print_case<R: Print>(rt: &R, words: &str, status: Status, text: &[u8]) -> Result<(), Fault> {
    println!(rt; "== {words}")?;
    print_text(rt, text)?;
    Ok(print_sums(rt, status, text.len(), checksum(text))?)
}

fn print_sums<R: Print>(rt: &R, status: Status, length: usize, sum: u32) -> io::Result<()> {
    println!(rt; "-- {status:?}, {length} bytes, checksum {sum}")
}

/// Prints a text.
fn print_text<R: Print>(rt: &R, text: &[u8]) -> Result<(), Fault> {
    match std::str::from_utf8(text) {
        Ok(text) => Ok(print_lines(rt, text, text.lines().count())?),
        Err(_) => Err(Fault::Text),
    }
}

/// Prints each line whole; of a long text the first and the last lines.
fn print_lines<R: Print>(rt: &R, text: &str, count: usize) -> io::Result<()> {
    for (at, line) in text.lines().enumerate() {
        if is_shown(at, count) {
            println!(rt; "{line}")?;
        } else if at == END_LINES {
            println!(rt; "..")?;
        }
    }
    Ok(())
}

/// `true` if the line at a place, of `count` lines, is printed.
fn is_shown(at: usize, count: usize) -> bool {
    (count <= MOST_LINES) | (at < END_LINES) | (count.saturating_sub(at) <= END_LINES)
}

/// Returns a number that differs for most texts.
fn checksum(text: &[u8]) -> u32 {
    let mut sum = 0u32;
    for byte in text {
        sum = sum.wrapping_mul(31).wrapping_add(u32::from(*byte));
    }
    sum
}
