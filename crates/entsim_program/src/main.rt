//! The program `entsim`: it does the command that its arguments name, over the files of the current folder, and prints
//! what the command writes.
#![tactic(auto)]

use ent_io::{FolderStore, NoGate, Sink, SinkEnd, Status, StdSink, Store};
use std::alloc::Global;
use std::env::{self, Env};
use std::fs::Files;
use std::io;
use std::process::ExitCode;
use std::sync::Wait;
use std::thread::Threads;

/// Returns the program's exit status.
fn number(status: Status) -> u8 {
    match status {
        Status::Done => 0,
        Status::BadWords => 2,
        Status::Refused => 3,
        Status::KeyShared => 4,
        Status::ReadFault => 5,
        Status::WriteFault => 6,
        Status::Memory => 7,
    }
}

/// Returns the status after the rest of the text is written. A text that can't be written is a fault of writing.
fn settled(status: Status, handed: Result<(), SinkEnd>) -> Status {
    match handed {
        Ok(()) => status,
        Err(_) => Status::WriteFault,
    }
}

/// Returns the words after the program's name. No command has a word that isn't UTF-8, so a list with such a word is read
/// as no words.
fn read_args<R: Env + AllocGlobal>(rt: &R) -> io::Result<Vec<String>> {
    match env::args(rt) {
        Ok(all) => Ok(all.skip(1).collect::<Vec<String>>(rt.alloc())?),
        Err(error) if error.kind() == io::ErrorKind::InvalidData => Ok(Vec::new(rt.alloc())),
        Err(error) => Err(error),
    }
}

/// Does the command over a store and a sink. It has no clause, so that the proofs below don't read those of the call.
fn obey<R: Threads + Wait, S: Store, W: Sink>(
    rt: &R,
    alloc: Global,
    words: &[String],
    store: &mut S,
    out: &mut W,
) -> Status {
    entsim::entsim(rt, alloc, words, store, out, &NoGate)
}

/// Does the command over the files of the current folder, and prints what it writes.
fn obey_here<R: Files + Print + Threads + Wait + Drop>(
    rt: &R,
    alloc: Global,
    words: &[String],
) -> Status {
    let mut store = FolderStore::new(rt, alloc);
    match StdSink::new(alloc, io::writer(rt)) {
        Ok(mut out) => {
            let status = obey(rt, alloc, words, &mut store, &mut out);
            settled(status, out.finish())
        }
        Err(_) => Status::Memory,
    }
}

fn main(rt: HostRuntime) -> io::Result<ExitCode> {
    let status = match read_args(&rt) {
        Ok(words) => obey_here(&rt, rt.alloc(), &words),
        Err(_) => Status::Memory,
    };
    Ok(ExitCode::from(number(status)))
}
