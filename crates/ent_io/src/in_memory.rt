//! Files and a text in memory, for tests and for callers that have their input and output at hand.
ghost use Rattle.std.specs.Prelude.{◌≡◌, ◌↔◌, ◌≤◌, ◌-◌, map, min, length, take, drop, false, true, [], Some, IfOk, IsTrue, string_bytes};
ghost use Rattle.std.specs.Option.{option_copied};
ghost use Rattle.ent_io.specs.Count.{Rises};
ghost use Rattle.ent_io.specs.Store.{ReadsFile, StoreCauses};
ghost use Rattle.ent_io.specs.Sink.{Takes, SinkCauses};
ghost use Rattle.ent_io.specs.Memory.{FilesInMemory, TextInMemory, CallCounts, named_files, unused, file_in, share_of, next_fails, next_answer, after_next};

use crate::{Sink, SinkEnd, Store, StoreFault};
use std::alloc::Global;
use std::marker::Model;

/// The numbers of the calls that are to fail, how many calls were made, and how many failed.
#[derive(Drop)]
struct Calls {
    failing: Vec<u64>,
    made: u64,
    faults: u64,
}

impl Model for Calls {
    ghost Value = { CallCounts };

    ghost view = { λ c. record { failing = c.failing.items; made = c.made; faults = c.faults } };
}

impl Calls {
    fn new(failing: Vec<u64>) -> Self
        ensures { result ≡ unused failing.items }
    {
        Calls {
            failing,
            made: 0,
            faults: 0,
        }
    }

    /// Counts a call; `true` if it fails.
    fn next(&mut self) -> bool
        ensures fails { result ≡ next_fails self.old }
        ensures after { self.new ≡ after_next self.old }
        ensures rises { IsTrue result → Rises self.old.faults self.new.faults }
    {
        self.made = self.made.saturating_add(1);
        let fails = self.failing.contains(&self.made);
        if fails {
            self.faults = self.faults.saturating_add(1);
        }
        fails
    }
}

/// Returns how many of `n` bytes a call gives or takes.
fn share(by_one: bool, n: usize) -> usize
    ensures { result ≡ share_of by_one n }
{
    if by_one { n.min(1) } else { n }
}

/// Files in memory. If two files have one name the first is read. It never returns `Memory`, and `Failed` exactly at
/// the calls in `failing`, so with an empty list its count of faults stays 0.
#[derive(Drop)]
pub struct MemoryStore {
    files: Vec<(String, Vec<u8>)>,
    by_one: bool,
    calls: Calls,
}

impl Model for MemoryStore {
    ghost Value = { FilesInMemory };

    ghost view = { λ s. record { files = named_files s.files.items; by_one = s.by_one; calls = s.calls } };
}

impl MemoryStore {
    /// A store of these files. The calls with the numbers in `failing`, from 1, will fail, whatever they ask for.
    pub fn new(files: Vec<(String, Vec<u8>)>, failing: Vec<u64>) -> MemoryStore
        ensures { result ≡ record { files = named_files files.items; by_one = false; calls = unused failing.items } }
    {
        MemoryStore {
            files,
            by_one: false,
            calls: Calls::new(failing),
        }
    }

    /// As `new`, but each call gives at most one byte.
    pub fn by_one(files: Vec<(String, Vec<u8>)>, failing: Vec<u64>) -> MemoryStore
        ensures { result ≡ record { files = named_files files.items; by_one = true; calls = unused failing.items } }
    {
        MemoryStore {
            files,
            by_one: true,
            calls: Calls::new(failing),
        }
    }
}

impl Store for MemoryStore {
    ghost files = { λ s. Some (file_in s.files) };

    ghost faults = { λ s. s.calls.faults };

    fn read(&mut self, name: &str, from: u64, buf: &mut [u8]) -> Result<usize, StoreFault>
        ensures within { IfOk result (λ n. n ≤ length buf.new) }
        ensures answer { ReadsFile (Some (file_in self.old.files name.now)) from buf.new result }
        ensures causes { StoreCauses result self.old.calls.faults self.new.calls.faults }
        ensures exact { result ≡ next_answer self.old name.now from (length buf.old) }
        ensures after { self.new ≡ record self.old { calls = after_next self.old.calls } }
    {
        if self.calls.next() {
            return Err(StoreFault::Failed);
        }
        match find_file(&self.files, name) {
            Some(bytes) => Ok(copy_front(rest_of(bytes, from), self.by_one, buf)),
            None => Err(StoreFault::Absent),
        }
    }
}

/// The first file of that name.
fn find_file<'a>(files: &'a [(String, Vec<u8>)], name: &str) -> Option<&'a [u8]>
    ensures { option_copied result ≡ file_in (named_files files.now) name.now }
{
    for (key, bytes) in files {
        if key.as_str() == name {
            return Some(bytes.as_slice());
        }
    }
    None
}

/// The bytes from a place on; none if it is past their end.
fn rest_of(bytes: &[u8], from: u64) -> &[u8]
    ensures { result.now ≡ drop from bytes.now }
{
    if from < bytes.len() as u64 {
        &bytes[from as usize..]
    } else {
        &[]
    }
}

/// Copies bytes into the front of the buffer and returns their number.
fn copy_front(bytes: &[u8], by_one: bool, buf: &mut [u8]) -> usize
    ensures count { result ≡ share_of by_one (min (length bytes.now) (length buf.old)) }
    ensures copied { take result buf.new ≡ take result bytes.now }
{
    let n = share(by_one, bytes.len().min(buf.len()));
    buf[..n].copy_from_slice(&bytes[..n]);
    n
}

/// A text in memory. A call in `failing` fails and leaves the text. Every other call takes the whole piece, or one byte
/// of it, or returns `Memory`.
#[derive(Drop)]
pub struct MemorySink {
    text: Vec<u8>,
    by_one: bool,
    calls: Calls,
}

impl Model for MemorySink {
    ghost Value = { TextInMemory };

    ghost view = { λ s. record { text = s.text.items; by_one = s.by_one; calls = s.calls } };
}

impl MemorySink {
    /// An empty text. The calls with the numbers in `failing`, from 1, will fail, whatever their piece is.
    pub fn new(alloc: Global, failing: Vec<u64>) -> MemorySink
        ensures { result ≡ record { text = []; by_one = false; calls = unused failing.items } }
    {
        MemorySink {
            text: Vec::new(alloc),
            by_one: false,
            calls: Calls::new(failing),
        }
    }

    /// As `new`, but each call takes at most one byte.
    pub fn by_one(alloc: Global, failing: Vec<u64>) -> MemorySink
        ensures { result ≡ record { text = []; by_one = true; calls = unused failing.items } }
    {
        MemorySink {
            text: Vec::new(alloc),
            by_one: true,
            calls: Calls::new(failing),
        }
    }

    /// Returns all that was taken.
    pub fn text(&self) -> &[u8]
        ensures { result.now ≡ self.now.text }
    {
        &self.text
    }
}

impl Sink for MemorySink {
    ghost text = { λ s. Some s.text };

    ghost faults = { λ s. s.calls.faults };

    fn write(&mut self, piece: &[u8]) -> Result<usize, SinkEnd>
        ensures answer { Takes result piece.now (Some self.old.text) (Some self.new.text) }
        ensures causes { SinkCauses result self.old.calls.faults self.new.calls.faults }

        // It fails exactly at the calls in `failing`, and else takes its share or runs out of memory.
        ensures failed { (result ≡ Err SinkEnd.Failed) ↔ IsTrue (next_fails self.old.calls) }
        ensures taken { IfOk result (λ n. n ≡ share_of self.old.by_one (length piece.now)) }
        ensures pace { self.new.by_one ≡ self.old.by_one }
        ensures calls { self.new.calls ≡ after_next self.old.calls }
    {
        if self.calls.next() {
            return Err(SinkEnd::Failed);
        }
        let taken = share(self.by_one, piece.len());
        match self.text.extend_from_slice(&piece[..taken]) {
            Ok(()) => Ok(taken),
            Err(_) => Err(SinkEnd::Memory),
        }
    }
}
