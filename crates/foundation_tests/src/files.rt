//! Files that are read, from memory and from a folder.
use ent_io::{
    End, FolderStore, Gate, MemoryStore, Missing, NoGate, ReadEnd, Status, Store, StoreFault,
    read_whole,
};
use std::alloc::{AllocError, Global};
use std::fs::Files;
use std::{fs, io};

/// Reads that give a whole file: the name, the limit, whether a call gives one byte, the call that fails, and the
/// bytes. No call has the number 0.
const WHOLE: [(&str, usize, bool, u64, &[u8]); 4] = [
    ("three", 3, false, 0, b"abc"),
    ("three", usize::MAX, false, 3, b"abc"),
    ("three", 3, true, 5, b"abc"),
    ("none", 0, false, 0, b""),
];

/// Reads that end otherwise. Each call of a whole read may fail.
const ENDED: [(&str, usize, bool, u64, ReadEnd); 10] = [
    ("three", 2, false, 0, ReadEnd::TooLong),
    ("three", 0, true, 0, ReadEnd::TooLong),
    ("four", 3, false, 2, ReadEnd::Absent),
    ("four", 3, false, 1, ReadEnd::Fault),
    ("three", 3, false, 1, ReadEnd::Fault),
    ("three", 3, false, 2, ReadEnd::Fault),
    ("three", 3, true, 1, ReadEnd::Fault),
    ("three", 3, true, 2, ReadEnd::Fault),
    ("three", 3, true, 3, ReadEnd::Fault),
    ("three", 3, true, 4, ReadEnd::Fault),
];

fn add_file(
    alloc: Global,
    files: &mut Vec<(String, Vec<u8>)>,
    name: &str,
    bytes: &[u8],
) -> Result<(), AllocError> {
    let name = String::from_str(alloc, name)?;
    let bytes = bytes.to_vec(alloc)?;
    files.push((name, bytes))?;
    Ok(())
}

/// Returns the files `three` and `none`, of three bytes and of no byte.
fn two_files(alloc: Global) -> Result<Vec<(String, Vec<u8>)>, AllocError> {
    let mut files = Vec::new(alloc);
    add_file(alloc, &mut files, "three", b"abc")?;
    add_file(alloc, &mut files, "none", b"")?;
    Ok(files)
}

fn one_call(alloc: Global, number: u64) -> Result<Vec<u64>, AllocError> {
    let mut calls = Vec::new(alloc);
    calls.push(number)?;
    Ok(calls)
}

fn store(alloc: Global, by_one: bool, failing: u64) -> Result<MemoryStore, AllocError> {
    let files = two_files(alloc)?;
    let calls = one_call(alloc, failing)?;
    Ok(if by_one {
        MemoryStore::by_one(files, calls)
    } else {
        MemoryStore::new(files, calls)
    })
}

fn answers(
    store: &mut MemoryStore,
    name: &str,
    from: u64,
    wanted: Result<usize, StoreFault>,
) -> bool {
    store.read(name, from, &mut [0; 2]) == wanted
}

fn gives_the_end(store: &mut MemoryStore) -> bool {
    let mut buf = [0; 2];
    (store.read("three", 1, &mut buf) == Ok(2)) & (buf == *b"bc")
}

fn gives_one_then_fails(store: &mut MemoryStore) -> bool {
    answers(store, "three", 2, Ok(1)) & answers(store, "three", 0, Err(StoreFault::Failed))
}

fn gives_nothing_past_the_end(store: &mut MemoryStore) -> bool {
    answers(store, "three", u64::MAX, Ok(0)) & answers(store, "four", 0, Err(StoreFault::Absent))
}

fn answers_in_order(alloc: Global) -> bool {
    match store(alloc, false, 3) {
        Ok(mut store) => {
            gives_the_end(&mut store)
                & gives_one_then_fails(&mut store)
                & gives_nothing_past_the_end(&mut store)
        }
        Err(_) => false,
    }
}

#[test]
fn a_store_answers_by_place_and_number_of_the_call(rt: HostRuntime) {
    assert!(rt; answers_in_order(rt.alloc()));
}

fn gives<S: Store>(alloc: Global, store: &mut S, name: &str, limit: usize, wanted: &[u8]) -> bool {
    match read_whole(alloc, store, name, limit) {
        Ok(bytes) => bytes.as_slice() == wanted,
        Err(_) => false,
    }
}

fn ends<S: Store>(alloc: Global, store: &mut S, name: &str, limit: usize, wanted: ReadEnd) -> bool {
    match read_whole(alloc, store, name, limit) {
        Ok(_) => false,
        Err(end) => end == wanted,
    }
}

fn gives_so(
    alloc: Global,
    by_one: bool,
    failing: u64,
    name: &str,
    limit: usize,
    wanted: &[u8],
) -> bool {
    match store(alloc, by_one, failing) {
        Ok(mut store) => gives(alloc, &mut store, name, limit, wanted),
        Err(_) => false,
    }
}

fn ends_so(
    alloc: Global,
    by_one: bool,
    failing: u64,
    name: &str,
    limit: usize,
    wanted: ReadEnd,
) -> bool {
    match store(alloc, by_one, failing) {
        Ok(mut store) => ends(alloc, &mut store, name, limit, wanted),
        Err(_) => false,
    }
}

fn all_give_so(alloc: Global, cases: &[(&str, usize, bool, u64, &[u8])]) -> bool {
    for (name, limit, by_one, failing, wanted) in cases {
        if !gives_so(alloc, *by_one, *failing, name, *limit, wanted) {
            return false;
        }
    }
    true
}

fn all_end_so(alloc: Global, cases: &[(&str, usize, bool, u64, ReadEnd)]) -> bool {
    for (name, limit, by_one, failing, wanted) in cases {
        if !ends_so(alloc, *by_one, *failing, name, *limit, *wanted) {
            return false;
        }
    }
    true
}

#[test]
fn a_file_is_read_whole(rt: HostRuntime) {
    assert!(rt; all_give_so(rt.alloc(), &WHOLE));
}

#[test]
fn each_call_of_a_whole_read_may_fail(rt: HostRuntime) {
    assert!(rt; all_end_so(rt.alloc(), &ENDED));
}

fn ends_as(end: ReadEnd, status: Status) -> bool {
    match end.missing() {
        Ok(_) => false,
        Err(end) => Status::from(end) == status,
    }
}

fn is_missing(end: ReadEnd, wanted: Missing) -> bool {
    end.missing() == Ok(wanted)
}

fn has_status(end: End, wanted: Status) -> bool {
    Status::from(end) == wanted
}

#[test]
fn an_end_of_a_read_is_a_missing_file_or_a_status(rt: HostRuntime) {
    assert!(rt;
        is_missing(ReadEnd::Absent, Missing::Absent)
            & is_missing(ReadEnd::TooLong, Missing::TooLong)
    );
    assert!(rt;
        ends_as(ReadEnd::Fault, Status::ReadFault) & ends_as(ReadEnd::Memory, Status::Memory)
    );
    assert!(rt; has_status(End::WriteFault, Status::WriteFault));
    NoGate.reach(1000);
}

/// The name of a file that a test makes and removes again.
const FILE: &str = "folder_store_test_file";

fn reads_real<R: Files + Drop>(rt: &R, alloc: Global, bytes: &[u8]) -> bool {
    let mut store = FolderStore::new(rt, alloc);
    gives(alloc, &mut store, FILE, bytes.len(), bytes)
        & ends(
            alloc,
            &mut store,
            FILE,
            bytes.len().saturating_sub(1),
            ReadEnd::TooLong,
        )
}

fn misses_real<R: Files + Drop>(rt: &R, alloc: Global) -> bool {
    let mut store = FolderStore::new(rt, alloc);
    ends(alloc, &mut store, "no_such_file", 10, ReadEnd::Absent)
        & ends(alloc, &mut store, ".", 10, ReadEnd::Fault)
}

/// Makes the file, reads it and removes it again.
fn reads_a_real_file<R: Files + Drop>(rt: &R, alloc: Global, bytes: &[u8]) -> io::Result<bool> {
    fs::write(rt, FILE, bytes)?;
    let is_read = reads_real(rt, alloc, bytes);
    fs::remove_file(rt, FILE)?;
    Ok(is_read)
}

fn reads_100_000_bytes<R: Files + Drop>(rt: &R, alloc: Global) -> bool {
    match vec![in alloc; 7u8; 100_000] {
        Ok(bytes) => matches!(reads_a_real_file(rt, alloc, &bytes), Ok(true)),
        Err(_) => false,
    }
}

#[test]
fn a_real_file_is_read(rt: HostRuntime) {
    assert!(rt; reads_100_000_bytes(&rt, rt.alloc()));
    assert!(rt; misses_real(&rt, rt.alloc()));
}
