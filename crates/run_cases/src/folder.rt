//! What a case finds: files, and calls that fail.

use crate::fault::Fault;
use ent_io::{MemorySink, MemoryStore};
use std::alloc::{AllocError, Global};
use std::mem;

/// The files, which stay from case to case, and how the next case's calls go.
#[derive(Drop)]
pub struct Folder {
    files: Vec<(String, Vec<u8>)>,
    failing_reads: Vec<u64>,
    failing_writes: Vec<u64>,
    by_one: bool,
}

impl Folder {
    /// Returns a folder without files. No call fails.
    pub fn new(alloc: Global) -> Folder {
        Folder {
            files: Vec::new(alloc),
            failing_reads: Vec::new(alloc),
            failing_writes: Vec::new(alloc),
            by_one: false,
        }
    }

    /// Removes all files.
    pub fn clear(&mut self, alloc: Global) {
        self.files = Vec::new(alloc);
    }

    /// Adds an empty file.
    pub fn add_file(&mut self, alloc: Global, name: &str) -> Result<(), AllocError> {
        let name = String::from_str(alloc, name)?;
        self.files.push((name, Vec::new(alloc)))?;
        Ok(())
    }

    /// Adds a line to the newest file.
    pub fn add_line(&mut self, line: &str) -> Result<(), Fault> {
        match self.files.last_mut() {
            Some((_, bytes)) => Ok(push_line(bytes, line.as_bytes())?),
            None => Err(Fault::NoFile),
        }
    }

    /// Adds bytes to the newest file, two hexadecimal digits each.
    pub fn add_bytes(&mut self, alloc: Global, digits: &str) -> Result<(), Fault> {
        match hex::decode(alloc, digits) {
            Ok(more) => self.extend(&more),
            Err(_) => Err(Fault::Line),
        }
    }

    /// Adds bytes to the newest file.
    fn extend(&mut self, more: &[u8]) -> Result<(), Fault> {
        match self.files.last_mut() {
            Some((_, bytes)) => Ok(bytes.extend_from_slice(more)?),
            None => Err(Fault::NoFile),
        }
    }

    /// Makes the newest file longer, by the byte `#`.
    pub fn fill(&mut self, length: &str) -> Result<(), Fault> {
        match length.parse::<usize>() {
            Ok(length) => self.resize(length),
            Err(_) => Err(Fault::Line),
        }
    }

    /// Gives the newest file a length, by the byte `#` where it becomes longer.
    fn resize(&mut self, length: usize) -> Result<(), Fault> {
        match self.files.last_mut() {
            Some((_, bytes)) => Ok(bytes.resize(length, b'#')?),
            None => Err(Fault::NoFile),
        }
    }

    /// Lets these calls of the next case's store fail.
    pub fn fail_reads(&mut self, alloc: Global, numbers: &str) -> Result<(), Fault> {
        self.failing_reads = read_numbers(alloc, numbers)?;
        Ok(())
    }

    /// Lets these calls of the next case's sink fail.
    pub fn fail_writes(&mut self, alloc: Global, numbers: &str) -> Result<(), Fault> {
        self.failing_writes = read_numbers(alloc, numbers)?;
        Ok(())
    }

    /// Lets each call of the next case's store and sink move one byte.
    pub fn move_by_one(&mut self) {
        self.by_one = true;
    }

    /// Returns the store and the sink of the next case. In the cases after it no call fails.
    pub fn open(&mut self, alloc: Global) -> Result<(MemoryStore, MemorySink), AllocError> {
        let files = copy_files(alloc, &self.files)?;
        let reads = mem::replace(&mut self.failing_reads, Vec::new(alloc));
        let writes = mem::replace(&mut self.failing_writes, Vec::new(alloc));
        let by_one = mem::replace(&mut self.by_one, false);
        Ok((store(files, reads, by_one), sink(alloc, writes, by_one)))
    }
}

fn store(files: Vec<(String, Vec<u8>)>, failing: Vec<u64>, by_one: bool) -> MemoryStore {
    if by_one {
        MemoryStore::by_one(files, failing)
    } else {
        MemoryStore::new(files, failing)
    }
}

fn sink(alloc: Global, failing: Vec<u64>, by_one: bool) -> MemorySink {
    if by_one {
        MemorySink::by_one(alloc, failing)
    } else {
        MemorySink::new(alloc, failing)
    }
}

/// Adds a line with its end.
fn push_line(bytes: &mut Vec<u8>, line: &[u8]) -> Result<(), AllocError> {
    bytes.extend_from_slice(line)?;
    bytes.push(b'\n')?;
    Ok(())
}

/// Reads numbers with blanks between them.
fn read_numbers(alloc: Global, text: &str) -> Result<Vec<u64>, Fault> {
    let mut numbers = Vec::new(alloc);
    for digits in text.split(' ') {
        numbers.push(read_number(digits)?)?;
    }
    Ok(numbers)
}

fn read_number(digits: &str) -> Result<u64, Fault> {
    match digits.parse::<u64>() {
        Ok(number) => Ok(number),
        Err(_) => Err(Fault::Line),
    }
}

/// Copies files with their names.
fn copy_files(
    alloc: Global,
    files: &[(String, Vec<u8>)],
) -> Result<Vec<(String, Vec<u8>)>, AllocError> {
    let mut copies = Vec::new(alloc);
    for (name, bytes) in files {
        copies.push(copy_file(alloc, name.as_str(), bytes.as_slice())?)?;
    }
    Ok(copies)
}

fn copy_file(alloc: Global, name: &str, bytes: &[u8]) -> Result<(String, Vec<u8>), AllocError> {
    let name = String::from_str(alloc, name)?;
    let bytes = bytes.to_vec(alloc)?;
    Ok((name, bytes))
}
