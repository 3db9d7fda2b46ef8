//! The files of the current folder. No clause says what a real file holds: this is a trusted edge, a few lines long.
ghost use Rattle.std.specs.Prelude.{◌≡◌, None};
ghost use Rattle.std.specs.Io.{ReadsAtMost};
ghost use Rattle.ent_io.specs.Count.{Rises};
ghost use Rattle.ent_io.specs.Store.{FaultCause};

use crate::{Store, StoreFault};
use std::alloc::Global;
use std::fs::{File, Files};
use std::io;
use std::io::{ErrorKind, Read, Seek, SeekFrom};
use std::marker::Model;

/// The files of the current folder. Contracts don't see their contents. The file that was last read stays open, so that
/// a file is read chunk by chunk in one pass. A missing file or folder is `Absent`; one that can't be read, such as a
/// folder, is `Failed`.
#[derive(Drop)]
pub struct FolderStore<'a, R: Files + Drop> {
    rt: &'a R,
    alloc: Global,
    opened: Option<Opened<R::File>>,
    faults: u64,
}

/// A file and how far it was read.
#[derive(Drop)]
struct Opened<F: Read + Seek + Drop> {
    name: String,
    file: F,
    at: u64,
}

// Contracts see its count of faults.
impl<'a, R: Files + Drop> Model for FolderStore<'a, R> {
    ghost use Rattle.std.specs.Prelude.{ℕ};

    ghost Value = { ℕ };

    ghost view = { λ s. s.faults };
}

impl<'a, R: Files + Drop> FolderStore<'a, R> {
    /// A store over the system's files, which has not failed yet.
    pub fn new(rt: &'a R, alloc: Global) -> Self
        ensures { result ≡ 0 }
    {
        FolderStore {
            rt,
            alloc,
            opened: None,
            faults: 0,
        }
    }

    /// After an error no file is open, so the next call opens it again.
    fn read_open(&mut self, name: &str, from: u64, buf: &mut [u8]) -> io::Result<usize>
        ensures within { ReadsAtMost result buf.new }
        ensures faults { self.new ≡ self.old }
    {
        let kept = self
            .opened
            .take()
            .filter(|opened| opened.name.as_str() == name);
        let mut opened = match kept {
            Some(opened) => opened,
            None => Opened {
                name: String::from_str(self.alloc, name)?,
                file: File::open(self.rt, name)?,
                at: 0,
            },
        };
        let taken = opened.read(from, buf)?;
        self.opened = Some(opened);
        Ok(taken)
    }
}

impl<F: Read + Seek + Drop> Opened<F> {
    fn read(&mut self, from: u64, buf: &mut [u8]) -> io::Result<usize>
        ensures { ReadsAtMost result buf.new }
    {
        if self.at != from {
            self.file.seek(SeekFrom::Start(from))?;
        }
        let taken = self.file.read(buf)?;
        self.at = from.saturating_add(taken as u64);
        Ok(taken)
    }
}

impl<'a, R: Files + Drop> Store for FolderStore<'a, R> {
    ghost files = { λ _. None };

    ghost faults = { λ s. s };

    fn read(&mut self, name: &str, from: u64, buf: &mut [u8]) -> Result<usize, StoreFault> {
        match self.read_open(name, from, buf) {
            Ok(taken) => Ok(taken),
            Err(error) => Err(fault_of(error.kind(), &mut self.faults)),
        }
    }
}

/// The fault of a store for an error of the system. A failure is counted.
fn fault_of(kind: ErrorKind, faults: &mut u64) -> StoreFault
    ensures { FaultCause result faults.old faults.new }
{
    match kind {
        ErrorKind::NotFound => StoreFault::Absent,
        ErrorKind::OutOfMemory => StoreFault::Memory,
        _ => {
            *faults = faults.saturating_add(1);
            StoreFault::Failed
        }
    }
}
