//! Stores, which have files, and reading a whole file.
ghost use Rattle.std.specs.Prelude.{◌≡◌, ◌<◌, ◌≤◌, Option, List, ℕ, length, IfOk};
ghost use Rattle.ent_io.specs.Files.{Files, told_file};
ghost use Rattle.ent_io.specs.Store.{IsFrontOf, ReadsFile, ReadsMore, ReadsWhole, ReadCauses, StoreCauses};
ghost use Rattle.ent_io.specs.End.{missing_of};

use crate::End;
use std::alloc::{AllocError, Global};

/// The greatest number of bytes that one call of the store is asked for.
const CHUNK: usize = 65536;

/// Why a call of a store gave no bytes.
#[derive(Clone, Copy, Debug, PartialEq, Eq)]
pub enum StoreFault {
    /// There is no file of this name.
    Absent,
    /// The store failed, and its count of faults rose.
    Failed,
    /// Memory ran out, and nothing else failed.
    Memory,
}

/// Files by name. Its meaning is an optional function from names to files, which never changes, and a count of faults,
/// which never falls. A store without that function may return anything, and still raises its count when it fails.
pub trait Store {
    /// The files, if contracts see them.
    ghost files: { Self → Option Files };

    /// How often the store has failed. The count stays at 2 ^ 64 - 1 once it is there.
    ghost faults: { Self → ℕ };

    /// Reads bytes of the file from a place on into the front of the buffer, and returns their number. It is 0 only if
    /// the buffer is empty or the place is at or past the file's end.
    fn read(&mut self, name: &str, from: u64, buf: &mut [u8]) -> Result<usize, StoreFault>
        ensures within { IfOk result (λ n. n ≤ length buf.new) }
        ensures answer { ReadsFile (told_file (files self.old) name.now) from buf.new result }
        ensures files { files self.new ≡ files self.old }
        ensures causes { StoreCauses result (faults self.old) (faults self.new) };
}

/// Why a whole read gave no bytes.
#[derive(Clone, Copy, Debug, PartialEq, Eq)]
pub enum ReadEnd {
    /// There is no file of this name.
    Absent,
    /// The store failed, and its count of faults rose.
    Fault,
    /// The file has more bytes than the limit.
    TooLong,
    /// Memory ran out, and nothing else failed.
    Memory,
}

/// Why a file can't be read although nothing failed.
#[derive(Clone, Copy, Debug, PartialEq, Eq)]
pub enum Missing {
    /// There is no file of this name.
    Absent,
    /// The file has more bytes than the limit.
    TooLong,
}

impl ReadEnd {
    /// Separates a file that can't be read from an end of the call: `let missing = end.missing()?;`.
    pub fn missing(self) -> Result<Missing, End>
        ensures { result ≡ missing_of self }
    {
        match self {
            ReadEnd::Absent => Ok(Missing::Absent),
            ReadEnd::Fault => Err(End::ReadFault),
            ReadEnd::TooLong => Ok(Missing::TooLong),
            ReadEnd::Memory => Err(End::Memory),
        }
    }
}

impl From<AllocError> for ReadEnd {
    ghost use Rattle.ent_io.specs.declared.reading.ReadEnd.TheVariants.{Memory};

    ghost from_gives = { λ _ end. end ≡ Memory };

    fn from(_: AllocError) -> Self {
        ReadEnd::Memory
    }
}

/// Reads a file of at most `limit` bytes. In addition to the chunk that is being read it never keeps more than `limit`
/// bytes.
///
/// `Fault` is returned only if the store's count of faults rose in this call. If contracts see the files, `Absent` is
/// returned if and only if there is no such file, and `TooLong` if and only if the file has more than `limit` bytes,
/// unless the result is `Fault` or `Memory`.
pub fn read_whole<S: Store>(
    alloc: Global,
    store: &mut S,
    name: &str,
    limit: usize,
) -> Result<Vec<u8>, ReadEnd>
    ensures answer { ReadsWhole (told_file (S.files store.old) name.now) limit result }
    ensures files { S.files store.new ≡ S.files store.old }
    ensures causes { ReadCauses result (S.faults store.old) (S.faults store.new) }
{
    let mut chunk = vec![in alloc; 0u8; limit.min(CHUNK - 1) + 1]?;
    let mut bytes = Vec::new(alloc);
    while read_more(store, name, limit, &mut chunk, &mut bytes)? {}
    Ok(bytes)
}

/// Appends the next bytes of the file, as many as one call gives, and returns whether there were any. It asks for one
/// byte more than there is room for, which shows that the file is too long.
fn read_more<S: Store>(
    store: &mut S,
    name: &str,
    limit: usize,
    chunk: &mut [u8],
    bytes: &mut Vec<u8>,
) -> Result<bool, ReadEnd>
    requires space { 0 < length chunk.old }
    requires within { length bytes.old.items ≤ limit }
    requires front { IsFrontOf (told_file (S.files store.old) name.now) bytes.old.items }
    ensures answer { ReadsMore (told_file (S.files store.old) name.now) limit bytes.old.items bytes.new.items result }
    ensures files { S.files store.new ≡ S.files store.old }
    ensures causes { ReadCauses result (S.faults store.old) (S.faults store.new) }
{
    let room = limit - bytes.len();
    let asked = chunk.len().min(room.saturating_add(1));
    let part = &mut chunk[..asked];
    let taken = match store.read(name, bytes.len() as u64, part) {
        Ok(taken) => taken,
        Err(StoreFault::Absent) => return Err(ReadEnd::Absent),
        Err(StoreFault::Failed) => return Err(ReadEnd::Fault),
        Err(StoreFault::Memory) => return Err(ReadEnd::Memory),
    };
    if taken == 0 {
        return Ok(false);
    }
    if taken > room {
        return Err(ReadEnd::TooLong);
    }
    bytes.extend_from_slice(&part[..taken])?;
    Ok(true)
}
