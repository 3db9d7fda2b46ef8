//! What is wrong with a table of cases.

use ent_types::{Memory, RegistryFault};
use std::alloc::{AllocError, AllocFailed};

/// Why a line of the table isn't taken.
#[derive(Clone, Copy, Debug)]
pub enum LineFault {
    /// The line begins with no word of the table.
    UnknownLine,
    /// The line lacks a part, or has one too many.
    Parts,
    /// A word that isn't allowed there.
    UnknownWord,
    /// A name that isn't one, or that no type has.
    Name,
    /// A number that isn't one.
    Number,
    /// A text that isn't read, or whose tree isn't of the line's kind.
    Unread,
    /// A type that isn't well formed.
    Type,
    /// A type that the registry refuses.
    Registry(RegistryFault),
    /// Memory ran out.
    Memory,
}

impl From<Memory> for LineFault {
    fn from(_: Memory) -> LineFault {
        LineFault::Memory
    }
}

impl From<AllocError> for LineFault {
    fn from(_: AllocError) -> LineFault {
        LineFault::Memory
    }
}

impl<T: Drop> From<AllocFailed<T>> for LineFault {
    fn from(_: AllocFailed<T>) -> LineFault {
        LineFault::Memory
    }
}

impl From<RegistryFault> for LineFault {
    fn from(fault: RegistryFault) -> LineFault {
        LineFault::Registry(fault)
    }
}

/// The first line of a table that isn't taken, numbered from 1.
#[derive(Clone, Copy, Debug)]
pub struct TableFault {
    /// The line.
    pub line: usize,
    /// Why.
    pub fault: LineFault,
}
