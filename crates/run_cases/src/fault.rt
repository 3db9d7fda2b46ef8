//! Why the cases can't be done.
use std::alloc::{AllocError, AllocFailed};
use std::io;

/// Why a line of the table isn't done.
#[derive(Clone, Copy, Debug, PartialEq, Eq)]
pub enum Fault {
    /// A line of no known sort, or one that has no number or no digits where it should have some.
    Line,
    /// A line that belongs to a file, where there is none.
    NoFile,
    /// A text that isn't UTF-8.
    Text,
    /// The output takes no more.
    Print,
    /// Memory ran out.
    Memory,
}

impl From<io::Error> for Fault {
    fn from(_: io::Error) -> Fault {
        Fault::Print
    }
}

impl From<AllocError> for Fault {
    fn from(_: AllocError) -> Fault {
        Fault::Memory
    }
}

impl<T: Drop> From<AllocFailed<T>> for Fault {
    fn from(_: AllocFailed<T>) -> Fault {
        Fault::Memory
    }
}
