//! Why the example stops.
use ent_types::{Memory, Skip};
use std::io;
use structural_ops::OpFault;

/// Why the example stops.
#[derive(Clone, Copy, Debug, PartialEq, Eq)]
pub enum Fault {
    /// An operation is skipped.
    Skipped(Skip),
    /// A type, a part or a scene isn't taken.
    Unfit,
    /// The output takes no more.
    Print,
    /// Memory ran out.
    Memory,
}

impl From<OpFault> for Fault {
    fn from(fault: OpFault) -> Fault {
        match fault {
            OpFault::Skip(skip) => Fault::Skipped(skip),
            OpFault::Memory => Fault::Memory,
        }
    }
}

impl From<Skip> for Fault {
    fn from(skip: Skip) -> Fault {
        Fault::Skipped(skip)
    }
}

impl From<Memory> for Fault {
    fn from(_: Memory) -> Fault {
        Fault::Memory
    }
}

impl From<io::Error> for Fault {
    fn from(_: io::Error) -> Fault {
        Fault::Print
    }
}
