//! Why an operation changed nothing.
use buffer_store::PushFault;
use chunk_block::BlockFault;
use ent_types::{Memory, Skip};
use entity_table::TableFault;

/// Why an operation changed nothing.
#[derive(Clone, Copy, Debug, PartialEq, Eq)]
pub enum OpFault {
    /// The operation was skipped.
    Skip(Skip),
    /// Memory ran out.
    Memory,
}

impl From<Memory> for OpFault {
    ghost use Rattle.std.specs.Prelude.{◌≡◌};
    ghost use Rattle.structural_ops.specs.declared.fault.OpFault.TheVariants as fault;

    ghost from_gives = { λ _ f. f ≡ fault.Memory };

    fn from(_: Memory) -> OpFault {
        OpFault::Memory
    }
}

/// A row that is too large for a block is skipped.
impl From<BlockFault> for OpFault {
    ghost use Rattle.std.specs.Prelude.{◌≡◌};
    ghost use Rattle.structural_ops.specs.Faults.{of_block};

    ghost from_gives = { λ cause f. f ≡ of_block cause };

    fn from(cause: BlockFault) -> OpFault {
        match cause {
            BlockFault::TooLarge => OpFault::Skip(Skip::TooLarge),
            BlockFault::Memory => OpFault::Memory,
        }
    }
}

/// An entity for which there is no room is skipped.
impl From<TableFault> for OpFault {
    ghost use Rattle.std.specs.Prelude.{◌≡◌};
    ghost use Rattle.structural_ops.specs.Faults.{of_table};

    ghost from_gives = { λ cause f. f ≡ of_table cause };

    fn from(cause: TableFault) -> OpFault {
        match cause {
            TableFault::Full => OpFault::Skip(Skip::Full),
            TableFault::Memory => OpFault::Memory,
        }
    }
}

/// An element past the most that a buffer has is skipped.
impl From<PushFault> for OpFault {
    ghost use Rattle.std.specs.Prelude.{◌≡◌};
    ghost use Rattle.structural_ops.specs.Faults.{of_push};

    ghost from_gives = { λ cause f. f ≡ of_push cause };

    fn from(cause: PushFault) -> OpFault {
        match cause {
            PushFault::TooLong => OpFault::Skip(Skip::TooLong),
            PushFault::Memory => OpFault::Memory,
        }
    }
}
