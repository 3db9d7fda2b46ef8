//! What a call on elements may refuse.
use std::alloc::AllocError;
use thiserror::Error;

/// Memory ran out. The elements are as they were before the call.
#[derive(Clone, Copy, Debug, PartialEq, Eq, Error)]
#[error("out of memory")]
pub struct Memory;

impl From<AllocError> for Memory {
    fn from(_: AllocError) -> Memory {
        Memory
    }
}

/// Why an element was not added.
#[derive(Clone, Copy, Debug, PartialEq, Eq, Error)]
pub enum PushFault {
    /// The list has 4,096 elements.
    #[error("a buffer has at most 4096 elements")]
    TooLong,
    /// Memory ran out.
    #[error("out of memory")]
    Memory,
}

impl From<AllocError> for PushFault {
    ghost use Rattle.std.specs.Prelude.{◌≡◌};
    ghost use Rattle.buffer_store.specs.declared.fault.PushFault.TheVariants as fault;

    ghost from_gives = { λ _ f. f ≡ fault.Memory };

    fn from(_: AllocError) -> PushFault {
        PushFault::Memory
    }
}
