//! Want of memory, the one answer that no contract ties to the input.
use std::alloc::{AllocError, AllocFailed};
use thiserror::Error;

/// Memory ran out. Whatever was changed by the call is as it was before, unless the call says otherwise.
///
/// This project's own: every call that allocates has this answer, and it is merged with no other.
#[derive(Clone, Copy, Debug, PartialEq, Eq, Error)]
#[error("out of memory")]
pub struct Memory;

impl From<AllocError> for Memory {
    fn from(_: AllocError) -> Memory {
        Memory
    }
}

impl<T: Drop> From<AllocFailed<T>> for Memory {
    fn from(_: AllocFailed<T>) -> Memory {
        Memory
    }
}
