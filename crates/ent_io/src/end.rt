//! How a call ends: for the user, and below the top call.
ghost use Rattle.std.specs.Prelude.{◌≡◌};
ghost use Rattle.ent_io.specs.End.{end_of, text_end_of, status_of};

use crate::{SinkEnd, WriteEnd};
use std::alloc::{AllocError, AllocFailed};

/// How a whole call ends.
#[derive(Clone, Copy, Debug, PartialEq, Eq)]
pub enum Status {
    /// The text was written to its end.
    Done,
    /// The arguments aren't a command.
    BadWords,
    /// The input was refused, and the text says why.
    Refused,
    /// One sort key comes from two items in a buffer that was to be played, and the text names it.
    KeyShared,
    /// The store failed.
    ReadFault,
    /// The sink failed.
    WriteFault,
    /// Memory ran out.
    Memory,
}

/// Why a call that reads and writes stopped before its end. A prefix of its text was written.
#[derive(Clone, Copy, Debug, PartialEq, Eq)]
pub enum End {
    /// The store failed, and its count of faults rose.
    ReadFault,
    /// The sink failed, and its count of faults rose.
    WriteFault,
    /// Memory ran out, and nothing else failed.
    Memory,
}

/// Why a call that writes lines stopped before its end. A prefix of the lines was written.
#[derive(Clone, Copy, Debug, PartialEq, Eq)]
pub enum TextEnd {
    /// The sink failed, and its count of faults rose.
    WriteFault,
    /// Memory ran out, and nothing else failed.
    Memory,
}

impl From<SinkEnd> for TextEnd {
    ghost from_gives = { λ cause end. end ≡ text_end_of cause };

    fn from(cause: SinkEnd) -> Self {
        match cause {
            SinkEnd::Failed => TextEnd::WriteFault,
            SinkEnd::Memory => TextEnd::Memory,
        }
    }
}

impl From<WriteEnd> for TextEnd {
    ghost from_gives = { λ stop end. end ≡ text_end_of stop.cause };

    fn from(stop: WriteEnd) -> Self {
        TextEnd::from(stop.cause)
    }
}

impl From<AllocError> for TextEnd {
    ghost use Rattle.ent_io.specs.declared.end.TextEnd.TheVariants.{Memory};

    ghost from_gives = { λ _ end. end ≡ Memory };

    fn from(_: AllocError) -> Self {
        TextEnd::Memory
    }
}

impl<T: Drop> From<AllocFailed<T>> for TextEnd {
    ghost use Rattle.ent_io.specs.declared.end.TextEnd.TheVariants.{Memory};

    ghost from_gives = { λ _ end. end ≡ Memory };

    fn from(_: AllocFailed<T>) -> Self {
        TextEnd::Memory
    }
}

impl From<TextEnd> for End {
    ghost from_gives = { λ text end. end ≡ end_of text };

    fn from(text: TextEnd) -> Self {
        match text {
            TextEnd::WriteFault => End::WriteFault,
            TextEnd::Memory => End::Memory,
        }
    }
}

impl From<SinkEnd> for End {
    ghost from_gives = { λ cause end. end ≡ end_of (text_end_of cause) };

    fn from(cause: SinkEnd) -> Self {
        match cause {
            SinkEnd::Failed => End::WriteFault,
            SinkEnd::Memory => End::Memory,
        }
    }
}

impl From<WriteEnd> for End {
    ghost from_gives = { λ stop end. end ≡ end_of (text_end_of stop.cause) };

    fn from(stop: WriteEnd) -> Self {
        End::from(stop.cause)
    }
}

impl From<AllocError> for End {
    ghost use Rattle.ent_io.specs.declared.end.End.TheVariants.{Memory};

    ghost from_gives = { λ _ end. end ≡ Memory };

    fn from(_: AllocError) -> Self {
        End::Memory
    }
}

impl<T: Drop> From<AllocFailed<T>> for End {
    ghost use Rattle.ent_io.specs.declared.end.End.TheVariants.{Memory};

    ghost from_gives = { λ _ end. end ≡ Memory };

    fn from(_: AllocFailed<T>) -> Self {
        End::Memory
    }
}

impl From<End> for Status {
    ghost from_gives = { λ end status. status ≡ status_of end };

    fn from(end: End) -> Self {
        match end {
            End::ReadFault => Status::ReadFault,
            End::WriteFault => Status::WriteFault,
            End::Memory => Status::Memory,
        }
    }
}
