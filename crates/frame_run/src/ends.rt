//! Why a run stopped before its end.
ghost use Rattle.std.specs.Prelude.{◌≡◌};

use ent_io::TextEnd;
use ent_types::Memory;

/// Why a run stopped before its end. A prefix of its text was written.
#[derive(Clone, Copy, Debug)]
pub(crate) struct RunEnd {
    /// The cause.
    pub(crate) cause: TextEnd,
}

impl From<TextEnd> for RunEnd {
    ghost from_gives = { λ text end. end.cause ≡ text };

    fn from(cause: TextEnd) -> Self {
        RunEnd { cause }
    }
}

impl From<Memory> for RunEnd {
    ghost use Rattle.ent_io.specs.declared.end.TextEnd.TheVariants.{Memory as TextMemory};

    ghost from_gives = { λ _ end. end.cause ≡ TextMemory };

    fn from(_: Memory) -> Self {
        RunEnd {
            cause: TextEnd::Memory,
        }
    }
}
