//! Sinks, which take bytes, and writing a whole piece.
ghost use Rattle.std.specs.Prelude.{◌≡◌, Option, List, ℕ, IfErr};
ghost use Rattle.ent_io.specs.Sink.{Takes, SinkCauses, StopsAt, WriteCauses};
ghost use Rattle.ent_io.specs.Text.{Writes};

/// Why a call of a sink took nothing.
#[derive(Clone, Copy, Debug, PartialEq, Eq)]
pub enum SinkEnd {
    /// The sink failed, and its count of faults rose.
    Failed,
    /// Memory ran out, and nothing else failed.
    Memory,
}

/// Takes bytes in order. Its meaning is an optional text, which is all that it has taken, and a count of faults, which
/// never falls.
pub trait Sink {
    /// The text, if contracts see it.
    ghost text: { Self → Option (List ℕ) };

    /// How often the sink has failed. The count stays at 2 ^ 64 - 1 once it is there.
    ghost faults: { Self → ℕ };

    /// Appends a front of the piece and returns its number of bytes: at least one if the piece has any. An error leaves
    /// the text.
    fn write(&mut self, piece: &[u8]) -> Result<usize, SinkEnd>
        ensures answer { Takes result piece.now (text self.old) (text self.new) }
        ensures causes { SinkCauses result (faults self.old) (faults self.new) };
}

/// Where a whole write stopped, and the cause.
#[derive(Clone, Copy, Debug, PartialEq, Eq)]
pub struct WriteEnd {
    /// How many bytes of the piece were appended.
    pub written: usize,
    /// Why the sink took no more.
    pub cause: SinkEnd,
}

/// Appends the piece. After an error its first `written` bytes were appended, which isn't all of it. The cause is
/// `Failed` only if the sink's count of faults rose in this call. It takes no memory by itself.
pub fn write_whole<W: Sink>(out: &mut W, piece: &[u8]) -> Result<(), WriteEnd>
    ensures text { Writes result piece.now (W.text out.old) (W.text out.new) }
    ensures stops { IfErr result (λ end. StopsAt end piece.now (W.text out.old) (W.text out.new)) }
    ensures causes { WriteCauses result (W.faults out.old) (W.faults out.new) }
{
    let mut written = 0;
    while written < piece.len() {
        match out.write(&piece[written..]) {
            Ok(taken) => written += taken,
            Err(cause) => return Err(WriteEnd { written, cause }),
        }
    }
    Ok(())
}
