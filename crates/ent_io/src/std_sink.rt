//! Standard output. No clause says what a terminal shows: this is a trusted edge, a few lines long.
ghost use Rattle.std.specs.Prelude.{◌≡◌, [], None, IfOk, IfErr, OnOk};
ghost use Rattle.ent_io.specs.Count.{Rises};
ghost use Rattle.ent_io.specs.Sink.{SinkCauses};

use crate::{Sink, SinkEnd};
use std::alloc::Global;
use std::io::{BufWriter, Write};
use std::marker::Model;

/// The number of bytes that are gathered before they are handed to the system.
const BUFFER: usize = 65536;

/// A writer as standard output, `StdSink::new(alloc, io::writer(&rt))`, through a buffer of 64 KiB. Contracts don't see
/// its text. Call `finish` at the end: writing the rest of the buffer can fail too.
#[derive(Drop)]
pub struct StdSink<W: Write + Drop> {
    out: BufWriter<W>,
    faults: u64,
}

// Contracts see its count of faults, and the bytes that it has gathered and not yet handed on.
impl<W: Write + Drop> Model for StdSink<W> {
    ghost use Rattle.std.specs.Io.Buffered.{writer_buffer};
    ghost use Rattle.ent_io.specs.Sink.{Gathers};

    ghost Value = { Gathers };

    ghost view = { λ s. record { faults = s.faults; gathered = writer_buffer s.out } };
}

impl<W: Write + Drop> StdSink<W> {
    /// Makes a sink. The only error is `Memory`.
    pub fn new(alloc: Global, out: W) -> Result<Self, SinkEnd>
        ensures made { IfOk result (λ sink. sink ≡ record { faults = 0; gathered = [] }) }
        ensures memory { IfErr result (λ cause. cause ≡ SinkEnd.Memory) }
    {
        match BufWriter::with_capacity(alloc, BUFFER, out) {
            Ok(out) => Ok(StdSink { out, faults: 0 }),
            Err(_) => Err(SinkEnd::Memory),
        }
    }

    /// Writes the rest of the buffer. The only error is `Failed`.
    pub fn finish(&mut self) -> Result<(), SinkEnd>
        ensures causes { SinkCauses result self.old.faults self.new.faults }
        ensures handed_on { OnOk result (self.new.gathered ≡ []) }
        ensures failed { IfErr result (λ cause. cause ≡ SinkEnd.Failed) }
    {
        match self.out.flush() {
            Ok(()) => Ok(()),
            Err(_) => Err(self.fail()),
        }
    }

    /// Counts a failure.
    fn fail(&mut self) -> SinkEnd
        ensures cause { result ≡ SinkEnd.Failed }
        ensures faults { Rises self.old.faults self.new.faults }
    {
        self.faults = self.faults.saturating_add(1);
        SinkEnd::Failed
    }
}

impl<W: Write + Drop> Sink for StdSink<W> {
    ghost text = { λ _. None };

    ghost faults = { λ s. s.faults };

    fn write(&mut self, piece: &[u8]) -> Result<usize, SinkEnd> {
        match self.out.write(piece) {
            Ok(0) if !piece.is_empty() => Err(self.fail()),
            Ok(taken) => Ok(taken),
            Err(_) => Err(self.fail()),
        }
    }
}
