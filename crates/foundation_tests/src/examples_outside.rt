//! Examples of files and texts that are proved from the contracts alone, so that no body that differs here can meet its
//! contract.
ghost use Rattle.std.specs.Prelude.{◌≡◌, ◌+◌, ◌^◌, ◌<◌, [], Err, OnOk};
ghost use Rattle.ent_io.specs.declared.reading.StoreFault.TheVariants.{Failed};

use ent_io::{MemoryStore, SinkEnd, StdSink, Store, StoreFault};
use std::io::Write;

/// A call that fails is counted.
pub fn counts_its_failure(store: &mut MemoryStore) -> Result<usize, StoreFault>
    ensures { result ≡ Err Failed → store.old.calls.faults + 1 < 2 ^ 64 → store.old.calls.faults < store.new.calls.faults }
{
    store.read("three", 0, &mut [0])
}

/// A sink that was finished has nothing left to hand on.
pub fn hands_all_on<W: Write + Drop>(sink: &mut StdSink<W>) -> Result<(), SinkEnd>
    ensures { OnOk result (sink.new.gathered ≡ []) }
{
    sink.finish()
}
