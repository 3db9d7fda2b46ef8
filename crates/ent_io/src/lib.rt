//! The outside world: files that are read whole, and a text that is written in pieces, each end with its cause.
#![tactic(auto)]

mod end;
mod folder_store;
mod gate;
mod in_memory;
mod reading;
mod std_sink;
mod writing;

pub use end::{End, Status, TextEnd};
pub use folder_store::FolderStore;
pub use gate::{Gate, NoGate};
pub use in_memory::{MemorySink, MemoryStore};
pub use reading::{Missing, ReadEnd, Store, StoreFault, read_whole};
pub use std_sink::StdSink;
pub use writing::{Sink, SinkEnd, WriteEnd, write_whole};
