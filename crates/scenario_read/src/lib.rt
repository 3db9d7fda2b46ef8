//! Reads a scenario from the bytes of a file, or returns its first fault.
#![tactic(auto)]

mod reader;

pub use reader::read_scenario;
