//! The lines that a run writes: its notes, its traces, the world at its end, and the layout of its blocks.
//!
//! The lines are entsim's own. A number is decimal without leading zeros, and a line ends with one line feed. Each line is offered to
//! the sink as one piece.
#![tactic(auto)]

mod laws;
mod layout;
mod names;
mod notes;
mod pieces;
mod rows;
mod traces;
mod world;

pub use laws::lines_show_no_version;
pub use layout::write_layout;
pub use notes::write_note;
pub use traces::write_trace;
pub use world::write_world;
