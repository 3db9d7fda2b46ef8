//! What a run of a scenario is, as definitions alone: which rows a system takes, what its job does to a row, what is
//! recorded and played, what the frames do in order, and what systems that run side by side make together. There is no
//! code here but the types of the lines that a run writes.
#![tactic(auto)]

mod lines;
mod scene_fault;

pub use lines::{NoteLine, TraceLine};
pub use scene_fault::{SceneCause, SceneFault};
