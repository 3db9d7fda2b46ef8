//! The run of a scenario, from its spawns to the text that is written: frame after frame, and in each the steps of the plan.
//!
//! So far a run plays no command buffer and moves in no scene. A scenario in which a system records commands, or an event loads or
//! unloads a scene, can't be run.
#![tactic(auto)]

mod ends;
mod events;
mod frames;
mod runner;
mod serial;
mod steps;

pub use serial::run_frames_serial;
