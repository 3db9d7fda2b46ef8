//! The faults of a scenario that was read: each check of names, groups, rows, look-ups and events, and the types that a
//! system touches. `scenario_check` runs the checks in order.
#![tactic(auto)]

pub mod access;
mod each;
pub mod events;
pub mod names;
pub mod siblings;
pub mod spawns;
pub mod uses;

pub use each::at_element;
