//! Reads the tables of a scenario, or returns their first fault.
#![tactic(auto)]

mod commands;
mod events;
mod form;
mod groups;
mod keys;
mod queries;
mod spawns;
mod stages;
mod systems;
mod texts;
mod top;
mod type_lists;
mod types;

pub use top::read_table;
