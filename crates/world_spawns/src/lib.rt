//! The world after the spawns of a scenario: the rows that are made before the first frame.
//!
//! The texts of a spawn see no row, and no entity is there to look up. Which numbers they see is entsim's own rule.
#![tactic(auto)]

mod no_row;
mod spawns;

pub use no_row::{NoOthers, NoRow};
pub use spawns::spawned;
