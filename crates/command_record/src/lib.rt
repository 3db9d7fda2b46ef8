//! Structural changes that systems record for later: commands, and chains of them.
//!
//! A command acts on an entity, or on the entity that an earlier command of the same item makes. Names and meanings are those of
//! Unity's entity command buffers. Keys, numbers and placeholders are entsim's own.
#![tactic(auto)]

mod chain;
mod command;
mod kept;
mod lists;
mod turn;

pub use chain::{Chain, Entry, MOST_ENTRIES};
pub use command::{CmdPart, CmdValue, Command, Target};
pub use lists::{CmdParts, CmdValues};
pub use turn::Turn;
