//! Commands made of command texts: on a row each text becomes a command whose values are known.
//!
//! A text names the entity that an earlier command makes by that command's number. The command has a placeholder for it, of the row
//! for which it is recorded. All other values are evaluated at once, and kept as the fields of their types keep them.
#![tactic(auto)]

mod commands;
mod laws;

pub use commands::command_of;
pub use laws::{
    commands_of_events_play_as_defined, commands_of_events_suit, commands_of_texts_suit,
};
