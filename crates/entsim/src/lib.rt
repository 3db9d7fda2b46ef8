//! `entsim` as one call: it does the command that the words name. `entsim_commands` has each command as a call.
#![tactic(auto)]

mod top;

pub use entsim_commands::{Command, check_call, layout_call, read_words, run_call};
pub use top::entsim;
