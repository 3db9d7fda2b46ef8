//! The commands of `entsim` as calls: the command line, the line of each refusal, and what each command writes.
#![tactic(auto)]

mod calls;
mod check_line;
mod checked;
mod commands;
mod refusal;
mod stop;
mod words;

pub use calls::{check_call, layout_call, run_call};
pub use refusal::{refuse, refuse_words};
pub use stop::Refusal;
pub use words::{Command, read_words};
