//! The parser of the expression language, over any names: texts to trees, or their first fault.
//!
//! It does the steps of `expr_steps` over the tokens of a text, and returns the tree that they build.
#![tactic(auto)]

mod read;
mod readers;

pub use expr_steps::Names;
pub use readers::{read_assign_by, read_command_by, read_expr_by, read_ref_by, read_switch_by};
