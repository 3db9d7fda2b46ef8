//! The value of an expression for all rows of a block at once, without memory. An operator is chosen once a block, so
//! that each loop over the rows does one thing.
#![tactic(auto)]

mod columns;
mod evaluation;
mod operators;
mod reader;

pub use evaluation::{evaluate, evaluate_mask, evaluate_refs};
pub use reader::{BlockRows, MOST_ROWS};
