//! The value of an expression: signed numbers of 64 bits that wrap.
#![tactic(auto)]

mod evaluation;
mod operators;
mod readers;

pub use evaluation::{eval, eval_ref, number};
pub use operators::{binary, is_true, unary};
pub use readers::{Lookup, RowReader};
