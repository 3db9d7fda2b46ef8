//! Dynamic buffers: a list of elements for each row, which lies outside the blocks. In Unity a buffer keeps its first
//! elements in the chunk; that it never does is entsim's own rule.
#![tactic(auto)]

mod elements;
mod fault;

pub use elements::{Elements, MOST_ELEMENTS, MOST_WIDTH};
pub use fault::{Memory, PushFault};
