//! Items: what a system does with the rows of one block. An item reads a frozen world, which all share, and writes into its own
//! loan.
//!
//! All rows of an item are done text by text: the values of a text are worked out for all rows, then stored in those that match. An
//! item's rows see only their own row and the frozen world, so that the order of items, and of rows, changes nothing.
#![tactic(auto)]

mod item;
mod laws;
mod rows;
mod texts;

pub use item::Item;
pub use laws::{items_do_what_runs_do, texts_are_done_row_by_row};
