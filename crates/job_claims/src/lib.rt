//! Claims: up to 64 threads draw the pieces of a table, each piece once, by one atomic step a draw.
//!
//! A table has one word, the claim word, and a slot for each piece. A draw adds 1 to the word, and the number that it
//! found is the number of the drawn piece. Each thread has a seat. The view of a seat exists only in proofs: the
//! pieces as they were opened, the numbers that the seat drew, and its share of the weight of 64 that the first seat
//! begins with. `specs/Rule.antt` has the rule that each step keeps.
#![tactic(auto)]

mod rule;
mod seat;
mod table;

pub use seat::{ClaimSeat, Drawn, View};
pub use table::ClaimTable;
