//! Rows that have the same types, in typed columns that can be lent. Contracts see the rows.
//!
//! A block's columns, bits and capacity always agree; that is the invariant of `Block`, and no call asks for it.
#![tactic(auto)]

mod block;
mod loan;
mod make;
mod marks;
mod piece;
mod slot;

pub use block::{Block, BlockFault};
pub use loan::Loan;
