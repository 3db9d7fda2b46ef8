//! Sets of rows of one block: the rows that have a type enabled, or the rows that a query visits.
#![tactic(auto)]

pub use mask::Mask;

mod mask;
