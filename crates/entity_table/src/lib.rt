//! The entity table: which entities are alive and where their rows are, and which entities come next.
#![tactic(auto)]

pub use living::Living;
pub use table::{EntityTable, Place, TableFault};

mod living;
mod table;
