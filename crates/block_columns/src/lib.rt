//! What a block keeps of one type: a typed column for each field, or the buffers of a buffer type, and the enable bits
//! beside them. Contracts see the rows' cells.
//!
//! Columns are reserved for a block's capacity once, so that no later call takes memory.
#![tactic(auto)]

mod buffers;
mod cells;
mod column;
mod fields;
mod shape;
mod stores;
mod type_rows;

pub use column::ColumnSlice;
pub use shape::TypeShape;
pub use type_rows::TypeRows;
