//! How many rows a block of an archetype holds, and where its columns begin.
//!
//! A block has 16,384 bytes: a header of 64 bytes, the column of entity ids with 8 bytes a row, and
//! one column for each type that has one. Each column starts at a multiple of 64. The 16 KiB and the
//! 128 rows are Unity's; the header and the rounding are this project's own.
#![tactic(auto)]

pub use columns::{ColumnPlaces, ID_PLACE, MAX_COLUMNS, layout};
pub use rows::{COLUMN_ROOM, MAX_ROWS, MAX_SIZE, capacity};

mod columns;
mod rows;
