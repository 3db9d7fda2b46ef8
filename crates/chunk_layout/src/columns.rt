//! The places of a block's columns.
ghost use Rattle.std.specs.Prelude.{◌≡◌, ℕ, ◌+◌, ◌*◌, ◌≤◌, ◌<◌, ◌↔◌, length, All, IsNone, IfSome};
ghost use Rattle.chunk_layout.specs.Capacity.{up64, capacity_of};
ghost use Rattle.chunk_layout.specs.Places.{Layout, places_from, places_of, layout_of};

use crate::rows::{MAX_ROWS, MAX_SIZE, capacity, column_bytes, up64};
use arrayvec::ArrayVec;
use std::marker::Model;

/// The byte at which a block's column of entity ids begins.
pub const ID_PLACE: u32 = 64;

/// The greatest number of columns of a block in addition to the id column: one for each type.
pub const MAX_COLUMNS: usize = 256;

/// How many rows a block holds, and at which byte of the block each column begins. Contracts see the capacity and the
/// list of the places.
#[derive(Drop)]
pub struct ColumnPlaces {
    capacity: u32,
    places: ArrayVec<u32, MAX_COLUMNS>,
}

impl Model for ColumnPlaces {
    ghost use Rattle.std.specs.Prelude.{◌<◌, ◌≤◌};
    ghost use Rattle.chunk_layout.specs.declared.rows.TheConstants.{MAX_ROWS};
    ghost use Rattle.chunk_layout.specs.Places.{Layout};

    ghost Value = { Layout };

    ghost view = { λ c. record { capacity = c.capacity; places = c.places.items } };

    ghost invariant = { λ c. (0 < c.capacity) × (c.capacity ≤ MAX_ROWS) };
}

impl ColumnPlaces {
    /// Returns how many rows a block holds: from 1 to `MAX_ROWS`.
    pub fn capacity(&self) -> u32
        ensures value { result ≡ self.now.capacity }
        ensures at_least_one { 0 < result }
        ensures at_most { result ≤ MAX_ROWS }
    {
        self.capacity
    }

    /// Returns the byte at which each column begins, in the order of the sizes. A column of size 0 has a place and no
    /// bytes.
    pub fn places(&self) -> &[u32]
        ensures { result.now ≡ self.now.places }
    {
        self.places.as_slice()
    }
}

/// Returns the layout of a block whose types have columns of these sizes in bytes, in this order; `None` if not even
/// one row fits. It takes no memory.
///
/// ```text
/// layout(&[8, 4])  // 128 rows: ids at 64, the columns at 1088 and 2112
/// ```
pub fn layout(sizes: &[u32]) -> Option<ColumnPlaces>
    requires few { length sizes.now ≤ MAX_COLUMNS }
    requires small { All (λ size. size ≤ MAX_SIZE) sizes.now }
    ensures too_large { IsNone result ↔ (capacity_of sizes.now ≡ 0) }
    ensures places { IfSome result (λ found. found ≡ layout_of sizes.now) }
{
    let rows = capacity(sizes);
    if rows == 0 {
        return None;
    }
    Some(ColumnPlaces {
        capacity: rows,
        places: column_places(sizes, rows),
    })
}

/// The places of the columns of these sizes for a number of rows: the first after the id column, each other one at the
/// end of the one before.
fn column_places(sizes: &[u32], rows: u32) -> ArrayVec<u32, MAX_COLUMNS>
    requires few { length sizes.now ≤ MAX_COLUMNS }
    requires small { All (λ size. size ≤ MAX_SIZE) sizes.now }
    requires within { rows ≤ MAX_ROWS }
    ensures { result.items ≡ places_of rows sizes.now }
{
    let mut places = ArrayVec::new();
    let mut end = ID_PLACE + up64(8 * rows);
    for size in sizes {
        places.push(end);
        end += column_bytes(*size, rows);
    }
    places
}
