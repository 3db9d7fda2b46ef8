//! The capacity rule: the greatest number of rows whose columns fit into a block.
ghost use Rattle.std.specs.Prelude.{◌≡◌, ℕ, ◌*◌, ◌≤◌, ◌^◌, nat_le, All};
ghost use Rattle.chunk_layout.specs.Capacity.{up64, column_bytes, block_bytes, capacity_of, IsCapacity};

/// The greatest number of rows of a block (Unity's number).
pub const MAX_ROWS: u32 = 128;

/// The greatest number of bytes that a row takes in one column.
pub const MAX_SIZE: u32 = 512;

/// The bytes of a block without its header of 64 bytes.
pub const COLUMN_ROOM: u32 = 16_320;

/// A number of bytes, rounded up to a multiple of 64.
pub fn up64(bytes: u32) -> u32
    requires { bytes ≤ 2 ^ 20 }
    ensures value { result ≡ up64 bytes }
    ensures at_least { bytes ≤ result }
    ensures least { (q : ℕ) → bytes ≤ q * 64 → result ≤ q * 64 }
{
    bytes.next_multiple_of(64)
}

/// The bytes of one column for a number of rows.
pub fn column_bytes(size: u32, rows: u32) -> u32
    requires small { size ≤ MAX_SIZE }
    requires within { rows ≤ MAX_ROWS }
    ensures value { result ≡ column_bytes rows size }
    ensures bound { result ≤ 65536 }
{
    up64(size * rows)
}

/// `true` if the id column and the columns of these sizes fit into a block, for a number of rows.
fn fit(sizes: &[u32], rows: u32) -> bool
    requires small { All (λ size. size ≤ MAX_SIZE) sizes.now }
    requires within { rows ≤ MAX_ROWS }
    ensures { result ≡ nat_le (block_bytes sizes.now rows) COLUMN_ROOM }
{
    let mut bytes = up64(8 * rows);
    for size in sizes {
        bytes += column_bytes(*size, rows);
        if bytes > COLUMN_ROOM {
            return false;
        }
    }
    true
}

/// Returns the greatest number of rows, up to `MAX_ROWS`, for which the columns of these sizes fit into a block; 0 if
/// not even one row fits. The sizes are the bytes that a row takes in each column. It takes no memory.
///
/// ```text
/// capacity(&[8, 4])  // 128
/// capacity(&[512])   // 31
/// ```
pub fn capacity(sizes: &[u32]) -> u32
    requires { All (λ size. size ≤ MAX_SIZE) sizes.now }
    ensures value { result ≡ capacity_of sizes.now }
    ensures meaning { IsCapacity sizes.now result }
{
    // Fewer rows never take more bytes, so the search may halve what is left.
    let mut fitting = 0;
    let mut limit = MAX_ROWS;
    while fitting < limit {
        let middle = limit - (limit - fitting) / 2;
        if fit(sizes, middle) {
            fitting = middle;
        } else {
            limit = middle - 1;
        }
    }
    fitting
}
