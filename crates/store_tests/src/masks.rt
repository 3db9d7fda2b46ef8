//! Sets of rows.
use enable_bits::Mask;

/// Proved from the contracts alone.
#[test]
fn no_row_is_in_the_empty_mask() {
    let mask = Mask::empty();
    let is_empty = mask.count() == 0 && mask.next_from(0).is_none() && !mask.get(5);
    prove!(is_empty);
}
