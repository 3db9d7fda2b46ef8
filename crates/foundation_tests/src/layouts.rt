//! Capacities and places of columns, computed by hand from the capacity rule.
ghost use Rattle.std.specs.Prelude.{◌≤◌, length, All};

use chunk_layout::{MAX_COLUMNS, MAX_SIZE, capacity, layout};

fn holds(sizes: &[u32], rows: u32) -> bool
    requires { All (λ size. size ≤ MAX_SIZE) sizes.now }
{
    capacity(sizes) == rows
}

#[test]
fn a_block_holds_the_most_rows_that_fit(rt: HostRuntime) {
    assert!(rt; holds(&[], 128));
    assert!(rt; holds(&[8, 4], 128));
    assert!(rt; holds(&[512], 31));
    assert!(rt; holds(&[0; 300], 128));
}

#[test]
fn a_block_may_hold_one_row_or_none(rt: HostRuntime) {
    assert!(rt; holds(&[512; 31], 1));
    assert!(rt; holds(&[512; 32], 0));
}

fn is_laid_out(sizes: &[u32], rows: u32, places: &[u32]) -> bool
    requires few { length sizes.now ≤ MAX_COLUMNS }
    requires small { All (λ size. size ≤ MAX_SIZE) sizes.now }
{
    match layout(sizes) {
        Some(found) => (found.capacity() == rows) & (found.places() == places),
        None => false,
    }
}

#[test]
fn columns_follow_each_other(rt: HostRuntime) {
    assert!(rt; is_laid_out(&[], 128, &[]));
    assert!(rt; is_laid_out(&[512], 31, &[320]));
    assert!(rt; is_laid_out(&[8, 4], 128, &[1088, 2112]));
    assert!(rt; is_laid_out(&[0, 8], 128, &[1088, 1088]));
}

#[test]
fn columns_begin_at_multiples_of_64(rt: HostRuntime) {
    assert!(rt; is_laid_out(&[8, 0, 512], 30, &[320, 576, 576]));
    assert!(rt; is_laid_out(&[119], 128, &[1088]));
    assert!(rt; is_laid_out(&[120], 127, &[1088]));
}

#[test]
fn types_without_room_have_no_layout(rt: HostRuntime) {
    assert!(rt; layout(&[512; 31]).is_some());
    assert!(rt; layout(&[512; 32]).is_none());
}
