//! Masks of places.
use enable_bits::Mask;

/// Returns the places 0, 2 and 127.
fn sample() -> Mask {
    let mut mask = Mask::first(3);
    mask.set(127, true);
    mask.set(1, false);
    mask
}

/// Returns the same after place 1 got the bit of 127.
fn moved() -> Mask {
    let mut mask = sample();
    mask.swap_back(1, 128);
    mask
}

fn has_next(mask: &Mask, place: u32, wanted: Option<u32>) -> bool {
    mask.next_from(place) == wanted
}

fn has_count(mask: &Mask, wanted: u32) -> bool {
    mask.count() == wanted
}

fn is_walked(mask: &Mask) -> bool {
    has_next(mask, 0, Some(0))
        & has_next(mask, 1, Some(2))
        & has_next(mask, 3, Some(127))
        & has_next(mask, 128, None)
}

#[test]
fn a_mask_has_the_places_that_were_set(rt: HostRuntime) {
    assert!(rt; has_count(&sample(), 3));
    assert!(rt; is_walked(&sample()));
    assert!(rt; has_next(&Mask::empty(), 0, None));
}

fn is_moved(mask: &Mask) -> bool {
    mask.get(1) & !mask.get(127) & has_count(mask, 3)
}

#[test]
fn the_last_place_moves_into_a_gap(rt: HostRuntime) {
    assert!(rt; is_moved(&moved()));
}

/// `true` if the mask with the places 0, 1 and 2 has two places below 2 and one at 2.
fn is_cut(mask: &Mask, first: &Mask) -> bool {
    has_count(&mask.and(first), 2) & has_next(&mask.and_not(first), 0, Some(2))
}

#[test]
fn masks_are_joined_place_by_place(rt: HostRuntime) {
    assert!(rt; is_cut(&moved(), &Mask::first(2)));
    assert!(rt; has_count(&Mask::first(128), 128));
}
