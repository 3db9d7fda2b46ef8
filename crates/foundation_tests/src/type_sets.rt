//! Sets of types, with numbers at the borders of the words.
ghost use Rattle.std.specs.Prelude.{◌<◌};

use ent_types::{TypeId, TypeSet, Types};
use std::hash::{DefaultHasher, Hash, Hasher};

/// Numbers at the borders of the words, in rising order.
const NUMBERS: [u8; 12] = [0, 1, 62, 63, 64, 65, 127, 128, 191, 192, 254, 255];

fn ty(number: u8) -> TypeId
    ensures { result.0 < 256 }
{
    TypeId(u16::from(number))
}

fn set_of(numbers: &[u8]) -> TypeSet {
    let mut set = TypeSet::empty();
    for number in numbers {
        set = set.with(ty(*number));
    }
    set
}

fn has_next(set: TypeSet, from: u16, wanted: Option<u16>) -> bool {
    match set.next_from(from) {
        Some(found) => wanted == Some(found.0),
        None => wanted.is_none(),
    }
}

fn has_alone(set: TypeSet, number: u8) -> bool {
    for other in NUMBERS {
        if set.has(ty(other)) != (other == number) {
            return false;
        }
    }
    true
}

fn is_walked(set: TypeSet, number: u8) -> bool {
    let from = u16::from(number);
    has_next(set, 0, Some(from)) & has_next(set, from, Some(from)) & has_next(set, from + 1, None)
}

fn is_alone(number: u8) -> bool {
    let set = TypeSet::empty().with(ty(number));
    (set.len() == 1) & !set.is_empty() & has_alone(set, number) & is_walked(set, number)
}

fn goes_in_and_out(number: u8) -> bool {
    let set = TypeSet::empty().with(ty(number));
    (set.with(ty(number)) == set) & (set.without(ty(number)) == TypeSet::empty())
}

#[test]
fn a_set_of_one_type_has_that_type_alone(rt: HostRuntime) {
    for number in NUMBERS {
        assert!(rt; is_alone(number));
        assert!(rt; goes_in_and_out(number));
    }
}

fn gives(walk: &mut Types, wanted: Option<TypeId>) -> bool {
    walk.next() == wanted
}

fn rises() -> bool {
    let mut walk = set_of(&[255, 64, 0, 191, 127, 1, 254, 65, 192, 63, 128, 62]).iter();
    for number in NUMBERS {
        if !gives(&mut walk, Some(ty(number))) {
            return false;
        }
    }
    gives(&mut walk, None) & gives(&mut walk, None)
}

#[test]
fn the_types_come_in_rising_order(rt: HostRuntime) {
    assert!(rt; set_of(&NUMBERS).len() == 12);
    assert!(rt; rises());
    assert!(rt; gives(&mut TypeSet::empty().iter(), None));
}

#[test]
fn the_next_type_is_the_first_from_a_number_on(rt: HostRuntime) {
    for (from, next) in [
        (0, Some(0)),
        (2, Some(62)),
        (63, Some(63)),
        (64, Some(64)),
        (66, Some(127)),
        (129, Some(191)),
        (193, Some(254)),
        (255, Some(255)),
        (256, None),
        (320, None),
        (65535, None),
    ] {
        assert!(rt; has_next(set_of(&NUMBERS), from, next));
    }
}

/// Two sets, whether the first is a subset of the second, whether they meet, and whether they are equal.
const PAIRS: [(&[u8], &[u8], bool, bool, bool); 8] = [
    (&[], &[], true, false, true),
    (&[], &[3], true, false, false),
    (&[3], &[], false, false, false),
    (&[63], &[64], false, false, false),
    (&[63, 128], &[0, 63, 128], true, true, false),
    (&[63, 128], &[63, 129, 255], false, true, false),
    (&[0, 64, 191, 255], &[0, 64, 191, 255], true, true, true),
    (&[0, 64], &[64, 0], true, true, true),
];

fn are_related(first: TypeSet, second: TypeSet, subset: bool, meets: bool) -> bool {
    (first.is_subset(&second) == subset)
        & (first.meets(&second) == meets)
        & (second.meets(&first) == meets)
}

#[test]
fn sets_are_compared_by_their_types(rt: HostRuntime) {
    for (first, second, subset, meets, equal) in PAIRS {
        assert!(rt; are_related(set_of(first), set_of(second), subset, meets));
        assert!(rt; (set_of(first) == set_of(second)) == equal);
    }
}

fn hash_of(numbers: &[u8]) -> u64 {
    let mut hasher = DefaultHasher::new();
    set_of(numbers).hash(&mut hasher);
    hasher.finish()
}

#[test]
fn equal_sets_hash_alike(rt: HostRuntime) {
    assert!(rt; hash_of(&[1, 64, 255]) == hash_of(&[255, 64, 1]));
    assert!(rt; hash_of(&[1, 64, 255]) != hash_of(&[1, 64]));
}
