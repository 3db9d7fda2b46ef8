//! System versions, at both ends of their range.
use ent_types::SystemVersion;

/// Versions, each with the next one.
const NEXT: [(u32, u32); 6] = [
    (1, 2),
    (7, 8),
    (2147483647, 2147483648),
    (4294967294, 4294967295),
    (4294967295, 1),
    (0, 1),
];

/// Moments and their versions, where moment 1 has the version 4294967282.
const MOMENTS: [(u32, u32); 6] = [
    (1, 4294967282),
    (6, 4294967287),
    (14, 4294967295),
    (15, 1),
    (21, 7),
    (23, 9),
];

/// Versions of a change, each with a required version, and whether the change is later.
const CHANGES: [(u32, u32, bool); 14] = [
    (1, 0, true),
    (0, 0, true),
    (4294967295, 0, true),
    (5, 5, false),
    (6, 5, true),
    (5, 6, false),
    (1, 4294967295, true),
    (4294967295, 1, false),
    (7, 4294967288, true),
    (4294967288, 7, false),
    (2147483648, 1, true),
    (2147483649, 1, false),
    (1, 2147483650, true),
    (1, 2147483649, false),
];

fn is_next(version: u32, next: u32) -> bool {
    SystemVersion(version).next() == SystemVersion(next)
}

fn all_are_next(cases: &[(u32, u32)]) -> bool {
    for (version, next) in cases {
        if !is_next(*version, *next) {
            return false;
        }
    }
    true
}

/// Returns the version of a moment.
fn version_at(moment: u32) -> u32 {
    let mut version = SystemVersion(4294967282);
    for _ in 1..moment {
        version = version.next();
    }
    version.0
}

fn all_wrap(cases: &[(u32, u32)]) -> bool {
    for (moment, version) in cases {
        if version_at(*moment) != *version {
            return false;
        }
    }
    true
}

fn is_later(change: u32, required: u32) -> bool {
    SystemVersion(change).did_change(SystemVersion(required))
}

fn all_are_later(cases: &[(u32, u32, bool)]) -> bool {
    for (change, required, later) in cases {
        if is_later(*change, *required) != *later {
            return false;
        }
    }
    true
}

#[test]
fn the_next_version_is_never_0(rt: HostRuntime) {
    assert!(rt; all_are_next(&NEXT));
}

#[test]
fn versions_wrap_between_moments(rt: HostRuntime) {
    assert!(rt; all_wrap(&MOMENTS));
}

#[test]
fn a_change_is_later_by_the_signed_difference(rt: HostRuntime) {
    assert!(rt; all_are_later(&CHANGES));
}
