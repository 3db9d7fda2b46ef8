//! Kinds of fields and of types, points, and the words of skips.
use ent_types::{FieldKind, Kind, Name, Point, Skip, fit};

/// Kinds of fields, each with a value, and with what a field of the kind keeps of it.
const KEPT: [(FieldKind, i64, i64); 7] = [
    (FieldKind::I32, 2147483647, 2147483647),
    (FieldKind::I32, 2147483648, -2147483648),
    (FieldKind::I32, -2147483649, 2147483647),
    (FieldKind::I32, 4294967301, 5),
    (FieldKind::I32, -1, -1),
    (FieldKind::I64, i64::MIN, i64::MIN),
    (FieldKind::Ref, 5, 0),
];

/// Skips, each with its name.
const SKIPS: [(Skip, &str); 6] = [
    (Skip::NoEntity, "NoEntity"),
    (Skip::NoComponent, "NoComponent"),
    (Skip::TooLarge, "TooLarge"),
    (Skip::Full, "Full"),
    (Skip::NotEnableable, "NotEnableable"),
    (Skip::TooLong, "TooLong"),
];

/// Bytes, and whether they are a name.
const NAMES: [(&[u8], bool); 7] = [
    (b"", false),
    (b"_", true),
    (b"a9_Z", true),
    (b"9a", false),
    (b"a-b", false),
    (b"abcdefghijklmnopqrstuvwxyz_01234", true),
    (b"abcdefghijklmnopqrstuvwxyz_012345", false),
];

fn all_are_kept(cases: &[(FieldKind, i64, i64)]) -> bool {
    for (kind, value, kept) in cases {
        if fit(*kind, *value) != *kept {
            return false;
        }
    }
    true
}

#[test]
fn a_field_keeps_the_low_bits(rt: HostRuntime) {
    assert!(rt; all_are_kept(&KEPT));
}

fn fields_have_sizes() -> bool {
    (FieldKind::I32.size() == 4) & (FieldKind::I64.size() == 8) & (FieldKind::Ref.size() == 8)
}

fn references_are_known() -> bool {
    FieldKind::Ref.is_ref() & !FieldKind::I64.is_ref()
}

fn columns_are_known() -> bool {
    Kind::Cleanup.has_column() & !Kind::Shared.has_column() & !Kind::Buffer.has_column()
}

fn switches_are_known() -> bool {
    Kind::Tag.may_be_enableable() & !Kind::Buffer.may_be_enableable()
}

#[test]
fn kinds_have_their_sizes_and_columns(rt: HostRuntime) {
    assert!(rt; fields_have_sizes());
    assert!(rt; references_are_known());
    assert!(rt; columns_are_known());
    assert!(rt; switches_are_known());
}

fn points_rise() -> bool {
    (Point::BeginInitialization < Point::EndInitialization)
        & (Point::EndInitialization < Point::BeginSimulation)
        & (Point::EndSimulation < Point::BeginPresentation)
}

#[test]
fn points_are_in_the_order_of_a_frame(rt: HostRuntime) {
    assert!(rt; points_rise());
}

fn is_named(skip: Skip, name: &str) -> bool {
    skip.name() == name
}

fn all_are_named(cases: &[(Skip, &str)]) -> bool {
    for (skip, name) in cases {
        if !is_named(*skip, name) {
            return false;
        }
    }
    true
}

#[test]
fn a_skip_is_printed_by_its_name(rt: HostRuntime) {
    assert!(rt; all_are_named(&SKIPS));
}

fn is_name(bytes: &[u8]) -> bool {
    Name::of(bytes).is_some()
}

fn all_are_names(cases: &[(&[u8], bool)]) -> bool {
    for (bytes, wanted) in cases {
        if is_name(bytes) != *wanted {
            return false;
        }
    }
    true
}

#[test]
fn a_name_has_up_to_32_bytes(rt: HostRuntime) {
    assert!(rt; all_are_names(&NAMES));
}
