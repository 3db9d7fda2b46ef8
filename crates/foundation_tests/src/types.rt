//! Types to try, and which of them are lawful.
use ent_types::{FieldInfo, FieldKind, Kind, Memory, Name, Sequence, TypeInfo};
use std::alloc::Global;

/// A type in short: its kind, how many fields of one kind it has, that kind, and whether it is enableable.
pub type Shape = (Kind, u8, FieldKind, bool);

/// Shapes, and whether a type of the shape is lawful.
const SHAPES: [(Shape, bool); 18] = [
    ((Kind::Plain, 0, FieldKind::I32, false), false),
    ((Kind::Plain, 1, FieldKind::Ref, true), true),
    ((Kind::Plain, 65, FieldKind::I64, false), true),
    ((Kind::Tag, 0, FieldKind::I32, true), true),
    ((Kind::Tag, 1, FieldKind::I32, false), false),
    ((Kind::Shared, 0, FieldKind::I32, false), false),
    ((Kind::Shared, 8, FieldKind::I64, false), true),
    ((Kind::Shared, 9, FieldKind::I64, false), false),
    ((Kind::Shared, 1, FieldKind::Ref, false), false),
    ((Kind::Shared, 1, FieldKind::I32, true), false),
    ((Kind::Cleanup, 0, FieldKind::I32, false), true),
    ((Kind::Cleanup, 1, FieldKind::Ref, false), true),
    ((Kind::Cleanup, 1, FieldKind::Ref, true), false),
    ((Kind::Buffer, 0, FieldKind::I32, false), false),
    ((Kind::Buffer, 1, FieldKind::Ref, false), true),
    ((Kind::Buffer, 8, FieldKind::I64, false), true),
    ((Kind::Buffer, 9, FieldKind::I64, false), false),
    ((Kind::Buffer, 1, FieldKind::I32, true), false),
];

/// Returns the fields f00, f01 and so on.
fn numbered(alloc: Global, count: u8, kind: FieldKind) -> Result<Sequence<FieldInfo>, Memory> {
    let mut fields = Sequence::new(alloc);
    for number in 0..count {
        if let Some(name) = Name::of(&[b'f', b'0' + number / 10, b'0' + number % 10]) {
            fields.push(FieldInfo { name, kind })?;
        }
    }
    Ok(fields)
}

/// Returns a type, or `None` if the bytes are no name or memory runs out.
pub fn type_of(alloc: Global, name: &[u8], shape: Shape) -> Option<TypeInfo> {
    let (kind, count, field, enableable) = shape;
    let name = Name::of(name)?;
    match numbered(alloc, count, field) {
        Ok(fields) => Some(TypeInfo {
            name,
            kind,
            fields,
            enableable,
        }),
        Err(_) => None,
    }
}

/// Returns an enableable plain type with this many i32 fields.
pub fn plain(alloc: Global, name: &[u8], count: u8) -> Option<TypeInfo> {
    type_of(alloc, name, (Kind::Plain, count, FieldKind::I32, true))
}

/// `true` if the type has one more field now, a reference.
pub fn extend(info: &mut TypeInfo, field: &[u8]) -> bool {
    match Name::of(field) {
        Some(name) => {
            let kind = FieldKind::Ref;
            info.fields.push(FieldInfo { name, kind }).is_ok()
        }
        None => false,
    }
}

fn is_so(alloc: Global, shape: Shape, lawful: bool) -> bool {
    match type_of(alloc, b"T", shape) {
        Some(info) => info.is_lawful() == lawful,
        None => false,
    }
}

fn all_are_so(alloc: Global, cases: &[(Shape, bool)]) -> bool {
    for (shape, lawful) in cases {
        if !is_so(alloc, *shape, *lawful) {
            return false;
        }
    }
    true
}

#[test]
fn a_type_has_the_shape_of_its_kind(rt: HostRuntime) {
    assert!(rt; all_are_so(rt.alloc(), &SHAPES));
}

/// `true` if a type with the fields f00, f01, f02 and one of this name is lawful, or isn't.
fn takes_field(alloc: Global, field: &[u8], lawful: bool) -> bool {
    match plain(alloc, b"T", 3) {
        Some(mut info) => extend(&mut info, field) & (info.is_lawful() == lawful),
        None => false,
    }
}

#[test]
fn no_two_fields_have_one_name(rt: HostRuntime) {
    assert!(rt; takes_field(rt.alloc(), b"f03", true));
    assert!(rt; takes_field(rt.alloc(), b"f01", false));
}
