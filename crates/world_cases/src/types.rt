//! The types of the lists.

use ent_types::{FieldInfo, FieldKind, Kind, Name, Registry, Sequence, TypeInfo};
use std::alloc::Global;

/// A type: its name, its kind, the kinds of its fields, and whether it can be disabled.
type Declared = (&'static [u8], Kind, &'static [FieldKind], bool);

/// The types of each list. The first has the number 3, after the built-in ones.
const TYPES: [Declared; 12] = [
    (
        b"Point",
        Kind::Plain,
        &[FieldKind::I32, FieldKind::I64],
        false,
    ),
    (b"Glow", Kind::Plain, &[FieldKind::I32], true),
    (
        b"Link",
        Kind::Plain,
        &[FieldKind::Ref, FieldKind::I32],
        false,
    ),
    (
        b"Mixed",
        Kind::Plain,
        &[
            FieldKind::I64,
            FieldKind::Ref,
            FieldKind::I32,
            FieldKind::Ref,
        ],
        true,
    ),
    (b"Mark", Kind::Tag, &[], false),
    (b"Lit", Kind::Tag, &[], true),
    (b"Team", Kind::Shared, &[FieldKind::I32], false),
    (
        b"Zone",
        Kind::Shared,
        &[FieldKind::I64, FieldKind::I32],
        false,
    ),
    (
        b"Grave",
        Kind::Cleanup,
        &[FieldKind::I32, FieldKind::Ref],
        false,
    ),
    (b"Ash", Kind::Cleanup, &[], false),
    (b"Items", Kind::Buffer, &[FieldKind::I32], false),
    (
        b"Pals",
        Kind::Buffer,
        &[FieldKind::Ref, FieldKind::I64],
        false,
    ),
];

/// How many large types there are, after the others. 31 of them fit into a block, and 32 don't.
const LARGE_TYPES: u8 = 33;

/// The fields of a large type.
const LARGE_FIELDS: [FieldKind; 64] = [FieldKind::I64; 64];

/// Returns a letter and two more, which say which of some names it is.
fn name_at(letter: u8, at: u8) -> Option<Name> {
    Name::of(&[letter, b'a' + at / 8 % 8, b'a' + at % 8])
}

/// Adds a field to those of a type.
fn add_field(fields: &mut Sequence<FieldInfo>, at: u8, kind: FieldKind) -> bool {
    match name_at(b'f', at) {
        Some(name) => fields.push(FieldInfo { name, kind }).is_ok(),
        None => false,
    }
}

fn add_fields(fields: &mut Sequence<FieldInfo>, kinds: &[FieldKind]) -> bool {
    let mut at = 0u8;
    for kind in kinds {
        if !add_field(fields, at, *kind) {
            return false;
        }
        at = at.saturating_add(1);
    }
    true
}

/// Adds a type, if it is well formed.
fn add_info(registry: &mut Registry, info: TypeInfo) -> bool {
    if !info.is_lawful() {
        return false;
    }
    registry.add(info).is_ok()
}

/// Adds a type with fields of these kinds.
fn add_type(
    alloc: Global,
    registry: &mut Registry,
    name: Option<Name>,
    kind: Kind,
    kinds: &[FieldKind],
    enableable: bool,
) -> bool {
    let Some(name) = name else {
        return false;
    };
    let mut fields = Sequence::new(alloc);
    if !add_fields(&mut fields, kinds) {
        return false;
    }
    let info = TypeInfo {
        name,
        kind,
        fields,
        enableable,
    };
    add_info(registry, info)
}

fn add_types(alloc: Global, registry: &mut Registry, types: &[Declared]) -> bool {
    for (name, kind, kinds, enableable) in types {
        let name = Name::of(name);
        if !add_type(alloc, registry, name, *kind, kinds, *enableable) {
            return false;
        }
    }
    true
}

fn add_large_types(alloc: Global, registry: &mut Registry) -> bool {
    for at in 0..LARGE_TYPES {
        let name = name_at(b'L', at);
        if !add_type(alloc, registry, name, Kind::Plain, &LARGE_FIELDS, at == 0) {
            return false;
        }
    }
    true
}

fn add_all(alloc: Global, registry: &mut Registry, is_large: bool) -> bool {
    if !add_types(alloc, registry, &TYPES) {
        return false;
    }
    if is_large {
        return add_large_types(alloc, registry);
    }
    true
}

/// Returns the types of a list; `None` if memory runs out.
pub(crate) fn types(alloc: Global, is_large: bool) -> Option<Registry> {
    match Registry::new(alloc) {
        Ok(mut registry) => {
            if add_all(alloc, &mut registry, is_large) {
                Some(registry)
            } else {
                None
            }
        }
        Err(_) => None,
    }
}
