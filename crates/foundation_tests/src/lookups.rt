//! Look-ups by the registry, of types that are there and of one that isn't.
use crate::registries::added;
use crate::types::{Shape, type_of};
use ent_types::{FieldKind, Kind, Registry, TypeId};
use std::alloc::Global;

/// The types 3 to 6 with their names, one of each declared kind that has fields.
const TYPES: [(&[u8], Shape); 4] = [
    (b"T0", (Kind::Plain, 2, FieldKind::I32, true)),
    (b"T1", (Kind::Shared, 1, FieldKind::I64, false)),
    (b"T2", (Kind::Cleanup, 1, FieldKind::Ref, false)),
    (b"T3", (Kind::Buffer, 3, FieldKind::Ref, false)),
];

/// Types, the count of their fields, and the kind of field 0. A type that has no field has the defaults, as a number
/// that no type has.
const FIELDS: [(u16, usize, FieldKind); 8] = [
    (TypeId::DISABLED.0, 0, FieldKind::I32),
    (TypeId::SCENE_TAG.0, 1, FieldKind::I64),
    (3, 2, FieldKind::I32),
    (4, 1, FieldKind::I64),
    (5, 1, FieldKind::Ref),
    (6, 3, FieldKind::Ref),
    (7, 0, FieldKind::I32),
    (65535, 0, FieldKind::I32),
];

/// The same types, their kind, the size of their column, and whether they are enableable.
const KINDS: [(u16, Kind, u32, bool); 8] = [
    (TypeId::DISABLED.0, Kind::Tag, 0, false),
    (TypeId::SCENE_TAG.0, Kind::Shared, 0, false),
    (3, Kind::Plain, 8, true),
    (4, Kind::Shared, 0, false),
    (5, Kind::Cleanup, 8, false),
    (6, Kind::Buffer, 0, false),
    (7, Kind::Tag, 0, false),
    (65535, Kind::Tag, 0, false),
];

fn has_fields(registry: &Registry, ty: u16, count: usize) -> bool {
    registry.fields(TypeId(ty)).len() == count
}

fn has_field(registry: &Registry, ty: u16, field: FieldKind) -> bool {
    registry.field_kind(TypeId(ty), 0) == field
}

fn all_have_fields(registry: &Registry, cases: &[(u16, usize, FieldKind)]) -> bool {
    for (ty, count, field) in cases {
        if !(has_fields(registry, *ty, *count) & has_field(registry, *ty, *field)) {
            return false;
        }
    }
    true
}

fn has_kind(registry: &Registry, ty: u16, kind: Kind) -> bool {
    registry.kind(TypeId(ty)) == kind
}

fn has_size(registry: &Registry, ty: u16, size: u32) -> bool {
    registry.column_size(TypeId(ty)) == size
}

fn has_switch(registry: &Registry, ty: u16, enableable: bool) -> bool {
    registry.is_enableable(TypeId(ty)) == enableable
}

fn is_column(registry: &Registry, ty: u16, is: bool) -> bool {
    registry.has_column(TypeId(ty)) == is
}

fn is_shared(registry: &Registry, ty: u16, is: bool) -> bool {
    registry.is_shared(TypeId(ty)) == is
}

fn is_cleanup(registry: &Registry, ty: u16, is: bool) -> bool {
    registry.is_cleanup(TypeId(ty)) == is
}

fn is_buffer(registry: &Registry, ty: u16, is: bool) -> bool {
    registry.is_buffer(TypeId(ty)) == is
}

/// `true` if the questions by kind have the answers that belong to the kind.
fn agrees(registry: &Registry, ty: u16, kind: Kind) -> bool {
    is_column(
        registry,
        ty,
        (kind == Kind::Plain) | (kind == Kind::Cleanup),
    ) & is_shared(registry, ty, kind == Kind::Shared)
        & is_cleanup(registry, ty, kind == Kind::Cleanup)
        & is_buffer(registry, ty, kind == Kind::Buffer)
}

fn all_have_kinds(registry: &Registry, cases: &[(u16, Kind, u32, bool)]) -> bool {
    for (ty, kind, size, enableable) in cases {
        if !(has_kind(registry, *ty, *kind)
            & has_size(registry, *ty, *size)
            & has_switch(registry, *ty, *enableable)
            & agrees(registry, *ty, *kind))
        {
            return false;
        }
    }
    true
}

fn is_added(alloc: Global, registry: &mut Registry, name: &[u8], shape: Shape) -> bool {
    match type_of(alloc, name, shape) {
        Some(info) => added(registry, info).is_ok(),
        None => false,
    }
}

fn is_filled(alloc: Global, registry: &mut Registry, types: &[(&[u8], Shape)]) -> bool {
    for (name, shape) in types {
        if !is_added(alloc, registry, name, *shape) {
            return false;
        }
    }
    true
}

fn finds_types(alloc: Global) -> bool {
    match Registry::new(alloc) {
        Ok(mut registry) => {
            is_filled(alloc, &mut registry, &TYPES)
                & all_have_fields(&registry, &FIELDS)
                & all_have_kinds(&registry, &KINDS)
        }
        Err(_) => false,
    }
}

#[test]
fn a_type_is_looked_up_by_its_number(rt: HostRuntime) {
    assert!(rt; finds_types(rt.alloc()));
}
