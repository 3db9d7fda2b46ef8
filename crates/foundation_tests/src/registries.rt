//! Registries: what is there from the start, what is added, and what is refused.
use crate::types::{extend, plain};
use ent_types::{BUILT_IN_TYPES, Name, Registry, RegistryFault, TypeId, TypeInfo};
use std::alloc::Global;

/// Adds a type that is lawful.
pub fn added(registry: &mut Registry, info: TypeInfo) -> Result<TypeId, RegistryFault> {
    if info.is_lawful() {
        registry.add(info)
    } else {
        Err(RegistryFault::Memory)
    }
}

/// `true` if the registry returns this for a plain type.
fn answers(
    alloc: Global,
    registry: &mut Registry,
    name: &[u8],
    count: u8,
    wanted: Result<TypeId, RegistryFault>,
) -> bool {
    match plain(alloc, name, count) {
        Some(info) => added(registry, info) == wanted,
        None => false,
    }
}

fn has_number(registry: &Registry, name: &[u8], wanted: Option<TypeId>) -> bool {
    match Name::of(name) {
        Some(name) => registry.find(&name) == wanted,
        None => false,
    }
}

/// `true` if the field of that name is at that place of the type.
fn has_field(registry: &Registry, ty: TypeId, field: &[u8], wanted: Option<u8>) -> bool {
    match Name::of(field) {
        Some(field) => registry.knows(ty) && registry.info(ty).field_named(&field) == wanted,
        None => false,
    }
}

fn has_size(registry: &Registry, ty: TypeId, wanted: u32) -> bool {
    registry.knows(ty) && registry.info(ty).column_size() == wanted
}

fn has_built_in(registry: &Registry) -> bool {
    has_number(registry, b"Disabled", Some(TypeId::DISABLED))
        & has_number(registry, b"Prefab", Some(TypeId::PREFAB))
        & has_number(registry, b"SceneTag", Some(TypeId::SCENE_TAG))
        & (registry.len() == BUILT_IN_TYPES)
}

fn has_scene(registry: &Registry) -> bool {
    has_field(registry, TypeId::SCENE_TAG, b"scene", Some(0))
        & has_size(registry, TypeId::SCENE_TAG, 0)
}

fn begins_with_built_in(alloc: Global) -> bool {
    match Registry::new(alloc) {
        Ok(registry) => has_built_in(&registry) & has_scene(&registry),
        Err(_) => false,
    }
}

#[test]
fn the_built_in_types_come_first(rt: HostRuntime) {
    assert!(rt; begins_with_built_in(rt.alloc()));
}

fn has_names(registry: &Registry) -> bool {
    has_number(registry, b"Position", Some(TypeId(3)))
        & has_number(registry, b"position", None)
        & (registry.len() == 4)
}

fn has_position(registry: &Registry) -> bool {
    has_field(registry, TypeId(3), b"target", Some(2))
        & has_field(registry, TypeId(3), b"Target", None)
        & has_size(registry, TypeId(3), 16)
        & has_names(registry)
}

fn is_copied(alloc: Global, registry: &Registry) -> bool {
    match registry.copy(alloc) {
        Ok(copy) => has_position(&copy),
        Err(_) => false,
    }
}

/// `true` if the type `Position` of two numbers and the reference `target` gets the number 3.
fn adds_position(alloc: Global, registry: &mut Registry) -> bool {
    match plain(alloc, b"Position", 2) {
        Some(mut info) => {
            extend(&mut info, b"target") & (added(registry, info) == Ok(TypeId(3)))
        }
        None => false,
    }
}

fn finds_position(alloc: Global) -> bool {
    match Registry::new(alloc) {
        Ok(mut registry) => {
            adds_position(alloc, &mut registry)
                & has_position(&registry)
                & is_copied(alloc, &registry)
        }
        Err(_) => false,
    }
}

#[test]
fn a_type_is_found_by_its_name(rt: HostRuntime) {
    assert!(rt; finds_position(rt.alloc()));
}

fn refuses_early(alloc: Global, registry: &mut Registry) -> bool {
    answers(alloc, registry, b"Prefab", 65, Err(RegistryFault::TooWide))
        & answers(
            alloc,
            registry,
            b"Prefab",
            64,
            Err(RegistryFault::Duplicate),
        )
}

/// `true` if the type `T` with three digits, of 64 fields, gets this number.
fn is_next(alloc: Global, registry: &mut Registry, number: u8) -> bool {
    let name = [
        b'T',
        b'0' + number / 100,
        b'0' + number / 10 % 10,
        b'0' + number % 10,
    ];
    answers(alloc, registry, &name, 64, Ok(TypeId(u16::from(number))))
}

/// Adds types until 256 are there.
fn is_filled(alloc: Global, registry: &mut Registry) -> bool {
    for number in 3..=255 {
        if !is_next(alloc, registry, number) {
            return false;
        }
    }
    true
}

fn refuses_late(alloc: Global, registry: &mut Registry) -> bool {
    answers(
        alloc,
        registry,
        b"Late",
        1,
        Err(RegistryFault::TooManyTypes),
    ) & answers(alloc, registry, b"T255", 1, Err(RegistryFault::Duplicate))
        & (registry.len() == 256)
}

fn refuses_in_order(alloc: Global) -> bool {
    match Registry::new(alloc) {
        Ok(mut registry) => {
            refuses_early(alloc, &mut registry)
                & is_filled(alloc, &mut registry)
                & refuses_late(alloc, &mut registry)
        }
        Err(_) => false,
    }
}

#[test]
fn a_refusal_is_the_first_that_holds(rt: HostRuntime) {
    assert!(rt; refuses_in_order(rt.alloc()));
}
