//! References that are put into rows.
ghost use Rattle.std.specs.Prelude.{◌≡◌, ◌<◌, [], true, IsTrue, unwrap_or};
ghost use Rattle.ent_types.specs.TypeSets.{has_type as type_in};
ghost use Rattle.world_model.specs.Reads.{elements_of, types_of};

use crate::fixtures::{LINK, PALS, create, empty_world};
use ent_types::{Entity, Part, TypeId, Value, Values};
use std::alloc::Global;
use structural_ops::World;

/// `true` if an entity has a known type.
fn has_type(world: &World, e: Entity, ty: TypeId) -> bool
    ensures { IsTrue result → type_in (unwrap_or (types_of world.now.world e) []) ty.0 ≡ true }
{
    if !world.registry().knows(ty) {
        return false;
    }
    match world.types(e) {
        Some(types) => types.has(ty),
        None => false,
    }
}

/// `true` if a buffer of an entity has an element at a place.
fn has_element(world: &World, e: Entity, ty: TypeId, k: u32) -> bool
    ensures { IsTrue result → k < unwrap_or (elements_of world.now.world e ty.0) 0 }
{
    if !world.registry().is_buffer(ty) {
        return false;
    }
    match world.elements(e, ty) {
        Some(count) => k < count,
        None => false,
    }
}

/// Puts a reference into a field of an entity, if there is one.
fn put_ref(world: &mut World, e: Entity, ty: TypeId, field: u8, to: Entity) -> bool {
    if !has_type(world, e, ty) {
        return false;
    }
    if world.registry().is_shared(ty) {
        return false;
    }
    if world.registry().is_buffer(ty) {
        return false;
    }
    if !world.registry().field_kind(ty, usize::from(field)).is_ref() {
        return false;
    }
    world.put_ref(e, ty, field, to);
    true
}

/// Puts a reference into a field of an element, if there is one.
fn put_element_ref(
    world: &mut World,
    e: Entity,
    ty: TypeId,
    k: u32,
    field: u8,
    to: Entity,
) -> bool {
    if !has_element(world, e, ty, k) {
        return false;
    }
    if !world.registry().is_buffer(ty) {
        return false;
    }
    if !world.registry().field_kind(ty, usize::from(field)).is_ref() {
        return false;
    }
    world.put_element_ref(e, ty, k, field, to);
    true
}

/// `true` if a field of a type that isn't a buffer has this value.
fn field_is(world: &World, e: Entity, ty: TypeId, field: u8, value: Value) -> bool {
    if world.registry().is_buffer(ty) {
        return false;
    }
    world.get(e, ty, field) == Some(value)
}

/// `true` if a field of an element has this value.
fn element_is(world: &World, e: Entity, ty: TypeId, k: u32, field: u8, value: Value) -> bool {
    if !world.registry().is_buffer(ty) {
        return false;
    }
    world.element(e, ty, k, field) == Some(value)
}

/// Puts references to the entity itself into its fields.
fn refers_to_itself(world: &mut World, e: Entity) -> bool {
    let is_put = put_ref(world, e, LINK, 0, e) & put_element_ref(world, e, PALS, 1, 0, e);
    let is_there = field_is(world, e, LINK, 0, Value::Ref(e))
        & element_is(world, e, PALS, 1, 0, Value::Ref(e));
    let others_stay = element_is(world, e, PALS, 0, 0, Value::Ref(Entity::NULL))
        & element_is(world, e, PALS, 1, 1, Value::Int(6));
    is_put & is_there & others_stay & !put_ref(world, e, PALS, 0, e)
}

/// A part with these values.
fn part_of(alloc: Global, ty: TypeId, values: &[Value]) -> Option<Part> {
    match Values::from_slice(alloc, values) {
        Ok(values) => Some(Part { ty, values }),
        Err(_) => None,
    }
}

/// Parts with null references.
fn null_parts(alloc: Global) -> Option<Vec<Part>> {
    let null = Value::Ref(Entity::NULL);
    let mut parts = Vec::new(alloc);
    parts.push(part_of(alloc, LINK, &[null])?).ok()?;
    parts
        .push(part_of(alloc, PALS, &[null, Value::Int(5), null, Value::Int(6)])?)
        .ok()?;
    Some(parts)
}

/// Makes an entity with these parts, which then refers to itself.
fn refers_in(world: &mut World, parts: &[Part]) -> bool {
    match create(world, parts) {
        Some(e) => refers_to_itself(world, e),
        None => false,
    }
}

fn refers(alloc: Global, parts: &[Part]) -> bool {
    match empty_world(alloc) {
        Some(mut world) => refers_in(&mut world, parts),
        None => false,
    }
}

fn puts_references(alloc: Global) -> bool {
    match null_parts(alloc) {
        Some(parts) => refers(alloc, &parts),
        None => false,
    }
}

#[test]
fn references_are_put_into_rows(rt: HostRuntime) {
    assert!(rt; puts_references(rt.alloc()));
}
