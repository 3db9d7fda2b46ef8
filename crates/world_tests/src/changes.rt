//! Calls of a world that first test what they ask of a part.
use crate::fixtures::part;
use ent_types::{Entity, Part, Skip, TypeId};
use std::alloc::Global;
use structural_ops::{OpFault, World};

/// Adds a part, if it fits.
fn add_part(world: &mut World, e: Entity, part: &Part) -> bool {
    if !world.takes(part) {
        return false;
    }
    world.add(e, part).is_ok()
}

/// Gives other values of a shared type, if they fit.
fn set_shared_part(world: &mut World, e: Entity, part: &Part) -> bool {
    if !world.registry().is_shared(part.ty) {
        return false;
    }
    if !world.takes(part) {
        return false;
    }
    world.set_shared(e, part).is_ok()
}

/// Sets the values of a type that is neither shared nor a buffer, if they fit.
fn set_part(world: &mut World, e: Entity, part: &Part) -> bool {
    if world.registry().is_shared(part.ty) {
        return false;
    }
    if world.registry().is_buffer(part.ty) {
        return false;
    }
    if !world.takes(part) {
        return false;
    }
    world.set(e, part).is_ok()
}

/// Adds a type with these numbers.
pub fn add(alloc: Global, world: &mut World, e: Entity, ty: TypeId, numbers: &[i64]) -> bool {
    match part(alloc, ty, numbers) {
        Some(part) => add_part(world, e, &part),
        None => false,
    }
}

/// Gives a shared type these numbers.
pub fn set_shared(
    alloc: Global,
    world: &mut World,
    e: Entity,
    ty: TypeId,
    numbers: &[i64],
) -> bool {
    match part(alloc, ty, numbers) {
        Some(part) => set_shared_part(world, e, &part),
        None => false,
    }
}

/// Sets these numbers.
pub fn set(alloc: Global, world: &mut World, e: Entity, ty: TypeId, numbers: &[i64]) -> bool {
    match part(alloc, ty, numbers) {
        Some(part) => set_part(world, e, &part),
        None => false,
    }
}

/// Removes a known type.
pub fn remove(world: &mut World, e: Entity, ty: TypeId) -> bool {
    if !world.registry().knows(ty) {
        return false;
    }
    world.remove(e, ty).is_ok()
}

/// Disables a known type.
pub fn disable(world: &mut World, e: Entity, ty: TypeId) -> bool {
    if !world.registry().knows(ty) {
        return false;
    }
    world.set_enabled(e, ty, false).is_ok()
}

/// Empties a known buffer.
pub fn clear(world: &mut World, e: Entity, ty: TypeId) -> bool {
    if !world.registry().knows(ty) {
        return false;
    }
    if !world.registry().is_buffer(ty) {
        return false;
    }
    world.clear(e, ty).is_ok()
}

/// What becomes of an element that is appended.
#[derive(Clone, Copy, Debug, PartialEq, Eq)]
pub enum Appended {
    Done,
    TooLong,
    Otherwise,
}

/// Appends the values of a part to a buffer, if they are those of one element.
pub fn append(world: &mut World, e: Entity, part: &Part) -> Appended {
    if !world.takes_element(part) {
        return Appended::Otherwise;
    }
    match world.append(e, part) {
        Ok(()) => Appended::Done,
        Err(OpFault::Skip(Skip::TooLong)) => Appended::TooLong,
        Err(_) => Appended::Otherwise,
    }
}
