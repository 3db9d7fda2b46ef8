//! Rows that are made, changed, copied and destroyed.
use crate::changes::{Appended, add, append, clear, disable, remove, set, set_shared};
use crate::fixtures::{GLOW, GRAVE, HEALTH, ITEMS, TEAM, made, part};
use ent_types::{Entity, Part, TypeId, Value};
use std::alloc::Global;
use structural_ops::World;

/// `true` if a field of a type that isn't a buffer has this number.
pub fn has(world: &World, e: Entity, ty: TypeId, field: u8, number: i64) -> bool {
    if world.registry().is_buffer(ty) {
        return false;
    }
    match world.get(e, ty, field) {
        Some(Value::Int(found)) => found == number,
        _ => false,
    }
}

/// `true` if a buffer has so many elements.
fn has_elements(world: &World, e: Entity, ty: TypeId, count: u32) -> bool {
    if !world.registry().is_buffer(ty) {
        return false;
    }
    world.elements(e, ty) == Some(count)
}

/// `true` if an element of a buffer has this number as its first value.
fn has_element(world: &World, e: Entity, ty: TypeId, k: u32, number: i64) -> bool {
    if !world.registry().is_buffer(ty) {
        return false;
    }
    match world.element(e, ty, k, 0) {
        Some(Value::Int(found)) => found == number,
        _ => false,
    }
}

/// Copies an entity and destroys it.
fn is_copied(world: &mut World, e: Entity) -> bool {
    let Ok(copy) = world.instantiate(e) else {
        return false;
    };
    let has_all = has(world, copy, HEALTH, 1, 6)
        & has(world, copy, TEAM, 0, 7)
        & has_elements(world, copy, ITEMS, 3)
        & has_element(world, copy, ITEMS, 2, 3);
    let is_gone = world.destroy(e).is_ok() & !world.alive(e);
    has_all & is_gone & world.alive(copy) & (world.alive_count() == 1)
}

/// Moves a row from home to home, and changes what it has.
fn is_moved(alloc: Global, world: &mut World, e: Entity) -> bool {
    let is_changed = add(alloc, world, e, GLOW, &[1])
        & disable(world, e, GLOW)
        & set(alloc, world, e, HEALTH, &[8, 9]);
    let is_shared = set_shared(alloc, world, e, TEAM, &[70]) & remove(world, e, GLOW);
    is_changed & is_shared & add(alloc, world, e, GRAVE, &[4])
}

/// Says whether the row has what it was given.
fn has_moved(world: &World, e: Entity) -> bool {
    has(world, e, HEALTH, 0, 8)
        & has(world, e, HEALTH, 1, 9)
        & has(world, e, TEAM, 0, 70)
        & has(world, e, GRAVE, 0, 4)
        & !has(world, e, GLOW, 0, 1)
}

/// Destroys a row with a cleanup type, which stays until the type is removed.
fn is_cleaned_up(world: &mut World, e: Entity) -> bool {
    let is_destroyed = world.destroy(e).is_ok() & world.alive(e);
    let has_less = has(world, e, GRAVE, 0, 4) & !has(world, e, HEALTH, 0, 5);
    is_destroyed & has_less & remove(world, e, GRAVE) & !world.alive(e)
}

/// Appends an element as often as a buffer takes one.
fn is_filled(world: &mut World, e: Entity, one: &Part) -> bool {
    let mut is_done = true;
    for _ in 0..4096 {
        is_done &= append(world, e, one) == Appended::Done;
    }
    is_done & (append(world, e, one) == Appended::TooLong)
}

/// Fills a buffer and empties it.
fn is_emptied(alloc: Global, world: &mut World, e: Entity) -> bool {
    let Some(one) = part(alloc, ITEMS, &[9]) else {
        return false;
    };
    let is_full = is_filled(world, e, &one) & has_elements(world, e, ITEMS, 4096);
    let last = has_element(world, e, ITEMS, 4095, 9);
    is_full & last & clear(world, e, ITEMS) & has_elements(world, e, ITEMS, 0)
}

fn copies(alloc: Global) -> bool {
    match made(
        alloc,
        &[(HEALTH, &[5, 6]), (TEAM, &[7]), (ITEMS, &[1, 2, 3])],
    ) {
        Some((mut world, e)) => is_copied(&mut world, e),
        None => false,
    }
}

fn moves(alloc: Global) -> bool {
    match made(alloc, &[(HEALTH, &[5, 6]), (TEAM, &[7])]) {
        Some((mut world, e)) => is_moved(alloc, &mut world, e) & has_moved(&world, e),
        None => false,
    }
}

fn cleans_up(alloc: Global) -> bool {
    match made(alloc, &[(HEALTH, &[5, 6]), (GRAVE, &[4])]) {
        Some((mut world, e)) => is_cleaned_up(&mut world, e),
        None => false,
    }
}

fn fills(alloc: Global) -> bool {
    match made(alloc, &[(ITEMS, &[])]) {
        Some((mut world, e)) => is_emptied(alloc, &mut world, e),
        None => false,
    }
}

#[test]
fn entities_are_made_copied_and_destroyed(rt: HostRuntime) {
    assert!(rt; copies(rt.alloc()));
}

#[test]
fn rows_move_with_what_they_have(rt: HostRuntime) {
    assert!(rt; moves(rt.alloc()));
}

#[test]
fn a_destroyed_row_stays_for_its_cleanup_type(rt: HostRuntime) {
    assert!(rt; cleans_up(rt.alloc()));
}

#[test]
fn a_buffer_takes_4096_elements(rt: HostRuntime) {
    assert!(rt; fills(rt.alloc()));
}
