//! Scenes that are attached to a world.
ghost use Rattle.std.specs.Prelude.{◌≡◌, IfSome};

use crate::fixtures::{HEALTH, TEAM, made, parts};
use crate::rows::has;
use ent_types::{Entity, Part, TypeId};
use std::alloc::Global;
use structural_ops::World;

/// Returns a world without an entity, which has the types of another one.
fn scene_of(alloc: Global, world: &World) -> Option<World>
    ensures { IfSome result (λ scene. scene.world.registry ≡ world.now.world.registry) }
{
    match world.registry().copy(alloc) {
        Ok(registry) => Some(World::new(alloc, registry, 1, 1)),
        Err(_) => None,
    }
}

/// Makes an entity with these parts, if they suit.
fn create(scene: &mut World, parts: &[Part]) -> bool
    ensures { scene.new.world.registry ≡ scene.old.world.registry }
{
    if !scene.takes_all(parts) {
        return false;
    }
    scene.create(parts).is_ok()
}

/// Makes an entity with these numbers.
fn fill(alloc: Global, scene: &mut World, entries: &[(TypeId, &[i64])]) -> bool
    ensures { scene.new.world.registry ≡ scene.old.world.registry }
{
    match parts(alloc, entries) {
        Some(parts) => create(scene, &parts),
        None => false,
    }
}

/// Attaches a scene, if there is room for it.
fn attach(world: &mut World, scene: World) -> bool
    requires { scene.world.registry ≡ world.old.world.registry }
{
    if scene.alive_count() > world.room() {
        return false;
    }
    world.attach(scene).is_ok()
}

/// Returns the next two entities.
fn next_two(alloc: Global, world: &World) -> Option<(Entity, Entity)> {
    if world.room() < 2 {
        return None;
    }
    match world.next_ids(alloc, 2) {
        Ok(ids) => Some((*ids.get(0)?, *ids.get(1)?)),
        Err(_) => None,
    }
}

/// Makes a scene of two entities, and attaches it.
fn attach_two(alloc: Global, world: &mut World) -> bool {
    let Some(mut scene) = scene_of(alloc, world) else {
        return false;
    };
    if !fill(alloc, &mut scene, &[(HEALTH, &[7, 8]), (TEAM, &[3])]) {
        return false;
    }
    if !fill(alloc, &mut scene, &[(HEALTH, &[9, 10])]) {
        return false;
    }
    attach(world, scene)
}

/// `true` if the entities of the scene have the next ids, of which the first was freed before.
fn gives_next_ids(alloc: Global, world: &mut World, e: Entity) -> bool {
    let Some((first, second)) = next_two(alloc, world) else {
        return false;
    };
    let is_attached = attach_two(alloc, world);
    let first_is = has(world, first, HEALTH, 1, 8) & has(world, first, TEAM, 0, 3);
    let second_is = has(world, second, HEALTH, 1, 10) & has(world, e, HEALTH, 1, 6);
    is_attached & first_is & second_is & (first.version == 2) & (world.alive_count() == 3)
}

/// Makes an entity and destroys it, so that its index is given next.
fn free_one(world: &mut World, e: Entity) -> bool {
    match world.instantiate(e) {
        Ok(copy) => world.destroy(copy).is_ok(),
        Err(_) => false,
    }
}

fn attaches(alloc: Global) -> bool {
    match made(alloc, &[(HEALTH, &[5, 6])]) {
        Some((mut world, e)) => free_one(&mut world, e) && gives_next_ids(alloc, &mut world, e),
        None => false,
    }
}

#[test]
fn a_scene_gets_the_next_ids(rt: HostRuntime) {
    assert!(rt; attaches(rt.alloc()));
}
