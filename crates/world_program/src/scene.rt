//! A scene that arrives: a world of its own, whose entities become entities of another world.
ghost use Rattle.std.specs.Prelude.{◌≡◌, IfOk};

use crate::fault::Fault;
use crate::spawn;
use ent_types::{Entity, Skip};
use std::alloc::Global;
use structural_ops::World;

/// Returns a world without an entity, which has the types of another one.
fn empty_scene(alloc: Global, world: &World) -> Result<World, Fault>
    ensures { IfOk result (λ scene. scene.world.registry ≡ world.now.world.registry) }
{
    let registry = world.registry().copy(alloc)?;
    Ok(World::new(alloc, registry, 1, 1))
}

/// Attaches a scene, if there is room for it.
fn attach(world: &mut World, scene: World) -> Result<(), Fault>
    requires { scene.world.registry ≡ world.old.world.registry }
{
    if scene.alive_count() > world.room() {
        return Err(Fault::Unfit);
    }
    match world.attach(scene) {
        Ok(()) => Ok(()),
        Err(_) => Err(Fault::Memory),
    }
}

/// Returns the entity that is made next.
fn next_entity(alloc: Global, world: &World) -> Result<Entity, Fault> {
    if world.room() == 0 {
        return Err(Fault::Skipped(Skip::Full));
    }
    let ids = world.next_ids(alloc, 1)?;
    match ids.get(0) {
        Some(e) => Ok(*e),
        None => Err(Fault::Unfit),
    }
}

/// Attaches a scene of one entity, and returns what that entity has become.
pub fn arrive(alloc: Global, world: &mut World) -> Result<Entity, Fault> {
    let arrived = next_entity(alloc, world)?;
    let mut scene = empty_scene(alloc, world)?;
    spawn(alloc, &mut scene, 100, 0)?;
    attach(world, scene)?;
    Ok(arrived)
}
