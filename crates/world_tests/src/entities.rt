//! Entities that are made.
use ent_types::Registry;
use std::alloc::Global;
use structural_ops::World;

/// Makes an entity without parts, and looks it up.
fn makes_an_entity(alloc: Global, registry: Registry) -> bool {
    let mut world = World::new(alloc, registry, 1, 1);
    match world.create(&[]) {
        Ok(e) => world.alive(e) & world.types(e).is_some() & (world.alive_count() == 1),
        Err(_) => false,
    }
}

fn makes_entities(alloc: Global) -> bool {
    match Registry::new(alloc) {
        Ok(registry) => makes_an_entity(alloc, registry),
        Err(_) => false,
    }
}

#[test]
fn an_entity_that_is_made_is_alive(rt: HostRuntime) {
    assert!(rt; makes_entities(rt.alloc()));
}
