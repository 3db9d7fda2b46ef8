//! The rows of spawns, one after another.
ghost use Rattle.std.specs.Prelude.{◌≡◌, ℕ, ◌+◌, ◌-◌, ◌≤◌, ◌<◌, fold, IfOk, OnOk};
ghost use Rattle.scenario_record.specs.declared.record.SpawnEntry.{SpawnEntry as Spawn};
ghost use Rattle.world_model.specs.Fits.{IsKnown};
ghost use Rattle.world_model.specs.Ids.{room};
ghost use Rattle.world_model.specs.Members.{In};
ghost use Rattle.world_model.specs.Scenes.{switched_off};
ghost use Rattle.world_model.specs.World.{capacity};
ghost use Rattle.run_model.specs.Tasks.{after_row_spawned, after_spawn, spawned as world_spawned};
ghost use Rattle.run_laws.specs.Runnable.{IsRunnable, SpawnRuns};
ghost use Rattle.world_spawns.specs.Room.{rows_of};

use crate::no_row::NoRow;
use ent_types::{Entity, Memory, Part, TypeSet};
use scenario_record::{Scenario, SpawnEntry};
use std::alloc::Global;
use structural_ops::{OpFault, World};

/// Disables some types of an entity, as far as it has them and they can be disabled.
fn disable(world: &mut World, e: Entity, types: &TypeSet)
    requires { (t : ℕ) → In t types.now → IsKnown world.old.world.registry t }
    ensures { world.new.world ≡ fold (switched_off (capacity world.old.world.registry) e) world.old.world types.now }
{
    for ty in types.iter() {
        // A type that is skipped stays as it is.
        let _ = world.set_enabled(e, ty, false);
    }
}

/// Makes the row of a spawn that has number `n`. `parts` is a buffer.
fn spawn_row(
    alloc: Global,
    spawn: &SpawnEntry,
    n: u32,
    parts: &mut Vec<Part>,
    world: &mut World,
) -> Result<(), Memory>
    requires runs { SpawnRuns world.old.world.registry spawn.now }
    requires room { 1 ≤ room world.old.world }
    ensures world { OnOk result (world.new.world ≡ after_row_spawned (capacity world.old.world.registry) spawn.now world.old.world n) }
    ensures registry { OnOk result (world.new.world.registry ≡ world.old.world.registry) }
    ensures room { OnOk result (room world.new.world + 1 ≡ room world.old.world) }
{
    let row = NoRow { n, frame: 0 };
    row.fill(alloc, world.registry(), spawn.parts.as_slice(), parts)?;
    match world.create(parts) {
        Ok(e) => {
            disable(world, e, &spawn.disabled);
            Ok(())
        }
        Err(OpFault::Memory) => Err(Memory),
        Err(OpFault::Skip(_)) => unreachable!(),
    }
}

/// Makes the rows of a spawn. `parts` is a buffer.
fn spawn_rows(
    alloc: Global,
    spawn: &SpawnEntry,
    parts: &mut Vec<Part>,
    world: &mut World,
) -> Result<(), Memory>
    requires runs { SpawnRuns world.old.world.registry spawn.now }
    requires room { spawn.now.count ≤ room world.old.world }
    ensures world { OnOk result (world.new.world ≡ after_spawn (capacity world.old.world.registry) world.old.world spawn.now) }
    ensures registry { OnOk result (world.new.world.registry ≡ world.old.world.registry) }
    ensures room { OnOk result (room world.new.world + spawn.now.count ≡ room world.old.world) }
{
    for n in 0..spawn.count {
        spawn_row(alloc, spawn, n, parts, world)?;
    }
    Ok(())
}

/// Makes the rows of some spawns, in order. `parts` is a buffer.
fn spawn_all(
    alloc: Global,
    spawns: &[SpawnEntry],
    parts: &mut Vec<Part>,
    world: &mut World,
) -> Result<(), Memory>
    requires run { (s : Spawn) → In s spawns.now → SpawnRuns world.old.world.registry s }
    requires room { rows_of spawns.now ≤ room world.old.world }
    ensures { OnOk result (world.new.world ≡ fold (after_spawn (capacity world.old.world.registry)) world.old.world spawns.now) }
{
    for spawn in spawns {
        spawn_rows(alloc, spawn, parts, world)?;
    }
    Ok(())
}

/// Returns the world after the spawns of a scenario, which has its first system version as the present one. Each spawn makes `count`
/// rows, of which the texts see the numbers 0, 1 and so on, with the spawn's types disabled.
///
/// One buffer of parts serves for all rows. The cost is that of a `create` for each row, and of a `set_enabled` for each type of it
/// that is disabled.
///
/// ```text
/// let world = spawned(alloc, &scenario)?;
/// assert!(world.alive_count() == number_of_rows);
/// ```
pub fn spawned(alloc: Global, scenario: &Scenario) -> Result<World, Memory>
    requires { IsRunnable scenario.now }
    ensures { IfOk result (λ w. w.world ≡ world_spawned (capacity scenario.now.registry) scenario.now scenario.now.first_system_version) }
{
    let registry = scenario.registry.copy(alloc)?;
    let mut world = World::new(
        alloc,
        registry,
        scenario.first_entity_version,
        scenario.first_system_version,
    );
    let mut parts = Vec::new(alloc);
    spawn_all(alloc, scenario.spawn.as_slice(), &mut parts, &mut world)?;
    Ok(world)
}
