//! A world in a program: entities with a position and a speed, of which one moves, one is copied, one is destroyed, and one comes
//! with a scene.
//!
//! The status is 0, or 1 if an operation is skipped or memory runs out.
#![tactic(auto)]

ghost use Rattle.std.specs.Prelude.{◌≡◌};

mod fault;
mod scene;
mod types;

use ent_types::{Entity, Part, TypeId, Value, Values};
use fault::Fault;
use std::alloc::Global;
use std::io;
use std::process::ExitCode;
use structural_ops::World;
use types::{POSITION, SPEED, types};

/// The status if the example doesn't come to its end.
const STOPPED: u8 = 1;

/// Returns a part with a number.
fn part(alloc: Global, ty: TypeId, number: i64) -> Result<Part, Fault> {
    let values = Values::from_slice(alloc, &[Value::Int(number)])?;
    Ok(Part { ty, values })
}

/// Makes an entity of parts that the registry takes.
fn create(world: &mut World, parts: &[Part]) -> Result<Entity, Fault>
    ensures { world.new.world.registry ≡ world.old.world.registry }
{
    if !world.takes_all(parts) {
        return Err(Fault::Unfit);
    }
    Ok(world.create(parts)?)
}

/// Makes an entity at a position, with a speed.
pub(crate) fn spawn(
    alloc: Global,
    world: &mut World,
    position: i64,
    speed: i64,
) -> Result<Entity, Fault>
    ensures { world.new.world.registry ≡ world.old.world.registry }
{
    let parts = [part(alloc, POSITION, position)?, part(alloc, SPEED, speed)?];
    create(world, &parts)
}

/// Returns the number that an entity has of a type.
fn number(world: &World, e: Entity, ty: TypeId) -> Result<i64, Fault> {
    if world.registry().is_buffer(ty) {
        return Err(Fault::Unfit);
    }
    match world.get(e, ty, 0) {
        Some(Value::Int(number)) => Ok(number),
        _ => Err(Fault::Unfit),
    }
}

/// Replaces the values of a type that is neither shared nor a buffer.
fn set(world: &mut World, e: Entity, part: &Part) -> Result<(), Fault> {
    if world.registry().is_shared(part.ty) | world.registry().is_buffer(part.ty) {
        return Err(Fault::Unfit);
    }
    if !world.takes(part) {
        return Err(Fault::Unfit);
    }
    Ok(world.set(e, part)?)
}

/// Moves an entity by its speed.
fn step(alloc: Global, world: &mut World, e: Entity) -> Result<(), Fault> {
    let position = number(world, e, POSITION)?;
    let speed = number(world, e, SPEED)?;
    let moved = part(alloc, POSITION, position.wrapping_add(speed))?;
    set(world, e, &moved)
}

/// Returns a copy of an entity that has moved, in place of the entity.
fn replace(world: &mut World, e: Entity) -> Result<Entity, Fault> {
    let copy = world.instantiate(e)?;
    world.destroy(e)?;
    Ok(copy)
}

/// Lets an entity move a few times, and returns the copy that takes its place.
fn live(alloc: Global, world: &mut World) -> Result<Entity, Fault> {
    let mover = spawn(alloc, world, 1, 5)?;
    for _ in 0..3 {
        world.raise();
        step(alloc, world, mover)?;
    }
    replace(world, mover)
}

/// Prints an entity and its position.
fn print_entity<R: Print>(rt: &R, world: &World, e: Entity) -> Result<(), Fault> {
    let position = number(world, e, POSITION)?;
    Ok(println!(rt; "{}:{} at {position}", e.index, e.version)?)
}

/// Lets the world live, attaches a scene to it, and prints what is there.
fn run_in<R: Print>(rt: &R, alloc: Global, world: &mut World) -> Result<(), Fault> {
    let copy = live(alloc, world)?;
    let arrived = scene::arrive(alloc, world)?;
    print_entity(rt, world, copy)?;
    print_entity(rt, world, arrived)?;
    Ok(println!(rt; "alive: {}", world.alive_count())?)
}

/// Makes the world, in which a fresh index has version 1 and the first system version is 1.
fn run<R: Print>(rt: &R, alloc: Global) -> Result<(), Fault> {
    let mut world = World::new(alloc, types(alloc)?, 1, 1);
    run_in(rt, alloc, &mut world)
}

fn main(rt: HostRuntime) -> io::Result<ExitCode> {
    match run(&rt, rt.alloc()) {
        Ok(()) => Ok(ExitCode::SUCCESS),
        Err(fault) => {
            eprintln!(rt; "{fault:?}")?;
            Ok(ExitCode::from(STOPPED))
        }
    }
}
