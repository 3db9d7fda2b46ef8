//! One command as one operation of a world.
ghost use Rattle.std.specs.Prelude.{◌≡◌, map, Some};
ghost use Rattle.world_model.specs.Operations.{Add, Append, Clear, Create, Destroy, Instantiate, Remove, Set, SetEnabled, SetShared};
ghost use Rattle.run_laws.specs.Suits.{OperationSuits};
ghost use Rattle.playback.specs.Asked.{on_target, operation_for, part_for};
ghost use Rattle.playback.specs.Makers.{made_in};
ghost use Rattle.playback.specs.Played.{Does, without_entity};

use crate::made::Made;
use command_record::{CmdPart, Command, Target};
use ent_types::{Entity, Part, Skip, TypeId};
use std::alloc::Global;
use structural_ops::{OpFault, World};

/// Returns that nothing was made, or why nothing was done.
fn done(outcome: Result<(), Skip>) -> Result<Option<Entity>, OpFault>
    ensures { result ≡ without_entity outcome }
{
    match outcome {
        Ok(()) => Ok(None),
        Err(skip) => Err(OpFault::Skip(skip)),
    }
}

fn create(
    alloc: Global,
    world: &mut World,
    made: &Made,
    item: u32,
    from: &[CmdPart],
    parts: &mut Vec<Part>,
) -> Result<Option<Entity>, OpFault>
    requires { OperationSuits world.old.world.registry (Some (Create (map (part_for (made_in made.now item)) from.now))) }
    ensures { Does world.old world.new (Some (Create (map (part_for (made_in made.now item)) from.now))) result }
{
    made.fill(alloc, item, from, parts)?;
    let e = world.create(parts)?;
    Ok(Some(e))
}

fn instantiate(
    world: &mut World,
    made: &Made,
    item: u32,
    source: Target,
) -> Result<Option<Entity>, OpFault>
    ensures { Does world.old world.new (on_target (made_in made.now item) source Instantiate) result }
{
    let e = made.found(item, source)?;
    let copy = world.instantiate(e)?;
    Ok(Some(copy))
}

fn destroy(
    world: &mut World,
    made: &Made,
    item: u32,
    target: Target,
) -> Result<Option<Entity>, OpFault>
    ensures { Does world.old world.new (on_target (made_in made.now item) target Destroy) result }
{
    let e = made.found(item, target)?;
    world.destroy(e)?;
    Ok(None)
}

fn add(
    alloc: Global,
    world: &mut World,
    made: &Made,
    item: u32,
    target: Target,
    part: &CmdPart,
) -> Result<Option<Entity>, OpFault>
    requires { OperationSuits world.old.world.registry (on_target (made_in made.now item) target (Add (part_for (made_in made.now item) part.now))) }
    ensures { Does world.old world.new (on_target (made_in made.now item) target (Add (part_for (made_in made.now item) part.now))) result }
{
    let e = made.found(item, target)?;
    let part = made.part(alloc, item, part)?;
    world.add(e, &part)?;
    Ok(None)
}

fn remove(
    world: &mut World,
    made: &Made,
    item: u32,
    target: Target,
    ty: TypeId,
) -> Result<Option<Entity>, OpFault>
    requires { OperationSuits world.old.world.registry (on_target (made_in made.now item) target (Remove ty.0)) }
    ensures { Does world.old world.new (on_target (made_in made.now item) target (Remove ty.0)) result }
{
    let e = made.found(item, target)?;
    world.remove(e, ty)?;
    Ok(None)
}

fn set(
    alloc: Global,
    world: &mut World,
    made: &Made,
    item: u32,
    target: Target,
    part: &CmdPart,
) -> Result<Option<Entity>, OpFault>
    requires { OperationSuits world.old.world.registry (on_target (made_in made.now item) target (Set (part_for (made_in made.now item) part.now))) }
    ensures { Does world.old world.new (on_target (made_in made.now item) target (Set (part_for (made_in made.now item) part.now))) result }
{
    let e = made.found(item, target)?;
    let part = made.part(alloc, item, part)?;
    done(world.set(e, &part))
}

fn set_shared(
    alloc: Global,
    world: &mut World,
    made: &Made,
    item: u32,
    target: Target,
    part: &CmdPart,
) -> Result<Option<Entity>, OpFault>
    requires { OperationSuits world.old.world.registry (on_target (made_in made.now item) target (SetShared (part_for (made_in made.now item) part.now))) }
    ensures { Does world.old world.new (on_target (made_in made.now item) target (SetShared (part_for (made_in made.now item) part.now))) result }
{
    let e = made.found(item, target)?;
    let part = made.part(alloc, item, part)?;
    world.set_shared(e, &part)?;
    Ok(None)
}

fn set_enabled(
    world: &mut World,
    made: &Made,
    item: u32,
    target: Target,
    ty: TypeId,
    on: bool,
) -> Result<Option<Entity>, OpFault>
    requires { OperationSuits world.old.world.registry (on_target (made_in made.now item) target (SetEnabled ty.0 on)) }
    ensures { Does world.old world.new (on_target (made_in made.now item) target (SetEnabled ty.0 on)) result }
{
    let e = made.found(item, target)?;
    done(world.set_enabled(e, ty, on))
}

fn append(
    alloc: Global,
    world: &mut World,
    made: &Made,
    item: u32,
    target: Target,
    part: &CmdPart,
) -> Result<Option<Entity>, OpFault>
    requires { OperationSuits world.old.world.registry (on_target (made_in made.now item) target (Append (part_for (made_in made.now item) part.now))) }
    ensures { Does world.old world.new (on_target (made_in made.now item) target (Append (part_for (made_in made.now item) part.now))) result }
{
    let e = made.found(item, target)?;
    let part = made.part(alloc, item, part)?;
    world.append(e, &part)?;
    Ok(None)
}

fn clear(
    world: &mut World,
    made: &Made,
    item: u32,
    target: Target,
    ty: TypeId,
) -> Result<Option<Entity>, OpFault>
    requires { OperationSuits world.old.world.registry (on_target (made_in made.now item) target (Clear ty.0)) }
    ensures { Does world.old world.new (on_target (made_in made.now item) target (Clear ty.0)) result }
{
    let e = made.found(item, target)?;
    done(world.clear(e, ty))
}

/// Does a command of an item by one call of the world, and returns the entity that it made. `parts` is a buffer.
pub(crate) fn apply(
    alloc: Global,
    world: &mut World,
    made: &Made,
    item: u32,
    command: &Command,
    parts: &mut Vec<Part>,
) -> Result<Option<Entity>, OpFault>
    requires { OperationSuits world.old.world.registry (operation_for (made_in made.now item) command.now) }
    ensures { Does world.old world.new (operation_for (made_in made.now item) command.now) result }
{
    match command {
        Command::Create { parts: from } => {
            create(alloc, world, made, item, from.as_slice(), parts)
        }
        Command::Destroy { target } => destroy(world, made, item, *target),
        Command::Add { target, part } => add(alloc, world, made, item, *target, part),
        Command::Remove { target, ty } => remove(world, made, item, *target, *ty),
        Command::Set { target, part } => set(alloc, world, made, item, *target, part),
        Command::SetShared { target, part } => set_shared(alloc, world, made, item, *target, part),
        Command::SetEnabled { target, ty, on } => {
            set_enabled(world, made, item, *target, *ty, *on)
        }
        Command::Instantiate { source } => instantiate(world, made, item, *source),
        Command::Append { target, part } => append(alloc, world, made, item, *target, part),
        Command::Clear { target, ty } => clear(world, made, item, *target, *ty),
    }
}
