//! The operations of a line: its word, an entity, and parts.
//!
//! `create` has any number of parts, and makes an entity of them. `add`, `set`, `set_shared` and `append` have one part. `remove`,
//! `enable`, `disable` and `clear` have one part, whose type alone counts. `destroy`, `instantiate` and `raise` have none; `raise` makes
//! the next version the present one. A line is bad if the call asks for more of its part than it has.

use crate::words::{push_parts, read_entity};
use ent_types::{Entity, Part, Skip, TypeId};
use std::alloc::Global;
use structural_ops::{OpFault, World};

/// What came of an operation.
#[derive(Clone, Copy)]
pub(crate) enum Answer {
    /// An entity was made.
    Made(Entity),
    /// It was done, it was skipped, or memory ran out, as the word says.
    Word(&'static str),
    /// The line is no operation that can be asked for.
    Bad,
}

/// The answer of what was done.
const DONE: Answer = Answer::Word("done");

/// Returns the answer of a call that can't be done.
fn undone(fault: OpFault) -> Answer {
    match fault {
        OpFault::Skip(skip) => Answer::Word(skip.name()),
        OpFault::Memory => Answer::Word("memory"),
    }
}

/// Returns the answer of a call that makes an entity.
fn made(ended: Result<Entity, OpFault>) -> Answer {
    match ended {
        Ok(e) => Answer::Made(e),
        Err(fault) => undone(fault),
    }
}

/// Returns the answer of a call that may need memory.
fn done(ended: Result<(), OpFault>) -> Answer {
    match ended {
        Ok(()) => DONE,
        Err(fault) => undone(fault),
    }
}

/// Returns the answer of a call that takes no memory.
fn done_always(ended: Result<(), Skip>) -> Answer {
    match ended {
        Ok(()) => DONE,
        Err(skip) => Answer::Word(skip.name()),
    }
}

/// Makes an entity of parts, if they suit.
fn create(world: &mut World, parts: &[Part]) -> Answer {
    if !world.takes_all(parts) {
        return Answer::Bad;
    }
    made(world.create(parts))
}

/// Adds a part, if it fits.
fn add(world: &mut World, e: Entity, part: &Part) -> Answer {
    if !world.takes(part) {
        return Answer::Bad;
    }
    done(world.add(e, part))
}

/// Sets the values of a type that is neither shared nor a buffer, if they fit.
fn set(world: &mut World, e: Entity, part: &Part) -> Answer {
    if world.registry().is_shared(part.ty) {
        return Answer::Bad;
    }
    if world.registry().is_buffer(part.ty) {
        return Answer::Bad;
    }
    if !world.takes(part) {
        return Answer::Bad;
    }
    done_always(world.set(e, part))
}

/// Gives other values of a shared type, if they fit.
fn set_shared(world: &mut World, e: Entity, part: &Part) -> Answer {
    if !world.registry().is_shared(part.ty) {
        return Answer::Bad;
    }
    if !world.takes(part) {
        return Answer::Bad;
    }
    done(world.set_shared(e, part))
}

/// Appends the values of a part to a buffer, if they are those of one element.
fn append(world: &mut World, e: Entity, part: &Part) -> Answer {
    if !world.takes_element(part) {
        return Answer::Bad;
    }
    done(world.append(e, part))
}

/// Removes a known type.
fn remove(world: &mut World, e: Entity, ty: TypeId) -> Answer {
    if !world.registry().knows(ty) {
        return Answer::Bad;
    }
    done(world.remove(e, ty))
}

/// Enables or disables a known type.
fn set_enabled(world: &mut World, e: Entity, ty: TypeId, on: bool) -> Answer {
    if !world.registry().knows(ty) {
        return Answer::Bad;
    }
    done_always(world.set_enabled(e, ty, on))
}

/// Empties a known buffer.
fn clear(world: &mut World, e: Entity, ty: TypeId) -> Answer {
    if !world.registry().knows(ty) {
        return Answer::Bad;
    }
    if !world.registry().is_buffer(ty) {
        return Answer::Bad;
    }
    done_always(world.clear(e, ty))
}

/// Does an operation that has one part.
fn act_with(world: &mut World, word: &str, e: Entity, part: &Part) -> Answer {
    match word {
        "add" => add(world, e, part),
        "remove" => remove(world, e, part.ty),
        "set" => set(world, e, part),
        "set_shared" => set_shared(world, e, part),
        "enable" => set_enabled(world, e, part.ty, true),
        "disable" => set_enabled(world, e, part.ty, false),
        "append" => append(world, e, part),
        "clear" => clear(world, e, part.ty),
        _ => Answer::Bad,
    }
}

/// Does an operation that has no part.
fn act_alone(world: &mut World, word: &str, e: Entity) -> Answer {
    match word {
        "destroy" => done(world.destroy(e)),
        "instantiate" => made(world.instantiate(e)),
        "raise" => {
            world.raise();
            DONE
        }
        _ => Answer::Bad,
    }
}

/// Does an operation.
fn act(world: &mut World, word: &str, e: Entity, parts: &[Part]) -> Answer {
    if word == "create" {
        return create(world, parts);
    }
    match parts.split_first() {
        None => act_alone(world, word, e),
        Some((part, rest)) => {
            if rest.is_empty() {
                act_with(world, word, e, part)
            } else {
                Answer::Bad
            }
        }
    }
}

/// Does an operation with the parts that words are.
fn act_on(alloc: Global, world: &mut World, word: &str, e: Entity, words: &str) -> Answer {
    let mut parts = Vec::new(alloc);
    if push_parts(alloc, &mut parts, words) {
        act(world, word, e, &parts)
    } else {
        Answer::Bad
    }
}

/// Does the operation of a line.
pub(crate) fn operate(alloc: Global, world: &mut World, line: &str) -> Answer {
    let (word, rest) = line.split_once(' ').unwrap_or((line, ""));
    let (e, words) = rest.split_once(' ').unwrap_or((rest, ""));
    match read_entity(e) {
        Some(e) => act_on(alloc, world, word, e, words),
        None => Answer::Bad,
    }
}
