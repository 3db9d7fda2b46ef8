//! Commands: structural changes whose values are known, but for the entities that other commands make.
ghost use Rattle.std.specs.Prelude.{◌≡◌};
ghost use Rattle.command_record.specs.Changes.{HasValue, with_target, with_value};

use crate::lists::{CmdParts, CmdValues};
use ent_types::{Entity, TypeId};

/// What a command acts on, or a reference among its values.
#[derive(Clone, Copy, Debug, PartialEq, Eq)]
pub enum Target {
    /// An entity, alive or not.
    Live(Entity),
    /// The entity that a command of the same item makes: the one with this number, recorded for the row at this place.
    Placeholder {
        /// The place of the row in its block.
        row: u32,
        /// The command's place in the system, from 0.
        number: u32,
    },
}

/// A value of a command.
#[derive(Clone, Copy, Debug, PartialEq, Eq)]
pub enum CmdValue {
    /// A number.
    Int(i64),
    /// A reference.
    Ref(Target),
}

/// A type with its values.
#[derive(Debug, Drop)]
pub struct CmdPart {
    /// The type.
    pub ty: TypeId,
    /// One value for each field of the type. The values of a buffer's elements come one after another.
    pub values: CmdValues,
}

/// A structural change. Each variant is the operation of the world that has its name.
#[derive(Debug, Drop)]
pub enum Command {
    /// Makes an entity with these parts.
    Create {
        /// The parts, of one type each.
        parts: CmdParts,
    },
    /// Destroys an entity.
    Destroy {
        /// The entity.
        target: Target,
    },
    /// Adds a type with its values.
    Add {
        /// The entity.
        target: Target,
        /// The type and its values.
        part: CmdPart,
    },
    /// Removes a type.
    Remove {
        /// The entity.
        target: Target,
        /// The type.
        ty: TypeId,
    },
    /// Replaces the values of a type.
    Set {
        /// The entity.
        target: Target,
        /// The type and its values.
        part: CmdPart,
    },
    /// Replaces the values of a shared type.
    SetShared {
        /// The entity.
        target: Target,
        /// The type and its values.
        part: CmdPart,
    },
    /// Enables or disables a type.
    SetEnabled {
        /// The entity.
        target: Target,
        /// The type.
        ty: TypeId,
        /// Whether it is enabled afterwards.
        on: bool,
    },
    /// Makes a copy of an entity.
    Instantiate {
        /// The entity that is copied.
        source: Target,
    },
    /// Puts an element last in a dynamic buffer.
    Append {
        /// The entity.
        target: Target,
        /// The buffer type and the values of one element.
        part: CmdPart,
    },
    /// Empties a dynamic buffer.
    Clear {
        /// The entity.
        target: Target,
        /// The buffer type.
        ty: TypeId,
    },
}

impl Command {
    /// Replaces what the command acts on. `Create` acts on nothing, so it stays as it is. It takes no memory.
    pub fn set_target(&mut self, new: Target)
        ensures { self.new ≡ with_target self.old new }
    {
        match self {
            Command::Create { .. } => {}
            Command::Destroy { target } => *target = new,
            Command::Add { target, .. } => *target = new,
            Command::Remove { target, .. } => *target = new,
            Command::Set { target, .. } => *target = new,
            Command::SetShared { target, .. } => *target = new,
            Command::SetEnabled { target, .. } => *target = new,
            Command::Instantiate { source } => *source = new,
            Command::Append { target, .. } => *target = new,
            Command::Clear { target, .. } => *target = new,
        }
    }

    /// Replaces the value at a place of a part. `Create` has some parts, and each other command that has values has one, which is
    /// part 0. It takes no memory.
    pub fn set_value(&mut self, part: usize, at: usize, value: CmdValue)
        requires { HasValue self.old part at }
        ensures { self.new ≡ with_value self.old part at value }
    {
        match self {
            Command::Create { parts } => parts.set_value(part, at, value),
            Command::Add { part: own, .. } => own.values.set(at, value),
            Command::Set { part: own, .. } => own.values.set(at, value),
            Command::SetShared { part: own, .. } => own.values.set(at, value),
            Command::Append { part: own, .. } => own.values.set(at, value),
            Command::Destroy { .. } => unreachable!(),
            Command::Remove { .. } => unreachable!(),
            Command::SetEnabled { .. } => unreachable!(),
            Command::Instantiate { .. } => unreachable!(),
            Command::Clear { .. } => unreachable!(),
        }
    }
}
