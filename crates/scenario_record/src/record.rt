//! The record of a scenario. A field holds the value that was read, or its default.
use ent_types::{Name, Part, Point, Registry, Sequence, TypeSet};
use expr_trees::{Assign, CommandText, Expr, PartExpr, Switch};

/// A whole scenario.
#[derive(Drop)]
pub struct Scenario {
    /// How many frames are run, from 0 to 100,000.
    pub frames: u32,
    /// The version at the first moment, at least 1.
    pub first_system_version: u32,
    /// The version of an entity whose index is fresh, at least 1.
    pub first_entity_version: u32,
    /// The types: the built-in ones, then those of the scenario in declared order.
    pub registry: Registry,
    /// What is made before the first frame, in order.
    pub spawn: Sequence<SpawnEntry>,
    /// The declared groups, in order.
    pub group: Sequence<GroupEntry>,
    /// The systems, in order.
    pub system: Sequence<SystemEntry>,
    /// The events, in order.
    pub event: Sequence<EventEntry>,
    /// Whether some key places a group or a system among its siblings, of which no plan is made yet.
    pub placed: bool,
    /// Whether some other key is there that isn't run yet, also with its default.
    pub unbuilt: bool,
}

/// Rows that are made before the first frame.
#[derive(Drop)]
pub struct SpawnEntry {
    /// How many rows, from 1 to 1,048,576.
    pub count: u32,
    /// The types with their values, in order of the types' names by bytes.
    pub parts: Sequence<PartExpr>,
    /// The types that are switched off in each row.
    pub disabled: TypeSet,
}

/// A declared group of systems.
#[derive(Drop)]
pub struct GroupEntry {
    /// Its name.
    pub name: Name,
    /// The group that it is a child of.
    pub parent: Name,
    /// The siblings that it comes before.
    pub before: Sequence<Name>,
    /// The siblings that it comes after.
    pub after: Sequence<Name>,
    /// Whether it comes before the siblings that aren't marked so.
    pub first: bool,
    /// Whether it comes after the siblings that aren't marked so.
    pub last: bool,
}

/// A system: which rows it visits, and what it does with each.
#[derive(Drop)]
pub struct SystemEntry {
    /// Its name.
    pub name: Name,
    /// The group that it is a child of.
    pub group: Name,
    /// The siblings that it comes before.
    pub before: Sequence<Name>,
    /// The siblings that it comes after.
    pub after: Sequence<Name>,
    /// Whether it comes before the siblings that aren't marked so.
    pub first: bool,
    /// Whether it comes after the siblings that aren't marked so.
    pub last: bool,
    /// It runs in each frame whose number less 1 is a multiple of this.
    pub every: u32,
    /// A row matches where it has all of these, none switched off ..
    pub all: TypeSet,
    /// .. and one of these, where there are any ..
    pub any: TypeSet,
    /// .. and none of these that isn't switched off ..
    pub none: TypeSet,
    /// .. and all of these, each switched off ..
    pub disabled: TypeSet,
    /// .. and doesn't have any of these at all.
    pub absent: TypeSet,
    /// Whether rows with the tag `Disabled` match too.
    pub include_disabled: bool,
    /// Whether rows with the tag `Prefab` match too.
    pub include_prefab: bool,
    /// Where there are some, only blocks in which one of these was written since the last run are visited.
    pub changed: TypeSet,
    /// Whether blocks whose order of rows changed since the last run are visited too.
    pub order_changed: bool,
    /// The shared values that a visited block has.
    pub shared: Sequence<Part>,
    /// What is written into each row, in order.
    pub set: Sequence<Assign>,
    /// Which types are switched on or off in each row, in order, after that.
    pub enable: Sequence<Switch>,
    /// What is recorded for each row, in order, after that.
    pub command: Sequence<CommandEntry>,
}

/// A structural change that a system records for later.
#[derive(Drop)]
pub struct CommandEntry {
    /// The point at which it is played.
    pub buffer: Point,
    /// It is recorded where this isn't 0.
    pub when: Expr,
    /// The low 32 bits of this order the entries of a buffer.
    pub key: Expr,
    /// The change.
    pub act: CommandText,
}

/// What happens at the start of a frame.
#[derive(Drop)]
pub struct EventEntry {
    /// The frame, from 1.
    pub frame: u32,
    /// What happens.
    pub act: EventAct,
}

/// What an event does.
#[derive(Drop)]
pub enum EventAct {
    /// A structural change.
    Operate(CommandText),
    /// A scene file is read, and its scene is moved in some frames later.
    Load {
        /// The file.
        file: FileName,
        /// The load's name.
        label: Name,
        /// How many frames later.
        delay: u32,
    },
    /// The entities of the load of this name are destroyed.
    Unload(Name),
}

/// The name of a file. Contracts see the list of its bytes.
pub type FileName = Sequence<u8>;
