//! The limits of a world, a scenario and a scene.
//!
//! Counts of list elements and of bytes are `usize`, as `Vec::len` returns them. Counts of entities, rows, frames,
//! nodes and workers are `u32`, as the world keeps them.

// ---- types

/// The greatest number of types, the built-in ones among them.
pub const MOST_TYPES: usize = 256;

/// The greatest number of fields of a type.
pub const MOST_FIELDS: usize = 64;

/// The greatest number of fields of a shared type.
pub const MOST_SHARED_FIELDS: usize = 8;

/// The greatest number of fields of a buffer type.
pub const MOST_BUFFER_FIELDS: usize = 8;

/// The greatest number of elements of one dynamic buffer.
pub const MOST_ELEMENTS: usize = 4_096;

/// The greatest number of bytes that a row takes in the column of a type: 64 fields of 8 bytes.
pub const MOST_COLUMN_BYTES: u32 = 512;

/// The greatest number of bytes of a name.
pub const LONGEST_NAME: usize = 32;

// ---- the world

/// The greatest number of entities that are alive at once.
pub const MOST_ENTITIES: u32 = 1_048_576;

/// The greatest number of indexes that the entity table ever makes.
pub const MOST_INDEXES: u32 = 4_194_304;

/// The greatest number of rows of a block (Unity's number).
pub const MOST_BLOCK_ROWS: u32 = 128;

/// The greatest number of moments of a run. It is far below 2^31, so wrapped versions still compare as moments do.
pub const MOST_MOMENTS: u32 = system_version::MOST_MOMENTS;

/// The last system version. The version after it is 1.
pub const LAST_SYSTEM_VERSION: u32 = system_version::LAST_VERSION;

/// The last version of an entity. An index that is freed with it is never given again.
pub const LAST_ENTITY_VERSION: u32 = u32::MAX;

/// The greatest number of workers that run a phase.
pub const MOST_WORKERS: u32 = 64;

// ---- scenarios

/// The greatest number of bytes of a scenario file.
pub const LONGEST_SCENARIO: usize = 1_048_576;

/// The greatest number of frames.
pub const MOST_FRAMES: u32 = 100_000;

/// The greatest number of spawns.
pub const MOST_SPAWNS: usize = 1_024;

/// The greatest number of groups.
pub const MOST_GROUPS: usize = 64;

/// The greatest number of systems.
pub const MOST_SYSTEMS: usize = 256;

/// The greatest number of events.
pub const MOST_EVENTS: usize = 4_096;

/// The greatest number of names in one list of a system's or a group's neighbours in the order.
pub const MOST_ORDER_NAMES: usize = 64;

/// The greatest number of types that a change filter names.
pub const MOST_CHANGED: usize = 2;

/// The greatest number of shared types that a shared filter names.
pub const MOST_SHARED_FILTERS: usize = 2;

/// The greatest number of assignments of a system.
pub const MOST_ASSIGNS: usize = 64;

/// The greatest number of switches of a system.
pub const MOST_SWITCHES: usize = 16;

/// The greatest number of commands of a system.
pub const MOST_COMMANDS: usize = 16;

/// The greatest number of bytes of an expression, an assignment, a switch or a command string.
pub const LONGEST_TEXT: usize = 1_024;

/// The greatest number of levels of nesting in such a text.
pub const MOST_NESTING: u8 = 64;

/// The greatest number of bytes of the name of a scene file.
pub const LONGEST_FILE_NAME: usize = 255;

// ---- scenes

/// The greatest number of bytes of a scene file.
pub const LONGEST_SCENE: usize = 16_777_216;

/// The greatest number of nodes of a scene.
pub const MOST_NODES: u32 = 262_144;
