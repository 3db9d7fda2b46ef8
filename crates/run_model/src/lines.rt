//! The lines that a run writes, except those of the world at its end.
use crate::SceneFault;
use ent_types::{Name, Point, Skip};

/// A line that a run writes whether or not it traces.
#[derive(Clone, Copy, Debug, PartialEq, Eq)]
pub enum NoteLine {
    /// The operation of an event was skipped.
    EventSkip {
        /// The frame.
        frame: u32,
        /// The event's place in the scenario's list, from 0.
        event: u32,
        /// Why.
        skip: Skip,
    },
    /// A scene was moved in.
    SceneArrived {
        /// The load's name.
        name: Name,
        /// The frame.
        frame: u32,
        /// How many entities came.
        entities: u32,
    },
    /// The scene file isn't well formed.
    SceneFaulty {
        /// The load's name.
        name: Name,
        /// The frame in which the scene was due.
        frame: u32,
        /// The first fault of the file.
        fault: SceneFault,
    },
    /// The scene file isn't there.
    SceneAbsent {
        /// The load's name.
        name: Name,
        /// The frame in which the scene was due.
        frame: u32,
    },
    /// The scene file is longer than a scene may be.
    SceneTooLong {
        /// The load's name.
        name: Name,
        /// The frame in which the scene was due.
        frame: u32,
    },
    /// The world had no room for the scene.
    SceneFull {
        /// The load's name.
        name: Name,
        /// The frame in which the scene was due.
        frame: u32,
    },
    /// The entities of a load were destroyed.
    Unloaded {
        /// The load's name.
        name: Name,
        /// The frame.
        frame: u32,
        /// How many entities were destroyed.
        entities: u32,
    },
    /// A load was cancelled before its scene was due.
    UnloadCancelled {
        /// The load's name.
        name: Name,
        /// The frame.
        frame: u32,
    },
    /// There was nothing to unload.
    UnloadNone {
        /// The load's name.
        name: Name,
        /// The frame.
        frame: u32,
    },
    /// A recorded command was skipped at its playback.
    CommandSkip {
        /// The frame of the playback.
        frame: u32,
        /// The system that recorded it.
        system: Name,
        /// The point.
        point: Point,
        /// The item in which its row was visited.
        item: u32,
        /// The place of its row in the block.
        row: u32,
        /// The command's place in the system, from 0.
        command: u32,
        /// Why.
        skip: Skip,
    },
    /// A buffer that still waits after the last frame.
    Unplayed {
        /// The frame of the recording.
        frame: u32,
        /// The system that recorded it.
        system: Name,
        /// The point for which it waits.
        point: Point,
        /// The number of its entries.
        commands: u64,
    },
    /// A load whose scene wasn't due before the run ended.
    ScenePending {
        /// The load's name.
        name: Name,
    },
    /// A key came from two items of a buffer, which ended the run.
    KeyShared {
        /// The frame of the playback.
        frame: u32,
        /// The system that recorded the buffer.
        system: Name,
        /// The point.
        point: Point,
        /// The least such key.
        key: i32,
        /// The least item that has it.
        first_item: u32,
        /// The next item that has it.
        second_item: u32,
    },
}

/// A line that a run writes only where it traces.
#[derive(Clone, Copy, Debug, PartialEq, Eq)]
pub enum TraceLine {
    /// A system ran.
    Run {
        /// The frame.
        frame: u32,
        /// The system.
        system: Name,
        /// The version of the run.
        version: u32,
        /// The number of blocks that were visited.
        visits: u32,
        /// The number of blocks whose types pass.
        passing: u32,
        /// The number of commands that were recorded.
        commands: u64,
    },
    /// A point plays its waiting buffers.
    Play {
        /// The frame.
        frame: u32,
        /// The point.
        point: Point,
        /// The version of the point.
        version: u32,
        /// The number of buffers.
        buffers: u32,
        /// The number of their entries.
        commands: u64,
    },
}
