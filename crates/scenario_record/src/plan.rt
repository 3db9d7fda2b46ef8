//! The plan of a scenario: the steps of a frame, and the types that each system touches.
use ent_types::{Point, Sequence, TypeSet};

/// A step of a frame.
#[derive(Clone, Copy, Debug, PartialEq, Eq)]
pub enum Step {
    /// The events of the frame.
    Events,
    /// The waiting command buffers of a point are played.
    Play(Point),
    /// The system with this number runs.
    Run(u32),
}

/// The types that a system touches. Two systems run side by side only if neither writes a type that the other touches.
#[derive(Clone, Copy, Debug)]
pub struct Access {
    /// The types of own fields in its texts, of `on` and `get`, and of its change filter.
    pub reads: TypeSet,
    /// The types that its `set` and `enable` texts write.
    pub writes: TypeSet,
    /// The enableable types of its clauses.
    pub named: TypeSet,
}

/// The plan of a scenario.
#[derive(Drop)]
pub struct Plan {
    /// The steps of a frame, in order.
    pub steps: Sequence<Step>,
    /// What each system touches, in declared order.
    pub access: Sequence<Access>,
}
