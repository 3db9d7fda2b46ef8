//! The points of a frame at which recorded commands are played.

/// A point of a frame at which the waiting command buffers are played (Unity's behaviour), in the order of a frame.
#[derive(Clone, Copy, Debug, PartialEq, Eq, PartialOrd, Ord, Hash)]
pub enum Point {
    /// Before the systems of the group Initialization.
    BeginInitialization,
    /// After the systems of the group Initialization.
    EndInitialization,
    /// Before the systems of the group Simulation.
    BeginSimulation,
    /// After the systems of the group Simulation.
    EndSimulation,
    /// Before the systems of the group Presentation.
    BeginPresentation,
}
