//! Why a scene file isn't well formed.

/// What is wrong at a byte of a scene file.
#[derive(Clone, Copy, Debug, PartialEq, Eq)]
pub enum SceneCause {
    /// The bytes end inside or before a field.
    Short,
    /// The file doesn't begin as scene files do.
    Magic,
    /// The version isn't known.
    Version,
    /// There are too many types.
    TypeCount,
    /// There are too many nodes.
    TooManyNodes,
    /// The types don't rise by name.
    TypeOrder,
    /// A type isn't one of the scenario's.
    UnknownType,
    /// A type isn't allowed in a scene.
    Reserved,
    /// A type has another kind or other fields than in the scenario.
    TypeShape,
    /// A node has the version 0.
    NodeVersion,
    /// The nodes don't rise by index.
    NodeOrder,
    /// A part has a type that the file doesn't list.
    PartRange,
    /// The parts of a node don't rise by type.
    PartOrder,
    /// No block holds a row with the types of a node.
    TooLarge,
    /// Bytes follow the last node.
    Trailing,
    /// A byte says neither that a part is enabled nor that it is disabled, or the type can't be disabled.
    Enabled,
    /// A dynamic buffer has too many elements.
    TooManyElements,
}

/// The first fault of a scene file.
#[derive(Clone, Copy, Debug, PartialEq, Eq)]
pub struct SceneFault {
    /// What is wrong.
    pub cause: SceneCause,
    /// At which byte, from 0.
    pub byte: u32,
}
