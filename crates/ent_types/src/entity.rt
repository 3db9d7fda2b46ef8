//! The names of entities and of types.
ghost use Rattle.std.specs.Prelude.{◌≡◌};

/// The name of an entity: a place in the entity table, and how often that place was given before.
///
/// An entity is alive only where the table's version at the index equals its own (Unity's behaviour). The null
/// entity has index 0 and version 0 and is never alive, since versions begin at 1.
#[derive(Clone, Copy, Debug, PartialEq, Eq, PartialOrd, Ord, Hash)]
pub struct Entity {
    /// The place in the entity table, from 0.
    pub index: u32,
    /// From 1; it is raised by 1 each time the index is freed.
    pub version: u32,
}

impl Entity {
    /// The entity that is never alive.
    pub const NULL: Entity = Entity {
        index: 0,
        version: 0,
    };
}

/// The number of a type, in order of declaration. The built-in types come first.
#[derive(Clone, Copy, Debug, PartialEq, Eq, PartialOrd, Ord, Hash)]
pub struct TypeId(pub u16);

/// How many types each registry begins with: `Disabled`, `Prefab` and `SceneTag`. The first declared type has this
/// number.
pub const BUILT_IN_TYPES: usize = 3;

impl TypeId {
    /// The tag `Disabled`. Queries pass over rows that have it, unless they ask for them (Unity's behaviour).
    pub const DISABLED: TypeId = TypeId(0);

    /// The tag `Prefab`. Queries pass over rows that have it, unless they ask for them (Unity's behaviour).
    pub const PREFAB: TypeId = TypeId(1);

    /// The shared type `SceneTag`, whose value is the number of the load that a row came with.
    pub const SCENE_TAG: TypeId = TypeId(2);
}
