//! The world, as programs see it.
ghost use Rattle.std.specs.Prelude.{◌≡◌, ◌≤◌, [], map, option_map, is_some};
ghost use Rattle.world_model.specs.Part.{part_of as seen};
ghost use Rattle.world_model.specs.World.{empty_world};
ghost use Rattle.world_model.specs.Found.{found, alive_count};
ghost use Rattle.world_model.specs.Ids.{room};
ghost use Rattle.world_model.specs.Lawful.{Suits};
ghost use Rattle.world_model.specs.Operations.{Add, Create, Destroy, Instantiate, On, Remove, SetShared};
ghost use Rattle.world_model.specs.Reads.{types_of as types_in};
ghost use Rattle.structural_ops.specs.Worlds.{Gives, done, made};

use crate::tables::Tables;
use crate::{OpFault, operations};
use archetype_store::ArchetypeStore;
use ent_types::{Entity, Part, Registry, SystemVersion, TypeId, TypeSet};
use entity_table::EntityTable;
use std::alloc::Global;
use std::marker::Model;

/// All entities with their rows.
///
/// An operation that can't be done is skipped and changes nothing; nor does anything change if memory runs out. Parts must be of types that the
/// registry knows, and their values must fit.
///
/// ```text
/// let mut world = World::new(alloc, registry, 1, 1);
/// let e = world.create(&[health])?;
/// assert!(world.alive(e));
/// ```
#[derive(Drop)]
pub struct World {
    pub(crate) tables: Tables,
}

impl Model for World {
    ghost use Rattle.structural_ops.specs.Worlds.{WorldState, state_of, IsConsistent};

    ghost Value = { WorldState };

    ghost view = { λ w. state_of w.tables };

    ghost invariant = { λ w. IsConsistent w.tables };
}

impl World {
    /// Returns the world without an entity. It takes no memory.
    pub fn new(
        alloc: Global,
        registry: Registry,
        first_entity_version: u32,
        first_system_version: u32,
    ) -> World
        requires entity { 1 ≤ first_entity_version }
        requires system { 1 ≤ first_system_version }
        ensures { result ≡ record { world = empty_world registry first_entity_version first_system_version; numbers = []; archetypes = [] } }
    {
        // Its contract says that the registry is lawful.
        let _ = registry.types();
        let tables = Tables {
            alloc,
            registry,
            store: ArchetypeStore::new(alloc),
            table: EntityTable::new(alloc, first_entity_version),
            version: SystemVersion(first_system_version),
        };
        World { tables }
    }

    /// Makes an entity with these parts, each enabled. It is skipped as `TooLarge` if no such row fits into a block, else as `Full`
    /// if no more entities can be made.
    pub fn create(&mut self, parts: &[Part]) -> Result<Entity, OpFault>
        requires { Suits self.old.world.registry (Create (map seen parts.now)) }
        ensures { Gives self.old self.new (Create (map seen parts.now)) (made result) }
    {
        operations::create(&mut self.tables, parts)
    }

    /// Makes a copy of an entity, with the same values and with the same types disabled, but without its cleanup types and without
    /// `Prefab`. The copy of a dying entity isn't dying. It is skipped as `NoEntity` if the entity isn't alive, else as `Full` if no
    /// more entities can be made.
    ///
    /// The values are read before they are written, so it takes memory for the row twice, and for a block if none has room.
    pub fn instantiate(&mut self, e: Entity) -> Result<Entity, OpFault>
        ensures { Gives self.old self.new (On e Instantiate) (made result) }
    {
        operations::instantiate(&mut self.tables, e)
    }

    /// Destroys an entity. Without a cleanup type it ends, and no later entity gets its name. With some it keeps these alone, and is
    /// alive and dying until the last of them is removed. It is skipped as `NoEntity` if the entity isn't alive.
    ///
    /// Memory is taken only if it keeps some of its types and loses others, since its row then moves to another block.
    pub fn destroy(&mut self, e: Entity) -> Result<(), OpFault>
        ensures { Gives self.old self.new (On e Destroy) (done result) }
    {
        operations::destroy(&mut self.tables, e)
    }

    /// Adds a type with its values, enabled. If the entity has the type, its values are replaced, and whether it is disabled stays.
    /// It is skipped as `NoEntity` if the entity isn't alive, else as `TooLarge` if it lacks the type and no row with one type more
    /// fits into a block.
    ///
    /// The row moves to another block, unless it has the type and the type isn't shared, or the shared values are equal. A row that
    /// moves costs a copy of all its values, which takes memory; new elements of a buffer take memory too.
    pub fn add(&mut self, e: Entity, part: &Part) -> Result<(), OpFault>
        requires { Suits self.old.world.registry (On e (Add (seen part.now))) }
        ensures { Gives self.old self.new (On e (Add (seen part.now))) (done result) }
    {
        operations::add(&mut self.tables, e, part)
    }

    /// Removes a type. If the entity lacks it nothing changes. A dying entity ends with its last type; any other can be without
    /// types. It is skipped as `NoEntity` if the entity isn't alive.
    ///
    /// The row moves to another block, which costs a copy of the values that stay and takes memory.
    pub fn remove(&mut self, e: Entity, ty: TypeId) -> Result<(), OpFault>
        requires { Suits self.old.world.registry (On e (Remove ty.0)) }
        ensures { Gives self.old self.new (On e (Remove ty.0)) (done result) }
    {
        operations::remove(&mut self.tables, e, ty)
    }

    /// Replaces the values of a shared type. The row moves to a block with these values, with the copy and the memory that this
    /// takes; equal values change nothing. It is skipped as `NoEntity` if the entity isn't alive, else as `NoComponent` if it lacks the type.
    pub fn set_shared(&mut self, e: Entity, part: &Part) -> Result<(), OpFault>
        requires { Suits self.old.world.registry (On e (SetShared (seen part.now))) }
        ensures { Gives self.old self.new (On e (SetShared (seen part.now))) (done result) }
    {
        operations::set_shared(&mut self.tables, e, part)
    }

    /// Says whether an entity is alive, dying or not.
    pub fn alive(&self, e: Entity) -> bool
        ensures { result ≡ is_some (found e self.now.world.blocks) }
    {
        self.tables.table.place_of(e).is_some()
    }

    /// Counts the alive entities.
    pub fn alive_count(&self) -> u32
        ensures { result ≡ alive_count self.now.world }
    {
        self.tables.table.alive_count()
    }

    /// Counts how many more entities can be made.
    pub fn room(&self) -> u32
        ensures { result ≡ room self.now.world }
    {
        self.tables.table.room()
    }

    /// Returns the types of an entity, or `None` if and only if it isn't alive.
    pub fn types(&self, e: Entity) -> Option<&TypeSet>
        ensures { option_map (λ types. types.now) result ≡ types_in self.now.world e }
    {
        let place = self.tables.table.place_of(e)?;
        Some(self.tables.store.block(place.block).types())
    }

    /// Returns the registry.
    pub fn registry(&self) -> &Registry
        ensures { result.now ≡ self.now.world.registry }
    {
        &self.tables.registry
    }

    /// Returns the present version.
    pub fn version(&self) -> SystemVersion
        ensures { result.0 ≡ self.now.world.moment }
    {
        self.tables.version
    }
}
