//! One slot for each index that was made, and a stack of the free indexes.
ghost use Rattle.std.specs.Prelude.{◌≡◌, ◌+◌, ◌-◌, ◌≤◌, ◌<◌, None, Some, OnSome};
ghost use Rattle.entity_table.specs.Ids.{ahead_of};
ghost use Rattle.entity_table.specs.Table.{empty_table, place_of, IsAlive, alive_count, made, room, given_by, living, with_made, without, with_place, Rebinds, Reserves};
ghost use Rattle.entity_table.specs.declared.table.TableFault.TheVariants.{Memory as OutOfMemory};

use crate::Living;
use ent_types::limits::{MOST_ENTITIES, MOST_INDEXES};
use ent_types::{Entity, Steps};
use std::alloc::{AllocError, Global};
use std::marker::Model;
use std::sync::ledger::Ledger;
use thiserror::Error;

/// Where an entity's row is.
#[derive(Clone, Copy, Debug, PartialEq, Eq)]
pub struct Place {
    /// The number of the block.
    pub block: u32,
    /// The row in that block, from 0.
    pub row: u32,
}

/// Why [`EntityTable::reserve`] refused.
#[derive(Clone, Copy, Debug, PartialEq, Eq, Error)]
pub enum TableFault {
    /// More entities were asked for than the table has room for.
    #[error("no room for more entities")]
    Full,
    /// Memory ran out.
    #[error("out of memory")]
    Memory,
}

impl From<AllocError> for TableFault {
    ghost from_gives = { λ _ fault. fault ≡ OutOfMemory };

    fn from(_: AllocError) -> TableFault {
        TableFault::Memory
    }
}

/// What is kept for an index: the version of the entity that has it or will have it next, and the place of that
/// entity's row while it is alive.
#[derive(Clone, Copy, Debug)]
pub(crate) struct Slot {
    pub(crate) version: u32,
    pub(crate) place: Option<Place>,
}

/// A finite map from the alive entities to the places of their rows, with the entities to come.
///
/// An entity is alive only while the version at its index equals its own, as in Unity. These rules are entsim's own:
/// the index freed last is given first, fresh indexes get a first version, an index with the last version is
/// retired, and at most [`MOST_ENTITIES`] entities are alive on [`MOST_INDEXES`] indexes.
///
/// ```text
/// table.reserve(1)?;
/// let e = table.make(place);
/// assert_eq!(table.place_of(e), Some(place));
/// table.free(e);
/// assert_eq!(table.place_of(e), None);
/// ```
#[derive(Drop)]
pub struct EntityTable {
    slots: Vec<Slot>,
    free: Vec<u32>,
    alive: u32,
    spare: u32,
    first_version: u32,
}

impl Model for EntityTable {
    ghost use Rattle.entity_table.specs.Table.{Spared};

    ghost Value = { Spared };

    ghost use Rattle.entity_table.specs.Slots.{spared_of, IsConsistent};

    ghost view = { spared_of };

    ghost invariant = { IsConsistent };
}

impl EntityTable {
    /// Returns the table of no entity, whose fresh indexes get this version. It takes no memory.
    pub fn new(alloc: Global, first_version: u32) -> EntityTable
        requires { 1 ≤ first_version }
        ensures { result ≡ record { table = empty_table first_version; spare = 0 } }
    {
        EntityTable {
            slots: Vec::new(alloc),
            free: Vec::new(alloc),
            alive: 0,
            spare: 0,
            first_version,
        }
    }

    /// Counts the alive entities, in one step.
    pub fn alive_count(&self) -> u32
        ensures value { result ≡ alive_count self.now.table }
        ensures bound { result ≤ MOST_ENTITIES }
    {
        self.alive
    }

    /// Counts how many more entities can be made.
    pub fn room(&self) -> u32
        ensures value { result ≡ room self.now.table }
        ensures spare { self.now.spare ≤ result }
        ensures made { made self.now.table ≤ MOST_INDEXES }
    {
        let indexes = self.free.len() as u32 + (MOST_INDEXES - self.slots.len() as u32);
        (MOST_ENTITIES - self.alive).min(indexes)
    }

    /// Takes the memory that `n` more calls of `make`, and the calls of `free` for their entities, need. It returns
    /// `Full` if and only if `n` is above the room. After a fault all is as before.
    pub fn reserve(&mut self, n: u32) -> Result<(), TableFault>
        ensures { Reserves self.old n self.new result }
    {
        if n > self.room() {
            return Err(TableFault::Full);
        }
        if n <= self.spare {
            return Ok(());
        }
        let fresh = (n as usize).saturating_sub(self.free.len());
        self.slots.reserve(fresh)?;
        let indexes = self.slots.len() + fresh;
        self.free.reserve(indexes - self.free.len())?;
        self.spare = n;
        Ok(())
    }

    /// Makes the next entity alive at a place: the one that was freed last or, if none is free, the next fresh index
    /// with the first version. It takes no memory: call `reserve` before.
    pub fn make(&mut self, place: Place) -> Entity
        requires { 1 ≤ self.old.spare }
        ensures value { result ≡ (given_by self.old.table).entity }
        ensures table { self.new.table ≡ with_made self.old.table place }
        ensures spare { self.new.spare ≡ self.old.spare - 1 }
        ensures version { 1 ≤ result.version }
        ensures made { made self.new.table ≤ MOST_INDEXES }
        ensures fresh { place_of self.old.table result ≡ None }
        ensures map { Rebinds self.old.table self.new.table result (Some place) }
    {
        self.spare -= 1;
        self.alive += 1;
        match self.free.pop() {
            Some(index) => {
                let slot = &mut self.slots[index as usize];
                slot.place = Some(place);
                Entity {
                    index,
                    version: slot.version,
                }
            }
            None => {
                let index = self.slots.len() as u32;
                let version = self.first_version;
                self.slots.push_reserved(Slot {
                    version,
                    place: Some(place),
                });
                Entity { index, version }
            }
        }
    }

    /// Ends an alive entity. Its index is given next, with the version raised by 1; an index with the last version
    /// is retired instead. It takes no memory.
    pub fn free(&mut self, e: Entity)
        requires { IsAlive self.old.table e }
        ensures table { self.new.table ≡ without self.old.table e }
        ensures spare { self.new.spare ≡ self.old.spare }
        ensures map { Rebinds self.old.table self.new.table e None }
    {
        self.alive -= 1;
        let slot = &mut self.slots[e.index as usize];
        slot.place = None;
        if let Some(version) = e.version.checked_add(1) {
            slot.version = version;
            self.free.push_reserved(e.index);
        }
    }

    /// Returns the place of an entity, or `None` if and only if it isn't alive. `Entity::NULL` never is.
    pub fn place_of(&self, e: Entity) -> Option<Place>
        ensures value { result ≡ place_of self.now.table e }
        ensures version { OnSome result (1 ≤ e.version) }
    {
        let slot = self.slots.get(e.index as usize)?;
        if slot.version == e.version {
            slot.place
        } else {
            None
        }
    }

    /// Returns the place of an entity as [`EntityTable::place_of`] does, and counts one step.
    pub fn find<L: Ledger>(&self, e: Entity, steps: &mut Steps<L>) -> Option<Place>
        ensures value { result ≡ place_of self.now.table e }
        ensures version { OnSome result (1 ≤ e.version) }
        ensures step { steps.new ≡ steps.old + 1 }
    {
        steps.tick();
        self.place_of(e)
    }

    /// Walks the alive entities with the places of their rows, by rising index.
    pub fn living(&self) -> Living<'_>
        ensures { result ≡ living self.now.table }
    {
        Living::new(&self.slots, 0)
    }

    /// Notes that the row of an alive entity has moved to another place.
    pub fn put_place(&mut self, e: Entity, place: Place)
        requires { IsAlive self.old.table e }
        ensures table { self.new.table ≡ with_place self.old.table e place }
        ensures spare { self.new.spare ≡ self.old.spare }
        ensures map { Rebinds self.old.table self.new.table e (Some place) }
    {
        self.slots[e.index as usize].place = Some(place);
    }

    /// Returns the entity that `make` returns after `k` further calls of `make`.
    pub fn ahead(&self, k: u32) -> Entity
        requires { k < room self.now.table }
        ensures { result ≡ ahead_of k self.now.table.free (made self.now.table) self.now.table.first_version }
    {
        let k = k as usize;
        let free = self.free.len();
        if k < free {
            let index = self.free[free - 1 - k];
            let version = self.slots[index as usize].version;
            Entity { index, version }
        } else {
            let index = (self.slots.len() + (k - free)) as u32;
            Entity {
                index,
                version: self.first_version,
            }
        }
    }
}
