//! The table of interned values: a slot for each id, a stack of the free ids, and a map from keys to ids.
ghost use Rattle.std.specs.Prelude.{◌≡◌, ◌+◌, ◌<◌, ℕ, [], OnOk, OnErr, Some, ◌≤◌, length, min, vec_capacity, IfOk, IsTrue, ◌↔◌};
ghost use Rattle.shared_values.specs.Holds.{slot_at, type_of, values_of, holds_of, IsHeld, vacant, AreOneEach, IsIdFor, IsFoundFor, IsFreeId, ChangesTo, held_once_more, held_once_less};
ghost use Rattle.shared_values.specs.Tables.{IsFor};
ghost use Rattle.shared_values.specs.Keys.{same_key};
ghost use Rattle.std.specs.HashMap.{IsUnchanged, Updates};

use crate::key::Key;
use ent_types::{Memory, TypeId, Values};
use std::alloc::Global;
use std::collections::HashMap;
use std::marker::Model;

/// The number of interned values. It is used again once nobody holds it. Contracts see the number.
#[derive(Clone, Copy, Debug, PartialEq, Eq, PartialOrd, Ord, Hash)]
pub struct SharedId(pub(crate) usize);

impl Model for SharedId {
    ghost use Rattle.std.specs.Prelude.{ℕ};
    ghost use Rattle.std.specs.Coded.{coded_ℕ};

    ghost Value = { ℕ };

    ghost coded = { coded_ℕ };

    ghost view = { λ id. id.0 };

    ghost inverse = { λ n. record { 0 = n } };
}

/// The greatest count of holders. A count that has come to it stays there, so its id is never free again.
pub const MOST_HOLDS: u64 = u64::MAX;

/// What is kept for an id: its type and values, and how often it is held. A free one is held 0 times.
#[derive(Drop)]
struct Slot {
    key: Key,
    holds: u64,
}

impl Slot {
    /// Returns the slot of an id that nobody holds. It takes no memory.
    fn vacant(alloc: Global) -> Slot
        ensures { result ≡ vacant }
    {
        let key = Key {
            ty: TypeId(0),
            values: Values::new(alloc),
        };
        Slot { key, holds: 0 }
    }
}

/// Interned values: for each id how often it is held, its type and its values.
///
/// No two held ids have the same type and values. Contracts see the list of the slots by id; an id that nobody holds
/// has type 0 and no values. This table is entsim's own.
///
/// ```text
/// let id = table.intern(team, &values)?;
/// assert!(table.intern(team, &values)? == id);
/// table.release(id);
/// table.release(id);
/// ```
#[derive(Drop)]
pub struct SharedTable {
    slots: Vec<Slot>,
    free: Vec<usize>,
    ids: HashMap<Key, usize>,
}

impl Model for SharedTable {
    ghost use Rattle.std.specs.Prelude.{List};
    ghost use Rattle.shared_values.specs.declared.table.Slot.{Slot as Held};

    ghost Value = { List Held };

    ghost use Rattle.shared_values.specs.Tables.{IsConsistent};

    ghost view = { λ t. t.slots.items };

    ghost invariant = { IsConsistent };
}

impl SharedTable {
    /// Returns the table in which nothing is held. It takes no memory.
    pub fn new(alloc: Global) -> SharedTable
        ensures { result ≡ [] }
    {
        SharedTable {
            slots: Vec::new(alloc),
            free: Vec::new(alloc),
            ids: HashMap::new(alloc),
        }
    }

    /// Returns the id of these values of this type, held once more.
    ///
    /// If no held id has them, it is an id that nobody holds: a released one, or a fresh one if there is none. After
    /// `Memory` all is as before. The values are copied for a new id only.
    pub fn intern(&mut self, ty: TypeId, values: &Values) -> Result<SharedId, Memory>
        ensures answer { IfOk result (IsIdFor self.old ty.0 values.now) }
        ensures held { IfOk result (λ id. ChangesTo self.old self.new id (held_once_more self.old id ty.0 values.now)) }
        ensures one_each { AreOneEach self.new }
        ensures err { OnErr result (self.new ≡ self.old) }
    {
        let id = self.id_for(ty, values);
        self.has_one_each();
        id
    }

    /// Returns the id that is held for these values of this type, or `None` if and only if none is.
    pub fn find(&self, ty: TypeId, values: &Values) -> Result<Option<SharedId>, Memory>
        ensures { IfOk result (IsFoundFor self.now ty.0 values.now) }
    {
        let wanted = Key::of(*self.slots.allocator(), ty, values)?;
        Ok(self.id_of(&wanted))
    }

    /// Returns the id that is held for a key.
    fn id_of(&self, key: &Key) -> Option<SharedId>
        ensures { IsFoundFor self.now key.now.ty.0 key.now.values result }
    {
        match self.ids.get(key) {
            Some(id) => Some(SharedId(*id)),
            None => None,
        }
    }

    /// Returns the id of these values of this type, held once more.
    fn id_for(&mut self, ty: TypeId, values: &Values) -> Result<SharedId, Memory>
        ensures answer { IfOk result (IsIdFor self.old ty.0 values.now) }
        ensures held { IfOk result (λ id. ChangesTo self.old self.new id (held_once_more self.old id ty.0 values.now)) }
        ensures err { OnErr result (self.new ≡ self.old) }
    {
        let key = Key::of(*self.slots.allocator(), ty, values)?;
        match self.ids.get(&key).copied() {
            Some(id) => Ok(self.hold(id)),
            None => self.give(key),
        }
    }

    /// Says what always holds: no two held ids have one type and the same values. It does nothing.
    pub fn has_one_each(&self)
        ensures { AreOneEach self.now }
    {
        let _ = &self.slots;
    }

    /// Holds an id once more.
    fn hold(&mut self, id: usize) -> SharedId
        requires { IsHeld self.old id }
        ensures answer { result ≡ id }
        ensures held { ChangesTo self.old self.new id (record (slot_at self.old id) { holds = min (holds_of self.old id + 1) MOST_HOLDS }) }
    {
        let slot = &mut self.slots[id];
        slot.holds = slot.holds.saturating_add(1);
        SharedId(id)
    }

    /// Holds an id that nobody holds once, for a key that no id has.
    fn give(&mut self, key: Key) -> Result<SharedId, Memory>
        requires { (id : ℕ) → IsFor self.old id key → ⊥ }
        ensures answer { IfOk result (IsFreeId self.old) }
        ensures held { IfOk result (λ id. ChangesTo self.old self.new id (record { key = key; holds = 1 })) }
        ensures err { OnErr result (self.new ≡ self.old) }
    {
        let alloc = *self.slots.allocator();
        if let Some(id) = self.free.last().copied() {
            enter(alloc, &mut self.ids, &key, id)?;
            self.free.pop();
            self.slots[id] = Slot { key, holds: 1 };
            return Ok(SharedId(id));
        }
        let id = next_id(&mut self.slots, &mut self.free)?;
        enter(alloc, &mut self.ids, &key, id)?;
        self.slots.push_reserved(Slot { key, holds: 1 });
        Ok(SharedId(id))
    }

    /// Holds an id once less. At the last release its values are dropped, and the id is free. It takes no memory.
    pub fn release(&mut self, id: SharedId)
        requires { IsHeld self.old id }
        ensures { ChangesTo self.old self.new id (held_once_less (slot_at self.old id)) }
    {
        if self.slots[id.0].holds == MOST_HOLDS {
            return;
        }
        let alloc = *self.slots.allocator();
        let slot = &mut self.slots[id.0];
        if slot.holds > 1 {
            slot.holds -= 1;
            return;
        }
        self.ids.remove(&slot.key);
        *slot = Slot::vacant(alloc);
        self.free.push_reserved(id.0);
    }

    /// Counts how often an id is held: how much more often `intern` returned it than it was released. The count stops
    /// at `u64::MAX`.
    pub fn holds(&self, id: SharedId) -> u64
        ensures { result ≡ holds_of self.now id }
    {
        match self.slots.get(id.0) {
            Some(slot) => slot.holds,
            None => 0,
        }
    }

    /// `true` if two ids have the same type and values, which is if and only if they are the same id.
    pub fn are_equal(&self, a: SharedId, b: SharedId) -> bool
        requires a_held { IsHeld self.now a }
        requires b_held { IsHeld self.now b }
        ensures same { IsTrue result ↔ ((type_of self.now a ≡ type_of self.now b) × (values_of self.now a ≡ values_of self.now b)) }
        ensures one_each { AreOneEach self.now }
    {
        self.has_one_each();
        a == b
    }

    /// Returns the values of an id.
    pub fn values_of(&self, id: SharedId) -> &Values
        requires { IsHeld self.now id }
        ensures value { result.now ≡ values_of self.now id }
        ensures one_each { AreOneEach self.now }
    {
        self.has_one_each();
        &self.slots[id.0].key.values
    }
}

/// Maps a copy of the key to an id.
fn enter(alloc: Global, ids: &mut HashMap<Key, usize>, key: &Key, id: usize) -> Result<(), Memory>
    ensures ok { OnOk result (Updates same_key ids.old ids.new key.now (Some id)) }
    ensures err { OnErr result (IsUnchanged ids.old ids.new) }
{
    let key = Key::of(alloc, key.ty, &key.values)?;
    ids.insert(key, id)?;
    Ok(())
}

/// Returns the next fresh id, and takes the memory for its slot and, on the empty stack of the free ids, for all ids.
fn next_id(slots: &mut Vec<Slot>, free: &mut Vec<usize>) -> Result<usize, Memory>
    requires { free.old.items ≡ [] }
    ensures id { IfOk result (λ id. id ≡ length slots.old.items) }
    ensures slots_room { OnOk result (length slots.new.items < vec_capacity slots.new) }
    ensures free_room { OnOk result (length slots.new.items + 1 ≤ vec_capacity free.new) }
    ensures slots_stay { slots.new.items ≡ slots.old.items }
    ensures free_stays { free.new.items ≡ free.old.items }
    ensures capacity { vec_capacity free.old ≤ vec_capacity free.new }
{
    let id = slots.len();
    slots.reserve(1)?;
    free.reserve(id + 1)?;
    Ok(id)
}
