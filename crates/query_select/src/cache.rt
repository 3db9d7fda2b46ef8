//! The archetypes that match a query.
ghost use Rattle.std.specs.Prelude.{◌≡◌, ◌+◌, ◌-◌, ◌≤◌, ◌<◌, ℕ, [], ◌++◌, length, filter, take, vec_capacity, OnOk, OnErr};
ghost use Rattle.std.specs.List.{range_with_len};
ghost use Rattle.ent_types.specs.TypeLookups.{is_enableable_at};
ghost use Rattle.ent_types.specs.TypeSets.{has_type};
ghost use Rattle.world_model.specs.Members.{In, IsRising, tally};
ghost use Rattle.scenario_record.specs.declared.record.SystemEntry.{SystemEntry};
ghost use Rattle.archetype_store.specs.Stores.{types_at};
ghost use Rattle.run_model.specs.Query.{passes};
ghost use Rattle.query_select.specs.Caches.{IsCacheOf, full_cache};
ghost use Rattle.query_select.specs.Entries.{unfiltered};

use crate::query::Query;
use archetype_store::{ArchetypeId, ArchetypeStore};
use ent_types::{Memory, Registry, Steps, TypeSet};
use std::alloc::Global;
use std::marker::Model;
use std::sync::ledger::Ledger;
use structural_ops::World;

/// The archetypes that match one query in one world. Archetypes are only added to a world, so each is looked at once.
#[derive(Drop)]
pub struct Cache {
    matching: Vec<ArchetypeId>,
    seen: u32,
}

impl Model for Cache {
    ghost use Rattle.query_select.specs.Caches.{CacheState};

    ghost Value = { CacheState };

    ghost view = { λ c. record { matching = c.matching.items; seen = c.seen } };

    ghost use Rattle.world_model.specs.Members.{IsRising, In};
    ghost use Rattle.std.specs.Prelude.{ℕ, ◌<◌};

    ghost invariant = { λ c. IsRising c.matching.items × ((a : ℕ) → In a c.matching.items → a < c.seen) };
}

/// Returns those of some types that can be disabled.
fn enableable_among(registry: &Registry, types: &TypeSet) -> TypeSet
    ensures { (t : ℕ) → In t types.now → has_type result t ≡ is_enableable_at registry.now t }
{
    let mut enableable = TypeSet::empty();
    for ty in types.iter() {
        if registry.is_enableable(ty) {
            enableable = enableable.with(ty);
        }
    }
    enableable
}

/// Adds the archetypes from `seen` on that match, one step each. There is room for them.
fn add_matching<L: Ledger>(
    store: &ArchetypeStore,
    registry: &Registry,
    query: &Query,
    seen: u32,
    matching: &mut Vec<ArchetypeId>,
    steps: &mut Steps<L>,
)
    requires within { seen ≤ length store.now.archetypes }
    requires room { length matching.old.items + (length store.now.archetypes - seen) ≤ vec_capacity matching.old }
    ensures matching { matching.new.items ≡ matching.old.items
        ++ filter (λ a. passes registry.now (unfiltered query.now) (types_at store.now.archetypes a)) (range_with_len seen (length store.now.archetypes - seen)) }
    ensures steps { steps.new ≡ steps.old + (length store.now.archetypes - seen) }
{
    let enableable = enableable_among(registry, &query.none);
    for k in seen..store.archetypes() {
        steps.tick();
        let a = store.archetype_at(k);
        if query.matches_types(store.types_of(a), &enableable) {
            matching.push_reserved(a);
        }
    }
}

impl Cache {
    /// Returns the cache that has looked at no archetype. It takes no memory.
    pub fn new(alloc: Global) -> Cache
        ensures { result ≡ record { matching = []; seen = 0 } }
    {
        Cache {
            matching: Vec::new(alloc),
            seen: 0,
        }
    }

    /// Returns the archetypes that match among those that it has looked at.
    pub(crate) fn matching(&self) -> &[ArchetypeId]
        ensures value { result.now ≡ self.now.matching }
        ensures rising { IsRising self.now.matching }
        ensures seen { (a : ℕ) → In a self.now.matching → a < self.now.seen }
    {
        &self.matching
    }

    /// Returns how many archetypes it has looked at.
    pub(crate) fn seen(&self) -> u32
        ensures { result ≡ self.now.seen }
    {
        self.seen
    }

    /// Looks at the archetypes that were made since the last use, one step each.
    pub(crate) fn update<L: Ledger>(
        &mut self,
        store: &ArchetypeStore,
        registry: &Registry,
        query: &Query,
        steps: &mut Steps<L>,
    ) -> Result<(), Memory>
        requires { IsCacheOf registry.now (unfiltered query.now) store.now.archetypes self.old }
        ensures ok { OnOk result (self.new ≡ full_cache registry.now (unfiltered query.now) store.now.archetypes) }
        ensures err { OnErr result (self.new ≡ self.old) }
        ensures steps { steps.new ≤ steps.old + (length store.now.archetypes - self.old.seen) }
    {
        let made = store.archetypes();
        if made == self.seen {
            return Ok(());
        }
        self.matching.reserve((made - self.seen) as usize)?;
        add_matching(store, registry, query, self.seen, &mut self.matching, steps);
        self.seen = made;
        Ok(())
    }

    /// Goes back to an earlier state, in which it had looked at `seen` archetypes, of which `matching` matched.
    pub(crate) fn go_back(&mut self, matching: usize, seen: u32)
        requires { (a : ℕ) → In a (take matching self.old.matching) → a < seen }
        ensures { self.new ≡ record { matching = take matching self.old.matching; seen = seen } }
    {
        self.matching.truncate(matching);
        self.seen = seen;
    }

    /// Counts the blocks of a world whose types pass the query, if the cache has looked at all archetypes, as after [`select`]. It
    /// costs a look at each archetype that matches.
    ///
    /// [`select`]: crate::select
    pub fn passing(&self, world: &World) -> u32
        requires { self.now.seen ≤ length world.now.archetypes }
        ensures { (s : SystemEntry) → self.now ≡ full_cache world.now.world.registry s world.now.archetypes
            → result ≡ tally (λ b. passes world.now.world.registry s b.home.types) world.now.world.blocks }
    {
        let store = world.store();
        store.is_sound();
        let mut count = 0;
        for a in &self.matching {
            count += store.blocks_of(*a).len() as u32;
        }
        count
    }
}
