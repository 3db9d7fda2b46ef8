//! The types that a system touches.
ghost use Rattle.std.specs.Prelude.{◌≡◌, ◌++◌, map, filter};
ghost use Rattle.ent_types.specs.Registries.{type_at};
ghost use Rattle.scenario_faults.specs.Checks.{lookup_fault, lookups_fault};
ghost use Rattle.scenario_faults.specs.Found.{with_types, set_of};
ghost use Rattle.scenario_faults.specs.Touched.{written, named_types, access_of};
ghost use Rattle.scenario_record.specs.Readings.{Passes};

use crate::each::{Test, each};
use crate::uses::{by_texts, put};
use ent_types::{Registry, TypeSet};
use expr_trees::{Assign, Switch};
use scenario_record::{Access, Cause, Scenario, ScenarioFault, SystemEntry, bad};
use std::alloc::Global;

fn with_assigned(assigns: &[Assign], before: TypeSet) -> TypeSet
    ensures { result ≡ with_types before (map (λ a. a.ty.0) assigns.now) }
{
    let mut found = before;
    for assign in assigns {
        found = put(found, assign.ty);
    }
    found
}

fn with_switched(switches: &[Switch], before: TypeSet) -> TypeSet
    ensures { result ≡ with_types before (map (λ w. w.ty.0) switches.now) }
{
    let mut found = before;
    for switch in switches {
        found = put(found, switch.ty);
    }
    found
}

/// Returns the types that a system writes.
#[tactic(auto, using(crate::proofs::UseLemmas::walks))]
fn written(system: &SystemEntry) -> TypeSet
    ensures { result ≡ set_of (written system.now) }
{
    let found = with_assigned(system.set.as_slice(), TypeSet::empty());
    with_switched(system.enable.as_slice(), found)
}

/// Returns the types of both sets.
fn with_set(types: &TypeSet, before: TypeSet) -> TypeSet
    ensures { result ≡ with_types before types.now }
{
    let mut found = before;
    for ty in types.iter() {
        found = put(found, ty);
    }
    found
}

/// Returns the set, with the enableable types of another set.
fn with_enableable(registry: &Registry, types: &TypeSet, before: TypeSet) -> TypeSet
    ensures { result ≡ with_types before (filter (λ ty. (type_at registry.now ty).enableable) types.now) }
{
    let mut found = before;
    for ty in types.iter() {
        if registry.is_enableable(ty) {
            found = put(found, ty);
        }
    }
    found
}

/// Returns the enableable types of the clauses of a system.
#[tactic(auto, using(crate::proofs::UseLemmas::names))]
fn named_by(registry: &Registry, system: &SystemEntry) -> TypeSet
    ensures { result ≡ set_of (named_types registry.now system.now) }
{
    let found = with_enableable(registry, &system.all, TypeSet::empty());
    let found = with_enableable(registry, &system.any, found);
    let found = with_enableable(registry, &system.none, found);
    let found = with_enableable(registry, &system.disabled, found);
    with_enableable(registry, &system.absent, found)
}

/// Returns the types that a system touches.
#[tactic(auto, using(crate::proofs::UseLemmas::reads))]
pub fn access_of(registry: &Registry, system: &SystemEntry) -> Access
    ensures { result ≡ access_of registry.now system.now }
{
    Access {
        reads: with_set(&system.changed, by_texts(system).read),
        writes: written(system),
        named: named_by(registry, system),
    }
}

/// A system looks up no type that it writes.
#[derive(Drop)]
struct LooksElsewhere;

impl Test for LooksElsewhere {
    type Item = SystemEntry;

    ghost fault = { λ _ y. lookup_fault y };

    #[tactic(auto, unfolding(crate::specs::Checks::lookup_fault), using(crate::proofs::UseLemmas::looks))]
    fn test(&self, alloc: Global, system: &SystemEntry) -> Result<(), ScenarioFault> {
        if by_texts(system).looked_up.meets(&written(system)) {
            return Err(bad(alloc, Cause::LookupOfWritten));
        }
        Ok(())
    }
}

/// Checks that no system looks up a type that it writes.
#[tactic(auto, unfolding(crate::specs::Checks::lookups_fault))]
pub fn lookups(alloc: Global, scenario: &Scenario) -> Result<(), ScenarioFault>
    ensures { Passes (lookups_fault scenario.now) result }
{
    each(alloc, "system", &LooksElsewhere, scenario.system.as_slice())
}
