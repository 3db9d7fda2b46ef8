//! The visits of a run: how they are selected, what is lent for them, and what is marked after them.
ghost use Rattle.std.specs.Prelude.{◌≡◌, ⊤, IfOk, OnErr, OnOk};
ghost use Rattle.world_model.specs.Members.{In};
ghost use Rattle.scenario_record.specs.declared.record.SystemEntry.{SystemEntry};
ghost use Rattle.run_model.specs.LawfulQuery.{IsLawfulFilter};
ghost use Rattle.query_select.specs.declared.visits.Visit.{Visit as VisitState};
ghost use Rattle.query_select.specs.Caches.{IsCacheOf, full_cache};
ghost use Rattle.query_select.specs.Entries.{IsEntryOf, entry_of, last_run, unfiltered};
ghost use Rattle.structural_ops.specs.Numbered.{HasBlock, with_each};
ghost use Rattle.phase_run.specs.After.{IsNumbered, loans_for, visit_marked, visits_in};

use crate::system_query::SystemQuery;
use ent_types::{Memory, Steps, SystemVersion, TypeSet};
use query_select::{Cache, Visit, select, systems_with_a_query_visit_alike};
use std::alloc::Global;
use std::sync::ledger::{Blank, Ledger};
use structural_ops::{LendPlan, World};

/// Says that each block has a number of its own. It does nothing.
pub(crate) fn is_numbered(world: &World)
    ensures { IsNumbered world.now }
{
    world.store().is_sound();
}

/// Returns the visits of a system with this query, and counts no steps.
pub(crate) fn select_visits<L: Ledger>(
    alloc: Global,
    world: &World,
    query: &SystemQuery,
    last: SystemVersion,
    cache: &mut Cache,
    blank: Blank,
) -> Result<Vec<Visit>, Memory>
    requires blank { (blank.name ≡ L.name) × (blank.parts ≡ L.parts) × (L.parts ≡ 1) }
    requires filter { IsLawfulFilter world.now.world.registry (entry_of query.now.query query.now.filter) }
    requires cache { IsCacheOf world.now.world.registry (unfiltered query.now.query) world.now.archetypes cache.old }
    ensures ok { IfOk result (λ visits. (s : SystemEntry) → IsEntryOf query.now.query query.now.filter s
        → visits.items ≡ visits_in world.now s (last_run last.0)) }
    ensures cache { OnOk result (cache.new ≡ full_cache world.now.world.registry (unfiltered query.now.query) world.now.archetypes) }
    ensures err { OnErr result (cache.new ≡ cache.old) }
{
    systems_with_a_query_visit_alike();
    let mut steps = Steps::<L>::new(blank);
    select(
        alloc,
        world,
        &query.query,
        &query.filter,
        last,
        cache,
        &mut steps,
    )
}

/// Returns the plan that lends some types of the block of each visit, in order.
pub(crate) fn plan_visits(
    alloc: Global,
    visits: &[Visit],
    types: &TypeSet,
) -> Result<LendPlan, Memory>
    ensures { IfOk result (λ plan. plan ≡ loans_for types.now visits.now) }
{
    let mut plan = LendPlan::new(alloc);
    for visit in visits {
        plan.add(visit.block, types)?;
    }
    Ok(plan)
}

/// Marks some types of the block of each visit with the present version. It takes no memory.
pub(crate) fn mark_visits(world: &mut World, visits: &[Visit], types: &TypeSet)
    requires { (v : VisitState) → In v visits.now → HasBlock v.block (λ _. ⊤) world.old }
    ensures { world.new ≡ with_each (visit_marked visits.now world.old.world.moment types.now) world.old }
{
    for visit in visits {
        world.mark_written(visit.block, types);
    }
}
