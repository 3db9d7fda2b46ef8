//! The run of a system on a world.
ghost use Rattle.std.specs.Prelude.{◌≡◌, ℕ, Option, [], length, IfOk, OnErr, OnOk};
ghost use Rattle.run_laws.specs.Runnable.{SystemRuns};
ghost use Rattle.query_select.specs.Caches.{IsCacheOf, full_cache};
ghost use Rattle.query_select.specs.Entries.{unfiltered};
ghost use Rattle.phase_run.specs.After.{AreVisitsOf, IsNumbered, LendsWrites, ran, rows_ran, visits_in, world_after};
ghost use Rattle.phase_run.specs.Queries.{IsQueryOf};

use crate::items::run_items;
use crate::system_query::SystemQuery;
use crate::visiting::{is_numbered, mark_visits, plan_visits, select_visits};
use ent_types::{Memory, SystemVersion};
use query_select::{Cache, Visit};
use scenario_record::SystemEntry;
use std::alloc::Global;
use std::marker::Brand;
use std::sync::ledger::Blank;
use structural_ops::{
    LendPlan, Loans, World, loans_bring_what_was_written, loans_come_in_any_order,
    the_rest_reads_as_before,
};

/// A world after the run of a system, and what the run counted.
#[derive(Drop)]
pub struct SystemRun {
    /// The world.
    pub world: World,
    /// How many blocks were visited.
    pub visits: u32,
    /// How many blocks have types that pass the query.
    pub passing: u32,
}

/// Does the texts of a system on the rows of its visits, and marks nothing. It takes no memory.
///
/// `lent` and `done` have room for a loan for each visit.
fn run_visits(
    world: World,
    system: &SystemEntry,
    frame: u32,
    visits: &[Visit],
    plan: &LendPlan,
    lent: Loans,
    done: Loans,
) -> World
    requires runs { SystemRuns world.world.registry system.now }
    requires numbers { IsNumbered world }
    requires visits { AreVisitsOf system.now visits.now world }
    requires plan { LendsWrites system.now visits.now plan.now }
    requires lent { lent ≡ record { loans = []; spare = length visits.now } }
    requires done { done ≡ record { loans = []; spare = length visits.now } }
    ensures { (last : Option ℕ) → visits.now ≡ visits_in world system.now last → result ≡ rows_ran system.now last frame world }
{
    world.is_lawful();
    the_rest_reads_as_before(&world);
    loans_bring_what_was_written(&world);
    let (frozen, lent) = world.freeze(plan, lent);
    let done = run_items(&frozen, system, frame, visits, lent, done);
    loans_come_in_any_order(&frozen);
    frozen.restore(done)
}

/// Runs a system that ran last at a version, or never if the version is 0. The world goes to the next version first, at which the
/// types that the system writes are marked in each block that it visits.
///
/// The system must not record commands. The cache must have been used with this query and this world alone. It takes memory for
/// each visit and none for each row, all of it before a row is written; after `Memory` the world is gone, and the cache is still of
/// use.
///
/// ```text
/// let query = SystemQuery::of(alloc, world.registry(), &system)?;
/// let run = run_system(alloc, world, &system, &query, last, frame, &mut cache)?;
/// last = run.world.version();
/// ```
pub fn run_system(
    alloc: Global,
    world: World,
    system: &SystemEntry,
    query: &SystemQuery,
    last: SystemVersion,
    frame: u32,
    cache: &mut Cache,
) -> Result<SystemRun, Memory>
    requires runs { SystemRuns world.world.registry system.now }
    requires no_commands { system.now.command ≡ [] }
    requires query { IsQueryOf system.now query.now }
    requires cache { IsCacheOf world.world.registry (unfiltered query.now.query) world.archetypes cache.old }
    ensures world { IfOk result (λ r. r.world ≡ world_after system.now last.0 frame world) }
    ensures visits { IfOk result (λ r. r.visits ≡ (ran system.now last.0 frame world).visits) }
    ensures passing { IfOk result (λ r. r.passing ≡ (ran system.now last.0 frame world).passing) }
    ensures cache { OnOk result (cache.new ≡ full_cache world.world.registry (unfiltered query.now.query) world.archetypes) }
    ensures err { OnErr result (IsCacheOf world.world.registry (unfiltered query.now.query) world.archetypes cache.new) }
{
    let mut world = world;
    world.raise();
    is_numbered(&world);
    let visits = select_visits::<Brand>(alloc, &world, query, last, cache, Blank::new(1))?;
    let passing = cache.passing(&world);
    let plan = plan_visits(alloc, &visits, &query.written)?;
    let count = visits.len() as u32;
    let lent = Loans::with_room(alloc, count)?;
    let done = Loans::with_room(alloc, count)?;
    let mut world = run_visits(world, system, frame, &visits, &plan, lent, done);
    mark_visits(&mut world, &visits, &query.written);
    Ok(SystemRun {
        world,
        visits: count,
        passing,
    })
}
