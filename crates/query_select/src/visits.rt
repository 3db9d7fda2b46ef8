//! The visits of a system: blocks, and the rows of each that match.
ghost use Rattle.std.specs.Prelude.{◌≡◌, ◌+◌, ◌≤◌, ◌<◌, ℕ, List, ◌++◌, length, map, sum_by, IfOk, OnErr, OnOk};
ghost use Rattle.std.specs.List.{flat_map};
ghost use Rattle.ent_types.specs.declared.type_info.TypeInfo.{TypeInfo};
ghost use Rattle.world_model.specs.Members.{In, IsRising};
ghost use Rattle.archetype_store.specs.Stores.{Numbered, OfNumber, numbers_in, registry_of};
ghost use Rattle.world_places.specs.Placing.{numbers_of, world_blocks};
ghost use Rattle.run_model.specs.Clock.{versions};
ghost use Rattle.run_model.specs.LawfulQuery.{IsLawfulFilter};
ghost use Rattle.query_select.specs.Caches.{IsCacheOf, full_cache};
ghost use Rattle.query_select.specs.declared.filter.Filter.{Filter as FilterState};
ghost use Rattle.query_select.specs.Entries.{entry_of, last_run, unfiltered};
ghost use Rattle.query_select.specs.Filters.{CanFilter};
ghost use Rattle.query_select.specs.Visits.{AreFilterable, CanSelect, IsWholeOf, blocks_among, candidates_at, most_steps, numbered_visits, visits_at, visits_if};

use crate::cache::Cache;
use crate::filter::Filter;
use crate::query::Query;
use archetype_store::{ArchetypeId, ArchetypeStore};
use enable_bits::Mask;
use ent_types::{Memory, Registry, Steps, SystemVersion};
use std::alloc::Global;
use std::sync::ledger::Ledger;
use structural_ops::World;

/// A block that a system visits, and its rows that match.
#[derive(Clone, Copy, Debug)]
pub struct Visit {
    /// The number of the block.
    pub block: u32,
    /// The rows that match. There is one at least.
    pub rows: Mask,
}

/// A block that passes the filter, with its rank in block order.
#[derive(Clone, Copy)]
struct Candidate {
    rank: u64,
    number: u32,
}

/// Adds the block of a number if the filter lets it pass.
fn add_candidate(
    store: &ArchetypeStore,
    filter: &Filter,
    last: SystemVersion,
    number: u32,
    found: &mut Vec<Candidate>,
) -> Result<(), Memory>
    requires { OfNumber number (CanFilter filter.now) store.now.blocks }
    ensures { OnOk result (found.new.items ≡ found.old.items ++ candidates_at store.now filter.now last.0 number) }
{
    if !filter.passes(store, number, last) {
        return Ok(());
    }
    let rank = store.rank(number);
    found.push(Candidate { rank, number })?;
    Ok(())
}

/// Adds the blocks of an archetype that the filter lets pass, one step each.
fn add_candidates<L: Ledger>(
    store: &ArchetypeStore,
    filter: &Filter,
    last: SystemVersion,
    a: ArchetypeId,
    found: &mut Vec<Candidate>,
    steps: &mut Steps<L>,
) -> Result<(), Memory>
    requires there { a < length store.now.archetypes }
    requires ready { (n : ℕ) → In n (numbers_in a store.now.blocks) → OfNumber n (CanFilter filter.now) store.now.blocks }
    ensures ok { OnOk result (found.new.items ≡ found.old.items ++ flat_map (candidates_at store.now filter.now last.0) (numbers_in a store.now.blocks)) }
    ensures steps { steps.new ≤ steps.old + length (numbers_in a store.now.blocks) }
{
    for number in store.blocks_of(a) {
        steps.tick();
        add_candidate(store, filter, last, *number, found)?;
    }
    Ok(())
}

/// Returns the blocks of some archetypes that the filter lets pass: one step for each archetype, and one for each block.
fn candidates<L: Ledger>(
    alloc: Global,
    store: &ArchetypeStore,
    filter: &Filter,
    last: SystemVersion,
    matching: &[ArchetypeId],
    steps: &mut Steps<L>,
) -> Result<Vec<Candidate>, Memory>
    requires there { (a : ℕ) → In a matching.now → a < length store.now.archetypes }
    requires ready { (a : ℕ) → In a matching.now → AreFilterable filter.now store.now a }
    ensures ok { IfOk result (λ found. found.items ≡ flat_map (λ a. flat_map (candidates_at store.now filter.now last.0) (numbers_in a store.now.blocks)) matching.now) }
    ensures steps { steps.new ≤ steps.old + (length matching.now + sum_by (λ a. length (numbers_in a store.now.blocks)) matching.now) }
{
    let mut found = Vec::new(alloc);
    for a in matching {
        steps.tick();
        add_candidates(store, filter, last, *a, &mut found, steps)?;
    }
    Ok(found)
}

/// Adds the visit of the block of a number if it has a row that matches.
fn add_visit(
    store: &ArchetypeStore,
    query: &Query,
    number: u32,
    visits: &mut Vec<Visit>,
) -> Result<(), Memory>
    requires { OfNumber number (IsWholeOf (registry_of store.now)) store.now.blocks }
    ensures { OnOk result ((filter : FilterState) → visits.new.items ≡ visits.old.items ++ visits_at store.now (entry_of query.now filter) number) }
{
    let rows = query.row_mask(store.block(number));
    if rows.count() == 0 {
        return Ok(());
    }
    visits.push(Visit {
        block: number,
        rows,
    })?;
    Ok(())
}

/// Returns the visits of those blocks that have a row that matches.
fn visits_of(
    alloc: Global,
    store: &ArchetypeStore,
    query: &Query,
    candidates: &[Candidate],
) -> Result<Vec<Visit>, Memory>
    requires { (c : Candidate) → In c candidates.now → OfNumber c.number (IsWholeOf (registry_of store.now)) store.now.blocks }
    ensures { IfOk result (λ visits. (filter : FilterState) → visits.items ≡ flat_map (λ c. visits_at store.now (entry_of query.now filter) c.number) candidates.now) }
{
    let mut visits = Vec::new(alloc);
    for candidate in candidates {
        add_visit(store, query, candidate.number, &mut visits)?;
    }
    Ok(visits)
}

/// Returns the visits to the blocks of some archetypes, in block order. Blocks of several archetypes are put in order by their ranks.
fn visits_among<L: Ledger>(
    alloc: Global,
    store: &ArchetypeStore,
    query: &Query,
    filter: &Filter,
    last: SystemVersion,
    matching: &[ArchetypeId],
    steps: &mut Steps<L>,
) -> Result<Vec<Visit>, Memory>
    requires rising { IsRising matching.now }
    requires there { (a : ℕ) → In a matching.now → a < length store.now.archetypes }
    requires ready { (a : ℕ) → In a matching.now → AreFilterable filter.now store.now a }
    requires whole { (b : Numbered) → In b store.now.blocks → IsWholeOf (registry_of store.now) b }
    ensures ok { IfOk result (λ visits. visits.items ≡ flat_map (visits_if store.now (entry_of query.now filter.now) filter.now last.0) (blocks_among matching.now store.now.blocks)) }
    ensures steps { steps.new ≤ steps.old + (length matching.now + length (blocks_among matching.now store.now.blocks)) }
{
    store.is_sound();
    let mut found = candidates(alloc, store, filter, last, matching, steps)?;
    found.sort_unstable_by_key(|candidate| candidate.rank);
    visits_of(alloc, store, query, &found)
}

/// Returns the visits to the blocks of a store, as [`select`] does to those of a world.
fn select_in<L: Ledger>(
    alloc: Global,
    store: &ArchetypeStore,
    registry: &Registry,
    query: &Query,
    filter: &Filter,
    last: SystemVersion,
    cache: &mut Cache,
    steps: &mut Steps<L>,
) -> Result<Vec<Visit>, Memory>
    requires ready { CanSelect registry.now store.now }
    requires filter { IsLawfulFilter registry.now (entry_of query.now filter.now) }
    requires cache { IsCacheOf registry.now (unfiltered query.now) store.now.archetypes cache.old }
    ensures ok { IfOk result (λ visits. visits.items ≡ numbered_visits versions registry.now (entry_of query.now filter.now) (last_run last.0) (numbers_of store.now.blocks) (world_blocks store.now.blocks)) }
    ensures cache { OnOk result (cache.new ≡ full_cache registry.now (unfiltered query.now) store.now.archetypes) }
    ensures err { OnErr result (cache.new ≡ cache.old) }
    ensures steps { steps.new ≤ steps.old + most_steps registry.now (unfiltered query.now) store.now.archetypes (world_blocks store.now.blocks) cache.old.seen }
{
    store.is_sound();
    let (matching, seen) = (cache.matching().len(), cache.seen());
    cache.update(store, registry, query, steps)?;
    match visits_among(alloc, store, query, filter, last, cache.matching(), steps) {
        Ok(visits) => Ok(visits),
        Err(fault) => {
            cache.go_back(matching, seen);
            Err(fault)
        }
    }
}

/// Returns the visits of a system that ran last at a version, or never if the version is 0: the blocks in block order, each with its
/// rows that match.
///
/// A block is visited if its types pass the query, it has the values of the filter's shared types, it passes the change filter, and
/// some row of it matches. The cache must have been used with this query and this world alone; after `Memory` it is as before. Each
/// archetype that the cache hasn't seen costs a step, and so does each that matches, and each block of these. Blocks of several
/// archetypes are sorted by their ranks.
///
/// ```text
/// let visits = select(alloc, &world, &query, &filter, last, &mut cache, &mut steps)?;
/// for visit in &visits {
///     run_job(world.block(visit.block), &visit.rows);
/// }
/// ```
pub fn select<L: Ledger>(
    alloc: Global,
    world: &World,
    query: &Query,
    filter: &Filter,
    last: SystemVersion,
    cache: &mut Cache,
    steps: &mut Steps<L>,
) -> Result<Vec<Visit>, Memory>
    requires filter { IsLawfulFilter world.now.world.registry (entry_of query.now filter.now) }
    requires cache { IsCacheOf world.now.world.registry (unfiltered query.now) world.now.archetypes cache.old }
    ensures ok { IfOk result (λ visits. visits.items ≡ numbered_visits versions world.now.world.registry (entry_of query.now filter.now) (last_run last.0) world.now.numbers world.now.world.blocks) }
    ensures cache { OnOk result (cache.new ≡ full_cache world.now.world.registry (unfiltered query.now) world.now.archetypes) }
    ensures err { OnErr result (cache.new ≡ cache.old) }
    ensures steps { steps.new ≤ steps.old + most_steps world.now.world.registry (unfiltered query.now) world.now.archetypes world.now.world.blocks cache.old.seen }
{
    world.is_lawful();
    let store = world.store();
    store.is_sound();
    select_in(
        alloc,
        store,
        world.registry(),
        query,
        filter,
        last,
        cache,
        steps,
    )
}
