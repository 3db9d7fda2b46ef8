//! Laws of visits. Each is a function that does nothing, whose contract is the law.
ghost use Rattle.std.specs.Prelude.{◌≡◌, ℕ, List, Option, ◌++◌, length, map, option_map};
ghost use Rattle.ent_types.specs.declared.type_info.TypeInfo.{TypeInfo};
ghost use Rattle.system_version.specs.Versions.{version_of, IsVersion};
ghost use Rattle.world_model.specs.World.{Block, World};
ghost use Rattle.world_model.specs.Versions.{block_versions};
ghost use Rattle.scenario_record.specs.declared.record.SystemEntry.{SystemEntry};
ghost use Rattle.run_model.specs.Clock.{Clock, moments, versions};
ghost use Rattle.run_model.specs.Query.{visits};
ghost use Rattle.run_laws.specs.Versions.{HasMoments, IsLast};
ghost use Rattle.query_select.specs.declared.filter.Filter.{Filter};
ghost use Rattle.query_select.specs.declared.query.Query.{Query};
ghost use Rattle.query_select.specs.Caches.{CacheState, IsCacheOf};
ghost use Rattle.query_select.specs.Entries.{IsEntryOf, entry_of};
ghost use Rattle.query_select.specs.Visits.{numbered_visits};

/// The visits with numbers are those of a run, block for block.
pub fn numbered_visits_are_visits()
    ensures { (clock : Clock) (registry : List TypeInfo) (s : SystemEntry) (last : Option ℕ) (numbers : List ℕ) (blocks : List Block) → length numbers ≡ length blocks
        → map (λ v. v.rows) (numbered_visits clock registry s last numbers blocks) ≡ map (λ v. map (λ p. p.place) v.rows) (visits registry clock s last blocks) }
{}

/// A system visits what its query and its filter say, whatever else it has.
pub fn systems_with_a_query_visit_alike()
    ensures { (query : Query) (filter : Filter) (s : SystemEntry) → IsEntryOf query filter s
        → (clock : Clock) (registry : List TypeInfo) (last : Option ℕ) (numbers : List ℕ) (blocks : List Block)
        → numbered_visits clock registry (entry_of query filter) last numbers blocks ≡ numbered_visits clock registry s last numbers blocks }
{}

/// Versions of 32 bits stand for moments: with either, the same blocks are visited.
pub fn versions_stand_for_moments_in_visits()
    ensures { (first : ℕ) (s : SystemEntry) (last : Option ℕ) (numbers : List ℕ) (w : World) → IsVersion first → IsLast last → HasMoments w
        → numbered_visits versions w.registry s (option_map (version_of first) last) numbers (map (block_versions (version_of first)) w.blocks)
        ≡ numbered_visits (moments first) w.registry s last numbers w.blocks }
{}

/// A cache that was used in a world is of use after more archetypes were made.
pub fn a_cache_stays_with_more_archetypes()
    ensures { (registry : List TypeInfo) (s : SystemEntry) (archetypes more : List (List ℕ)) (c : CacheState)
        → IsCacheOf registry s archetypes c → IsCacheOf registry s (archetypes ++ more) c }
{}
