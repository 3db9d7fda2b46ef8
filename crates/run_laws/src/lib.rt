//! Laws of runs. Each is a function that does nothing, whose contract is the law.
#![tactic(auto)]

ghost use Rattle.std.specs.Prelude.{◌≡◌, ◌↔◌, ℕ, ◌+◌, ◌≤◌, Bool, true, List, [], ◌∷◌, ◌++◌, length, map, filter, Option, option_map};
ghost use Rattle.std.specs.List.{flat_map, range_with_len};
ghost use Rattle.std.specs.List.Sorted.{IsPermutation, IsSortedBy};
ghost use Rattle.ent_types.specs.declared.type_info.TypeInfo.{TypeInfo};
ghost use Rattle.ent_types.specs.declared.limits.TheConstants.{MOST_FRAMES, MOST_MOMENTS, MOST_SYSTEMS};
ghost use Rattle.ent_types.specs.declared.point.Point.TheVariants.{BeginInitialization, EndInitialization, BeginSimulation, EndSimulation, BeginPresentation};
ghost use Rattle.ent_types.specs.Registries.{IsLawfulRegistry};
ghost use Rattle.system_version.specs.Versions.{version_of, IsMoment, IsVersion};
ghost use Rattle.world_model.specs.Members.{In, AreDistinct};
ghost use Rattle.world_model.specs.Lawful.{AreLawfulCells, HasRoomForParts, IsLawful};
ghost use Rattle.world_model.specs.World.{Home, Block, World, capacity};
ghost use Rattle.world_model.specs.Row.{Row};
ghost use Rattle.world_model.specs.Found.{Found};
ghost use Rattle.world_model.specs.Versions.{world_versions};
ghost use Rattle.expr_eval.specs.Values.{OtherRows};
ghost use Rattle.scenario_record.specs.declared.plan.Step.{Step};
ghost use Rattle.scenario_record.specs.declared.plan.Step.TheVariants.{Events, Play, Run};
ghost use Rattle.scenario_record.specs.declared.record.Scenario.{Scenario};
ghost use Rattle.scenario_record.specs.declared.record.SystemEntry.{SystemEntry};
ghost use Rattle.run_model.specs.Clock.{Clock, moments, versions};
ghost use Rattle.run_model.specs.Query.{matches, passes, visits};
ghost use Rattle.run_model.specs.LawfulQuery.{IsLawfulQuery, SomeBitsMatch};
ghost use Rattle.run_model.specs.Job.{Spot, writes};
ghost use Rattle.run_model.specs.Run.{Entry, cells_after, recorded_at, matched, rows_of_visits, run};
ghost use Rattle.run_model.specs.Buffers.{before, arranged, shared_key, shared_neighbours};
ghost use Rattle.run_model.specs.Playback.{playback};
ghost use Rattle.run_model.specs.Tasks.{Task};
ghost use Rattle.run_model.specs.Loads.{SceneFile};
ghost use Rattle.run_model.specs.Steps.{steps_of, IsOrdered, AreUnplaced};
ghost use Rattle.run_model.specs.Frames.{State, Goes, course_after, course_after_all, end_of_run};
ghost use Rattle.run_model.specs.Phases.{touches, phases, Turn, turn_of, AreApart, world_each, outputs_each, joined, joined_outputs};
ghost use Rattle.run_model.specs.PhaseSteps.{Numbered, number_of, tasks_of_phase, turns_of, after_phase};
ghost use Rattle.run_model.specs.FrameParts.{EventsPart, PointPart, system_numbers, frame_parts, phases_below, end_by_phases};
ghost use Rattle.run_model.specs.Outcome.{first_moment, course_of_first, outcome};
ghost use Rattle.run_laws.specs.Agree.{CellsAgree, RowAgree, OthersAgree};
ghost use Rattle.run_laws.specs.Entries.{AreDifferent};
ghost use Rattle.run_laws.specs.Lawful.{IsLawfulState, StepSuits, step_requests, task_requests, HasFewLoads, OnGoes, IsLawfulWith};
ghost use Rattle.run_laws.specs.Suits.{AllSuit, HasLawfulTexts, SystemSuits};
ghost use Rattle.run_laws.specs.Versions.{run_versions, end_versions, IsLast, HasMoments, state_versions, course_versions, StateHasMoments};

/// A row that matches has types that pass. So a block with a row that matches is never left out for its types.
pub fn rows_that_match_have_types_that_pass()
    ensures { (registry : List TypeInfo) (s : SystemEntry) (x : Found) → matches registry s x ≡ true → passes registry s x.home.types ≡ true }
{}

/// The types of a row pass a lawful query if and only if some choice of what is disabled in the row lets it match.
pub fn types_pass_if_some_bits_let_a_row_match()
    ensures { (registry : List TypeInfo) → IsLawfulRegistry registry → (s : SystemEntry) → IsLawfulQuery registry s
        → (x : Found) → AreLawfulCells registry x.home.types x.row.cells → (passes registry s x.home.types ≡ true) ↔ SomeBitsMatch registry s x }
{}

/// The items of a run are its visits: the blocks that it visits, in block order, each with its matching rows.
pub fn items_are_visits()
    ensures count { (clock : Clock) (s : SystemEntry) (last : Option ℕ) (frame : ℕ) (w : World)
        → (run clock s last frame w).visits ≡ length (visits w.registry clock s last w.blocks) }
    ensures rows { (clock : Clock) (registry : List TypeInfo) (s : SystemEntry) (last : Option ℕ) (blocks : List Block)
        → matched clock registry s last 0 blocks ≡ rows_of_visits 0 (visits registry clock s last blocks) }
{}

/// A job leaves each cell whose type its system doesn't write.
pub fn jobs_write_only_what_the_system_writes()
    ensures { (registry : List TypeInfo) (s : SystemEntry) (others : OtherRows) (spot : Spot) (x : Found)
        → CellsAgree (λ t. In t (writes s) → ⊥) x.row.cells (cells_after registry s others spot x) }
{}

/// A job reads only the types that its system touches. Two rows of one home that agree on these types, next to other rows
/// that agree on them, get cells that agree on them and record the same.
pub fn jobs_read_only_what_the_system_touches()
    ensures { (registry : List TypeInfo) (s : SystemEntry) (o p : OtherRows) → OthersAgree (λ t. In t (touches registry s)) o p
        → (spot : Spot) (home : Home) (r q : Row) → RowAgree (λ t. In t (touches registry s)) r q
        → CellsAgree (λ t. In t (touches registry s)) (cells_after registry s o spot (record { home = home; row = r })) (cells_after registry s p spot (record { home = home; row = q }))
        × (recorded_at registry s o spot (record { home = home; row = r }) ≡ recorded_at registry s p spot (record { home = home; row = q })) }
{}

/// No two entries of a buffer agree in item, row and number. A buffer is some of the entries of one run.
pub fn entries_of_a_buffer_differ()
    ensures { (clock : Clock) (s : SystemEntry) (last : Option ℕ) (frame : ℕ) (w : World) (goes : Entry → Bool)
        → AreDifferent (filter goes (run clock s last frame w).entries) }
{}

/// The entries of a buffer in another order, which is sorted by the order of playback, are the arranged ones.
pub fn sorted_entries_are_arranged()
    ensures { (es fs : List Entry) → AreDifferent es → IsPermutation es fs → IsSortedBy before fs → arranged es ≡ fs }
{}

/// In playback order the first two neighbours with one key and two items have the least shared key and its two least items,
/// so one pass over a sorted buffer finds it.
pub fn neighbours_have_the_shared_key()
    ensures { (es : List Entry) → shared_neighbours (arranged es) ≡ shared_key es }
{}

/// In a lawful world of which the moment isn't too late, every mark is a moment of a run.
pub fn lawful_worlds_have_moments()
    ensures { (capacity : List ℕ → ℕ) (w : World) → IsLawful capacity w → w.moment ≤ MOST_MOMENTS → HasMoments w }
{}

/// Versions of 32 bits stand for moments in a run of a system: it visits the same blocks, and records the same.
pub fn versions_stand_for_moments_in_a_run()
    ensures { (first : ℕ) (s : SystemEntry) (last : Option ℕ) (frame : ℕ) (w : World) → IsVersion first → IsLast last → HasMoments w
        → run versions s (option_map (version_of first) last) frame (world_versions (version_of first) w)
        ≡ run_versions (version_of first) (run (moments first) s last frame w) }
{}

/// Versions of 32 bits stand for moments in each step of a run: it writes the same lines, and the state after it has versions
/// instead of moments.
pub fn versions_stand_for_moments_in_a_step()
    ensures { (first : ℕ) (capacity : List ℕ → ℕ) (trace : Bool) (st : State) (t : Task) → IsVersion first → StateHasMoments st
        → course_after versions capacity trace (state_versions (version_of first) st) t
        ≡ course_versions (version_of first) (course_after (moments first) capacity trace st t) }
{}

/// Versions of 32 bits stand for moments in the whole run of a scenario, which begins with its first system version: the
/// same lines are written, and the world has versions instead of moments.
pub fn versions_stand_for_moments_in_a_scenario()
    ensures { (trace : Bool) (files : List ℕ → SceneFile) (s : Scenario) → IsVersion s.first_system_version → IsOrdered s → s.frames ≤ MOST_FRAMES → length s.system ≤ MOST_SYSTEMS
        → end_of_run versions (capacity s.registry) trace files s (steps_of s) s.first_system_version
        ≡ end_versions (version_of s.first_system_version) (outcome trace files s) }
{}

/// A phase of systems that don't conflict is the fold of its systems. What their items make of the first world, put
/// together, is the world after all systems one after another; and each system visits the same blocks and records the same.
pub fn phases_are_the_fold_of_their_systems()
    ensures { (clock : Clock) (frame : ℕ) (w : World) (js : List Turn) → AreApart w.registry js
        → (world_each clock frame js w ≡ joined clock frame js w) × (outputs_each clock frame js w ≡ joined_outputs clock frame w w.moment js) }
{}

/// No two systems of a phase conflict, and the phases in order hold all systems in order.
pub fn phases_hold_all_systems_apart()
    ensures apart { (registry : List TypeInfo) (last : SystemEntry → Option ℕ) (ss q : List SystemEntry) → In q (phases registry ss)
        → AreApart registry (map (turn_of last) q) }
    ensures whole { (registry : List TypeInfo) (ss : List SystemEntry) → flat_map (λ q. q) (phases registry ss) ≡ ss }
{}

/// A phase of systems that don't conflict is one step of a run: it makes the state that the steps of its systems make one
/// after another, with its waiting buffers and its lines.
pub fn phases_are_steps_of_a_run()
    ensures { (clock : Clock) (capacity : List ℕ → ℕ) (trace : Bool) (frame : ℕ) (ss : List Numbered) → AreDistinct (map number_of ss) → (st : State)
        → AreApart st.world.registry (turns_of clock capacity trace st ss)
        → course_after_all clock capacity trace (tasks_of_phase frame ss) (Goes st) ≡ Goes (after_phase clock capacity trace frame ss st) }
{}

/// If no key places a system, the steps of a frame are those of today's plans: all systems in declared order, as those of
/// Simulation.
pub fn unplaced_systems_run_in_declared_order()
    ensures { (s : Scenario) → AreUnplaced s → steps_of s
        ≡ Events ∷ Play BeginInitialization ∷ Play EndInitialization ∷ Play BeginSimulation ∷
        (map (λ n. Run n) (range_with_len 0 (length s.system)) ++ (Play EndSimulation ∷ Play BeginPresentation ∷ [])) }
{}

/// The steps of a frame have no system twice.
pub fn steps_have_each_system_once()
    ensures { (s : Scenario) → IsOrdered s → AreDistinct (system_numbers (steps_of s)) }
{}

/// The phases of a frame are those of the running systems of each root. No phase crosses a point.
pub fn phases_are_those_of_each_root()
    ensures { (s : Scenario) (frame : ℕ) → frame_parts s frame (steps_of s)
        ≡ EventsPart ∷ PointPart BeginInitialization ∷ (phases_below s frame 0 ++ (PointPart EndInitialization ∷
        PointPart BeginSimulation ∷ (phases_below s frame 1 ++ (PointPart EndSimulation ∷
        PointPart BeginPresentation ∷ phases_below s frame 2)))) }
{}

/// A run with the systems of each phase side by side ends as the run with one system after another.
pub fn phases_are_the_fold_of_the_steps()
    ensures steps { (clock : Clock) (capacity : List ℕ → ℕ) (trace : Bool) (files : List ℕ → SceneFile) (s : Scenario) (steps : List Step)
        → AreDistinct (system_numbers steps) → (moment : ℕ)
        → end_by_phases clock capacity trace files s steps moment ≡ end_of_run clock capacity trace files s steps moment }
    ensures outcome { (trace : Bool) (files : List ℕ → SceneFile) (s : Scenario) → IsOrdered s
        → outcome trace files s ≡ end_by_phases (moments s.first_system_version) (capacity s.registry) trace files s (steps_of s) first_moment }
{}

/// A run has at most MOST_MOMENTS moments, so versions of 32 bits can stand for them.
pub fn runs_have_few_moments()
    ensures { (trace : Bool) (files : List ℕ → SceneFile) (s : Scenario) → IsOrdered s → s.frames ≤ MOST_FRAMES → length s.system ≤ MOST_SYSTEMS
        → (n : ℕ) → OnGoes (λ st. IsMoment st.world.moment) (course_of_first trace files s n) }
{}

/// A run keeps a world lawful, if no assignment of the system writes a dynamic buffer, and each enable text switches an
/// enableable type.
pub fn runs_keep_worlds_lawful()
    ensures { (capacity : List ℕ → ℕ) (first : ℕ) (s : SystemEntry) (last : Option ℕ) (frame : ℕ) (w : World) → HasLawfulTexts w.registry s
        → IsLawful capacity w → IsLawful capacity (run (moments first) s last frame w).world }
{}

/// The entries of a run suit the types of the world, if the commands of its system do.
pub fn recorded_entries_suit_the_world()
    ensures { (clock : Clock) (s : SystemEntry) (last : Option ℕ) (frame : ℕ) (w : World) → SystemSuits w.registry s
        → AllSuit w.registry (run clock s last frame w).entries }
{}

/// Playback keeps a world lawful, if each entry asks for an operation that suits the world's types.
pub fn playback_keeps_worlds_lawful()
    ensures { (capacity : List ℕ → ℕ) → HasRoomForParts capacity → (w : World) (entries : List Entry) → AllSuit w.registry entries
        → IsLawful capacity w → IsLawful capacity (playback capacity w entries).world }
{}

/// A step of a frame keeps a state lawful, also with loads that are pending, scenes that move in and scenes that are unloaded.
/// The step's requests are the new loads.
pub fn steps_keep_states_lawful()
    ensures { (capacity : List ℕ → ℕ) → HasRoomForParts capacity → (first : ℕ) (trace : Bool) (registry : List TypeInfo) (st : State) (t : Task)
        → StepSuits registry t.step → HasFewLoads (step_requests t.step) st → IsLawfulState capacity registry st
        → OnGoes (IsLawfulWith capacity registry (length st.loads + step_requests t.step)) (course_after (moments first) capacity trace st t) }
{}

/// All steps of a run keep a state lawful, if they suit its types and request no more scenes than a scenario has events.
pub fn runs_keep_states_lawful()
    ensures { (capacity : List ℕ → ℕ) → HasRoomForParts capacity → (first : ℕ) (trace : Bool) (registry : List TypeInfo) (st : State) (ts : List Task)
        → ((t : Task) → In t ts → StepSuits registry t.step) → HasFewLoads (task_requests ts) st → IsLawfulState capacity registry st
        → OnGoes (IsLawfulWith capacity registry (length st.loads + task_requests ts)) (course_after_all (moments first) capacity trace ts (Goes st)) }
{}
