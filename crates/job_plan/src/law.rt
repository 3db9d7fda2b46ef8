//! The law that the plan of a scenario has the phases of its systems. It is the contract of a function that does nothing.
ghost use Rattle.std.specs.Prelude.{◌≡◌, ℕ, List, [], map};
ghost use Rattle.scenario_record.specs.declared.plan.Step.{Step};
ghost use Rattle.scenario_record.specs.declared.record.Scenario.{Scenario};
ghost use Rattle.scenario_record.specs.Lawful.{IsLawfulScenario};
ghost use Rattle.scenario_faults.specs.Touched.{access_of};
ghost use Rattle.run_model.specs.Tasks.{runs_in};
ghost use Rattle.run_model.specs.FrameParts.{parts_from, conflict_at, frame_parts};
ghost use Rattle.job_plan.specs.PlanParts.{access_conflict_at, is_running};

/// Two systems conflict by what a plan says of them if and only if they conflict. So the parts of a frame by the plan are
/// those of its scenario.
pub fn plans_have_the_phases_of_their_scenario()
    ensures conflicts { (s : Scenario) → IsLawfulScenario s → (n m : ℕ) → access_conflict_at (map (access_of s.registry) s.system) n m ≡ conflict_at s n m }
    ensures parts { (s : Scenario) → IsLawfulScenario s → (frame : ℕ) (steps : List Step)
        → parts_from (access_conflict_at (map (access_of s.registry) s.system)) (is_running (map (runs_in frame) s.system)) [] steps ≡ frame_parts s frame steps }
{}
