//! Laws over reading and checking: what holds of each scenario that was read, and of each that passes its checks.
//!
//! Each function does nothing. Its contract is the law, which callers get by the call.
#![tactic(auto)]

ghost use Rattle.std.specs.Prelude.{◌≡◌, ℕ, ◌+◌, ◌≤◌, List, length, Ok};
ghost use Rattle.ent_types.specs.Registries.{IsLawfulRegistry};
ghost use Rattle.scenario_record.specs.declared.plan.Plan.{Plan};
ghost use Rattle.scenario_record.specs.declared.record.Scenario.{Scenario};
ghost use Rattle.run_model.specs.Steps.{IsOrdered};
ghost use Rattle.run_laws.specs.Runnable.{IsRunnable};
ghost use Rattle.scenario_read.specs.ReadScenario.{scenario_of};
ghost use Rattle.scenario_check.specs.Read.{IsRead};
ghost use Rattle.scenario_check.specs.Planned.{plan_of, checked};

/// Each scenario that was read can be checked.
pub fn what_is_read_can_be_checked()
    ensures { (bytes : List ℕ) (s : Scenario) → scenario_of bytes ≡ Ok s → IsRead s }
{}

/// The registry of each scenario that was read is lawful.
pub fn what_is_read_has_a_lawful_registry()
    ensures { (bytes : List ℕ) (s : Scenario) → scenario_of bytes ≡ Ok s → IsLawfulRegistry s.registry }
{}

/// Each scenario that was read and passes its checks has what its run asks of it.
pub fn what_passes_is_runnable()
    ensures { (bytes : List ℕ) (s : Scenario) (plan : Plan) → scenario_of bytes ≡ Ok s → checked s ≡ Ok plan → IsRunnable s }
{}

/// The groups of each scenario that passes its checks can be ordered. Its plan has the steps of this order, each system
/// once.
pub fn what_passes_is_ordered()
    ensures ordered { (s : Scenario) (plan : Plan) → checked s ≡ Ok plan → IsOrdered s }
    ensures planned { (s : Scenario) (plan : Plan) → checked s ≡ Ok plan → plan ≡ plan_of s }
    ensures few { (s : Scenario) (plan : Plan) → checked s ≡ Ok plan → length plan.steps ≤ length s.system + 6 }
{}
