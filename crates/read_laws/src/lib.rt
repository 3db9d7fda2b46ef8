//! Laws over reading: what holds of each scenario that was read.
//!
//! Each function does nothing. Its contract is the law, which callers get by the call.
#![tactic(auto)]

ghost use Rattle.std.specs.Prelude.{◌≡◌, ℕ, List, Ok};
ghost use Rattle.scenario_record.specs.declared.record.Scenario.{Scenario};
ghost use Rattle.scenario_record.specs.Lawful.{IsLawfulScenario};
ghost use Rattle.scenario_read.specs.ReadScenario.{scenario_of};

/// Each scenario that was read keeps the limits, names known types, and has texts that name only what their place has.
pub fn what_is_read_is_lawful()
    ensures { (bytes : List ℕ) (s : Scenario) → scenario_of bytes ≡ Ok s → IsLawfulScenario s }
{}
