//! All checks of a scenario in order, and the plan of one that passes.
ghost use Rattle.std.specs.Prelude.{◌≡◌, None};
ghost use Rattle.scenario_record.specs.Readings.{Answers, Passes, unless};
ghost use Rattle.scenario_faults.specs.Checks.{first_fault, names_fault};
ghost use Rattle.scenario_check.specs.Planned.{planned, checked};
ghost use Rattle.scenario_check.specs.Read.{IsRead};

use crate::planning::ordered;
use scenario_faults::access::lookups;
use scenario_faults::events::events;
use scenario_faults::names::{names, parents};
use scenario_faults::siblings::siblings;
use scenario_faults::spawns::spawns;
use scenario_record::{Cause, Plan, Scenario, ScenarioFault, bad, whole_fault};
use std::alloc::Global;

/// Returns the plan of a scenario. A scenario whose keys place a group or a system has none yet.
fn planned(alloc: Global, scenario: &Scenario) -> Result<Plan, ScenarioFault>
    requires read { IsRead scenario.now }
    requires names { names_fault scenario.now ≡ None }
    ensures { Answers (planned scenario.now) result }
{
    if scenario.placed {
        return Err(bad(alloc, Cause::NotBuilt));
    }
    ordered(alloc, scenario)
}

/// Runs all checks in order; the first that fails gives the fault.
fn each_check(alloc: Global, scenario: &Scenario) -> Result<(), ScenarioFault>
    ensures { Passes (first_fault scenario.now) result }
{
    names(alloc, scenario)?;
    parents(alloc, scenario)?;
    siblings(alloc, scenario)?;
    spawns(alloc, scenario)?;
    lookups(alloc, scenario)?;
    events(alloc, scenario)
}

fn checked_plan(alloc: Global, scenario: &Scenario) -> Result<Plan, ScenarioFault>
    requires { IsRead scenario.now }
    ensures { Answers (unless (first_fault scenario.now) (planned scenario.now)) result }
{
    each_check(alloc, scenario)?;
    planned(alloc, scenario)
}

/// Checks a scenario that was read, and returns its plan or its first fault.
///
/// The names of groups and systems are checked first, then the groups that they are children of, the names in their
/// `before` and `after`, the spawns, the look-ups of systems, and the events, each list in order. Last comes the order of
/// the groups: `Cycle` is the fault of a group or system that precedes itself through a chain of its siblings. A scenario
/// in which a key places a group or a system passes all other checks and is then `NotBuilt`. `Memory` is returned only if
/// memory runs out.
#[tactic(auto, unfolding(crate::specs::Planned::checked))]
pub fn check(alloc: Global, scenario: &Scenario) -> Result<Plan, ScenarioFault>
    requires { IsRead scenario.now }
    ensures { Answers (checked scenario.now) result }
{
    match checked_plan(alloc, scenario) {
        Ok(plan) => Ok(plan),
        Err(fault) => Err(whole_fault(alloc, fault)),
    }
}
