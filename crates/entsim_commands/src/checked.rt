//! The scenario of a file, read and checked.
ghost use Rattle.std.specs.Prelude.{IfOk, IfSome, ◌≡◌};
ghost use Rattle.entsim_commands.specs.Outcome.{and_then, checked_of, read_from, scenario_in};
ghost use Rattle.entsim_commands.specs.Passed.{HasPassed};
ghost use Rattle.entsim_commands.specs.Stops.{Answers, StopCauses};

use crate::stop::Stop;
use ent_io::{Store, read_whole};
use ent_types::limits::LONGEST_SCENARIO;
use scenario_check::check;
use scenario_laws::{what_is_read_can_be_checked, what_passes_is_ordered, what_passes_is_runnable};
use scenario_read::read_scenario;
use scenario_record::{Plan, Scenario};
use std::alloc::Global;

/// A scenario that passed its checks, and its plan.
#[derive(Drop)]
pub struct Checked {
    /// The scenario.
    pub scenario: Scenario,
    /// What its frames do, and what its systems touch.
    pub plan: Plan,
}

/// Reads a scenario from the bytes of a file, checks it and plans its frames.
fn checked_from(alloc: Global, bytes: &[u8]) -> Result<Checked, Stop>
    ensures answer { Answers (and_then checked_of (read_from bytes.now)) result }
    ensures passed { IfOk result HasPassed }
    ensures causes { StopCauses result 0 0 }
{
    what_is_read_can_be_checked();
    what_passes_is_runnable();
    what_passes_is_ordered();
    let scenario = read_scenario(alloc, bytes)?;
    let plan = check(alloc, &scenario)?;
    Ok(Checked { scenario, plan })
}

/// Reads the scenario of a file, checks it and plans its frames.
pub fn read_checked<S: Store>(alloc: Global, name: &str, store: &mut S) -> Result<Checked, Stop>
    ensures answer { IfSome (S.files store.old) (λ files. Answers (scenario_in (files name.now)) result) }
    ensures passed { IfOk result HasPassed }
    ensures causes { StopCauses result (S.faults store.old) (S.faults store.new) }
    ensures files { S.files store.new ≡ S.files store.old }
{
    let bytes = read_whole(alloc, store, name, LONGEST_SCENARIO)?;
    checked_from(alloc, &bytes)
}
