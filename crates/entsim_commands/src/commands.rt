//! What each command makes of a scenario that passed its checks.
ghost use Rattle.std.specs.Prelude.{◌≡◌};
ghost use Rattle.ent_io.specs.End.{Causes};
ghost use Rattle.ent_io.specs.Status.{StatusCauses};
ghost use Rattle.ent_io.specs.Text.{Writes};
ghost use Rattle.run_model.specs.Steps.{IsOrdered};
ghost use Rattle.run_laws.specs.Runnable.{IsRunnable};
ghost use Rattle.entsim_commands.specs.CheckLine.{ok_line};
ghost use Rattle.entsim_commands.specs.Headline.{Ends, OfCommand};
ghost use Rattle.entsim_commands.specs.Outcome.{check_outcome, layout_after_spawns, layout_outcome, run_outcome, whole};
ghost use Rattle.entsim_commands.specs.Passed.{HasPassed};

use crate::check_line::ok_line;
use crate::checked::Checked;
use crate::refusal::refuse;
use crate::stop::Refusal;
use ent_io::{End, Sink, Status, Store, write_whole};
use frame_run::run_frames_serial;
use scenario_check::is_built;
use scenario_record::Scenario;
use std::alloc::Global;
use world_spawns::spawned;
use world_text::write_layout;

/// Runs a scenario on one thread, and writes the lines of its run, if the scenario is of a form that is run.
pub fn run_checked<S: Store, W: Sink>(
    alloc: Global,
    checked: &Checked,
    trace: bool,
    store: &mut S,
    out: &mut W,
) -> Status
    requires { HasPassed checked.now }
    ensures headline { Ends (run_outcome trace checked.now) result (W.text out.old) (W.text out.new) }
    ensures words { OfCommand result }
    ensures causes { StatusCauses result (S.faults store.old) (S.faults store.new) (W.faults out.old) (W.faults out.new) }
    ensures files { S.files store.new ≡ S.files store.old }
{
    if !is_built(&checked.scenario) {
        return refuse(alloc, &Refusal::NotBuilt, out);
    }
    run_frames_serial(alloc, &checked.scenario, &checked.plan, trace, store, out)
}

/// Writes the line of a scenario that passed its checks.
fn write_check<W: Sink>(alloc: Global, scenario: &Scenario, out: &mut W) -> Result<(), End>
    ensures text { Writes result (ok_line scenario.now) (W.text out.old) (W.text out.new) }
    ensures causes { Causes result 0 0 (W.faults out.old) (W.faults out.new) }
{
    let line = ok_line(alloc, scenario)?;
    write_whole(out, &line)?;
    Ok(())
}

/// Writes the numbers of a scenario's own types, its systems and its frames.
pub fn check_checked<W: Sink>(alloc: Global, checked: &Checked, out: &mut W) -> Status
    ensures headline { Ends (check_outcome checked.now) result (W.text out.old) (W.text out.new) }
    ensures words { OfCommand result }
    ensures causes { StatusCauses result 0 0 (W.faults out.old) (W.faults out.new) }
{
    match write_check(alloc, &checked.scenario, out) {
        Ok(()) => Status::Done,
        Err(end) => Status::from(end),
    }
}

/// Writes the layout of the world after a scenario's spawns.
fn write_layout_after_spawns<W: Sink>(
    alloc: Global,
    scenario: &Scenario,
    out: &mut W,
) -> Result<(), End>
    requires runnable { IsRunnable scenario.now }
    requires ordered { IsOrdered scenario.now }
    ensures text { Writes result (layout_after_spawns scenario.now) (W.text out.old) (W.text out.new) }
    ensures causes { Causes result 0 0 (W.faults out.old) (W.faults out.new) }
{
    let Ok(world) = spawned(alloc, scenario) else {
        return Err(End::Memory);
    };
    write_layout(alloc, &world, out)?;
    Ok(())
}

/// Writes the blocks of a scenario's world after its spawns.
fn show_layout<W: Sink>(alloc: Global, scenario: &Scenario, out: &mut W) -> Status
    requires runnable { IsRunnable scenario.now }
    requires ordered { IsOrdered scenario.now }
    ensures headline { Ends (whole (layout_after_spawns scenario.now)) result (W.text out.old) (W.text out.new) }
    ensures words { OfCommand result }
    ensures causes { StatusCauses result 0 0 (W.faults out.old) (W.faults out.new) }
{
    match write_layout_after_spawns(alloc, scenario, out) {
        Ok(()) => Status::Done,
        Err(end) => Status::from(end),
    }
}

/// Writes the blocks of a scenario's world after its spawns, if the scenario is of a form that is run.
pub fn layout_checked<W: Sink>(alloc: Global, checked: &Checked, out: &mut W) -> Status
    requires { HasPassed checked.now }
    ensures headline { Ends (layout_outcome checked.now) result (W.text out.old) (W.text out.new) }
    ensures words { OfCommand result }
    ensures causes { StatusCauses result 0 0 (W.faults out.old) (W.faults out.new) }
{
    if !is_built(&checked.scenario) {
        return refuse(alloc, &Refusal::NotBuilt, out);
    }
    show_layout(alloc, &checked.scenario, out)
}
