//! The steps of a frame.
ghost use Rattle.std.specs.Prelude.{◌≡◌, ◌≤◌, Bool, List, if◌then◌else◌, [], IfOk, OnOk};
ghost use Rattle.ent_io.specs.End.{TextCauses};
ghost use Rattle.ent_io.specs.Text.{Writes};
ghost use Rattle.scenario_record.specs.declared.plan.Step.TheVariants.{Events, Run as Runs};
ghost use Rattle.run_model.specs.declared.lines.TraceLine.TheVariants.{Run as RunLine};
ghost use Rattle.run_model.specs.Tasks.{runs_in};
ghost use Rattle.run_laws.specs.Runnable.{IsRunnable};
ghost use Rattle.world_text.specs.Lines.{trace_text};
ghost use Rattle.frame_run.specs.Ending.{RunCauses};
ghost use Rattle.frame_run.specs.declared.runner.Runner.{Runner as RunnerState};
ghost use Rattle.frame_run.specs.Runners.{IsReady, stage_of};
ghost use Rattle.frame_run.specs.Simple.{IsSimple};
ghost use Rattle.frame_run.specs.Doing.{stage_after, tasks_of_step, text_of};

use crate::ends::RunEnd;
use crate::events::do_events;
use crate::runner::Runner;
use ent_io::{Sink, TextEnd};
use ent_types::Name;
use phase_run::SystemRun;
use query_select::a_cache_stays_with_more_archetypes;
use run_model::TraceLine;
use scenario_record::{Scenario, SystemEntry};
use std::alloc::Global;
use structural_ops::World;
use world_text::write_trace;

/// `true` if a system runs in a frame.
fn runs_in(frame: u32, system: &SystemEntry) -> bool
    requires frame { 1 ≤ frame }
    requires every { 1 ≤ system.now.every }
    ensures { result ≡ runs_in frame system.now }
{
    (frame - 1) % system.every == 0
}

/// Writes the line of the run of a system, which recorded no commands.
fn write_run<W: Sink>(
    alloc: Global,
    frame: u32,
    system: Name,
    run: &SystemRun,
    out: &mut W,
) -> Result<(), TextEnd>
    ensures text { Writes result (trace_text (RunLine frame system run.now.world.world.moment run.now.visits run.now.passing 0)) (W.text out.old) (W.text out.new) }
    ensures causes { TextCauses result (W.faults out.old) (W.faults out.new) }
{
    let line = TraceLine::Run {
        frame,
        system,
        version: run.world.version().0,
        visits: run.visits,
        passing: run.passing,
        commands: 0,
    };
    write_trace(alloc, &line, out)
}

/// Writes the line of the run of a system, if the run of the scenario traces.
fn trace_run<W: Sink>(
    alloc: Global,
    trace: bool,
    frame: u32,
    system: Name,
    run: &SystemRun,
    out: &mut W,
) -> Result<(), TextEnd>
    ensures text { Writes result (if trace then trace_text (RunLine frame system run.now.world.world.moment run.now.visits run.now.passing 0) else []) (W.text out.old) (W.text out.new) }
    ensures causes { TextCauses result (W.faults out.old) (W.faults out.new) }
{
    if !trace {
        return Ok(());
    }
    write_run(alloc, frame, system, run, out)
}

/// Does the events of a frame, after the world went to the next version. The systems stay as they are.
pub(crate) fn do_events_of<W: Sink>(
    alloc: Global,
    scenario: &Scenario,
    frame: u32,
    world: &mut World,
    out: &mut W,
) -> Result<(), RunEnd>
    requires runnable { IsRunnable scenario.now }
    requires types { world.old.world.registry ≡ scenario.now.registry }
    ensures ready { OnOk result ((rs : List RunnerState) → IsReady scenario.now world.old rs → IsReady scenario.now world.new rs) }
    ensures stage { OnOk result ((trace : Bool) (rs : List RunnerState) → stage_of world.new rs ≡ stage_after scenario.now trace (tasks_of_step scenario.now frame Events) (stage_of world.old rs)) }
    ensures text { (trace : Bool) (rs : List RunnerState) → Writes result (text_of scenario.now trace (tasks_of_step scenario.now frame Events) (stage_of world.old rs)) (W.text out.old) (W.text out.new) }
    ensures causes { RunCauses result (W.faults out.old) (W.faults out.new) }
{
    world.raise();
    a_cache_stays_with_more_archetypes();
    do_events(alloc, frame, scenario.event.as_slice(), world, out)
}

/// Runs the system with a number, if it runs in the frame, and writes a line of it if the run traces. A number of no system does
/// nothing.
pub(crate) fn run_number<W: Sink>(
    alloc: Global,
    scenario: &Scenario,
    trace: bool,
    frame: u32,
    number: u32,
    world: World,
    runners: &mut [Runner],
    out: &mut W,
) -> Result<World, RunEnd>
    requires runnable { IsRunnable scenario.now }
    requires simple { IsSimple scenario.now }
    requires frame { 1 ≤ frame }
    requires ready { IsReady scenario.now world runners.old }
    ensures ready { IfOk result (λ w. IsReady scenario.now w runners.new) }
    ensures stage { IfOk result (λ w. stage_of w runners.new ≡ stage_after scenario.now trace (tasks_of_step scenario.now frame (Runs number)) (stage_of world runners.old)) }
    ensures text { Writes result (text_of scenario.now trace (tasks_of_step scenario.now frame (Runs number)) (stage_of world runners.old)) (W.text out.old) (W.text out.new) }
    ensures causes { RunCauses result (W.faults out.old) (W.faults out.new) }
{
    let Some(system) = scenario.system.as_slice().get(number as usize) else {
        return Ok(world);
    };
    if !runs_in(frame, system) {
        return Ok(world);
    }
    let run = runners[number as usize].run(alloc, world, system, frame)?;
    trace_run(alloc, trace, frame, system.name, &run, out)?;
    Ok(run.world)
}
