//! The whole run on one thread.
ghost use Rattle.std.specs.Prelude.{◌≡◌, ℕ, List};
ghost use Rattle.ent_io.specs.Status.{StatusCauses};
ghost use Rattle.ent_io.specs.Text.{Writes};
ghost use Rattle.run_model.specs.Loads.{SceneFile};
ghost use Rattle.run_model.specs.Outcome.{outcome};
ghost use Rattle.run_model.specs.Steps.{IsOrdered, steps_of};
ghost use Rattle.run_laws.specs.Runnable.{IsRunnable};
ghost use Rattle.frame_run.specs.Doing.{run_text};
ghost use Rattle.frame_run.specs.Ending.{EndsAs, RunCauses};
ghost use Rattle.frame_run.specs.Simple.{IsSimple};

use crate::ends::RunEnd;
use crate::frames::run_frames;
use crate::runner::runners_of;
use ent_io::{End, Sink, Status, Store};
use run_laws::versions_stand_for_moments_in_a_scenario;
use scenario_record::{Plan, Scenario, Step};
use std::alloc::Global;
use world_spawns::spawned;
use world_text::{lines_show_no_version, write_world};

/// Runs a scenario, and writes the lines of the run and those of the world after its last frame.
fn write_run<W: Sink>(
    alloc: Global,
    scenario: &Scenario,
    steps: &[Step],
    trace: bool,
    out: &mut W,
) -> Result<(), RunEnd>
    requires runnable { IsRunnable scenario.now }
    requires simple { IsSimple scenario.now }
    ensures text { Writes result (run_text scenario.now trace steps.now) (W.text out.old) (W.text out.new) }
    ensures causes { RunCauses result (W.faults out.old) (W.faults out.new) }
{
    let world = spawned(alloc, scenario)?;
    let mut runners = runners_of(alloc, &scenario.registry, scenario.system.as_slice())?;
    let world = run_frames(alloc, scenario, trace, steps, world, &mut runners, out)?;
    write_world(alloc, &world, scenario.frames, out)?;
    Ok(())
}

/// Runs a scenario on one thread, frame by frame, by the steps of its plan. It writes a line for each event that is skipped, a line
/// for each run of a system if it traces, and the world after the last frame.
///
/// No system may record commands, and no event may load or unload a scene. So the store isn't read. The plan must be the one that
/// `check` of `scenario_check` gives for the scenario.
///
/// `WriteFault` comes only if the sink's count of faults rose. With it and with `Memory` a prefix of the text was written. It costs
/// what the operations of its events and the runs of its systems cost, and for each frame a look at all events.
pub fn run_frames_serial<S: Store, W: Sink>(
    alloc: Global,
    scenario: &Scenario,
    plan: &Plan,
    trace: bool,
    _store: &mut S,
    out: &mut W,
) -> Status
    requires runnable { IsRunnable scenario.now }
    requires simple { IsSimple scenario.now }
    requires ordered { IsOrdered scenario.now }
    requires plan { plan.now.steps ≡ steps_of scenario.now }
    ensures run { (files : List ℕ → SceneFile) → EndsAs scenario.now.frames (outcome trace files scenario.now) result (W.text out.old) (W.text out.new) }
    ensures causes { StatusCauses result (S.faults _store.old) (S.faults _store.new) (W.faults out.old) (W.faults out.new) }
    ensures files { S.files _store.new ≡ S.files _store.old }
{
    versions_stand_for_moments_in_a_scenario();
    lines_show_no_version();
    match write_run(alloc, scenario, plan.steps.as_slice(), trace, out) {
        Ok(()) => Status::Done,
        Err(end) => Status::from(End::from(end.cause)),
    }
}
