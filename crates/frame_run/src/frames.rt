//! Frames, one after another.
ghost use Rattle.std.specs.Prelude.{◌≡◌, ◌≤◌, List, IfOk};
ghost use Rattle.ent_io.specs.Text.{Writes};
ghost use Rattle.run_model.specs.Tasks.{tasks_of};
ghost use Rattle.run_laws.specs.Runnable.{IsRunnable};
ghost use Rattle.frame_run.specs.Doing.{stage_after, tasks_of_steps, text_of};
ghost use Rattle.frame_run.specs.Ending.{RunCauses};
ghost use Rattle.frame_run.specs.Runners.{IsReady, stage_of};
ghost use Rattle.frame_run.specs.Simple.{IsSimple};
ghost use Rattle.frame_run.specs.Stages.{no_files};

use crate::ends::RunEnd;
use crate::runner::Runner;
use crate::steps::{do_events_of, run_number};
use ent_io::Sink;
use scenario_record::{Scenario, Step};
use std::alloc::Global;
use structural_ops::World;

/// Does the steps of a frame, and returns the world after them.
fn run_frame<W: Sink>(
    alloc: Global,
    scenario: &Scenario,
    trace: bool,
    frame: u32,
    steps: &[Step],
    world: World,
    runners: &mut [Runner],
    out: &mut W,
) -> Result<World, RunEnd>
    requires runnable { IsRunnable scenario.now }
    requires simple { IsSimple scenario.now }
    requires frame { 1 ≤ frame }
    requires ready { IsReady scenario.now world runners.old }
    ensures ready { IfOk result (λ w. IsReady scenario.now w runners.new) }
    ensures stage { IfOk result (λ w. stage_of w runners.new ≡ stage_after scenario.now trace (tasks_of_steps scenario.now frame steps.now) (stage_of world runners.old)) }
    ensures text { Writes result (text_of scenario.now trace (tasks_of_steps scenario.now frame steps.now) (stage_of world runners.old)) (W.text out.old) (W.text out.new) }
    ensures causes { RunCauses result (W.faults out.old) (W.faults out.new) }
{
    let mut world = world;
    for step in steps {
        // The world is moved only where a system runs, since a move costs more than the other steps.
        match *step {
            Step::Events => do_events_of(alloc, scenario, frame, &mut world, out)?,
            Step::Play(_) => {
                world.raise();
            }
            Step::Run(number) => {
                world = run_number(alloc, scenario, trace, frame, number, world, runners, out)?;
            }
        }
    }
    Ok(world)
}

/// Runs all frames, each by these steps, and returns the world after them.
pub(crate) fn run_frames<W: Sink>(
    alloc: Global,
    scenario: &Scenario,
    trace: bool,
    steps: &[Step],
    world: World,
    runners: &mut [Runner],
    out: &mut W,
) -> Result<World, RunEnd>
    requires runnable { IsRunnable scenario.now }
    requires simple { IsSimple scenario.now }
    requires ready { IsReady scenario.now world runners.old }
    ensures stage { IfOk result (λ w. stage_of w runners.new ≡ stage_after scenario.now trace (tasks_of no_files scenario.now steps.now) (stage_of world runners.old)) }
    ensures text { Writes result (text_of scenario.now trace (tasks_of no_files scenario.now steps.now) (stage_of world runners.old)) (W.text out.old) (W.text out.new) }
    ensures causes { RunCauses result (W.faults out.old) (W.faults out.new) }
{
    let mut world = world;
    for before in 0..scenario.frames {
        world = run_frame(
            alloc,
            scenario,
            trace,
            before + 1,
            steps,
            world,
            runners,
            out,
        )?;
    }
    Ok(world)
}
