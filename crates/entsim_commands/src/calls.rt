//! Each command as a call of its own, which starts no thread and returns.
ghost use Rattle.std.specs.Prelude.{◌≡◌, IfSome};
ghost use Rattle.ent_io.specs.Status.{StatusCauses};
ghost use Rattle.entsim_commands.specs.Words.{check, layout, run};
ghost use Rattle.entsim_commands.specs.Outcome.{command_outcome, is_alone, run_outcome, scenario_in, unless_refused};
ghost use Rattle.entsim_commands.specs.Headline.{Ends, OfCommand};

use crate::checked::read_checked;
use crate::commands::{check_checked, layout_checked, run_checked};
use crate::refusal::{end_early, refuse};
use crate::stop::Refusal;
use ent_io::{Sink, Status, Store};
use std::alloc::Global;

/// Reads and checks the scenario of a file, and writes the numbers of its own types, its systems and its frames, or its
/// first fault.
///
/// The status is `Done` if the scenario passes, and `Refused` if the file is absent, longer than 1 MiB or invalid.
/// `ReadFault` is returned only if the store's count of faults rose, and `WriteFault` only if the sink's did. With these two
/// and `Memory` a prefix of the line was written. The files stay as they are. The line is entsim's own.
pub fn check_call<S: Store, W: Sink>(
    alloc: Global,
    scenario: &str,
    store: &mut S,
    out: &mut W,
) -> Status
    ensures headline { IfSome (S.files store.old) (λ files. Ends (command_outcome files (check scenario.now)) result (W.text out.old) (W.text out.new)) }
    ensures words { OfCommand result }
    ensures causes { StatusCauses result (S.faults store.old) (S.faults store.new) (W.faults out.old) (W.faults out.new) }
    ensures files { S.files store.new ≡ S.files store.old }
{
    match read_checked(alloc, scenario, store) {
        Ok(checked) => check_checked(alloc, &checked, out),
        Err(stop) => end_early(alloc, &stop, out),
    }
}

/// Reads and checks the scenario of a file, and writes the blocks of its world after the spawns, or its first fault. No
/// frame runs.
///
/// The statuses are those of `check_call`. `Refused` is also returned for a scenario of a form that isn't run yet. The lines
/// are entsim's own.
pub fn layout_call<S: Store, W: Sink>(
    alloc: Global,
    scenario: &str,
    store: &mut S,
    out: &mut W,
) -> Status
    ensures headline { IfSome (S.files store.old) (λ files. Ends (command_outcome files (layout scenario.now)) result (W.text out.old) (W.text out.new)) }
    ensures words { OfCommand result }
    ensures causes { StatusCauses result (S.faults store.old) (S.faults store.new) (W.faults out.old) (W.faults out.new) }
    ensures files { S.files store.new ≡ S.files store.old }
{
    match read_checked(alloc, scenario, store) {
        Ok(checked) => layout_checked(alloc, &checked, out),
        Err(stop) => end_early(alloc, &stop, out),
    }
}

/// `true` if one worker is asked for, as if none are named.
fn is_alone(workers: Option<u32>) -> bool
    ensures { result ≡ is_alone workers }
{
    match workers {
        None => true,
        Some(n) => n == 1,
    }
}

/// Runs the scenario of a file on one thread.
fn run_alone<S: Store, W: Sink>(
    alloc: Global,
    scenario: &str,
    trace: bool,
    store: &mut S,
    out: &mut W,
) -> Status
    ensures headline { IfSome (S.files store.old) (λ files. Ends (unless_refused (run_outcome trace) (scenario_in (files scenario.now))) result (W.text out.old) (W.text out.new)) }
    ensures words { OfCommand result }
    ensures causes { StatusCauses result (S.faults store.old) (S.faults store.new) (W.faults out.old) (W.faults out.new) }
    ensures files { S.files store.new ≡ S.files store.old }
{
    match read_checked(alloc, scenario, store) {
        Ok(checked) => run_checked(alloc, &checked, trace, store, out),
        Err(stop) => end_early(alloc, &stop, out),
    }
}

/// Reads and checks the scenario of a file, and runs it, or writes its first fault. The run writes a line for each event
/// that is skipped, with `trace` also a line for each run of a system, and at last the world after all frames.
///
/// A number of workers other than 1 is refused before anything is read, since it isn't built yet. The statuses are those of
/// `layout_call`. The lines are entsim's own.
pub fn run_call<S: Store, W: Sink>(
    alloc: Global,
    scenario: &str,
    workers: Option<u32>,
    trace: bool,
    store: &mut S,
    out: &mut W,
) -> Status
    ensures headline { IfSome (S.files store.old) (λ files. Ends (command_outcome files (run scenario.now workers trace)) result (W.text out.old) (W.text out.new)) }
    ensures words { OfCommand result }
    ensures causes { StatusCauses result (S.faults store.old) (S.faults store.new) (W.faults out.old) (W.faults out.new) }
    ensures files { S.files store.new ≡ S.files store.old }
{
    if !is_alone(workers) {
        return refuse(alloc, &Refusal::NotBuilt, out);
    }
    run_alone(alloc, scenario, trace, store, out)
}
