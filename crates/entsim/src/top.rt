//! The top call: from the words and the files to the text and the status.
ghost use Rattle.std.specs.Prelude.{◌≡◌, map, string_bytes, IfSome};
ghost use Rattle.ent_io.specs.Status.{StatusCauses};
ghost use Rattle.entsim_commands.specs.Words.{command_of, command_view};
ghost use Rattle.entsim_commands.specs.Outcome.{command_outcome, outcome};
ghost use Rattle.entsim_commands.specs.Headline.{Ends, OfCommand, WordsDecide};

use ent_io::{Gate, Sink, Status, Store};
use entsim_commands::{
    Command, Refusal, check_call, layout_call, read_words, refuse, refuse_words, run_call,
};
use std::alloc::Global;
use std::sync::Wait;
use std::thread::Threads;

/// Does the command that the arguments name, over the files of the store, and writes its text to the sink.
///
/// Whatever scenario files are read, the text and the status are those of the definition of a run: systems run one after
/// another in their order, and a filtered system visits exactly the blocks that were written since it last ran.
///
/// `run FILE` with one worker, with or without `--trace`, `check FILE` and `layout FILE` are built. Every other command is
/// `Refused` with the cause NotBuilt, and no file is read. Scenarios in which a system has commands, or an event loads or
/// unloads a scene, aren't run yet. `run` and `layout` refuse such a scenario with the same cause, after all its other
/// faults.
///
/// `BadWords` is returned if and only if the arguments aren't a command. A command that is built is `Refused` if and only if
/// the file is absent, longer than 1 MiB, invalid, or of a form that isn't run yet. `ReadFault` is returned only if the
/// store's count of faults rose in this call, and `WriteFault` only if the sink's did. With these two and `Memory` a prefix
/// of the text was written. The arguments, the lines and the statuses are entsim's own.
pub fn entsim<R: Threads + Wait, S: Store, W: Sink, G: Gate>(
    _rt: &R,
    alloc: Global,
    words: &[String],
    store: &mut S,
    out: &mut W,
    _gate: &G,
) -> Status
    ensures headline { IfSome (S.files store.old) (λ files. Ends (outcome (map string_bytes words.now) files) result (W.text out.old) (W.text out.new)) }
    ensures words { WordsDecide (command_of (map string_bytes words.now)) result }
    ensures causes { StatusCauses result (S.faults store.old) (S.faults store.new) (W.faults out.old) (W.faults out.new) }
    ensures files { S.files store.new ≡ S.files store.old }
{
    match read_words(words) {
        None => refuse_words(out),
        Some(command) => obey(alloc, command, store, out),
    }
}

/// Does what the command asks for.
fn obey<S: Store, W: Sink>(alloc: Global, command: Command, store: &mut S, out: &mut W) -> Status
    ensures headline { IfSome (S.files store.old) (λ files. Ends (command_outcome files (command_view command.entry)) result (W.text out.old) (W.text out.new)) }
    ensures words { OfCommand result }
    ensures causes { StatusCauses result (S.faults store.old) (S.faults store.new) (W.faults out.old) (W.faults out.new) }
    ensures files { S.files store.new ≡ S.files store.old }
{
    match command {
        Command::Run {
            file,
            workers,
            trace,
        } => run_call(alloc, file, workers, trace, store, out),
        Command::Check { file } => check_call(alloc, file, store, out),
        Command::Layout { file } => layout_call(alloc, file, store, out),
        Command::Plan { .. } => refuse(alloc, &Refusal::NotBuilt, out),
        Command::Dump { .. } => refuse(alloc, &Refusal::NotBuilt, out),
        Command::Make { .. } => refuse(alloc, &Refusal::NotBuilt, out),
        Command::Bench { .. } => refuse(alloc, &Refusal::NotBuilt, out),
    }
}
