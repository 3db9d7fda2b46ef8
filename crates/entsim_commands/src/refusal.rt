//! Refusals: their lines, and the status that they end a command with.
ghost use Rattle.std.specs.Prelude.{◌≡◌, ◌++◌, ℕ, codes, IfOk, OnOk};
ghost use Rattle.std.specs.Fmt.{decimal};
ghost use Rattle.ent_io.specs.End.{Causes};
ghost use Rattle.ent_io.specs.Status.{StatusCauses};
ghost use Rattle.ent_io.specs.Text.{Writes};
ghost use Rattle.entsim_commands.specs.ErrorLines.{at_text, fault_line, key_text, missing_line, refusal_line};
ghost use Rattle.entsim_commands.specs.Headline.{Ends, OfBadWords, OfCommand};
ghost use Rattle.entsim_commands.specs.Outcome.{Outcome, bad_words, refused};
ghost use Rattle.entsim_commands.specs.Stops.{ComesTo, StopCause};

use crate::stop::{Refusal, Stop};
use ent_io::{End, Missing, Sink, Status, write_whole};
use scenario_record::{BadScenario, Cause};
use std::alloc::{AllocError, Global};

/// Returns the line for a scenario's file that can't be read.
#[tactic(auto, unfolding(crate::specs::ErrorLines::missing_line))]
fn missing_line(missing: Missing) -> &'static [u8]
    ensures { result.now ≡ missing_line missing }
{
    match missing {
        Missing::Absent => b"error scenario cause=Absent\n",
        Missing::TooLong => b"error scenario cause=TooLong\n",
    }
}

/// Appends the place of the invalid token, if a text is invalid.
fn push_at(alloc: Global, line: &mut Vec<u8>, at: Option<u32>) -> Result<(), AllocError>
    ensures { OnOk result (line.new.items ≡ line.old.items ++ at_text at) }
{
    let Some(at) = at else {
        return Ok(());
    };
    let digits = at.to_string(alloc)?;
    line.extend_from_slice(b" at=")?;
    line.extend_from_slice(digits.as_bytes())?;
    Ok(())
}

/// Appends where in the scenario the fault is.
fn push_key(alloc: Global, line: &mut Vec<u8>, fault: &BadScenario) -> Result<(), AllocError>
    ensures { OnOk result (line.new.items ≡ line.old.items ++ (codes " key=" ++ (fault.now.key ++ at_text fault.now.at))) }
{
    line.extend_from_slice(b" key=")?;
    line.extend_from_slice(fault.key.as_slice())?;
    push_at(alloc, line, fault.at)
}

/// Appends where a fault is. A fault of the whole file has no place.
fn push_place(alloc: Global, line: &mut Vec<u8>, fault: &BadScenario) -> Result<(), AllocError>
    ensures { OnOk result (line.new.items ≡ line.old.items ++ key_text fault.now.cause fault.now.key fault.now.at) }
{
    match fault.cause {
        Cause::NotToml | Cause::NotBuilt => Ok(()),
        _ => push_key(alloc, line, fault),
    }
}

/// Returns the line of an invalid scenario: the cause, and where the fault is.
#[tactic(auto, unfolding(crate::specs::ErrorLines::fault_line))]
fn fault_line(alloc: Global, fault: &BadScenario) -> Result<Vec<u8>, AllocError>
    ensures { IfOk result (λ line. line.items ≡ fault_line fault.now) }
{
    let mut line = Vec::from_slice(alloc, b"error scenario cause=")?;
    line.extend_from_slice(fault.cause.name().as_bytes())?;
    push_place(alloc, &mut line, fault)?;
    line.push(b'\n')?;
    Ok(line)
}

/// Returns the line of a refusal.
#[tactic(auto, unfolding(crate::specs::ErrorLines::unbuilt_line))]
fn refusal_line(alloc: Global, refusal: &Refusal) -> Result<Vec<u8>, AllocError>
    ensures { IfOk result (λ line. line.items ≡ refusal_line refusal.now) }
{
    match refusal {
        Refusal::Missing(missing) => Vec::from_slice(alloc, missing_line(*missing)),
        Refusal::Faulty(fault) => fault_line(alloc, fault),
        Refusal::NotBuilt => Vec::from_slice(alloc, b"error scenario cause=NotBuilt\n"),
    }
}

/// Writes the line of a refusal.
fn write_refusal<W: Sink>(alloc: Global, refusal: &Refusal, out: &mut W) -> Result<(), End>
    ensures text { Writes result (refusal_line refusal.now) (W.text out.old) (W.text out.new) }
    ensures causes { Causes result 0 0 (W.faults out.old) (W.faults out.new) }
{
    let line = refusal_line(alloc, refusal)?;
    write_whole(out, &line)?;
    Ok(())
}

/// Writes the line of words that are no command.
#[tactic(auto, unfolding(crate::specs::ErrorLines::words_line))]
pub fn refuse_words<W: Sink>(out: &mut W) -> Status
    ensures headline { Ends bad_words result (W.text out.old) (W.text out.new) }
    ensures words { OfBadWords result }
    ensures causes { StatusCauses result 0 0 (W.faults out.old) (W.faults out.new) }
{
    match write_whole(out, b"error words\n") {
        Ok(()) => Status::BadWords,
        Err(end) => Status::from(End::from(end)),
    }
}

/// Refuses a command: writes the line of the refusal.
pub fn refuse<W: Sink>(alloc: Global, refusal: &Refusal, out: &mut W) -> Status
    ensures headline { Ends (refused refusal.now) result (W.text out.old) (W.text out.new) }
    ensures words { OfCommand result }
    ensures causes { StatusCauses result 0 0 (W.faults out.old) (W.faults out.new) }
{
    match write_refusal(alloc, refusal, out) {
        Ok(()) => Status::Refused,
        Err(end) => Status::from(end),
    }
}

/// Ends a command that has no scenario to work on: writes the line of its refusal, if it is refused.
pub fn end_early<W: Sink>(alloc: Global, stop: &Stop, out: &mut W) -> Status
    ensures headline { (due : Outcome) → ComesTo stop.now due → Ends due result (W.text out.old) (W.text out.new) }
    ensures words { OfCommand result }
    ensures causes { (before now : ℕ) → StopCause stop.now before now → StatusCauses result before now (W.faults out.old) (W.faults out.new) }
{
    match stop {
        Stop::Refused(refusal) => refuse(alloc, refusal, out),
        Stop::ReadFault => Status::ReadFault,
        Stop::Memory => Status::Memory,
    }
}
