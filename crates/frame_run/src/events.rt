//! The events of a frame.
ghost use Rattle.std.specs.Prelude.{◌≡◌, ℕ, ◌≤◌, length, IfOk, OnOk};
ghost use Rattle.std.specs.List.{flat_map};
ghost use Rattle.ent_io.specs.End.{TextCauses};
ghost use Rattle.ent_io.specs.Text.{Writes};
ghost use Rattle.ent_types.specs.declared.limits.TheConstants.{MOST_EVENTS};
ghost use Rattle.world_model.specs.Members.{In};
ghost use Rattle.world_model.specs.World.{capacity};
ghost use Rattle.scenario_record.specs.declared.record.EventEntry.{EventEntry as Event};
ghost use Rattle.run_model.specs.Frames.{event_lines};
ghost use Rattle.run_model.specs.Tasks.{frame_event_of};
ghost use Rattle.run_laws.specs.Runnable.{ActRuns, OperationRuns};
ghost use Rattle.structural_ops.specs.Worlds.{Grows};
ghost use Rattle.command_texts.specs.Events.{event_skips};
ghost use Rattle.world_text.specs.Lines.{lines_text, note_text};
ghost use Rattle.frame_run.specs.Stages.{after_event, after_events, answer_to, events_at, lines_of_event, lines_of_events, no_files};
ghost use Rattle.frame_run.specs.Ending.{RunCauses};

use crate::ends::RunEnd;
use command_record::Entry;
use command_texts::{command_of, commands_of_events_play_as_defined, commands_of_events_suit};
use ent_io::{Sink, TextEnd};
use ent_types::{Memory, Sequence};
use expr_trees::CommandText;
use playback::{Note, play};
use run_model::NoteLine;
use scenario_record::{EventAct, EventEntry};
use std::alloc::Global;
use std::slice;
use structural_ops::World;
use world_spawns::{NoOthers, NoRow};
use world_text::write_note;

/// Plays the command of an event's text, and returns a note if it was skipped.
fn play_event(
    alloc: Global,
    frame: u32,
    act: &CommandText,
    world: &mut World,
) -> Result<Sequence<Note>, Memory>
    requires { OperationRuns world.old.world.registry act.now }
    ensures notes { IfOk result (λ notes. (k : ℕ) → event_skips frame k notes ≡ event_lines frame k (answer_to frame act.now world.old.world).reply) }
    ensures world { OnOk result (world.new.world ≡ (answer_to frame act.now world.old.world).world) }
    ensures archetypes { OnOk result (Grows world.old.archetypes world.new.archetypes) }
{
    commands_of_events_suit();
    commands_of_events_play_as_defined();
    let row = NoRow { n: 0, frame };
    let command = command_of(alloc, world.registry(), &row, &NoOthers, 0, act)?;
    let entry = Entry {
        key: 0,
        item: 0,
        row: 0,
        number: 0,
        command,
    };
    play(alloc, world, slice::from_ref(&entry))
}

/// Writes a line for each note of an event, which has this place in the list.
fn write_skips<W: Sink>(
    alloc: Global,
    frame: u32,
    number: u32,
    notes: &[Note],
    out: &mut W,
) -> Result<(), TextEnd>
    ensures text { Writes result (flat_map note_text (event_skips frame number notes.now)) (W.text out.old) (W.text out.new) }
    ensures causes { TextCauses result (W.faults out.old) (W.faults out.new) }
{
    for note in notes {
        let line = NoteLine::EventSkip {
            frame,
            event: number,
            skip: note.skip,
        };
        write_note(alloc, &line, out)?;
    }
    Ok(())
}

/// Does the operation of an event, and writes a line if it is skipped.
fn operate<W: Sink>(
    alloc: Global,
    frame: u32,
    number: u32,
    act: &CommandText,
    world: &mut World,
    out: &mut W,
) -> Result<(), RunEnd>
    requires { OperationRuns world.old.world.registry act.now }
    ensures world { OnOk result (world.new.world ≡ (answer_to frame act.now world.old.world).world) }
    ensures archetypes { OnOk result (Grows world.old.archetypes world.new.archetypes) }
    ensures text { Writes result (flat_map note_text (event_lines frame number (answer_to frame act.now world.old.world).reply)) (W.text out.old) (W.text out.new) }
    ensures causes { RunCauses result (W.faults out.old) (W.faults out.new) }
{
    let notes = play_event(alloc, frame, act, world)?;
    write_skips(alloc, frame, number, notes.as_slice(), out)?;
    Ok(())
}

/// Does what an event does. The event of a scene does nothing.
fn do_event<W: Sink>(
    alloc: Global,
    frame: u32,
    number: u32,
    act: &EventAct,
    world: &mut World,
    out: &mut W,
) -> Result<(), RunEnd>
    requires { ActRuns world.old.world.registry act.now }
    ensures world { OnOk result (world.new.world ≡ after_event (capacity world.old.world.registry) frame world.old.world (frame_event_of no_files world.old.world.registry frame number act.now)) }
    ensures archetypes { OnOk result (Grows world.old.archetypes world.new.archetypes) }
    ensures text { Writes result (lines_text (lines_of_event (capacity world.old.world.registry) frame world.old.world (frame_event_of no_files world.old.world.registry frame number act.now))) (W.text out.old) (W.text out.new) }
    ensures causes { RunCauses result (W.faults out.old) (W.faults out.new) }
{
    match act {
        EventAct::Operate(text) => operate(alloc, frame, number, text, world, out),
        EventAct::Load { .. } => Ok(()),
        EventAct::Unload(_) => Ok(()),
    }
}

/// Does the events of a frame, in order, and writes a line for each that is skipped.
pub(crate) fn do_events<W: Sink>(
    alloc: Global,
    frame: u32,
    events: &[EventEntry],
    world: &mut World,
    out: &mut W,
) -> Result<(), RunEnd>
    requires run { (e : Event) → In e events.now → ActRuns world.old.world.registry e.act }
    requires few { length events.now ≤ MOST_EVENTS }
    ensures world { OnOk result (world.new.world ≡ after_events (capacity world.old.world.registry) frame (events_at world.old.world.registry frame 0 events.now) world.old.world) }
    ensures archetypes { OnOk result (Grows world.old.archetypes world.new.archetypes) }
    ensures text { Writes result (lines_text (lines_of_events (capacity world.old.world.registry) frame (events_at world.old.world.registry frame 0 events.now) world.old.world)) (W.text out.old) (W.text out.new) }
    ensures causes { RunCauses result (W.faults out.old) (W.faults out.new) }
{
    for (number, event) in events.iter().enumerate() {
        if event.frame == frame {
            do_event(alloc, frame, number as u32, &event.act, world, out)?;
        }
    }
    Ok(())
}
