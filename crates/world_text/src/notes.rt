//! The lines of notes: what was skipped, what came of loads, what still waits, and the key that ended a run.
ghost use Rattle.std.specs.Prelude.{◌≡◌, ◌++◌, codes, OnOk};
ghost use Rattle.ent_io.specs.End.{TextCauses};
ghost use Rattle.ent_io.specs.Text.{Writes};
ghost use Rattle.world_text.specs.Lines.{buffer_text, command_skip_line, command_text, count_text, event_skip_line, fault_text, key_shared_line, load_line, load_text, note_text, pending_line, skip_text, unplayed_line};

use crate::names::{point_name, scene_cause_name};
use crate::pieces::{push_frame, push_key_number, push_key_word};
use ent_io::{Sink, TextEnd, write_whole};
use ent_types::{Name, Point, Skip};
use run_model::{NoteLine, SceneFault};
use std::alloc::{AllocError, Global};

/// Appends why an operation was skipped, and ends the line.
#[tactic(auto, unfolding(crate::specs::Lines::skip_text))]
fn push_skip(line: &mut Vec<u8>, skip: Skip) -> Result<(), AllocError>
    ensures { OnOk result (line.new.items ≡ line.old.items ++ skip_text skip) }
{
    push_key_word(line, b" skip=", skip.name().as_bytes())?;
    line.push(b'\n')?;
    Ok(())
}

/// Appends the line of an event's operation that was skipped.
#[tactic(auto, unfolding(crate::specs::Lines::event_skip_line))]
fn push_event_skip(line: &mut Vec<u8>, frame: u32, event: u32, skip: Skip) -> Result<(), AllocError>
    ensures { OnOk result (line.new.items ≡ line.old.items ++ event_skip_line frame event skip) }
{
    push_frame(line, b"note", frame)?;
    push_key_number(line, b" event=", event)?;
    push_skip(line, skip)
}

/// Appends how the line of a load begins.
#[tactic(auto, unfolding(crate::specs::Lines::load_text))]
fn push_load_start(
    line: &mut Vec<u8>,
    word: &[u8],
    name: &Name,
    frame: u32,
) -> Result<(), AllocError>
    ensures { OnOk result (line.new.items ≡ line.old.items ++ load_text word.now name.now frame) }
{
    push_key_word(line, word, name.as_bytes())?;
    push_key_number(line, b" frame=", frame)
}

/// Appends the line of a load of which there is nothing to count.
#[tactic(auto, unfolding(crate::specs::Lines::load_line))]
fn push_load(
    line: &mut Vec<u8>,
    word: &[u8],
    name: &Name,
    frame: u32,
    outcome: &[u8],
) -> Result<(), AllocError>
    ensures { OnOk result (line.new.items ≡ line.old.items ++ load_line word.now name.now frame outcome.now) }
{
    push_load_start(line, word, name, frame)?;
    line.extend_from_slice(outcome)?;
    line.push(b'\n')?;
    Ok(())
}

/// Appends the line of a load whose entities came or went.
#[tactic(auto, unfolding(crate::specs::Lines::load_line))]
fn push_entities(
    line: &mut Vec<u8>,
    word: &[u8],
    name: &Name,
    frame: u32,
    entities: u32,
) -> Result<(), AllocError>
    ensures { OnOk result (line.new.items ≡ line.old.items ++ load_line word.now name.now frame (count_text (codes " entities=") entities)) }
{
    push_load_start(line, word, name, frame)?;
    push_key_number(line, b" entities=", entities)?;
    line.push(b'\n')?;
    Ok(())
}

/// Appends why a scene was refused, and at which byte of its file.
#[tactic(auto, unfolding(crate::specs::Lines::fault_text))]
fn push_fault(line: &mut Vec<u8>, fault: SceneFault) -> Result<(), AllocError>
    ensures { OnOk result (line.new.items ≡ line.old.items ++ fault_text fault) }
{
    let cause = scene_cause_name(fault.cause);
    push_key_word(line, b" refused cause=", cause.as_bytes())?;
    push_key_number(line, b" byte=", fault.byte)
}

/// Appends the line of a load whose file isn't well formed.
#[tactic(auto, unfolding(crate::specs::Lines::load_line))]
fn push_scene_fault(
    line: &mut Vec<u8>,
    name: &Name,
    frame: u32,
    fault: SceneFault,
) -> Result<(), AllocError>
    ensures { OnOk result (line.new.items ≡ line.old.items ++ load_line (codes "scene ") name.now frame (fault_text fault)) }
{
    push_load_start(line, b"scene ", name, frame)?;
    push_fault(line, fault)?;
    line.push(b'\n')?;
    Ok(())
}

/// Appends the line of a load whose scene wasn't due.
#[tactic(auto, unfolding(crate::specs::Lines::pending_line))]
fn push_pending(line: &mut Vec<u8>, name: &Name) -> Result<(), AllocError>
    ensures { OnOk result (line.new.items ≡ line.old.items ++ pending_line name.now) }
{
    push_key_word(line, b"scene ", name.as_bytes())?;
    line.extend_from_slice(b" pending\n")
}

/// Appends how the line of a command buffer begins.
#[tactic(auto, unfolding(crate::specs::Lines::buffer_text))]
fn push_buffer_start(
    line: &mut Vec<u8>,
    word: &[u8],
    frame: u32,
    system: &Name,
    point: Point,
) -> Result<(), AllocError>
    ensures { OnOk result (line.new.items ≡ line.old.items ++ buffer_text word.now frame system.now point) }
{
    push_frame(line, word, frame)?;
    push_key_word(line, b" system=", system.as_bytes())?;
    push_key_word(line, b" point=", point_name(point).as_bytes())
}

/// Appends where a command was recorded.
#[tactic(auto, unfolding(crate::specs::Lines::command_text))]
fn push_command(line: &mut Vec<u8>, item: u32, row: u32, command: u32) -> Result<(), AllocError>
    ensures { OnOk result (line.new.items ≡ line.old.items ++ command_text item row command) }
{
    push_key_number(line, b" item=", item)?;
    push_key_number(line, b" row=", row)?;
    push_key_number(line, b" command=", command)
}

/// Appends the line of a command that was skipped.
#[tactic(auto, unfolding(crate::specs::Lines::command_skip_line))]
fn push_command_skip(
    line: &mut Vec<u8>,
    frame: u32,
    system: &Name,
    point: Point,
    item: u32,
    row: u32,
    command: u32,
    skip: Skip,
) -> Result<(), AllocError>
    ensures { OnOk result (line.new.items ≡ line.old.items ++ command_skip_line frame system.now point item row command skip) }
{
    push_buffer_start(line, b"note", frame, system, point)?;
    push_command(line, item, row, command)?;
    push_skip(line, skip)
}

/// Appends the line of a buffer that still waits.
#[tactic(auto, unfolding(crate::specs::Lines::unplayed_line))]
fn push_unplayed(
    line: &mut Vec<u8>,
    frame: u32,
    system: &Name,
    point: Point,
    commands: u64,
) -> Result<(), AllocError>
    ensures { OnOk result (line.new.items ≡ line.old.items ++ unplayed_line frame system.now point commands) }
{
    push_buffer_start(line, b"unplayed", frame, system, point)?;
    push_key_number(line, b" commands=", commands)?;
    line.push(b'\n')?;
    Ok(())
}

/// Appends the line of a key that two items share.
#[tactic(auto, unfolding(crate::specs::Lines::key_shared_line))]
fn push_key_shared(
    line: &mut Vec<u8>,
    frame: u32,
    system: &Name,
    point: Point,
    key: i32,
    first_item: u32,
    second_item: u32,
) -> Result<(), AllocError>
    ensures { OnOk result (line.new.items ≡ line.old.items ++ key_shared_line frame system.now point key first_item second_item) }
{
    push_buffer_start(line, b"error keyshared", frame, system, point)?;
    push_key_number(line, b" key=", key)?;
    push_key_number(line, b" items=", first_item)?;
    push_key_number(line, b",", second_item)?;
    line.push(b'\n')?;
    Ok(())
}

/// Appends the line of a note.
#[tactic(auto, unfolding(crate::specs::Lines::note_text))]
fn push_note(line: &mut Vec<u8>, note: &NoteLine) -> Result<(), AllocError>
    ensures { OnOk result (line.new.items ≡ line.old.items ++ note_text note.now) }
{
    match note {
        NoteLine::EventSkip { frame, event, skip } => push_event_skip(line, *frame, *event, *skip),
        NoteLine::SceneArrived {
            name,
            frame,
            entities,
        } => push_entities(line, b"scene ", name, *frame, *entities),
        NoteLine::SceneFaulty { name, frame, fault } => {
            push_scene_fault(line, name, *frame, *fault)
        }
        NoteLine::SceneAbsent { name, frame } => {
            push_load(line, b"scene ", name, *frame, b" refused cause=absent")
        }
        NoteLine::SceneTooLong { name, frame } => {
            push_load(line, b"scene ", name, *frame, b" refused cause=toolong")
        }
        NoteLine::SceneFull { name, frame } => {
            push_load(line, b"scene ", name, *frame, b" refused cause=full")
        }
        NoteLine::Unloaded {
            name,
            frame,
            entities,
        } => push_entities(line, b"unload ", name, *frame, *entities),
        NoteLine::UnloadCancelled { name, frame } => {
            push_load(line, b"unload ", name, *frame, b" cancelled")
        }
        NoteLine::UnloadNone { name, frame } => push_load(line, b"unload ", name, *frame, b" none"),
        NoteLine::CommandSkip {
            frame,
            system,
            point,
            item,
            row,
            command,
            skip,
        } => push_command_skip(line, *frame, system, *point, *item, *row, *command, *skip),
        NoteLine::Unplayed {
            frame,
            system,
            point,
            commands,
        } => push_unplayed(line, *frame, system, *point, *commands),
        NoteLine::ScenePending { name } => push_pending(line, name),
        NoteLine::KeyShared {
            frame,
            system,
            point,
            key,
            first_item,
            second_item,
        } => push_key_shared(
            line,
            *frame,
            system,
            *point,
            *key,
            *first_item,
            *second_item,
        ),
    }
}

/// Writes the line of a note, as one piece.
///
/// After an error a prefix of the line was written: `WriteFault` comes only if the sink's count of faults rose.
pub fn write_note<W: Sink>(alloc: Global, line: &NoteLine, out: &mut W) -> Result<(), TextEnd>
    ensures text { Writes result (note_text line.now) (W.text out.old) (W.text out.new) }
    ensures causes { TextCauses result (W.faults out.old) (W.faults out.new) }
{
    let mut text = Vec::new(alloc);
    push_note(&mut text, line)?;
    write_whole(out, text.as_slice())?;
    Ok(())
}
