//! The lines of a trace: which systems ran, and what was played.
ghost use Rattle.std.specs.Prelude.{◌≡◌, ◌++◌, OnOk};
ghost use Rattle.ent_io.specs.End.{TextCauses};
ghost use Rattle.ent_io.specs.Text.{Writes};
ghost use Rattle.world_text.specs.Lines.{play_line, run_line, trace_text};

use crate::names::point_name;
use crate::pieces::{push_frame, push_key_number, push_key_word};
use ent_io::{Sink, TextEnd, write_whole};
use ent_types::{Name, Point};
use run_model::TraceLine;
use std::alloc::{AllocError, Global};

/// Appends the line of a system's run.
#[tactic(auto, unfolding(crate::specs::Lines::run_line))]
fn push_run(
    line: &mut Vec<u8>,
    frame: u32,
    system: &Name,
    version: u32,
    visits: u32,
    passing: u32,
    commands: u64,
) -> Result<(), AllocError>
    ensures { OnOk result (line.new.items ≡ line.old.items ++ run_line frame system.now version visits passing commands) }
{
    push_frame(line, b"run", frame)?;
    push_key_word(line, b" system=", system.as_bytes())?;
    push_key_number(line, b" version=", version)?;
    push_key_number(line, b" visits=", visits)?;
    push_key_number(line, b"/", passing)?;
    push_key_number(line, b" commands=", commands)?;
    line.push(b'\n')?;
    Ok(())
}

/// Appends the line of a point that plays its buffers.
#[tactic(auto, unfolding(crate::specs::Lines::play_line))]
fn push_play(
    line: &mut Vec<u8>,
    frame: u32,
    point: Point,
    version: u32,
    buffers: u32,
    commands: u64,
) -> Result<(), AllocError>
    ensures { OnOk result (line.new.items ≡ line.old.items ++ play_line frame point version buffers commands) }
{
    push_frame(line, b"play", frame)?;
    push_key_word(line, b" point=", point_name(point).as_bytes())?;
    push_key_number(line, b" version=", version)?;
    push_key_number(line, b" buffers=", buffers)?;
    push_key_number(line, b" commands=", commands)?;
    line.push(b'\n')?;
    Ok(())
}

/// Appends the line of a trace.
#[tactic(auto, unfolding(crate::specs::Lines::trace_text))]
fn push_trace(line: &mut Vec<u8>, trace: &TraceLine) -> Result<(), AllocError>
    ensures { OnOk result (line.new.items ≡ line.old.items ++ trace_text trace.now) }
{
    match trace {
        TraceLine::Run {
            frame,
            system,
            version,
            visits,
            passing,
            commands,
        } => push_run(line, *frame, system, *version, *visits, *passing, *commands),
        TraceLine::Play {
            frame,
            point,
            version,
            buffers,
            commands,
        } => push_play(line, *frame, *point, *version, *buffers, *commands),
    }
}

/// Writes the line of a trace, as one piece.
///
/// After an error a prefix of the line was written: `WriteFault` comes only if the sink's count of faults rose.
pub fn write_trace<W: Sink>(alloc: Global, line: &TraceLine, out: &mut W) -> Result<(), TextEnd>
    ensures text { Writes result (trace_text line.now) (W.text out.old) (W.text out.new) }
    ensures causes { TextCauses result (W.faults out.old) (W.faults out.new) }
{
    let mut text = Vec::new(alloc);
    push_trace(&mut text, line)?;
    write_whole(out, text.as_slice())?;
    Ok(())
}
