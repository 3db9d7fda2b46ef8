//! The lines of a world.
ghost use Rattle.std.specs.Prelude.{◌≡◌, ◌++◌, OnOk};
ghost use Rattle.std.specs.List.{flat_map};
ghost use Rattle.ent_io.specs.End.{TextCauses};
ghost use Rattle.ent_io.specs.Text.{Writes};
ghost use Rattle.archetype_store.specs.Stores.{OfNumber};
ghost use Rattle.world_model.specs.Found.{found_by_index};
ghost use Rattle.world_rows.specs.Reading.{CanRead};
ghost use Rattle.world_text.specs.ByPlace.{line_at};
ghost use Rattle.world_text.specs.Lines.{row_line, world_line, world_text};

use crate::pieces::push_key_number;
use crate::rows::push_row;
use archetype_store::ArchetypeStore;
use ent_io::{Sink, TextEnd, write_whole};
use ent_types::Registry;
use entity_table::Place;
use std::alloc::{AllocError, Global};
use structural_ops::World;

/// Appends the line before the rows.
#[tactic(auto, unfolding(crate::specs::Lines::world_line))]
fn push_head(line: &mut Vec<u8>, frames: u32, entities: u32) -> Result<(), AllocError>
    ensures { OnOk result (line.new.items ≡ line.old.items ++ world_line frames entities) }
{
    push_key_number(line, b"world frames=", frames)?;
    push_key_number(line, b" entities=", entities)?;
    line.push(b'\n')?;
    Ok(())
}

/// Writes the line before the rows. `line` is a buffer.
fn write_head<W: Sink>(
    frames: u32,
    entities: u32,
    line: &mut Vec<u8>,
    out: &mut W,
) -> Result<(), TextEnd>
    ensures text { Writes result (world_line frames entities) (W.text out.old) (W.text out.new) }
    ensures causes { TextCauses result (W.faults out.old) (W.faults out.new) }
{
    line.clear();
    push_head(line, frames, entities)?;
    write_whole(out, line.as_slice())?;
    Ok(())
}

/// Writes the line of a row. `line` is a buffer.
fn write_row<W: Sink>(
    store: &ArchetypeStore,
    registry: &Registry,
    place: Place,
    line: &mut Vec<u8>,
    out: &mut W,
) -> Result<(), TextEnd>
    requires { OfNumber place.block (CanRead registry.now place.row) store.now.blocks }
    ensures text { Writes result (line_at registry.now store.now.blocks place) (W.text out.old) (W.text out.new) }
    ensures causes { TextCauses result (W.faults out.old) (W.faults out.new) }
{
    line.clear();
    push_row(line, store, registry, place)?;
    write_whole(out, line.as_slice())?;
    Ok(())
}

/// Writes the lines of the rows, by index. `line` is a buffer.
fn write_rows<W: Sink>(world: &World, line: &mut Vec<u8>, out: &mut W) -> Result<(), TextEnd>
    ensures text { Writes result (flat_map (row_line world.now.world.registry) (found_by_index world.now.world)) (W.text out.old) (W.text out.new) }
    ensures causes { TextCauses result (W.faults out.old) (W.faults out.new) }
{
    // Its contract says that each row fits its types.
    world.is_lawful();
    let registry = world.registry();
    let store = world.store();
    for (_, place) in world.living() {
        write_row(store, registry, place, line, out)?;
    }
    Ok(())
}

/// Writes a world after some frames: a line of counts, then a line for each row, by the index of its entity.
///
/// Each line is offered to the sink as one piece. After an error a prefix of the lines was written: `WriteFault` comes only if the
/// sink's count of faults rose. One buffer serves for all lines. The cost is that of the rows, and a look at each index that was ever
/// made.
pub fn write_world<W: Sink>(
    alloc: Global,
    world: &World,
    frames: u32,
    out: &mut W,
) -> Result<(), TextEnd>
    ensures text { Writes result (world_text frames world.now.world) (W.text out.old) (W.text out.new) }
    ensures causes { TextCauses result (W.faults out.old) (W.faults out.new) }
{
    let mut line = Vec::new(alloc);
    write_head(frames, world.alive_count(), &mut line, out)?;
    write_rows(world, &mut line, out)
}
