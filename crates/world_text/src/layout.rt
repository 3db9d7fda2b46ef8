//! The lines of a layout: the blocks of a world, and where the columns of their types begin.
ghost use Rattle.std.specs.Prelude.{◌≡◌, ℕ, ◌≤◌, ◌<◌, ◌++◌, length, map, zip, All, OnOk};
ghost use Rattle.std.specs.List.{flat_map};
ghost use Rattle.ent_io.specs.End.{TextCauses};
ghost use Rattle.ent_io.specs.Text.{Writes};
ghost use Rattle.ent_types.specs.TypeLookups.{column_size_at};
ghost use Rattle.world_model.specs.Fits.{IsKnown};
ghost use Rattle.world_model.specs.Members.{In};
ghost use Rattle.world_model.specs.World.{capacity};
ghost use Rattle.world_text.specs.Layout.{block_line, block_lines, column_text, layout_line, layout_text, places_of};
ghost use Rattle.world_text.specs.Listed.{IsListed};

use crate::pieces::push_key_number;
use archetype_store::ArchetypeStore;
use arrayvec::ArrayVec;
use chunk_block::Block;
use chunk_layout::{ColumnPlaces, MAX_COLUMNS, layout};
use ent_io::{Sink, TextEnd, write_whole};
use ent_types::{Registry, TypeId, TypeSet};
use std::alloc::{AllocError, Global};
use structural_ops::World;

/// Returns the bytes that a row takes in the column of each type.
fn sizes_of(registry: &Registry, types: &TypeSet) -> ArrayVec<u32, MAX_COLUMNS>
    ensures value { result.items ≡ map (column_size_at registry.now) types.now }
    ensures small { All (λ size. size ≤ 512) result.items }
{
    let mut sizes = ArrayVec::new();
    for ty in types.iter() {
        sizes.push(registry.column_size(ty));
    }
    sizes
}

/// Appends a type, and where its column begins, if it has one.
fn push_column(
    line: &mut Vec<u8>,
    registry: &Registry,
    ty: TypeId,
    place: u32,
) -> Result<(), AllocError>
    requires { IsKnown registry.now ty.0 }
    ensures { OnOk result (line.new.items ≡ line.old.items ++ column_text registry.now (ty.0, place)) }
{
    line.push(b' ')?;
    line.extend_from_slice(registry.info(ty).name.as_bytes())?;
    if !registry.has_column(ty) {
        return Ok(());
    }
    push_key_number(line, b"@", place)
}

/// Appends some types, and where their columns begin.
fn push_columns(
    line: &mut Vec<u8>,
    registry: &Registry,
    types: &TypeSet,
    places: &[u32],
) -> Result<(), AllocError>
    requires known { (t : ℕ) → In t types.now → IsKnown registry.now t }
    requires places { length places.now ≡ length types.now }
    ensures { OnOk result (line.new.items ≡ line.old.items ++ flat_map (column_text registry.now) (zip types.now places.now)) }
{
    let mut at = 0;
    for ty in types.iter() {
        push_column(line, registry, ty, places[at])?;
        at += 1;
    }
    Ok(())
}

/// Appends the types of a block, and where their columns begin.
fn push_types(line: &mut Vec<u8>, registry: &Registry, types: &TypeSet) -> Result<(), AllocError>
    requires known { (t : ℕ) → In t types.now → IsKnown registry.now t }
    requires room { 0 < capacity registry.now types.now }
    ensures { OnOk result (line.new.items ≡ line.old.items ++ flat_map (column_text registry.now) (zip types.now (places_of registry.now types.now))) }
{
    let sizes = sizes_of(registry, types);
    match layout(sizes.as_slice()) {
        Some(found) => push_columns(line, registry, types, found.places()),
        None => unreachable!(),
    }
}

/// Appends the line of a block, which is at place `k` in block order.
fn push_block(
    line: &mut Vec<u8>,
    registry: &Registry,
    k: u32,
    block: &Block,
) -> Result<(), AllocError>
    requires { IsListed registry.now block.now }
    ensures { OnOk result (line.new.items ≡ line.old.items ++ block_line registry.now k block.now.types (length block.now.rows)) }
{
    push_key_number(line, b"block ", k)?;
    push_key_number(line, b" rows=", block.len())?;
    push_key_number(line, b" capacity=", block.capacity())?;
    line.extend_from_slice(b" ids@64")?;
    push_types(line, registry, block.types())?;
    line.push(b'\n')?;
    Ok(())
}

/// Appends the line of the number of blocks.
fn push_head(line: &mut Vec<u8>, blocks: u32) -> Result<(), AllocError>
    ensures { OnOk result (line.new.items ≡ line.old.items ++ layout_line blocks) }
{
    push_key_number(line, b"layout blocks=", blocks)?;
    line.push(b'\n')?;
    Ok(())
}

/// Counts the blocks of a store.
fn count_blocks(store: &ArchetypeStore) -> u32
    ensures { result ≡ length store.now.blocks }
{
    // Its contract says how many blocks there are at most.
    store.is_sound();
    let mut count = 0;
    for _ in store.blocks() {
        count += 1;
    }
    count
}

/// Writes the line of the number of blocks. `line` is a buffer.
fn write_head<W: Sink>(blocks: u32, line: &mut Vec<u8>, out: &mut W) -> Result<(), TextEnd>
    ensures text { Writes result (layout_line blocks) (W.text out.old) (W.text out.new) }
    ensures causes { TextCauses result (W.faults out.old) (W.faults out.new) }
{
    line.clear();
    push_head(line, blocks)?;
    write_whole(out, line.as_slice())?;
    Ok(())
}

/// Writes the line of a block, which is at place `k` in block order. `line` is a buffer.
fn write_block<W: Sink>(
    registry: &Registry,
    k: u32,
    block: &Block,
    line: &mut Vec<u8>,
    out: &mut W,
) -> Result<(), TextEnd>
    requires { IsListed registry.now block.now }
    ensures text { Writes result (block_line registry.now k block.now.types (length block.now.rows)) (W.text out.old) (W.text out.new) }
    ensures causes { TextCauses result (W.faults out.old) (W.faults out.new) }
{
    line.clear();
    push_block(line, registry, k, block)?;
    write_whole(out, line.as_slice())?;
    Ok(())
}

/// Writes the lines of the blocks, in block order. `line` is a buffer.
fn write_blocks<W: Sink>(world: &World, line: &mut Vec<u8>, out: &mut W) -> Result<(), TextEnd>
    ensures text { Writes result (block_lines world.now.world.registry 0 world.now.world.blocks) (W.text out.old) (W.text out.new) }
    ensures causes { TextCauses result (W.faults out.old) (W.faults out.new) }
{
    // Its contract says that the types of each block are known, and that each has a row.
    world.is_lawful();
    let registry = world.registry();
    let store = world.store();
    // Its contract says how many blocks there are at most.
    store.is_sound();
    let mut k = 0;
    for (_, block) in store.blocks() {
        write_block(registry, k, block, line, out)?;
        k += 1;
    }
    Ok(())
}

/// Writes the layout of a world: the number of its blocks, then a line for each block, in block order. A line has the block's place in
/// that order, how many rows it has and can have, and the byte at which the column of each type begins.
///
/// Each line is offered to the sink as one piece. After an error a prefix of the lines was written: `WriteFault` comes only if the
/// sink's count of faults rose. One buffer serves for all lines. The cost is that of the blocks and their types.
pub fn write_layout<W: Sink>(alloc: Global, world: &World, out: &mut W) -> Result<(), TextEnd>
    ensures text { Writes result (layout_text world.now.world) (W.text out.old) (W.text out.new) }
    ensures causes { TextCauses result (W.faults out.old) (W.faults out.new) }
{
    let mut line = Vec::new(alloc);
    write_head(count_blocks(world.store()), &mut line, out)?;
    write_blocks(world, &mut line, out)
}
