//! What is printed of a world: its rows by index, and its blocks in block order.

use chunk_block::Block;
use ent_io::MemorySink;
use ent_types::Entity;
use std::alloc::Global;
use std::io;
use structural_ops::World;
use world_text::write_world;

/// Prints a world after the list of a number: the rows, and then the blocks.
pub(crate) fn print_world<R: Print>(
    rt: &R,
    alloc: Global,
    world: &World,
    number: u32,
) -> io::Result<()> {
    print_rows(rt, alloc, world, number)?;
    print_blocks(rt, world)
}

/// Writes the rows of a world. It has no clause, so that the proofs above don't read those of the call.
fn write(alloc: Global, world: &World, number: u32, out: &mut MemorySink) -> bool {
    write_world(alloc, world, number, out).is_ok()
}

fn print_rows<R: Print>(rt: &R, alloc: Global, world: &World, number: u32) -> io::Result<()> {
    let mut out = MemorySink::new(alloc, Vec::new(alloc));
    if write(alloc, world, number, &mut out) {
        print_text(rt, out.text())
    } else {
        println!(rt; "memory")
    }
}

fn print_text<R: Print>(rt: &R, text: &[u8]) -> io::Result<()> {
    match std::str::from_utf8(text) {
        Ok(text) => print!(rt; "{text}"),
        Err(_) => println!(rt; "no text"),
    }
}

fn print_blocks<R: Print>(rt: &R, world: &World) -> io::Result<()> {
    for (_, block) in world.store().blocks() {
        print_block(rt, block)?;
    }
    Ok(())
}

/// Prints a block: the version of its order, each type's number with its version, and the entities of its rows.
fn print_block<R: Print>(rt: &R, block: &Block) -> io::Result<()> {
    print!(rt; "block order={}", block.order_version().0)?;
    print_marks(rt, block)?;
    print_entities(rt, block.entities())
}

fn print_marks<R: Print>(rt: &R, block: &Block) -> io::Result<()> {
    for ty in block.types().iter() {
        print!(rt; " {}@{}", ty.0, block.changed(ty).0)?;
    }
    Ok(())
}

fn print_entities<R: Print>(rt: &R, entities: &[Entity]) -> io::Result<()> {
    print!(rt; " rows")?;
    for e in entities {
        print!(rt; " {}:{}", e.index, e.version)?;
    }
    println!(rt)
}
