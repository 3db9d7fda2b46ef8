//! The lists of a table, done one after another.

use crate::blocks::print_world;
use crate::operations::{Answer, operate};
use crate::types::types;
use std::alloc::Global;
use std::io;
use structural_ops::World;

/// The line before a list.
const BEFORE: &str = "----\n";

/// What the first line of a list says.
#[derive(Clone, Copy)]
struct Head {
    /// The list's number.
    number: u32,
    /// `true` if there are the large types, too.
    is_large: bool,
    /// The first entity version.
    entity: u32,
    /// The first system version.
    system: u32,
}

/// Does the lists of a table, in order.
pub(crate) fn do_table<R: Print>(rt: &R, alloc: Global, table: &str) -> io::Result<()> {
    match table.split_once(BEFORE) {
        Some((_, lists)) => do_lists(rt, alloc, lists),
        None => println!(rt; "no list"),
    }
}

fn do_lists<R: Print>(rt: &R, alloc: Global, lists: &str) -> io::Result<()> {
    for list in lists.split(BEFORE) {
        do_list(rt, alloc, list)?;
    }
    Ok(())
}

fn do_list<R: Print>(rt: &R, alloc: Global, list: &str) -> io::Result<()> {
    let (line, operations) = list.split_once('\n').unwrap_or((list, ""));
    match read_head(line) {
        Some(head) => do_from(rt, alloc, head, operations),
        None => print_bad(rt, 1),
    }
}

/// Does the operations of a list in a world without an entity.
fn do_from<R: Print>(rt: &R, alloc: Global, head: Head, operations: &str) -> io::Result<()> {
    match empty_world(alloc, head) {
        Some(mut world) => do_in(rt, alloc, &mut world, head.number, operations),
        None => print_bad(rt, 1),
    }
}

fn do_in<R: Print>(
    rt: &R,
    alloc: Global,
    world: &mut World,
    number: u32,
    operations: &str,
) -> io::Result<()> {
    do_operations(rt, alloc, world, operations)?;
    print_world(rt, alloc, world, number)
}

fn do_operations<R: Print>(
    rt: &R,
    alloc: Global,
    world: &mut World,
    operations: &str,
) -> io::Result<()> {
    for (at, line) in operations.lines().enumerate() {
        print_answer(rt, operate(alloc, world, line), at + 2)?;
    }
    Ok(())
}

/// Prints what came of the operation of a line.
fn print_answer<R: Print>(rt: &R, answer: Answer, line: usize) -> io::Result<()> {
    match answer {
        Answer::Made(e) => println!(rt; "{}:{}", e.index, e.version),
        Answer::Word(word) => println!(rt; "{word}"),
        Answer::Bad => print_bad(rt, line),
    }
}

fn print_bad<R: Print>(rt: &R, line: usize) -> io::Result<()> {
    println!(rt; "bad line {line}")
}

/// Returns the head that a line is.
fn read_head(line: &str) -> Option<Head> {
    let mut words = line.split(' ');
    Some(Head {
        number: words.next()?.parse::<u32>().ok()?,
        is_large: words.next()? == "large",
        entity: words.next()?.parse::<u32>().ok()?,
        system: words.next()?.parse::<u32>().ok()?,
    })
}

/// Returns a world without an entity, if the first versions can be these.
fn empty_world(alloc: Global, head: Head) -> Option<World> {
    if head.entity == 0 {
        return None;
    }
    if head.system == 0 {
        return None;
    }
    match types(alloc, head.is_large) {
        Some(registry) => Some(World::new(alloc, registry, head.entity, head.system)),
        None => None,
    }
}
