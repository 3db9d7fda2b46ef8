//! Lists of operations on worlds, each done, and what comes out.
//!
//! The table `operations.txt` of the current folder has the lists, with a line `----` before each; what is before the first is a
//! remark. The first line of a list is `LIST SORT ENTITY SYSTEM`: its number, `small` or `large` for its types, and the first versions
//! of an entity and of a system. Every other line is an operation, `OPERATION ENTITY PART ..`. Of it the program prints what came of
//! it: the entity that was made, `done`, the skip, or `bad line` with its number in the list. After a list it prints the rows of the
//! world and its blocks. What it must print was worked out by an independent program.
#![tactic(auto)]

mod blocks;
mod lists;
mod operations;
mod types;
mod words;

use std::{fs, io};

/// The table's file.
const TABLE: &str = "operations.txt";

fn main(rt: HostRuntime) -> io::Result<()> {
    let text = fs::read_to_string(&rt, TABLE)?;
    lists::do_table(&rt, rt.alloc(), text.as_str())
}
