//! The buffers of one type, one for each row.
ghost use Rattle.std.specs.Prelude.{◌≡◌, ◌≤◌, ◌<◌, [], ◌∷◌, ◌++◌, length, slice_index_or, slice_set, vec_capacity, IfOk};
ghost use Rattle.std.specs.List.{swap_remove};
ghost use Rattle.buffer_store.specs.Buffers.{buffer};

use buffer_store::Elements;
use ent_types::{Memory, Value};
use std::alloc::Global;
use std::marker::Model;

/// The elements of a buffer type for each row, with room for some rows that it never loses. Contracts see the width of
/// an element, the room, and for each row the values of its elements, one after another.
#[derive(Drop)]
pub struct Buffers {
    rows: Vec<Elements<Value>>,
    room: usize,
    width: u8,
    alloc: Global,
}

impl Model for Buffers {
    ghost use Rattle.std.specs.Prelude.{◌≤◌, map, vec_capacity};
    ghost use Rattle.block_columns.specs.Buffers.{BuffersState, HaveWidth, lists_of};

    ghost Value = { BuffersState };

    ghost view = { λ b. record { width = b.width; room = b.room; lists = lists_of b.rows.items } };

    ghost invariant = { λ b. (1 ≤ b.width) × ((b.width ≤ 8) × ((b.room ≤ vec_capacity b.rows) × HaveWidth b.width b.rows.items)) };
}

/// Adds a row, for which there is room.
fn push_row(rows: &mut Vec<Elements<Value>>, new: Elements<Value>)
    requires { length rows.old.items < vec_capacity rows.old }
    ensures items { rows.new.items ≡ rows.old.items ++ new ∷ [] }
    ensures room { vec_capacity rows.old ≤ vec_capacity rows.new }
{
    let _ = rows.push(new);
}

/// Replaces the elements of a row, and returns the old ones.
fn replace_row(rows: &mut Vec<Elements<Value>>, row: usize, new: Elements<Value>) -> Elements<Value>
    requires { row < length rows.old.items }
    ensures old { result ≡ slice_index_or rows.old.items row result }
    ensures items { rows.new.items ≡ slice_set rows.old.items row new }
    ensures room { vec_capacity rows.new ≡ vec_capacity rows.old }
{
    std::mem::replace(&mut rows[row], new)
}

impl Buffers {
    /// Returns buffers with no row.
    pub(crate) fn new(alloc: Global, width: u8, room: usize) -> Result<Buffers, Memory>
        requires some { 1 ≤ width }
        requires narrow { width ≤ 8 }
        ensures { IfOk result (λ b. b ≡ record { width = width; room = room; lists = [] }) }
    {
        let rows = Vec::with_capacity(alloc, room)?;
        Ok(Buffers {
            rows,
            room,
            width,
            alloc,
        })
    }

    /// Adds a row with no element. It takes no memory.
    pub(crate) fn push(&mut self)
        requires { length self.old.lists < self.old.room }
        ensures { self.new ≡ record self.old { lists = self.old.lists ++ [] ∷ [] } }
    {
        push_row(&mut self.rows, Elements::new(self.alloc, self.width));
    }

    /// Removes a row; the last row takes its place.
    pub(crate) fn swap_remove(&mut self, row: usize)
        requires { row < length self.old.lists }
        ensures { self.new ≡ record self.old { lists = swap_remove self.old.lists row [] } }
    {
        self.rows.swap_remove(row);
    }

    /// Returns the elements of a row.
    pub(crate) fn get(&self, row: usize) -> &Elements<Value>
        requires { row < length self.now.lists }
        ensures { result.now ≡ buffer self.now.width (slice_index_or self.now.lists row []) }
    {
        &self.rows[row]
    }

    /// Replaces the elements of a row, and returns the old ones.
    pub(crate) fn put(&mut self, row: usize, new: Elements<Value>) -> Elements<Value>
        requires within { row < length self.old.lists }
        requires width { new.width ≡ self.old.width }
        ensures old { result ≡ buffer self.old.width (slice_index_or self.old.lists row []) }
        ensures new { self.new ≡ record self.old { lists = slice_set self.old.lists row new.values } }
    {
        replace_row(&mut self.rows, row, new)
    }
}
