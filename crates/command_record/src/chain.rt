//! Chains: what one item records for one point, in order.
ghost use Rattle.std.specs.Prelude.{◌≡◌, ◌≤◌, ◌<◌, [], length, take, slice_get, Some, IfOk, OnOk, OnErr};
ghost use Rattle.std.specs.Option.{IfSome};
ghost use Rattle.command_record.specs.Turns.{turn_of};
ghost use Rattle.command_record.specs.Chains.{AreOwn, with_entry};

use crate::command::{CmdValue, Command};
use crate::kept::{Act, PartHead, Span, keep, make_act, make_command};
use crate::turn::Turn;
use ent_types::Memory;
use std::alloc::Global;
use std::marker::Model;

/// The greatest number of entries of a chain.
pub const MOST_ENTRIES: u32 = u32::MAX;

/// A recorded command.
#[derive(Debug, Drop)]
pub struct Entry {
    /// Entries are played by rising key, then item, row and number.
    pub key: i32,
    /// The number of the item.
    pub item: u32,
    /// The place of the row in its block.
    pub row: u32,
    /// The command's place in the system, from 0.
    pub number: u32,
    /// The command.
    pub command: Command,
}

/// What is kept of an entry beside its parts and its values.
#[derive(Clone, Copy, Debug)]
pub(crate) struct Head {
    pub(crate) key: i32,
    pub(crate) row: u32,
    pub(crate) number: u32,
    pub(crate) act: Act,
    /// Where its part heads are.
    pub(crate) parts: Span,
    /// Where its values are.
    pub(crate) values: Span,
}

/// What one item records for one playback point, in order. Contracts see the item's number and the list of entries.
///
/// The entries lie in three flat lists that grow, so an entry or a part takes no memory of its own.
///
/// ```text
/// let mut chain = Chain::new(alloc, item);
/// chain.add(key, row, number, &command)?;
/// let entry = chain.entry(alloc, 0)?;
/// ```
#[derive(Debug, Drop)]
pub struct Chain {
    item: u32,
    heads: Vec<Head>,
    parts: Vec<PartHead>,
    values: Vec<CmdValue>,
}

impl Model for Chain {
    ghost use Rattle.command_record.specs.Chains.{ChainState};

    ghost Value = { ChainState };

    ghost use Rattle.command_record.specs.Heads.{chain_of, IsKept};

    ghost view = { chain_of };

    ghost invariant = { IsKept };
}

impl Chain {
    /// Returns the chain of an item that recorded nothing. It takes no memory.
    pub fn new(alloc: Global, item: u32) -> Chain
        ensures { result ≡ record { item = item; entries = [] } }
    {
        Chain {
            item,
            heads: Vec::new(alloc),
            parts: Vec::new(alloc),
            values: Vec::new(alloc),
        }
    }

    /// Returns the number of the item, which each entry has.
    pub fn item(&self) -> u32
        ensures value { result ≡ self.now.item }
        ensures entries { AreOwn self.now }
    {
        self.item
    }

    /// Counts the entries, in one step.
    pub fn len(&self) -> u32
        ensures value { result ≡ length self.now.entries }
        ensures bound { result ≤ MOST_ENTRIES }
    {
        self.heads.len() as u32
    }

    /// Adds an entry of the item at the end: a command that was recorded for the row at this place. After an error the chain is as
    /// before.
    ///
    /// The command is copied, so the caller can change its values for the next row.
    pub fn add(&mut self, key: i32, row: u32, number: u32, command: &Command) -> Result<(), Memory>
        requires { length self.old.entries < MOST_ENTRIES }
        ensures ok { OnOk result (self.new ≡ with_entry self.old key row number command.now) }
        ensures err { OnErr result (self.new ≡ self.old) }
    {
        self.heads.reserve(1)?;
        let parts = self.parts.len();
        let values = self.values.len();
        if let Err(memory) = keep(&mut self.parts, &mut self.values, command) {
            self.parts.truncate(parts);
            self.values.truncate(values);
            return Err(memory);
        }
        self.heads.push_reserved(Head {
            key,
            row,
            number,
            act: make_act(command),
            parts: Span {
                start: parts,
                end: self.parts.len(),
            },
            values: Span {
                start: values,
                end: self.values.len(),
            },
        });
        Ok(())
    }

    /// Keeps the first `len` entries. It takes no memory.
    pub fn cut(&mut self, len: u32)
        requires { len ≤ length self.old.entries }
        ensures { self.new ≡ record self.old { entries = take len self.old.entries } }
    {
        let len = len as usize;
        if len == self.heads.len() {
            return;
        }
        let next = self.heads[len];
        self.heads.truncate(len);
        self.parts.truncate(next.parts.start);
        self.values.truncate(next.values.start);
    }

    /// Returns the entry at a place, from 0.
    pub fn entry(&self, alloc: Global, k: u32) -> Result<Entry, Memory>
        requires { k < length self.now.entries }
        ensures value { IfOk result (λ e. slice_get self.now.entries k ≡ Some e) }
        ensures item { IfOk result (λ e. e.item ≡ self.now.item) }
    {
        let head = self.heads[k as usize];
        let parts = &self.parts[head.parts.start..head.parts.end];
        let values = &self.values[head.values.start..head.values.end];
        Ok(Entry {
            key: head.key,
            item: self.item,
            row: head.row,
            number: head.number,
            command: make_command(alloc, head.act, parts, values)?,
        })
    }

    /// Returns when the entry at a place, from 0, is played. It takes no memory.
    pub fn turn(&self, k: u32) -> Turn
        requires { k < length self.now.entries }
        ensures { IfSome (slice_get self.now.entries k) (λ e. result ≡ turn_of e) }
    {
        let Head {
            key,
            row,
            number,
            ..
        } = self.heads[k as usize];
        Turn {
            key,
            item: self.item,
            row,
            number,
        }
    }
}
