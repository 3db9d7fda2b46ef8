//! The values of a part and the parts of a row, as lists whose values can be replaced in place.
ghost use Rattle.std.specs.Prelude.{◌≡◌, ◌<◌, [], ◌∷◌, ◌++◌, length, slice_get, slice_set, Some, OnOk, OnErr};
ghost use Rattle.std.specs.Borrow.{sem};
ghost use Rattle.command_record.specs.Changes.{values_at, with_value_in};
ghost use Rattle.command_record.specs.Lending.{LendsPart};

use crate::command::{CmdPart, CmdValue};
use ent_types::Memory;
use std::alloc::Global;
use std::marker::Model;

/// The values of one part, in the order of the type's fields. Contracts see a list.
#[derive(Debug, Drop)]
pub struct CmdValues {
    items: Vec<CmdValue>,
}

impl Model for CmdValues {
    ghost use Rattle.std.specs.Prelude.{List};
    ghost use Rattle.command_record.specs.declared.command.CmdValue.{CmdValue as CommandValue};

    ghost Value = { List CommandValue };

    ghost view = { λ v. v.items.items };
}

/// The parts of a row. Contracts see a list.
#[derive(Debug, Drop)]
pub struct CmdParts {
    items: Vec<CmdPart>,
}

impl Model for CmdParts {
    ghost use Rattle.std.specs.Prelude.{List};
    ghost use Rattle.command_record.specs.declared.command.CmdPart.{CmdPart as CommandPart};

    ghost Value = { List CommandPart };

    ghost view = { λ p. p.items.items };
}

impl CmdValues {
    /// Returns the empty list. It takes no memory until a value is pushed.
    pub fn new(alloc: Global) -> CmdValues
        ensures { result ≡ [] }
    {
        CmdValues {
            items: Vec::new(alloc),
        }
    }

    /// Returns a list with the values of a slice.
    pub fn from_slice(alloc: Global, values: &[CmdValue]) -> Result<CmdValues, Memory>
        ensures { OnOk result (result ≡ Ok values.now) }
    {
        Ok(CmdValues {
            items: Vec::from_slice(alloc, values)?,
        })
    }

    /// Returns the values, in order.
    pub fn as_slice(&self) -> &[CmdValue]
        ensures { result.now ≡ self.now }
    {
        &self.items
    }

    /// Counts the values, in one step.
    pub fn len(&self) -> usize
        ensures { result ≡ length self.now }
    {
        self.items.len()
    }

    /// Adds a value at the end. After an error the list is as before.
    pub fn push(&mut self, value: CmdValue) -> Result<(), Memory>
        ensures ok { OnOk result (self.new ≡ self.old ++ value ∷ []) }
        ensures err { OnErr result (self.new ≡ self.old) }
    {
        self.items.push(value)?;
        Ok(())
    }

    /// Replaces the value at a place, from 0. It takes no memory.
    pub fn set(&mut self, at: usize, value: CmdValue)
        requires { at < length self.old }
        ensures { self.new ≡ slice_set self.old at value }
    {
        self.items[at] = value;
    }
}

impl CmdParts {
    /// Returns the empty list. It takes no memory until a part is pushed.
    pub fn new(alloc: Global) -> CmdParts
        ensures { result ≡ [] }
    {
        CmdParts {
            items: Vec::new(alloc),
        }
    }

    /// Returns the list of some parts. It takes no memory.
    pub fn from_vec(items: Vec<CmdPart>) -> CmdParts
        ensures { result ≡ items.items }
    {
        CmdParts { items }
    }

    /// Returns the parts, in order.
    pub fn as_slice(&self) -> &[CmdPart]
        ensures { result.now ≡ self.now }
    {
        &self.items
    }

    /// Counts the parts, in one step.
    pub fn len(&self) -> usize
        ensures { result ≡ length self.now }
    {
        self.items.len()
    }

    /// Adds a part at the end. After an error the list is as before.
    pub fn push(&mut self, part: CmdPart) -> Result<(), Memory>
        ensures ok { OnOk result (self.new ≡ self.old ++ part ∷ []) }
        ensures err { OnErr result (self.new ≡ self.old) }
    {
        self.items.push(part)?;
        Ok(())
    }

    /// Returns the part at a place, from 0, so that its values can be replaced in place.
    pub fn part_mut(&mut self, at: usize) -> &mut CmdPart
        requires { at < length self.old }
        ensures* writes_back { sem 𝓛 (LendsPart self.entry at result) }
        ensures value { slice_get self.old at ≡ Some result.now }
    {
        &mut self.items[at]
    }

    /// Replaces the value at a place of a part, both from 0. It takes no memory.
    pub fn set_value(&mut self, part: usize, at: usize, value: CmdValue)
        requires { at < length (values_at self.old part) }
        ensures { self.new ≡ with_value_in self.old part at value }
    {
        let own = self.part_mut(part);
        own.values.set(at, value);
    }
}
