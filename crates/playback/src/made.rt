//! The entities that entries made, which placeholders stand for.
ghost use Rattle.std.specs.Prelude.{◌≡◌, ℕ, ◌&&◌, nat_eq, if◌then◌else◌, map, None, Some, OnOk, IfOk, OnErr, IfErr, unwrap_or};
ghost use Rattle.ent_types.specs.declared.skip.Skip.TheVariants as skips;
ghost use Rattle.structural_ops.specs.declared.fault.OpFault.TheVariants as faults;
ghost use Rattle.world_model.specs.Part.{part_of as seen};
ghost use Rattle.playback.specs.Asked.{entity_for, part_for, value_for};
ghost use Rattle.playback.specs.Makers.{Finds, made_in, maker, same_maker};

use command_record::{CmdPart, CmdValue, Target};
use ent_types::{Entity, Memory, Part, Skip, Value, Values};
use std::alloc::Global;
use std::collections::HashMap;
use structural_ops::OpFault;

/// The entry that made an entity.
#[derive(Clone, Copy, Debug, PartialEq, Eq, Hash)]
pub(crate) struct Maker {
    pub(crate) item: u32,
    pub(crate) row: u32,
    pub(crate) number: u32,
}

/// The entities that entries made.
#[derive(Drop)]
pub(crate) struct Made {
    entities: HashMap<Maker, Entity>,
}

impl Made {
    /// Returns no entities. It takes no memory.
    pub(crate) fn new(alloc: Global) -> Made
        ensures { (item row number : ℕ) → made_in result item row number ≡ None }
    {
        Made {
            entities: HashMap::new(alloc),
        }
    }

    /// Adds the entity that an entry made.
    pub(crate) fn add(&mut self, by: Maker, e: Entity) -> Result<(), Memory>
        ensures { OnOk result ((item row number : ℕ) → made_in self.new item row number ≡ (if same_maker by (maker item row number) then Some e else made_in self.old item row number)) }
    {
        self.entities.insert(by, e)?;
        Ok(())
    }

    /// Returns what a target among the commands of an item stands for, or `None` if it wasn't made.
    fn entity(&self, item: u32, target: Target) -> Option<Entity>
        ensures { result ≡ entity_for (made_in self.now item) target }
    {
        match target {
            Target::Live(e) => Some(e),
            Target::Placeholder { row, number } => {
                self.entities.get(&Maker { item, row, number }).copied()
            }
        }
    }

    /// Returns what a target stands for. One that wasn't made is skipped as an entity that isn't alive.
    pub(crate) fn found(&self, item: u32, target: Target) -> Result<Entity, OpFault>
        ensures { Finds (entity_for (made_in self.now item) target) result }
    {
        match self.entity(item, target) {
            Some(e) => Ok(e),
            None => Err(OpFault::Skip(Skip::NoEntity)),
        }
    }

    /// Returns a value with the entity that its placeholder stands for, or null if it wasn't made.
    fn value(&self, item: u32, value: CmdValue) -> Value
        ensures { result ≡ value_for (made_in self.now item) value }
    {
        match value {
            CmdValue::Int(z) => Value::Int(z),
            CmdValue::Ref(target) => Value::Ref(self.entity(item, target).unwrap_or(Entity::NULL)),
        }
    }

    /// Returns a part with the entities that its placeholders stand for.
    pub(crate) fn part(&self, alloc: Global, item: u32, part: &CmdPart) -> Result<Part, Memory>
        ensures { IfOk result (λ p. seen p ≡ part_for (made_in self.now item) part.now) }
    {
        let mut values = Values::new(alloc);
        for value in part.values.as_slice() {
            values.push(self.value(item, *value))?;
        }
        Ok(Part {
            ty: part.ty,
            values,
        })
    }

    /// Puts such parts in the place of those that `parts` has.
    pub(crate) fn fill(
        &self,
        alloc: Global,
        item: u32,
        from: &[CmdPart],
        parts: &mut Vec<Part>,
    ) -> Result<(), Memory>
        ensures { OnOk result (map seen parts.new.items ≡ map (part_for (made_in self.now item)) from.now) }
    {
        parts.clear();
        for part in from {
            parts.push(self.part(alloc, item, part)?)?;
        }
        Ok(())
    }
}
