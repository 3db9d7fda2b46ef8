//! What the texts of spawns and events see, and the parts that they give.
ghost use Rattle.std.specs.Prelude.{◌≡◌, true, map, None, IfOk, OnOk};
ghost use Rattle.expr_trees.specs.declared.tree.PartExpr.{PartExpr as Given};
ghost use Rattle.world_model.specs.Members.{In};
ghost use Rattle.world_model.specs.Part.{part_of as seen};
ghost use Rattle.run_model.specs.Job.{no_row};
ghost use Rattle.run_laws.specs.Runnable.{PartReads, ValueReads, no_sources};
ghost use Rattle.run_laws.specs.Suits.{IsOfKind, PartSuits};
ghost use Rattle.world_spawns.specs.Parts.{part_for, value_for};

use ent_types::{Entity, FieldKind, Memory, Part, Registry, TypeId, Value, Values, fit};
use expr_eval::{Lookup, RowReader, eval, eval_ref};
use expr_trees::{PartExpr, ValueExpr};
use std::alloc::Global;

/// What a text sees that belongs to no row, as those of spawns and events.
#[derive(Clone, Copy, Debug)]
pub struct NoRow {
    /// The number of the new row in its spawn, from 0; 0 in an event.
    pub n: u32,
    /// The frame of the event, from 1; 0 in a spawn.
    pub frame: u32,
}

impl RowReader for NoRow {
    ghost own_row = { λ r. no_row r.n r.frame };

    // A field that no text reads is 0, as the definition of such a row has it.
    ghost has_field = { λ _ ty i. true };

    fn field(&self, _ty: TypeId, _field: u8) -> Value {
        Value::Int(0)
    }

    fn on(&self, _ty: TypeId) -> bool {
        false
    }

    fn me(&self) -> Entity {
        Entity::NULL
    }

    fn item(&self) -> u32 {
        0
    }

    fn row(&self) -> u32 {
        0
    }

    fn frame(&self) -> u32 {
        self.frame
    }

    fn n(&self) -> u32 {
        self.n
    }
}

/// The other rows that such a text can look up: none.
#[derive(Clone, Copy, Debug)]
pub struct NoOthers;

impl Lookup for NoOthers {
    ghost found = { λ _ _. None };

    // No entity is there, so nothing can be read of any type.
    ghost can_read = { λ _ ty. true };

    fn value(&self, _e: Entity, _ty: TypeId, _field: u8) -> Option<Value> {
        None
    }

    fn has(&self, _e: Entity, _ty: TypeId) -> bool {
        false
    }

    fn alive(&self, _e: Entity) -> bool {
        false
    }
}

impl NoRow {
    /// Evaluates a text, and returns what a field of a kind keeps of its value.
    fn value(&self, kind: FieldKind, text: &ValueExpr) -> Value
        requires kind { IsOfKind kind text.now }
        requires reads { ValueReads no_sources text.now }
        ensures { result ≡ value_for (no_row self.now.n self.now.frame) kind text.now }
    {
        match text {
            ValueExpr::Int(number) => Value::Int(fit(kind, eval(number, self, &NoOthers))),
            ValueExpr::Ref(reference) => Value::Ref(eval_ref(reference, self)),
        }
    }

    /// Evaluates the texts of a part. An entity that a command would make counts as null. Memory is taken only for more than four
    /// values.
    pub fn part(&self, alloc: Global, registry: &Registry, from: &PartExpr) -> Result<Part, Memory>
        requires suits { PartSuits registry.now from.now }
        requires reads { PartReads no_sources from.now }
        ensures { IfOk result (λ p. seen p ≡ part_for registry.now (no_row self.now.n self.now.frame) from.now) }
    {
        let mut values = Values::new(alloc);
        for (at, text) in from.values.as_slice().iter().enumerate() {
            let kind = registry.field_kind(from.ty, at);
            values.push(self.value(kind, text))?;
        }
        Ok(Part {
            ty: from.ty,
            values,
        })
    }

    /// Evaluates the texts of some parts, and puts these in the place of those that `parts` has.
    pub fn fill(
        &self,
        alloc: Global,
        registry: &Registry,
        from: &[PartExpr],
        parts: &mut Vec<Part>,
    ) -> Result<(), Memory>
        requires suit { (p : Given) → In p from.now → PartSuits registry.now p }
        requires read { (p : Given) → In p from.now → PartReads no_sources p }
        ensures { OnOk result (map seen parts.new.items ≡ map (part_for registry.now (no_row self.now.n self.now.frame)) from.now) }
    {
        parts.clear();
        for part in from {
            parts.push(self.part(alloc, registry, part)?)?;
        }
        Ok(())
    }
}
