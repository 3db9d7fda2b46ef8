//! Spawns, which make entities before the first frame.
ghost use Rattle.std.specs.Prelude.{◌≡◌, ◌<◌, All};
ghost use Rattle.toml.specs.View.{view};
ghost use Rattle.ent_types.specs.declared.limits.TheConstants.{MOST_TYPES};
ghost use Rattle.scenario_record.specs.Readings.{Answers};
ghost use Rattle.scenario_tables.specs.ReadSpawns.{number_value, ref_value, field_value, part, with_table, part_types, disabled_types, spawn};

use crate::form::{
    FieldForm, Form, KeyForm, each_member, each_over, field_values, list_under, optional, settled,
};
use crate::keys::{NumberForm, known_table, list, members, text};
use crate::queries::fits;
use crate::texts::{ExprText, RefText, rowless_text};
use crate::type_lists::{Allowed, Named, TypeStep, type_of_key};
use ent_types::limits::{MOST_ENTITIES, MOST_TYPES};
use ent_types::{FieldKind, Registry, Sequence, TypeSet};
use expr_read::TextPlace;
use expr_trees::{Expr, PartExpr, ValueExpr};
use scenario_record::{Cause, ScenarioFault, SpawnEntry, bad};
use std::alloc::Global;
use toml::Value;

/// The keys of a spawn, in reading order.
const KEYS: [&str; 3] = ["count", "with", "disabled"];

// ---- the parts

/// A value of a field: a number in its range or a text.
#[derive(Clone, Copy)]
struct SpawnValue<'a> {
    /// The types.
    registry: &'a Registry,
}

impl<'a> SpawnValue<'a> {
    /// Reads the number or the text for a number field.
    fn number(
        &self,
        alloc: Global,
        kind: FieldKind,
        value: &Value,
    ) -> Result<ValueExpr, ScenarioFault>
        ensures { Answers (number_value self.now.registry.now kind (view value.now)) result }
    {
        match value {
            Value::Integer(number) => {
                if !fits(kind, *number) {
                    return Err(bad(alloc, Cause::NumberRange));
                }
                Ok(ValueExpr::Int(Expr::Number(*number)))
            }
            Value::String(text) => {
                let expr = rowless_text(
                    alloc,
                    &ExprText,
                    self.registry,
                    TextPlace::Spawn,
                    text.as_str(),
                )?;
                Ok(ValueExpr::Int(expr))
            }
            _ => Err(bad(alloc, Cause::WrongType)),
        }
    }

    /// Reads the text for a ref field.
    fn reference(&self, alloc: Global, value: &Value) -> Result<ValueExpr, ScenarioFault>
        ensures { Answers (ref_value self.now.registry.now (view value.now)) result }
    {
        let text = text(alloc, value)?;
        let found = rowless_text(alloc, &RefText, self.registry, TextPlace::Spawn, text)?;
        Ok(ValueExpr::Ref(found))
    }
}

impl<'a> FieldForm for SpawnValue<'a> {
    type Out = ValueExpr;

    ghost reads = { λ it kind d. field_value it.registry.now kind d };

    fn read(
        &self,
        alloc: Global,
        kind: FieldKind,
        value: &Value,
    ) -> Result<ValueExpr, ScenarioFault> {
        match kind {
            FieldKind::I32 => self.number(alloc, FieldKind::I32, value),
            FieldKind::I64 => self.number(alloc, FieldKind::I64, value),
            FieldKind::Ref => self.reference(alloc, value),
        }
    }
}

/// The part of a spawn with its type as a key.
#[derive(Clone, Copy)]
struct PartForm<'a> {
    /// The types.
    registry: &'a Registry,
}

impl<'a> KeyForm for PartForm<'a> {
    type Out = PartExpr;

    ghost reads = { λ it key d. part it.registry.now key d };

    ghost sound = { λ part. part.ty.0 < MOST_TYPES };

    fn read(&self, alloc: Global, key: &str, value: &Value) -> Result<PartExpr, ScenarioFault> {
        let registry = self.registry;
        let values = list(alloc, value)?;
        let ty = type_of_key(alloc, registry, &Allowed::Spawned, key)?;
        let values = field_values(alloc, &SpawnValue { registry }, registry, ty, values)?;
        Ok(PartExpr { ty, values })
    }
}

/// The parts of a spawn.
#[derive(Clone, Copy)]
struct WithForm<'a> {
    /// The types.
    registry: &'a Registry,
}

impl<'a> Form for WithForm<'a> {
    type Out = Sequence<PartExpr>;

    ghost reads = { λ it d. with_table it.registry.now d };

    ghost sound = { λ parts. All (λ p. p.ty.0 < MOST_TYPES) parts };

    fn read(&self, alloc: Global, value: &Value) -> Result<Sequence<PartExpr>, ScenarioFault> {
        let table = members(alloc, value)?;
        let part = PartForm {
            registry: self.registry,
        };
        each_member(alloc, &part, table)
    }
}

// ---- the disabled types

/// Returns the types of these parts.
fn types_of(parts: &[PartExpr]) -> TypeSet
    requires { All (λ p. p.ty.0 < MOST_TYPES) parts.now }
    ensures { result ≡ part_types parts.now }
{
    let mut types = TypeSet::empty();
    for part in parts {
        types = types.with(part.ty);
    }
    types
}

/// The types that are disabled in each row, which are enableable types of its parts.
#[derive(Clone, Copy)]
struct DisabledForm<'a> {
    /// The types.
    registry: &'a Registry,
    /// The types of the parts.
    types: TypeSet,
}

impl<'a> Form for DisabledForm<'a> {
    type Out = TypeSet;

    ghost reads = { λ it d. disabled_types it.registry.now it.types d };

    fn read(&self, alloc: Global, value: &Value) -> Result<TypeSet, ScenarioFault> {
        let values = list(alloc, value)?;
        let none = TypeSet::empty();
        let allowed = Allowed::EnableableOf(self.types);
        let step = TypeStep {
            registry: self.registry,
            allowed: &allowed,
        };
        let named = each_over(alloc, &step, Named::none_beside(&none), values)?;
        Ok(named.found)
    }
}

// ---- the table

/// A spawn.
#[derive(Clone, Copy)]
pub(crate) struct SpawnForm<'a> {
    /// The types.
    pub(crate) registry: &'a Registry,
}

impl<'a> Form for SpawnForm<'a> {
    type Out = SpawnEntry;

    ghost reads = { λ it d. spawn it.registry.now d };

    #[tactic(auto, unfolding(crate::specs::ReadSpawns::spawn))]
    fn read(&self, alloc: Global, value: &Value) -> Result<SpawnEntry, ScenarioFault> {
        let registry = self.registry;
        let counts = NumberForm {
            low: 1,
            high: MOST_ENTITIES,
        };
        let table = known_table(alloc, &KEYS, value)?;
        let mut fault = None;
        let count = optional(alloc, &mut fault, "count", 1, &counts, table);
        let parts = list_under(alloc, &mut fault, "with", &WithForm { registry }, table);
        let types = types_of(parts.as_slice());
        let of_parts = DisabledForm { registry, types };
        let disabled = optional(
            alloc,
            &mut fault,
            "disabled",
            TypeSet::empty(),
            &of_parts,
            table,
        );
        settled(
            fault,
            Ok(SpawnEntry {
                count,
                parts,
                disabled,
            }),
        )
    }
}
