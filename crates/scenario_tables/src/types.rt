//! Types, as a scenario declares them.
ghost use Rattle.std.specs.Prelude.{◌≡◌, ◌≤◌, ◌<◌, ◌+◌, ◌-◌, length, IfOk};
ghost use Rattle.std.specs.List.{list_any};
ghost use Rattle.toml.specs.View.{view};
ghost use Rattle.ent_types.specs.declared.entity.TheConstants.{BUILT_IN_TYPES};
ghost use Rattle.ent_types.specs.declared.limits.TheConstants.{MOST_FIELDS, MOST_TYPES};
ghost use Rattle.ent_types.specs.Types.{same_name};
ghost use Rattle.scenario_record.specs.Readings.{Answers};
ghost use Rattle.scenario_tables.specs.FirstFault.{StepsTo};
ghost use Rattle.scenario_tables.specs.ReadTypes.{kind, field_kind_named, field_of_kind, field_named, field_in, one_more_field, fields, type_table, added, one_more_type, registry_of};

use crate::form::{Form, Step, each_over, list_under, optional, required, settled};
use crate::keys::{NameForm, TruthForm, known_table, list_up_to, text};
use ent_types::limits::{MOST_FIELDS, MOST_TYPES};
use ent_types::{
    BUILT_IN_TYPES, FieldInfo, FieldKind, Kind, Name, Registry, RegistryFault, Sequence, TypeInfo,
};
use scenario_record::{Cause, ScenarioFault, bad, below_key};
use std::alloc::Global;
use toml::Value;

/// The keys of a type, in reading order.
const KEYS: [&str; 4] = ["name", "kind", "fields", "enableable"];

// ---- the kind of a type

/// The kind of a type.
#[derive(Clone, Copy)]
struct KindForm;

impl Form for KindForm {
    type Out = Kind;

    ghost reads = { λ _ d. kind d };

    fn read(&self, alloc: Global, value: &Value) -> Result<Kind, ScenarioFault> {
        match text(alloc, value)? {
            "plain" => Ok(Kind::Plain),
            "tag" => Ok(Kind::Tag),
            "shared" => Ok(Kind::Shared),
            "cleanup" => Ok(Kind::Cleanup),
            _ => Err(bad(alloc, Cause::BadWord)),
        }
    }
}

// ---- the fields of a type

fn field_kind_named(text: &[u8]) -> Option<FieldKind>
    ensures { result ≡ field_kind_named text.now }
{
    if text == b":i32".as_slice() {
        return Some(FieldKind::I32);
    }
    if text == b":i64".as_slice() {
        return Some(FieldKind::I64);
    }
    if text == b":ref".as_slice() {
        return Some(FieldKind::Ref);
    }
    None
}

fn field_of_kind(name: &[u8], kind: Option<FieldKind>) -> Option<FieldInfo>
    ensures { result ≡ field_of_kind name.now kind }
{
    let kind = kind?;
    let name = Name::of(name)?;
    Some(FieldInfo { name, kind })
}

/// Returns the field that a text declares, as `name:kind`.
fn field_named(text: &str) -> Option<FieldInfo>
    ensures { result ≡ field_named text.now }
{
    let bytes = text.as_bytes();
    let (name, kind) = bytes.split_at(bytes.len().saturating_sub(4));
    field_of_kind(name, field_kind_named(kind))
}

fn has_field(fields: &[FieldInfo], name: &Name) -> bool
    ensures { result ≡ list_any (λ f. same_name name.now f.name) fields.now }
{
    fields.iter().any(|field| *name == field.name)
}

/// Returns the field that a text declares, which no earlier field has the name of.
fn field_in(alloc: Global, earlier: &[FieldInfo], text: &str) -> Result<FieldInfo, ScenarioFault>
    ensures { Answers (field_in earlier.now text.now) result }
{
    match field_named(text) {
        Some(field) => {
            if has_field(earlier, &field.name) {
                return Err(bad(alloc, Cause::DuplicateName));
            }
            Ok(field)
        }
        None => Err(bad(alloc, Cause::BadWord)),
    }
}

/// The fields of a type.
#[derive(Clone, Copy)]
struct FieldsForm;

impl Step for FieldsForm {
    type State = Sequence<FieldInfo>;

    ghost steps = { λ _ earlier d. one_more_field earlier d };

    ghost counts = { λ i fields. length fields ≡ i };

    fn step(
        &self,
        alloc: Global,
        _place: usize,
        fields: &mut Sequence<FieldInfo>,
        value: &Value,
    ) -> Result<(), ScenarioFault> {
        let text = text(alloc, value)?;
        let field = field_in(alloc, fields.as_slice(), text)?;
        fields.push(field)?;
        Ok(())
    }
}

impl Form for FieldsForm {
    type Out = Sequence<FieldInfo>;

    ghost reads = { λ _ d. fields d };

    ghost sound = { λ fields. length fields ≤ MOST_FIELDS };

    fn read(&self, alloc: Global, value: &Value) -> Result<Sequence<FieldInfo>, ScenarioFault> {
        let values = list_up_to(alloc, MOST_FIELDS, value)?;
        each_over(alloc, self, Sequence::new(alloc), values)
    }
}

// ---- a type

/// Reads a type, as it stands alone.
#[tactic(auto, unfolding(crate::specs::ReadTypes::type_table))]
fn type_of(alloc: Global, value: &Value) -> Result<TypeInfo, ScenarioFault>
    ensures answer { Answers (type_table (view value.now)) result }
    ensures few { IfOk result (λ info. length info.fields ≤ MOST_FIELDS) }
{
    let table = known_table(alloc, &KEYS, value)?;
    let name = required(alloc, "name", &NameForm, table)?;
    let mut fault = None;
    let kind = optional(alloc, &mut fault, "kind", Kind::Plain, &KindForm, table);
    let fields = list_under(alloc, &mut fault, "fields", &FieldsForm, table);
    let enableable = optional(alloc, &mut fault, "enableable", false, &TruthForm, table);
    settled(
        fault,
        Ok(TypeInfo {
            name,
            kind,
            fields,
            enableable,
        }),
    )
}

/// Adds a type to those before it. Its shape has to be a good one, and its name new.
fn add(alloc: Global, registry: &mut Registry, info: TypeInfo) -> Result<(), ScenarioFault>
    requires few { length info.fields ≤ MOST_FIELDS }
    requires room { length registry.old < MOST_TYPES }
    ensures { StepsTo (added registry.old info) registry.new result }
{
    if !info.is_lawful() {
        return Err(bad(alloc, Cause::BadShape));
    }
    match registry.add(info) {
        Ok(_) => Ok(()),
        Err(RegistryFault::Duplicate) => {
            let fault = bad(alloc, Cause::DuplicateName);
            Err(below_key(alloc, "name", fault))
        }
        Err(RegistryFault::Memory) => Err(ScenarioFault::Memory),
        Err(RegistryFault::TooWide) => unreachable!(),
        Err(RegistryFault::TooManyTypes) => unreachable!(),
    }
}

// ---- the types of a scenario

/// The types of a scenario, after the built-in ones.
#[derive(Clone, Copy)]
pub(crate) struct RegistryForm;

impl Step for RegistryForm {
    type State = Registry;

    ghost steps = { λ _ registry d. one_more_type registry d };

    ghost takes = { λ place. place < MOST_TYPES - BUILT_IN_TYPES };

    ghost counts = { λ count registry. length registry ≡ BUILT_IN_TYPES + count };

    fn step(
        &self,
        alloc: Global,
        _place: usize,
        registry: &mut Registry,
        value: &Value,
    ) -> Result<(), ScenarioFault> {
        let info = type_of(alloc, value)?;
        add(alloc, registry, info)
    }
}

impl Form for RegistryForm {
    type Out = Registry;

    ghost reads = { λ _ d. registry_of d };

    #[tactic(auto, using(crate::proofs::TypeLemmas::built_in_count))]
    fn read(&self, alloc: Global, value: &Value) -> Result<Registry, ScenarioFault> {
        let values = list_up_to(alloc, MOST_TYPES - BUILT_IN_TYPES, value)?;
        let built_in = Registry::new(alloc)?;
        each_over(alloc, self, built_in, values)
    }
}
