//! The query of a system: which rows and blocks it visits.
ghost use Rattle.std.specs.Prelude.{◌≡◌};
ghost use Rattle.toml.specs.View.{table_view};
ghost use Rattle.ent_types.specs.declared.value.Value.TheVariants.{Int};
ghost use Rattle.ent_types.specs.Fitting.{fits_field};
ghost use Rattle.scenario_tables.specs.FirstFault.{Reads};
ghost use Rattle.scenario_tables.specs.ReadQueries.{clause, clauses, bound_types, filters, shared_value, shared_part, shared_table};

use crate::form::{FieldForm, Form, KeyForm, each_member, field_values, list_under, optional};
use crate::keys::{TruthForm, list, members_up_to};
use crate::type_lists::{Allowed, Named, TypesForm, type_of_key};
use ent_types::limits::{MOST_CHANGED, MOST_SHARED_FILTERS, MOST_TYPES};
use ent_types::{FieldKind, Part, Registry, Sequence, TypeId, TypeSet, Values};
use scenario_record::{Cause, ScenarioFault, bad};
use std::alloc::Global;
use toml::{Table, Value};

// ---- the five clauses

/// The five clauses of a query.
#[derive(Clone, Copy)]
pub(crate) struct Clauses {
    /// The types that a row has enabled.
    pub(crate) all: TypeSet,
    /// Types of which a row has one enabled.
    pub(crate) any: TypeSet,
    /// Types of which a row has none enabled.
    pub(crate) none: TypeSet,
    /// The types that a row has disabled.
    pub(crate) disabled: TypeSet,
    /// Types of which a row has none at all.
    pub(crate) absent: TypeSet,
}

/// Reads the types of a clause, which the clauses before it don't name, unless there is a fault before it.
fn clause(
    alloc: Global,
    fault: &mut Option<ScenarioFault>,
    key: &str,
    registry: &Registry,
    allowed: &Allowed,
    taken: &TypeSet,
    table: &Table,
) -> Named
    ensures { Reads (clause key.now registry.now allowed.now taken.now (table_view table.now)) fault.old fault.new result }
{
    let types = TypesForm {
        most: MOST_TYPES,
        registry,
        allowed,
        taken,
    };
    optional(alloc, fault, key, Named::none_beside(taken), &types, table)
}

/// Reads the five clauses of a query, unless there is a fault before them.
pub(crate) fn clauses_of(
    alloc: Global,
    fault: &mut Option<ScenarioFault>,
    registry: &Registry,
    table: &Table,
) -> Clauses
    ensures { Reads (clauses registry.now (table_view table.now)) fault.old fault.new result }
{
    let each = Allowed::AnyType;
    let enableable = Allowed::Enableable;
    let none_taken = TypeSet::empty();
    let all = clause(alloc, fault, "all", registry, &each, &none_taken, table);
    let any = clause(alloc, fault, "any", registry, &each, &all.taken, table);
    let none = clause(alloc, fault, "none", registry, &each, &any.taken, table);
    let disabled = clause(
        alloc,
        fault,
        "disabled",
        registry,
        &enableable,
        &none.taken,
        table,
    );
    let absent = clause(
        alloc,
        fault,
        "absent",
        registry,
        &each,
        &disabled.taken,
        table,
    );
    Clauses {
        all: all.found,
        any: any.found,
        none: none.found,
        disabled: disabled.found,
        absent: absent.found,
    }
}

/// Returns the types that each visited row has.
#[tactic(auto, using(crate::proofs::TypeLemmas::rising_first, crate::proofs::TypeLemmas::rising_rest))]
pub(crate) fn bound_types(clauses: &Clauses) -> TypeSet
    ensures { result ≡ bound_types clauses.now }
{
    let mut bound = clauses.all;
    for ty in clauses.disabled.iter() {
        bound = bound.with(ty);
    }
    bound
}

// ---- the filter by shared values

/// `true` if a field of this kind holds the number.
pub(crate) fn fits(kind: FieldKind, number: i64) -> bool
    ensures { result ≡ fits_field kind (Int number) }
{
    match kind {
        FieldKind::I32 => i64::from(i32::MIN) <= number && number <= i64::from(i32::MAX),
        FieldKind::I64 => true,
        FieldKind::Ref => false,
    }
}

/// An integer in the range of its field.
#[derive(Clone, Copy)]
struct SharedValue;

impl FieldForm for SharedValue {
    type Out = ent_types::Value;

    ghost reads = { λ _ kind d. shared_value kind d };

    fn read(
        &self,
        alloc: Global,
        kind: FieldKind,
        value: &Value,
    ) -> Result<ent_types::Value, ScenarioFault> {
        match value.as_integer() {
            Some(number) => {
                if !fits(kind, number) {
                    return Err(bad(alloc, Cause::NumberRange));
                }
                Ok(ent_types::Value::Int(number))
            }
            None => Err(bad(alloc, Cause::WrongType)),
        }
    }
}

/// The shared values of a type that is a key.
#[derive(Clone, Copy)]
struct SharedPartForm<'a> {
    /// The types.
    registry: &'a Registry,
    /// The types that each row has.
    all: &'a TypeSet,
}

impl<'a> KeyForm for SharedPartForm<'a> {
    type Out = Part;

    ghost reads = { λ it key d. shared_part it.registry.now it.all.now key d };

    fn read(&self, alloc: Global, key: &str, value: &Value) -> Result<Part, ScenarioFault> {
        let values = list(alloc, value)?;
        let ty = type_of_key(alloc, self.registry, &Allowed::SharedOf(*self.all), key)?;
        let values = field_values(alloc, &SharedValue, self.registry, ty, values)?;
        let values = Values::from_slice(alloc, values.as_slice())?;
        Ok(Part { ty, values })
    }
}

/// The shared values that a visited block has.
#[derive(Clone, Copy)]
struct SharedForm<'a> {
    /// The types.
    registry: &'a Registry,
    /// The types that each row has.
    all: &'a TypeSet,
}

impl<'a> Form for SharedForm<'a> {
    type Out = Sequence<Part>;

    ghost reads = { λ it d. shared_table it.registry.now it.all.now d };

    fn read(&self, alloc: Global, value: &Value) -> Result<Sequence<Part>, ScenarioFault> {
        let table = members_up_to(alloc, MOST_SHARED_FILTERS, value)?;
        let part = SharedPartForm {
            registry: self.registry,
            all: self.all,
        };
        each_member(alloc, &part, table)
    }
}

// ---- all filters

/// Which further rows match, and which blocks are skipped.
#[derive(Drop)]
pub(crate) struct Filters {
    /// Whether rows with the tag `Disabled` match too.
    pub(crate) include_disabled: bool,
    /// Whether rows with the tag `Prefab` match too.
    pub(crate) include_prefab: bool,
    /// The types of which one was written since the last run.
    pub(crate) changed: TypeSet,
    /// Whether blocks whose order of rows changed are visited too.
    pub(crate) order_changed: bool,
    /// The shared values that a visited block has.
    pub(crate) shared: Sequence<Part>,
}

/// Reads the filters of a query, whose rows have all of these types, unless there is a fault before them.
pub(crate) fn filters_of(
    alloc: Global,
    fault: &mut Option<ScenarioFault>,
    registry: &Registry,
    all: &TypeSet,
    table: &Table,
) -> Filters
    ensures { Reads (filters registry.now all.now (table_view table.now)) fault.old fault.new result }
{
    let none_taken = TypeSet::empty();
    let changed_types = TypesForm {
        most: MOST_CHANGED,
        registry,
        allowed: &Allowed::UnsharedOf(*all),
        taken: &none_taken,
    };
    let none_changed = Named::none_beside(&none_taken);
    let shared_values = SharedForm { registry, all };
    let include_disabled = optional(alloc, fault, "include_disabled", false, &TruthForm, table);
    let include_prefab = optional(alloc, fault, "include_prefab", false, &TruthForm, table);
    let changed = optional(alloc, fault, "changed", none_changed, &changed_types, table);
    let order_changed = optional(alloc, fault, "order_changed", false, &TruthForm, table);
    let shared = list_under(alloc, fault, "shared", &shared_values, table);
    Filters {
        include_disabled,
        include_prefab,
        changed: changed.found,
        order_changed,
        shared,
    }
}
