//! Readers of one kind of value, and of the keys, lists and tables that hold such values.
//!
//! The keys of a table are read in turn, and the first fault counts. A reader of one key takes the first fault of the
//! keys before it: if there is one, it reads nothing and returns the default. So a table is read without an early return,
//! and `settled` ends it.
ghost use Rattle.std.specs.Prelude.{ℕ, ◌≡◌, ◌+◌, ◌<◌, length, List, [], All, IfOk, OnOk, Err, Ok, Some};
ghost use Rattle.toml.specs.Data.{Data};
ghost use Rattle.toml.specs.View.{view, items_view, table_view};
ghost use Rattle.ent_types.specs.declared.kinds.FieldKind.{FieldKind};
ghost use Rattle.ent_types.specs.Registries.{type_at};
ghost use Rattle.scenario_record.specs.Faults.{below_key, below_place};
ghost use Rattle.scenario_record.specs.Readings.{Reading, Answers, IsSeen, changed};
ghost use Rattle.scenario_tables.specs.FirstFault.{Reads, StepsTo, IsSettled};
ghost use Rattle.scenario_tables.specs.ReadKeys.{required, optional, each_up_to, each_over, field_values_from, field_values, each_member};

use crate::keys::{list_up_to, value_of};
use ent_types::{FieldInfo, FieldKind as Kind, Registry, Sequence, TypeId};
use scenario_record::{Cause, ScenarioFault, bad, below_key, below_place};
use std::alloc::Global;
use toml::{Table, Value};

/// How one kind of value is read.
pub(crate) trait Form {
    /// The type of the result.
    type Out: Drop;

    // The reading of a value.
    ghost reads: { Self → Data → Reading Self.Out };

    // A further property of each result.
    ghost sound: { Self.Out → Type 0 } = { λ _. Unit {0} };

    /// Reads a value, or returns its first fault.
    fn read(&self, alloc: Global, value: &Value) -> Result<Self::Out, ScenarioFault>
        ensures answer { Answers (reads self.now (view value.now)) result }
        ensures sound { IfOk result (λ found. sound found) };
}

/// Returns a result that was read under a key, its fault seen from the table.
pub(crate) fn under<T>(
    alloc: Global,
    key: &str,
    found: Result<T, ScenarioFault>,
) -> Result<T, ScenarioFault>
    ensures answer { IsSeen (below_key key.now) found result }
    ensures same { IfOk result (λ value. found ≡ Ok value) }
{
    match found {
        Ok(value) => Ok(value),
        Err(fault) => Err(below_key(alloc, key, fault)),
    }
}

/// Returns a result that was read at a place of a list, its fault seen from the list.
pub(crate) fn at_place<T>(
    alloc: Global,
    place: usize,
    found: Result<T, ScenarioFault>,
) -> Result<T, ScenarioFault>
    ensures answer { IsSeen (below_place place) found result }
    ensures same { IfOk result (λ value. found ≡ Ok value) }
{
    match found {
        Ok(value) => Ok(value),
        Err(fault) => Err(below_place(alloc, place, fault)),
    }
}

// ---- keys

/// Reads a required key.
pub(crate) fn required<F: Form>(
    alloc: Global,
    key: &str,
    form: &F,
    table: &Table,
) -> Result<F::Out, ScenarioFault>
    ensures { Answers (required key.now (F.reads form.now) (table_view table.now)) result }
{
    match value_of(table, key) {
        Some(value) => under(alloc, key, form.read(alloc, value)),
        None => Err(below_key(alloc, key, bad(alloc, Cause::Missing))),
    }
}

/// Reads a required key, unless there is a fault before it. With a fault the result is the one that is given.
pub(crate) fn required_after<F: Form>(
    alloc: Global,
    fault: &mut Option<ScenarioFault>,
    key: &str,
    without: F::Out,
    form: &F,
    table: &Table,
) -> F::Out
    ensures { Reads (required key.now (F.reads form.now) (table_view table.now)) fault.old fault.new result }
{
    if let Some(_) = fault {
        return without;
    }
    match required(alloc, key, form, table) {
        Ok(found) => found,
        Err(first) => {
            *fault = Some(first);
            without
        }
    }
}

/// Reads a key with a default, unless there is a fault before it.
pub(crate) fn optional<F: Form>(
    alloc: Global,
    fault: &mut Option<ScenarioFault>,
    key: &str,
    default: F::Out,
    form: &F,
    table: &Table,
) -> F::Out
    ensures answer { Reads (optional key.now default (F.reads form.now) (table_view table.now)) fault.old fault.new result }
    ensures sound { F.sound default → F.sound result }
{
    if let Some(_) = fault {
        return default;
    }
    match value_of(table, key) {
        Some(value) => match under(alloc, key, form.read(alloc, value)) {
            Ok(found) => found,
            Err(first) => {
                *fault = Some(first);
                default
            }
        },
        None => default,
    }
}

/// A value of a key that may be left out and has no default.
#[derive(Drop)]
pub(crate) struct Maybe<F> {
    /// How the value is read.
    pub(crate) form: F,
}

impl<F: Form> Form for Maybe<F> {
    type Out = Option<F::Out>;

    ghost reads = { λ it d. changed Some (F.reads it.form d) };

    fn read(&self, alloc: Global, value: &Value) -> Result<Option<F::Out>, ScenarioFault> {
        match self.form.read(alloc, value) {
            Ok(found) => Ok(Some(found)),
            Err(fault) => Err(fault),
        }
    }
}

// ---- lists

/// A list of at most `most` values.
#[derive(Drop)]
pub(crate) struct ListOf<'a, F> {
    /// The greatest number of values.
    pub(crate) most: usize,
    /// How each value is read.
    pub(crate) form: &'a F,
}

impl<'a, F: Form> Form for ListOf<'a, F> {
    type Out = Sequence<F::Out>;

    ghost reads = { λ it d. each_up_to it.most (F.reads it.form.now) d };

    fn read(&self, alloc: Global, value: &Value) -> Result<Sequence<F::Out>, ScenarioFault> {
        let values = list_up_to(alloc, self.most, value)?;
        let mut found = Sequence::new(alloc);
        for (i, value) in values.iter().enumerate() {
            let item = at_place(alloc, i, self.form.read(alloc, value))?;
            found.push(item)?;
        }
        Ok(found)
    }
}

/// Reads a list under a key, unless there is a fault before it. It is empty if the key is left out.
pub(crate) fn list_under<T: Drop, F: Form<Out = Sequence<T>>>(
    alloc: Global,
    fault: &mut Option<ScenarioFault>,
    key: &str,
    form: &F,
    table: &Table,
) -> Sequence<T>
    ensures answer { Reads (optional key.now [] (F.reads form.now) (table_view table.now)) fault.old fault.new result }
    ensures sound { F.sound [] → F.sound result }
{
    optional(alloc, fault, key, Sequence::new(alloc), form, table)
}

/// How the values of a list are read one by one, each after the values before it.
pub(crate) trait Step {
    /// The type of the result so far.
    type State: Drop;

    // The result after one more value.
    ghost steps: { Self → Self.State → Data → Reading Self.State };

    // `true` of each place that the list may have.
    ghost takes: { ℕ → Type 0 } = { λ _. Unit {0} };

    // A property of the result after this number of values.
    ghost counts: { ℕ → Self.State → Type 0 } = { λ _ _. Unit {0} };

    /// Reads the value at one more place, or returns its first fault. After a fault the result so far has no meaning.
    fn step(
        &self,
        alloc: Global,
        place: usize,
        state: &mut Self::State,
        value: &Value,
    ) -> Result<(), ScenarioFault>
        requires takes { takes place }
        requires counts { counts place state.old }
        ensures answer { StepsTo (steps self.now state.old (view value.now)) state.new result }
        ensures counts { OnOk result (counts (place + 1) state.new) };
}

/// Reads the values of a list, each over those before it.
pub(crate) fn each_over<F: Step>(
    alloc: Global,
    form: &F,
    first: F::State,
    values: &[Value],
) -> Result<F::State, ScenarioFault>
    requires takes { (i : ℕ) → i < length values.now → F.takes i }
    requires counts { F.counts 0 first }
    ensures answer { Answers (each_over (F.steps form.now) first 0 (items_view values.now)) result }
    ensures counts { IfOk result (λ last. F.counts (length values.now) last) }
{
    let mut state = first;
    for (i, value) in values.iter().enumerate() {
        at_place(alloc, i, form.step(alloc, i, &mut state, value))?;
    }
    Ok(state)
}

/// How the value of a field is read.
pub(crate) trait FieldForm {
    /// The type of the result.
    type Out: Drop;

    // The reading of the value of a field of this kind.
    ghost reads: { Self → FieldKind → Data → Reading Self.Out };

    /// Reads the value of a field of this kind, or returns its first fault.
    fn read(&self, alloc: Global, kind: Kind, value: &Value) -> Result<Self::Out, ScenarioFault>
        ensures { Answers (reads self.now kind (view value.now)) result };
}

/// Reads a value for each field.
fn each_field<F: FieldForm>(
    alloc: Global,
    form: &F,
    fields: &[FieldInfo],
    values: &[Value],
) -> Result<Sequence<F::Out>, ScenarioFault>
    requires { length values.now ≡ length fields.now }
    ensures { Answers (field_values_from (F.reads form.now) 0 fields.now (items_view values.now)) result }
{
    let mut found = Sequence::new(alloc);
    for (i, field) in fields.iter().enumerate() {
        let value = at_place(alloc, i, form.read(alloc, field.kind, &values[i]))?;
        found.push(value)?;
    }
    Ok(found)
}

/// Reads the values of a type, one for each field.
#[tactic(auto, using(crate::proofs::KeyLemmas::counts))]
pub(crate) fn field_values<F: FieldForm>(
    alloc: Global,
    form: &F,
    registry: &Registry,
    ty: TypeId,
    values: &[Value],
) -> Result<Sequence<F::Out>, ScenarioFault>
    requires { ty.0 < length registry.now }
    ensures { Answers (field_values (F.reads form.now) (type_at registry.now ty.0).fields (items_view values.now)) result }
{
    let fields = registry.info(ty).fields.as_slice();
    if values.len() != fields.len() {
        return Err(bad(alloc, Cause::WrongCount));
    }
    each_field(alloc, form, fields, values)
}

// ---- tables

/// How a key and its value are read in a table whose keys aren't fixed.
pub(crate) trait KeyForm {
    /// The type of the result.
    type Out: Drop;

    // The reading of a key and its value.
    ghost reads: { Self → List ℕ → Data → Reading Self.Out };

    // A further property of each result.
    ghost sound: { Self.Out → Type 0 } = { λ _. Unit {0} };

    /// Reads a key and its value, or returns their first fault.
    fn read(&self, alloc: Global, key: &str, value: &Value) -> Result<Self::Out, ScenarioFault>
        ensures answer { Answers (reads self.now key.now (view value.now)) result }
        ensures sound { IfOk result (λ found. sound found) };
}

/// Reads the values of all keys of a table, in order of the keys' bytes.
pub(crate) fn each_member<F: KeyForm>(
    alloc: Global,
    form: &F,
    table: &Table,
) -> Result<Sequence<F::Out>, ScenarioFault>
    ensures answer { Answers (each_member (F.reads form.now) (table_view table.now)) result }
    ensures sound { IfOk result (λ found. All (λ x. F.sound x) found) }
{
    let mut found = Sequence::new(alloc);
    for (key, value) in table {
        let key = key.as_str();
        let item = under(alloc, key, form.read(alloc, key, value))?;
        found.push(item)?;
    }
    Ok(found)
}

/// Returns the first fault of a table's keys, or else the answer that follows them.
pub(crate) fn settled<T: Drop>(
    fault: Option<ScenarioFault>,
    answer: Result<T, ScenarioFault>,
) -> Result<T, ScenarioFault>
    ensures { IsSettled fault answer result }
{
    match fault {
        Some(fault) => Err(fault),
        None => answer,
    }
}
