//! The keys of a table, and the plain values under them: truth values, numbers, texts, names, lists and tables.
ghost use Rattle.std.specs.Prelude.{◌≡◌, ◌≤◌, length, map, MatchOption, IfOk, None, Some};
ghost use Rattle.std.specs.List.{list_any};
ghost use Rattle.toml.specs.Data.{get_member};
ghost use Rattle.toml.specs.View.{view, items_view, table_view};
ghost use Rattle.ent_types.specs.Types.{same_name};
ghost use Rattle.scenario_record.specs.Readings.{Answers, AnswersAs, Passes};
ghost use Rattle.scenario_tables.specs.ReadKeys.{unknown_key, truth, number, text, name_in, name, list, members, known_table, list_up_to, members_up_to};

use crate::form::Form;
use ent_types::Name;
use scenario_record::{Cause, ScenarioFault, bad, below_key};
use std::alloc::Global;
use toml::{Table, Value};

// ---- keys

fn is_known(known: &[&str], key: &str) -> bool
    ensures { result ≡ list_any (λ name. same_name key.now name.now) known.now }
{
    known.iter().any(|name| key == *name)
}

/// Checks that each key of a table is one of these.
pub(crate) fn only_known(alloc: Global, known: &[&str], table: &Table) -> Result<(), ScenarioFault>
    ensures { Passes (unknown_key (map (λ name. name.now) known.now) (table_view table.now)) result }
{
    for (key, _) in table {
        if !is_known(known, key.as_str()) {
            let fault = bad(alloc, Cause::UnknownKey);
            return Err(below_key(alloc, key.as_str(), fault));
        }
    }
    Ok(())
}

/// Returns the value of a key.
pub(crate) fn value_of<'a>(table: &'a Table, key: &str) -> Option<&'a Value>
    ensures { MatchOption result
        (get_member key.now (table_view table.now) ≡ None)
        (λ value. get_member key.now (table_view table.now) ≡ Some (view value.now)) }
{
    table.get(key)
}

// ---- texts, lists and tables

/// Reads a text.
pub(crate) fn text(alloc: Global, value: &Value) -> Result<&str, ScenarioFault>
    ensures { AnswersAs (λ text. text.now) (text (view value.now)) result }
{
    match value.as_str() {
        Some(text) => Ok(text),
        None => Err(bad(alloc, Cause::WrongType)),
    }
}

/// Reads a list.
pub(crate) fn list(alloc: Global, value: &Value) -> Result<&[Value], ScenarioFault>
    ensures { AnswersAs (λ found. items_view found.now) (list (view value.now)) result }
{
    match value.as_array() {
        Some(found) => Ok(found.as_slice()),
        None => Err(bad(alloc, Cause::WrongType)),
    }
}

/// Reads a table.
pub(crate) fn members(alloc: Global, value: &Value) -> Result<&Table, ScenarioFault>
    ensures { AnswersAs (λ found. table_view found.now) (members (view value.now)) result }
{
    match value.as_table() {
        Some(found) => Ok(found),
        None => Err(bad(alloc, Cause::WrongType)),
    }
}

/// Reads a table whose keys are all among these.
pub(crate) fn known_table<'a>(
    alloc: Global,
    known: &[&str],
    value: &'a Value,
) -> Result<&'a Table, ScenarioFault>
    ensures { AnswersAs (λ found. table_view found.now) (known_table (map (λ name. name.now) known.now) (view value.now)) result }
{
    let found = members(alloc, value)?;
    only_known(alloc, known, found)?;
    Ok(found)
}

/// Reads a list of at most `most` values.
#[tactic(auto, using(crate::proofs::KeyLemmas::counts))]
pub(crate) fn list_up_to(
    alloc: Global,
    most: usize,
    value: &Value,
) -> Result<&[Value], ScenarioFault>
    ensures found { AnswersAs (λ found. items_view found.now) (list_up_to most (view value.now)) result }
    ensures few { IfOk result (λ found. length found.now ≤ most) }
{
    let found = list(alloc, value)?;
    if found.len() > most {
        return Err(bad(alloc, Cause::TooMany));
    }
    Ok(found)
}

/// Reads a table of at most `most` keys.
#[tactic(auto, using(crate::proofs::KeyLemmas::counts))]
pub(crate) fn members_up_to(
    alloc: Global,
    most: usize,
    value: &Value,
) -> Result<&Table, ScenarioFault>
    ensures { AnswersAs (λ found. table_view found.now) (members_up_to most (view value.now)) result }
{
    let found = members(alloc, value)?;
    if found.len() > most {
        return Err(bad(alloc, Cause::TooMany));
    }
    Ok(found)
}

// ---- truth values, numbers and names

/// A truth value.
#[derive(Clone, Copy)]
pub(crate) struct TruthForm;

impl Form for TruthForm {
    type Out = bool;

    ghost reads = { λ _ d. truth d };

    fn read(&self, alloc: Global, value: &Value) -> Result<bool, ScenarioFault> {
        match value.as_bool() {
            Some(truth) => Ok(truth),
            None => Err(bad(alloc, Cause::WrongType)),
        }
    }
}

/// A number from `low` to `high`.
#[derive(Clone, Copy)]
pub(crate) struct NumberForm {
    /// The least number.
    pub(crate) low: u32,
    /// The greatest number.
    pub(crate) high: u32,
}

impl Form for NumberForm {
    type Out = u32;

    ghost reads = { λ it d. number it.low it.high d };

    fn read(&self, alloc: Global, value: &Value) -> Result<u32, ScenarioFault> {
        match value.as_integer() {
            Some(found) => {
                if found < i64::from(self.low) || found > i64::from(self.high) {
                    return Err(bad(alloc, Cause::NumberRange));
                }
                Ok(found as u32)
            }
            None => Err(bad(alloc, Cause::WrongType)),
        }
    }
}

/// Reads a text that is a name.
pub(crate) fn name_in(alloc: Global, text: &str) -> Result<Name, ScenarioFault>
    ensures { Answers (name_in text.now) result }
{
    match Name::of(text.as_bytes()) {
        Some(name) => Ok(name),
        None => Err(bad(alloc, Cause::BadName)),
    }
}

/// A name.
#[derive(Clone, Copy)]
pub(crate) struct NameForm;

impl Form for NameForm {
    type Out = Name;

    ghost reads = { λ _ d. name d };

    fn read(&self, alloc: Global, value: &Value) -> Result<Name, ScenarioFault> {
        let text = text(alloc, value)?;
        name_in(alloc, text)
    }
}
