//! The keys that place groups and systems, and the key that isn't run yet.
ghost use Rattle.std.specs.Prelude.{◌≡◌, map};
ghost use Rattle.toml.specs.Data.{get_member};
ghost use Rattle.toml.specs.View.{view, items_view, table_view};
ghost use Rattle.scenario_tables.specs.ReadStages.{has_key, has_any, one_has, any_has, in_list, is_placed, is_unbuilt};

use crate::keys::value_of;
use toml::{Table, Value};

/// The keys that place a system.
const PLACING: [&str; 5] = ["group", "before", "after", "first", "last"];

/// The key of a system that isn't run yet.
const COMMANDS: [&str; 1] = ["command"];

/// `true` if a table has a key.
fn has_key(table: &Table, key: &str) -> bool
    ensures { result ≡ has_key key.now (table_view table.now) }
{
    value_of(table, key).is_some()
}

/// `true` if a table has one of these keys.
fn has_any(table: &Table, keys: &[&str]) -> bool
    ensures { result ≡ has_any (map (λ key. key.now) keys.now) (table_view table.now) }
{
    for key in keys {
        if has_key(table, key) {
            return true;
        }
    }
    false
}

/// `true` if a value is a table with one of these keys.
fn one_has(value: &Value, keys: &[&str]) -> bool
    ensures { result ≡ one_has (map (λ key. key.now) keys.now) (view value.now) }
{
    match value {
        Value::Table(table) => has_any(table, keys),
        _ => false,
    }
}

/// `true` if some value of a list is a table with one of these keys.
fn any_has(values: &[Value], keys: &[&str]) -> bool
    ensures { result ≡ any_has (map (λ key. key.now) keys.now) (items_view values.now) }
{
    for value in values {
        if one_has(value, keys) {
            return true;
        }
    }
    false
}

/// `true` if some table of the list under a key has one of these keys.
fn in_list(table: &Table, list: &str, keys: &[&str]) -> bool
    ensures { result ≡ in_list (map (λ key. key.now) keys.now) (get_member list.now (table_view table.now)) }
{
    match value_of(table, list) {
        Some(Value::Array(values)) => any_has(values.as_slice(), keys),
        _ => false,
    }
}

/// `true` if some key places a group or a system among its siblings.
pub(crate) fn is_placed(table: &Table) -> bool
    ensures { result ≡ is_placed (table_view table.now) }
{
    has_key(table, "group") || in_list(table, "system", &PLACING)
}

/// `true` if some system has the key that isn't run yet.
pub(crate) fn is_unbuilt(table: &Table) -> bool
    ensures { result ≡ is_unbuilt (table_view table.now) }
{
    in_list(table, "system", &COMMANDS)
}
