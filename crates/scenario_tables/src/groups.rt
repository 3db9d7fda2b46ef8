//! The keys that place a child among its siblings, and groups.
ghost use Rattle.std.specs.Prelude.{◌≡◌};
ghost use Rattle.toml.specs.View.{table_view};
ghost use Rattle.scenario_record.specs.Readings.{Answers};
ghost use Rattle.scenario_tables.specs.FirstFault.{Reads};
ghost use Rattle.scenario_tables.specs.ReadGroups.{placement, in_two_bands, default_group, group_named, group_with, group};

use crate::form::{Form, ListOf, list_under, optional, required, settled};
use crate::keys::{NameForm, TruthForm, known_table};
use ent_types::limits::MOST_ORDER_NAMES;
use ent_types::{Name, Sequence};
use scenario_record::{Cause, GroupEntry, ScenarioFault, bad};
use std::alloc::Global;
use toml::{Table, Value};

/// The keys of a group, in reading order.
const KEYS: [&str; 6] = ["name", "parent", "before", "after", "first", "last"];

/// The siblings that a child comes before and after, and its band.
#[derive(Drop)]
pub(crate) struct Placement {
    /// The siblings that it comes before.
    pub(crate) before: Sequence<Name>,
    /// The siblings that it comes after.
    pub(crate) after: Sequence<Name>,
    /// Whether it comes before the siblings that aren't marked so.
    pub(crate) first: bool,
    /// Whether it comes after the siblings that aren't marked so.
    pub(crate) last: bool,
}

/// Reads the keys that place a child among its siblings, unless there is a fault before them.
pub(crate) fn placement_of(
    alloc: Global,
    fault: &mut Option<ScenarioFault>,
    table: &Table,
) -> Placement
    ensures { Reads (placement (table_view table.now)) fault.old fault.new result }
{
    let names = ListOf {
        most: MOST_ORDER_NAMES,
        form: &NameForm,
    };
    let before = list_under(alloc, fault, "before", &names, table);
    let after = list_under(alloc, fault, "after", &names, table);
    let first = optional(alloc, fault, "first", false, &TruthForm, table);
    let last = optional(alloc, fault, "last", false, &TruthForm, table);
    Placement {
        before,
        after,
        first,
        last,
    }
}

impl Placement {
    /// `true` if it puts a child both first and last, which is refused.
    pub(crate) fn is_in_two_bands(&self) -> bool
        ensures { result ≡ in_two_bands self.now }
    {
        self.first && self.last
    }
}

/// Returns the group of a child that names none.
fn default_group() -> Name
    ensures { result ≡ default_group }
{
    match Name::of(b"Simulation") {
        Some(name) => name,
        None => unreachable!(),
    }
}

/// Reads the group that a key names, unless there is a fault before it.
pub(crate) fn group_named(
    alloc: Global,
    fault: &mut Option<ScenarioFault>,
    key: &str,
    table: &Table,
) -> Name
    ensures { Reads (group_named key.now (table_view table.now)) fault.old fault.new result }
{
    optional(alloc, fault, key, default_group(), &NameForm, table)
}

/// Returns the group with this name, parent and placement, which can't be both first and last.
fn group_with(
    alloc: Global,
    name: Name,
    parent: Name,
    placement: Placement,
) -> Result<GroupEntry, ScenarioFault>
    ensures { Answers (group_with name parent placement) result }
{
    if placement.is_in_two_bands() {
        return Err(bad(alloc, Cause::BadShape));
    }
    Ok(GroupEntry {
        name,
        parent,
        before: placement.before,
        after: placement.after,
        first: placement.first,
        last: placement.last,
    })
}

/// A group.
#[derive(Clone, Copy)]
pub(crate) struct GroupForm;

impl Form for GroupForm {
    type Out = GroupEntry;

    ghost reads = { λ _ d. group d };

    #[tactic(auto, unfolding(crate::specs::ReadGroups::group))]
    fn read(&self, alloc: Global, value: &Value) -> Result<GroupEntry, ScenarioFault> {
        let table = known_table(alloc, &KEYS, value)?;
        let name = required(alloc, "name", &NameForm, table)?;
        let mut fault = None;
        let parent = group_named(alloc, &mut fault, "parent", table);
        let placement = placement_of(alloc, &mut fault, table);
        settled(fault, group_with(alloc, name, parent, placement))
    }
}
