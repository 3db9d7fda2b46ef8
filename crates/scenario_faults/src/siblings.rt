//! The children of groups, and the names by which they order themselves.
ghost use Rattle.std.specs.Prelude.{◌≡◌, find, map, ◌++◌, IfOk};
ghost use Rattle.ent_types.specs.Types.{same_name};
ghost use Rattle.scenario_record.specs.Readings.{Passes};
ghost use Rattle.scenario_faults.specs.Checks.{group_sibling, system_sibling, siblings_of, cause_between, order_fault_from, order_fault, siblings_fault};

use crate::each::{Test, at_element, each};
use ent_types::{Memory, Name};
use scenario_record::{Cause, GroupEntry, Scenario, ScenarioFault, SystemEntry, bad};
use std::alloc::Global;

/// A child of a group: a group or a system.
#[derive(Clone, Copy, Debug)]
pub(crate) struct Sibling {
    /// Its name.
    pub(crate) name: Name,
    /// The group that it is a child of.
    pub(crate) parent: Name,
}

fn group_sibling(group: &GroupEntry) -> Sibling
    ensures { result ≡ group_sibling group.now }
{
    Sibling {
        name: group.name,
        parent: group.parent,
    }
}

fn system_sibling(system: &SystemEntry) -> Sibling
    ensures { result ≡ system_sibling system.now }
{
    Sibling {
        name: system.name,
        parent: system.group,
    }
}

fn push_groups(children: &mut Vec<Sibling>, groups: &[GroupEntry]) -> Result<(), Memory>
    ensures { IfOk result (λ _. children.new.items ≡ children.old.items ++ map group_sibling groups.now) }
{
    for group in groups {
        children.push(group_sibling(group))?;
    }
    Ok(())
}

fn push_systems(children: &mut Vec<Sibling>, systems: &[SystemEntry]) -> Result<(), Memory>
    ensures { IfOk result (λ _. children.new.items ≡ children.old.items ++ map system_sibling systems.now) }
{
    for system in systems {
        children.push(system_sibling(system))?;
    }
    Ok(())
}

/// Returns the children of all groups: the groups, then the systems.
fn siblings_of(alloc: Global, scenario: &Scenario) -> Result<Vec<Sibling>, Memory>
    ensures { IfOk result (λ all. all.items ≡ siblings_of scenario.now) }
{
    let mut children = Vec::new(alloc);
    push_groups(&mut children, scenario.group.as_slice())?;
    push_systems(&mut children, scenario.system.as_slice())?;
    Ok(children)
}

/// Returns the first child with this name.
fn child_named(all: &[Sibling], name: &Name) -> Option<Sibling>
    ensures { result ≡ find (λ other. same_name name.now other.name) all.now }
{
    for other in all {
        if *name == other.name {
            return Some(*other);
        }
    }
    None
}

/// Returns what is wrong if a child orders itself by another one: that is of another group, or the child itself.
fn cause_between(child: &Sibling, other: Option<Sibling>) -> Option<Cause>
    ensures { result ≡ cause_between child.now other }
{
    match other {
        Some(other) => {
            if child.parent == other.parent && child.name != other.name {
                None
            } else {
                Some(Cause::NotSibling)
            }
        }
        None => Some(Cause::UnknownName),
    }
}

/// Checks that each of the names under a key is that of another child of the group.
fn orders_by(
    alloc: Global,
    all: &[Sibling],
    child: &Sibling,
    key: &str,
    names: &[Name],
) -> Result<(), ScenarioFault>
    ensures { Passes (order_fault_from all.now child.now key.now 0 names.now) result }
{
    for (j, name) in names.iter().enumerate() {
        if let Some(cause) = cause_between(child, child_named(all, name)) {
            return Err(at_element(alloc, key, j, bad(alloc, cause)));
        }
    }
    Ok(())
}

/// Checks that a child orders itself by its siblings alone.
fn order(
    alloc: Global,
    all: &[Sibling],
    child: &Sibling,
    before: &[Name],
    after: &[Name],
) -> Result<(), ScenarioFault>
    ensures { Passes (order_fault all.now child.now before.now after.now) result }
{
    orders_by(alloc, all, child, "before", before)?;
    orders_by(alloc, all, child, "after", after)
}

/// The order of a group among its siblings.
#[derive(Drop)]
struct GroupOrder<'a> {
    /// The children of all groups.
    all: &'a [Sibling],
}

impl<'a> Test for GroupOrder<'a> {
    type Item = GroupEntry;

    ghost fault = { λ it g. order_fault it.all.now (group_sibling g) g.before g.after };

    fn test(&self, alloc: Global, group: &GroupEntry) -> Result<(), ScenarioFault> {
        let child = group_sibling(group);
        let (before, after) = (group.before.as_slice(), group.after.as_slice());
        order(alloc, self.all, &child, before, after)
    }
}

/// The order of a system among its siblings.
#[derive(Drop)]
struct SystemOrder<'a> {
    /// The children of all groups.
    all: &'a [Sibling],
}

impl<'a> Test for SystemOrder<'a> {
    type Item = SystemEntry;

    ghost fault = { λ it y. order_fault it.all.now (system_sibling y) y.before y.after };

    fn test(&self, alloc: Global, system: &SystemEntry) -> Result<(), ScenarioFault> {
        let child = system_sibling(system);
        let (before, after) = (system.before.as_slice(), system.after.as_slice());
        order(alloc, self.all, &child, before, after)
    }
}

/// Checks that each child orders itself by its siblings alone.
#[tactic(auto, unfolding(crate::specs::Checks::siblings_fault))]
pub fn siblings(alloc: Global, scenario: &Scenario) -> Result<(), ScenarioFault>
    ensures { Passes (siblings_fault scenario.now) result }
{
    let all = siblings_of(alloc, scenario)?;
    let all = all.as_slice();
    each(
        alloc,
        "group",
        &GroupOrder { all },
        scenario.group.as_slice(),
    )?;
    each(
        alloc,
        "system",
        &SystemOrder { all },
        scenario.system.as_slice(),
    )
}
