//! The names of groups and systems, which are distinct, and the groups that they are children of, which exist.
ghost use Rattle.std.specs.Prelude.{◌≡◌, ◌++◌, ◌||◌, map};
ghost use Rattle.std.specs.List.{list_any};
ghost use Rattle.ent_types.specs.Types.{same_name};
ghost use Rattle.scenario_record.specs.Readings.{Passes};
ghost use Rattle.scenario_faults.specs.Checks.{root_groups, repeated_from, names_fault, orphan_from, stray_from, parents_fault};

use crate::each::none_found;
use ent_types::Name;
use scenario_record::{Cause, GroupEntry, Scenario, ScenarioFault, SystemEntry};
use std::alloc::Global;

/// `true` if a root group, which always exists, has the name.
fn is_root(name: &Name) -> bool
    ensures { result ≡ list_any (same_name name.now) root_groups }
{
    let name = name.as_bytes();
    name == b"Initialization".as_slice()
        || name == b"Simulation".as_slice()
        || name == b"Presentation".as_slice()
}

/// `true` if one of the groups has the name.
fn has_group(groups: &[GroupEntry], name: &Name) -> bool
    ensures { result ≡ list_any (λ g. same_name name.now g.name) groups.now }
{
    groups.iter().any(|group| *name == group.name)
}

/// `true` if one of the systems has the name.
fn has_system(systems: &[SystemEntry], name: &Name) -> bool
    ensures { result ≡ list_any (λ y. same_name name.now y.name) systems.now }
{
    systems.iter().any(|system| *name == system.name)
}

/// `true` if a root group or one of these groups has the name.
fn is_known(groups: &[GroupEntry], name: &Name) -> bool
    ensures { result ≡ (list_any (same_name name.now) root_groups || list_any (λ g. same_name name.now g.name) groups.now) }
{
    is_root(name) || has_group(groups, name)
}

/// `true` if a group or one of these systems has the name.
fn is_taken(groups: &[GroupEntry], systems: &[SystemEntry], name: &Name) -> bool
    ensures { result ≡ ((list_any (same_name name.now) root_groups || list_any (λ g. same_name name.now g.name) groups.now) || list_any (λ y. same_name name.now y.name) systems.now) }
{
    is_known(groups, name) || has_system(systems, name)
}

/// Returns the place of the first group whose name is taken.
fn repeated_group(groups: &[GroupEntry]) -> Option<usize>
    ensures { result ≡ repeated_from root_groups 0 (map (λ g. g.name) groups.now) }
{
    for (i, group) in groups.iter().enumerate() {
        if is_known(&groups[..i], &group.name) {
            return Some(i);
        }
    }
    None
}

/// Returns the place of the first system whose name is taken.
fn repeated_system(groups: &[GroupEntry], systems: &[SystemEntry]) -> Option<usize>
    ensures { result ≡ repeated_from (root_groups ++ map (λ g. g.name) groups.now) 0 (map (λ y. y.name) systems.now) }
{
    for (i, system) in systems.iter().enumerate() {
        if is_taken(groups, &systems[..i], &system.name) {
            return Some(i);
        }
    }
    None
}

/// Checks that the names of groups and systems are distinct, and that no root group has one of them.
#[tactic(auto, unfolding(crate::specs::Checks::names_fault))]
pub fn names(alloc: Global, scenario: &Scenario) -> Result<(), ScenarioFault>
    ensures { Passes (names_fault scenario.now) result }
{
    let groups = scenario.group.as_slice();
    let repeated = Cause::DuplicateName;
    none_found(alloc, "group", "name", repeated, repeated_group(groups))?;
    let found = repeated_system(groups, scenario.system.as_slice());
    none_found(alloc, "system", "name", repeated, found)
}

/// Returns the place of the first group whose parent is neither a root group nor an earlier group.
fn orphan(groups: &[GroupEntry]) -> Option<usize>
    ensures { result ≡ orphan_from root_groups 0 groups.now }
{
    for (i, group) in groups.iter().enumerate() {
        if !is_known(&groups[..i], &group.parent) {
            return Some(i);
        }
    }
    None
}

/// Returns the place of the first system whose group is neither a root group nor declared.
fn stray(groups: &[GroupEntry], systems: &[SystemEntry]) -> Option<usize>
    ensures { result ≡ stray_from (root_groups ++ map (λ g. g.name) groups.now) 0 systems.now }
{
    for (i, system) in systems.iter().enumerate() {
        if !is_known(groups, &system.group) {
            return Some(i);
        }
    }
    None
}

/// Checks that each group and each system is the child of a group that exists.
#[tactic(auto, unfolding(crate::specs::Checks::parents_fault))]
pub fn parents(alloc: Global, scenario: &Scenario) -> Result<(), ScenarioFault>
    ensures { Passes (parents_fault scenario.now) result }
{
    let groups = scenario.group.as_slice();
    none_found(alloc, "group", "parent", Cause::UnknownName, orphan(groups))?;
    let found = stray(groups, scenario.system.as_slice());
    none_found(alloc, "system", "group", Cause::UnknownName, found)
}
