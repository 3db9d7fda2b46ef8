//! The children of the groups of a scenario: the root groups, the declared groups, then the systems. A child's number is
//! its place among them.
ghost use Rattle.std.specs.Prelude.{◌≡◌, ◌+◌, ◌≤◌, ◌++◌, ◌∷◌, [], None, length, map, position, filter_map, IfOk};
ghost use Rattle.ent_types.specs.Types.{same_name};
ghost use Rattle.indexmap.specs.IndexSet.{insert_all};
ghost use Rattle.scenario_faults.specs.Checks.{names_fault};
ghost use Rattle.run_model.specs.Steps.{root_names, group_number, band_of, root, group_child, system_child, children_of};
ghost use Rattle.scenario_check.specs.Children.{child_names, number_among};
ghost use Rattle.scenario_check.specs.Read.{IsRead};

use ent_types::limits::{MOST_GROUPS, MOST_SYSTEMS};
use ent_types::{Memory, Name, Sequence};
use indexmap::IndexSet;
use scenario_record::{GroupEntry, Scenario, SystemEntry};
use std::alloc::Global;
use system_order::{Band, Child};

/// How many root groups there are. They come before the other children.
pub(crate) const ROOTS: usize = 3;

/// The number of the root group `Simulation`, which is the default of systems and groups.
const SIMULATION: u32 = 1;

fn add_groups(names: &mut IndexSet<Name>, groups: &[GroupEntry]) -> Result<(), Memory>
    ensures { IfOk result (λ _. names.new.keys ≡ insert_all same_name names.old.keys (map (λ g. g.name) groups.now)) }
{
    for group in groups {
        names.insert(group.name)?;
    }
    Ok(())
}

fn add_systems(names: &mut IndexSet<Name>, systems: &[SystemEntry]) -> Result<(), Memory>
    ensures { IfOk result (λ _. names.new.keys ≡ insert_all same_name names.old.keys (map (λ y. y.name) systems.now)) }
{
    for system in systems {
        names.insert(system.name)?;
    }
    Ok(())
}

/// Returns the names of the groups, then those of the systems. No name is there twice.
fn names_of(alloc: Global, scenario: &Scenario) -> Result<IndexSet<Name>, Memory>
    requires { names_fault scenario.now ≡ None }
    ensures { IfOk result (λ names. names.keys ≡ child_names scenario.now) }
{
    let mut names = IndexSet::new(alloc);
    add_groups(&mut names, scenario.group.as_slice())?;
    add_systems(&mut names, scenario.system.as_slice())?;
    Ok(names)
}

/// Returns the number of the root group with a name, if there is one.
fn root_number(name: &Name) -> Option<u32>
    ensures { result ≡ position (same_name name.now) root_names }
{
    let name = name.as_bytes();
    if name == b"Initialization".as_slice() {
        return Some(0);
    }
    if name == b"Simulation".as_slice() {
        return Some(SIMULATION);
    }
    if name == b"Presentation".as_slice() {
        return Some(2);
    }
    None
}

/// Returns the number of the group with a name. A name that no group has reads as `Simulation`.
fn group_number(scenario: &Scenario, names: &IndexSet<Name>, name: &Name) -> u32
    requires read { IsRead scenario.now }
    requires names { names.now.keys ≡ child_names scenario.now }
    ensures { result ≡ group_number scenario.now.group name.now }
{
    if let Some(number) = root_number(name) {
        return number;
    }
    match names.get_index_of(name) {
        Some(place) => {
            if place < scenario.group.len() {
                return (ROOTS + place) as u32;
            }
            SIMULATION
        }
        None => SIMULATION,
    }
}

/// Returns the number of the group or system with a name, if there is one.
fn child_named(names: &IndexSet<Name>, name: &Name) -> Option<u32>
    requires { length names.now.keys ≤ MOST_GROUPS + MOST_SYSTEMS }
    ensures { result ≡ number_among names.now.keys name.now }
{
    let place = names.get_index_of(name)?;
    Some((ROOTS + place) as u32)
}

/// Appends the number of the group or system with a name, if there is one.
fn push_named(
    numbers: &mut Sequence<u32>,
    names: &IndexSet<Name>,
    name: &Name,
) -> Result<(), Memory>
    requires { length names.now.keys ≤ MOST_GROUPS + MOST_SYSTEMS }
    ensures { IfOk result (λ _. numbers.new ≡ numbers.old ++ filter_map (number_among names.now.keys) (name.now ∷ [])) }
{
    match child_named(names, name) {
        Some(number) => numbers.push(number),
        None => Ok(()),
    }
}

/// Returns the numbers of the siblings that a child names.
fn children_named(
    alloc: Global,
    names: &IndexSet<Name>,
    named: &[Name],
) -> Result<Sequence<u32>, Memory>
    requires { length names.now.keys ≤ MOST_GROUPS + MOST_SYSTEMS }
    ensures { IfOk result (λ numbers. numbers ≡ filter_map (number_among names.now.keys) named.now) }
{
    let mut numbers = Sequence::new(alloc);
    for name in named {
        push_named(&mut numbers, names, name)?;
    }
    Ok(numbers)
}

/// Returns the band of a child, by its marks.
fn band_of(first: bool, last: bool) -> Band
    ensures { result ≡ band_of first last }
{
    if first {
        return Band::First;
    }
    if last { Band::Last } else { Band::Middle }
}

fn root(alloc: Global) -> Child
    ensures { result ≡ root }
{
    Child {
        parent: 0,
        is_group: true,
        band: Band::Middle,
        before: Sequence::new(alloc),
        after: Sequence::new(alloc),
    }
}

fn group_child(
    alloc: Global,
    scenario: &Scenario,
    names: &IndexSet<Name>,
    group: &GroupEntry,
) -> Result<Child, Memory>
    requires read { IsRead scenario.now }
    requires names { names.now.keys ≡ child_names scenario.now }
    ensures { IfOk result (λ child. child ≡ group_child scenario.now group.now) }
{
    Ok(Child {
        parent: group_number(scenario, names, &group.parent),
        is_group: true,
        band: band_of(group.first, group.last),
        before: children_named(alloc, names, group.before.as_slice())?,
        after: children_named(alloc, names, group.after.as_slice())?,
    })
}

fn system_child(
    alloc: Global,
    scenario: &Scenario,
    names: &IndexSet<Name>,
    system: &SystemEntry,
) -> Result<Child, Memory>
    requires read { IsRead scenario.now }
    requires names { names.now.keys ≡ child_names scenario.now }
    ensures { IfOk result (λ child. child ≡ system_child scenario.now system.now) }
{
    Ok(Child {
        parent: group_number(scenario, names, &system.group),
        is_group: false,
        band: band_of(system.first, system.last),
        before: children_named(alloc, names, system.before.as_slice())?,
        after: children_named(alloc, names, system.after.as_slice())?,
    })
}

fn push_groups(
    alloc: Global,
    scenario: &Scenario,
    names: &IndexSet<Name>,
    children: &mut Vec<Child>,
) -> Result<(), Memory>
    requires read { IsRead scenario.now }
    requires names { names.now.keys ≡ child_names scenario.now }
    ensures { IfOk result (λ _. children.new.items ≡ children.old.items ++ map (group_child scenario.now) scenario.now.group) }
{
    for group in scenario.group.as_slice() {
        children.push(group_child(alloc, scenario, names, group)?)?;
    }
    Ok(())
}

fn push_systems(
    alloc: Global,
    scenario: &Scenario,
    names: &IndexSet<Name>,
    children: &mut Vec<Child>,
) -> Result<(), Memory>
    requires read { IsRead scenario.now }
    requires names { names.now.keys ≡ child_names scenario.now }
    ensures { IfOk result (λ _. children.new.items ≡ children.old.items ++ map (system_child scenario.now) scenario.now.system) }
{
    for system in scenario.system.as_slice() {
        children.push(system_child(alloc, scenario, names, system)?)?;
    }
    Ok(())
}

/// Returns the children of all groups: the root groups, the declared groups, then the systems.
#[tactic(auto, unfolding(run_model::specs::Steps::children_of))]
pub(crate) fn children_of(alloc: Global, scenario: &Scenario) -> Result<Vec<Child>, Memory>
    requires read { IsRead scenario.now }
    requires names { names_fault scenario.now ≡ None }
    ensures { IfOk result (λ children. children.items ≡ children_of scenario.now) }
{
    let names = names_of(alloc, scenario)?;
    let mut children = vec![in alloc; root(alloc), root(alloc), root(alloc)]?;
    push_groups(alloc, scenario, &names, &mut children)?;
    push_systems(alloc, scenario, &names, &mut children)?;
    Ok(children)
}
