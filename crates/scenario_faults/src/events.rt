//! The names of loads, which are distinct, and the loads that are unloaded, which exist.
ghost use Rattle.std.specs.Prelude.{◌≡◌, ◌||◌, ℕ, List, [], codes, IfOk};
ghost use Rattle.std.specs.List.{list_any};
ghost use Rattle.ent_types.specs.Types.{same_name};
ghost use Rattle.scenario_record.specs.declared.fault.ScenarioFault.TheVariants.{Bad};
ghost use Rattle.scenario_record.specs.Faults.{IsMoved, bad, below_key};
ghost use Rattle.scenario_record.specs.Readings.{Passes};
ghost use Rattle.scenario_faults.specs.Checks.{label_of, event_fault_from, events_fault};
ghost use Rattle.scenario_faults.specs.Labels.{HasLabels, has_label, fault_by};

use crate::each::at_element;
use ent_types::{Memory, Name};
use indexmap::IndexSet;
use scenario_record::{Cause, EventAct, EventEntry, Scenario, ScenarioFault, bad, below_key};
use std::alloc::Global;

/// Returns the name of a load; `None` if the event is no load.
fn label_of(act: &EventAct) -> Option<Name>
    ensures { result ≡ label_of act.now }
{
    match act {
        EventAct::Operate(_) => None,
        EventAct::Load { label, .. } => Some(*label),
        EventAct::Unload(_) => None,
    }
}

/// Adds the name of a load, if the event is one.
fn add_label(labels: &mut IndexSet<Name>, act: &EventAct) -> Result<(), Memory>
    ensures { IfOk result (λ _. (n : List ℕ) → list_any (same_name n) labels.new.keys ≡ (has_label n act.now || list_any (same_name n) labels.old.keys)) }
{
    match label_of(act) {
        Some(label) => {
            labels.insert(label)?;
            Ok(())
        }
        None => Ok(()),
    }
}

/// Returns the names of the loads.
fn labels_of(alloc: Global, events: &[EventEntry]) -> Result<IndexSet<Name>, Memory>
    ensures { IfOk result (λ labels. HasLabels labels.keys events.now) }
{
    let mut labels = IndexSet::new(alloc);
    for event in events {
        add_label(&mut labels, &event.act)?;
    }
    Ok(labels)
}

/// Returns the fault of the value under a key of an event.
fn event_fault(alloc: Global, key: &str, cause: Cause) -> ScenarioFault
    ensures { IsMoved (below_key key.now) (Bad (bad cause)) result }
{
    let fault = bad(alloc, cause);
    below_key(alloc, key, fault)
}

/// Checks that a load has a name that no earlier one has, and that an unload names a load.
fn fits(
    alloc: Global,
    all: &IndexSet<Name>,
    earlier: &IndexSet<Name>,
    act: &EventAct,
) -> Result<(), ScenarioFault>
    ensures { Passes (fault_by all.now.keys earlier.now.keys act.now) result }
{
    match act {
        EventAct::Operate(_) => Ok(()),
        EventAct::Load { label, .. } => {
            if earlier.contains(label) {
                return Err(event_fault(alloc, "as", Cause::DuplicateName));
            }
            Ok(())
        }
        EventAct::Unload(name) => {
            if !all.contains(name) {
                return Err(event_fault(alloc, "unload", Cause::UnknownName));
            }
            Ok(())
        }
    }
}

/// Checks that the names of loads are distinct, and that each unload names a load.
fn each_fits(
    alloc: Global,
    all: &IndexSet<Name>,
    events: &[EventEntry],
) -> Result<(), ScenarioFault>
    requires { HasLabels all.now.keys events.now }
    ensures { Passes (event_fault_from events.now [] 0 events.now) result }
{
    let mut earlier = IndexSet::new(alloc);
    for (i, event) in events.iter().enumerate() {
        if let Err(fault) = fits(alloc, all, &earlier, &event.act) {
            return Err(at_element(alloc, "event", i, fault));
        }
        add_label(&mut earlier, &event.act)?;
    }
    Ok(())
}

/// Checks that the names of loads are distinct, and that each unload names a load.
#[tactic(auto, unfolding(crate::specs::Checks::events_fault))]
pub fn events(alloc: Global, scenario: &Scenario) -> Result<(), ScenarioFault>
    ensures { Passes (events_fault scenario.now) result }
{
    let events = scenario.event.as_slice();
    let all = labels_of(alloc, events)?;
    each_fits(alloc, &all, events)
}
