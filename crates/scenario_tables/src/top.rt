//! The table at the top of a scenario.
ghost use Rattle.toml.specs.View.{table_view};
ghost use Rattle.scenario_record.specs.Readings.{Answers, whole_path};
ghost use Rattle.scenario_tables.specs.ReadTop.{top_table};

use crate::events::EventForm;
use crate::form::{ListOf, list_under, optional, required, settled};
use crate::groups::GroupForm;
use crate::keys::{NumberForm, only_known};
use crate::spawns::SpawnForm;
use crate::stages::{is_placed, is_unbuilt};
use crate::systems::SystemForm;
use crate::types::RegistryForm;
use ent_types::Registry;
use ent_types::limits::{MOST_EVENTS, MOST_FRAMES, MOST_GROUPS, MOST_SPAWNS, MOST_SYSTEMS};
use scenario_record::{Scenario, ScenarioFault, whole_fault};
use std::alloc::Global;
use toml::Table;

/// The keys at the top, in reading order.
const KEYS: [&str; 8] = [
    "frames",
    "first_system_version",
    "first_entity_version",
    "type",
    "spawn",
    "group",
    "system",
    "event",
];

/// Reads the scenario of a document.
#[tactic(auto, unfolding(crate::specs::ReadTop::top_table))]
fn top_table(alloc: Global, table: &Table) -> Result<Scenario, ScenarioFault>
    ensures { Answers (top_table (table_view table.now)) result }
{
    let counts = NumberForm {
        low: 0,
        high: MOST_FRAMES,
    };
    let versions = NumberForm {
        low: 1,
        high: u32::MAX,
    };
    only_known(alloc, &KEYS, table)?;
    let frames = required(alloc, "frames", &counts, table)?;
    let built_in = Registry::new(alloc)?;
    let mut fault = None;
    let first_system_version = optional(
        alloc,
        &mut fault,
        "first_system_version",
        1,
        &versions,
        table,
    );
    let first_entity_version = optional(
        alloc,
        &mut fault,
        "first_entity_version",
        1,
        &versions,
        table,
    );
    let registry = optional(alloc, &mut fault, "type", built_in, &RegistryForm, table);
    let spawns = ListOf {
        most: MOST_SPAWNS,
        form: &SpawnForm {
            registry: &registry,
        },
    };
    let groups = ListOf {
        most: MOST_GROUPS,
        form: &GroupForm,
    };
    let systems = ListOf {
        most: MOST_SYSTEMS,
        form: &SystemForm {
            registry: &registry,
        },
    };
    let events = ListOf {
        most: MOST_EVENTS,
        form: &EventForm {
            registry: &registry,
        },
    };
    let spawn = list_under(alloc, &mut fault, "spawn", &spawns, table);
    let group = list_under(alloc, &mut fault, "group", &groups, table);
    let system = list_under(alloc, &mut fault, "system", &systems, table);
    let event = list_under(alloc, &mut fault, "event", &events, table);
    let scenario = Scenario {
        frames,
        first_system_version,
        first_entity_version,
        registry,
        spawn,
        group,
        system,
        event,
        placed: is_placed(table),
        unbuilt: is_unbuilt(table),
    };
    settled(fault, Ok(scenario))
}

/// Reads the scenario that a document is, or returns its first fault.
///
/// In each table the least unknown key comes first, then the first fault of its keys in the order of the format's tables,
/// then a fault of its shape. A fault has the path of its value, and a fault of a text also the place of the invalid
/// token, in bytes. `Memory` is returned only if memory runs out. The causes and their order are entsim's own.
pub fn read_table(alloc: Global, table: &Table) -> Result<Scenario, ScenarioFault>
    ensures { Answers (whole_path (top_table (table_view table.now))) result }
{
    match top_table(alloc, table) {
        Ok(scenario) => Ok(scenario),
        Err(fault) => Err(whole_fault(alloc, fault)),
    }
}
