//! Systems, as a scenario declares them.
ghost use Rattle.toml.specs.View.{table_view};
ghost use Rattle.scenario_record.specs.Readings.{Answers};
ghost use Rattle.scenario_tables.specs.FirstFault.{Reads};
ghost use Rattle.scenario_tables.specs.ReadSystems.{acts, placed, system};

use crate::commands::CommandsForm;
use crate::form::{Form, ListOf, list_under, optional, required, settled};
use crate::groups::{group_named, placement_of};
use crate::keys::{NameForm, NumberForm, known_table};
use crate::queries::{bound_types, clauses_of, filters_of};
use crate::texts::{AssignText, SwitchText, SystemText};
use ent_types::limits::{MOST_ASSIGNS, MOST_FRAMES, MOST_SWITCHES};
use ent_types::{Registry, Sequence, TypeSet};
use expr_trees::{Assign, Switch};
use scenario_record::{Cause, CommandEntry, ScenarioFault, SystemEntry, bad};
use std::alloc::Global;
use toml::{Table, Value};

/// The keys of a system, in reading order.
const KEYS: [&str; 20] = [
    "name",
    "group",
    "before",
    "after",
    "first",
    "last",
    "every",
    "all",
    "any",
    "none",
    "disabled",
    "absent",
    "include_disabled",
    "include_prefab",
    "changed",
    "order_changed",
    "shared",
    "set",
    "enable",
    "command",
];

/// The acts of a system on each row, in this order.
#[derive(Drop)]
struct Acts {
    /// The assignments.
    set: Sequence<Assign>,
    /// The switches of enable bits.
    enable: Sequence<Switch>,
    /// The commands.
    command: Sequence<CommandEntry>,
}

/// Reads the acts of a system on each row, which has the bound types, unless there is a fault before them.
fn acts_of(
    alloc: Global,
    fault: &mut Option<ScenarioFault>,
    registry: &Registry,
    bound: &TypeSet,
    table: &Table,
) -> Acts
    ensures { Reads (acts registry.now bound.now (table_view table.now)) fault.old fault.new result }
{
    let assigns = SystemText {
        kind: AssignText,
        registry,
        bound,
        made: &[],
    };
    let switches = SystemText {
        kind: SwitchText,
        registry,
        bound,
        made: &[],
    };
    let commands = CommandsForm { registry, bound };
    let sets = ListOf {
        most: MOST_ASSIGNS,
        form: &assigns,
    };
    let enables = ListOf {
        most: MOST_SWITCHES,
        form: &switches,
    };
    let set = list_under(alloc, fault, "set", &sets, table);
    let enable = list_under(alloc, fault, "enable", &enables, table);
    let command = list_under(alloc, fault, "command", &commands, table);
    Acts {
        set,
        enable,
        command,
    }
}

/// Returns the system, which can't be both first and last.
fn placed(alloc: Global, system: SystemEntry) -> Result<SystemEntry, ScenarioFault>
    ensures { Answers (placed system) result }
{
    if system.first && system.last {
        return Err(bad(alloc, Cause::BadShape));
    }
    Ok(system)
}

/// A system.
#[derive(Clone, Copy)]
pub(crate) struct SystemForm<'a> {
    /// The types.
    pub(crate) registry: &'a Registry,
}

impl<'a> Form for SystemForm<'a> {
    type Out = SystemEntry;

    ghost reads = { λ it d. system it.registry.now d };

    #[tactic(auto, unfolding(crate::specs::ReadSystems::system))]
    fn read(&self, alloc: Global, value: &Value) -> Result<SystemEntry, ScenarioFault> {
        let registry = self.registry;
        let table = known_table(alloc, &KEYS, value)?;
        let name = required(alloc, "name", &NameForm, table)?;
        let frames = NumberForm {
            low: 1,
            high: MOST_FRAMES,
        };
        let mut fault = None;
        let group = group_named(alloc, &mut fault, "group", table);
        let placement = placement_of(alloc, &mut fault, table);
        let every = optional(alloc, &mut fault, "every", 1, &frames, table);
        let clauses = clauses_of(alloc, &mut fault, registry, table);
        let filters = filters_of(alloc, &mut fault, registry, &clauses.all, table);
        let acts = acts_of(alloc, &mut fault, registry, &bound_types(&clauses), table);
        let system = SystemEntry {
            name,
            group,
            before: placement.before,
            after: placement.after,
            first: placement.first,
            last: placement.last,
            every,
            all: clauses.all,
            any: clauses.any,
            none: clauses.none,
            disabled: clauses.disabled,
            absent: clauses.absent,
            include_disabled: filters.include_disabled,
            include_prefab: filters.include_prefab,
            changed: filters.changed,
            order_changed: filters.order_changed,
            shared: filters.shared,
            set: acts.set,
            enable: acts.enable,
            command: acts.command,
        };
        settled(fault, placed(alloc, system))
    }
}
