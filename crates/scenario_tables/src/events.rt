//! Events, as a scenario declares them.
ghost use Rattle.std.specs.Prelude.{None, Some};
ghost use Rattle.scenario_record.specs.declared.record.EventAct.TheVariants.{Unload};
ghost use Rattle.scenario_record.specs.Readings.{Answers, Passes};
ghost use Rattle.scenario_tables.specs.ReadEvents.{file_name, load_act, lone_fault, lone_act, operation_fault, act_of, event_with, event};

use crate::form::{Form, Maybe, optional, required, settled};
use crate::keys::{NameForm, NumberForm, known_table, text};
use crate::texts::OperationForm;
use ent_types::limits::{LONGEST_FILE_NAME, MOST_FRAMES};
use ent_types::{Name, Registry, Sequence};
use expr_trees::CommandText;
use scenario_record::{Cause, EventAct, EventEntry, FileName, ScenarioFault, bad, below_key};
use std::alloc::Global;
use toml::Value;

/// The keys of an event, in reading order.
const KEYS: [&str; 6] = ["frame", "do", "load", "as", "delay", "unload"];

/// A file name, of 1 to `LONGEST_FILE_NAME` bytes.
#[derive(Clone, Copy)]
struct FileForm;

impl Form for FileForm {
    type Out = FileName;

    ghost reads = { λ _ d. file_name d };

    fn read(&self, alloc: Global, value: &Value) -> Result<FileName, ScenarioFault> {
        let bytes = text(alloc, value)?.as_bytes();
        if bytes.len() < 1 || bytes.len() > LONGEST_FILE_NAME {
            return Err(bad(alloc, Cause::BadName));
        }
        match Vec::from_slice(alloc, bytes) {
            Ok(name) => Ok(Sequence::from_vec(name)),
            Err(_) => Err(ScenarioFault::Memory),
        }
    }
}

fn load_act(
    alloc: Global,
    file: FileName,
    label: Option<Name>,
    delay: Option<u32>,
) -> Result<EventAct, ScenarioFault>
    ensures { Answers (load_act file label delay) result }
{
    match label {
        Some(label) => Ok(EventAct::Load {
            file,
            label,
            delay: delay.unwrap_or(1),
        }),
        None => Err(below_key(alloc, "as", bad(alloc, Cause::Missing))),
    }
}

/// Checks that an act has neither `as` nor `delay`.
fn is_lone(alloc: Global, label: Option<Name>, delay: Option<u32>) -> Result<(), ScenarioFault>
    ensures { Passes (lone_fault label delay) result }
{
    match (label, delay) {
        (None, None) => Ok(()),
        (None, Some(_)) => Err(bad(alloc, Cause::BadShape)),
        (Some(_), None) => Err(bad(alloc, Cause::BadShape)),
        (Some(_), Some(_)) => Err(bad(alloc, Cause::BadShape)),
    }
}

/// The keys of an event that loads or unloads a scene.
#[derive(Drop)]
struct SceneKeys {
    /// The file that is loaded.
    load: Option<FileName>,
    /// The name of the load.
    label: Option<Name>,
    /// How many frames later the scene is moved in.
    delay: Option<u32>,
    /// The load that is unloaded.
    unload: Option<Name>,
}

/// Checks that an event with `do` has no other key of an act.
fn only_operates(alloc: Global, keys: &SceneKeys) -> Result<(), ScenarioFault>
    ensures { Passes (operation_fault keys.now.load keys.now.unload keys.now.label keys.now.delay) result }
{
    match (&keys.load, keys.unload) {
        (None, None) => is_lone(alloc, keys.label, keys.delay),
        (None, Some(_)) => Err(bad(alloc, Cause::BadShape)),
        (Some(_), None) => Err(bad(alloc, Cause::BadShape)),
        (Some(_), Some(_)) => Err(bad(alloc, Cause::BadShape)),
    }
}

/// Returns the act of an event with `do`.
fn operate(
    alloc: Global,
    operation: CommandText,
    keys: &SceneKeys,
) -> Result<EventAct, ScenarioFault>
    ensures { Answers (act_of (Some operation) keys.now) result }
{
    only_operates(alloc, keys)?;
    Ok(EventAct::Operate(operation))
}

/// Returns the act that unloads a scene.
fn unload_act(
    alloc: Global,
    load: Name,
    label: Option<Name>,
    delay: Option<u32>,
) -> Result<EventAct, ScenarioFault>
    ensures { Answers (lone_act label delay (Unload load)) result }
{
    is_lone(alloc, label, delay)?;
    Ok(EventAct::Unload(load))
}

/// Returns the act of an event without `do`.
fn scene_act(alloc: Global, keys: SceneKeys) -> Result<EventAct, ScenarioFault>
    ensures { Answers (act_of None keys) result }
{
    match (keys.load, keys.unload) {
        (None, None) => Err(bad(alloc, Cause::BadShape)),
        (None, Some(load)) => unload_act(alloc, load, keys.label, keys.delay),
        (Some(file), None) => load_act(alloc, file, keys.label, keys.delay),
        (Some(_), Some(_)) => Err(bad(alloc, Cause::BadShape)),
    }
}

/// Returns the act of an event, by the keys that it has.
fn act_of(
    alloc: Global,
    operation: Option<CommandText>,
    keys: SceneKeys,
) -> Result<EventAct, ScenarioFault>
    ensures { Answers (act_of operation keys) result }
{
    match operation {
        Some(operation) => operate(alloc, operation, &keys),
        None => scene_act(alloc, keys),
    }
}

/// Returns the event in this frame, with these keys of its act.
fn event_with(
    alloc: Global,
    frame: u32,
    operation: Option<CommandText>,
    keys: SceneKeys,
) -> Result<EventEntry, ScenarioFault>
    ensures { Answers (event_with frame operation keys) result }
{
    let act = act_of(alloc, operation, keys)?;
    Ok(EventEntry { frame, act })
}

/// An event.
#[derive(Clone, Copy)]
pub(crate) struct EventForm<'a> {
    /// The types.
    pub(crate) registry: &'a Registry,
}

impl<'a> Form for EventForm<'a> {
    type Out = EventEntry;

    ghost reads = { λ it d. event it.registry.now d };

    #[tactic(auto, unfolding(crate::specs::ReadEvents::event))]
    fn read(&self, alloc: Global, value: &Value) -> Result<EventEntry, ScenarioFault> {
        let frames = NumberForm {
            low: 1,
            high: MOST_FRAMES,
        };
        let operations = Maybe {
            form: OperationForm {
                registry: self.registry,
            },
        };
        let files = Maybe { form: FileForm };
        let names = Maybe { form: NameForm };
        let delays = Maybe {
            form: NumberForm {
                low: 0,
                high: MOST_FRAMES,
            },
        };
        let table = known_table(alloc, &KEYS, value)?;
        let frame = required(alloc, "frame", &frames, table)?;
        let mut fault = None;
        let operation = optional(alloc, &mut fault, "do", None, &operations, table);
        let load = optional(alloc, &mut fault, "load", None, &files, table);
        let label = optional(alloc, &mut fault, "as", None, &names, table);
        let delay = optional(alloc, &mut fault, "delay", None, &delays, table);
        let unload = optional(alloc, &mut fault, "unload", None, &names, table);
        let keys = SceneKeys {
            load,
            label,
            delay,
            unload,
        };
        settled(fault, event_with(alloc, frame, operation, keys))
    }
}
