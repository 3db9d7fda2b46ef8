//! The record of a scenario, why a scenario is refused, and the plan of its frames.
#![tactic(auto)]

mod fault;
mod plan;
mod record;

pub use fault::{
    BadScenario, Cause, KeyPath, ScenarioFault, bad, below_key, below_place, whole_fault,
};
pub use plan::{Access, Plan, Step};
pub use record::{
    CommandEntry, EventAct, EventEntry, FileName, GroupEntry, Scenario, SpawnEntry, SystemEntry,
};
