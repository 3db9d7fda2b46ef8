//! Which scenarios are of a form that is run.
ghost use Rattle.std.specs.Prelude.{◌≡◌};
ghost use Rattle.std.specs.List.{list_all};
ghost use Rattle.scenario_check.specs.Built.{is_built_system, is_built_act, is_built};

use scenario_record::{EventAct, EventEntry, Scenario, SystemEntry};

/// `true` if a system records no command.
fn is_built_system(system: &SystemEntry) -> bool
    ensures { result ≡ is_built_system system.now }
{
    system.command.is_empty()
}

fn are_built_systems(systems: &[SystemEntry]) -> bool
    ensures { result ≡ list_all is_built_system systems.now }
{
    systems.iter().all(|system| is_built_system(system))
}

/// `true` if an event is a structural change.
fn is_built_act(act: &EventAct) -> bool
    ensures { result ≡ is_built_act act.now }
{
    match act {
        EventAct::Operate(_) => true,
        EventAct::Load { .. } => false,
        EventAct::Unload(_) => false,
    }
}

fn are_built_events(events: &[EventEntry]) -> bool
    ensures { result ≡ list_all (λ e. is_built_act e.act) events.now }
{
    events.iter().all(|event| is_built_act(&event.act))
}

/// `true` if a scenario is of a form that is run.
///
/// In such a scenario no system has the key `command`, also not with an empty list, and no event loads or unloads a scene.
/// A scenario of another form is `NotBuilt` when it is run, after all other faults. This call goes away once every form
/// is run.
#[tactic(auto, unfolding(crate::specs::Built::is_built))]
pub fn is_built(scenario: &Scenario) -> bool
    ensures { result ≡ is_built scenario.now }
{
    !scenario.unbuilt
        && are_built_systems(scenario.system.as_slice())
        && are_built_events(scenario.event.as_slice())
}
