//! Why a command has no scenario to work on.
ghost use Rattle.std.specs.Prelude.{◌≡◌};
ghost use Rattle.entsim_commands.specs.Stops.{stop_of_read, stop_of_scenario};

use ent_io::{Missing, ReadEnd};
use scenario_record::{BadScenario, ScenarioFault};

/// Why a command is refused. Each refusal has an error line.
#[derive(Debug, Drop)]
pub enum Refusal {
    /// The scenario's file can't be had.
    Missing(Missing),
    /// The scenario is invalid.
    Faulty(BadScenario),
    /// The command, or the form of the scenario, isn't built yet.
    NotBuilt,
}

/// Why a command stops before it writes anything.
#[derive(Debug, Drop)]
pub enum Stop {
    /// It is refused.
    Refused(Refusal),
    /// The store failed, and its count of faults rose.
    ReadFault,
    /// Memory ran out, and nothing else failed.
    Memory,
}

impl From<ReadEnd> for Stop {
    ghost from_gives = { λ end stop. stop ≡ stop_of_read end };

    fn from(end: ReadEnd) -> Self {
        match end {
            ReadEnd::Absent => Stop::Refused(Refusal::Missing(Missing::Absent)),
            ReadEnd::Fault => Stop::ReadFault,
            ReadEnd::TooLong => Stop::Refused(Refusal::Missing(Missing::TooLong)),
            ReadEnd::Memory => Stop::Memory,
        }
    }
}

impl From<ScenarioFault> for Stop {
    ghost from_gives = { λ fault stop. stop ≡ stop_of_scenario fault };

    fn from(fault: ScenarioFault) -> Self {
        match fault {
            ScenarioFault::Bad(bad) => Stop::Refused(Refusal::Faulty(bad)),
            ScenarioFault::Memory => Stop::Memory,
        }
    }
}
