//! Why a scenario can't be tried.
use scenario_record::ScenarioFault;
use std::io;

/// Why a scenario can't be tried.
#[derive(Clone, Copy, Debug, PartialEq, Eq)]
pub enum Fault {
    /// A scenario whose plan is to be printed isn't read.
    Unread,
    /// The path of a fault isn't UTF-8.
    Path,
    /// A plan names a system or a type that isn't there.
    Plan,
    /// The output takes no more.
    Print,
    /// Memory ran out.
    Memory,
}

impl From<io::Error> for Fault {
    fn from(_: io::Error) -> Fault {
        Fault::Print
    }
}

impl From<ScenarioFault> for Fault {
    fn from(fault: ScenarioFault) -> Fault {
        match fault {
            ScenarioFault::Bad(_) => Fault::Unread,
            ScenarioFault::Memory => Fault::Memory,
        }
    }
}
