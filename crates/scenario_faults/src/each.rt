//! Faults of the elements of lists, and a test of each element.
ghost use Rattle.std.specs.Prelude.{ℕ, ◌≡◌, List, Option};
ghost use Rattle.scenario_record.specs.declared.fault.BadScenario.{BadScenario as Fault};
ghost use Rattle.scenario_record.specs.declared.fault.ScenarioFault.TheVariants.{Bad};
ghost use Rattle.scenario_record.specs.Faults.{IsMoved, bad};
ghost use Rattle.scenario_record.specs.Readings.{Passes};
ghost use Rattle.scenario_faults.specs.Checks.{at_element, at_key_of, each_fault_from, fault_at};

use scenario_record::{Cause, ScenarioFault, bad, below_key, below_place};
use std::alloc::Global;

/// Returns the same fault, seen from the table that has the list with this element.
#[tactic(auto, using(crate::proofs::FaultLemmas::moved_twice))]
pub fn at_element(alloc: Global, key: &str, place: usize, fault: ScenarioFault) -> ScenarioFault
    ensures { IsMoved (at_element key.now place) fault result }
{
    let fault = below_place(alloc, place, fault);
    below_key(alloc, key, fault)
}

/// Returns the fault of a key of an element.
#[tactic(auto, using(crate::proofs::FaultLemmas::moved_twice))]
fn key_fault(alloc: Global, key: &str, place: usize, inner: &str, cause: Cause) -> ScenarioFault
    ensures { IsMoved (at_key_of key.now place inner.now) (Bad (bad cause)) result }
{
    let fault = below_key(alloc, inner, bad(alloc, cause));
    at_element(alloc, key, place, fault)
}

/// Checks that no element was found whose key is invalid.
pub(crate) fn none_found(
    alloc: Global,
    key: &str,
    inner: &str,
    cause: Cause,
    found: Option<usize>,
) -> Result<(), ScenarioFault>
    ensures { Passes (fault_at key.now inner.now cause found) result }
{
    match found {
        Some(place) => Err(key_fault(alloc, key, place, inner, cause)),
        None => Ok(()),
    }
}

/// A test of an element.
pub(crate) trait Test {
    /// The element.
    type Item;

    // The fault of an element.
    ghost fault: { Self → Self.Item → Option Fault };

    /// Checks an element.
    fn test(&self, alloc: Global, item: &Self::Item) -> Result<(), ScenarioFault>
        ensures { Passes (fault self.now item.now) result };
}

/// Checks each element of the list under a key.
pub(crate) fn each<T: Test>(
    alloc: Global,
    key: &str,
    test: &T,
    items: &[T::Item],
) -> Result<(), ScenarioFault>
    ensures { Passes (each_fault_from key.now (T.fault test.now) 0 items.now) result }
{
    for (i, item) in items.iter().enumerate() {
        if let Err(fault) = test.test(alloc, item) {
            return Err(at_element(alloc, key, i, fault));
        }
    }
    Ok(())
}
