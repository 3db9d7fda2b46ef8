//! What comes out of a scenario that is read and checked.
use crate::fault::Fault;
use scenario_check::check;
use scenario_laws::what_is_read_can_be_checked;
use scenario_read::read_scenario;
use scenario_record::{BadScenario, Cause, ScenarioFault};
use std::alloc::Global;
use std::io;

/// Reads and checks a scenario, and prints what comes out.
pub(crate) fn try_scenario<R: Print + AllocGlobal>(rt: &R, text: &str) -> Result<(), Fault> {
    match read_and_check(rt.alloc(), text.as_bytes()) {
        Ok(()) => Ok(println!(rt; "ok")?),
        Err(ScenarioFault::Bad(bad)) => print_fault(rt, &bad),
        Err(ScenarioFault::Memory) => Err(Fault::Memory),
    }
}

/// Returns the first fault of a scenario, as it is read or checked.
fn read_and_check(alloc: Global, bytes: &[u8]) -> Result<(), ScenarioFault> {
    what_is_read_can_be_checked();
    let scenario = read_scenario(alloc, bytes)?;
    check(alloc, &scenario)?;
    Ok(())
}

/// Prints a fault with its place. A fault of the whole file has none.
fn print_fault<R: Print>(rt: &R, bad: &BadScenario) -> Result<(), Fault> {
    if is_of_file(bad.cause) {
        return Ok(print_cause(rt, bad.cause)?);
    }
    match std::str::from_utf8(bad.key.as_slice()) {
        Ok(key) => Ok(print_place(rt, bad.cause, key, bad.at)?),
        Err(_) => Err(Fault::Path),
    }
}

fn is_of_file(cause: Cause) -> bool {
    (cause == Cause::NotToml) | (cause == Cause::NotBuilt)
}

/// Prints a cause alone.
pub(crate) fn print_cause<R: Print>(rt: &R, cause: Cause) -> io::Result<()> {
    println!(rt; "{}", cause.name())
}

fn print_place<R: Print>(rt: &R, cause: Cause, key: &str, at: Option<u32>) -> io::Result<()> {
    match at {
        Some(at) => println!(rt; "{} key={key} at={at}", cause.name()),
        None => println!(rt; "{} key={key}", cause.name()),
    }
}
