//! Why a scenario is refused, and where the fault is. A fault is made at the value that is read or tested, and its path
//! grows by a step at each list and table around that value.
ghost use Rattle.std.specs.Prelude.{◌≡◌, ◌++◌, IfOk, codes, drop};
ghost use Rattle.std.specs.Fmt.{decimal};
ghost use Rattle.scenario_record.specs.declared.fault.ScenarioFault.TheVariants.{Bad};
ghost use Rattle.scenario_record.specs.Faults.{bad, below_key, below_place, whole_fault, cause_name, IsMoved, IsAtPath};

use ent_types::{Memory, Sequence};
use itoa::Buffer;
use std::alloc::Global;
use thiserror::Error;

/// Why a scenario is refused.
#[derive(Clone, Copy, Debug, PartialEq, Eq)]
pub enum Cause {
    /// The bytes aren't a TOML document.
    NotToml,
    /// A table has a key that isn't known there.
    UnknownKey,
    /// A required key isn't there.
    Missing,
    /// A value has another TOML type than its key takes.
    WrongType,
    /// A list or table has more elements than its key takes.
    TooMany,
    /// A number is out of range.
    NumberRange,
    /// A string that should be a name isn't one.
    BadName,
    /// A string isn't among its choices.
    BadWord,
    /// A name isn't known.
    UnknownName,
    /// A type that is known isn't allowed here.
    BadKind,
    /// A name occurs twice.
    DuplicateName,
    /// A list of values hasn't one for each field.
    WrongCount,
    /// The keys of a table don't go together.
    BadShape,
    /// A name that orders children is of another group, or the child's own.
    NotSibling,
    /// Not even one row of a spawn fits into a block.
    TooLarge,
    /// The spawns make more entities than can be alive.
    TooManyEntities,
    /// A system looks up a type that it writes.
    LookupOfWritten,
    /// The order of a group's children has a cycle.
    Cycle,
    /// A text has more than 1,024 bytes.
    TooLong,
    /// No token of the language begins at a place of a text.
    BadChar,
    /// A text nests too deep.
    TooDeep,
    /// A token of a text isn't allowed at its place.
    Unexpected,
    /// The scenario has a form that isn't run yet.
    NotBuilt,
}

impl Cause {
    /// Returns the name of the cause, as the lines of refusals print it.
    #[tactic(auto, unfolding(crate::specs::Faults::cause_name))]
    pub fn name(self) -> &'static str
        ensures { result.now ≡ cause_name self }
    {
        match self {
            Cause::NotToml => "NotToml",
            Cause::UnknownKey => "UnknownKey",
            Cause::Missing => "Missing",
            Cause::WrongType => "WrongType",
            Cause::TooMany => "TooMany",
            Cause::NumberRange => "NumberRange",
            Cause::BadName => "BadName",
            Cause::BadWord => "BadWord",
            Cause::UnknownName => "UnknownName",
            Cause::BadKind => "BadKind",
            Cause::DuplicateName => "DuplicateName",
            Cause::WrongCount => "WrongCount",
            Cause::BadShape => "BadShape",
            Cause::NotSibling => "NotSibling",
            Cause::TooLarge => "TooLarge",
            Cause::TooManyEntities => "TooManyEntities",
            Cause::LookupOfWritten => "LookupOfWritten",
            Cause::Cycle => "Cycle",
            Cause::TooLong => "TooLong",
            Cause::BadChar => "BadChar",
            Cause::TooDeep => "TooDeep",
            Cause::Unexpected => "Unexpected",
            Cause::NotBuilt => "NotBuilt",
        }
    }
}

/// Where a fault is: the keys joined by `.`, with `[i]` for the element `i` of a list, from 0. Contracts see the list
/// of its bytes. It is empty for `NotToml` and `NotBuilt`.
pub type KeyPath = Sequence<u8>;

/// The first fault of a scenario.
#[derive(Debug, Drop)]
pub struct BadScenario {
    /// Why it is refused.
    pub cause: Cause,
    /// Where the fault is.
    pub key: KeyPath,
    /// For a fault of a text, the place of the invalid token, in bytes from 0.
    pub at: Option<u32>,
}

/// Why no scenario was read.
#[derive(Debug, Drop, Error)]
pub enum ScenarioFault {
    /// The scenario is invalid.
    #[error("the scenario is refused")]
    Bad(BadScenario),
    /// Memory ran out.
    #[error("out of memory")]
    Memory,
}

impl From<Memory> for ScenarioFault {
    ghost use Rattle.std.specs.Prelude.{◌≡◌};
    ghost use Rattle.scenario_record.specs.declared.fault.ScenarioFault.TheVariants.{Memory as OutOfMemory};

    ghost from_gives = { λ _ fault. fault ≡ OutOfMemory };

    fn from(_: Memory) -> ScenarioFault {
        ScenarioFault::Memory
    }
}

/// Returns the fault of the very value that is read or tested. It takes no memory.
pub fn bad(alloc: Global, cause: Cause) -> ScenarioFault
    ensures { result ≡ Bad (bad cause) }
{
    ScenarioFault::Bad(BadScenario {
        cause,
        key: Sequence::new(alloc),
        at: None,
    })
}

/// Returns the fault with this path instead of its own, which has its bytes copied already.
fn at_path(fault: BadScenario, path: Result<KeyPath, Memory>) -> ScenarioFault
    ensures { IsAtPath fault path result }
{
    match path {
        Ok(key) => ScenarioFault::Bad(BadScenario {
            cause: fault.cause,
            key,
            at: fault.at,
        }),
        Err(_) => ScenarioFault::Memory,
    }
}

fn key_path(alloc: Global, key: &str, inner: &KeyPath) -> Result<KeyPath, Memory>
    ensures { IfOk result (λ path. path ≡ codes "." ++ (key.now ++ inner.now)) }
{
    let mut path = Vec::from_slice(alloc, b".")?;
    path.extend_from_slice(key.as_bytes())?;
    path.extend_from_slice(inner.as_slice())?;
    Ok(Sequence::from_vec(path))
}

fn place_path(alloc: Global, place: usize, inner: &KeyPath) -> Result<KeyPath, Memory>
    ensures { IfOk result (λ path. path ≡ codes "[" ++ (decimal place ++ (codes "]" ++ inner.now))) }
{
    let mut digits = Buffer::new();
    let mut path = Vec::from_slice(alloc, b"[")?;
    path.extend_from_slice(digits.format(place).as_bytes())?;
    path.extend_from_slice(b"]")?;
    path.extend_from_slice(inner.as_slice())?;
    Ok(Sequence::from_vec(path))
}

/// Returns a path without the dot before its first key.
fn whole_path(alloc: Global, key: &KeyPath) -> Result<KeyPath, Memory>
    ensures { IfOk result (λ path. path ≡ drop 1 key.now) }
{
    let bytes = key.as_slice();
    if bytes.is_empty() {
        return Ok(Sequence::new(alloc));
    }
    Ok(Sequence::from_vec(Vec::from_slice(alloc, &bytes[1..])?))
}

/// Returns the same fault, seen from the table with this key.
pub fn below_key(alloc: Global, key: &str, fault: ScenarioFault) -> ScenarioFault
    ensures { IsMoved (below_key key.now) fault result }
{
    match fault {
        ScenarioFault::Bad(fault) => {
            let path = key_path(alloc, key, &fault.key);
            at_path(fault, path)
        }
        ScenarioFault::Memory => ScenarioFault::Memory,
    }
}

/// Returns the same fault, seen from the list with the value at this place.
pub fn below_place(alloc: Global, place: usize, fault: ScenarioFault) -> ScenarioFault
    ensures { IsMoved (below_place place) fault result }
{
    match fault {
        ScenarioFault::Bad(fault) => {
            let path = place_path(alloc, place, &fault.key);
            at_path(fault, path)
        }
        ScenarioFault::Memory => ScenarioFault::Memory,
    }
}

/// Returns the same fault, seen from the whole scenario: its path has no dot before the first key.
pub fn whole_fault(alloc: Global, fault: ScenarioFault) -> ScenarioFault
    ensures { IsMoved whole_fault fault result }
{
    match fault {
        ScenarioFault::Bad(fault) => {
            let path = whole_path(alloc, &fault.key);
            at_path(fault, path)
        }
        ScenarioFault::Memory => ScenarioFault::Memory,
    }
}
