//! The command `check`: the line of a scenario that passes its checks.
ghost use Rattle.std.specs.Prelude.{◌≡◌, ◌++◌, codes, length, IfOk, OnOk};
ghost use Rattle.std.specs.Fmt.{decimal};
ghost use Rattle.entsim_commands.specs.CheckLine.{ok_line};

use ent_types::BUILT_IN_TYPES;
use scenario_record::Scenario;
use std::alloc::{AllocError, Global};

/// Appends a number after the name of what it counts.
fn push_count(
    alloc: Global,
    line: &mut Vec<u8>,
    name: &[u8],
    count: usize,
) -> Result<(), AllocError>
    ensures { OnOk result (line.new.items ≡ line.old.items ++ (name.now ++ decimal count)) }
{
    let digits = count.to_string(alloc)?;
    line.extend_from_slice(name)?;
    line.extend_from_slice(digits.as_bytes())?;
    Ok(())
}

/// Returns the line of a scenario that passes its checks.
#[tactic(auto, unfolding(crate::specs::CheckLine::ok_line))]
pub fn ok_line(alloc: Global, scenario: &Scenario) -> Result<Vec<u8>, AllocError>
    ensures { IfOk result (λ line. line.items ≡ ok_line scenario.now) }
{
    let types = scenario.registry.len().saturating_sub(BUILT_IN_TYPES);
    let mut line = Vec::new(alloc);
    push_count(alloc, &mut line, b"ok types=", types)?;
    push_count(alloc, &mut line, b" systems=", scenario.system.len())?;
    push_count(alloc, &mut line, b" frames=", scenario.frames as usize)?;
    line.push(b'\n')?;
    Ok(line)
}
