//! Which commands name a placeholder. Where none does, no entity that is made is kept.
ghost use Rattle.std.specs.Prelude.{◌≡◌};
ghost use Rattle.std.specs.List.{list_any};
ghost use Rattle.playback.specs.Named.{names_among, names_in, names_part, names_target, names_value};

use command_record::{CmdPart, CmdValue, Command, Entry, Target};

fn names(target: Target) -> bool
    ensures { result ≡ names_target target }
{
    matches!(target, Target::Placeholder { .. })
}

fn names_of_value(value: CmdValue) -> bool
    ensures { result ≡ names_value value }
{
    match value {
        CmdValue::Int(_) => false,
        CmdValue::Ref(target) => names(target),
    }
}

fn names_of_part(part: &CmdPart) -> bool
    ensures { result ≡ names_part part.now }
{
    part.values
        .as_slice()
        .iter()
        .any(|value| names_of_value(*value))
}

fn names_of_parts(parts: &[CmdPart]) -> bool
    ensures { result ≡ list_any names_part parts.now }
{
    parts.iter().any(|part| names_of_part(part))
}

/// Says whether a command names a placeholder.
fn names_of_command(command: &Command) -> bool
    ensures { result ≡ names_in command.now }
{
    match command {
        Command::Create { parts } => names_of_parts(parts.as_slice()),
        Command::Destroy { target } => names(*target),
        Command::Add { target, part } => names(*target) || names_of_part(part),
        Command::Remove { target, .. } => names(*target),
        Command::Set { target, part } => names(*target) || names_of_part(part),
        Command::SetShared { target, part } => names(*target) || names_of_part(part),
        Command::SetEnabled { target, .. } => names(*target),
        Command::Instantiate { source } => names(*source),
        Command::Append { target, part } => names(*target) || names_of_part(part),
        Command::Clear { target, .. } => names(*target),
    }
}

/// Says whether a command of some entries names a placeholder.
pub(crate) fn names_any(entries: &[Entry]) -> bool
    ensures { result ≡ names_among entries.now }
{
    entries.iter().any(|entry| names_of_command(&entry.command))
}
