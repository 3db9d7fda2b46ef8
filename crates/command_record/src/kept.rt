//! How commands are kept: all values in one list, all parts in another, so that a command takes no memory of its own.
ghost use Rattle.std.specs.Prelude.{◌≡◌, ◌≤◌, ◌++◌, length, map, take, OnOk, OnErr};
ghost use Rattle.command_record.specs.Kept.{act_of, part_head_of, part_heads_of, values_of, values_in, count_in, parts_from, command_from};

use crate::command::{CmdPart, CmdValue, Command, Target};
use crate::lists::{CmdParts, CmdValues};
use ent_types::{Memory, TypeId};
use std::alloc::Global;

/// A command without the values of its parts. Each variant is the command that has its name.
#[derive(Clone, Copy, Debug)]
pub(crate) enum Act {
    Create,
    Destroy {
        target: Target,
    },
    Add {
        target: Target,
        ty: TypeId,
    },
    Remove {
        target: Target,
        ty: TypeId,
    },
    Set {
        target: Target,
        ty: TypeId,
    },
    SetShared {
        target: Target,
        ty: TypeId,
    },
    SetEnabled {
        target: Target,
        ty: TypeId,
        on: bool,
    },
    Instantiate {
        source: Target,
    },
    Append {
        target: Target,
        ty: TypeId,
    },
    Clear {
        target: Target,
        ty: TypeId,
    },
}

/// A part of a `Create` without its values: they come after those of the parts before it.
#[derive(Clone, Copy, Debug)]
pub(crate) struct PartHead {
    pub(crate) ty: TypeId,
    /// How many values it has.
    pub(crate) count: usize,
}

/// Some neighbours in a list: those from `start` up to `end`, without `end`.
#[derive(Clone, Copy, Debug)]
pub(crate) struct Span {
    pub(crate) start: usize,
    pub(crate) end: usize,
}

/// Returns a command without the values of its parts.
pub(crate) fn make_act(command: &Command) -> Act
    ensures { result ≡ act_of command.now }
{
    match command {
        Command::Create { .. } => Act::Create,
        Command::Destroy { target } => Act::Destroy { target: *target },
        Command::Add { target, part } => Act::Add {
            target: *target,
            ty: part.ty,
        },
        Command::Remove { target, ty } => Act::Remove {
            target: *target,
            ty: *ty,
        },
        Command::Set { target, part } => Act::Set {
            target: *target,
            ty: part.ty,
        },
        Command::SetShared { target, part } => Act::SetShared {
            target: *target,
            ty: part.ty,
        },
        Command::SetEnabled { target, ty, on } => Act::SetEnabled {
            target: *target,
            ty: *ty,
            on: *on,
        },
        Command::Instantiate { source } => Act::Instantiate { source: *source },
        Command::Append { target, part } => Act::Append {
            target: *target,
            ty: part.ty,
        },
        Command::Clear { target, ty } => Act::Clear {
            target: *target,
            ty: *ty,
        },
    }
}

/// Adds some parts at the end. After an error both lists begin as before.
fn keep_parts(
    heads: &mut Vec<PartHead>,
    values: &mut Vec<CmdValue>,
    parts: &[CmdPart],
) -> Result<(), Memory>
    ensures heads { OnOk result (heads.new.items ≡ heads.old.items ++ map part_head_of parts.now) }
    ensures values { OnOk result (values.new.items ≡ values.old.items ++ values_in parts.now) }
    ensures old_heads { OnErr result (take (length heads.old.items) heads.new.items ≡ heads.old.items) }
    ensures old_values { OnErr result (take (length values.old.items) values.new.items ≡ values.old.items) }
{
    for part in parts {
        heads.push(PartHead {
            ty: part.ty,
            count: part.values.len(),
        })?;
        values.extend_from_slice(part.values.as_slice())?;
    }
    Ok(())
}

/// Adds some values at the end. After an error they are as before.
fn keep_values(values: &mut Vec<CmdValue>, part: &CmdPart) -> Result<(), Memory>
    ensures ok { OnOk result (values.new.items ≡ values.old.items ++ part.now.values) }
    ensures err { OnErr result (values.new.items ≡ values.old.items) }
{
    values.extend_from_slice(part.values.as_slice())?;
    Ok(())
}

/// Adds the parts and the values of a command at the end. After an error both lists begin as before.
pub(crate) fn keep(
    heads: &mut Vec<PartHead>,
    values: &mut Vec<CmdValue>,
    command: &Command,
) -> Result<(), Memory>
    ensures heads { OnOk result (heads.new.items ≡ heads.old.items ++ part_heads_of command.now) }
    ensures values { OnOk result (values.new.items ≡ values.old.items ++ values_of command.now) }
    ensures old_heads { OnErr result (take (length heads.old.items) heads.new.items ≡ heads.old.items) }
    ensures old_values { OnErr result (take (length values.old.items) values.new.items ≡ values.old.items) }
{
    match command {
        Command::Create { parts } => keep_parts(heads, values, parts.as_slice()),
        Command::Add { part, .. } => keep_values(values, part),
        Command::Set { part, .. } => keep_values(values, part),
        Command::SetShared { part, .. } => keep_values(values, part),
        Command::Append { part, .. } => keep_values(values, part),
        Command::Destroy { .. } => Ok(()),
        Command::Remove { .. } => Ok(()),
        Command::SetEnabled { .. } => Ok(()),
        Command::Instantiate { .. } => Ok(()),
        Command::Clear { .. } => Ok(()),
    }
}

/// Returns the parts with these heads, whose values come one after another.
fn make_parts(alloc: Global, heads: &[PartHead], values: &[CmdValue]) -> Result<CmdParts, Memory>
    requires { count_in heads.now ≤ length values.now }
    ensures { OnOk result (result ≡ Ok (parts_from heads.now values.now)) }
{
    let mut parts = Vec::with_capacity(alloc, heads.len())?;
    let mut rest = values;
    for head in heads {
        let (own, after) = rest.split_at(head.count);
        parts.push(CmdPart {
            ty: head.ty,
            values: CmdValues::from_slice(alloc, own)?,
        })?;
        rest = after;
    }
    Ok(CmdParts::from_vec(parts))
}

/// Returns the part with this type and these values.
fn make_part(alloc: Global, ty: TypeId, values: &[CmdValue]) -> Result<CmdPart, Memory>
    ensures { OnOk result (result ≡ Ok (record { ty = ty; values = values.now })) }
{
    Ok(CmdPart {
        ty,
        values: CmdValues::from_slice(alloc, values)?,
    })
}

/// Returns a command that has these part heads and these values.
pub(crate) fn make_command(
    alloc: Global,
    act: Act,
    heads: &[PartHead],
    values: &[CmdValue],
) -> Result<Command, Memory>
    requires { count_in heads.now ≤ length values.now }
    ensures { OnOk result (result ≡ Ok (command_from act heads.now values.now)) }
{
    Ok(match act {
        Act::Create => Command::Create {
            parts: make_parts(alloc, heads, values)?,
        },
        Act::Destroy { target } => Command::Destroy { target },
        Act::Add { target, ty } => Command::Add {
            target,
            part: make_part(alloc, ty, values)?,
        },
        Act::Remove { target, ty } => Command::Remove { target, ty },
        Act::Set { target, ty } => Command::Set {
            target,
            part: make_part(alloc, ty, values)?,
        },
        Act::SetShared { target, ty } => Command::SetShared {
            target,
            part: make_part(alloc, ty, values)?,
        },
        Act::SetEnabled { target, ty, on } => Command::SetEnabled { target, ty, on },
        Act::Instantiate { source } => Command::Instantiate { source },
        Act::Append { target, ty } => Command::Append {
            target,
            part: make_part(alloc, ty, values)?,
        },
        Act::Clear { target, ty } => Command::Clear { target, ty },
    })
}
