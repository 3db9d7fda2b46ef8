//! The command of a text.
ghost use Rattle.std.specs.Prelude.{◌≡◌, ◌%◌, length, true, ℕ, map, IfOk};
ghost use Rattle.ent_types.specs.Fitting.{fit};
ghost use Rattle.ent_types.specs.TypeLookups.{fields_at, field_kind_at};
ghost use Rattle.world_model.specs.Members.{In};
ghost use Rattle.expr_eval.specs.Conditions.{ref_reads};
ghost use Rattle.expr_eval.specs.Rows.{others_of};
ghost use Rattle.expr_trees.specs.declared.tree.PartExpr.{PartExpr};
ghost use Rattle.run_model.specs.Commands.{Known, given_of, part_given};
ghost use Rattle.run_model.specs.Commands.{target_of as target_defined, change_of as change_defined};
ghost use Rattle.run_laws.specs.Runnable.{CommandReads, PartReads, ValueReads};
ghost use Rattle.command_record.specs.declared.command.CmdPart.{CmdPart};
ghost use Rattle.command_record.specs.Entries.{change_of, part_of, target_of, value_of, OwnCommand, OwnPart, OwnTarget, OwnValue};

use command_record::{CmdPart, CmdParts, CmdValue, CmdValues, Command, Target};
use ent_types::{Entity, FieldKind, Memory, Registry, TypeId, Value, fit};
use expr_eval::{Lookup, RowReader, eval, eval_ref};
use expr_trees::{CommandText, PartExpr, RefExpr, ValueExpr};
use std::alloc::Global;

/// Returns what a reference names: a placeholder of the row for a made name, else the entity that it names on the row.
fn target<R: RowReader>(row: &R, place: u32, reference: &RefExpr) -> Target
    requires { ref_reads (R.has_field row.now) reference.now ≡ true }
    ensures value { target_of result ≡ target_defined (R.own_row row.now) reference.now }
    ensures own { OwnTarget place result }
{
    if let RefExpr::Made(number) = *reference {
        return Target::Placeholder { row: place, number };
    }
    Target::Live(eval_ref(reference, row))
}

/// Returns what a field of this kind keeps of a value.
fn kept(kind: FieldKind, value: Value) -> CmdValue
    ensures value { value_of result ≡ Known (fit kind value) }
    ensures own { (place : ℕ) → OwnValue place result }
{
    match value {
        Value::Int(z) => match kind {
            FieldKind::I32 => CmdValue::Int(fit(FieldKind::I32, z)),
            FieldKind::I64 => CmdValue::Int(fit(FieldKind::I64, z)),
            FieldKind::Ref => CmdValue::Ref(Target::Live(Entity::NULL)),
        },
        Value::Ref(e) => match kind {
            FieldKind::I32 => CmdValue::Int(0),
            FieldKind::I64 => CmdValue::Int(0),
            FieldKind::Ref => CmdValue::Ref(Target::Live(e)),
        },
    }
}

/// Returns what a field of this kind keeps of the value of a text. A placeholder stays as it is.
fn value<R: RowReader, L: Lookup>(
    kind: FieldKind,
    row: &R,
    others: &L,
    place: u32,
    text: &ValueExpr,
) -> CmdValue
    requires { ValueReads (record { own = R.has_field row.now; others = L.can_read others.now }) text.now }
    ensures value { value_of result ≡ given_of (R.own_row row.now) (others_of (L.found others.now)) kind text.now }
    ensures own { OwnValue place result }
{
    match text {
        ValueExpr::Int(number) => kept(kind, Value::Int(eval(number, row, others))),
        ValueExpr::Ref(reference) => match target(row, place, reference) {
            Target::Live(e) => kept(kind, Value::Ref(e)),
            Target::Placeholder { row, number } => {
                CmdValue::Ref(Target::Placeholder { row, number })
            }
        },
    }
}

/// Returns the kind of the field for which the value at a place is. A buffer has several elements, so the fields begin anew after
/// the last one.
fn kind_at(registry: &Registry, ty: TypeId, at: usize) -> FieldKind
    ensures { result ≡ field_kind_at registry.now ty.0 (at % length (fields_at registry.now ty.0)) }
{
    let count = registry.fields(ty).len();
    if count == 0 {
        return FieldKind::I32;
    }
    registry.field_kind(ty, at % count)
}

/// Returns a part with the values of its texts.
fn part<R: RowReader, L: Lookup>(
    alloc: Global,
    registry: &Registry,
    row: &R,
    others: &L,
    place: u32,
    text: &PartExpr,
) -> Result<CmdPart, Memory>
    requires { PartReads (record { own = R.has_field row.now; others = L.can_read others.now }) text.now }
    ensures value { IfOk result (λ p. part_of p ≡ part_given registry.now (R.own_row row.now) (others_of (L.found others.now)) text.now) }
    ensures own { IfOk result (λ p. OwnPart place p) }
{
    let mut values = CmdValues::new(alloc);
    for (at, given) in text.values.as_slice().iter().enumerate() {
        let kind = kind_at(registry, text.ty, at);
        values.push(value(kind, row, others, place, given))?;
    }
    Ok(CmdPart {
        ty: text.ty,
        values,
    })
}

/// Returns parts with the values of their texts, in their order.
fn parts<R: RowReader, L: Lookup>(
    alloc: Global,
    registry: &Registry,
    row: &R,
    others: &L,
    place: u32,
    texts: &[PartExpr],
) -> Result<CmdParts, Memory>
    requires { (p : PartExpr) → In p texts.now → PartReads (record { own = R.has_field row.now; others = L.can_read others.now }) p }
    ensures value { IfOk result (λ ps. map part_of ps ≡ map (part_given registry.now (R.own_row row.now) (others_of (L.found others.now))) texts.now) }
    ensures own { IfOk result (λ ps. (p : CmdPart) → In p ps → OwnPart place p) }
{
    let mut made = CmdParts::new(alloc);
    for text in texts {
        made.push(part(alloc, registry, row, others, place, text)?)?;
    }
    Ok(made)
}

/// Returns the command of a text for the row at a place. What the text reads must be there.
///
/// The name that another command of the row makes becomes a placeholder of the row. Each other value is evaluated on the row among
/// the other rows, and is what its field keeps of it.
///
/// ```text
/// let command = command_of(alloc, registry, &row, &others, place, &entry.act)?;
/// chain.add(key, place, number, &command)?;
/// ```
pub fn command_of<R: RowReader, L: Lookup>(
    alloc: Global,
    registry: &Registry,
    row: &R,
    others: &L,
    place: u32,
    text: &CommandText,
) -> Result<Command, Memory>
    requires reads { CommandReads (record { own = R.has_field row.now; others = L.can_read others.now }) text.now }
    ensures change { IfOk result (λ c. change_of c ≡ change_defined registry.now (R.own_row row.now) (others_of (L.found others.now)) text.now) }
    ensures own { IfOk result (λ c. OwnCommand place c) }
{
    match text {
        CommandText::Create { parts: texts, .. } => Ok(Command::Create {
            parts: parts(alloc, registry, row, others, place, texts.as_slice())?,
        }),
        CommandText::Destroy(r) => Ok(Command::Destroy {
            target: target(row, place, r),
        }),
        CommandText::Add(r, p) => Ok(Command::Add {
            target: target(row, place, r),
            part: part(alloc, registry, row, others, place, p)?,
        }),
        CommandText::Set(r, p) => Ok(Command::Set {
            target: target(row, place, r),
            part: part(alloc, registry, row, others, place, p)?,
        }),
        CommandText::SetShared(r, p) => Ok(Command::SetShared {
            target: target(row, place, r),
            part: part(alloc, registry, row, others, place, p)?,
        }),
        CommandText::Remove(r, ty) => Ok(Command::Remove {
            target: target(row, place, r),
            ty: *ty,
        }),
        CommandText::Enable(r, ty) => Ok(Command::SetEnabled {
            target: target(row, place, r),
            ty: *ty,
            on: true,
        }),
        CommandText::Disable(r, ty) => Ok(Command::SetEnabled {
            target: target(row, place, r),
            ty: *ty,
            on: false,
        }),
        CommandText::Instantiate { source, .. } => Ok(Command::Instantiate {
            source: target(row, place, source),
        }),
    }
}
