//! The reductions, which build trees from the operands.
ghost use Rattle.std.specs.Prelude.{◌≡◌, [], ◌∷◌, ◌++◌, OnOk, IfOk};
ghost use Rattle.expr_grammar.specs.declared.symbol.Action.TheVariants as act;
ghost use Rattle.expr_grammar.specs.Machine.{apply, with_value};
ghost use Rattle.expr_grammar.specs.Meaning.{changed, turned};
ghost use Rattle.expr_steps.specs.Expecting.{action_of, ends, reduced};

use crate::expected::{Expected, Reduction};
use crate::operands::{
    pop_field, pop_int, pop_name, pop_part, pop_parts, pop_ref, pop_type, pop_value,
};
use crate::stack::Stack;
use ent_types::{Memory, Sequence, TypeId};
use expr_grammar::{Built, Change, Turn};
use expr_trees::{BinaryOp, CommandText, Expr, PartExpr, RefExpr, UnaryOp, ValueExpr};
use sqlite_items::Boxed;
use std::alloc::Global;

/// `true` if an expected thing may be left out.
#[tactic(auto, unfolding(expr_grammar::specs::Machine::may_end))]
pub(crate) fn ends(expected: &Expected) -> bool
    ensures { result ≡ ends expected.now }
{
    match expected {
        Expected::Operators { .. } => true,
        Expected::Named { variable, .. } => variable.is_some(),
        Expected::NamedRef { plain, .. } => plain.is_some(),
        Expected::Reduce(_) => true,
        Expected::With => true,
        Expected::MoreParts(_) => true,
        Expected::Level { .. } => false,
        Expected::Close => false,
        Expected::Comma => false,
        Expected::Dot => false,
        Expected::Becomes => false,
        Expected::Field { .. } => false,
        Expected::TypeField(_) => false,
        Expected::Ref { .. } => false,
        Expected::Colon { .. } => false,
        Expected::Version { .. } => false,
        Expected::Type(_) => false,
        Expected::Verb => false,
        Expected::New => false,
        Expected::From => false,
        Expected::Part(_) => false,
        Expected::Parts(_) => false,
        Expected::Values(_) => false,
        Expected::MoreValues { .. } => false,
    }
}

/// Builds what an expected thing builds if it is left out.
#[tactic(auto, unfolding(expr_grammar::specs::Machine::ended))]
pub(crate) fn end(
    alloc: Global,
    expected: Expected,
    operands: &mut Stack<Built>,
) -> Result<(), Memory>
    ensures { OnOk result (operands.new ≡ reduced expected operands.old) }
{
    match expected {
        Expected::Named { variable, .. } => match variable {
            None => Ok(()),
            Some(variable) => push_int(alloc, operands, Expr::Variable(variable)),
        },
        Expected::NamedRef { plain, .. } => match plain {
            None => Ok(()),
            Some(found) => operands.push(Built::Ref(found)),
        },
        Expected::Reduce(reduction) => reduce(alloc, reduction, operands),
        _ => Ok(()),
    }
}

/// Does a reduction.
fn reduce(alloc: Global, reduction: Reduction, operands: &mut Stack<Built>) -> Result<(), Memory>
    ensures { OnOk result (operands.new ≡ apply (action_of reduction) operands.old) }
{
    match reduction {
        Reduction::Unary(op) => unary(alloc, op, operands),
        Reduction::Binary(op) => binary(alloc, op, operands),
        Reduction::Pick => pick(alloc, operands),
        Reduction::Get => get(alloc, operands),
        Reduction::Alive => alive(alloc, operands),
        Reduction::Has => has(alloc, operands),
        Reduction::Same => same(alloc, operands),
        Reduction::On => on(alloc, operands),
        Reduction::NoParts => operands.push(Built::Parts(Sequence::new(alloc))),
        Reduction::Value => value(operands),
        Reduction::Join => join(operands),
        Reduction::Create => create(alloc, operands),
        Reduction::Destroy => destroy(alloc, operands),
        Reduction::Change(change) => changes(alloc, operands, change),
        Reduction::Turn(turn) => turns(alloc, operands, turn),
        Reduction::Instantiate => instantiate(alloc, operands),
    }
}

/// Pushes an expression.
pub(crate) fn push_int(
    alloc: Global,
    operands: &mut Stack<Built>,
    value: Expr,
) -> Result<(), Memory>
    ensures { OnOk result (operands.new ≡ Built.Int value ∷ operands.old) }
{
    let value = Boxed::new(alloc, value)?;
    operands.push(Built::Int(value))
}

/// Puts a sign over the last expression.
fn unary(alloc: Global, op: UnaryOp, operands: &mut Stack<Built>) -> Result<(), Memory>
    ensures { OnOk result (operands.new ≡ apply (act.Unary op) operands.old) }
{
    match pop_int(operands) {
        None => Ok(()),
        Some(value) => push_int(alloc, operands, Expr::Unary(op, value)),
    }
}

/// Puts an operator over the last two expressions.
fn binary(alloc: Global, op: BinaryOp, operands: &mut Stack<Built>) -> Result<(), Memory>
    ensures { OnOk result (operands.new ≡ apply (act.Binary op) operands.old) }
{
    match pop_int(operands) {
        None => Ok(()),
        Some(right) => match pop_int(operands) {
            None => Ok(()),
            Some(left) => push_int(alloc, operands, Expr::Binary(op, left, right)),
        },
    }
}

/// Builds `pick` of the last three expressions.
fn pick(alloc: Global, operands: &mut Stack<Built>) -> Result<(), Memory>
    ensures { OnOk result (operands.new ≡ apply act.Pick operands.old) }
{
    match pop_int(operands) {
        None => Ok(()),
        Some(other) => match pop_int(operands) {
            None => Ok(()),
            Some(chosen) => match pop_int(operands) {
                None => Ok(()),
                Some(test) => push_int(alloc, operands, Expr::Pick(test, chosen, other)),
            },
        },
    }
}

/// Builds `get` of the last field and the reference before it.
fn get(alloc: Global, operands: &mut Stack<Built>) -> Result<(), Memory>
    ensures { OnOk result (operands.new ≡ apply act.Get operands.old) }
{
    match pop_field(operands) {
        None => Ok(()),
        Some((ty, field)) => match pop_ref(operands) {
            None => Ok(()),
            Some(from) => push_int(alloc, operands, Expr::Get { from, ty, field }),
        },
    }
}

/// Builds `alive` of the last reference.
fn alive(alloc: Global, operands: &mut Stack<Built>) -> Result<(), Memory>
    ensures { OnOk result (operands.new ≡ apply act.Alive operands.old) }
{
    match pop_ref(operands) {
        None => Ok(()),
        Some(from) => push_int(alloc, operands, Expr::Alive(from)),
    }
}

/// Builds `has` of the last type and the reference before it.
fn has(alloc: Global, operands: &mut Stack<Built>) -> Result<(), Memory>
    ensures { OnOk result (operands.new ≡ apply act.Has operands.old) }
{
    match pop_type(operands) {
        None => Ok(()),
        Some(ty) => match pop_ref(operands) {
            None => Ok(()),
            Some(from) => push_int(alloc, operands, Expr::Has(from, ty)),
        },
    }
}

/// Builds `same` of the last two references.
fn same(alloc: Global, operands: &mut Stack<Built>) -> Result<(), Memory>
    ensures { OnOk result (operands.new ≡ apply act.Same operands.old) }
{
    match pop_ref(operands) {
        None => Ok(()),
        Some(right) => match pop_ref(operands) {
            None => Ok(()),
            Some(left) => push_int(alloc, operands, Expr::Same(left, right)),
        },
    }
}

/// Builds `on` of the last type.
fn on(alloc: Global, operands: &mut Stack<Built>) -> Result<(), Memory>
    ensures { OnOk result (operands.new ≡ apply act.On operands.old) }
{
    match pop_type(operands) {
        None => Ok(()),
        Some(ty) => push_int(alloc, operands, Expr::On(ty)),
    }
}

/// Returns the part with one more value.
fn added(part: PartExpr, value: ValueExpr) -> Result<PartExpr, Memory>
    ensures { IfOk result (λ p. p ≡ record { ty = part.ty; values = part.values ++ value ∷ [] }) }
{
    let PartExpr { ty, values } = part;
    let mut values = values;
    values.push(value)?;
    Ok(PartExpr { ty, values })
}

/// Adds a value to the part that was read last.
fn with_value(operands: &mut Stack<Built>, value: ValueExpr) -> Result<(), Memory>
    ensures { OnOk result (operands.new ≡ with_value value operands.old) }
{
    match pop_part(operands) {
        None => Ok(()),
        Some(part) => {
            let part = added(part, value)?;
            operands.push(Built::Part(part))
        }
    }
}

/// Adds the last value to the part before it.
#[tactic(auto, using(crate::proofs::Reducing::no_value, crate::proofs::Reducing::one_value))]
fn value(operands: &mut Stack<Built>) -> Result<(), Memory>
    ensures { OnOk result (operands.new ≡ apply act.Value operands.old) }
{
    match pop_value(operands) {
        None => Ok(()),
        Some(value) => with_value(operands, value),
    }
}

/// Adds the last part to the parts before it.
fn join(operands: &mut Stack<Built>) -> Result<(), Memory>
    ensures { OnOk result (operands.new ≡ apply act.Join operands.old) }
{
    match pop_part(operands) {
        None => Ok(()),
        Some(part) => match pop_parts(operands) {
            None => Ok(()),
            Some(parts) => {
                let mut parts = parts;
                parts.push(part)?;
                operands.push(Built::Parts(parts))
            }
        },
    }
}

/// Pushes a command.
fn push_command(
    alloc: Global,
    operands: &mut Stack<Built>,
    command: CommandText,
) -> Result<(), Memory>
    ensures { OnOk result (operands.new ≡ Built.Command command ∷ operands.old) }
{
    let command = Boxed::new(alloc, command)?;
    operands.push(Built::Command(command))
}

/// Builds `create` of the last parts and the name before them.
fn create(alloc: Global, operands: &mut Stack<Built>) -> Result<(), Memory>
    ensures { OnOk result (operands.new ≡ apply act.Create operands.old) }
{
    match pop_parts(operands) {
        None => Ok(()),
        Some(parts) => match pop_name(operands) {
            None => Ok(()),
            Some(name) => push_command(alloc, operands, CommandText::Create { name, parts }),
        },
    }
}

/// Builds `destroy` of the last reference.
fn destroy(alloc: Global, operands: &mut Stack<Built>) -> Result<(), Memory>
    ensures { OnOk result (operands.new ≡ apply act.Destroy operands.old) }
{
    match pop_ref(operands) {
        None => Ok(()),
        Some(found) => push_command(alloc, operands, CommandText::Destroy(found)),
    }
}

/// Returns the command over a reference and a part.
fn changed(verb: Change, found: RefExpr, part: PartExpr) -> CommandText
    ensures { result ≡ changed verb found part }
{
    match verb {
        Change::Add => CommandText::Add(found, part),
        Change::Set => CommandText::Set(found, part),
        Change::SetShared => CommandText::SetShared(found, part),
    }
}

/// Builds a command of the last part and the reference before it.
fn changes(alloc: Global, operands: &mut Stack<Built>, verb: Change) -> Result<(), Memory>
    ensures { OnOk result (operands.new ≡ apply (act.Change verb) operands.old) }
{
    match pop_part(operands) {
        None => Ok(()),
        Some(part) => match pop_ref(operands) {
            None => Ok(()),
            Some(found) => push_command(alloc, operands, changed(verb, found, part)),
        },
    }
}

/// Returns the command over a reference and a type.
fn turned(verb: Turn, found: RefExpr, ty: TypeId) -> CommandText
    ensures { result ≡ turned verb found ty }
{
    match verb {
        Turn::Remove => CommandText::Remove(found, ty),
        Turn::Enable => CommandText::Enable(found, ty),
        Turn::Disable => CommandText::Disable(found, ty),
    }
}

/// Builds a command of the last type and the reference before it.
fn turns(alloc: Global, operands: &mut Stack<Built>, verb: Turn) -> Result<(), Memory>
    ensures { OnOk result (operands.new ≡ apply (act.Turn verb) operands.old) }
{
    match pop_type(operands) {
        None => Ok(()),
        Some(ty) => match pop_ref(operands) {
            None => Ok(()),
            Some(found) => push_command(alloc, operands, turned(verb, found, ty)),
        },
    }
}

/// Builds `instantiate` of the last reference and the name before it.
fn instantiate(alloc: Global, operands: &mut Stack<Built>) -> Result<(), Memory>
    ensures { OnOk result (operands.new ≡ apply act.Instantiate operands.old) }
{
    match pop_ref(operands) {
        None => Ok(()),
        Some(source) => match pop_name(operands) {
            None => Ok(()),
            Some(name) => push_command(alloc, operands, CommandText::Instantiate { name, source }),
        },
    }
}
