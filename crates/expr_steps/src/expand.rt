//! What is expected, and built at once, after a token is accepted.
ghost use Rattle.std.specs.Prelude.{◌≡◌, ◌∷◌, ◌++◌, false, OnOk};
ghost use Rattle.expr_steps.specs.Expecting.{action_at, done, expected_of, move_of, some_operators, symbols, things_behind, things_in, things_of, values_things};

use crate::expected::{Expected, Reduction, part_use, turn_use, value_by, whole};
use crate::moves::{Accepted, Move};
use crate::reduce::push_int;
use crate::stack::Stack;
use ent_types::{Memory, Sequence, TypeId};
use expr_grammar::{Built, Call, FieldUse, TypeUse, Verb};
use expr_trees::{Expr, PartExpr};
use sqlite_items::Boxed;
use std::alloc::Global;

/// Expects a reference, a comma and something else in a call, and then reduces.
fn push_after_ref(
    expected: &mut Stack<Expected>,
    second: Expected,
    reduction: Reduction,
) -> Result<(), Memory>
    ensures { OnOk result (expected.new ≡ Expected.Ref false ∷ Expected.Comma ∷ second ∷ Expected.Close ∷ Expected.Reduce reduction ∷ expected.old) }
{
    expected.push_three(second, Expected::Close, Expected::Reduce(reduction))?;
    expected.push_two(Expected::Ref { made: false }, Expected::Comma)
}

/// Expects the arguments of a call.
fn push_arguments(expected: &mut Stack<Expected>, call: Call, depth: u8) -> Result<(), Memory>
    ensures { OnOk result (expected.new ≡ things_in call depth ++ expected.old) }
{
    match call {
        Call::Two(op) => {
            let reduce = Expected::Reduce(Reduction::Binary(op));
            expected.push_three(whole(depth), Expected::Close, reduce)?;
            expected.push_two(whole(depth), Expected::Comma)
        }
        Call::Pick => {
            let reduce = Expected::Reduce(Reduction::Pick);
            expected.push_three(whole(depth), Expected::Close, reduce)?;
            expected.push_two(whole(depth), Expected::Comma)?;
            expected.push_two(whole(depth), Expected::Comma)
        }
        Call::Get => push_after_ref(
            expected,
            Expected::TypeField(FieldUse::Looked),
            Reduction::Get,
        ),
        Call::Alive => expected.push_three(
            Expected::Ref { made: false },
            Expected::Close,
            Expected::Reduce(Reduction::Alive),
        ),
        Call::Has => push_after_ref(expected, Expected::Type(TypeUse::Asked), Reduction::Has),
        Call::Same => push_after_ref(expected, Expected::Ref { made: false }, Reduction::Same),
        Call::On => expected.push_three(
            Expected::Type(TypeUse::Own),
            Expected::Close,
            Expected::Reduce(Reduction::On),
        ),
    }
}

/// Expects what follows the word of a command.
fn push_behind(expected: &mut Stack<Expected>, verb: Verb) -> Result<(), Memory>
    ensures { OnOk result (expected.new ≡ things_behind verb ++ expected.old) }
{
    let named = Expected::Ref { made: true };
    match verb {
        Verb::Create => {
            expected.push_two(Expected::With, Expected::Reduce(Reduction::Create))?;
            expected.push_two(Expected::New, Expected::Reduce(Reduction::NoParts))
        }
        Verb::Destroy => expected.push_two(named, Expected::Reduce(Reduction::Destroy)),
        Verb::Change(change) => expected.push_three(
            named,
            Expected::Part(part_use(change)),
            Expected::Reduce(Reduction::Change(change)),
        ),
        Verb::Turn(turn) => expected.push_three(
            named,
            Expected::Type(turn_use(turn)),
            Expected::Reduce(Reduction::Turn(turn)),
        ),
        Verb::Instantiate => {
            expected.push_two(named, Expected::Reduce(Reduction::Instantiate))?;
            expected.push_two(Expected::New, Expected::From)
        }
    }
}

/// Expects perhaps operators of `count` levels from `level` on.
fn push_operators(
    expected: &mut Stack<Expected>,
    level: u8,
    count: u8,
    depth: u8,
) -> Result<(), Memory>
    ensures { OnOk result (expected.new ≡ some_operators level count depth ++ expected.old) }
{
    if count == 0 {
        return Ok(());
    }
    expected.push(Expected::Operators {
        level,
        count,
        depth,
    })
}

/// Expects the values of a part of this type, if it has fields.
fn push_values(expected: &mut Stack<Expected>, ty: TypeId, has_fields: bool) -> Result<(), Memory>
    ensures { OnOk result (expected.new ≡ values_things ty has_fields ++ expected.old) }
{
    if !has_fields {
        return Ok(());
    }
    expected.push(Expected::Values(ty))
}

/// Builds what a move builds at once.
fn build(alloc: Global, left: &Move, operands: &mut Stack<Built>) -> Result<(), Memory>
    ensures { OnOk result (operands.new ≡ done (action_at left.now) operands.old) }
{
    match *left {
        Move::Number(n) => push_int(alloc, operands, Expr::Number(n)),
        Move::Own { ty, field } => push_int(alloc, operands, Expr::Own { ty, field }),
        Move::Ref(found) => operands.push(Built::Ref(found)),
        Move::Type(ty) => operands.push(Built::Type(ty)),
        Move::Field { ty, field } => operands.push(Built::Field { ty, field }),
        Move::New(name) => {
            let name = Boxed::new(alloc, name)?;
            operands.push(Built::Name(name))
        }
        Move::Assigned { ty, field, .. } => operands.push(Built::Field { ty, field }),
        Move::Part { ty, .. } => operands.push(Built::Part(PartExpr {
            ty,
            values: Sequence::new(alloc),
        })),
        Move::Joined { ty, .. } => operands.push(Built::Part(PartExpr {
            ty,
            values: Sequence::new(alloc),
        })),
        _ => Ok(()),
    }
}

/// Expects what a move leaves.
fn push_rest(expected: &mut Stack<Expected>, left: &Move) -> Result<(), Memory>
    ensures { OnOk result (expected.new ≡ things_of left.now ++ expected.old) }
{
    match *left {
        Move::One(one) => expected.push(one),
        Move::Group { depth } => expected.push_two(whole(depth), Expected::Close),
        Move::Signed { op, depth } => {
            let operand = Expected::Level { level: 0, depth };
            expected.push_two(operand, Expected::Reduce(Reduction::Unary(op)))
        }
        Move::Operator {
            op,
            level,
            from,
            count,
            depth,
        } => {
            push_operators(expected, from, count, depth)?;
            let operand = Expected::Level { level, depth };
            expected.push_two(operand, Expected::Reduce(Reduction::Binary(op)))
        }
        Move::Arguments { call, depth } => push_arguments(expected, call, depth),
        Move::Owner { ty, role } => {
            expected.push_two(Expected::Dot, Expected::Field { ty, role })
        }
        Move::Assigned { is_ref, .. } => {
            expected.push_two(Expected::Becomes, value_by(false, is_ref))
        }
        Move::Behind(verb) => push_behind(expected, verb),
        Move::Part { ty, has_fields } => push_values(expected, ty, has_fields),
        Move::Joined {
            ty,
            has_fields,
            used,
        } => {
            let join = Expected::Reduce(Reduction::Join);
            expected.push_two(join, Expected::MoreParts(used))?;
            push_values(expected, ty, has_fields)
        }
        Move::Value { ty, is_ref, next } => {
            let join = Expected::Reduce(Reduction::Value);
            let more = Expected::MoreValues { ty, at: next };
            expected.push_three(value_by(true, is_ref), join, more)
        }
        _ => Ok(()),
    }
}

/// Expects what an accepted token leaves, instead of the expected thing that accepted it.
fn push_accepted(expected: &mut Stack<Expected>, accepted: &Accepted) -> Result<(), Memory>
    ensures { OnOk result (symbols expected.new ≡ expected_of accepted.now ++ symbols expected.old) }
{
    match accepted {
        Accepted::Operand { left, level, depth } => {
            push_operators(expected, 0, *level, *depth)?;
            push_rest(expected, left)?;
            Ok(())
        }
        Accepted::Other(left) => {
            push_rest(expected, left)?;
            Ok(())
        }
    }
}

/// Returns what an accepted token leaves.
fn move_of(accepted: &Accepted) -> &Move
    ensures { result.now ≡ move_of accepted.now }
{
    match accepted {
        Accepted::Operand { left, .. } => left,
        Accepted::Other(left) => left,
    }
}

/// Expands an accepted token: expects what it leaves, and builds what it builds at once.
pub(crate) fn expand(
    alloc: Global,
    accepted: &Accepted,
    expected: &mut Stack<Expected>,
    operands: &mut Stack<Built>,
) -> Result<(), Memory>
    ensures expects { OnOk result (symbols expected.new ≡ expected_of accepted.now ++ symbols expected.old) }
    ensures builds { OnOk result (operands.new ≡ done (action_at (move_of accepted.now)) operands.old) }
{
    push_accepted(expected, accepted)?;
    build(alloc, move_of(accepted), operands)
}
