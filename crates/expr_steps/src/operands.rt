//! The operand that was read last, by its kind.
ghost use Rattle.std.specs.Prelude.{◌≡◌, [], ◌∷◌, None, MatchOption};
ghost use Rattle.expr_grammar.specs.Stops.{built_of};
ghost use Rattle.expr_steps.specs.Expecting.{top_int, top_ref, top_type, top_field, top_name, top_part, top_parts, top_value, top_command};

use crate::stack::Stack;
use ent_types::{Name, Sequence, TypeId};
use expr_grammar::Built;
use expr_trees::{CommandText, Expr, PartExpr, RefExpr, ValueExpr};
use sqlite_items::Boxed;

/// Drops an operand of another kind, and all operands below it. The proofs of its callers needn't follow how each kind is
/// dropped, which is most of their length.
fn refuse(_other: Built, operands: &mut Stack<Built>)
    ensures { operands.new ≡ [] }
{
    operands.clear();
}

/// Pops an expression. If the top isn't one, clears the stack and returns `None`.
pub fn pop_int(operands: &mut Stack<Built>) -> Option<Boxed<Expr>>
    ensures { MatchOption result ((top_int operands.old ≡ None) × (operands.new ≡ [])) (λ e. operands.old ≡ Built.Int e ∷ operands.new) }
{
    match operands.pop() {
        Some(Built::Int(value)) => Some(value),
        Some(other) => {
            refuse(other, operands);
            None
        }
        None => None,
    }
}

/// Pops a reference. If the top isn't one, clears the stack and returns `None`.
pub fn pop_ref(operands: &mut Stack<Built>) -> Option<RefExpr>
    ensures { MatchOption result ((top_ref operands.old ≡ None) × (operands.new ≡ [])) (λ r. operands.old ≡ Built.Ref r ∷ operands.new) }
{
    match operands.pop() {
        Some(Built::Ref(found)) => Some(found),
        Some(other) => {
            refuse(other, operands);
            None
        }
        None => None,
    }
}

/// Pops a type. If the top isn't one, clears the stack and returns `None`.
pub fn pop_type(operands: &mut Stack<Built>) -> Option<TypeId>
    ensures { MatchOption result ((top_type operands.old ≡ None) × (operands.new ≡ [])) (λ ty. operands.old ≡ Built.Type ty ∷ operands.new) }
{
    match operands.pop() {
        Some(Built::Type(ty)) => Some(ty),
        Some(other) => {
            refuse(other, operands);
            None
        }
        None => None,
    }
}

/// Pops a type and a field of it. If the top isn't one, clears the stack and returns `None`.
pub fn pop_field(operands: &mut Stack<Built>) -> Option<(TypeId, u8)>
    ensures { MatchOption result ((top_field operands.old ≡ None) × (operands.new ≡ [])) (λ p. operands.old ≡ Built.Field p.0 p.1 ∷ operands.new) }
{
    match operands.pop() {
        Some(Built::Field { ty, field }) => Some((ty, field)),
        Some(other) => {
            refuse(other, operands);
            None
        }
        None => None,
    }
}

/// Pops a name. If the top isn't one, clears the stack and returns `None`.
pub fn pop_name(operands: &mut Stack<Built>) -> Option<Name>
    ensures { MatchOption result ((top_name operands.old ≡ None) × (operands.new ≡ [])) (λ name. operands.old ≡ Built.Name name ∷ operands.new) }
{
    match operands.pop() {
        Some(Built::Name(name)) => Some(name.into_inner()),
        Some(other) => {
            refuse(other, operands);
            None
        }
        None => None,
    }
}

/// Pops a part. If the top isn't one, clears the stack and returns `None`.
pub fn pop_part(operands: &mut Stack<Built>) -> Option<PartExpr>
    ensures { MatchOption result ((top_part operands.old ≡ None) × (operands.new ≡ [])) (λ p. operands.old ≡ Built.Part p ∷ operands.new) }
{
    match operands.pop() {
        Some(Built::Part(part)) => Some(part),
        Some(other) => {
            refuse(other, operands);
            None
        }
        None => None,
    }
}

/// Pops parts of `create`. If the top isn't one, clears the stack and returns `None`.
pub fn pop_parts(operands: &mut Stack<Built>) -> Option<Sequence<PartExpr>>
    ensures { MatchOption result ((top_parts operands.old ≡ None) × (operands.new ≡ [])) (λ ps. operands.old ≡ Built.Parts ps ∷ operands.new) }
{
    match operands.pop() {
        Some(Built::Parts(parts)) => Some(parts),
        Some(other) => {
            refuse(other, operands);
            None
        }
        None => None,
    }
}

/// Pops an expression or a reference. If the top is neither, clears the stack and returns `None`.
pub fn pop_value(operands: &mut Stack<Built>) -> Option<ValueExpr>
    ensures { MatchOption result ((top_value operands.old ≡ None) × (operands.new ≡ [])) (λ v. operands.old ≡ built_of v ∷ operands.new) }
{
    match operands.pop() {
        Some(Built::Int(value)) => Some(ValueExpr::Int(value.into_inner())),
        Some(Built::Ref(found)) => Some(ValueExpr::Ref(found)),
        Some(other) => {
            refuse(other, operands);
            None
        }
        None => None,
    }
}

/// Pops a command. If the top isn't one, clears the stack and returns `None`.
pub fn pop_command(operands: &mut Stack<Built>) -> Option<CommandText>
    ensures { MatchOption result ((top_command operands.old ≡ None) × (operands.new ≡ [])) (λ c. operands.old ≡ Built.Command c ∷ operands.new) }
{
    match operands.pop() {
        Some(Built::Command(command)) => Some(command.into_inner()),
        Some(other) => {
            refuse(other, operands);
            None
        }
        None => None,
    }
}
