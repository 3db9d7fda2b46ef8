//! The readers of expressions, references, assignments, switches and commands, over any names.
ghost use Rattle.std.specs.Prelude.{◌≡◌, ℕ, [], ◌∷◌, IfOk, MatchResult};
ghost use Rattle.ent_types.specs.declared.entity.TypeId.{TypeId};
ghost use Rattle.expr_trees.specs.declared.tree.Assign.{Assign};
ghost use Rattle.expr_trees.specs.declared.tree.CommandText.{CommandText};
ghost use Rattle.expr_trees.specs.declared.tree.Expr.{Expr};
ghost use Rattle.expr_trees.specs.declared.tree.RefExpr.{RefExpr};
ghost use Rattle.expr_trees.specs.declared.tree.Switch.{Switch};
ghost use Rattle.expr_trees.specs.declared.tree.ValueExpr.{ValueExpr};
ghost use Rattle.expr_grammar.specs.Answers.{Tells, assign_answer, command_answer, expr_answer, ref_answer, switch_answer};
ghost use Rattle.expr_grammar.specs.CommandScopes.{ServesCommands};
ghost use Rattle.expr_grammar.specs.Languages.{assigns, commands, exprs, refs, switches};
ghost use Rattle.expr_grammar.specs.Readings.{Reads, Refuses, ReadsText};
ghost use Rattle.expr_grammar.specs.Scopes.{IsLawful};
ghost use Rattle.expr_grammar.specs.declared.symbol.Symbol.TheVariants as wait;
ghost use Rattle.expr_grammar.specs.Stops.{built_of, built_assign, built_switch};
ghost use Rattle.expr_steps.specs.Expecting.{symbols};

use crate::read::{out_of_memory, read_text};
use ent_types::Memory;
use expr_grammar::{Built, ExprFault, FieldUse, TypeUse};
use expr_steps::{
    Expected, Names, Stack, WHOLE, pop_command, pop_field, pop_int, pop_ref, pop_type, pop_value,
    whole,
};
use expr_trees::{Assign, CommandText, Expr, RefExpr, Switch, ValueExpr};
use std::alloc::Global;

/// Returns what a text builds that is read from one expected thing.
fn read_from<N: Names>(
    alloc: Global,
    names: &N,
    start: Expected,
    text: &str,
) -> Result<Stack<Built>, ExprFault>
    ensures { MatchResult result (λ ws. Reads (N.scope names.now) (symbols (start ∷ [])) text.now ws) (λ f. Refuses (N.scope names.now) (symbols (start ∷ [])) text.now f) }
{
    let mut expected = Stack::new(alloc);
    match expected.push(start) {
        Ok(()) => read_text(alloc, names, expected, text),
        Err(_) => Err(out_of_memory()),
    }
}

/// Returns the expression that was built.
fn the_int(built: Stack<Built>) -> Expr
    requires { (e : Expr) × (built ≡ Built.Int e ∷ []) }
    ensures { built ≡ Built.Int result ∷ [] }
{
    let mut built = built;
    match pop_int(&mut built) {
        Some(value) => value.into_inner(),
        None => unreachable!(),
    }
}

/// Returns the reference that was built.
fn the_ref(built: Stack<Built>) -> RefExpr
    requires { (r : RefExpr) × (built ≡ Built.Ref r ∷ []) }
    ensures { built ≡ Built.Ref result ∷ [] }
{
    let mut built = built;
    match pop_ref(&mut built) {
        Some(found) => found,
        None => unreachable!(),
    }
}

/// Returns the assignment that was built.
#[tactic(auto, using(crate::proofs::Values::value_there))]
fn the_assign(built: Stack<Built>) -> Assign
    requires { (a : Assign) × (built ≡ built_assign a) }
    ensures { built ≡ built_assign result }
{
    let mut built = built;
    match pop_value(&mut built) {
        Some(value) => match pop_field(&mut built) {
            Some((ty, field)) => Assign { ty, field, value },
            None => unreachable!(),
        },
        None => unreachable!(),
    }
}

/// Returns the switch that was built.
fn the_switch(built: Stack<Built>) -> Switch
    requires { (w : Switch) × (built ≡ built_switch w) }
    ensures { built ≡ built_switch result }
{
    let mut built = built;
    match pop_int(&mut built) {
        Some(value) => match pop_type(&mut built) {
            Some(ty) => Switch {
                ty,
                value: value.into_inner(),
            },
            None => unreachable!(),
        },
        None => unreachable!(),
    }
}

/// Returns the command that was built.
fn the_command(built: Stack<Built>) -> CommandText
    requires { (c : CommandText) × (built ≡ Built.Command c ∷ []) }
    ensures { built ≡ Built.Command result ∷ [] }
{
    let mut built = built;
    match pop_command(&mut built) {
        Some(command) => command,
        None => unreachable!(),
    }
}

/// Returns what a switch begins with.
fn switch_start(alloc: Global) -> Result<Stack<Expected>, Memory>
    ensures { IfOk result (λ expected. expected ≡ Expected.Type TypeUse.Switched ∷ Expected.Becomes ∷ Expected.Level 5 0 ∷ []) }
{
    let mut expected = Stack::new(alloc);
    expected.push_three(
        Expected::Type(TypeUse::Switched),
        Expected::Becomes,
        whole(0),
    )?;
    Ok(expected)
}

/// Returns what the text of a switch builds.
fn read_switch_text<N: Names>(
    alloc: Global,
    names: &N,
    text: &str,
) -> Result<Stack<Built>, ExprFault>
    ensures { MatchResult result (λ ws. Reads (N.scope names.now) (wait.Type TypeUse.Switched ∷ wait.Becomes ∷ wait.Level 5 0 ∷ []) text.now ws) (λ f. Refuses (N.scope names.now) (wait.Type TypeUse.Switched ∷ wait.Becomes ∷ wait.Level 5 0 ∷ []) text.now f) }
{
    match switch_start(alloc) {
        Ok(expected) => read_text(alloc, names, expected, text),
        Err(_) => Err(out_of_memory()),
    }
}

/// Returns the expression that a text is, of at most 1,024 bytes and 64 levels of nesting, or its first fault.
pub fn read_expr_by<N: Names>(alloc: Global, text: &str, names: &N) -> Result<Expr, ExprFault>
    requires { IsLawful (N.scope names.now) }
    ensures reads { ReadsText (exprs (N.scope names.now)) text.now result }
    ensures told { Tells (expr_answer (N.scope names.now) text.now) result }
{
    let start = Expected::Level {
        level: WHOLE,
        depth: 0,
    };
    match read_from(alloc, names, start, text) {
        Ok(built) => Ok(the_int(built)),
        Err(fault) => Err(fault),
    }
}

/// Returns the reference that a text is, of at most 1,024 bytes, or its first fault. No made name fits.
pub fn read_ref_by<N: Names>(alloc: Global, text: &str, names: &N) -> Result<RefExpr, ExprFault>
    requires { IsLawful (N.scope names.now) }
    ensures reads { ReadsText (refs (N.scope names.now)) text.now result }
    ensures told { Tells (ref_answer (N.scope names.now) text.now) result }
{
    match read_from(alloc, names, Expected::Ref { made: false }, text) {
        Ok(built) => Ok(the_ref(built)),
        Err(fault) => Err(fault),
    }
}

/// Returns the assignment `TYPE.FIELD = value` that a text is, of at most 1,024 bytes and 64 levels of nesting, or its
/// first fault.
pub fn read_assign_by<N: Names>(alloc: Global, text: &str, names: &N) -> Result<Assign, ExprFault>
    requires { IsLawful (N.scope names.now) }
    ensures reads { ReadsText (assigns (N.scope names.now)) text.now result }
    ensures told { Tells (assign_answer (N.scope names.now) text.now) result }
{
    match read_from(alloc, names, Expected::TypeField(FieldUse::Assigned), text) {
        Ok(built) => Ok(the_assign(built)),
        Err(fault) => Err(fault),
    }
}

/// Returns the switch `TYPE = expr` that a text is, of at most 1,024 bytes and 64 levels of nesting, or its first fault.
pub fn read_switch_by<N: Names>(alloc: Global, text: &str, names: &N) -> Result<Switch, ExprFault>
    requires { IsLawful (N.scope names.now) }
    ensures reads { ReadsText (switches (N.scope names.now)) text.now result }
    ensures told { Tells (switch_answer (N.scope names.now) text.now) result }
{
    match read_switch_text(alloc, names, text) {
        Ok(built) => Ok(the_switch(built)),
        Err(fault) => Err(fault),
    }
}

/// Returns the command that a text is, of at most 1,024 bytes and 64 levels of nesting, or its first fault.
pub fn read_command_by<N: Names>(
    alloc: Global,
    text: &str,
    names: &N,
) -> Result<CommandText, ExprFault>
    requires lawful { IsLawful (N.scope names.now) }
    requires serves { ServesCommands (N.scope names.now) }
    ensures reads { ReadsText (commands (N.scope names.now)) text.now result }
    ensures told { Tells (command_answer (N.scope names.now) text.now) result }
{
    match read_from(alloc, names, Expected::Verb, text) {
        Ok(built) => Ok(the_command(built)),
        Err(fault) => Err(fault),
    }
}
