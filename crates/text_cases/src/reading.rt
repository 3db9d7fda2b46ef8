//! The reader for each sort of text.
ghost use Rattle.expr_read.specs.ScopeOf.{scope_of};
ghost use Rattle.text_cases.specs.Claims.{Claims};

use crate::answer::{Answer, told};
use crate::fault::LineFault;
use expr_read::{
    Assign, CommandText, Expr, ExprFault, RefExpr, Scope, Switch, read_assign, read_command,
    read_expr, read_ref, read_switch,
};
use std::alloc::Global;
use std::fmt::Debug;

/// The grammar's symbol that a text is read as.
#[derive(Clone, Copy)]
pub enum Sort {
    /// An expression.
    Expr,
    /// A reference.
    Ref,
    /// An assignment.
    Assign,
    /// A switch.
    Switch,
    /// A command.
    Command,
}

impl Sort {
    /// Returns the sort with this name.
    pub fn named(name: &str) -> Result<Sort, LineFault> {
        match name {
            "expr" => Ok(Sort::Expr),
            "ref" => Ok(Sort::Ref),
            "assign" => Ok(Sort::Assign),
            "switch" => Ok(Sort::Switch),
            "command" => Ok(Sort::Command),
            _ => Err(LineFault::UnknownWord),
        }
    }
}

/// Returns the answer of the sort's reader to a text.
pub fn read(alloc: Global, sort: Sort, text: &str, scope: &Scope) -> Answer
    ensures { Claims (scope_of scope.now.registry.now scope.now.place scope.now.bound.now scope.now.made.now) sort text.now result }
{
    match sort {
        Sort::Expr => told(read_expr(alloc, text, scope)),
        Sort::Ref => told(read_ref(alloc, text, scope)),
        Sort::Assign => told(read_assign(alloc, text, scope)),
        Sort::Switch => told(read_switch(alloc, text, scope)),
        Sort::Command => told(read_command(alloc, text, scope)),
    }
}

/// Returns the expression that a text is. It has no clause, so that the proofs above don't read those of the reader.
pub fn expr_of(alloc: Global, text: &str, scope: &Scope) -> Result<Expr, ExprFault> {
    read_expr(alloc, text, scope)
}

/// Returns the reference that a text is.
fn ref_of(alloc: Global, text: &str, scope: &Scope) -> Result<RefExpr, ExprFault> {
    read_ref(alloc, text, scope)
}

/// Returns the assignment that a text is.
pub fn assign_of(alloc: Global, text: &str, scope: &Scope) -> Result<Assign, ExprFault> {
    read_assign(alloc, text, scope)
}

/// Returns the switch that a text is.
fn switch_of(alloc: Global, text: &str, scope: &Scope) -> Result<Switch, ExprFault> {
    read_switch(alloc, text, scope)
}

/// Returns the command that a text is.
pub fn command_of(alloc: Global, text: &str, scope: &Scope) -> Result<CommandText, ExprFault> {
    read_command(alloc, text, scope)
}

/// Returns the tree that the sort's reader builds of a text, as `Debug` writes it, or the fault.
pub fn tree_text(
    alloc: Global,
    sort: Sort,
    text: &str,
    scope: &Scope,
) -> Result<String, LineFault> {
    match sort {
        Sort::Expr => built(alloc, expr_of(alloc, text, scope)),
        Sort::Ref => built(alloc, ref_of(alloc, text, scope)),
        Sort::Assign => built(alloc, assign_of(alloc, text, scope)),
        Sort::Switch => built(alloc, switch_of(alloc, text, scope)),
        Sort::Command => built(alloc, command_of(alloc, text, scope)),
    }
}

/// Writes a tree or a fault.
fn built<T: Debug + Drop>(alloc: Global, read: Result<T, ExprFault>) -> Result<String, LineFault> {
    match read {
        Ok(tree) => shown(alloc, &tree),
        Err(fault) => answer_text(alloc, Answer::Fault(fault)),
    }
}

/// Writes a value as `Debug` does.
pub fn shown<T: Debug>(alloc: Global, value: &T) -> Result<String, LineFault> {
    Ok(format!(in alloc; "{value:?}")?)
}

/// Writes an answer.
pub fn answer_text(alloc: Global, answer: Answer) -> Result<String, LineFault> {
    Ok(format!(in alloc; "{answer}")?)
}
