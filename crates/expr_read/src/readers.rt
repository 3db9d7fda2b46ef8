//! The readers of texts in their scope.
ghost use Rattle.expr_grammar.specs.Answers.{Tells, assign_answer, command_answer, expr_answer, ref_answer, switch_answer};
ghost use Rattle.expr_grammar.specs.Languages.{assigns, commands, exprs, refs, switches};
ghost use Rattle.expr_grammar.specs.Readings.{ReadsText};
ghost use Rattle.expr_read.specs.ScopeOf.{scope_at};

use crate::{Assign, CommandText, Expr, ExprFault, RefExpr, Scope, Switch};
use expr_machine::{read_assign_by, read_command_by, read_expr_by, read_ref_by, read_switch_by};
use std::alloc::Global;

/// Returns the expression that a text is in its scope, or its first fault.
///
/// The fault is `TooLong` at 1024 if and only if the text has more than 1,024 bytes. Otherwise it is at the first token
/// with which no text of the grammar can go on, or at the text's end. Its cause is the first that fits of `BadChar`,
/// `NumberRange`, `TooDeep`, `UnknownName` and `Unexpected`. `Memory` is returned only if memory runs out. The language
/// is this project's own.
pub fn read_expr(alloc: Global, text: &str, scope: &Scope) -> Result<Expr, ExprFault>
    ensures reads { ReadsText (exprs (scope_at scope.now)) text.now result }
    ensures told { Tells (expr_answer (scope_at scope.now) text.now) result }
{
    scope.law();
    read_expr_by(alloc, text, scope)
}

/// Returns the reference that a text is in its scope, or its first fault, as `read_expr` does. No made name fits.
pub fn read_ref(alloc: Global, text: &str, scope: &Scope) -> Result<RefExpr, ExprFault>
    ensures reads { ReadsText (refs (scope_at scope.now)) text.now result }
    ensures told { Tells (ref_answer (scope_at scope.now) text.now) result }
{
    scope.law();
    read_ref_by(alloc, text, scope)
}

/// Returns the assignment `TYPE.FIELD = value` that a text is in its scope, or its first fault, as `read_expr` does. The
/// value is an expression or a reference by the field's kind.
pub fn read_assign(alloc: Global, text: &str, scope: &Scope) -> Result<Assign, ExprFault>
    ensures reads { ReadsText (assigns (scope_at scope.now)) text.now result }
    ensures told { Tells (assign_answer (scope_at scope.now) text.now) result }
{
    scope.law();
    read_assign_by(alloc, text, scope)
}

/// Returns the switch `TYPE = expr` that a text is in its scope, or its first fault, as `read_expr` does.
pub fn read_switch(alloc: Global, text: &str, scope: &Scope) -> Result<Switch, ExprFault>
    ensures reads { ReadsText (switches (scope_at scope.now)) text.now result }
    ensures told { Tells (switch_answer (scope_at scope.now) text.now) result }
{
    scope.law();
    read_switch_by(alloc, text, scope)
}

/// Returns the command that a text is in its scope, or its first fault, as `read_expr` does. A made name fits where a
/// reference is expected outside expressions, as the entity that is destroyed or as the value of a ref field.
pub fn read_command(alloc: Global, text: &str, scope: &Scope) -> Result<CommandText, ExprFault>
    ensures reads { ReadsText (commands (scope_at scope.now)) text.now result }
    ensures told { Tells (command_answer (scope_at scope.now) text.now) result }
{
    scope.law();
    scope.command_law();
    read_command_by(alloc, text, scope)
}
