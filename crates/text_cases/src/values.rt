//! The values of expressions and references on the table's rows.
ghost use Rattle.std.specs.Prelude.{◌≡◌};
ghost use Rattle.expr_eval.specs.Conditions.{reads, ref_reads};
ghost use Rattle.text_cases.specs.Reads.{has_own, can_look};

use crate::fault::LineFault;
use crate::reading::{command_of, expr_of};
use crate::rows::{OtherRows, OwnRow, can_look, has_own};
use ent_types::Entity;
use expr_eval::{eval, eval_ref};
use expr_read::{CommandText, Expr, RefExpr, Scope};
use std::alloc::Global;

/// What is written of a value that the rows don't have.
const UNREADABLE: &str = "unreadable";

/// `true` if the own row has the field that the reference names, if it names one.
fn reads_ref(e: &RefExpr) -> bool
    ensures { result ≡ ref_reads has_own e.now }
{
    match *e {
        RefExpr::Null => true,
        RefExpr::Me => true,
        RefExpr::Made(_) => true,
        RefExpr::Own { ty, field } => has_own(ty, field),
        RefExpr::Entity(_) => true,
    }
}

/// `true` if the own row has each field that the expression names, and each type that it looks up can be read.
fn reads(e: &Expr) -> bool
    ensures { result ≡ reads has_own can_look e.now }
{
    match e {
        Expr::Number(_) => true,
        Expr::Variable(_) => true,
        Expr::Own { ty, field } => has_own(*ty, *field),
        Expr::Unary(_, a) => reads(a.get()),
        Expr::Binary(_, a, b) => reads(a.get()) && reads(b.get()),
        Expr::Pick(c, a, b) => reads(c.get()) && (reads(a.get()) && reads(b.get())),
        Expr::Get { from, ty, .. } => reads_ref(from) && can_look(*ty),
        Expr::Alive(r) => reads_ref(r),
        Expr::Has(r, _) => reads_ref(r),
        Expr::Same(r, q) => reads_ref(r) && reads_ref(q),
        Expr::On(_) => true,
    }
}

/// Returns the value of an expression, if the rows have what it reads.
fn value(e: &Expr) -> Option<i64> {
    if !reads(e) {
        return None;
    }
    Some(eval(e, &OwnRow, &OtherRows))
}

/// Returns the entity of a reference, if the own row has the field that it names.
fn entity(e: &RefExpr) -> Option<Entity> {
    if !reads_ref(e) {
        return None;
    }
    Some(eval_ref(e, &OwnRow))
}

/// Writes the value of an expression, if the rows have what it reads.
fn shown_value(alloc: Global, e: &Expr) -> Result<String, LineFault> {
    match value(e) {
        Some(value) => Ok(format!(in alloc; "{value}")?),
        None => Ok(String::from_str(alloc, UNREADABLE)?),
    }
}

/// Writes the value of the expression that a text is.
pub fn value_text(alloc: Global, text: &str, scope: &Scope) -> Result<String, LineFault> {
    match expr_of(alloc, text, scope) {
        Ok(e) => shown_value(alloc, &e),
        Err(_) => Err(LineFault::Unread),
    }
}

/// Writes the entity of a reference, if the own row has the field that it names.
fn shown_entity(alloc: Global, e: &RefExpr) -> Result<String, LineFault> {
    match entity(e) {
        Some(Entity { index, version }) => Ok(format!(in alloc; "{index}:{version}")?),
        None => Ok(String::from_str(alloc, UNREADABLE)?),
    }
}

/// Writes the entity that a command destroys.
pub fn entity_text(alloc: Global, text: &str, scope: &Scope) -> Result<String, LineFault> {
    match command_of(alloc, text, scope) {
        Ok(CommandText::Destroy(target)) => shown_entity(alloc, &target),
        Ok(_) => Err(LineFault::Unread),
        Err(_) => Err(LineFault::Unread),
    }
}
