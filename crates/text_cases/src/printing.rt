//! Expressions that are printed and read again.
ghost use Rattle.std.specs.Prelude.{◌≡◌};
ghost use Rattle.expr_read.specs.PrintedTexts.{is_field, is_natural, is_printable, is_printable_ref};
ghost use Rattle.expr_read.specs.ScopeOf.{is_known};

use crate::fault::LineFault;
use crate::reading::{assign_of, expr_of, shown};
use ent_types::{Registry, TypeId};
use expr_read::{Assign, Expr, RefExpr, Scope, print_expr};
use std::alloc::Global;

/// `true` if the registry has the type.
fn is_known(registry: &Registry, ty: TypeId) -> bool
    ensures { result ≡ is_known registry.now ty }
{
    usize::from(ty.0) < registry.len()
}

/// `true` if the registry has the field.
fn is_field(registry: &Registry, ty: TypeId, field: u8) -> bool
    ensures { result ≡ is_field registry.now ty field }
{
    if usize::from(ty.0) >= registry.len() {
        return false;
    }
    usize::from(field) < registry.info(ty).fields.len()
}

/// `true` if the number is at least 0.
fn is_natural(number: i64) -> bool
    ensures { result ≡ is_natural number }
{
    number >= 0
}

/// `true` if the reference is no made name, and the registry has the field that it names.
fn is_printable_ref(registry: &Registry, e: &RefExpr) -> bool
    ensures { result ≡ is_printable_ref registry.now e.now }
{
    match *e {
        RefExpr::Null => true,
        RefExpr::Me => true,
        RefExpr::Made(_) => false,
        RefExpr::Own { ty, field } => is_field(registry, ty, field),
        RefExpr::Entity(_) => true,
    }
}

/// `true` if `print_expr` takes the expression.
fn is_printable(registry: &Registry, e: &Expr) -> bool
    ensures { result ≡ is_printable registry.now e.now }
{
    match e {
        Expr::Number(number) => is_natural(*number),
        Expr::Variable(_) => true,
        Expr::Own { ty, field } => is_field(registry, *ty, *field),
        Expr::Unary(_, a) => is_printable(registry, a.get()),
        Expr::Binary(_, a, b) => is_printable(registry, a.get()) && is_printable(registry, b.get()),
        Expr::Pick(c, a, b) => {
            is_printable(registry, c.get())
                && (is_printable(registry, a.get()) && is_printable(registry, b.get()))
        }
        Expr::Get { from, ty, field } => {
            is_printable_ref(registry, from) && is_field(registry, *ty, *field)
        }
        Expr::Alive(r) => is_printable_ref(registry, r),
        Expr::Has(r, ty) => is_printable_ref(registry, r) && is_known(registry, *ty),
        Expr::Same(r, q) => is_printable_ref(registry, r) && is_printable_ref(registry, q),
        Expr::On(ty) => is_known(registry, *ty),
    }
}

/// Prints an expression.
fn print(alloc: Global, e: &Expr, registry: &Registry) -> Result<String, LineFault> {
    if !is_printable(registry, e) {
        return Err(LineFault::Unread);
    }
    Ok(print_expr(alloc, e, registry)?)
}

/// Writes the tree of the printed text, or the cause of its fault.
fn read_again(alloc: Global, printed: &str, scope: &Scope) -> Result<String, LineFault> {
    match expr_of(alloc, printed, scope) {
        Ok(again) => shown(alloc, &again),
        Err(fault) => shown(alloc, &fault.cause),
    }
}

/// Writes `same` if the trees are equal, else the second; a colon, and the printed text.
fn compared(alloc: Global, before: &str, after: &str, printed: &str) -> Result<String, LineFault> {
    let outcome = if before == after { "same" } else { after };
    Ok(format!(in alloc; "{outcome}: {printed}")?)
}

/// Writes `same` if the printed text is read as the expression, else the tree or the cause of the fault; a colon, and
/// the printed text.
fn round(alloc: Global, e: &Expr, scope: &Scope) -> Result<String, LineFault> {
    let printed = print(alloc, e, scope.registry)?;
    let before = shown(alloc, e)?;
    let after = read_again(alloc, printed.as_str(), scope)?;
    compared(alloc, before.as_str(), after.as_str(), printed.as_str())
}

/// Prints the expression that a text is in one scope, and reads it again in another.
pub fn printed_text(
    alloc: Global,
    text: &str,
    scope: &Scope,
    again: &Scope,
) -> Result<String, LineFault> {
    match expr_of(alloc, text, scope) {
        Ok(e) => round(alloc, &e, again),
        Err(_) => Err(LineFault::Unread),
    }
}

/// Returns the field on the left of an assignment as an expression.
fn field_of(alloc: Global, text: &str, scope: &Scope) -> Result<Expr, LineFault> {
    match assign_of(alloc, text, scope) {
        Ok(Assign { ty, field, .. }) => Ok(Expr::Own { ty, field }),
        Err(_) => Err(LineFault::Unread),
    }
}

/// Prints the field on the left of an assignment as a number of the own row, and reads it again.
pub fn printed_field(alloc: Global, text: &str, scope: &Scope) -> Result<String, LineFault> {
    let e = field_of(alloc, text, scope)?;
    round(alloc, &e, scope)
}
