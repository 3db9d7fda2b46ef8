//! The text of an expression, in which each operand of an operator is in parentheses.
ghost use Rattle.std.specs.Prelude.{◌≡◌, ◌++◌, true, string_bytes, OnOk, IfOk};
ghost use Rattle.expr_read.specs.Printing.{IsPrintable, Prints};
ghost use Rattle.expr_read.specs.PrintedTexts.{expr_text, is_printable, is_spelled};

mod leaves;
mod words;

use crate::Expr;
use ent_types::{Memory, Registry};
use leaves::{push_alive, push_field, push_get, push_has, push_number, push_on, push_same};
use std::alloc::{AllocError, Global};
use words::{between, opening, sign_opening, variable_word};

/// Returns a text whose tokens derive the expression by the grammar, in a scope where `self`, every variable, every call
/// and every type and field of the registry is allowed at any place. Its length and nesting have no limit here.
///
/// The registry knows the types and fields of the expression, its numbers are at least 0, and no reference in it is a
/// made name. Each operand of an operator is in parentheses. This project's own.
pub fn print_expr(alloc: Global, e: &Expr, registry: &Registry) -> Result<String, Memory>
    requires { IsPrintable registry.now e.now }
    ensures { IfOk result (λ text. Prints registry.now e.now (string_bytes text)) }
{
    // The types of a registry are lawful.
    let _ = registry.types();
    let mut text = String::new(alloc);
    push_expr(&mut text, registry, e)?;
    Ok(text)
}

/// Appends an expression.
fn push_expr(text: &mut String, registry: &Registry, e: &Expr) -> Result<(), AllocError>
    requires { is_printable registry.now e.now ≡ true }
    ensures text { OnOk result (string_bytes text.new ≡ string_bytes text.old ++ expr_text registry.now e.now) }
    ensures spelled { OnOk result (is_spelled registry.now e.now ≡ true) }
{
    match e {
        Expr::Number(number) => push_number(text, *number),
        Expr::Variable(variable) => text.push_str(variable_word(*variable)),
        Expr::Own { ty, field } => push_field(text, registry, *ty, *field),
        Expr::Unary(op, a) => {
            text.push_str(sign_opening(*op))?;
            push_expr(text, registry, a.get())?;
            text.push_str(")")
        }
        Expr::Binary(op, a, b) => {
            text.push_str(opening(*op))?;
            push_expr(text, registry, a.get())?;
            text.push_str(between(*op))?;
            push_expr(text, registry, b.get())?;
            text.push_str(")")
        }
        Expr::Pick(c, a, b) => {
            text.push_str("pick(")?;
            push_expr(text, registry, c.get())?;
            text.push_str(", ")?;
            push_expr(text, registry, a.get())?;
            text.push_str(", ")?;
            push_expr(text, registry, b.get())?;
            text.push_str(")")
        }
        Expr::Get { from, ty, field } => push_get(text, registry, from, *ty, *field),
        Expr::Alive(r) => push_alive(text, registry, r),
        Expr::Has(r, ty) => push_has(text, registry, r, *ty),
        Expr::Same(r, q) => push_same(text, registry, r, q),
        Expr::On(ty) => push_on(text, registry, *ty),
    }
}
