//! The operators, on numbers.
ghost use Rattle.std.specs.Prelude.{◌≡◌, pos, neg_ℤ, ◌+ℤ◌, ◌-ℤ◌, ◌*ℤ◌};
ghost use Rattle.expr_eval.specs.Values.{truth, is_true, quotient, rest, value_unary, value_binary};
ghost use Rattle.std.specs.Int.{int_wrap};
ghost use Rattle.std.proofs.Common.{w64};

use expr_trees::{BinaryOp, UnaryOp};

/// 1 for true, 0 for false.
pub(crate) fn truth(b: bool) -> i64
    ensures { result ≡ truth b }
{
    if b { 1 } else { 0 }
}

/// Whether a number counts as true: anything but 0 does. This project's own.
pub fn is_true(a: i64) -> bool
    ensures { result ≡ is_true a }
{
    a != 0
}

/// The sum, wrapped to 64 bits.
fn plus(a: i64, b: i64) -> i64
    ensures { result ≡ int_wrap w64 (a +ℤ b) }
{
    a.wrapping_add(b)
}

/// The difference, wrapped to 64 bits.
fn minus(a: i64, b: i64) -> i64
    ensures { result ≡ int_wrap w64 (a -ℤ b) }
{
    a.wrapping_sub(b)
}

/// The product, wrapped to 64 bits.
fn times(a: i64, b: i64) -> i64
    ensures { result ≡ int_wrap w64 (a *ℤ b) }
{
    a.wrapping_mul(b)
}

/// The number with its sign changed, wrapped to 64 bits.
fn negated(a: i64) -> i64
    ensures { result ≡ int_wrap w64 (neg_ℤ a) }
{
    a.wrapping_neg()
}

/// The quotient toward zero; 0 where the divisor is 0.
fn quotient(a: i64, b: i64) -> i64
    ensures { result ≡ quotient a b }
{
    if b == 0 { 0 } else { a.wrapping_div(b) }
}

/// The rest of `quotient`, with the sign of the dividend; 0 where the divisor is 0.
fn rest(a: i64, b: i64) -> i64
    ensures { result ≡ rest a b }
{
    if b == 0 { 0 } else { a.wrapping_rem(b) }
}

/// The value of a sign over a number, wrapped to 64 bits. This project's own.
pub fn unary(op: UnaryOp, a: i64) -> i64
    ensures { result ≡ value_unary op a }
{
    match op {
        UnaryOp::Minus => negated(a),
        UnaryOp::Not => truth(!is_true(a)),
    }
}

/// The value of an operator over two numbers, wrapped to 64 bits; a question gives 1 or 0, and a division by 0 gives 0.
/// This project's own.
pub fn binary(op: BinaryOp, a: i64, b: i64) -> i64
    ensures { result ≡ value_binary op a b }
{
    match op {
        BinaryOp::Or => truth(is_true(a) || is_true(b)),
        BinaryOp::And => truth(is_true(a) && is_true(b)),
        BinaryOp::Equal => truth(a == b),
        BinaryOp::NotEqual => truth(a != b),
        BinaryOp::Less => truth(a < b),
        BinaryOp::LessEqual => truth(a <= b),
        BinaryOp::Greater => truth(a > b),
        BinaryOp::GreaterEqual => truth(a >= b),
        BinaryOp::Plus => plus(a, b),
        BinaryOp::Minus => minus(a, b),
        BinaryOp::Times => times(a, b),
        BinaryOp::Divide => quotient(a, b),
        BinaryOp::Rest => rest(a, b),
        BinaryOp::Min => a.min(b),
        BinaryOp::Max => a.max(b),
    }
}
