//! The words and signs of a printed expression.
ghost use Rattle.std.specs.Prelude.{◌≡◌};
ghost use Rattle.expr_read.specs.PrintedTexts as printed;

use crate::{BinaryOp, UnaryOp, Variable};

/// The word of a variable.
pub(crate) fn variable_word(variable: Variable) -> &'static str
    ensures { result.now ≡ printed.variable_word variable }
{
    match variable {
        Variable::Frame => "frame",
        Variable::Chunk => "chunk",
        Variable::Row => "row",
        Variable::Index => "index",
        Variable::Version => "version",
        Variable::N => "n",
    }
}

/// Returns what precedes the operand of a sign.
pub(crate) fn sign_opening(op: UnaryOp) -> &'static str
    ensures { result.now ≡ printed.sign_opening op }
{
    match op {
        UnaryOp::Minus => "-(",
        UnaryOp::Not => "!(",
    }
}

/// Returns what precedes the first of two operands.
pub(crate) fn opening(op: BinaryOp) -> &'static str
    ensures { result.now ≡ printed.opening op }
{
    match op {
        BinaryOp::Min => "min(",
        BinaryOp::Max => "max(",
        _ => "(",
    }
}

/// Returns what separates two operands.
pub(crate) fn between(op: BinaryOp) -> &'static str
    ensures { result.now ≡ printed.between op }
{
    match op {
        BinaryOp::Or => ") || (",
        BinaryOp::And => ") && (",
        BinaryOp::Equal => ") == (",
        BinaryOp::NotEqual => ") != (",
        BinaryOp::Less => ") < (",
        BinaryOp::LessEqual => ") <= (",
        BinaryOp::Greater => ") > (",
        BinaryOp::GreaterEqual => ") >= (",
        BinaryOp::Plus => ") + (",
        BinaryOp::Minus => ") - (",
        BinaryOp::Times => ") * (",
        BinaryOp::Divide => ") / (",
        BinaryOp::Rest => ") % (",
        BinaryOp::Min | BinaryOp::Max => ", ",
    }
}
