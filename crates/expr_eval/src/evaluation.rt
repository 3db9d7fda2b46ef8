//! The value of an expression and of a reference.
ghost use Rattle.std.specs.Prelude.{◌≡◌, true};
ghost use Rattle.expr_eval.specs.Values.{value, value_ref, value_variable, number, number_or_zero, entity};
ghost use Rattle.expr_eval.specs.Conditions.{reads, ref_reads};
ghost use Rattle.expr_eval.specs.Rows.{others_of};

use crate::operators::{binary, is_true, truth, unary};
use crate::{Lookup, RowReader};
use ent_types::{Entity, Value};
use expr_trees::{Expr, RefExpr, Variable};

/// The number of a value; a reference counts as 0. This project's own.
pub fn number(value: Value) -> i64
    ensures { result ≡ number value }
{
    match value {
        Value::Int(z) => z,
        Value::Ref(_) => 0,
    }
}

/// The reference of a value; a number counts as null.
fn entity(value: Value) -> Entity
    ensures { result ≡ entity value }
{
    match value {
        Value::Int(_) => Entity::NULL,
        Value::Ref(e) => e,
    }
}

/// The number of a value that may not be there, which counts as 0.
fn number_or_zero(value: Option<Value>) -> i64
    ensures { result ≡ number_or_zero value }
{
    match value {
        Some(v) => number(v),
        None => 0,
    }
}

/// The number that a variable stands for on a row.
fn variable<R: RowReader>(v: Variable, reader: &R) -> i64
    ensures { result ≡ value_variable (R.own_row reader.now) v }
{
    let number = match v {
        Variable::Frame => reader.frame(),
        Variable::Chunk => reader.item(),
        Variable::Row => reader.row(),
        Variable::Index => reader.me().index,
        Variable::Version => reader.me().version,
        Variable::N => reader.n(),
    };
    i64::from(number)
}

/// The entity that a reference names on a row; a made name, which only command texts hold, counts as null (this
/// project's own). An own field that it names must be there.
pub fn eval_ref<R: RowReader>(e: &RefExpr, reader: &R) -> Entity
    requires { ref_reads (R.has_field reader.now) e.now ≡ true }
    ensures { result ≡ value_ref (R.own_row reader.now) e.now }
{
    match *e {
        RefExpr::Null => Entity::NULL,
        RefExpr::Me => reader.me(),
        RefExpr::Made(_) => Entity::NULL,
        RefExpr::Own { ty, field } => entity(reader.field(ty, field)),
        RefExpr::Entity(e) => e,
    }
}

/// Returns the value of an expression on a row among other rows (entsim's own). Arithmetic wraps to 64 bits; `/` and
/// `%` go toward zero, and are 0 where the divisor is 0; a question gives 1 or 0, and anything but 0 is true.
///
/// The own fields that it names must be there, and the types of its `get`s must be among those that can be read. It
/// takes no memory and doesn't fail.
#[tactic(auto, using(std::proofs::lemmas::Bool::and_parts))]
pub fn eval<R: RowReader, L: Lookup>(e: &Expr, reader: &R, lookup: &L) -> i64
    requires { reads (R.has_field reader.now) (L.can_read lookup.now) e.now ≡ true }
    ensures { result ≡ value (R.own_row reader.now) (others_of (L.found lookup.now)) e.now }
{
    match e {
        Expr::Number(z) => *z,
        Expr::Variable(v) => variable(*v, reader),
        Expr::Own { ty, field } => number(reader.field(*ty, *field)),
        Expr::Unary(op, a) => unary(*op, eval(a.get(), reader, lookup)),
        Expr::Binary(op, a, b) => {
            let left = eval(a.get(), reader, lookup);
            let right = eval(b.get(), reader, lookup);
            binary(*op, left, right)
        }
        Expr::Pick(c, a, b) => {
            if is_true(eval(c.get(), reader, lookup)) {
                eval(a.get(), reader, lookup)
            } else {
                eval(b.get(), reader, lookup)
            }
        }
        Expr::Get { from, ty, field } => {
            number_or_zero(lookup.value(eval_ref(from, reader), *ty, *field))
        }
        Expr::Alive(r) => truth(lookup.alive(eval_ref(r, reader))),
        Expr::Has(r, ty) => truth(lookup.has(eval_ref(r, reader), *ty)),
        Expr::Same(r, q) => truth(eval_ref(r, reader) == eval_ref(q, reader)),
        Expr::On(ty) => truth(reader.on(*ty)),
    }
}
