//! Operators over columns: each is chosen once for all rows.
ghost use Rattle.std.specs.Prelude.{◌≡◌, length, if◌then◌else◌};
ghost use Rattle.expr_eval.specs.Values.{is_true, number, value_unary};
ghost use Rattle.block_columns.specs.Columns.{number_at, value_at, HoldsNumbers};
ghost use Rattle.block_columns.specs.Slices.{slice_values};
ghost use Rattle.block_eval.specs.Columns.{combined};

use crate::columns::{copy, fill, widen};
use block_columns::ColumnSlice;
use expr_eval::{binary, is_true, unary};
use expr_trees::{BinaryOp, UnaryOp};

/// Calls a loop over the rows with the operator as a constant, so that the loop's body is that operator alone.
macro_rules! with_constant {
    ($op:expr, $rows:ident, $($given:expr),*) => {
        match $op {
            BinaryOp::Or => $rows(BinaryOp::Or, $($given),*),
            BinaryOp::And => $rows(BinaryOp::And, $($given),*),
            BinaryOp::Equal => $rows(BinaryOp::Equal, $($given),*),
            BinaryOp::NotEqual => $rows(BinaryOp::NotEqual, $($given),*),
            BinaryOp::Less => $rows(BinaryOp::Less, $($given),*),
            BinaryOp::LessEqual => $rows(BinaryOp::LessEqual, $($given),*),
            BinaryOp::Greater => $rows(BinaryOp::Greater, $($given),*),
            BinaryOp::GreaterEqual => $rows(BinaryOp::GreaterEqual, $($given),*),
            BinaryOp::Plus => $rows(BinaryOp::Plus, $($given),*),
            BinaryOp::Minus => $rows(BinaryOp::Minus, $($given),*),
            BinaryOp::Times => $rows(BinaryOp::Times, $($given),*),
            BinaryOp::Divide => $rows(BinaryOp::Divide, $($given),*),
            BinaryOp::Rest => $rows(BinaryOp::Rest, $($given),*),
            BinaryOp::Min => $rows(BinaryOp::Min, $($given),*),
            BinaryOp::Max => $rows(BinaryOp::Max, $($given),*),
        }
    };
}

/// Puts a column under a sign.
pub(crate) fn unary_all(op: UnaryOp, numbers: &mut [i64])
    ensures { HoldsNumbers numbers.new (length numbers.old) (λ k. value_unary op (number_at k numbers.old)) }
{
    for i in 0..numbers.len() {
        numbers[i] = unary(op, numbers[i]);
    }
}

/// Combines two numbers.
#[tactic(auto, unfolding(crate::specs::Columns::combined))]
fn combined(op: BinaryOp, left: i64, right: i64) -> i64
    ensures { result ≡ combined op left right }
{
    binary(op, left, right)
}

/// Combines each number with the one beside it.
#[inline(always)]
fn combine_rows(op: BinaryOp, left: &mut [i64], right: &[i64])
    requires { length left.old ≡ length right.now }
    ensures { HoldsNumbers left.new (length left.old) (λ k. combined op (number_at k left.old) (number_at k right.now)) }
{
    for i in 0..left.len() {
        left[i] = combined(op, left[i], right[i]);
    }
}

/// Combines each number with the one of 32 bits beside it.
#[inline(always)]
fn combine_narrow_rows(op: BinaryOp, left: &mut [i64], right: &[i32])
    requires { length left.old ≡ length right.now }
    ensures { HoldsNumbers left.new (length left.old) (λ k. combined op (number_at k left.old) (number_at k right.now)) }
{
    for i in 0..left.len() {
        left[i] = combined(op, left[i], i64::from(right[i]));
    }
}

/// Combines each number with one number.
#[inline(always)]
fn combine_number_rows(op: BinaryOp, left: &mut [i64], right: i64)
    ensures { HoldsNumbers left.new (length left.old) (λ k. combined op (number_at k left.old) right) }
{
    for i in 0..left.len() {
        left[i] = combined(op, left[i], right);
    }
}

/// Fills a column with the combinations of two columns of 32 bits.
#[inline(always)]
fn combine_two_rows(op: BinaryOp, left: &[i32], right: &[i32], out: &mut [i64])
    requires left { length out.old ≡ length left.now }
    requires right { length out.old ≡ length right.now }
    ensures { HoldsNumbers out.new (length out.old) (λ k. combined op (number_at k left.now) (number_at k right.now)) }
{
    for i in 0..out.len() {
        out[i] = combined(op, i64::from(left[i]), i64::from(right[i]));
    }
}

/// Combines a column with another one.
#[inline(never)]
pub(crate) fn combine(op: BinaryOp, left: &mut [i64], right: &[i64])
    requires { length left.old ≡ length right.now }
    ensures { HoldsNumbers left.new (length left.old) (λ k. combined op (number_at k left.old) (number_at k right.now)) }
{
    with_constant!(op, combine_rows, left, right)
}

/// Combines a column with one of 32 bits.
#[inline(never)]
fn combine_narrow(op: BinaryOp, left: &mut [i64], right: &[i32])
    requires { length left.old ≡ length right.now }
    ensures { HoldsNumbers left.new (length left.old) (λ k. combined op (number_at k left.old) (number_at k right.now)) }
{
    with_constant!(op, combine_narrow_rows, left, right)
}

/// Fills a column with the combinations of two columns of 32 bits.
#[inline(never)]
fn combine_two(op: BinaryOp, left: &[i32], right: &[i32], out: &mut [i64])
    requires left { length out.old ≡ length left.now }
    requires right { length out.old ≡ length right.now }
    ensures { HoldsNumbers out.new (length out.old) (λ k. combined op (number_at k left.now) (number_at k right.now)) }
{
    with_constant!(op, combine_two_rows, left, right, out)
}

/// Combines a column with a number.
#[inline(never)]
pub(crate) fn combine_number(op: BinaryOp, left: &mut [i64], right: i64)
    ensures { HoldsNumbers left.new (length left.old) (λ k. combined op (number_at k left.old) right) }
{
    with_constant!(op, combine_number_rows, left, right)
}

/// Combines a column with a field, whose numbers are read straight from where the block keeps them. A reference counts
/// as 0.
#[tactic(auto, using(crate::proofs::Slices::slices))]
pub(crate) fn combine_field(op: BinaryOp, left: &mut [i64], right: ColumnSlice<'_>)
    requires { length left.old ≡ length (slice_values right) }
    ensures { HoldsNumbers left.new (length left.old) (λ k. combined op (number_at k left.old) (number (value_at k (slice_values right.entry)))) }
{
    match right {
        ColumnSlice::I32(numbers) => combine_narrow(op, left, numbers),
        ColumnSlice::I64(numbers) => combine(op, left, numbers),
        ColumnSlice::Refs(_) => combine_number(op, left, 0),
    }
}

/// Fills a column with the combinations of a column of 32 bits and a field.
#[tactic(auto, using(crate::proofs::Slices::slices))]
fn combine_narrow_field(op: BinaryOp, left: &[i32], right: ColumnSlice<'_>, out: &mut [i64])
    requires left { length out.old ≡ length left.now }
    requires right { length out.old ≡ length (slice_values right) }
    ensures { HoldsNumbers out.new (length out.old) (λ k. combined op (number_at k left.now) (number (value_at k (slice_values right.entry)))) }
{
    match right {
        ColumnSlice::I32(numbers) => combine_two(op, left, numbers, out),
        ColumnSlice::I64(numbers) => {
            widen(left, out);
            combine(op, out, numbers);
        }
        ColumnSlice::Refs(_) => {
            widen(left, out);
            combine_number(op, out, 0);
        }
    }
}

/// Fills a column with the combinations of two fields. Fields of 32 bits, which are the most, are read once.
#[tactic(auto, using(crate::proofs::Slices::slices))]
pub(crate) fn combine_fields(
    op: BinaryOp,
    left: ColumnSlice<'_>,
    right: ColumnSlice<'_>,
    out: &mut [i64],
)
    requires left { length out.old ≡ length (slice_values left) }
    requires right { length out.old ≡ length (slice_values right) }
    ensures { HoldsNumbers out.new (length out.old) (λ k. combined op (number (value_at k (slice_values left.entry))) (number (value_at k (slice_values right.entry)))) }
{
    match left {
        ColumnSlice::I32(numbers) => combine_narrow_field(op, numbers, right, out),
        ColumnSlice::I64(numbers) => {
            copy(numbers, out);
            combine_field(op, out, right);
        }
        ColumnSlice::Refs(_) => {
            fill(0, out);
            combine_field(op, out, right);
        }
    }
}

/// Returns `yes` if the test isn't 0, else `no`.
fn picked(test: i64, yes: i64, no: i64) -> i64
    ensures { result ≡ (if is_true test then yes else no) }
{
    if is_true(test) { yes } else { no }
}

/// Replaces the numbers of the rows whose test isn't 0.
pub(crate) fn pick_all(test: &[i64], yes: &[i64], no: &mut [i64])
    requires test { length test.now ≡ length no.old }
    requires yes { length yes.now ≡ length no.old }
    ensures { HoldsNumbers no.new (length no.old) (λ k. if is_true (number_at k test.now) then number_at k yes.now else number_at k no.old) }
{
    for i in 0..no.len() {
        no[i] = picked(test[i], yes[i], no[i]);
    }
}
