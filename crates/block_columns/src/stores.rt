//! Loops that write one number or reference for each row.
ghost use Rattle.std.specs.Prelude.{◌≡◌, ◌≤◌, ◌<◌, ℕ, true, length, if◌then◌else◌, IsTrue};
ghost use Rattle.std.specs.Int.{int_wrap, w32};
ghost use Rattle.ent_types.specs.declared.limits.TheConstants.{MOST_BLOCK_ROWS};
ghost use Rattle.ent_types.specs.Fitting.{fit_number};
ghost use Rattle.ent_types.specs.declared.kinds.FieldKind.TheVariants.{I32, I64};
ghost use Rattle.enable_bits.specs.Masks.{has};
ghost use Rattle.block_columns.specs.Columns.{number_at, reference_at, HoldsNumbers, HoldsReferences};

use enable_bits::Mask;
use ent_types::{Entity, FieldKind, fit};

/// Returns the low 32 bits as a signed number.
pub(crate) fn low_half(value: i64) -> i32
    ensures { result ≡ int_wrap w32 value }
{
    (value.rem_euclid(1 << 32) as u32).cast_signed()
}

/// `true` if the mask has each of the first `n` rows.
fn has_all(rows: &Mask, n: u32) -> bool
    requires { n ≤ MOST_BLOCK_ROWS }
    ensures { IsTrue result → (k : ℕ) → k < n → has rows.now k ≡ true }
{
    Mask::first(n).and_not(rows).next_from(0).is_none()
}

/// Returns the first of two, or the second.
fn pick<T: Copy + Drop>(is_first: bool, first: T, second: T) -> T
    ensures { result ≡ (if is_first then first else second) }
{
    if is_first { first } else { second }
}

/// Writes the low halves of the numbers.
fn narrow(column: &mut [i32], numbers: &[i64])
    requires { length numbers.now ≡ length column.old }
    ensures { HoldsNumbers column.new (length column.old) (λ k. int_wrap w32 (number_at k numbers.now)) }
{
    for i in 0..column.len() {
        column[i] = low_half(numbers[i]);
    }
}

/// Writes the low halves of the numbers of some rows.
fn narrow_some(column: &mut [i32], numbers: &[i64], rows: &Mask)
    requires size { length numbers.now ≡ length column.old }
    requires few { length column.old ≤ MOST_BLOCK_ROWS }
    ensures { HoldsNumbers column.new (length column.old) (λ k. if has rows.now k then int_wrap w32 (number_at k numbers.now) else number_at k column.old) }
{
    for i in 0..column.len() {
        column[i] = pick(rows.get(i as u32), low_half(numbers[i]), column[i]);
    }
}

/// Writes the low halves of the numbers of some rows. It is a loop without a test where these are all rows.
pub(crate) fn store_i32(column: &mut [i32], numbers: &[i64], rows: &Mask)
    requires size { length numbers.now ≡ length column.old }
    requires few { length column.old ≤ MOST_BLOCK_ROWS }
    ensures { HoldsNumbers column.new (length column.old) (λ k. if has rows.now k then fit_number I32 (number_at k numbers.now) else number_at k column.old) }
{
    if has_all(rows, column.len() as u32) {
        narrow(column, numbers);
    } else {
        narrow_some(column, numbers, rows);
    }
}

/// Writes the numbers.
fn copy(column: &mut [i64], numbers: &[i64])
    requires { length numbers.now ≡ length column.old }
    ensures { HoldsNumbers column.new (length column.old) (λ k. fit_number I64 (number_at k numbers.now)) }
{
    for i in 0..column.len() {
        column[i] = fit(FieldKind::I64, numbers[i]);
    }
}

/// Writes the numbers of some rows.
fn copy_some(column: &mut [i64], numbers: &[i64], rows: &Mask)
    requires size { length numbers.now ≡ length column.old }
    requires few { length column.old ≤ MOST_BLOCK_ROWS }
    ensures { HoldsNumbers column.new (length column.old) (λ k. if has rows.now k then fit_number I64 (number_at k numbers.now) else number_at k column.old) }
{
    for i in 0..column.len() {
        column[i] = pick(
            rows.get(i as u32),
            fit(FieldKind::I64, numbers[i]),
            column[i],
        );
    }
}

/// Writes the numbers of some rows. It is a loop without a test where these are all rows.
pub(crate) fn store_i64(column: &mut [i64], numbers: &[i64], rows: &Mask)
    requires size { length numbers.now ≡ length column.old }
    requires few { length column.old ≤ MOST_BLOCK_ROWS }
    ensures { HoldsNumbers column.new (length column.old) (λ k. if has rows.now k then fit_number I64 (number_at k numbers.now) else number_at k column.old) }
{
    if has_all(rows, column.len() as u32) {
        copy(column, numbers);
    } else {
        copy_some(column, numbers, rows);
    }
}

/// Writes the references of some rows.
pub(crate) fn store_references(column: &mut [Entity], references: &[Entity], rows: &Mask)
    requires size { length references.now ≡ length column.old }
    requires few { length column.old ≤ MOST_BLOCK_ROWS }
    ensures { HoldsReferences column.new (length column.old) (λ k. if has rows.now k then reference_at k references.now else reference_at k column.old) }
{
    for i in 0..column.len() {
        column[i] = pick(rows.get(i as u32), references[i], column[i]);
    }
}
