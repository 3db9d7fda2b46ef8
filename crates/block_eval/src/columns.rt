//! Loops that fill a column of numbers or of references.
ghost use Rattle.std.specs.Prelude.{◌≡◌, ◌≤◌, ◌<◌, ◌+◌, ℕ, pos, length, false};
ghost use Rattle.ent_types.specs.declared.limits.TheConstants.{MOST_BLOCK_ROWS};
ghost use Rattle.ent_types.specs.declared.value.Value.TheVariants.{Int, Ref};
ghost use Rattle.expr_eval.specs.Values.{number, entity, truth, is_true};
ghost use Rattle.enable_bits.specs.Masks.{has};
ghost use Rattle.block_columns.specs.Columns.{number_at, reference_at, value_at, HoldsNumbers, HoldsReferences};
ghost use Rattle.block_columns.specs.Slices.{slice_values};

use block_columns::ColumnSlice;
use enable_bits::Mask;
use ent_types::Entity;
use expr_eval::is_true;

/// Fills a column with a number.
pub(crate) fn fill(number: i64, out: &mut [i64])
    ensures { HoldsNumbers out.new (length out.old) (λ k. number) }
{
    for i in 0..out.len() {
        out[i] = number;
    }
}

/// Fills a column with a reference.
pub(crate) fn fill_references(reference: Entity, out: &mut [Entity])
    ensures { HoldsReferences out.new (length out.old) (λ k. reference) }
{
    for i in 0..out.len() {
        out[i] = reference;
    }
}

/// Fills a column with the numbers from `first` on.
pub(crate) fn count_from(first: u32, out: &mut [i64])
    requires { first + length out.old ≤ MOST_BLOCK_ROWS }
    ensures { HoldsNumbers out.new (length out.old) (λ k. pos (first + k)) }
{
    for i in 0..out.len() {
        out[i] = i64::from(first + i as u32);
    }
}

/// Fills a column with the entities' indexes.
pub(crate) fn indexes(entities: &[Entity], out: &mut [i64])
    requires { length out.old ≡ length entities.now }
    ensures { HoldsNumbers out.new (length out.old) (λ k. pos (reference_at k entities.now).index) }
{
    for i in 0..out.len() {
        out[i] = i64::from(entities[i].index);
    }
}

/// Fills a column with the entities' versions.
pub(crate) fn versions(entities: &[Entity], out: &mut [i64])
    requires { length out.old ≡ length entities.now }
    ensures { HoldsNumbers out.new (length out.old) (λ k. pos (reference_at k entities.now).version) }
{
    for i in 0..out.len() {
        out[i] = i64::from(entities[i].version);
    }
}

/// Returns 1 for true and 0 for false.
pub(crate) fn truth(b: bool) -> i64
    ensures { result ≡ truth b }
{
    if b { 1 } else { 0 }
}

/// Fills a column with 1 for each row of a mask, and 0 for each other row.
pub(crate) fn truths(mask: &Mask, out: &mut [i64])
    requires { length out.old ≤ MOST_BLOCK_ROWS }
    ensures { HoldsNumbers out.new (length out.old) (λ k. truth (has mask.now k)) }
{
    for i in 0..out.len() {
        out[i] = truth(mask.get(i as u32));
    }
}

/// Returns the rows whose number isn't 0.
pub(crate) fn true_rows(numbers: &[i64]) -> Mask
    requires { length numbers.now ≤ MOST_BLOCK_ROWS }
    ensures rows { (k : ℕ) → k < length numbers.now → has result k ≡ is_true (number_at k numbers.now) }
    ensures past { (k : ℕ) → length numbers.now ≤ k → has result k ≡ false }
{
    let mut rows = Mask::empty();
    for i in 0..numbers.len() {
        rows.set(i as u32, is_true(numbers[i]));
    }
    rows
}

/// Copies numbers of 32 bits.
pub(crate) fn widen(numbers: &[i32], out: &mut [i64])
    requires { length out.old ≡ length numbers.now }
    ensures { out.new ≡ numbers.now }
{
    for i in 0..out.len() {
        out[i] = i64::from(numbers[i]);
    }
}

/// Copies numbers.
pub(crate) fn copy(numbers: &[i64], out: &mut [i64])
    requires { length out.old ≡ length numbers.now }
    ensures { out.new ≡ numbers.now }
{
    for i in 0..out.len() {
        out[i] = numbers[i];
    }
}

/// Copies references.
pub(crate) fn copy_references(references: &[Entity], out: &mut [Entity])
    requires { length out.old ≡ length references.now }
    ensures { out.new ≡ references.now }
{
    for i in 0..out.len() {
        out[i] = references[i];
    }
}

/// Fills a column with the numbers of a field. A reference counts as 0.
#[tactic(auto, using(crate::proofs::Slices::slices))]
pub(crate) fn numbers_of(column: ColumnSlice<'_>, out: &mut [i64])
    requires { length out.old ≡ length (slice_values column) }
    ensures { HoldsNumbers out.new (length out.old) (λ k. number (value_at k (slice_values column.entry))) }
{
    match column {
        ColumnSlice::I32(numbers) => widen(numbers, out),
        ColumnSlice::I64(numbers) => copy(numbers, out),
        ColumnSlice::Refs(_) => fill(0, out),
    }
}

/// Fills a column with the references of a field. A number counts as null.
#[tactic(auto, using(crate::proofs::Slices::slices))]
pub(crate) fn references_of(column: ColumnSlice<'_>, out: &mut [Entity])
    requires { length out.old ≡ length (slice_values column) }
    ensures { HoldsReferences out.new (length out.old) (λ k. entity (value_at k (slice_values column.entry))) }
{
    match column {
        ColumnSlice::I32(_) => fill_references(Entity::NULL, out),
        ColumnSlice::I64(_) => fill_references(Entity::NULL, out),
        ColumnSlice::Refs(references) => copy_references(references, out),
    }
}
