//! The values of an expression for all rows.
ghost use Rattle.std.specs.Prelude.{◌≡◌, ℕ, true, false, ◌≤◌, ◌<◌, length, if◌then◌else◌};
ghost use Rattle.ent_types.specs.declared.limits.TheConstants.{MOST_BLOCK_ROWS};
ghost use Rattle.expr_eval.specs.Values.{value, value_ref, value_variable, number, entity, number_or_zero, truth, is_true};
ghost use Rattle.expr_eval.specs.Conditions.{reads, ref_reads};
ghost use Rattle.expr_eval.specs.Rows.{others_of};
ghost use Rattle.world_model.specs.Part.{same_entity};
ghost use Rattle.enable_bits.specs.Masks.{has};
ghost use Rattle.block_columns.specs.Columns.{HoldsNumbers, HoldsReferences, reference_at, number_at, value_at};
ghost use Rattle.block_columns.specs.Slices.{slice_values};
ghost use Rattle.block_eval.specs.Columns.{combined};

use crate::columns::{
    copy_references, count_from, fill, fill_references, indexes, numbers_of, references_of,
    true_rows, truth, truths, versions,
};
use crate::operators::{
    combine, combine_field, combine_fields, combine_number, pick_all, unary_all,
};
use crate::reader::{BlockRows, MOST_ROWS};
use block_columns::ColumnSlice;
use enable_bits::Mask;
use ent_types::{Entity, TypeId, Value};
use expr_eval::{Lookup, number};
use expr_trees::{BinaryOp, Expr, RefExpr, Variable};

/// Fills a column with the numbers of a field.
fn numbers<B: BlockRows>(block: &B, ty: TypeId, field: u8, out: &mut [i64])
    requires rows { length out.old ≡ B.rows block.now }
    requires has { B.has_field block.now ty field ≡ true }
    ensures { HoldsNumbers out.new (B.rows block.now) (λ k. number ((B.own_row block.now k).field ty field)) }
{
    match block.constant(ty, field) {
        Some(value) => fill(number(value), out),
        None => numbers_of(block.column(ty, field), out),
    }
}

/// Fills a column with the references of a field.
fn references<B: BlockRows>(block: &B, ty: TypeId, field: u8, out: &mut [Entity])
    requires rows { length out.old ≡ B.rows block.now }
    requires has { B.has_field block.now ty field ≡ true }
    ensures { HoldsReferences out.new (B.rows block.now) (λ k. entity ((B.own_row block.now k).field ty field)) }
{
    match block.constant(ty, field) {
        Some(Value::Ref(e)) => fill_references(e, out),
        Some(Value::Int(_)) => fill_references(Entity::NULL, out),
        None => references_of(block.column(ty, field), out),
    }
}

/// Combines a column with a field.
fn with_field<B: BlockRows>(block: &B, op: BinaryOp, ty: TypeId, field: u8, left: &mut [i64])
    requires rows { length left.old ≡ B.rows block.now }
    requires has { B.has_field block.now ty field ≡ true }
    ensures { HoldsNumbers left.new (B.rows block.now) (λ k. combined op (number_at k left.old) (number ((B.own_row block.now k).field ty field))) }
{
    match block.constant(ty, field) {
        Some(value) => combine_number(op, left, number(value)),
        None => combine_field(op, left, block.column(ty, field)),
    }
}

/// Fills a column with the combinations of a field and a column.
fn with_column<B: BlockRows>(
    block: &B,
    op: BinaryOp,
    ty: TypeId,
    field: u8,
    right: ColumnSlice<'_>,
    out: &mut [i64],
)
    requires rows { length out.old ≡ B.rows block.now }
    requires left { B.has_field block.now ty field ≡ true }
    requires right { length (slice_values right) ≡ B.rows block.now }
    ensures { HoldsNumbers out.new (B.rows block.now) (λ k. combined op (number ((B.own_row block.now k).field ty field)) (number (value_at k (slice_values right.entry)))) }
{
    match block.constant(ty, field) {
        Some(value) => {
            fill(number(value), out);
            combine_field(op, out, right);
        }
        None => combine_fields(op, block.column(ty, field), right, out),
    }
}

/// Fills a column with the combinations of two fields.
fn with_fields<B: BlockRows>(
    block: &B,
    op: BinaryOp,
    ty: TypeId,
    field: u8,
    right_ty: TypeId,
    right_field: u8,
    out: &mut [i64],
)
    requires rows { length out.old ≡ B.rows block.now }
    requires left { B.has_field block.now ty field ≡ true }
    requires right { B.has_field block.now right_ty right_field ≡ true }
    ensures { HoldsNumbers out.new (B.rows block.now) (λ k. combined op (number ((B.own_row block.now k).field ty field)) (number ((B.own_row block.now k).field right_ty right_field))) }
{
    match block.constant(right_ty, right_field) {
        Some(value) => {
            numbers(block, ty, field, out);
            combine_number(op, out, number(value));
        }
        None => {
            let right = block.column(right_ty, right_field);
            with_column(block, op, ty, field, right, out);
        }
    }
}

/// Fills a column with 1 for each row that has the type enabled, and 0 for each other row.
fn enabled<B: BlockRows>(block: &B, ty: TypeId, out: &mut [i64])
    requires rows { length out.old ≡ B.rows block.now }
    requires few { B.rows block.now ≤ MOST_BLOCK_ROWS }
    ensures { HoldsNumbers out.new (B.rows block.now) (λ k. truth ((B.own_row block.now k).on ty)) }
{
    truths(&block.enabled(ty), out);
}

/// Fills a column with the numbers that a variable has on the rows.
fn variable<B: BlockRows>(v: Variable, block: &B, out: &mut [i64])
    requires rows { length out.old ≡ B.rows block.now }
    requires few { B.rows block.now ≤ MOST_BLOCK_ROWS }
    ensures { HoldsNumbers out.new (B.rows block.now) (λ k. value_variable (B.own_row block.now k) v) }
{
    match v {
        Variable::Frame => fill(i64::from(block.frame()), out),
        Variable::Chunk => fill(i64::from(block.item()), out),
        Variable::Row => count_from(block.first_row(), out),
        Variable::Index => indexes(block.entities(), out),
        Variable::Version => versions(block.entities(), out),
        Variable::N => fill(i64::from(block.n()), out),
    }
}

/// Fills a column with the entities that a reference names on the rows. A made name counts as null.
pub fn evaluate_refs<B: BlockRows>(e: &RefExpr, block: &B, out: &mut [Entity])
    requires rows { length out.old ≡ B.rows block.now }
    requires reads { ref_reads (B.has_field block.now) e.now ≡ true }
    ensures { HoldsReferences out.new (B.rows block.now) (λ k. value_ref (B.own_row block.now k) e.now) }
{
    match *e {
        RefExpr::Null => fill_references(Entity::NULL, out),
        RefExpr::Me => copy_references(block.entities(), out),
        RefExpr::Made(_) => fill_references(Entity::NULL, out),
        RefExpr::Own { ty, field } => references(block, ty, field, out),
        RefExpr::Entity(e) => fill_references(e, out),
    }
}

/// Returns the number of a field of another row, or 0 if that row lacks it.
fn value_of<L: Lookup>(lookup: &L, e: Entity, ty: TypeId, field: u8) -> i64
    requires { L.can_read lookup.now ty ≡ true }
    ensures { result ≡ number_or_zero ((others_of (L.found lookup.now)).value e ty field) }
{
    match lookup.value(e, ty, field) {
        Some(v) => number(v),
        None => 0,
    }
}

/// Fills a column with the numbers of a field of the rows that the references name.
fn values_of<L: Lookup>(lookup: &L, refs: &[Entity], ty: TypeId, field: u8, out: &mut [i64])
    requires rows { length out.old ≡ length refs.now }
    requires reads { L.can_read lookup.now ty ≡ true }
    ensures { HoldsNumbers out.new (length out.old) (λ k. number_or_zero ((others_of (L.found lookup.now)).value (reference_at k refs.now) ty field)) }
{
    for i in 0..out.len() {
        out[i] = value_of(lookup, refs[i], ty, field);
    }
}

/// Fills a column with 1 for each reference whose entity is alive, and 0 for each other one.
fn alive_of<L: Lookup>(lookup: &L, refs: &[Entity], out: &mut [i64])
    requires rows { length out.old ≡ length refs.now }
    ensures { HoldsNumbers out.new (length out.old) (λ k. truth ((others_of (L.found lookup.now)).alive (reference_at k refs.now))) }
{
    for i in 0..out.len() {
        out[i] = truth(lookup.alive(refs[i]));
    }
}

/// Fills a column with 1 for each reference whose entity has the type, and 0 for each other one.
fn has_of<L: Lookup>(lookup: &L, refs: &[Entity], ty: TypeId, out: &mut [i64])
    requires rows { length out.old ≡ length refs.now }
    ensures { HoldsNumbers out.new (length out.old) (λ k. truth ((others_of (L.found lookup.now)).has (reference_at k refs.now) ty)) }
{
    for i in 0..out.len() {
        out[i] = truth(lookup.has(refs[i], ty));
    }
}

/// Fills a column with 1 for each two equal references, and 0 for each others.
fn same_of(left: &[Entity], right: &[Entity], out: &mut [i64])
    requires left { length out.old ≡ length left.now }
    requires right { length out.old ≡ length right.now }
    ensures { HoldsNumbers out.new (length out.old) (λ k. truth (same_entity (reference_at k left.now) (reference_at k right.now))) }
{
    for i in 0..out.len() {
        out[i] = truth(left[i] == right[i]);
    }
}

/// Fills a column with the numbers of a field of other rows. The references lie on this call's stack.
#[inline(never)]
fn evaluate_get<B: BlockRows, L: Lookup>(
    from: &RefExpr,
    ty: TypeId,
    field: u8,
    block: &B,
    lookup: &L,
    out: &mut [i64],
)
    requires rows { length out.old ≡ B.rows block.now }
    requires few { B.rows block.now ≤ MOST_BLOCK_ROWS }
    requires from { ref_reads (B.has_field block.now) from.now ≡ true }
    requires read { L.can_read lookup.now ty ≡ true }
    ensures { HoldsNumbers out.new (B.rows block.now) (λ k. number_or_zero ((others_of (L.found lookup.now)).value (value_ref (B.own_row block.now k) from.now) ty field)) }
{
    let mut scratch = [Entity::NULL; MOST_ROWS];
    let refs = &mut scratch[..out.len()];
    evaluate_refs(from, block, refs);
    values_of(lookup, refs, ty, field, out);
}

/// Fills a column with 1 for each row on which the reference names an entity that is alive, else 0.
#[inline(never)]
fn evaluate_alive<B: BlockRows, L: Lookup>(e: &RefExpr, block: &B, lookup: &L, out: &mut [i64])
    requires rows { length out.old ≡ B.rows block.now }
    requires few { B.rows block.now ≤ MOST_BLOCK_ROWS }
    requires reads { ref_reads (B.has_field block.now) e.now ≡ true }
    ensures { HoldsNumbers out.new (B.rows block.now) (λ k. truth ((others_of (L.found lookup.now)).alive (value_ref (B.own_row block.now k) e.now))) }
{
    let mut scratch = [Entity::NULL; MOST_ROWS];
    let refs = &mut scratch[..out.len()];
    evaluate_refs(e, block, refs);
    alive_of(lookup, refs, out);
}

/// Fills a column with 1 for each row on which the reference names an entity with the type, else 0.
#[inline(never)]
fn evaluate_has<B: BlockRows, L: Lookup>(
    e: &RefExpr,
    ty: TypeId,
    block: &B,
    lookup: &L,
    out: &mut [i64],
)
    requires rows { length out.old ≡ B.rows block.now }
    requires few { B.rows block.now ≤ MOST_BLOCK_ROWS }
    requires reads { ref_reads (B.has_field block.now) e.now ≡ true }
    ensures { HoldsNumbers out.new (B.rows block.now) (λ k. truth ((others_of (L.found lookup.now)).has (value_ref (B.own_row block.now k) e.now) ty)) }
{
    let mut scratch = [Entity::NULL; MOST_ROWS];
    let refs = &mut scratch[..out.len()];
    evaluate_refs(e, block, refs);
    has_of(lookup, refs, ty, out);
}

/// Fills a column with 1 for each row on which the references are equal, else 0.
#[inline(never)]
fn evaluate_same<B: BlockRows>(left: &RefExpr, right: &RefExpr, block: &B, out: &mut [i64])
    requires rows { length out.old ≡ B.rows block.now }
    requires few { B.rows block.now ≤ MOST_BLOCK_ROWS }
    requires left { ref_reads (B.has_field block.now) left.now ≡ true }
    requires right { ref_reads (B.has_field block.now) right.now ≡ true }
    ensures { HoldsNumbers out.new (B.rows block.now) (λ k. truth (same_entity (value_ref (B.own_row block.now k) left.now) (value_ref (B.own_row block.now k) right.now))) }
{
    let mut scratch = [Entity::NULL; MOST_ROWS];
    let refs = &mut scratch[..out.len()];
    evaluate_refs(left, block, refs);
    let mut others = [Entity::NULL; MOST_ROWS];
    let named = &mut others[..out.len()];
    evaluate_refs(right, block, named);
    same_of(refs, named, out);
}

/// Fills a column with the values of an expression, as `eval` gives them row by row. It takes no memory and doesn't
/// fail; its arrays lie on the stack, 1 KiB for each level of nesting to the right and 2 KiB for each `pick`.
#[tactic(auto, using(std::proofs::lemmas::Bool::and_parts), unfolding(crate::specs::Columns::combined))]
#[cycle(evaluate)]
pub fn evaluate<B: BlockRows, L: Lookup>(e: &Expr, block: &B, lookup: &L, out: &mut [i64])
    requires rows { length out.old ≡ B.rows block.now }
    requires few { B.rows block.now ≤ MOST_BLOCK_ROWS }
    requires reads { reads (B.has_field block.now) (L.can_read lookup.now) e.now ≡ true }
    ensures { HoldsNumbers out.new (B.rows block.now) (λ k. value (B.own_row block.now k) (others_of (L.found lookup.now)) e.now) }
{
    match e {
        Expr::Number(z) => fill(*z, out),
        Expr::Variable(v) => variable(*v, block, out),
        Expr::Own { ty, field } => numbers(block, *ty, *field, out),
        Expr::Unary(op, a) => {
            evaluate(a.get(), block, lookup, out);
            unary_all(*op, out);
        }
        Expr::Binary(op, a, b) => match b.get() {
            Expr::Number(z) => {
                evaluate(a.get(), block, lookup, out);
                combine_number(*op, out, *z);
            }
            Expr::Own { ty, field } => match a.get() {
                Expr::Own {
                    ty: left_ty,
                    field: left_field,
                } => with_fields(block, *op, *left_ty, *left_field, *ty, *field, out),
                _ => {
                    evaluate(a.get(), block, lookup, out);
                    with_field(block, *op, *ty, *field, out);
                }
            },
            _ => {
                evaluate(a.get(), block, lookup, out);
                with_right(b.get(), *op, block, lookup, out);
            }
        },
        Expr::Pick(c, a, b) => {
            evaluate(b.get(), block, lookup, out);
            with_pick(c.get(), a.get(), block, lookup, out);
        }
        Expr::Get { from, ty, field } => evaluate_get(from, *ty, *field, block, lookup, out),
        Expr::Alive(r) => evaluate_alive(r, block, lookup, out),
        Expr::Has(r, ty) => evaluate_has(r, *ty, block, lookup, out),
        Expr::Same(r, q) => evaluate_same(r, q, block, out),
        Expr::On(ty) => enabled(block, *ty, out),
    }
}

/// Combines a column with the values of an expression. The values lie on this call's stack, not on that of `evaluate`.
#[inline(never)]
#[cycle(evaluate)]
fn with_right<B: BlockRows, L: Lookup>(
    e: &Expr,
    op: BinaryOp,
    block: &B,
    lookup: &L,
    left: &mut [i64],
)
    requires rows { length left.old ≡ B.rows block.now }
    requires few { B.rows block.now ≤ MOST_BLOCK_ROWS }
    requires reads { reads (B.has_field block.now) (L.can_read lookup.now) e.now ≡ true }
    ensures { HoldsNumbers left.new (B.rows block.now) (λ k. combined op (number_at k left.old) (value (B.own_row block.now k) (others_of (L.found lookup.now)) e.now)) }
{
    let mut scratch = [0; MOST_ROWS];
    let right = &mut scratch[..left.len()];
    evaluate(e, block, lookup, right);
    combine(op, left, right);
}

/// Replaces the numbers of the rows whose test isn't 0 by the values of an expression.
#[inline(never)]
#[cycle(evaluate)]
fn with_pick<B: BlockRows, L: Lookup>(
    test: &Expr,
    yes: &Expr,
    block: &B,
    lookup: &L,
    no: &mut [i64],
)
    requires rows { length no.old ≡ B.rows block.now }
    requires few { B.rows block.now ≤ MOST_BLOCK_ROWS }
    requires test { reads (B.has_field block.now) (L.can_read lookup.now) test.now ≡ true }
    requires yes { reads (B.has_field block.now) (L.can_read lookup.now) yes.now ≡ true }
    ensures { HoldsNumbers no.new (B.rows block.now) (λ k. if is_true (value (B.own_row block.now k) (others_of (L.found lookup.now)) test.now)
        then value (B.own_row block.now k) (others_of (L.found lookup.now)) yes.now else number_at k no.old) }
{
    let mut tests = [0; MOST_ROWS];
    let tested = &mut tests[..no.len()];
    evaluate(test, block, lookup, tested);
    let mut scratch = [0; MOST_ROWS];
    let given = &mut scratch[..no.len()];
    evaluate(yes, block, lookup, given);
    pick_all(tested, given, no);
}

/// Returns the rows on which an expression isn't 0.
#[inline(never)]
pub fn evaluate_mask<B: BlockRows, L: Lookup>(e: &Expr, block: &B, lookup: &L) -> Mask
    requires few { B.rows block.now ≤ MOST_BLOCK_ROWS }
    requires reads { reads (B.has_field block.now) (L.can_read lookup.now) e.now ≡ true }
    ensures rows { (k : ℕ) → k < B.rows block.now → has result k ≡ is_true (value (B.own_row block.now k) (others_of (L.found lookup.now)) e.now) }
    ensures past { (k : ℕ) → B.rows block.now ≤ k → has result k ≡ false }
{
    let mut scratch = [0; MOST_ROWS];
    let values = &mut scratch[..block.len() as usize];
    evaluate(e, block, lookup, values);
    true_rows(values)
}
