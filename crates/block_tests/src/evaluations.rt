//! Expressions over all rows of a block: columns of each kind, and masks.
ghost use Rattle.std.specs.Prelude.{◌≡◌, ◌+◌, ◌==◌, not, true, None, if◌then◌else◌};
ghost use Rattle.ent_types.specs.declared.value.Value.TheVariants.{Int};
ghost use Rattle.enable_bits.specs.Masks.{has};
ghost use Rattle.expr_eval.specs.Conditions.{reads, ref_reads};
ghost use Rattle.block_columns.specs.Columns.{value_at, reference_at};
ghost use Rattle.block_tests.specs.Shown.{has_own, values_of};

use crate::fixtures::{PLACE, TARGET, TEAM, TOTAL, X, entity};
use block_columns::ColumnSlice;
use block_eval::{BlockRows, evaluate, evaluate_mask, evaluate_refs};
use enable_bits::Mask;
use ent_types::{Entity, Memory, TypeId, Value};
use expr_eval::Lookup;
use expr_trees::{BinaryOp, Expr, RefExpr, UnaryOp, Variable};
use sqlite_items::Boxed;
use std::alloc::Global;
use std::test::Fail;

/// Four rows with a field of each kind, and a shared type.
#[derive(Clone, Copy)]
struct Shown {
    team: i64,
    narrow: [i32; 4],
    wide: [i64; 4],
    refs: [Entity; 4],
    me: [Entity; 4],
    on: Mask,
}

/// `true` if the rows have this field.
fn has_own(ty: TypeId, field: u8) -> bool
    ensures { result ≡ has_own ty field }
{
    if ty.0 == 6 {
        return field == 0;
    }
    ty.0 == 3 && field < 3
}

impl BlockRows for Shown {
    ghost rows = { λ _. 4 };

    ghost own_row = { λ s k. record {
      field = λ ty i. if ty.0 == 6 then Int s.team else value_at k (values_of i s.narrow s.wide s.refs);
      on = λ ty. has s.on k;
      me = reference_at k s.me;
      item = 3;
      row = 7 + k;
      frame = 11;
      n = 13;
    } };

    ghost has_field = { λ _ ty i. has_own ty i };

    ghost has_column = { λ _ ty. not (ty.0 == 6) };

    fn len(&self) -> u32 {
        4
    }

    fn constant(&self, ty: TypeId, _field: u8) -> Option<Value> {
        if ty.0 == 6 {
            return Some(Value::Int(self.team));
        }
        None
    }

    fn column(&self, _ty: TypeId, field: u8) -> ColumnSlice<'_> {
        if field == 0 {
            return ColumnSlice::I32(&self.narrow);
        }
        if field == 1 {
            return ColumnSlice::I64(&self.wide);
        }
        ColumnSlice::Refs(&self.refs)
    }

    fn entities(&self) -> &[Entity] {
        &self.me
    }

    fn enabled(&self, _ty: TypeId) -> Mask {
        self.on
    }

    fn item(&self) -> u32 {
        3
    }

    fn first_row(&self) -> u32 {
        7
    }

    fn frame(&self) -> u32 {
        11
    }

    fn n(&self) -> u32 {
        13
    }
}

/// No other row.
#[derive(Clone, Copy)]
struct Nobody;

impl Lookup for Nobody {
    ghost found = { λ _ _. None };

    ghost can_read = { λ _ ty. true };

    fn value(&self, _e: Entity, _ty: TypeId, _field: u8) -> Option<Value> {
        None
    }

    fn has(&self, _e: Entity, _ty: TypeId) -> bool {
        false
    }

    fn alive(&self, _e: Entity) -> bool {
        false
    }
}

/// `true` if the rows have what a reference reads.
fn reads_ref(e: &RefExpr) -> bool
    ensures { result ≡ ref_reads has_own e.now }
{
    match *e {
        RefExpr::Null => true,
        RefExpr::Me => true,
        RefExpr::Made(_) => true,
        RefExpr::Own { ty, field } => has_own(ty, field),
        RefExpr::Entity(_) => true,
    }
}

/// `true` if the rows have what an expression reads.
fn reads(e: &Expr) -> bool
    ensures { result ≡ reads has_own (λ _. true) e.now }
{
    match e {
        Expr::Number(_) => true,
        Expr::Variable(_) => true,
        Expr::Own { ty, field } => has_own(*ty, *field),
        Expr::Unary(_, a) => reads(a.get()),
        Expr::Binary(_, a, b) => reads(a.get()) && reads(b.get()),
        Expr::Pick(c, a, b) => reads(c.get()) && (reads(a.get()) && reads(b.get())),
        Expr::Get { from, .. } => reads_ref(from),
        Expr::Alive(r) => reads_ref(r),
        Expr::Has(r, _) => reads_ref(r),
        Expr::Same(r, q) => reads_ref(r) && reads_ref(q),
        Expr::On(_) => true,
    }
}

/// Returns the rows to try.
fn sample() -> Shown {
    let mut on = Mask::first(4);
    on.set(1, false);
    Shown {
        team: -3,
        narrow: [-2147483648, 0, 5, 2147483647],
        wide: [1, -9223372036854775808, 0, -7],
        refs: [entity(1), entity(2), Entity::NULL, entity(4)],
        me: [entity(0), entity(1), entity(2), entity(3)],
        on,
    }
}

/// `true` if the expression has these values on the four rows, and the mask has the rows where it isn't 0.
fn has_values(e: &Expr, wanted: [i64; 4]) -> bool {
    if !reads(e) {
        return false;
    }
    let shown = sample();
    let mut out = [0; 4];
    evaluate(e, &shown, &Nobody, &mut out);
    let mask = evaluate_mask(e, &shown, &Nobody);
    let mut is_right = mask.next_from(4).is_none();
    for place in 0..out.len() {
        is_right = is_right & (out[place] == wanted[place]);
        is_right = is_right & (mask.get(place as u32) == (wanted[place] != 0));
    }
    is_right
}

/// `true` if the reference names these entities on the four rows.
fn has_entities(e: &RefExpr, wanted: [Entity; 4]) -> bool {
    if !reads_ref(e) {
        return false;
    }
    let mut out = [Entity::NULL; 4];
    evaluate_refs(e, &sample(), &mut out);
    out == wanted
}

fn own(field: u8) -> Expr {
    Expr::Own { ty: PLACE, field }
}

fn team() -> Expr {
    Expr::Own { ty: TEAM, field: 0 }
}

fn binary(alloc: Global, op: BinaryOp, left: Expr, right: Expr) -> Result<Expr, Memory> {
    let left = Boxed::new(alloc, left)?;
    let right = Boxed::new(alloc, right)?;
    Ok(Expr::Binary(op, left, right))
}

fn pick(alloc: Global, test: Expr, yes: Expr, no: Expr) -> Result<Expr, Memory> {
    let test = Boxed::new(alloc, test)?;
    let yes = Boxed::new(alloc, yes)?;
    let no = Boxed::new(alloc, no)?;
    Ok(Expr::Pick(test, yes, no))
}

fn unary(alloc: Global, op: UnaryOp, operand: Expr) -> Result<Expr, Memory> {
    Ok(Expr::Unary(op, Boxed::new(alloc, operand)?))
}

/// A field of 32 bits plus one of 64, and the other way round.
fn adds_columns(alloc: Global) -> Result<bool, Fail> {
    let sum = binary(alloc, BinaryOp::Plus, own(X), own(TOTAL))?;
    let turned = binary(alloc, BinaryOp::Minus, own(TOTAL), own(X))?;
    Ok(
        has_values(&sum, [-2147483647, -9223372036854775808, 5, 2147483640])
            & has_values(&turned, [2147483649, -9223372036854775808, -5, -2147483654]),
    )
}

/// A number and an expression on the right, a sign, and a choice.
fn nests(alloc: Global) -> Result<bool, Fail> {
    let triple = binary(alloc, BinaryOp::Times, own(X), Expr::Number(3))?;
    let minus = unary(alloc, UnaryOp::Minus, own(TOTAL))?;
    let sum = binary(alloc, BinaryOp::Plus, minus, triple)?;
    let less = binary(alloc, BinaryOp::Less, own(X), Expr::Variable(Variable::Row))?;
    let pick = pick(alloc, less, sum, Expr::Variable(Variable::Version))?;
    // On row 1 the sign of the least number wraps. On row 3 the field is above the row's place.
    Ok(has_values(&pick, [-6442450945, -9223372036854775808, 15, 1]))
}

/// A comparison with an equal number, and the rows' own entities.
fn compares_numbers(alloc: Global) -> Result<bool, Fail> {
    let less = binary(alloc, BinaryOp::Less, own(X), Expr::Number(5))?;
    let index = Expr::Variable(Variable::Index);
    Ok(has_values(&less, [1, 1, 0, 0]) & has_values(&index, [0, 1, 2, 3]))
}

/// References, and which of them are equal.
fn compares_references() -> bool {
    let target = RefExpr::Own {
        ty: PLACE,
        field: TARGET,
    };
    let named = [entity(1), entity(2), Entity::NULL, entity(4)];
    has_entities(&target, named)
        & has_values(&Expr::Same(target, RefExpr::Null), [0, 0, 1, 0])
        & has_values(&own(TARGET), [0, 0, 0, 0])
        & has_values(&Expr::On(PLACE), [1, 0, 1, 1])
}

/// A field of a shared type: alone, on each side of a column, on both sides, and as a reference.
fn reads_constants(alloc: Global) -> Result<bool, Fail> {
    let right = binary(alloc, BinaryOp::Plus, own(X), team())?;
    let left = binary(alloc, BinaryOp::Minus, team(), own(TOTAL))?;
    let both = binary(alloc, BinaryOp::Times, team(), team())?;
    let reference = RefExpr::Own { ty: TEAM, field: 0 };
    Ok(
        has_values(&team(), [-3, -3, -3, -3])
            & has_values(&right, [-2147483651, -3, 2, 2147483644])
            & has_values(&left, [-4, 9223372036854775805, -3, 4])
            & has_values(&both, [9, 9, 9, 9])
            & has_entities(&reference, [Entity::NULL; 4]),
    )
}

#[test]
fn expressions_over_all_kinds_of_columns(rt: HostRuntime) -> Result<(), Fail> {
    assert!(rt; adds_columns(rt.alloc())?);
    assert!(rt; nests(rt.alloc())?);
    assert!(rt; compares_numbers(rt.alloc())?);
    assert!(rt; compares_references());
    assert!(rt; reads_constants(rt.alloc())?);
    Ok(())
}
