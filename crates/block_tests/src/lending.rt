//! Loans: two at once, written, and given back in any order.
ghost use Rattle.std.specs.Prelude.{IfSome};
ghost use Rattle.chunk_block.specs.Blocks.{BlockState, IsWhole, IsLoanOf};

use crate::conditions::{
    has_elements, has_value, is_enabled, loan_can_put, loan_can_refer, loan_can_store,
    loan_can_switch,
};
use crate::fixtures::{ITEMS, PLACE, TAG, TARGET, TOTAL, X, entity, filled};
use buffer_store::Elements;
use chunk_block::{Block, Loan};
use enable_bits::Mask;
use ent_types::{TypeId, TypeSet, Value};
use std::alloc::Global;
use std::test::Fail;

/// Lends two sets of types, if they have no type in common.
fn lend_two(block: &mut Block, first: &TypeSet, second: &TypeSet) -> Option<(Loan, Loan)>
    requires { IsWhole block.old.columns }
    ensures { IfSome result (λ loans. IsLoanOf block.new loans.0 × IsLoanOf block.new loans.1) }
{
    if first.meets(second) {
        return None;
    }
    let one = block.lend(7, first);
    let other = block.lend(8, second);
    Some((one, other))
}

/// Gives two loans back.
fn give_two(block: &mut Block, first: Loan, second: Loan)
    requires first { IsLoanOf block.old first }
    requires second { IsLoanOf block.old second }
{
    block.give_back(first);
    block.give_back(second);
}

/// Writes numbers into a field of those rows that the mask has.
fn store(loan: &mut Loan, ty: TypeId, field: u8, numbers: &[i64], rows: &Mask) -> bool
    ensures { (b : BlockState) → IsLoanOf b loan.old → IsLoanOf b loan.new }
{
    if !loan_can_store(loan, ty, field, numbers.len()) {
        return false;
    }
    loan.store(ty, field, numbers, rows);
    true
}

/// Writes a reference to the entity of index 9 into a field of the first three rows, if there are three.
fn refer(loan: &mut Loan, ty: TypeId, field: u8) -> bool
    ensures { (b : BlockState) → IsLoanOf b loan.old → IsLoanOf b loan.new }
{
    let target = [entity(9), entity(9), entity(9)];
    if !loan_can_refer(loan, ty, field, target.len()) {
        return false;
    }
    loan.store_references(ty, field, &target, &Mask::first(3));
    true
}

/// Disables a type in a row.
fn switch_off(loan: &mut Loan, row: u32, ty: TypeId) -> bool
    ensures { (b : BlockState) → IsLoanOf b loan.old → IsLoanOf b loan.new }
{
    if !loan_can_switch(loan, ty, row) {
        return false;
    }
    loan.set_enabled(row, ty, false);
    true
}

/// Replaces the elements of a row by one.
fn put_one(alloc: Global, loan: &mut Loan, row: u32, number: i64) -> bool
    ensures { (b : BlockState) → IsLoanOf b loan.old → IsLoanOf b loan.new }
{
    let mut elements = Elements::new(alloc, 2);
    if elements
        .push(&[Value::Int(number), Value::Ref(entity(1))])
        .is_err()
    {
        return false;
    }
    if !loan_can_put(loan, ITEMS, row, &elements, 2) {
        return false;
    }
    let old = loan.put_elements(row, ITEMS, elements);
    old.len() == 0
}

/// Returns the second row alone.
fn second_row() -> Mask {
    let mut rows = Mask::empty();
    rows.set(1, true);
    rows
}

/// Writes into the loan of `PLACE`. It has three rows.
fn write_place(loan: &mut Loan) -> bool
    ensures { (b : BlockState) → IsLoanOf b loan.old → IsLoanOf b loan.new }
{
    let is_stored = store(loan, PLACE, X, &[4294967297, 2, 3], &Mask::first(3))
        & store(loan, PLACE, X, &[5, 6, 7], &second_row())
        & store(loan, PLACE, TOTAL, &[10, 20, 30], &second_row());
    is_stored & refer(loan, PLACE, TARGET) & switch_off(loan, 2, PLACE)
}

/// Writes into the loan of `ITEMS` and `TAG`.
fn write_items(alloc: Global, loan: &mut Loan) -> bool
    ensures { (b : BlockState) → IsLoanOf b loan.old → IsLoanOf b loan.new }
{
    put_one(alloc, loan, 1, 6) & switch_off(loan, 0, TAG)
}

/// `true` if the loans have their numbers and types, and what is lent can't be read in the block.
fn are_lent(block: &Block, first: &Loan, second: &Loan) -> bool {
    first.number() == 7
        && second.number() == 8
        && *first.types() == TypeSet::empty().with(PLACE)
        && block.rows_of(PLACE).is_none()
        && block.rows_of(TAG).is_none()
        && second.rows_of(PLACE).is_none()
}

/// Writes into both loans, and gives them back: the first one first, or last.
fn write_and_give(
    alloc: Global,
    block: &mut Block,
    mut first: Loan,
    mut second: Loan,
    is_first: bool,
) -> bool
    requires first { IsLoanOf block.old first }
    requires second { IsLoanOf block.old second }
{
    let is_lent = are_lent(block, &first, &second);
    let is_written = write_place(&mut first) & write_items(alloc, &mut second);
    if is_first {
        give_two(block, first, second);
    } else {
        give_two(block, second, first);
    }
    is_lent & is_written
}

/// Lends two loans, writes into both, and gives them back: the first one first, or last.
fn lend_and_write(alloc: Global, block: &mut Block, is_first: bool) -> bool
    requires { IsWhole block.old.columns }
{
    let place = TypeSet::empty().with(PLACE);
    let others = TypeSet::empty().with(ITEMS).with(TAG);
    let Some((first, second)) = lend_two(block, &place, &others) else {
        return false;
    };
    write_and_give(alloc, block, first, second, is_first)
}

/// `true` if the row of `PLACE` has these values.
fn has_place(block: &Block, row: u32, x: i64, total: i64, enabled: bool) -> bool {
    match block.rows_of(PLACE) {
        None => false,
        Some(rows) => {
            has_value(rows, row, X, Value::Int(x))
                & has_value(rows, row, TOTAL, Value::Int(total))
                & has_value(rows, row, TARGET, Value::Ref(entity(9)))
                & is_enabled(rows, row, enabled)
        }
    }
}

/// `true` if the row of `ITEMS` and `TAG` has these values.
fn has_others(block: &Block, row: u32, count: u32, enabled: bool) -> bool {
    let items = match block.rows_of(ITEMS) {
        None => false,
        Some(rows) => has_elements(rows, row, count, 6),
    };
    let tag = match block.rows_of(TAG) {
        None => false,
        Some(rows) => is_enabled(rows, row, enabled),
    };
    items & tag
}

/// `true` if the block has what was written.
fn has_written(block: &Block) -> bool {
    let place = has_place(block, 0, 1, 0, true)
        & has_place(block, 1, 6, 20, true)
        & has_place(block, 2, 3, 0, false);
    place
        & has_others(block, 0, 0, false)
        & has_others(block, 1, 1, true)
        & has_others(block, 2, 0, true)
}

/// `true` if a block of three rows has what was written, when its loans come back in this order.
fn comes_back(alloc: Global, is_first: bool) -> Result<bool, Fail> {
    let mut block = filled(alloc, 3)?;
    let is_done = lend_and_write(alloc, &mut block, is_first);
    Ok(is_done & has_written(&block))
}

#[test]
fn two_loans_come_back_in_any_order(rt: HostRuntime) -> Result<(), Fail> {
    assert!(rt; comes_back(rt.alloc(), true)?);
    assert!(rt; comes_back(rt.alloc(), false)?);
    Ok(())
}

/// Lends `PLACE` of two blocks, writes into both loans, and gives them back in the opposite order.
fn cross(one: &mut Block, other: &mut Block) -> bool
    requires one { IsWhole one.old.columns }
    requires other { IsWhole other.old.columns }
{
    let place = TypeSet::empty().with(PLACE);
    let mut first = one.lend(0, &place);
    let mut second = other.lend(1, &place);
    let is_written = write_place(&mut first) & write_place(&mut second);
    other.give_back(second);
    one.give_back(first);
    is_written
}

/// `true` if both blocks have what was written.
fn crosses(alloc: Global) -> Result<bool, Fail> {
    let mut one = filled(alloc, 3)?;
    let mut other = filled(alloc, 3)?;
    let is_done = cross(&mut one, &mut other);
    Ok(is_done & has_place(&one, 1, 6, 20, true) & has_place(&other, 2, 3, 0, false))
}

#[test]
fn loans_of_two_blocks_cross(rt: HostRuntime) -> Result<(), Fail> {
    assert!(rt; crosses(rt.alloc())?);
    Ok(())
}
