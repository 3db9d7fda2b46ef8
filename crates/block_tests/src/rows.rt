//! Rows of a block: new ones, what is written, and the one that takes the place of a row that leaves.
ghost use Rattle.std.specs.Prelude.{◌≡◌, IfSome};
ghost use Rattle.chunk_block.specs.Blocks.{IsWhole};

use crate::conditions::{
    can_put, can_set_five, can_store, can_switch, has_elements, has_value, is_enabled,
};
use crate::fixtures::{ITEMS, PLACE, TAG, TARGET, TOTAL, X, entity, filled, push};
use buffer_store::Elements;
use chunk_block::Block;
use enable_bits::Mask;
use ent_types::{Entity, TypeId, Value};
use std::alloc::Global;
use std::test::Fail;

/// Returns one element, or none if it can't be made.
fn one_element(alloc: Global, number: i64) -> Option<Elements<Value>>
    ensures { IfSome result (λ e. e.width ≡ 2) }
{
    let mut elements = Elements::new(alloc, 2);
    match elements.push(&[Value::Int(number), Value::Ref(Entity::NULL)]) {
        Ok(()) => Some(elements),
        Err(_) => None,
    }
}

/// Writes 5 into a field of a row.
fn set_five(block: &mut Block, row: u32, ty: TypeId, field: u8) -> bool
    requires { IsWhole block.old.columns }
    ensures { IsWhole block.new.columns }
{
    if row >= block.len() || !can_set_five(block, ty, field) {
        return false;
    }
    block.field_set(row, ty, field, Value::Int(5));
    true
}

/// Disables a type in a row.
fn switch_off(block: &mut Block, row: u32, ty: TypeId) -> bool
    requires { IsWhole block.old.columns }
    ensures { IsWhole block.new.columns }
{
    if row >= block.len() || !can_switch(block, ty) {
        return false;
    }
    block.set_enabled(row, ty, false);
    true
}

/// Lets a row die.
fn let_die(block: &mut Block, row: u32) -> bool
    requires { IsWhole block.old.columns }
    ensures { IsWhole block.new.columns }
{
    if row >= block.len() {
        return false;
    }
    block.set_dying(row, true);
    true
}

/// Replaces the elements of a row by one.
fn put_one(alloc: Global, block: &mut Block, row: u32, number: i64) -> bool
    requires { IsWhole block.old.columns }
    ensures { IsWhole block.new.columns }
{
    let Some(elements) = one_element(alloc, number) else {
        return false;
    };
    if row >= block.len() || !can_put(block, ITEMS, &elements, 2) {
        return false;
    }
    let old = block.put_elements(row, ITEMS, elements);
    old.len() == 0
}

/// Writes the numbers from `first` on into a field of all rows.
fn count_up(block: &mut Block, ty: TypeId, field: u8, first: i64) -> bool
    requires { IsWhole block.old.columns }
    ensures { IsWhole block.new.columns }
{
    let mut scratch = [0; 128];
    let mut number = first;
    for place in 0..scratch.len() {
        scratch[place] = number;
        number = number.wrapping_add(1);
    }
    store_all(block, ty, field, &scratch)
}

/// Writes numbers into a field of all rows.
fn store_all(block: &mut Block, ty: TypeId, field: u8, numbers: &[i64]) -> bool
    requires { IsWhole block.old.columns }
    ensures { IsWhole block.new.columns }
{
    if numbers.len() != block.len() as usize || !can_store(block, ty, field) {
        return false;
    }
    block.store(ty, field, numbers, &Mask::first(128));
    true
}

/// Removes a row. Returns the index of the entity that took the place.
fn remove(block: &mut Block, row: u32) -> Option<u32>
    requires { IsWhole block.old.columns }
    ensures { IsWhole block.new.columns }
{
    if row >= block.len() {
        return None;
    }
    match block.swap_remove_row(row) {
        None => None,
        Some(e) => Some(e.index),
    }
}

/// `true` if the row is of this entity, and is dying or not, as wanted.
fn is_row_of(block: &Block, row: u32, index: u32, dying: bool) -> bool {
    row < block.len() && block.entity_at(row) == entity(index) && block.dying(row) == dying
}

/// `true` if the row has these numbers in its fields, and `PLACE` is enabled or not, as wanted.
fn has_place(block: &Block, row: u32, x: i64, total: i64, enabled: bool) -> bool {
    match block.rows_of(PLACE) {
        None => false,
        Some(rows) => {
            has_value(rows, row, X, Value::Int(x))
                & has_value(rows, row, TOTAL, Value::Int(total))
                & has_value(rows, row, TARGET, Value::Ref(Entity::NULL))
                & is_enabled(rows, row, enabled)
        }
    }
}

/// `true` if the row has this many items, and the last one begins with this number.
fn has_items(block: &Block, row: u32, count: u32, number: i64) -> bool {
    match block.rows_of(ITEMS) {
        None => false,
        Some(rows) => has_elements(rows, row, count, number),
    }
}

/// `true` if the tag is enabled in the row or not, as wanted.
fn has_tag(block: &Block, row: u32, enabled: bool) -> bool {
    match block.rows_of(TAG) {
        None => false,
        Some(rows) => is_enabled(rows, row, enabled),
    }
}

/// `true` if the row is as `push_row` makes it.
fn is_new(block: &Block, row: u32) -> bool {
    is_row_of(block, row, row, false)
        & has_place(block, row, 0, 0, true)
        & has_items(block, row, 0, 0)
        & has_tag(block, row, true)
}

/// Fills a block, and pushes once more.
fn fills_up(alloc: Global) -> Result<bool, Fail> {
    let mut block = filled(alloc, 200)?;
    let is_full = !push(&mut block, 128);
    Ok(is_full & is_new(&block, 0) & is_new(&block, 127) & !is_new(&block, 128))
}

#[test]
fn a_block_has_128_new_rows(rt: HostRuntime) -> Result<(), Fail> {
    assert!(rt; fills_up(rt.alloc())?);
    Ok(())
}

/// Writes into the last row of a full block and into another one.
fn write(alloc: Global, block: &mut Block) -> bool
    requires { IsWhole block.old.columns }
    ensures { IsWhole block.new.columns }
{
    let is_stored = count_up(block, PLACE, X, 2147483600) & count_up(block, PLACE, TOTAL, -3);
    let is_set = set_five(block, 3, PLACE, X);
    let is_off = switch_off(block, 127, PLACE) & switch_off(block, 3, TAG);
    let is_dying = let_die(block, 127);
    let is_put = put_one(alloc, block, 127, 9);
    is_stored & is_set & is_off & is_dying & is_put
}

/// `true` if the last row has what was written, and took the place of row 3 with it.
fn moves_the_last_row(alloc: Global) -> Result<bool, Fail> {
    let mut block = filled(alloc, 128)?;
    let is_written = write(alloc, &mut block);
    // The low 32 bits of 2147483727, as a signed number.
    let is_there = has_place(&block, 127, -2147483569, 124, false) & has_items(&block, 127, 1, 9);
    let was_there = has_place(&block, 3, 5, 0, true) & has_tag(&block, 3, false);
    let is_moved = remove(&mut block, 3) == Some(127);
    let has_moved = is_row_of(&block, 3, 127, true)
        & has_place(&block, 3, -2147483569, 124, false)
        & has_items(&block, 3, 1, 9)
        & has_tag(&block, 3, true);
    let is_clean = push(&mut block, 127) & is_new(&block, 127);
    let is_last = remove(&mut block, 127).is_none();
    Ok(is_written & is_there & was_there & is_moved & has_moved & is_clean & is_last)
}

#[test]
fn the_last_row_takes_the_place_with_all_that_it_has(rt: HostRuntime) -> Result<(), Fail> {
    assert!(rt; moves_the_last_row(rt.alloc())?);
    Ok(())
}
