//! Interned values of shared types.
ghost use Rattle.std.specs.Prelude.{◌≡◌, []};

use ent_types::{Memory, TypeId, Value, Values};
use shared_values::{SharedId, SharedTable};
use std::alloc::Global;

fn list_of(alloc: Global, numbers: &[i64]) -> Result<Values, Memory> {
    let mut values = Values::new(alloc);
    for number in numbers {
        values.push(Value::Int(*number))?;
    }
    Ok(values)
}

/// Returns the id of these numbers of a type, held once more.
fn intern(
    alloc: Global,
    table: &mut SharedTable,
    ty: u16,
    numbers: &[i64],
) -> Result<SharedId, Memory> {
    let values = list_of(alloc, numbers)?;
    table.intern(TypeId(ty), &values)
}

fn is_held(table: &SharedTable, id: SharedId, holds: u64) -> bool {
    table.holds(id) == holds
}

/// `true` if these numbers of type 3 have this id, which is held this often then.
fn gets(
    alloc: Global,
    table: &mut SharedTable,
    numbers: &[i64],
    wanted: SharedId,
    holds: u64,
) -> bool {
    match intern(alloc, table, 3, numbers) {
        Ok(id) => (id == wanted) & is_held(table, id, holds),
        Err(_) => false,
    }
}

fn has_values(table: &SharedTable, id: SharedId, values: &Values) -> bool {
    table.holds(id) > 0 && table.values_of(id).as_slice() == values.as_slice()
}

fn stands_for(alloc: Global, table: &SharedTable, id: SharedId, numbers: &[i64]) -> bool {
    match list_of(alloc, numbers) {
        Ok(values) => has_values(table, id, &values),
        Err(_) => false,
    }
}

fn is_found(table: &SharedTable, values: &Values, wanted: Option<SharedId>) -> bool {
    table.find(TypeId(3), values) == Ok(wanted)
}

/// `true` if these numbers of type 3 have this id, or none.
fn finds(alloc: Global, table: &SharedTable, numbers: &[i64], wanted: Option<SharedId>) -> bool {
    match list_of(alloc, numbers) {
        Ok(values) => is_found(table, &values, wanted),
        Err(_) => false,
    }
}

fn are_equal(table: &SharedTable, a: SharedId, b: SharedId) -> bool {
    table.holds(a) > 0 && table.holds(b) > 0 && table.are_equal(a, b)
}

/// `true` if the id was held and is held this often after one release.
fn releases(table: &mut SharedTable, id: SharedId, holds: u64) -> bool {
    if table.holds(id) == 0 {
        return false;
    }
    table.release(id);
    is_held(table, id, holds)
}

/// `true` if these numbers of a type get another id.
fn differs(
    alloc: Global,
    table: &mut SharedTable,
    first: SharedId,
    ty: u16,
    numbers: &[i64],
) -> bool {
    match intern(alloc, table, ty, numbers) {
        Ok(id) => (id != first) & !are_equal(table, first, id),
        Err(_) => false,
    }
}

/// `true` if [7, -1] of type 3 has one id, which no other type and no other list has.
fn has_one_id(alloc: Global, table: &mut SharedTable) -> bool {
    match intern(alloc, table, 3, &[7, -1]) {
        Ok(first) => {
            gets(alloc, table, &[7, -1], first, 2)
                & are_equal(table, first, first)
                & differs(alloc, table, first, 4, &[7, -1])
                & differs(alloc, table, first, 3, &[7])
        }
        Err(_) => false,
    }
}

fn equal_values_have_one_id(alloc: Global) -> bool {
    let mut table = SharedTable::new(alloc);
    has_one_id(alloc, &mut table)
}

#[test]
fn equal_values_of_one_type_have_one_id(rt: HostRuntime) {
    assert!(rt; equal_values_have_one_id(rt.alloc()));
}

/// `true` if the id of [1] is held twice, then once and then not at all.
fn is_freed_at_last(alloc: Global, table: &mut SharedTable) -> bool {
    match intern(alloc, table, 3, &[1]) {
        Ok(id) => {
            gets(alloc, table, &[1], id, 2)
                & finds(alloc, table, &[1], Some(id))
                & releases(table, id, 1)
                & stands_for(alloc, table, id, &[1])
                & releases(table, id, 0)
                & finds(alloc, table, &[1], None)
        }
        Err(_) => false,
    }
}

fn last_release_frees(alloc: Global) -> bool {
    let mut table = SharedTable::new(alloc);
    is_freed_at_last(alloc, &mut table)
}

#[test]
fn an_id_is_held_until_its_last_release(rt: HostRuntime) {
    assert!(rt; last_release_frees(rt.alloc()));
}

/// `true` if the id that was released last stands for these numbers of type 5 next.
fn is_used_again(alloc: Global, table: &mut SharedTable, id: SharedId, numbers: &[i64]) -> bool {
    match intern(alloc, table, 5, numbers) {
        Ok(next) => (next == id) & is_held(table, id, 1) & stands_for(alloc, table, id, numbers),
        Err(_) => false,
    }
}

fn returns_after_release(alloc: Global, table: &mut SharedTable) -> bool {
    match intern(alloc, table, 3, &[1]) {
        Ok(id) => {
            releases(table, id, 0)
                & is_used_again(alloc, table, id, &[1, 2, 3, 4, 5, 6, 7, 8])
                & differs(alloc, table, id, 3, &[1])
        }
        Err(_) => false,
    }
}

fn ids_are_used_again(alloc: Global) -> bool {
    let mut table = SharedTable::new(alloc);
    returns_after_release(alloc, &mut table)
}

#[test]
fn a_released_id_is_used_again(rt: HostRuntime) {
    assert!(rt; ids_are_used_again(rt.alloc()));
}

/// Interns the lists [0] to [199].
fn intern_many(
    alloc: Global,
    table: &mut SharedTable,
    ids: &mut Vec<SharedId>,
) -> Result<(), Memory> {
    for number in 0..200 {
        let id = intern(alloc, table, 3, &[number])?;
        ids.push(id)?;
    }
    Ok(())
}

fn are_found_again(alloc: Global, table: &mut SharedTable, ids: &[SharedId]) -> bool {
    let mut number = 0i64;
    for id in ids {
        if !gets(alloc, table, &[number], *id, 2) {
            return false;
        }
        number = number.wrapping_add(1);
    }
    number == 200
}

fn many_are_found(alloc: Global) -> bool {
    let mut table = SharedTable::new(alloc);
    let mut ids = Vec::new(alloc);
    intern_many(alloc, &mut table, &mut ids).is_ok() & are_found_again(alloc, &mut table, &ids)
}

#[test]
fn many_values_have_an_id_each(rt: HostRuntime) {
    assert!(rt; many_are_found(rt.alloc()));
}

/// Proved from the contracts alone: the first id of a table is held once, and free after its release.
fn holds_are_proved(table: &mut SharedTable, values: &Values) -> Result<(), Memory>
    requires { table.old ≡ [] }
{
    let id = table.intern(TypeId(3), values)?;
    let is_held = table.holds(id) == 1;
    prove!(is_held);
    table.release(id);
    let is_free = table.holds(id) == 0;
    prove!(is_free);
    Ok(())
}

fn first_id_is_freed(alloc: Global, values: &Values) -> bool {
    let mut table = SharedTable::new(alloc);
    holds_are_proved(&mut table, values).is_ok()
}

fn last_release_is_proved(alloc: Global) -> bool {
    match list_of(alloc, &[7]) {
        Ok(values) => first_id_is_freed(alloc, &values),
        Err(_) => false,
    }
}

#[test]
fn the_last_release_frees_an_id(rt: HostRuntime) {
    assert!(rt; last_release_is_proved(rt.alloc()));
}
