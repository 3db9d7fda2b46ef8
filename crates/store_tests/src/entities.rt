//! Tables of entities.
ghost use Rattle.std.specs.Prelude.{◌≡◌};
ghost use Rattle.entity_table.specs.Table.{empty_table};

use ent_types::{Entity, Steps};
use entity_table::{EntityTable, Place, TableFault};
use std::alloc::Global;
use std::marker::Brand;
use std::sync::ledger::{Blank, Ledger};

/// A table, and plain lists of what it should have.
#[derive(Drop)]
struct Pair {
    table: EntityTable,
    alive: Vec<Entity>,
    free: Vec<Entity>,
    made: u32,
}

/// What a step does.
#[derive(Clone, Copy, PartialEq, Eq)]
enum Deed {
    Make,
    EndNewest,
    EndOldest,
}

fn is_at(table: &EntityTable, e: Entity, wanted: Option<Place>) -> bool {
    table.place_of(e) == wanted
}

/// Reserves room for one entity and makes it, if there is room.
fn make_one(table: &mut EntityTable, place: Place) -> Option<Entity> {
    match table.reserve(1) {
        Ok(()) => Some(table.make(place)),
        Err(_) => None,
    }
}

/// `true` if the entity was alive and isn't any more.
fn ends(table: &mut EntityTable, e: Entity) -> bool {
    if table.place_of(e).is_none() {
        return false;
    }
    table.free(e);
    is_at(table, e, None)
}

/// `true` if the entity was alive and is at another place now.
fn moves(table: &mut EntityTable, e: Entity, place: Place) -> bool {
    if table.place_of(e).is_none() {
        return false;
    }
    table.put_place(e, place);
    is_at(table, e, Some(place))
}

fn next_is(table: &EntityTable, wanted: Entity) -> bool {
    (table.room() > 0) && table.ahead(0) == wanted
}

/// The entity freed last, with its version raised, or else the next fresh index with version 7.
fn take_expected(pair: &mut Pair) -> Entity {
    let fresh = Entity {
        index: pair.made,
        version: 7,
    };
    let e = pair.free.pop().unwrap_or(fresh);
    pair.made = pair.made.max(e.index.wrapping_add(1));
    e
}

/// `true` if there is room, and the new entity has this name and this place.
fn makes_as(table: &mut EntityTable, place: Place, wanted: Entity) -> bool {
    match make_one(table, place) {
        Some(e) => (e == wanted) & is_at(table, e, Some(place)),
        None => false,
    }
}

fn makes(pair: &mut Pair, place: Place) -> bool {
    let e = take_expected(pair);
    next_is(&pair.table, e) & makes_as(&mut pair.table, place, e) & pair.alive.push(e).is_ok()
}

fn take_alive(alive: &mut Vec<Entity>, deed: Deed) -> Option<Entity> {
    if deed == Deed::EndNewest {
        return alive.pop();
    }
    if alive.is_empty() {
        return None;
    }
    Some(alive.remove(0))
}

/// Adds the name that the index has next.
fn free_one(free: &mut Vec<Entity>, e: Entity) -> bool {
    let next = Entity {
        index: e.index,
        version: e.version.wrapping_add(1),
    };
    free.push(next).is_ok()
}

fn ends_one(pair: &mut Pair, deed: Deed) -> bool {
    match take_alive(&mut pair.alive, deed) {
        Some(e) => free_one(&mut pair.free, e) & ends(&mut pair.table, e),
        None => true,
    }
}

fn does(pair: &mut Pair, deed: Deed, step: u32) -> bool {
    if deed == Deed::Make {
        let (block, row) = (step, step);
        makes(pair, Place { block, row })
    } else {
        ends_one(pair, deed)
    }
}

fn agrees(pair: &Pair) -> bool {
    pair.table.alive_count() as usize == pair.alive.len()
}

fn deed_of(number: u32) -> Deed {
    match number % 3 {
        0 => Deed::Make,
        1 => Deed::EndNewest,
        _ => Deed::EndOldest,
    }
}

fn new_pair(alloc: Global) -> Pair {
    Pair {
        table: EntityTable::new(alloc, 7),
        alive: Vec::new(alloc),
        free: Vec::new(alloc),
        made: 0,
    }
}

/// Six steps, each of which is a digit of `order` in base 3.
fn does_all(pair: &mut Pair, order: u32) -> bool {
    let mut rest = order;
    for step in 0..6 {
        if !(does(pair, deed_of(rest), step) & agrees(pair)) {
            return false;
        }
        rest /= 3;
    }
    true
}

fn follows(alloc: Global, order: u32) -> bool {
    let mut pair = new_pair(alloc);
    does_all(&mut pair, order)
}

fn all_follow(alloc: Global) -> bool {
    for order in 0..729 {
        if !follows(alloc, order) {
            return false;
        }
    }
    true
}

#[test]
fn a_table_follows_plain_lists(rt: HostRuntime) {
    assert!(rt; all_follow(rt.alloc()));
}

fn found<L: Ledger>(table: &EntityTable, e: Entity, blank: Blank) -> Option<Place>
    requires { (blank.name ≡ L.name) × (blank.parts ≡ L.parts) × (L.parts ≡ 1) }
{
    let mut steps = Steps::<L>::new(blank);
    table.find(e, &mut steps)
}

/// `true` if a search that counts its steps finds the entity at this place.
fn is_found(table: &EntityTable, e: Entity, wanted: Place) -> bool {
    found::<Brand>(table, e, Blank::new(1)) == Some(wanted)
}

/// `true` if a new entity is found where it was moved to.
fn moves_one(table: &mut EntityTable, first: Place, second: Place) -> bool {
    match make_one(table, first) {
        Some(e) => moves(table, e, second) & is_found(table, e, second),
        None => false,
    }
}

fn row_moves(alloc: Global) -> bool {
    let mut table = EntityTable::new(alloc, 1);
    moves_one(
        &mut table,
        Place { block: 0, row: 0 },
        Place { block: 2, row: 5 },
    ) & is_at(&table, Entity::NULL, None)
}

#[test]
fn a_row_moves(rt: HostRuntime) {
    assert!(rt; row_moves(rt.alloc()));
}

/// Makes four entities, and returns the second and the last.
fn make_four(table: &mut EntityTable) -> Option<(Entity, Entity)> {
    make_one(table, Place { block: 0, row: 0 })?;
    let second = make_one(table, Place { block: 0, row: 1 })?;
    make_one(table, Place { block: 0, row: 2 })?;
    let last = make_one(table, Place { block: 0, row: 3 })?;
    Some((second, last))
}

/// `true` if four entities were made, of which the second and the last are ended.
fn two_are_left(table: &mut EntityTable) -> bool {
    match make_four(table) {
        Some((second, last)) => ends(table, second) & ends(table, last),
        None => false,
    }
}

/// `true` if these are the rows of the alive entities, in the order of the walk.
fn walks(table: &EntityTable, wanted: &[(u32, u32)]) -> bool {
    let mut met = 0usize;
    for (e, place) in table.living() {
        if wanted.get(met) != Some(&(e.index, place.row)) {
            return false;
        }
        met = met.wrapping_add(1);
    }
    met == wanted.len()
}

fn living_come_by_index(alloc: Global) -> bool {
    let mut table = EntityTable::new(alloc, 1);
    walks(&table, &[]) & two_are_left(&mut table) & walks(&table, &[(0, 0), (2, 2)])
}

#[test]
fn the_living_come_by_index(rt: HostRuntime) {
    assert!(rt; living_come_by_index(rt.alloc()));
}

/// Proved from the contracts alone: the first two entities of an index, and what a new table counts.
fn names_are_proved(table: &mut EntityTable) -> Result<(), TableFault>
    requires { table.old ≡ record { table = empty_table 7; spare = 0 } }
{
    let is_new = table.room() == 1_048_576 && table.alive_count() == 0;
    prove!(is_new);
    table.reserve(1)?;
    let first = table.make(Place { block: 0, row: 0 });
    let is_first = first.index == 0 && first.version == 7;
    prove!(is_first);
    table.free(first);
    let next = table.ahead(0);
    let is_raised = next.index == 0 && next.version == 8;
    prove!(is_raised);
    Ok(())
}

fn names_have_an_order(alloc: Global) -> bool {
    let mut table = EntityTable::new(alloc, 7);
    names_are_proved(&mut table).is_ok()
}

#[test]
fn names_come_in_the_stated_order(rt: HostRuntime) {
    assert!(rt; names_have_an_order(rt.alloc()));
}

fn makes_and_ends(table: &mut EntityTable, wanted: Entity) -> bool {
    match make_one(table, Place { block: 0, row: 0 }) {
        Some(e) => (e == wanted) & ends(table, e),
        None => false,
    }
}

/// Makes and ends an entity of each index.
fn uses_up(table: &mut EntityTable, version: u32) -> bool {
    for index in 0..4_194_304 {
        if !makes_and_ends(table, Entity { index, version }) {
            return false;
        }
    }
    true
}

fn is_used_up(table: &mut EntityTable) -> bool {
    (table.room() == 0) & (table.reserve(1) == Err(TableFault::Full)) & (table.reserve(0) == Ok(()))
}

fn each_index_is_retired(alloc: Global) -> bool {
    let mut table = EntityTable::new(alloc, u32::MAX);
    uses_up(&mut table, u32::MAX) & is_used_up(&mut table)
}

/// Each index has the last version at once, so each one that is freed is retired.
#[test]
fn an_index_with_the_last_version_is_retired(rt: HostRuntime) {
    assert!(rt; each_index_is_retired(rt.alloc()));
}
