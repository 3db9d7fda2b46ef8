//! Blocks and rows that a query selects.
ghost use Rattle.std.specs.Prelude.{◌≡◌, ◌<◌};
ghost use Rattle.ent_types.specs.declared.limits.TheConstants.{MOST_TYPES};

use crate::changes::disable;
use crate::fixtures::{GLOW, HEALTH, create, made, parts};
use ent_types::{Entity, Parts, Steps, SystemVersion, TypeId, TypeSet};
use query_select::{Cache, Filter, Query, Visit, select};
use std::alloc::Global;
use std::marker::Brand;
use std::sync::ledger::{Blank, Ledger};
use structural_ops::World;

/// A query of the rows that have a type on.
fn having(ty: TypeId) -> Query
    requires { ty.0 < MOST_TYPES }
{
    let none = TypeSet::empty();
    Query {
        all: none.with(ty),
        any: none,
        none,
        disabled: none,
        absent: none,
        include_disabled: false,
        include_prefab: false,
    }
}

/// What a query selects: how many blocks are visited, how many rows match in the first of them, and how many blocks pass.
#[derive(Clone, Copy, Debug, PartialEq, Eq)]
struct Selected {
    visits: usize,
    rows: u32,
    passing: u32,
}

/// Counts the rows of the first visit.
fn first_rows(visits: &[Visit]) -> u32 {
    match visits.first() {
        Some(visit) => visit.rows.count(),
        None => 0,
    }
}

/// Selects with a new cache and without a filter.
fn select_new<L: Ledger>(
    alloc: Global,
    world: &World,
    query: &Query,
    blank: Blank,
) -> Option<Selected>
    requires { (blank.name ≡ L.name) × (blank.parts ≡ L.parts) × (L.parts ≡ 1) }
{
    let mut steps = Steps::<L>::new(blank);
    let mut cache = Cache::new(alloc);
    let filter = Filter {
        changed: TypeSet::empty(),
        order: false,
        shared: Parts::new(alloc),
    };
    let never = SystemVersion(0);
    match select(alloc, world, query, &filter, never, &mut cache, &mut steps) {
        Ok(visits) => Some(Selected {
            visits: visits.len(),
            rows: first_rows(&visits),
            passing: cache.passing(world),
        }),
        Err(_) => None,
    }
}

/// `true` if one of two blocks that pass is visited, and one row of it.
fn selects_one(alloc: Global, world: &World) -> bool {
    let wanted = Selected {
        visits: 1,
        rows: 1,
        passing: 2,
    };
    select_new::<Brand>(alloc, world, &having(GLOW), Blank::new(1)) == Some(wanted)
}

/// Makes an entity with `GLOW` alone, which is disabled.
fn make_dark(alloc: Global, world: &mut World) -> bool {
    let Some(parts) = parts(alloc, &[(GLOW, &[1])]) else {
        return false;
    };
    match create(world, &parts) {
        Some(e) => disable(world, e, GLOW),
        None => false,
    }
}

/// Makes a copy of an entity, in which `GLOW` is disabled.
fn copy_dark(world: &mut World, e: Entity) -> bool {
    match world.instantiate(e) {
        Ok(copy) => disable(world, copy, GLOW),
        Err(_) => false,
    }
}

fn selects(alloc: Global) -> bool {
    match made(alloc, &[(HEALTH, &[5, 6]), (GLOW, &[1])]) {
        Some((mut world, e)) => {
            copy_dark(&mut world, e) && make_dark(alloc, &mut world) && selects_one(alloc, &world)
        }
        None => false,
    }
}

#[test]
fn a_query_selects_the_rows_that_match(rt: HostRuntime) {
    assert!(rt; selects(rt.alloc()));
}
