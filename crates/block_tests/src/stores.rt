//! A store of blocks: archetypes, the block that a row enters, what is written, and rows that leave.
ghost use Rattle.std.specs.Prelude.{◌≡◌, IfOk, None, []};
ghost use Rattle.chunk_block.specs.Blocks.{IsWhole};
ghost use Rattle.archetype_store.specs.Stores.{OfBlock};

use crate::fixtures::{declare, entity};
use archetype_store::ArchetypeStore;
use chunk_block::BlockFault;
use ent_types::{FieldKind, Kind, Registry, SystemVersion, TypeId, TypeSet};
use std::alloc::Global;
use std::test::Fail;

/// Makes an archetype without types and a block of it, and looks the archetype up again.
fn makes_a_block(alloc: Global, registry: &Registry) -> bool {
    let mut store = ArchetypeStore::new(alloc);
    let types = TypeSet::empty();
    let Ok(archetype) = store.archetype_of(registry, &types) else {
        return false;
    };
    let Ok(again) = store.archetype_of(registry, &types) else {
        return false;
    };
    store.place_for(again, &[]).is_ok() & (archetype == again)
}

fn keeps_blocks(alloc: Global) -> bool {
    match Registry::new(alloc) {
        Ok(registry) => makes_a_block(alloc, &registry),
        Err(_) => false,
    }
}

#[test]
fn a_store_makes_archetypes_and_blocks(rt: HostRuntime) {
    assert!(rt; keeps_blocks(rt.alloc()));
}

/// Makes a block without types in an empty store, and returns its number.
fn first_block(store: &mut ArchetypeStore, registry: &Registry) -> Result<u32, Fail>
    requires empty { store.old ≡ record { registry = None; archetypes = []; blocks = []; ranks = [] } }
    ensures { IfOk result (λ n. OfBlock n (λ b. IsWhole b.columns) store.new.blocks) }
{
    let archetype = store.archetype_of(registry, &TypeSet::empty())?;
    Ok(store.place_for(archetype, &[])?)
}

/// Adds a row, if there is room.
fn push(store: &mut ArchetypeStore, number: u32, index: u32) -> bool
    requires { OfBlock number (λ b. IsWhole b.columns) store.old.blocks }
    ensures { OfBlock number (λ b. IsWhole b.columns) store.new.blocks }
{
    if store.block(number).len() >= store.block(number).capacity() {
        return false;
    }
    store.push_row(number, entity(index));
    true
}

/// Gives a row another entity, and marks the order of the rows.
fn rename(store: &mut ArchetypeStore, number: u32, row: u32, index: u32) -> bool
    requires { OfBlock number (λ b. IsWhole b.columns) store.old.blocks }
    ensures { OfBlock number (λ b. IsWhole b.columns) store.new.blocks }
{
    if row >= store.block(number).len() {
        return false;
    }
    store.put_entity(number, row, entity(index));
    store.mark_order(number, SystemVersion(7));
    true
}

/// Lets a row die.
fn let_die(store: &mut ArchetypeStore, number: u32, row: u32) -> bool
    requires { OfBlock number (λ b. IsWhole b.columns) store.old.blocks }
    ensures { OfBlock number (λ b. IsWhole b.columns) store.new.blocks }
{
    if row >= store.block(number).len() {
        return false;
    }
    store.set_dying(number, row, true);
    true
}

/// Removes a row. `true` is returned if an entity with this index took its place, or none for 0.
fn leaves(store: &mut ArchetypeStore, number: u32, row: u32, index: u32) -> bool
    requires { OfBlock number (λ b. IsWhole b.columns) store.old.blocks }
{
    if row >= store.block(number).len() {
        return false;
    }
    match store.leave(number, row) {
        Some(moved) => moved == entity(index),
        None => index == 0,
    }
}

/// `true` if the first block has one row, of this entity, which is dying.
fn has_one_dying(store: &ArchetypeStore, index: u32) -> bool {
    match store.blocks().next() {
        Some((_, block)) => {
            block.len() == 1
                && block.entity_at(0) == entity(index)
                && block.dying(0)
                && block.order_version().0 == 7
        }
        None => false,
    }
}

/// Writes into two rows and lets the first one leave: the second takes its place.
fn moves_the_last_row(alloc: Global) -> Result<bool, Fail> {
    let registry = Registry::new(alloc)?;
    let mut store = ArchetypeStore::new(alloc);
    let number = first_block(&mut store, &registry)?;
    let written = push(&mut store, number, 1)
        && push(&mut store, number, 2)
        && rename(&mut store, number, 1, 5)
        && let_die(&mut store, number, 1);
    Ok(written && leaves(&mut store, number, 0, 5) && has_one_dying(&store, 5))
}

/// Lets the only row of a block leave: the block goes.
fn drops_an_emptied_block(alloc: Global) -> Result<bool, Fail> {
    let registry = Registry::new(alloc)?;
    let mut store = ArchetypeStore::new(alloc);
    let number = first_block(&mut store, &registry)?;
    Ok(
        push(&mut store, number, 1)
            && leaves(&mut store, number, 0, 0)
            && store.blocks().next().is_none(),
    )
}

#[test]
fn rows_leave_a_store(rt: HostRuntime) -> Result<(), Fail> {
    assert!(rt; moves_the_last_row(rt.alloc())?);
    assert!(rt; drops_an_emptied_block(rt.alloc())?);
    Ok(())
}

/// Declares 80 types of 208 bytes a row, which is more than a block has.
fn refuses_large_types(alloc: Global) -> Result<bool, Fail> {
    let mut registry = Registry::new(alloc)?;
    let mut types = TypeSet::empty();
    for k in 0..80_u8 {
        let name = [b'A' + k / 26, b'a' + k % 26];
        declare(
            alloc,
            &mut registry,
            &name,
            Kind::Plain,
            &[FieldKind::I64; 26],
            false,
        )?;
        types = types.with(TypeId(u16::from(k) + 3));
    }
    let mut store = ArchetypeStore::new(alloc);
    Ok(store.archetype_of(&registry, &types) == Err(BlockFault::TooLarge))
}

#[test]
fn types_without_room_are_refused(rt: HostRuntime) -> Result<(), Fail> {
    assert!(rt; refuses_large_types(rt.alloc())?);
    Ok(())
}
