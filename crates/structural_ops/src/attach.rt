//! A scene: a world of its own, whose blocks are appended to another world. Its entities get the next ids there.
//!
//! All memory is taken first, so that nothing can fail once the blocks have moved. Then each row's new place is noted in the table
//! of the scene, and its entities are named in order of their indexes.
ghost use Rattle.std.specs.Prelude.{◌≡◌, ℕ, ◌≤◌, ◌<◌, ⊤, length, map, IfOk, IfErr, OnOk, OnErr};
ghost use Rattle.entity_table.specs.Table.{IsAlive, living, made, room as table_room};
ghost use Rattle.world_model.specs.Members.{In, AreDistinct};
ghost use Rattle.world_model.specs.World.{mark_type};
ghost use Rattle.world_model.specs.Found.{alive_count};
ghost use Rattle.world_model.specs.Ids.{next_ids, room};
ghost use Rattle.world_model.specs.Scenes.{attached};
ghost use Rattle.archetype_store.specs.Stores.{OfBlock, with_block_in};
ghost use Rattle.structural_ops.specs.Attaching.{AreNew, all_made, all_named, all_noted, all_written, each_written, place_of_item, rows_noted};
ghost use Rattle.structural_ops.specs.Worlds.{Becomes, IsConsistent, Stays, state_of};

use crate::World;
use crate::tables::Tables;
use crate::writes::mark_types;
use archetype_store::ArchetypeStore;
use chunk_block::Block;
use ent_types::{Entity, Memory, Sequence, SystemVersion};
use entity_table::{EntityTable, Place};
use std::alloc::Global;

/// Returns the entities that a table makes next.
fn ids_ahead(alloc: Global, table: &EntityTable, n: u32) -> Result<Sequence<Entity>, Memory>
    requires { n ≤ table_room table.now.table }
    ensures { IfOk result (λ ids. ids ≡ next_ids n table.now.table.free (made table.now.table) table.now.table.first_version) }
{
    let mut ids = Vec::with_capacity(alloc, n as usize)?;
    for k in 0..n {
        ids.push(table.ahead(k))?;
    }
    Ok(Sequence::from_vec(ids))
}

/// Notes in a table that the entities of a block's rows are in the block of a number.
fn note_rows(table: &mut EntityTable, number: u32, block: &Block)
    requires { (e : Entity) → In e (map (λ r. r.entity) block.now.rows) → IsAlive table.old.table e }
    ensures { table.new.table ≡ rows_noted number 0 block.now.rows table.old.table }
{
    for row in 0..block.len() {
        table.put_place(block.entity_at(row), Place { block: number, row });
    }
}

/// Notes in a table where the rows of some blocks of a store are.
fn note_blocks(table: &mut EntityTable, store: &ArchetypeStore, numbers: &[u32])
    requires { (n : ℕ) → In n numbers.now → OfBlock n (λ b. (e : Entity) → In e (map (λ r. r.entity) b.rows) → IsAlive table.old.table e) store.now.blocks }
    ensures { table.new.table ≡ all_noted store.now.blocks numbers.now table.old.table }
{
    for number in numbers {
        note_rows(table, *number, store.block(*number));
    }
}

/// Makes an entity for each row of a scene, in order of the indexes that the scene's table has, and names the rows. It takes no
/// memory.
fn name_rows(store: &mut ArchetypeStore, table: &mut EntityTable, scene: &EntityTable)
    requires spare { length (living scene.now.table) ≤ table.old.spare }
    requires rows { (p : Place) → In p (map place_of_item (living scene.now.table)) → OfBlock p.block (λ b. p.row < length b.rows) store.old.blocks }
    ensures store { store.new ≡ all_named (map place_of_item (living scene.now.table)) table.old.table store.old }
    ensures table { table.new.table ≡ all_made (map place_of_item (living scene.now.table)) table.old.table }
    ensures new { AreNew (map place_of_item (living scene.now.table)) table.old.table }
{
    for (_, place) in scene.living() {
        let entity = table.make(place);
        store.put_entity(place.block, place.row, entity);
    }
}

/// Marks every type and the order of a block.
fn mark_block(store: &mut ArchetypeStore, number: u32, version: SystemVersion)
    requires { OfBlock number (λ b. map mark_type b.marks ≡ b.types) store.old.blocks }
    ensures { store.new ≡ with_block_in number (all_written version.0) store.old }
{
    store.is_sound();
    let types = *store.block(number).types();
    // Its contract says that the types rise.
    let _ = types.len();
    mark_types(store, number, &types, version);
    store.mark_order(number, version);
}

/// Marks every type and the order of some blocks.
fn mark_blocks(store: &mut ArchetypeStore, numbers: &[u32], version: SystemVersion)
    requires { (n : ℕ) → In n numbers.now → OfBlock n (λ b. map mark_type b.marks ≡ b.types) store.old.blocks }
    ensures { store.new ≡ each_written version.0 numbers.now store.old }
{
    for number in numbers {
        mark_block(store, *number, version);
    }
}

fn attach(w: &mut Tables, scene: Tables) -> Result<(), Tables>
    requires consistent { IsConsistent w.old }
    requires scene { IsConsistent scene }
    requires same { scene.registry ≡ w.old.registry }
    requires fits { alive_count (state_of scene).world ≤ room (state_of w.old).world }
    ensures consistent { IsConsistent w.new }
    ensures ok { OnOk result (Becomes (state_of w.old) (state_of w.new) (attached (state_of w.old).world (state_of scene).world)) }
    ensures stays { OnErr result (Stays (state_of w.old) (state_of w.new)) }
    ensures back { IfErr result (λ back. back ≡ scene) }
{
    let Tables {
        alloc,
        registry,
        store,
        mut table,
        version,
    } = scene;
    if w.table.reserve(table.alive_count()).is_err() {
        return Err(Tables {
            alloc,
            registry,
            store,
            table,
            version,
        });
    }
    match w.store.attach(store) {
        Err(store) => Err(Tables {
            alloc,
            registry,
            store,
            table,
            version,
        }),
        Ok(numbers) => {
            note_blocks(&mut table, &w.store, &numbers);
            name_rows(&mut w.store, &mut w.table, &table);
            mark_blocks(&mut w.store, &numbers, w.version);
            Ok(())
        }
    }
}

impl World {
    /// Returns the entities that the next `n` calls of `create` make. There is room for them.
    pub fn next_ids(&self, alloc: Global, n: u32) -> Result<Sequence<Entity>, Memory>
        requires { n ≤ room self.now.world }
        ensures { IfOk result (λ ids. ids ≡ next_ids n self.now.world.free self.now.world.made self.now.world.first_entity_version) }
    {
        ids_ahead(alloc, &self.tables.table, n)
    }

    /// Appends the blocks of a scene, with the same registry, behind those of the world. Its entities, in order of their indexes, get
    /// the ids of `next_ids`, and there is room for them. Every type and the order of each of its blocks are marked. References keep
    /// what the scene had: `put_ref` replaces them.
    ///
    /// No value is copied. An error is returned only if memory runs out, with the scene as it was; the world is then as before, though
    /// archetypes may have been made.
    ///
    /// ```text
    /// let ids = world.next_ids(alloc, scene.alive_count())?;
    /// if world.attach(scene).is_ok() {
    ///     // The entity with the least index in the scene is now the first of `ids`.
    /// }
    /// ```
    pub fn attach(&mut self, scene: World) -> Result<(), World>
        requires same { scene.world.registry ≡ self.old.world.registry }
        requires fits { alive_count scene.world ≤ room self.old.world }
        ensures ok { OnOk result (Becomes self.old self.new (attached self.old.world scene.world)) }
        ensures stays { OnErr result (Stays self.old self.new) }
        ensures back { IfErr result (λ back. back ≡ scene) }
    {
        let World { tables } = scene;
        match attach(&mut self.tables, tables) {
            Ok(()) => Ok(()),
            Err(tables) => Err(World { tables }),
        }
    }
}
