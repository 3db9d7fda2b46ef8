//! What a world is made of, and the two ways in which rows change their blocks.
ghost use Rattle.std.specs.Prelude.{◌≡◌, ◌≢◌, ◌<◌, map, length, false, nat_eq, Some, IfSome};
ghost use Rattle.chunk_block.specs.Blocks.{IsWhole};
ghost use Rattle.entity_table.specs.Table.{IsAlive, place_of};
ghost use Rattle.world_model.specs.Part.{part_of as seen};
ghost use Rattle.world_model.specs.World.{capacity};
ghost use Rattle.world_model.specs.Ids.{room};
ghost use Rattle.world_model.specs.Operations.{made as made_world, moved_to};
ghost use Rattle.world_model.specs.Versions.{IsLawfulCode};
ghost use Rattle.archetype_store.specs.Stores.{HasBlocks, OfBlock, OfNumber, left, with_block};
ghost use Rattle.world_places.specs.Placing.{home_of, mover_in, order_marked, with_mover};
ghost use Rattle.world_rows.specs.Rows.{AreParts, cells_from, home_from, row_from};
ghost use Rattle.structural_ops.specs.Worlds.{Agrees, IsConsistent, Makes, MovesTo, state_of};

use crate::OpFault;
use crate::enter::{NewRow, enter};
use archetype_store::ArchetypeStore;
use ent_types::{Entity, Part, Registry, SystemVersion, TypeSet};
use entity_table::{EntityTable, Place};
use std::alloc::Global;

/// What a world is made of.
#[derive(Drop)]
pub(crate) struct Tables {
    pub(crate) alloc: Global,
    pub(crate) registry: Registry,
    pub(crate) store: ArchetypeStore,
    pub(crate) table: EntityTable,
    pub(crate) version: SystemVersion,
}

/// Makes a row of a new entity, which has the parts' types.
pub(crate) fn make(
    w: &mut Tables,
    types: &TypeSet,
    parts: &[Part],
    off: &TypeSet,
) -> Result<Entity, OpFault>
    requires consistent { IsConsistent w.old }
    requires parts { AreParts w.old.registry types.now (map seen parts.now) off.now }
    ensures agrees { Agrees w.new }
    ensures made { Makes (state_of w.old) (state_of w.new) (home_from w.old.registry types.now (map seen parts.now))
        (cells_from w.old.registry types.now (map seen parts.now) off.now) result }
{
    let a = w.store.archetype_of(&w.registry, types)?;
    w.store.is_sound();
    w.table.reserve(1)?;
    let entity = w.table.ahead(0);
    let new = NewRow {
        entity,
        types,
        parts,
        off,
        dying: false,
    };
    let place = enter(w.alloc, &mut w.store, &w.registry, a, new, w.version)?;
    Ok(w.table.make(place))
}

/// Takes a row out of its block, and returns the entity whose row takes its place. That entity gets its place in the table.
pub(crate) fn leave(
    store: &mut ArchetypeStore,
    table: &mut EntityTable,
    place: Place,
    version: SystemVersion,
) -> Option<Entity>
    requires there { OfBlock place.block (λ b. (place.row < length b.rows) × IsWhole b.columns) store.old.blocks }
    requires alive { OfBlock place.block (λ b. IfSome (mover_in place.row b) (IsAlive table.old.table)) store.old.blocks }
    ensures store { HasBlocks store.old store.new (left place.block place.row (with_block place.block (order_marked version.0) store.old.blocks)) }
    ensures mover { OfBlock place.block (λ b. result ≡ mover_in place.row b) store.old.blocks }
    ensures table { table.new.table ≡ with_mover result place table.old.table }
{
    store.mark_order(place.block, version);
    let mover = store.leave(place.block, place.row);
    if let Some(e) = mover {
        table.put_place(e, place);
    }
    mover
}

/// Moves the row of an entity to another home. After a fault the world is as before, though an archetype may have been made.
pub(crate) fn move_row(w: &mut Tables, place: Place, new: NewRow<'_>) -> Result<(), OpFault>
    requires consistent { IsConsistent w.old }
    requires there { place_of w.old.table.table new.entity ≡ Some place }
    requires parts { AreParts w.old.registry new.types.now (map seen new.parts.now) new.off.now }
    requires apart { OfNumber place.block (λ b. home_of b ≢ home_from w.old.registry new.types.now (map seen new.parts.now)) w.old.store.blocks }
    ensures agrees { Agrees w.new }
    ensures moves { MovesTo (state_of w.old) (state_of w.new) (home_from w.old.registry new.entry.types.now (map seen new.entry.parts.now))
        (row_from w.old.registry new.entry.types.now (map seen new.entry.parts.now) new.entry.off.now new.entry.entity new.entry.dying) result }
{
    let a = w.store.archetype_of(&w.registry, new.types)?;
    w.store.is_sound();
    let to = enter(w.alloc, &mut w.store, &w.registry, a, new, w.version)?;
    leave(&mut w.store, &mut w.table, place, w.version);
    w.table.put_place(new.entity, to);
    Ok(())
}
