//! What operations do to one row.
ghost use Rattle.std.specs.Prelude.{◌≡◌, ◌≢◌, ◌⊎◌, ◌++◌, ◌∷◌, [], map, false, true, Some, OnOk, OnErr};
ghost use Rattle.ent_types.specs.TypeLookups.{is_shared_at};
ghost use Rattle.ent_types.specs.TypeSets.{has_type};
ghost use Rattle.entity_table.specs.Table.{place_of};
ghost use Rattle.world_model.specs.Fits.{IsFitting};
ghost use Rattle.world_model.specs.Part.{part_of as seen};
ghost use Rattle.world_model.specs.World.{capacity};
ghost use Rattle.world_model.specs.Operations.{apply, ended, home_kept, shared_set};
ghost use Rattle.chunk_block.specs.Blocks.{row_in};
ghost use Rattle.archetype_store.specs.Stores.{OfNumber};
ghost use Rattle.world_places.specs.Placing.{home_of};
ghost use Rattle.world_rows.specs.Reading.{found_at};
ghost use Rattle.world_rows.specs.Types.{IsPart, home_taking, row_kept, row_taking};
ghost use Rattle.structural_ops.specs.Worlds.{Agrees, IsConsistent, Becomes, GivesAnswer, MovesTo, done, state_of};

use crate::OpFault;
use crate::enter::NewRow;
use crate::parts::new_part;
use crate::reading::{disabled_in, read_parts};
use crate::tables::{Tables, leave, move_row};
use ent_types::{Entity, Memory, Part, TypeSet};
use entity_table::Place;
use std::alloc::Global;

/// Ends an entity.
pub(crate) fn end(w: &mut Tables, e: Entity, place: Place)
    requires consistent { IsConsistent w.old }
    requires there { place_of w.old.table.table e ≡ Some place }
    ensures agrees { Agrees w.new }
    ensures ends { Becomes (state_of w.old) (state_of w.new) (ended e (state_of w.old).world) }
{
    leave(&mut w.store, &mut w.table, place, w.version);
    w.table.free(e);
}

/// Moves a row to the home of some of its types.
pub(crate) fn keep(
    w: &mut Tables,
    e: Entity,
    place: Place,
    types: &TypeSet,
    dying: bool,
) -> Result<(), OpFault>
    requires consistent { IsConsistent w.old }
    requires there { place_of w.old.table.table e ≡ Some place }
    requires fewer { OfNumber place.block (λ b. IsPart types.now b.block.types) w.old.store.blocks }
    ensures agrees { Agrees w.new }
    ensures moves { OfNumber place.block (λ b. MovesTo (state_of w.old) (state_of w.new)
        (home_kept (has_type types.now) (home_of b)) (row_kept types.now e dying (row_in place.row b.block.rows)) result) w.old.store.blocks }
{
    let mut parts = Vec::new(w.alloc);
    read_parts(w.alloc, &w.store, &w.registry, place, types, &mut parts)?;
    let off = disabled_in(&w.store, place, types);
    let new = NewRow {
        entity: e,
        types,
        parts: &parts,
        off: &off,
        dying,
    };
    move_row(w, place, new)
}

/// Adds a copy of a part.
fn add_copy(alloc: Global, part: &Part, parts: &mut Vec<Part>) -> Result<(), Memory>
    ensures { OnOk result (map seen parts.new.items ≡ map seen parts.old.items ++ seen part.now ∷ []) }
{
    let copy = new_part(alloc, part.ty, part.values.as_slice())?;
    parts.push(copy)?;
    Ok(())
}

/// Moves a row to the home that has a part besides, or another part of a shared type.
pub(crate) fn take(w: &mut Tables, e: Entity, place: Place, part: &Part) -> Result<(), OpFault>
    requires consistent { IsConsistent w.old }
    requires there { place_of w.old.table.table e ≡ Some place }
    requires fit { IsFitting w.old.registry (seen part.now) }
    requires new { OfNumber place.block (λ b. (is_shared_at w.old.registry part.now.ty.0 ≡ true) ⊎ (has_type b.block.types part.now.ty.0 ≡ false)) w.old.store.blocks }
    requires apart { OfNumber place.block (λ b. home_of b ≢ home_taking w.old.registry (seen part.now) (home_of b)) w.old.store.blocks }
    ensures agrees { Agrees w.new }
    ensures moves { OfNumber place.block (λ b. MovesTo (state_of w.old) (state_of w.new)
        (home_taking w.old.registry (seen part.now) (home_of b)) (row_taking w.old.registry (seen part.now) e (row_in place.row b.block.rows)) result) w.old.store.blocks }
{
    let block = w.store.block(place.block);
    let own = *block.types();
    let dying = block.dying(place.row);
    let mut parts = Vec::new(w.alloc);
    add_copy(w.alloc, part, &mut parts)?;
    read_parts(w.alloc, &w.store, &w.registry, place, &own, &mut parts)?;
    let off = disabled_in(&w.store, place, &own);
    let new = NewRow {
        entity: e,
        types: &own.with(part.ty),
        parts: &parts,
        off: &off,
        dying,
    };
    move_row(w, place, new)
}

/// Gives a row other values of a shared type that it has. Equal values change nothing.
pub(crate) fn share(w: &mut Tables, e: Entity, place: Place, part: &Part) -> Result<(), OpFault>
    requires consistent { IsConsistent w.old }
    requires there { place_of w.old.table.table e ≡ Some place }
    requires fit { IsFitting w.old.registry (seen part.now) }
    requires shared { is_shared_at w.old.registry part.now.ty.0 ≡ true }
    requires has { OfNumber place.block (λ b. has_type b.block.types part.now.ty.0 ≡ true) w.old.store.blocks }
    ensures agrees { Agrees w.new }
    ensures gives { OfNumber place.block (λ b. GivesAnswer (state_of w.old) (state_of w.new)
        (apply (capacity w.old.registry) (state_of w.old).world e (shared_set (found_at place.row b) (seen part.now))) (done result)) w.old.store.blocks }
{
    if part.values.as_slice() == w.store.shared_of(place.block, part.ty).as_slice() {
        return Ok(());
    }
    take(w, e, place, part)
}
