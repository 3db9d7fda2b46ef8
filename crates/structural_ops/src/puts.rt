//! What is written into one row.
ghost use Rattle.std.specs.Prelude.{◌≡◌, ◌∷◌, [], false, true, OnOk, OnErr};
ghost use Rattle.ent_types.specs.TypeLookups.{is_buffer_at, is_shared_at};
ghost use Rattle.world_model.specs.Fits.{IsFitting};
ghost use Rattle.world_model.specs.Part.{part_of as seen};
ghost use Rattle.chunk_block.specs.Blocks.{row_in};
ghost use Rattle.archetype_store.specs.Stores.{OfNumber};
ghost use Rattle.world_rows.specs.Types.{row_put};
ghost use Rattle.structural_ops.specs.Worlds.{Agrees, CanPut, IsConsistent, WritesIn, state_of};

use crate::buffers::elements_of;
use crate::tables::Tables;
use crate::writes::write_fields;
use ent_types::{Memory, Part};
use entity_table::Place;

/// Replaces the values of a type that is neither shared nor a buffer, and marks the type.
pub(crate) fn put_values(w: &mut Tables, place: Place, part: &Part)
    requires consistent { IsConsistent w.old }
    requires fit { IsFitting w.old.registry (seen part.now) }
    requires own { is_shared_at w.old.registry part.now.ty.0 ≡ false }
    requires plain { is_buffer_at w.old.registry part.now.ty.0 ≡ false }
    requires there { OfNumber place.block (CanPut w.old part.now.ty.0 place) w.old.store.blocks }
    ensures agrees { Agrees w.new }
    ensures puts { OfNumber place.block (λ b. WritesIn (state_of w.old) (state_of w.new) (part.now.ty.0 ∷ []) (row_put (seen part.now) (row_in place.row b.block.rows))) w.old.store.blocks }
{
    // Its contract says how many fields a type has at most.
    let _ = w.registry.fields(part.ty);
    write_fields(
        &mut w.store,
        place.block,
        place.row,
        part.ty,
        0,
        part.values.as_slice(),
    );
    w.store.mark(place.block, part.ty, w.version);
}

/// Replaces the elements of a row of a buffer type, and marks the type. After `Memory` all is as before.
pub(crate) fn put_buffer(w: &mut Tables, place: Place, part: &Part) -> Result<(), Memory>
    requires consistent { IsConsistent w.old }
    requires fit { IsFitting w.old.registry (seen part.now) }
    requires buffer { is_buffer_at w.old.registry part.now.ty.0 ≡ true }
    requires there { OfNumber place.block (CanPut w.old part.now.ty.0 place) w.old.store.blocks }
    ensures agrees { Agrees w.new }
    ensures puts { OnOk result (OfNumber place.block (λ b. WritesIn (state_of w.old) (state_of w.new) (part.now.ty.0 ∷ []) (row_put (seen part.now) (row_in place.row b.block.rows))) w.old.store.blocks) }
    ensures err { OnErr result (state_of w.new ≡ state_of w.old) }
{
    let elements = elements_of(w.alloc, &w.registry, part.ty, part.values.as_slice())?;
    w.store
        .put_elements(place.block, place.row, part.ty, elements);
    w.store.mark(place.block, part.ty, w.version);
    Ok(())
}
