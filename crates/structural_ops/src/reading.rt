//! What a row has, as parts and bits.
ghost use Rattle.std.specs.Prelude.{◌≡◌, ℕ, ◌<◌, ◌++◌, map, length, IfOk, OnOk, OnErr};
ghost use Rattle.ent_types.specs.TypeSets.{has_type, is_subset_of};
ghost use Rattle.world_model.specs.Members.{In};
ghost use Rattle.world_model.specs.Part.{part_of as seen};
ghost use Rattle.block_columns.specs.Types.{HasField};
ghost use Rattle.chunk_block.specs.Blocks.{IsWhole, OfType, content_at, row_in};
ghost use Rattle.archetype_store.specs.Stores.{OfBlock, OfNumber};
ghost use Rattle.world_rows.specs.Rows.{part_in};
ghost use Rattle.world_rows.specs.Reading.{AreOff, CanRead, found_at, parts_in};

use crate::parts::new_part;
use archetype_store::ArchetypeStore;
use chunk_block::Block;
use ent_types::{Memory, Part, Registry, TypeId, TypeSet, Values};
use entity_table::Place;
use std::alloc::Global;

/// Returns the values of all fields of a type of a row.
fn field_values(
    alloc: Global,
    block: &Block,
    row: u32,
    ty: TypeId,
    fields: u8,
) -> Result<Values, Memory>
    requires within { row < length block.now.rows }
    requires there { (f : ℕ) → f < fields → OfType ty.0 (HasField f) block.now.columns }
    requires all { length (content_at ty.0 (row_in row block.now.rows).cells).values ≡ fields }
    ensures { IfOk result (λ values. values ≡ (content_at ty.0 (row_in row block.now.rows).cells).values) }
{
    let mut values = Values::new(alloc);
    for field in 0..fields {
        values.push(block.field_get(row, ty, field))?;
    }
    Ok(values)
}

/// Returns what a row has of a type of its block.
fn read_part(
    alloc: Global,
    store: &ArchetypeStore,
    registry: &Registry,
    place: Place,
    ty: TypeId,
) -> Result<Part, Memory>
    requires { OfNumber place.block (λ b. CanRead registry.now place.row b × In ty.0 b.block.types) store.now.blocks }
    ensures { IfOk result (λ p. OfNumber place.block (λ b. seen p ≡ part_in (found_at place.row b) ty.0) store.now.blocks) }
{
    if registry.is_shared(ty) {
        return new_part(alloc, ty, store.shared_of(place.block, ty).as_slice());
    }
    let block = store.block(place.block);
    if registry.is_buffer(ty) {
        return new_part(alloc, ty, block.elements_at(place.row, ty).as_slice());
    }
    let fields = registry.fields(ty).len() as u8;
    let values = field_values(alloc, block, place.row, ty, fields)?;
    Ok(Part { ty, values })
}

/// Adds what a row has of some types of its block.
pub(crate) fn read_parts(
    alloc: Global,
    store: &ArchetypeStore,
    registry: &Registry,
    place: Place,
    types: &TypeSet,
    parts: &mut Vec<Part>,
) -> Result<(), Memory>
    requires { OfNumber place.block (λ b. CanRead registry.now place.row b × ((t : ℕ) → In t types.now → In t b.block.types)) store.now.blocks }
    ensures { OnOk result (OfNumber place.block (λ b. map seen parts.new.items ≡ map seen parts.old.items ++ parts_in place.row b types.now) store.now.blocks) }
{
    for ty in types.iter() {
        let part = read_part(alloc, store, registry, place, ty)?;
        parts.push(part)?;
    }
    Ok(())
}

/// Returns those of some types that are disabled in a row.
pub(crate) fn disabled_in(store: &ArchetypeStore, place: Place, types: &TypeSet) -> TypeSet
    requires { OfBlock place.block (λ b. (place.row < length b.rows) × IsWhole b.columns) store.now.blocks }
    ensures { OfNumber place.block (AreOff place.row types.now result) store.now.blocks }
{
    let block = store.block(place.block);
    let mut off = TypeSet::empty();
    for ty in types.iter() {
        if !block.enabled(place.row, ty) {
            off = off.with(ty);
        }
    }
    off
}
