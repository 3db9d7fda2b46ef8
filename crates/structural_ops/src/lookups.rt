//! What a row has of one type, though other types of its block may be lent.
ghost use Rattle.std.specs.Prelude.{◌≡◌, true, false, length, is_some, option_map, option_and_then, slice_get};
ghost use Rattle.ent_types.specs.TypeLookups.{fields_at, is_buffer_at};
ghost use Rattle.buffer_store.specs.Buffers.{buffer};
ghost use Rattle.chunk_block.specs.Blocks.{row_in};
ghost use Rattle.world_model.specs.Found.{cell_at, values_of};
ghost use Rattle.archetype_store.specs.Stores.{OfNumber};
ghost use Rattle.world_rows.specs.Reading.{found_at};
ghost use Rattle.structural_ops.specs.Readable.{CanFind, CanReadType};

use archetype_store::ArchetypeStore;
use buffer_store::Elements;
use ent_types::{Registry, TypeId, Value};
use entity_table::Place;

/// `true` if a row has a type, as its own or as a shared one.
pub(crate) fn has_in(store: &ArchetypeStore, registry: &Registry, place: Place, ty: TypeId) -> bool
    requires { OfNumber place.block (CanFind registry.now place.row) store.now.blocks }
    ensures { OfNumber place.block (λ b. result ≡ is_some (values_of ty.0 (found_at place.row b))) store.now.blocks }
{
    if !registry.knows(ty) {
        return false;
    }
    store.block(place.block).types().has(ty)
}

/// Returns the value of a field of a type, or `None` if the row lacks the type or the type lacks the field.
pub(crate) fn value_in(
    store: &ArchetypeStore,
    registry: &Registry,
    place: Place,
    ty: TypeId,
    field: u8,
) -> Option<Value>
    requires plain { is_buffer_at registry.now ty.0 ≡ false }
    requires there { OfNumber place.block (CanReadType registry.now ty.0 place.row) store.now.blocks }
    ensures { OfNumber place.block (λ b. result ≡ option_and_then (λ values. slice_get values field) (values_of ty.0 (found_at place.row b))) store.now.blocks }
{
    if !has_in(store, registry, place, ty) {
        return None;
    }
    if registry.is_shared(ty) {
        return store
            .shared_of(place.block, ty)
            .get(field as usize)
            .copied();
    }
    if usize::from(field) >= registry.fields(ty).len() {
        return None;
    }
    Some(store.block(place.block).field_get(place.row, ty, field))
}

/// Returns the elements of a buffer type, or `None` if the row lacks the type.
pub(crate) fn elements_in<'a>(
    store: &'a ArchetypeStore,
    registry: &Registry,
    place: Place,
    ty: TypeId,
) -> Option<&'a Elements<Value>>
    requires buffer { is_buffer_at registry.now ty.0 ≡ true }
    requires there { OfNumber place.block (CanReadType registry.now ty.0 place.row) store.now.blocks }
    ensures { OfNumber place.block (λ b. option_map (λ e. e.now) result ≡ option_map (λ c. buffer (length (fields_at registry.now ty.0)) c.values) (cell_at ty.0 (row_in place.row b.block.rows).cells)) store.now.blocks }
{
    if !has_in(store, registry, place, ty) {
        return None;
    }
    Some(store.block(place.block).elements_at(place.row, ty))
}
