//! Writes into one row, and marks of its block.
ghost use Rattle.std.specs.Prelude.{◌≡◌, ℕ, ◌+◌, ◌≤◌, ◌<◌, ⊤, map, length};
ghost use Rattle.ent_types.specs.declared.limits.TheConstants.{MOST_FIELDS, MOST_TYPES};
ghost use Rattle.world_model.specs.Fits.{Fits};
ghost use Rattle.world_model.specs.Members.{In};
ghost use Rattle.world_model.specs.Part.{part_of as seen};
ghost use Rattle.archetype_store.specs.Stores.{OfBlock};
ghost use Rattle.world_rows.specs.Rows.{values_at};
ghost use Rattle.world_rows.specs.Writes.{CanWrite, written, field_writes, value_writes, bit_writes, all_type_writes};
ghost use Rattle.world_rows.specs.Marks.{all_marked};

use crate::parts::values_of;
use archetype_store::ArchetypeStore;
use ent_types::{Part, Registry, SystemVersion, TypeId, TypeSet, Value};

/// Writes values into the fields of a type, from a field on.
pub(crate) fn write_fields(
    store: &mut ArchetypeStore,
    number: u32,
    row: u32,
    ty: TypeId,
    from: u8,
    values: &[Value],
)
    requires room { CanWrite number row (field_writes ty.0 from values.now) store.old }
    requires few { from + length values.now ≤ MOST_FIELDS }
    ensures { store.new ≡ written number row (field_writes ty.0 from values.now) store.old }
{
    match values.split_first() {
        None => {}
        Some((value, rest)) => {
            store.field_set(number, row, ty, from, *value);
            write_fields(store, number, row, ty, from + 1, rest);
        }
    }
}

/// Writes the values of a type that has columns, from the parts.
fn write_values(
    store: &mut ArchetypeStore,
    registry: &Registry,
    number: u32,
    row: u32,
    ty: TypeId,
    parts: &[Part],
)
    requires room { CanWrite number row (value_writes registry.now (map seen parts.now) ty.0) store.old }
    requires fit { Fits registry.now ty.0 (values_at ty.0 (map seen parts.now)) }
    ensures { store.new ≡ written number row (value_writes registry.now (map seen parts.now) ty.0) store.old }
{
    if registry.is_shared(ty) {
        return;
    }
    if registry.is_buffer(ty) {
        return;
    }
    // Its contract says how many fields a type has at most.
    let _ = registry.fields(ty);
    write_fields(store, number, row, ty, 0, values_of(parts, ty));
}

/// Disables a type that isn't shared, if it is among those that are off.
fn write_bit(
    store: &mut ArchetypeStore,
    registry: &Registry,
    number: u32,
    row: u32,
    ty: TypeId,
    off: &TypeSet,
)
    requires room { CanWrite number row (bit_writes registry.now off.now ty.0) store.old }
    requires known { ty.0 < MOST_TYPES }
    ensures { store.new ≡ written number row (bit_writes registry.now off.now ty.0) store.old }
{
    if registry.is_shared(ty) {
        return;
    }
    if off.has(ty) {
        store.set_enabled(number, row, ty, false);
    }
}

/// Writes what a new row has of the types but for its buffers: the values of the parts, and the bits.
pub(crate) fn write_types(
    store: &mut ArchetypeStore,
    registry: &Registry,
    number: u32,
    row: u32,
    types: &TypeSet,
    parts: &[Part],
    off: &TypeSet,
)
    requires room { CanWrite number row (all_type_writes registry.now (map seen parts.now) off.now types.now) store.old }
    requires fit { (t : ℕ) → In t types.now → Fits registry.now t (values_at t (map seen parts.now)) }
    ensures { store.new ≡ written number row (all_type_writes registry.now (map seen parts.now) off.now types.now) store.old }
{
    for ty in types.iter() {
        write_values(store, registry, number, row, ty, parts);
        write_bit(store, registry, number, row, ty, off);
    }
}

/// Marks some types of a block.
pub(crate) fn mark_types(
    store: &mut ArchetypeStore,
    number: u32,
    types: &TypeSet,
    version: SystemVersion,
)
    requires { OfBlock number (λ _. ⊤) store.old.blocks }
    ensures { store.new ≡ all_marked number version.0 types.now store.old }
{
    for ty in types.iter() {
        store.mark(number, ty, version);
    }
}
