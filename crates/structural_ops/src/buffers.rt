//! Buffers of a new row. Their memory is taken before the row enters its block.
ghost use Rattle.std.specs.Prelude.{◌≡◌, ℕ, ◌≤◌, ◌<◌, ◌++◌, ◌∷◌, [], true, map, length, reverse, IfOk, OnOk, if◌then◌else◌};
ghost use Rattle.ent_types.specs.TypeLookups.{fields_at, is_buffer_at};
ghost use Rattle.world_model.specs.Fits.{Fits};
ghost use Rattle.world_model.specs.Members.{In};
ghost use Rattle.world_model.specs.Part.{part_of as seen};
ghost use Rattle.world_rows.specs.Rows.{values_at};
ghost use Rattle.world_rows.specs.Writes.{CanWrite, written, buffer_write, buffer_writes};
ghost use Rattle.structural_ops.specs.Buffers.{prepared_write};

use crate::parts::values_of;
use archetype_store::ArchetypeStore;
use buffer_store::Elements;
use ent_types::{Memory, Part, Registry, TypeId, TypeSet, Value};
use std::alloc::Global;

/// The elements of a buffer type for a row.
#[derive(Drop)]
pub(crate) struct Prepared {
    pub(crate) ty: TypeId,
    pub(crate) elements: Elements<Value>,
}

/// Returns the elements with some values of a buffer type.
pub(crate) fn elements_of(
    alloc: Global,
    registry: &Registry,
    ty: TypeId,
    values: &[Value],
) -> Result<Elements<Value>, Memory>
    requires buffer { is_buffer_at registry.now ty.0 ≡ true }
    requires fit { Fits registry.now ty.0 values.now }
    ensures { IfOk result (λ e. e ≡ record { width = length (fields_at registry.now ty.0); values = values.now }) }
{
    // Its contract says that a buffer type has 1 to 8 fields.
    let _ = registry.types();
    let width = registry.fields(ty).len() as u8;
    match Elements::from_slice(alloc, width, values) {
        Ok(elements) => Ok(elements),
        Err(_) => Err(Memory),
    }
}

/// Adds the elements of a type, if it is a buffer type.
fn add_elements(
    alloc: Global,
    registry: &Registry,
    parts: &[Part],
    ty: TypeId,
    prepared: &mut Vec<Prepared>,
) -> Result<(), Memory>
    requires { Fits registry.now ty.0 (values_at ty.0 (map seen parts.now)) }
    ensures { OnOk result (map prepared_write prepared.new.items ≡ (if is_buffer_at registry.now ty.0
        then map prepared_write prepared.old.items ++ buffer_write registry.now (map seen parts.now) ty.0 ∷ []
        else map prepared_write prepared.old.items)) }
{
    if !registry.is_buffer(ty) {
        return Ok(());
    }
    let elements = elements_of(alloc, registry, ty, values_of(parts, ty))?;
    prepared.push(Prepared { ty, elements })?;
    Ok(())
}

/// Returns the elements of the buffer types among some types.
pub(crate) fn prepare(
    alloc: Global,
    registry: &Registry,
    types: &TypeSet,
    parts: &[Part],
) -> Result<Vec<Prepared>, Memory>
    requires { (t : ℕ) → In t types.now → Fits registry.now t (values_at t (map seen parts.now)) }
    ensures { IfOk result (λ p. map prepared_write p.items ≡ buffer_writes registry.now types.now (map seen parts.now)) }
{
    let mut prepared = Vec::new(alloc);
    for ty in types.iter() {
        add_elements(alloc, registry, parts, ty, &mut prepared)?;
    }
    Ok(prepared)
}

/// Puts the elements into a row, the last ones first.
pub(crate) fn put_all(
    store: &mut ArchetypeStore,
    number: u32,
    row: u32,
    prepared: &mut Vec<Prepared>,
)
    requires { CanWrite number row (reverse (map prepared_write prepared.old.items)) store.old }
    ensures { store.new ≡ written number row (reverse (map prepared_write prepared.old.items)) store.old }
{
    match prepared.pop() {
        None => {}
        Some(Prepared { ty, elements }) => {
            store.put_elements(number, row, ty, elements);
            put_all(store, number, row, prepared);
        }
    }
}
