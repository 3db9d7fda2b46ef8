//! The operations on the elements of a row's buffer. The elements themselves move out of the row and back, so that none is copied.
ghost use Rattle.std.specs.Prelude.{◌≡◌, ◌∷◌, [], true, length};
ghost use Rattle.ent_types.specs.TypeLookups.{fields_at, is_buffer_at};
ghost use Rattle.world_model.specs.Lawful.{ActSuits, Suits};
ghost use Rattle.world_model.specs.Part.{part_of as seen};
ghost use Rattle.world_model.specs.Operations.{On, Append, Clear};
ghost use Rattle.buffer_store.specs.Buffers.{buffer};
ghost use Rattle.chunk_block.specs.Blocks.{OfType, content_at, row_in};
ghost use Rattle.archetype_store.specs.Stores.{OfBlock};
ghost use Rattle.world_rows.specs.Writes.{CanWrite, Elements as PutElements, written};
ghost use Rattle.structural_ops.specs.References.{HasElementReference, with_element_reference};
ghost use Rattle.structural_ops.specs.Worlds.{IsConsistent, Gives, GivesAlways, state_of, done};

use crate::tables::Tables;
use crate::{OpFault, World};
use archetype_store::ArchetypeStore;
use buffer_store::Elements;
use ent_types::{Entity, Part, Registry, Skip, TypeId, Value};
use entity_table::Place;
use std::alloc::Global;

/// Takes the elements of a row of a buffer type. The row has none until they are put back. It takes no memory.
fn take_elements(
    alloc: Global,
    store: &mut ArchetypeStore,
    registry: &Registry,
    place: Place,
    ty: TypeId,
) -> Elements<Value>
    requires buffer { is_buffer_at registry.now ty.0 ≡ true }
    requires there { CanWrite place.block place.row (PutElements ty.0 (length (fields_at registry.now ty.0)) [] ∷ []) store.old }
    ensures elements { OfBlock place.block (λ b. OfType ty.0 (λ shape. result ≡ buffer (length shape.kinds) (content_at ty.0 (row_in place.row b.rows).cells).values) b.columns) store.old.blocks }
    ensures store { store.new ≡ written place.block place.row (PutElements ty.0 (length (fields_at registry.now ty.0)) [] ∷ []) store.old }
{
    // Its contract says that a buffer type has 1 to 8 fields.
    let _ = registry.types();
    let width = registry.fields(ty).len() as u8;
    store.put_elements(place.block, place.row, ty, Elements::new(alloc, width))
}

pub(crate) fn append(w: &mut Tables, e: Entity, part: &Part) -> Result<(), OpFault>
    requires consistent { IsConsistent w.old }
    requires suits { ActSuits w.old.registry (Append (seen part.now)) }
    ensures consistent { IsConsistent w.new }
    ensures gives { Gives (state_of w.old) (state_of w.new) (On e (Append (seen part.now))) (done result) }
{
    let Some(place) = w.table.place_of(e) else {
        return Err(OpFault::Skip(Skip::NoEntity));
    };
    if !w.store.block(place.block).types().has(part.ty) {
        return Err(OpFault::Skip(Skip::NoComponent));
    }
    let mut elements = take_elements(w.alloc, &mut w.store, &w.registry, place, part.ty);
    let pushed = elements.push(part.values.as_slice());
    w.store
        .put_elements(place.block, place.row, part.ty, elements);
    pushed?;
    w.store.mark(place.block, part.ty, w.version);
    Ok(())
}

pub(crate) fn clear(w: &mut Tables, e: Entity, ty: TypeId) -> Result<(), Skip>
    requires consistent { IsConsistent w.old }
    requires suits { ActSuits w.old.registry (Clear ty.0) }
    ensures consistent { IsConsistent w.new }
    ensures gives { GivesAlways (state_of w.old) (state_of w.new) (On e (Clear ty.0)) result }
{
    let Some(place) = w.table.place_of(e) else {
        return Err(Skip::NoEntity);
    };
    if !w.store.block(place.block).types().has(ty) {
        return Err(Skip::NoComponent);
    }
    // The elements keep their memory for later ones.
    let mut elements = take_elements(w.alloc, &mut w.store, &w.registry, place, ty);
    elements.clear();
    w.store.put_elements(place.block, place.row, ty, elements);
    w.store.mark(place.block, ty, w.version);
    Ok(())
}

pub(crate) fn put_element_ref(w: &mut Tables, e: Entity, ty: TypeId, k: u32, field: u8, to: Entity)
    requires consistent { IsConsistent w.old }
    requires there { HasElementReference (state_of w.old).world e ty.0 k field }
    ensures consistent { IsConsistent w.new }
    ensures puts { state_of w.new ≡ record (state_of w.old) { world = with_element_reference e ty.0 k field to (state_of w.old).world } }
{
    match w.table.place_of(e) {
        Some(place) => {
            let mut elements = take_elements(w.alloc, &mut w.store, &w.registry, place, ty);
            elements.put(k, field, Value::Ref(to));
            w.store.put_elements(place.block, place.row, ty, elements);
            w.store.mark(place.block, ty, w.version);
        }
        None => unreachable!(),
    }
}

impl World {
    /// Puts an element behind the others of a buffer, and marks its type in the entity's block. The part has the values of one element.
    /// It is skipped as `NoEntity` if the entity isn't alive, else as `NoComponent` if it lacks the type, else as `TooLong` at 4,096
    /// elements.
    pub fn append(&mut self, e: Entity, part: &Part) -> Result<(), OpFault>
        requires { Suits self.old.world.registry (On e (Append (seen part.now))) }
        ensures { Gives self.old self.new (On e (Append (seen part.now))) (done result) }
    {
        append(&mut self.tables, e, part)
    }

    /// Removes all elements of a buffer, and marks its type in the entity's block. It takes no memory, and keeps the buffer's. It is
    /// skipped as `NoEntity` if the entity isn't alive, else as `NoComponent` if it lacks the type.
    pub fn clear(&mut self, e: Entity, ty: TypeId) -> Result<(), Skip>
        requires { Suits self.old.world.registry (On e (Clear ty.0)) }
        ensures { GivesAlways self.old self.new (On e (Clear ty.0)) result }
    {
        clear(&mut self.tables, e, ty)
    }

    /// Replaces the reference in a field of the element at place `k`, from 0, and marks the buffer's type in the entity's block. There
    /// is such an element, and the field is a ref field. It takes no memory.
    pub fn put_element_ref(&mut self, e: Entity, ty: TypeId, k: u32, field: u8, to: Entity)
        requires { HasElementReference self.old.world e ty.0 k field }
        ensures { self.new ≡ record self.old { world = with_element_reference e ty.0 k field to self.old.world } }
    {
        put_element_ref(&mut self.tables, e, ty, k, field, to);
    }
}
