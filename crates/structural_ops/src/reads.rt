//! What is read of one entity. Nothing here takes memory.
ghost use Rattle.std.specs.Prelude.{◌≡◌, true, false, length, option_map, Some, None, MatchOption, IfSome};
ghost use Rattle.ent_types.specs.TypeLookups.{fields_at, is_buffer_at};
ghost use Rattle.ent_types.specs.TypeSets.{has_type};
ghost use Rattle.world_model.specs.Fits.{IsKnown};
ghost use Rattle.entity_table.specs.Table.{place_of};
ghost use Rattle.world_model.specs.Reads.{is_alive, is_dying, value_of, elements_of, element_of as model_element_of};
ghost use Rattle.buffer_store.specs.Buffers.{buffer};
ghost use Rattle.archetype_store.specs.Stores.{OfNumber};
ghost use Rattle.structural_ops.specs.Reads.{CanSee, element_seen, field_seen, values_seen};

use crate::World;
use archetype_store::ArchetypeStore;
use buffer_store::Elements;
use ent_types::{Entity, Registry, TypeId, TypeSet, Value};
use entity_table::EntityTable;

/// Says whether a set of types that a registry knows has a type, which may be an unknown one.
fn has(registry: &Registry, types: &TypeSet, ty: TypeId) -> bool
    requires { has_type types.now ty.0 ≡ true → IsKnown registry.now ty.0 }
    ensures { result ≡ has_type types.now ty.0 }
{
    registry.knows(ty) && types.has(ty)
}

/// Returns the value of a field of a type that is no buffer; none if the entity isn't alive, lacks the type, or the type lacks the
/// field.
pub(crate) fn field_of(
    store: &ArchetypeStore,
    registry: &Registry,
    table: &EntityTable,
    e: Entity,
    ty: TypeId,
    field: u8,
) -> Option<Value>
    requires plain { is_buffer_at registry.now ty.0 ≡ false }
    requires there { IfSome (place_of table.now.table e) (λ p. OfNumber p.block (CanSee registry.now ty.0 p.row) store.now.blocks) }
    ensures { MatchOption (place_of table.now.table e) (result ≡ None) (λ p. OfNumber p.block (λ b. result ≡ field_seen field (values_seen registry.now ty.0 p.row b)) store.now.blocks) }
{
    let place = table.place_of(e)?;
    let block = store.block(place.block);
    if !has(registry, block.types(), ty) {
        return None;
    }
    if registry.is_shared(ty) {
        return store
            .shared_of(place.block, ty)
            .get(usize::from(field))
            .copied();
    }
    if usize::from(field) >= registry.fields(ty).len() {
        return None;
    }
    Some(block.field_get(place.row, ty, field))
}

/// Returns the elements of a buffer type; none if the entity isn't alive or lacks the type.
pub(crate) fn buffer_of<'a>(
    store: &'a ArchetypeStore,
    registry: &Registry,
    table: &EntityTable,
    e: Entity,
    ty: TypeId,
) -> Option<&'a Elements<Value>>
    requires buffer { is_buffer_at registry.now ty.0 ≡ true }
    requires there { IfSome (place_of table.now.table e) (λ p. OfNumber p.block (CanSee registry.now ty.0 p.row) store.now.blocks) }
    ensures { MatchOption (place_of table.now.table e) (option_map (λ elements. elements.now) result ≡ None) (λ p. OfNumber p.block (λ b.
        option_map (λ elements. elements.now) result ≡ option_map (buffer (length (fields_at registry.now ty.0))) (values_seen registry.now ty.0 p.row b)) store.now.blocks) }
{
    let place = table.place_of(e)?;
    let block = store.block(place.block);
    if !has(registry, block.types(), ty) {
        return None;
    }
    Some(block.elements_at(place.row, ty))
}

/// Returns the value of a field of the element at place `k` of a buffer type; none if the entity isn't alive or lacks the type, or if
/// there is no such element or field.
pub(crate) fn element_of(
    store: &ArchetypeStore,
    registry: &Registry,
    table: &EntityTable,
    e: Entity,
    ty: TypeId,
    k: u32,
    field: u8,
) -> Option<Value>
    requires buffer { is_buffer_at registry.now ty.0 ≡ true }
    requires there { IfSome (place_of table.now.table e) (λ p. OfNumber p.block (CanSee registry.now ty.0 p.row) store.now.blocks) }
    ensures { MatchOption (place_of table.now.table e) (result ≡ None) (λ p. OfNumber p.block (λ b. result ≡ element_seen registry.now ty.0 k field (values_seen registry.now ty.0 p.row b)) store.now.blocks) }
{
    // Its contract says that a buffer type has fields.
    let _ = registry.types();
    let elements = buffer_of(store, registry, table, e, ty)?;
    if usize::from(field) >= registry.fields(ty).len() {
        return None;
    }
    if k >= elements.len() {
        return None;
    }
    Some(elements.value(k, field))
}

impl World {
    /// Returns the value of a field of a type that is no buffer, disabled or not, the entity's own or shared; `None` if the entity isn't
    /// alive or lacks the type, or if the type lacks the field.
    pub fn get(&self, e: Entity, ty: TypeId, field: u8) -> Option<Value>
        requires { is_buffer_at self.now.world.registry ty.0 ≡ false }
        ensures { result ≡ value_of self.now.world e ty.0 field }
    {
        let w = &self.tables;
        field_of(&w.store, &w.registry, &w.table, e, ty, field)
    }

    /// Says whether an alive entity is dying: it was destroyed, and is kept for its cleanup types.
    pub fn dying(&self, e: Entity) -> bool
        requires alive { is_alive self.now.world e ≡ true }
        ensures { result ≡ is_dying self.now.world e }
    {
        let w = &self.tables;
        match w.table.place_of(e) {
            Some(place) => w.store.block(place.block).dying(place.row),
            None => unreachable!(),
        }
    }

    /// Counts the elements of a buffer type; `None` if and only if the entity isn't alive or lacks the type.
    pub fn elements(&self, e: Entity, ty: TypeId) -> Option<u32>
        requires { is_buffer_at self.now.world.registry ty.0 ≡ true }
        ensures { result ≡ elements_of self.now.world e ty.0 }
    {
        let w = &self.tables;
        let elements = buffer_of(&w.store, &w.registry, &w.table, e, ty)?;
        Some(elements.len())
    }

    /// Returns the value of a field of the element at place `k`, from 0, of a buffer type; `None` if the entity isn't alive or lacks
    /// the type, or if there is no such element or field.
    pub fn element(&self, e: Entity, ty: TypeId, k: u32, field: u8) -> Option<Value>
        requires { is_buffer_at self.now.world.registry ty.0 ≡ true }
        ensures { result ≡ model_element_of self.now.world e ty.0 k field }
    {
        let w = &self.tables;
        element_of(&w.store, &w.registry, &w.table, e, ty, k, field)
    }
}
