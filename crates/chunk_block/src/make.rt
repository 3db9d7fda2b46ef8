//! How a block begins.
ghost use Rattle.std.specs.Prelude.{◌≡◌, ◌≤◌, ◌++◌, ◌∷◌, [], map, IfOk, OnOk, if◌then◌else◌};
ghost use Rattle.ent_types.specs.declared.limits.TheConstants.{MOST_BLOCK_ROWS};
ghost use Rattle.ent_types.specs.Registries.{type_at};
ghost use Rattle.ent_types.specs.Types.{is_shared};
ghost use Rattle.ent_types.specs.TypeSets.{IsRisingBelow};
ghost use Rattle.world_model.specs.World.{capacity};
ghost use Rattle.block_columns.specs.Types.{HasLawfulWidth};
ghost use Rattle.chunk_block.specs.Pieces.{place_of, places_of};
ghost use Rattle.chunk_block.specs.Blocks.{shape_of, new_place, new_places};

use crate::piece::Piece;
use crate::slot::{Held, Slot};
use block_columns::{TypeRows, TypeShape};
use ent_types::{FieldInfo, FieldKind, Memory, Registry, Sequence, TypeId, TypeSet};
use std::alloc::Global;

/// Returns the kinds of fields.
fn kinds_of(alloc: Global, fields: &[FieldInfo]) -> Result<Sequence<FieldKind>, Memory>
    ensures { IfOk result (λ kinds. kinds ≡ map (λ f. f.kind) fields.now) }
{
    let mut kinds = Sequence::new(alloc);
    for field in fields {
        kinds.push(field.kind)?;
    }
    Ok(kinds)
}

/// Returns what a block knows of a type. A type that the registry doesn't know counts as a tag.
fn shape_of(alloc: Global, registry: &Registry, ty: TypeId) -> Result<TypeShape, Memory>
    ensures value { IfOk result (λ shape. shape ≡ shape_of registry.now ty.0) }
    ensures width { IfOk result HasLawfulWidth }
{
    // Its contract says that the types are lawful, so that a buffer type has 1 to 8 fields.
    let _ = registry.types();
    let is_buffer = registry.is_buffer(ty);
    let enableable = registry.is_enableable(ty);
    let kinds = kinds_of(alloc, registry.fields(ty))?;
    Ok(TypeShape {
        ty,
        kinds,
        is_buffer,
        enableable,
    })
}

/// Returns the slot of a type, with no row.
fn new_slot(alloc: Global, registry: &Registry, ty: TypeId, capacity: u32) -> Result<Slot, Memory>
    requires { capacity ≤ MOST_BLOCK_ROWS }
    ensures { IfOk result (λ slot. place_of slot ≡ new_place capacity (shape_of registry.now ty.0)) }
{
    let shape = shape_of(alloc, registry, ty)?;
    let rows = TypeRows::new(alloc, shape, capacity)?;
    let own = shape_of(alloc, registry, ty)?;
    let shell = Box::new(
        alloc,
        Piece {
            rows: None,
            next: None,
        },
    )?;
    Ok(Slot {
        shape: own,
        held: Some(Held { rows, shell }),
    })
}

/// Adds the slot of a type, unless it is shared.
fn add_slot(
    alloc: Global,
    slots: &mut Vec<Slot>,
    registry: &Registry,
    ty: TypeId,
    capacity: u32,
) -> Result<(), Memory>
    requires { capacity ≤ MOST_BLOCK_ROWS }
    ensures { OnOk result (places_of slots.new.items ≡ (if is_shared (type_at registry.now ty.0).kind
        then places_of slots.old.items
        else places_of slots.old.items ++ new_place capacity (shape_of registry.now ty.0) ∷ [])) }
{
    if registry.is_shared(ty) {
        return Ok(());
    }
    let slot = new_slot(alloc, registry, ty, capacity)?;
    slots.push(slot)?;
    Ok(())
}

/// Returns the slots of the types that aren't shared, with no row.
#[tactic(auto, using(crate::proofs::New::added))]
pub(crate) fn new_slots(
    alloc: Global,
    registry: &Registry,
    types: &TypeSet,
    capacity: u32,
) -> Result<Vec<Slot>, Memory>
    requires { capacity ≤ MOST_BLOCK_ROWS }
    ensures { IfOk result (λ v. places_of v.items ≡ new_places registry.now capacity types.now) }
{
    let mut slots = Vec::new(alloc);
    for ty in types.iter() {
        add_slot(alloc, &mut slots, registry, ty, capacity)?;
    }
    Ok(slots)
}

/// Returns how many rows of these types fit into one block.
pub(crate) fn capacity_of(
    alloc: Global,
    registry: &Registry,
    types: &TypeSet,
) -> Result<u32, Memory>
    ensures value { IfOk result (λ n. n ≡ capacity registry.now types.now) }
    ensures most { IfOk result (λ n. n ≤ MOST_BLOCK_ROWS) }
    ensures rising { IsRisingBelow 256 types.now }
{
    let mut sizes = Vec::new(alloc);
    for ty in types.iter() {
        sizes.push(registry.column_size(ty))?;
    }
    Ok(chunk_layout::capacity(sizes.as_slice()))
}
