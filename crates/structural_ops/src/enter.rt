//! How a row enters its block.
ghost use Rattle.std.specs.Prelude.{◌≡◌, ◌<◌, map, length, IfOk, OnErr, Some};
ghost use Rattle.world_model.specs.Part.{part_of as seen};
ghost use Rattle.archetype_store.specs.declared.numbers.TheConstants.{MOST_NUMBERS};
ghost use Rattle.archetype_store.specs.Stores.{OfBlock, Opens, types_at};
ghost use Rattle.world_rows.specs.Rows.{AreParts, row_from, shared_from};
ghost use Rattle.world_rows.specs.Entering.{AreWhole, Enters, IsOpen};

use crate::buffers::{prepare, put_all};
use crate::parts::shared_parts;
use crate::writes::{mark_types, write_types};
use archetype_store::{ArchetypeId, ArchetypeStore};
use ent_types::{Entity, Memory, Part, Registry, SystemVersion, TypeSet};
use entity_table::Place;
use std::alloc::Global;

/// What a row gets that enters a block.
#[derive(Clone, Copy)]
pub(crate) struct NewRow<'a> {
    pub(crate) entity: Entity,
    pub(crate) types: &'a TypeSet,
    /// A part for each type.
    pub(crate) parts: &'a [Part],
    /// The types that are disabled.
    pub(crate) off: &'a TypeSet,
    pub(crate) dying: bool,
}

/// Returns the number of the block that a row enters, which may be a new one. After `Memory` all is as before.
fn open_block(
    alloc: Global,
    store: &mut ArchetypeStore,
    registry: &Registry,
    a: ArchetypeId,
    types: &TypeSet,
    parts: &[Part],
) -> Result<u32, Memory>
    requires there { a < length store.old.archetypes }
    requires types { types_at store.old.archetypes a ≡ types.now }
    requires registered { store.old.registry ≡ Some registry.now }
    requires few { length store.old.blocks < MOST_NUMBERS }
    requires whole { AreWhole registry.now store.old.blocks }
    ensures ok { IfOk result (Opens store.old store.new a (shared_from registry.now types.now (map seen parts.now))) }
    ensures open { IfOk result (λ n. OfBlock n (IsOpen registry.now types.now) store.new.blocks) }
    ensures err { OnErr result (store.new ≡ store.old) }
{
    store.is_sound();
    let shared = shared_parts(alloc, registry, types, parts)?;
    store.place_for(a, &shared)
}

/// Lets a row enter the first block that has room for it, and marks every type and the order of that block. After `Memory` all is
/// as before.
pub(crate) fn enter(
    alloc: Global,
    store: &mut ArchetypeStore,
    registry: &Registry,
    a: ArchetypeId,
    new: NewRow<'_>,
    version: SystemVersion,
) -> Result<Place, Memory>
    requires there { a < length store.old.archetypes }
    requires types { types_at store.old.archetypes a ≡ new.types.now }
    requires registered { store.old.registry ≡ Some registry.now }
    requires parts { AreParts registry.now new.types.now (map seen new.parts.now) new.off.now }
    requires few { length store.old.blocks < MOST_NUMBERS }
    requires whole { AreWhole registry.now store.old.blocks }
    ensures ok { IfOk result (Enters store.old store.new a (shared_from registry.now new.entry.types.now (map seen new.entry.parts.now)) version.0
        (row_from registry.now new.entry.types.now (map seen new.entry.parts.now) new.entry.off.now new.entry.entity new.entry.dying)) }
    ensures err { OnErr result (store.new ≡ store.old) }
{
    // Its contract says that the types rise.
    let _ = new.types.len();
    let mut buffers = prepare(alloc, registry, new.types, new.parts)?;
    let number = open_block(alloc, store, registry, a, new.types, new.parts)?;
    store.is_sound();
    let row = store.push_row(number, new.entity);
    write_types(store, registry, number, row, new.types, new.parts, new.off);
    put_all(store, number, row, &mut buffers);
    store.set_dying(number, row, new.dying);
    mark_types(store, number, new.types, version);
    store.mark_order(number, version);
    Ok(Place { block: number, row })
}
