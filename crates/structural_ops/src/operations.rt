//! The operations.
ghost use Rattle.std.specs.Prelude.{◌≡◌, ℕ, ◌<◌, map};
ghost use Rattle.ent_types.specs.declared.limits.TheConstants.{MOST_TYPES};
ghost use Rattle.world_model.specs.Lawful.{ActSuits, Suits};
ghost use Rattle.world_model.specs.Members.{In};
ghost use Rattle.world_model.specs.Part.{part_of as seen, part_type};
ghost use Rattle.world_model.specs.Operations.{Create, On, Destroy, Add, Remove, SetShared, Instantiate};
ghost use Rattle.world_rows.specs.Types.{set_of, cleanup_types, copied_types};
ghost use Rattle.structural_ops.specs.Worlds.{IsConsistent, Gives, state_of, made, done};

use crate::OpFault;
use crate::puts::{put_buffer, put_values};
use crate::reading::{disabled_in, read_parts};
use crate::steps::{end, keep, share, take};
use crate::tables::{Tables, make};
use ent_types::{Entity, Part, Registry, Skip, TypeId, TypeSet};

/// Returns the types of some parts.
fn types_of(parts: &[Part]) -> TypeSet
    requires { (t : ℕ) → In t (map (λ p. part_type (seen p)) parts.now) → t < MOST_TYPES }
    ensures { result ≡ set_of (map (λ p. part_type (seen p)) parts.now) }
{
    match parts.split_first() {
        None => TypeSet::empty(),
        Some((part, rest)) => types_of(rest).with(part.ty),
    }
}

/// Returns the cleanup types among some types.
fn cleanup_among(registry: &Registry, types: &TypeSet) -> TypeSet
    ensures { result ≡ cleanup_types registry.now types.now }
{
    let mut cleanup = *types;
    for ty in types.iter() {
        if !registry.is_cleanup(ty) {
            cleanup = cleanup.without(ty);
        }
    }
    cleanup
}

/// Returns the types among some types that a copy of a row has.
fn copied_among(registry: &Registry, types: &TypeSet) -> TypeSet
    ensures { result ≡ copied_types registry.now types.now }
{
    let mut copied = types.without(TypeId::PREFAB);
    for ty in types.iter() {
        if registry.is_cleanup(ty) {
            copied = copied.without(ty);
        }
    }
    copied
}

pub(crate) fn create(w: &mut Tables, parts: &[Part]) -> Result<Entity, OpFault>
    requires consistent { IsConsistent w.old }
    requires suits { Suits w.old.registry (Create (map seen parts.now)) }
    ensures consistent { IsConsistent w.new }
    ensures gives { Gives (state_of w.old) (state_of w.new) (Create (map seen parts.now)) (made result) }
{
    let types = types_of(parts);
    make(w, &types, parts, &TypeSet::empty())
}

pub(crate) fn instantiate(w: &mut Tables, e: Entity) -> Result<Entity, OpFault>
    requires consistent { IsConsistent w.old }
    ensures consistent { IsConsistent w.new }
    ensures gives { Gives (state_of w.old) (state_of w.new) (On e Instantiate) (made result) }
{
    let Some(place) = w.table.place_of(e) else {
        return Err(OpFault::Skip(Skip::NoEntity));
    };
    let types = copied_among(&w.registry, w.store.block(place.block).types());
    let mut parts = Vec::new(w.alloc);
    read_parts(w.alloc, &w.store, &w.registry, place, &types, &mut parts)?;
    let off = disabled_in(&w.store, place, &types);
    make(w, &types, &parts, &off)
}

pub(crate) fn destroy(w: &mut Tables, e: Entity) -> Result<(), OpFault>
    requires consistent { IsConsistent w.old }
    ensures consistent { IsConsistent w.new }
    ensures gives { Gives (state_of w.old) (state_of w.new) (On e Destroy) (done result) }
{
    let Some(place) = w.table.place_of(e) else {
        return Err(OpFault::Skip(Skip::NoEntity));
    };
    let types = *w.store.block(place.block).types();
    let cleanup = cleanup_among(&w.registry, &types);
    if cleanup.is_empty() {
        end(w, e, place);
        return Ok(());
    }
    if cleanup == types {
        w.store.set_dying(place.block, place.row, true);
        return Ok(());
    }
    keep(w, e, place, &cleanup, true)
}

pub(crate) fn remove(w: &mut Tables, e: Entity, ty: TypeId) -> Result<(), OpFault>
    requires consistent { IsConsistent w.old }
    requires suits { ActSuits w.old.registry (Remove ty.0) }
    ensures consistent { IsConsistent w.new }
    ensures gives { Gives (state_of w.old) (state_of w.new) (On e (Remove ty.0)) (done result) }
{
    let Some(place) = w.table.place_of(e) else {
        return Err(OpFault::Skip(Skip::NoEntity));
    };
    let block = w.store.block(place.block);
    let types = *block.types();
    let dying = block.dying(place.row);
    if !types.has(ty) {
        return Ok(());
    }
    let rest = types.without(ty);
    if dying && rest.is_empty() {
        end(w, e, place);
        return Ok(());
    }
    keep(w, e, place, &rest, dying)
}

pub(crate) fn add(w: &mut Tables, e: Entity, part: &Part) -> Result<(), OpFault>
    requires consistent { IsConsistent w.old }
    requires suits { ActSuits w.old.registry (Add (seen part.now)) }
    ensures consistent { IsConsistent w.new }
    ensures gives { Gives (state_of w.old) (state_of w.new) (On e (Add (seen part.now))) (done result) }
{
    let Some(place) = w.table.place_of(e) else {
        return Err(OpFault::Skip(Skip::NoEntity));
    };
    if !w.store.block(place.block).types().has(part.ty) {
        return take(w, e, place, part);
    }
    if w.registry.is_shared(part.ty) {
        return share(w, e, place, part);
    }
    if w.registry.is_buffer(part.ty) {
        return Ok(put_buffer(w, place, part)?);
    }
    put_values(w, place, part);
    Ok(())
}

pub(crate) fn set_shared(w: &mut Tables, e: Entity, part: &Part) -> Result<(), OpFault>
    requires consistent { IsConsistent w.old }
    requires suits { ActSuits w.old.registry (SetShared (seen part.now)) }
    ensures consistent { IsConsistent w.new }
    ensures gives { Gives (state_of w.old) (state_of w.new) (On e (SetShared (seen part.now))) (done result) }
{
    let Some(place) = w.table.place_of(e) else {
        return Err(OpFault::Skip(Skip::NoEntity));
    };
    if !w.store.block(place.block).types().has(part.ty) {
        return Err(OpFault::Skip(Skip::NoComponent));
    }
    share(w, e, place, part)
}
