//! The operations that write into one row in its place.
ghost use Rattle.world_model.specs.Lawful.{ActSuits, Suits};
ghost use Rattle.world_model.specs.Part.{part_of as seen};
ghost use Rattle.world_model.specs.Operations.{On, Set, SetEnabled};
ghost use Rattle.std.specs.Prelude.{◌≡◌};
ghost use Rattle.structural_ops.specs.References.{HasReference, with_reference};
ghost use Rattle.structural_ops.specs.Worlds.{IsConsistent, GivesAlways, state_of};

use crate::World;
use crate::puts::put_values;
use crate::tables::Tables;
use ent_types::{Entity, Part, Skip, TypeId, Value};

pub(crate) fn set(w: &mut Tables, e: Entity, part: &Part) -> Result<(), Skip>
    requires consistent { IsConsistent w.old }
    requires suits { ActSuits w.old.registry (Set (seen part.now)) }
    ensures consistent { IsConsistent w.new }
    ensures gives { GivesAlways (state_of w.old) (state_of w.new) (On e (Set (seen part.now))) result }
{
    let Some(place) = w.table.place_of(e) else {
        return Err(Skip::NoEntity);
    };
    if !w.store.block(place.block).types().has(part.ty) {
        return Err(Skip::NoComponent);
    }
    put_values(w, place, part);
    Ok(())
}

pub(crate) fn set_enabled(w: &mut Tables, e: Entity, ty: TypeId, on: bool) -> Result<(), Skip>
    requires consistent { IsConsistent w.old }
    requires suits { ActSuits w.old.registry (SetEnabled ty.0 on) }
    ensures consistent { IsConsistent w.new }
    ensures gives { GivesAlways (state_of w.old) (state_of w.new) (On e (SetEnabled ty.0 on)) result }
{
    let Some(place) = w.table.place_of(e) else {
        return Err(Skip::NoEntity);
    };
    if !w.registry.is_enableable(ty) {
        return Err(Skip::NotEnableable);
    }
    if !w.store.block(place.block).types().has(ty) {
        return Err(Skip::NoComponent);
    }
    w.store.set_enabled(place.block, place.row, ty, on);
    w.store.mark(place.block, ty, w.version);
    Ok(())
}

pub(crate) fn put_ref(w: &mut Tables, e: Entity, ty: TypeId, field: u8, to: Entity)
    requires consistent { IsConsistent w.old }
    requires there { HasReference (state_of w.old).world e ty.0 field }
    ensures consistent { IsConsistent w.new }
    ensures puts { state_of w.new ≡ record (state_of w.old) { world = with_reference e ty.0 field to (state_of w.old).world } }
{
    match w.table.place_of(e) {
        Some(place) => {
            w.store
                .field_set(place.block, place.row, ty, field, Value::Ref(to));
            w.store.mark(place.block, ty, w.version);
        }
        None => unreachable!(),
    }
}

impl World {
    /// Replaces the values of a type that is neither shared nor a buffer, and marks it in the entity's block. It takes no memory. It
    /// is skipped as `NoEntity` if the entity isn't alive, else as `NoComponent` if it lacks the type.
    pub fn set(&mut self, e: Entity, part: &Part) -> Result<(), Skip>
        requires { Suits self.old.world.registry (On e (Set (seen part.now))) }
        ensures { GivesAlways self.old self.new (On e (Set (seen part.now))) result }
    {
        set(&mut self.tables, e, part)
    }

    /// Enables or disables a type, and marks it in the entity's block. It takes no memory. It is skipped as `NoEntity` if the entity
    /// isn't alive, else as `NotEnableable` if the type can't be disabled, else as `NoComponent` if the entity lacks it.
    pub fn set_enabled(&mut self, e: Entity, ty: TypeId, on: bool) -> Result<(), Skip>
        requires { Suits self.old.world.registry (On e (SetEnabled ty.0 on)) }
        ensures { GivesAlways self.old self.new (On e (SetEnabled ty.0 on)) result }
    {
        set_enabled(&mut self.tables, e, ty, on)
    }

    /// Replaces the reference in a field of a type that is neither shared nor a buffer, and marks the type in the entity's block. The
    /// entity is alive and has the type, and the field is a ref field. It takes no memory.
    pub fn put_ref(&mut self, e: Entity, ty: TypeId, field: u8, to: Entity)
        requires { HasReference self.old.world e ty.0 field }
        ensures { self.new ≡ record self.old { world = with_reference e ty.0 field to self.old.world } }
    {
        put_ref(&mut self.tables, e, ty, field, to);
    }
}
