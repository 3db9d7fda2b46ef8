//! Parts by their types.
ghost use Rattle.std.specs.Prelude.{◌≡◌, ◌<◌, ◌++◌, ◌∷◌, [], map, IfOk, OnOk, if◌then◌else◌};
ghost use Rattle.ent_types.specs.TypeLookups.{is_shared_at};
ghost use Rattle.world_model.specs.Part.{part_of as seen};
ghost use Rattle.world_rows.specs.Rows.{values_at, part_from, shared_from};

use ent_types::{Memory, Part, Registry, TypeId, TypeSet, Value, Values};
use std::alloc::Global;

/// Returns the values of a type among some parts; none if no part is of that type.
pub(crate) fn values_of(parts: &[Part], ty: TypeId) -> &[Value]
    ensures { result.now ≡ values_at ty.0 (map seen parts.now) }
{
    match parts.split_first() {
        None => &[],
        Some((part, rest)) => {
            if part.ty == ty {
                part.values.as_slice()
            } else {
                values_of(rest, ty)
            }
        }
    }
}

/// Returns a part with a copy of some values.
pub(crate) fn new_part(alloc: Global, ty: TypeId, values: &[Value]) -> Result<Part, Memory>
    ensures { IfOk result (λ p. seen p ≡ record { type_id = ty.0; values = values.now }) }
{
    let values = Values::from_slice(alloc, values)?;
    Ok(Part { ty, values })
}

/// Adds a copy of the part of a type, if the type is shared.
fn add_shared(
    alloc: Global,
    registry: &Registry,
    parts: &[Part],
    ty: TypeId,
    shared: &mut Vec<Part>,
) -> Result<(), Memory>
    ensures { OnOk result (map seen shared.new.items ≡ (if is_shared_at registry.now ty.0
        then map seen shared.old.items ++ part_from (map seen parts.now) ty.0 ∷ []
        else map seen shared.old.items)) }
{
    if !registry.is_shared(ty) {
        return Ok(());
    }
    let part = new_part(alloc, ty, values_of(parts, ty))?;
    shared.push(part)?;
    Ok(())
}

/// Returns copies of the parts of the shared types among some types, by rising type.
pub(crate) fn shared_parts(
    alloc: Global,
    registry: &Registry,
    types: &TypeSet,
    parts: &[Part],
) -> Result<Vec<Part>, Memory>
    ensures { IfOk result (λ shared. map seen shared.items ≡ shared_from registry.now types.now (map seen parts.now)) }
{
    let mut shared = Vec::new(alloc);
    for ty in types.iter() {
        add_shared(alloc, registry, parts, ty, &mut shared)?;
    }
    Ok(shared)
}
