//! Tests of what the calls ask of parts, for parts that come from outside.
ghost use Rattle.std.specs.Prelude.{◌≡◌, ◌<◌, ◌↔◌, IsTrue, map};
ghost use Rattle.ent_types.specs.Fitting.{fits_elements, fits_field as kind_fits, fits_fields as fields_fit, fits_type};
ghost use Rattle.ent_types.specs.declared.limits.TheConstants.{MOST_TYPES};
ghost use Rattle.world_model.specs.Fits.{IsElement, IsFitting};
ghost use Rattle.world_model.specs.Lawful.{Suits};
ghost use Rattle.world_model.specs.Operations.{Create};
ghost use Rattle.world_model.specs.Part.{part_of as seen};
ghost use Rattle.structural_ops.specs.Suited.{fits_element, fits_part, parts_suit};

use crate::World;
use ent_types::limits::MOST_ELEMENTS;
use ent_types::{FieldInfo, FieldKind, Part, Registry, TypeInfo, TypeSet, Value};

/// Says whether a field of this kind may hold the value.
fn fits_field(kind: FieldKind, value: Value) -> bool
    ensures { result ≡ kind_fits kind value }
{
    match value {
        Value::Int(z) => match kind {
            FieldKind::I32 => z >= i64::from(i32::MIN) && z <= i64::from(i32::MAX),
            FieldKind::I64 => true,
            FieldKind::Ref => false,
        },
        Value::Ref(_) => kind.is_ref(),
    }
}

/// Says whether there is one value for each field, which the field may hold.
fn fits_fields(fields: &[FieldInfo], values: &[Value]) -> bool
    ensures { result ≡ fields_fit fields.now values.now }
{
    match fields.split_first() {
        None => values.is_empty(),
        Some((field, fields)) => match values.split_first() {
            None => false,
            Some((value, values)) => {
                fits_field(field.kind, *value) && fits_fields(fields, values)
            }
        },
    }
}

/// Says whether these are the values of at most so many elements.
fn fits_buffer(most: usize, fields: &[FieldInfo], values: &[Value]) -> bool
    ensures { result ≡ fits_elements most fields.now values.now }
{
    if values.is_empty() {
        return true;
    }
    if most == 0 {
        return false;
    }
    if values.len() < fields.len() {
        return false;
    }
    let (element, rest) = values.split_at(fields.len());
    if !fits_fields(fields, element) {
        return false;
    }
    fits_buffer(most - 1, fields, rest)
}

/// Says whether these are values of the type.
#[tactic(auto, unfolding(ent_types::specs::Fitting::fits_type))]
fn fits_values(info: &TypeInfo, values: &[Value]) -> bool
    ensures { result ≡ fits_type info.now values.now }
{
    if info.kind.is_buffer() {
        fits_buffer(MOST_ELEMENTS, info.fields.as_slice(), values)
    } else {
        fits_fields(info.fields.as_slice(), values)
    }
}

/// Says whether a part is of a known type and has values of it.
fn fits(registry: &Registry, part: &Part) -> bool
    ensures value { result ≡ fits_part registry.now (seen part.now) }
    ensures small { IsTrue result → part.now.ty.0 < MOST_TYPES }
{
    registry.knows(part.ty) && fits_values(registry.info(part.ty), part.values.as_slice())
}

/// Says whether a part is of a known buffer type, with the values of one element.
fn is_element(registry: &Registry, part: &Part) -> bool
    ensures { result ≡ fits_element registry.now (seen part.now) }
{
    registry.knows(part.ty)
        && registry.is_buffer(part.ty)
        && fits_fields(registry.fields(part.ty), part.values.as_slice())
}

/// Says whether all parts fit, and are of types that aren't taken, each of another type.
fn are_suited(registry: &Registry, parts: &[Part], taken: &TypeSet) -> bool
    ensures { result ≡ parts_suit registry.now taken.now (map seen parts.now) }
{
    let Some((part, rest)) = parts.split_first() else {
        return true;
    };
    if !fits(registry, part) {
        return false;
    }
    if taken.has(part.ty) {
        return false;
    }
    are_suited(registry, rest, &taken.with(part.ty))
}

impl World {
    /// Says whether a part is of a known type, with values that fit it. Each call that takes a part asks this, and some ask more of
    /// its type.
    pub fn takes(&self, part: &Part) -> bool
        ensures { IsTrue result ↔ IsFitting self.now.world.registry (seen part.now) }
    {
        fits(&self.tables.registry, part)
    }

    /// Says whether a part is of a known buffer type, with the values of one element. `append` asks this.
    pub fn takes_element(&self, part: &Part) -> bool
        ensures { IsTrue result ↔ IsElement self.now.world.registry (seen part.now) }
    {
        is_element(&self.tables.registry, part)
    }

    /// Says whether an entity can have these parts: each fits, and no two are of one type. `create` asks this.
    pub fn takes_all(&self, parts: &[Part]) -> bool
        ensures { IsTrue result ↔ Suits self.now.world.registry (Create (map seen parts.now)) }
    {
        are_suited(&self.tables.registry, parts, &TypeSet::empty())
    }
}
