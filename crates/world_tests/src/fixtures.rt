//! Types, parts, and entities of them.

use ent_types::{
    Entity, FieldInfo, FieldKind, Kind, Name, Part, Registry, Sequence, TypeId, TypeInfo, Value,
    Values,
};
use std::alloc::Global;
use structural_ops::World;

/// A plain type with an i32 and an i64 field.
pub const HEALTH: TypeId = TypeId(3);
/// A shared type with an i32 field.
pub const TEAM: TypeId = TypeId(4);
/// A buffer type with an i32 field.
pub const ITEMS: TypeId = TypeId(5);
/// A cleanup type with an i32 field.
pub const GRAVE: TypeId = TypeId(6);
/// A plain type with an i32 field that can be disabled.
pub const GLOW: TypeId = TypeId(7);
/// A plain type with a ref field.
pub const LINK: TypeId = TypeId(8);
/// A buffer type with a ref and an i32 field.
pub const PALS: TypeId = TypeId(9);

/// A type with fields of these kinds, named `a`, `b` ..
fn type_info(
    alloc: Global,
    name: &[u8],
    kind: Kind,
    kinds: &[FieldKind],
    enableable: bool,
) -> Option<TypeInfo> {
    let mut fields = Sequence::new(alloc);
    let mut letter = b'a';
    for kind in kinds {
        let field = FieldInfo {
            name: Name::of(&[letter])?,
            kind: *kind,
        };
        fields.push(field).ok()?;
        letter = letter.saturating_add(1);
    }
    Some(TypeInfo {
        name: Name::of(name)?,
        kind,
        fields,
        enableable,
    })
}

/// The registry with one type more, if it is well formed.
fn with_type(mut registry: Registry, info: TypeInfo) -> Option<Registry> {
    if !info.is_lawful() {
        return None;
    }
    registry.add(info).ok()?;
    Some(registry)
}

/// The registry of the types above.
fn registry(alloc: Global) -> Option<Registry> {
    let health = type_info(
        alloc,
        b"Health",
        Kind::Plain,
        &[FieldKind::I32, FieldKind::I64],
        false,
    )?;
    let team = type_info(alloc, b"Team", Kind::Shared, &[FieldKind::I32], false)?;
    let items = type_info(alloc, b"Items", Kind::Buffer, &[FieldKind::I32], false)?;
    let grave = type_info(alloc, b"Grave", Kind::Cleanup, &[FieldKind::I32], false)?;
    let glow = type_info(alloc, b"Glow", Kind::Plain, &[FieldKind::I32], true)?;
    let registry = with_type(Registry::new(alloc).ok()?, health)?;
    let registry = with_type(registry, team)?;
    let registry = with_type(registry, items)?;
    let registry = with_type(registry, grave)?;
    let registry = with_type(registry, glow)?;
    with_references(alloc, registry)
}

/// The registry with the types that have ref fields.
fn with_references(alloc: Global, registry: Registry) -> Option<Registry> {
    let link = type_info(alloc, b"Link", Kind::Plain, &[FieldKind::Ref], false)?;
    let pals = type_info(
        alloc,
        b"Pals",
        Kind::Buffer,
        &[FieldKind::Ref, FieldKind::I32],
        false,
    )?;
    with_type(with_type(registry, link)?, pals)
}

/// The world of these types, without an entity.
pub fn empty_world(alloc: Global) -> Option<World> {
    Some(World::new(alloc, registry(alloc)?, 1, 1))
}

/// A part with these numbers.
pub fn part(alloc: Global, ty: TypeId, numbers: &[i64]) -> Option<Part> {
    let mut values = Values::new(alloc);
    for number in numbers {
        values.push(Value::Int(*number)).ok()?;
    }
    Some(Part { ty, values })
}

/// Makes an entity with these parts, if they suit.
pub fn create(world: &mut World, parts: &[Part]) -> Option<Entity> {
    if !world.takes_all(parts) {
        return None;
    }
    world.create(parts).ok()
}

/// Parts with these numbers.
pub fn parts(alloc: Global, entries: &[(TypeId, &[i64])]) -> Option<Vec<Part>> {
    let mut list = Vec::new(alloc);
    for (ty, numbers) in entries {
        list.push(part(alloc, *ty, numbers)?).ok()?;
    }
    Some(list)
}

/// A world with an entity of these parts.
pub fn made(alloc: Global, entries: &[(TypeId, &[i64])]) -> Option<(World, Entity)> {
    let list = parts(alloc, entries)?;
    let mut world = empty_world(alloc)?;
    let e = create(&mut world, list.as_slice())?;
    Some((world, e))
}
