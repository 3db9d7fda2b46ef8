//! The types of the example.
use crate::fault::Fault;
use ent_types::{FieldInfo, FieldKind, Kind, Name, Registry, Sequence, TypeId, TypeInfo};
use std::alloc::Global;

/// A plain type with an i64 field. The first type that is declared has the number 3.
pub const POSITION: TypeId = TypeId(3);
/// Another one.
pub const SPEED: TypeId = TypeId(4);

/// Returns a name, if the bytes are one.
fn name_of(bytes: &[u8]) -> Result<Name, Fault> {
    match Name::of(bytes) {
        Some(name) => Ok(name),
        None => Err(Fault::Unfit),
    }
}

/// Returns a plain type with the i64 field `v`.
fn plain(alloc: Global, name: &[u8]) -> Result<TypeInfo, Fault> {
    let mut fields = Sequence::new(alloc);
    fields.push(FieldInfo {
        name: name_of(b"v")?,
        kind: FieldKind::I64,
    })?;
    Ok(TypeInfo {
        name: name_of(name)?,
        kind: Kind::Plain,
        fields,
        enableable: false,
    })
}

/// Declares a type, if it is well formed.
fn declare(registry: &mut Registry, info: TypeInfo) -> Result<(), Fault> {
    if !info.is_lawful() {
        return Err(Fault::Unfit);
    }
    match registry.add(info) {
        Ok(_) => Ok(()),
        Err(_) => Err(Fault::Unfit),
    }
}

/// Returns the registry of the example's types.
pub fn types(alloc: Global) -> Result<Registry, Fault> {
    let mut registry = Registry::new(alloc)?;
    declare(&mut registry, plain(alloc, b"Position")?)?;
    declare(&mut registry, plain(alloc, b"Speed")?)?;
    Ok(registry)
}
