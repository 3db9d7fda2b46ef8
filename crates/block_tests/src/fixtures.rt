//! Types to try, and a block of them.
ghost use Rattle.std.specs.Prelude.{IfOk};
ghost use Rattle.chunk_block.specs.Blocks.{IsWhole};

use chunk_block::Block;
use ent_types::{
    Entity, FieldInfo, FieldKind, Kind, Memory, Name, Registry, RegistryFault, Sequence, TypeId,
    TypeInfo, TypeSet,
};
use std::alloc::Global;
use std::test::Fail;

/// A plain type with an i32, an i64 and a ref field, enableable.
pub const PLACE: TypeId = TypeId(3);

/// A buffer type. An element is a number and a reference.
pub const ITEMS: TypeId = TypeId(4);

/// A tag, enableable.
pub const TAG: TypeId = TypeId(5);

/// A shared type.
pub const TEAM: TypeId = TypeId(6);

/// The fields of `PLACE`.
pub const X: u8 = 0;

pub const TOTAL: u8 = 1;

pub const TARGET: u8 = 2;

/// Returns the entity with this index and version 1.
pub fn entity(index: u32) -> Entity {
    Entity { index, version: 1 }
}

/// Returns fields a, b and so on of these kinds.
fn fields_of(alloc: Global, kinds: &[FieldKind]) -> Result<Sequence<FieldInfo>, Memory> {
    let mut fields = Sequence::new(alloc);
    let mut letter = b'a';
    for kind in kinds {
        if let Some(name) = Name::of(&[letter]) {
            fields.push(FieldInfo { name, kind: *kind })?;
        }
        letter = letter.wrapping_add(1);
    }
    Ok(fields)
}

/// Declares a type.
pub fn declare(
    alloc: Global,
    registry: &mut Registry,
    name: &[u8],
    kind: Kind,
    kinds: &[FieldKind],
    enableable: bool,
) -> Result<(), Fail> {
    let info = TypeInfo {
        name: Name::of(name).ok_or("not a name")?,
        kind,
        fields: fields_of(alloc, kinds)?,
        enableable,
    };
    if info.is_lawful() {
        registry.add(info)?;
    }
    Ok(())
}

/// Declares the types after the built-in ones.
fn declare_all(alloc: Global, registry: &mut Registry) -> Result<(), Fail> {
    let place = [FieldKind::I32, FieldKind::I64, FieldKind::Ref];
    let items = [FieldKind::I32, FieldKind::Ref];
    declare(alloc, registry, b"Place", Kind::Plain, &place, true)?;
    declare(alloc, registry, b"Items", Kind::Buffer, &items, false)?;
    declare(alloc, registry, b"Tag", Kind::Tag, &[], true)?;
    declare(
        alloc,
        registry,
        b"Team",
        Kind::Shared,
        &[FieldKind::I32],
        false,
    )
}

/// Returns the set of all declared types.
fn all_types() -> TypeSet {
    TypeSet::empty()
        .with(PLACE)
        .with(ITEMS)
        .with(TAG)
        .with(TEAM)
}

/// Returns a block of all types with no row.
fn block_of(alloc: Global, registry: &Registry) -> Result<Block, Fail>
    ensures { IfOk result (λ b. IsWhole b.columns) }
{
    Ok(Block::new(alloc, registry, &all_types())?)
}

/// Returns a block of all types with no row.
pub fn block(alloc: Global) -> Result<Block, Fail>
    ensures { IfOk result (λ b. IsWhole b.columns) }
{
    let mut registry = Registry::new(alloc)?;
    declare_all(alloc, &mut registry)?;
    block_of(alloc, &registry)
}

/// Adds a row, if there is room.
pub fn push(block: &mut Block, index: u32) -> bool
    requires { IsWhole block.old.columns }
    ensures { IsWhole block.new.columns }
{
    if block.len() < block.capacity() {
        block.push_row(entity(index));
        return true;
    }
    false
}

/// Adds rows of the entities with indexes below `count`, as many as there is room for.
pub fn push_rows(block: &mut Block, count: u32)
    requires { IsWhole block.old.columns }
    ensures { IsWhole block.new.columns }
{
    for index in 0..count {
        push(block, index);
    }
}

/// Returns a block with rows of the entities with indexes below `count`, as many as there is room for.
pub fn filled(alloc: Global, count: u32) -> Result<Block, Fail>
    ensures { IfOk result (λ b. IsWhole b.columns) }
{
    let mut block = block(alloc)?;
    push_rows(&mut block, count);
    Ok(block)
}
