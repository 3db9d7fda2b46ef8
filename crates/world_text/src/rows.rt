//! The line of a row.
ghost use Rattle.std.specs.Prelude.{◌≡◌, ◌<◌, ◌++◌, [], true, false, codes, drop, length, OnOk, if◌then◌else◌};
ghost use Rattle.std.specs.List.{flat_map};
ghost use Rattle.ent_types.specs.Registries.{type_at};
ghost use Rattle.ent_types.specs.TypeLookups.{fields_at, is_buffer_at, is_shared_at};
ghost use Rattle.block_columns.specs.Types.{cell_in};
ghost use Rattle.chunk_block.specs.Blocks.{shape_of};
ghost use Rattle.archetype_store.specs.Stores.{OfNumber};
ghost use Rattle.world_model.specs.Fits.{Fits, IsKnown};
ghost use Rattle.world_model.specs.Members.{In};
ghost use Rattle.world_rows.specs.Reading.{CanRead, found_at};
ghost use Rattle.world_text.specs.Lines.{part_text, type_text, value_text, values_text};
ghost use Rattle.world_text.specs.ByPlace.{line_at};

use crate::pieces::{push_elements, push_entity, push_value, push_values};
use archetype_store::ArchetypeStore;
use block_columns::TypeRows;
use ent_types::{Registry, TypeId, TypeSet, Value};
use entity_table::Place;
use std::alloc::AllocError;

/// Returns what is before the name of a type.
fn before_name(off: bool) -> &'static [u8]
    ensures { result.now ≡ codes " " ++ (if off then codes "!" else []) }
{
    if off { b" !" } else { b" " }
}

/// Returns what is after the types of a row.
fn after_types(dying: bool) -> &'static [u8]
    ensures { result.now ≡ (if dying then codes " dying" else []) ++ codes "\n" }
{
    if dying { b" dying\n" } else { b"\n" }
}

/// Appends the name of a type, after `!` if the type is disabled.
fn push_name(
    line: &mut Vec<u8>,
    registry: &Registry,
    ty: TypeId,
    off: bool,
) -> Result<(), AllocError>
    requires { IsKnown registry.now ty.0 }
    ensures { OnOk result (line.new.items ≡ line.old.items ++ (codes " " ++ ((if off then codes "!" else []) ++ (type_at registry.now ty.0).name))) }
{
    line.extend_from_slice(before_name(off))?;
    line.extend_from_slice(registry.info(ty).name.as_bytes())
}

/// Appends what the rows of a block have of a shared type.
#[tactic(auto, unfolding(crate::specs::Lines::part_text))]
fn push_shared(
    line: &mut Vec<u8>,
    registry: &Registry,
    ty: TypeId,
    values: &[Value],
) -> Result<(), AllocError>
    requires known { IsKnown registry.now ty.0 }
    requires shared { is_shared_at registry.now ty.0 ≡ true }
    ensures { OnOk result (line.new.items ≡ line.old.items ++ part_text registry.now ty.0 false values.now) }
{
    push_name(line, registry, ty, false)?;
    push_values(line, values)
}

/// Appends the values of a row from the field `field` on, each after a comma.
fn push_further_fields(
    line: &mut Vec<u8>,
    rows: &TypeRows,
    row: u32,
    fields: u8,
) -> Result<(), AllocError>
    requires within { row < length rows.now.cells }
    requires plain { rows.now.shape.is_buffer ≡ false }
    requires kinds { length rows.now.shape.kinds ≡ fields }
    requires values { length (cell_in row rows.now.cells).values ≡ fields }
    ensures { OnOk result (line.new.items ≡ line.old.items ++ flat_map (λ v. codes "," ++ value_text v) (drop 1 (cell_in row rows.now.cells).values)) }
{
    for field in 1..fields {
        line.push(b',')?;
        push_value(line, rows.get(row, field))?;
    }
    Ok(())
}

/// Appends the values of a row in parentheses; nothing if the type has no fields.
#[tactic(auto, unfolding(crate::specs::Lines::values_text))]
fn push_fields(line: &mut Vec<u8>, rows: &TypeRows, row: u32, fields: u8) -> Result<(), AllocError>
    requires within { row < length rows.now.cells }
    requires plain { rows.now.shape.is_buffer ≡ false }
    requires kinds { length rows.now.shape.kinds ≡ fields }
    requires values { length (cell_in row rows.now.cells).values ≡ fields }
    ensures { OnOk result (line.new.items ≡ line.old.items ++ values_text (cell_in row rows.now.cells).values) }
{
    if fields == 0 {
        return Ok(());
    }
    line.push(b'(')?;
    push_value(line, rows.get(row, 0))?;
    push_further_fields(line, rows, row, fields)?;
    line.push(b')')?;
    Ok(())
}

/// Appends what a row has of a type of its own.
#[tactic(auto, unfolding(crate::specs::Lines::part_text))]
fn push_own(
    line: &mut Vec<u8>,
    registry: &Registry,
    ty: TypeId,
    rows: &TypeRows,
    row: u32,
) -> Result<(), AllocError>
    requires known { IsKnown registry.now ty.0 }
    requires within { row < length rows.now.cells }
    requires shape { rows.now.shape ≡ shape_of registry.now ty.0 }
    requires fit { Fits registry.now ty.0 (cell_in row rows.now.cells).values }
    ensures { OnOk result (line.new.items ≡ line.old.items ++ part_text registry.now ty.0 (cell_in row rows.now.cells).off (cell_in row rows.now.cells).values) }
{
    // Its contract says that a buffer type has fields.
    let _ = registry.types();
    push_name(line, registry, ty, !rows.enabled(row))?;
    let fields = registry.fields(ty).len();
    if registry.is_buffer(ty) {
        return push_elements(line, rows.elements_at(row).as_slice(), fields);
    }
    push_fields(line, rows, row, fields as u8)
}

/// Appends what a row has of a type, its own or its block's.
fn push_type(
    line: &mut Vec<u8>,
    store: &ArchetypeStore,
    registry: &Registry,
    place: Place,
    ty: TypeId,
) -> Result<(), AllocError>
    requires { OfNumber place.block (λ b. CanRead registry.now place.row b × In ty.0 b.block.types) store.now.blocks }
    ensures { OnOk result (OfNumber place.block (λ b. line.new.items ≡ line.old.items ++ type_text registry.now (found_at place.row b) ty.0) store.now.blocks) }
{
    if registry.is_shared(ty) {
        let values = store.shared_of(place.block, ty).as_slice();
        return push_shared(line, registry, ty, values);
    }
    match store.block(place.block).rows_of(ty) {
        Some(rows) => push_own(line, registry, ty, rows, place.row),
        None => unreachable!(),
    }
}

/// Appends what a row has of some types of its block.
fn push_types(
    line: &mut Vec<u8>,
    store: &ArchetypeStore,
    registry: &Registry,
    place: Place,
    types: &TypeSet,
) -> Result<(), AllocError>
    requires { OfNumber place.block (λ b. CanRead registry.now place.row b × (types.now ≡ b.block.types)) store.now.blocks }
    ensures { OnOk result (OfNumber place.block (λ b. line.new.items ≡ line.old.items ++ flat_map (type_text registry.now (found_at place.row b)) b.block.types) store.now.blocks) }
{
    for ty in types.iter() {
        push_type(line, store, registry, place, ty)?;
    }
    Ok(())
}

/// Appends the line of a row. Each of its types is looked up once in its block.
pub(crate) fn push_row(
    line: &mut Vec<u8>,
    store: &ArchetypeStore,
    registry: &Registry,
    place: Place,
) -> Result<(), AllocError>
    requires { OfNumber place.block (CanRead registry.now place.row) store.now.blocks }
    ensures { OnOk result (line.new.items ≡ line.old.items ++ line_at registry.now store.now.blocks place) }
{
    let block = store.block(place.block);
    push_entity(line, block.entity_at(place.row))?;
    push_types(line, store, registry, place, block.types())?;
    line.extend_from_slice(after_types(block.dying(place.row)))?;
    Ok(())
}
