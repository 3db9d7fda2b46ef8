//! Shared values that blocks hold by their ids.
ghost use Rattle.std.specs.Prelude.{◌≡◌, ℕ, List, ◌+◌, ◌≤◌, [], ◌∷◌, ◌++◌, map, length, IfOk, OnOk, OnErr, IsSome, Some, option_map, vec_capacity};
ghost use Rattle.world_model.specs.Part.{part_of as seen_part};
ghost use Rattle.world_model.specs.Found.{part_at};
ghost use Rattle.archetype_store.specs.Holding.{AddsIds, AreIdsFor, AreTyped, Backs, Holds, Releases, ids_of, parts_of};

use ent_types::{Memory, Part, TypeId, Values};
use shared_values::{SharedId, SharedTable};
use std::alloc::Global;

/// The values that a block has for a shared type.
#[derive(Clone, Copy)]
pub(crate) struct SharedPart {
    pub(crate) ty: TypeId,
    pub(crate) id: SharedId,
}

/// Holds the values of some parts, for which the list has room, and adds their ids to the list. After `Memory` the list has
/// those that are held.
fn hold_in(
    table: &mut SharedTable,
    parts: &[Part],
    held: &mut Vec<SharedPart>,
) -> Result<(), Memory>
    requires { length held.old.items + length parts.now ≤ vec_capacity held.old }
    ensures held { (others : List ℕ) → Backs table.old (ids_of held.old.items ++ others) → Holds table.old table.new held.old.items held.new.items others }
    ensures typed { Backs table.old (ids_of held.old.items) → AreTyped table.old held.old.items → AreTyped table.new held.new.items }
    ensures ok { OnOk result ((others : List ℕ) → Backs table.old (ids_of held.old.items ++ others) → parts_of table.new held.new.items ≡ parts_of table.old held.old.items ++ map seen_part parts.now) }
{
    match parts.split_first() {
        None => Ok(()),
        Some((part, rest)) => {
            let id = table.intern(part.ty, &part.values)?;
            held.push_reserved(SharedPart { ty: part.ty, id });
            hold_in(table, rest, held)
        }
    }
}

/// Releases the values of some parts. It takes no memory.
pub(crate) fn release_all(table: &mut SharedTable, held: &[SharedPart])
    requires { Backs table.old (ids_of held.now) }
    ensures { Releases table.old table.new held.now }
{
    match held.split_first() {
        None => {}
        Some((part, rest)) => {
            table.release(part.id);
            release_all(table, rest);
        }
    }
}

/// Holds the values of some parts, and returns their ids. After `Memory` nothing more is held than before.
pub(crate) fn hold_all(
    alloc: Global,
    table: &mut SharedTable,
    parts: &[Part],
) -> Result<Vec<SharedPart>, Memory>
    ensures ok { IfOk result (λ held. (others : List ℕ) → Backs table.old others → Holds table.old table.new [] held.items others) }
    ensures parts { IfOk result (λ held. parts_of table.new held.items ≡ map seen_part parts.now) }
    ensures typed { IfOk result (λ held. AreTyped table.new held.items) }
    ensures err { OnErr result ((others : List ℕ) → Backs table.old others → Holds table.old table.new [] [] others) }
{
    let mut held = Vec::with_capacity(alloc, parts.len())?;
    match hold_in(table, parts, &mut held) {
        Ok(()) => Ok(held),
        Err(fault) => {
            release_all(table, &held);
            Err(fault)
        }
    }
}

/// Returns the values of a type, which has a part.
pub(crate) fn values_in<'a>(table: &'a SharedTable, held: &[SharedPart], ty: TypeId) -> &'a Values
    requires backs { Backs table.now (ids_of held.now) }
    requires there { IsSome (part_at ty.0 (parts_of table.now held.now)) }
    ensures { part_at ty.0 (parts_of table.now held.now) ≡ Some result.now }
{
    match held.split_first() {
        None => unreachable!(),
        Some((part, rest)) => {
            if part.ty == ty {
                table.values_of(part.id)
            } else {
                values_in(table, rest, ty)
            }
        }
    }
}

/// Adds the ids that are held for the values of some parts to a list, which has room for them. `false` is returned if and only if
/// some of the values aren't held.
fn find_in(table: &SharedTable, parts: &[Part], ids: &mut Vec<SharedId>) -> Result<bool, Memory>
    requires { length ids.old.items + length parts.now ≤ vec_capacity ids.old }
    ensures { IfOk result (λ all. AddsIds table.now (map seen_part parts.now) ids.old.items ids.new.items all) }
{
    match parts.split_first() {
        None => Ok(true),
        Some((part, rest)) => match table.find(part.ty, &part.values)? {
            None => Ok(false),
            Some(id) => {
                ids.push_reserved(id);
                find_in(table, rest, ids)
            }
        },
    }
}

/// Returns the ids that are held for the values of some parts, or `None` if and only if some of the values aren't held.
pub(crate) fn find_ids(
    alloc: Global,
    table: &SharedTable,
    parts: &[Part],
) -> Result<Option<Vec<SharedId>>, Memory>
    ensures { IfOk result (λ found. AreIdsFor table.now (map seen_part parts.now) (option_map (λ ids. ids.items) found)) }
{
    let mut ids = Vec::with_capacity(alloc, parts.len())?;
    if find_in(table, parts, &mut ids)? {
        Ok(Some(ids))
    } else {
        Ok(None)
    }
}
