//! Queries: which rows a system takes.
ghost use Rattle.std.specs.Prelude.{◌≡◌, ◌≤◌, ◌<◌, ℕ, List, Bool, ◌&&◌, ◌||◌, not, nat_lt, map, length};
ghost use Rattle.std.specs.List.{list_all, list_any};
ghost use Rattle.ent_types.specs.declared.limits.TheConstants.{MOST_TYPES};
ghost use Rattle.ent_types.specs.declared.type_info.TypeInfo.{TypeInfo};
ghost use Rattle.ent_types.specs.declared.value.Value.{Value};
ghost use Rattle.ent_types.specs.TypeLookups.{is_enableable_at};
ghost use Rattle.ent_types.specs.TypeSets.{has_type, is_subset_of, meets};
ghost use Rattle.enable_bits.specs.Masks.{has, places_where, IsMask};
ghost use Rattle.world_model.specs.Members.{In};
ghost use Rattle.world_model.specs.Part.{PartOf};
ghost use Rattle.chunk_block.specs.Blocks.{IsWhole, new_types};
ghost use Rattle.archetype_store.specs.Stores.{shape_list};
ghost use Rattle.run_model.specs.Query.{are_tags_seen, is_empty, is_seen, passes};
ghost use Rattle.query_select.specs.declared.filter.Filter.{Filter};
ghost use Rattle.query_select.specs.Entries.{entry_of, unfiltered};
ghost use Rattle.query_select.specs.Rows.{is_off_in, is_on_in, matching_places};

use chunk_block::Block;
use enable_bits::Mask;
use ent_types::{TypeId, TypeSet};

/// Which rows a system takes (Unity's `EntityQuery`).
///
/// A type is on in a row if the row has it and it isn't disabled there. No type is in two of the sets, and the types of `disabled`
/// can be disabled.
///
/// ```text
/// let moving = Query { all: both, any: none, none: none, disabled: none, absent: none,
///     include_disabled: false, include_prefab: false };
/// assert!(moving.matches_types(block.types(), &enableable));
/// let rows = moving.row_mask(block);
/// ```
#[derive(Clone, Copy, Debug)]
pub struct Query {
    /// Each of these types is on in a row that matches.
    pub all: TypeSet,
    /// One of these types is on, unless there are none.
    pub any: TypeSet,
    /// No type of these is on.
    pub none: TypeSet,
    /// The row has each of these types, disabled.
    pub disabled: TypeSet,
    /// The row has no type of these.
    pub absent: TypeSet,
    /// Whether rows with the tag `Disabled` match. They do too if `all` or `any` names the tag.
    pub include_disabled: bool,
    /// Whether rows with the tag `Prefab` match. They do too if `all` or `any` names the tag.
    pub include_prefab: bool,
}

/// Returns the rows of a block in which a type is disabled.
fn disabled_rows(block: &Block, ty: TypeId) -> Mask
    requires { IsWhole block.now.columns }
    ensures { (k : ℕ) → has result k ≡ is_off_in block.now k ty.0 }
{
    match block.rows_of(ty) {
        None => Mask::empty(),
        Some(rows) => {
            if rows.shape().enableable {
                rows.disabled()
            } else {
                Mask::empty()
            }
        }
    }
}

/// Returns all rows of a block.
fn all_rows(block: &Block) -> Mask
    ensures rows { result ≡ places_where (λ k. nat_lt k (length block.now.rows)) }
    ensures few { length block.now.rows ≤ 128 }
{
    // Its contract says that a mask has a place for each row.
    let _ = block.capacity();
    Mask::first(block.len())
}

/// Returns those of some rows of a block in which no type of a set is disabled.
fn without_disabled(block: &Block, types: &TypeSet, rows: Mask) -> Mask
    requires whole { IsWhole block.now.columns }
    requires mask { IsMask rows }
    ensures mask { IsMask result }
    ensures rows { (k : ℕ) → k < 128 → has result k ≡ (has rows k && list_all (λ t. not (is_off_in block.now k t)) types.now) }
{
    let mut left = rows;
    for ty in types.iter() {
        left = left.and_not(&disabled_rows(block, ty));
    }
    left
}

/// Returns those of some rows of a block in which no type of a set is on.
fn without_any_on(block: &Block, types: &TypeSet, rows: Mask) -> Mask
    requires whole { IsWhole block.now.columns }
    requires mask { IsMask rows }
    ensures mask { IsMask result }
    ensures rows { (k : ℕ) → k < 128 → has result k ≡ (has rows k && not (list_any (is_on_in block.now k) types.now)) }
{
    let mut left = rows;
    for ty in types.iter() {
        if block.types().has(ty) {
            left = left.and(&disabled_rows(block, ty));
        }
    }
    left
}

/// `true` if each of some types that is among others is enableable.
fn can_be_disabled(some: &TypeSet, types: &TypeSet, enableable: &TypeSet) -> bool
    ensures { result ≡ not (list_any (λ t. has_type types.now t && not (has_type enableable.now t)) some.now) }
{
    for ty in some.iter() {
        if types.has(ty) && !enableable.has(ty) {
            return false;
        }
    }
    true
}

impl Query {
    /// `true` if a tag hides no row with these types.
    fn sees(&self, tag: TypeId, included: bool, types: &TypeSet) -> bool
        requires { tag.0 < MOST_TYPES }
        ensures { result ≡ is_seen (unfiltered self.now) tag included types.now }
    {
        !types.has(tag) || included || self.all.has(tag) || self.any.has(tag)
    }

    /// `true` if a row with these types can match, as far as the types alone decide, whatever is disabled.
    fn admits(&self, types: &TypeSet) -> bool
        ensures { result ≡ (is_subset_of self.now.all types.now && (is_subset_of self.now.disabled types.now
            && (not (meets self.now.absent types.now) && are_tags_seen (unfiltered self.now) types.now))) }
    {
        self.all.is_subset(types)
            && self.disabled.is_subset(types)
            && !self.absent.meets(types)
            && self.sees(TypeId::DISABLED, self.include_disabled, types)
            && self.sees(TypeId::PREFAB, self.include_prefab, types)
    }

    /// `true` if one of the types of `any` is among these types, or `any` has none.
    fn has_any(&self, types: &TypeSet) -> bool
        ensures { result ≡ (is_empty self.now.any || meets self.now.any types.now) }
    {
        self.any.is_empty() || self.any.meets(types)
    }

    /// `true` if a row with these types matches for some choice of what is disabled in it. `enableable` has the types of `none`
    /// that can be disabled; others don't count.
    pub fn matches_types(&self, types: &TypeSet, enableable: &TypeSet) -> bool
        ensures { (registry : List TypeInfo) → ((t : ℕ) → In t self.now.none → has_type enableable.now t ≡ is_enableable_at registry t)
            → result ≡ passes registry (unfiltered self.now) types.now }
    {
        self.admits(types) && self.has_any(types) && can_be_disabled(&self.none, types, enableable)
    }

    /// Returns the rows of a block that match. Nothing of the block may be lent.
    ///
    /// It takes whole words of the masks of disabled rows, one look at the block for each type of the query.
    pub fn row_mask(&self, block: &Block) -> Mask
        requires { IsWhole block.now.columns }
        ensures { (registry : List TypeInfo) (filter : Filter) (shared : List (PartOf Value))
            → shape_list block.now.columns ≡ shape_list (new_types registry block.now.types)
            → result ≡ matching_places registry (entry_of self.now filter) (record { types = block.now.types; shared = shared }) block.now.rows }
    {
        if !self.admits(block.types()) {
            return Mask::empty();
        }
        let rows = without_disabled(block, &self.all, all_rows(block));
        let rows = without_any_on(block, &self.none, rows);
        let rows = without_any_on(block, &self.disabled, rows);
        if self.any.is_empty() {
            return rows;
        }
        rows.and_not(&without_any_on(block, &self.any, rows))
    }
}
