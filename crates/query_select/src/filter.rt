//! Filters: which blocks a system visits.
ghost use Rattle.std.specs.Prelude.{◌≡◌, ◌&&◌, ℕ, [], not, map};
ghost use Rattle.std.specs.List.{list_any};
ghost use Rattle.system_version.specs.Versions.{is_later};
ghost use Rattle.world_model.specs.Members.{AreDistinct, In};
ghost use Rattle.world_model.specs.Part.{part_of, same_part};
ghost use Rattle.world_model.specs.World.{Home, mark_type};
ghost use Rattle.chunk_block.specs.Blocks.{mark_at};
ghost use Rattle.archetype_store.specs.Stores.{OfNumber};
ghost use Rattle.world_places.specs.Placing.{home_of};
ghost use Rattle.run_model.specs.Clock.{versions};
ghost use Rattle.run_model.specs.Query.{has_shared, is_empty, is_fresh};
ghost use Rattle.query_select.specs.Entries.{last_run, only_filter};
ghost use Rattle.query_select.specs.Filters.{CanCompare, CanCompareAll, CanFilter, passes_filter};

use archetype_store::ArchetypeStore;
use chunk_block::Block;
use ent_types::{Part, Parts, SystemVersion, TypeSet};

/// Which blocks a system visits.
#[derive(Debug, Drop)]
pub struct Filter {
    /// If there are some, only blocks in which one of these types was written since the last run. The query has them in `all`.
    pub changed: TypeSet,
    /// Whether to visit blocks to which rows came or from which rows left since the last run. Without `changed` no others are visited.
    pub order: bool,
    /// The values of shared types that a block has. The query has these types in `all`.
    pub shared: Parts,
}

/// `true` if one of some types of a block was marked after a version.
fn any_changed(block: &Block, types: &TypeSet, last: SystemVersion) -> bool
    ensures { result ≡ list_any (λ t. is_later (mark_at t block.now.marks) last.0) types.now }
{
    for ty in types.iter() {
        if block.changed(ty).did_change(last) {
            return true;
        }
    }
    false
}

/// `true` if a block has the values of a part.
fn has_part(store: &ArchetypeStore, number: u32, part: &Part) -> bool
    requires { OfNumber number (CanCompare part.now) store.now.blocks }
    ensures { OfNumber number (λ b. result ≡ list_any (same_part (part_of part.now)) b.shared) store.now.blocks }
{
    *part.values.as_slice() == *store.shared_of(number, part.ty).as_slice()
}

impl Filter {
    /// `true` if the change filter names no type and doesn't ask for the order.
    fn asks_for_nothing(&self) -> bool
        ensures { result ≡ (is_empty self.now.changed && not self.now.order) }
    {
        self.changed.is_empty() && !self.order
    }

    /// `true` if the change filter lets a block pass: if it names nothing, if the system never ran, or if a type that it names, or
    /// the order if it asks for it, was marked after the last run.
    fn is_fresh(&self, block: &Block, last: SystemVersion) -> bool
        requires once { AreDistinct (map mark_type block.now.marks) }
        requires marked { (t : ℕ) → In t self.now.changed → In t (map mark_type block.now.marks) }
        ensures { (home : Home) → result ≡ is_fresh [] versions (only_filter self.now) (last_run last.0)
            (record { home = home; marks = block.now.marks; rows = block.now.rows; order = block.now.order }) }
    {
        if last.0 == 0 || self.asks_for_nothing() {
            return true;
        }
        any_changed(block, &self.changed, last)
            || (self.order && block.order_version().did_change(last))
    }

    /// `true` if a block has the values of the shared types.
    fn has_shared(&self, store: &ArchetypeStore, number: u32) -> bool
        requires { OfNumber number (CanCompareAll self.now.shared) store.now.blocks }
        ensures { OfNumber number (λ b. result ≡ has_shared (only_filter self.now) (home_of b)) store.now.blocks }
    {
        for part in self.shared.as_slice() {
            if !has_part(store, number, part) {
                return false;
            }
        }
        true
    }

    /// `true` if the filter lets a block pass.
    pub(crate) fn passes(&self, store: &ArchetypeStore, number: u32, last: SystemVersion) -> bool
        requires { OfNumber number (CanFilter self.now) store.now.blocks }
        ensures { OfNumber number (λ b. result ≡ passes_filter self.now last.0 b) store.now.blocks }
    {
        self.is_fresh(store.block(number), last) && self.has_shared(store, number)
    }
}
