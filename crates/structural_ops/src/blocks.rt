//! The blocks of a world, as those who visit rows see them, and the present version.
ghost use Rattle.std.specs.Prelude.{◌≡◌, ⊤};
ghost use Rattle.system_version.specs.Versions.{next_version};
ghost use Rattle.structural_ops.specs.Numbered.{HasBlock, IsStoreOf, types_written, whole_block, with_each};

use crate::World;
use crate::writes::mark_types;
use archetype_store::ArchetypeStore;
use chunk_block::Block;
use ent_types::{SystemVersion, TypeSet};

impl World {
    /// Returns the block of a number.
    pub fn block(&self, number: u32) -> &Block
        requires { HasBlock number (λ _. ⊤) self.now }
        ensures { HasBlock number (λ b. result.now ≡ whole_block self.now.world.registry b) self.now }
    {
        self.tables.store.is_sound();
        self.tables.store.block(number)
    }

    /// Returns the store, which has the blocks in block order, with their numbers and archetypes.
    pub fn store(&self) -> &ArchetypeStore
        ensures { IsStoreOf self.now result.now }
    {
        self.tables.store.is_sound();
        &self.tables.store
    }

    /// Makes the next version the present one, and returns it.
    pub fn raise(&mut self) -> SystemVersion
        ensures value { result.0 ≡ next_version self.old.world.moment }
        ensures world { self.new ≡ record self.old { world = record (self.old.world) { moment = next_version self.old.world.moment } } }
    {
        let version = self.tables.version.next();
        self.tables.version = version;
        version
    }

    /// Marks some types of a block with the present version, as far as the block has them. It takes no memory.
    pub fn mark_written(&mut self, block: u32, types: &TypeSet)
        requires { HasBlock block (λ _. ⊤) self.old }
        ensures { self.new ≡ with_each (types_written block self.old.world.moment types.now) self.old }
    {
        mark_types(&mut self.tables.store, block, types, self.tables.version);
    }
}
