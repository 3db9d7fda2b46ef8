//! What always holds of a world.
ghost use Rattle.world_model.specs.World.{capacity};
ghost use Rattle.world_model.specs.Versions.{IsLawfulCode};

use crate::World;

impl World {
    /// Says that a world is lawful. It does nothing.
    pub fn is_lawful(&self)
        ensures { IsLawfulCode (capacity self.now.world.registry) self.now.world }
    {
        let _ = &self.tables;
    }
}
