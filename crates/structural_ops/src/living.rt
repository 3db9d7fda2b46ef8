//! The walk over the rows of a world by the indexes of their entities.
ghost use Rattle.std.specs.Prelude.{◌≡◌, map, Some};
ghost use Rattle.world_model.specs.Found.{entities_by_index, found_by_index};
ghost use Rattle.structural_ops.specs.Places.{found_at_place};

use crate::World;
use entity_table::Living;

impl World {
    /// Walks the alive entities with the places of their rows, by rising index. A place is the number of a block and a row of it.
    ///
    /// It takes no memory. A whole walk reads each index that was ever made once, alive or not.
    pub fn living(&self) -> Living<'_>
        ensures rows { map (λ e. found_at_place self.now e.1) result ≡ map Some (found_by_index self.now.world) }
        ensures entities { map (λ e. e.0) result ≡ entities_by_index self.now.world }
    {
        self.tables.table.living()
    }
}
