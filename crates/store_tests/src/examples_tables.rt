//! An example of interned values that is proved from the contracts alone, so that no body that differs here can meet its
//! contract.
ghost use Rattle.std.specs.Prelude.{◌≢◌};
ghost use Rattle.shared_values.specs.Holds.{values_of, IsHeld};

use shared_values::{SharedId, SharedTable};

/// Ids with different values aren't equal, even if they are of one type.
pub fn tells_values_apart(table: &SharedTable, a: SharedId, b: SharedId)
    requires a_held { IsHeld table.now a }
    requires b_held { IsHeld table.now b }
    requires apart { values_of table.now a ≢ values_of table.now b }
{
    let are_equal = table.are_equal(a, b);
    prove!(!are_equal);
}
