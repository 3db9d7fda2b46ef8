//! Laws of worlds that lend. Each is a function that does nothing, whose contract is the law.
ghost use Rattle.std.specs.Prelude.{◌≡◌, ℕ, List, map, false, is_some, option_and_then, IsPermutation};
ghost use Rattle.ent_types.specs.declared.entity.Entity.{Entity};
ghost use Rattle.chunk_block.specs.Blocks.{LoanState};
ghost use Rattle.world_model.specs.Found.{found, values_of};
ghost use Rattle.world_model.specs.Reads.{element_of, elements_of, is_alive, types_of, value_of};
ghost use Rattle.structural_ops.specs.Freezing.{AreLoansOf, IsPlan, frozen_by, is_lent, loan_of, with_loans};

use crate::{Frozen, World};

/// Loans may come back in any order.
pub fn loans_come_in_any_order(frozen: &Frozen)
    ensures loans { (first second : List LoanState) → AreLoansOf frozen.now first → IsPermutation first second → AreLoansOf frozen.now second }
    ensures world { (first second : List LoanState) → AreLoansOf frozen.now first → IsPermutation first second
        → with_loans second frozen.now.state ≡ with_loans first frozen.now.state }
{
    let _ = &frozen.tables;
}

/// A world that lent and got all loans back has the cells of the loans, and all else is as before. Loans that weren't written
/// leave it as it was, in whatever order they came back.
pub fn loans_bring_what_was_written(world: &World)
    ensures written { (plan : List (ℕ × List ℕ)) (loans : List LoanState) → AreLoansOf (frozen_by plan world.now) loans
        → with_loans loans (frozen_by plan world.now).state ≡ with_loans loans world.now }
    ensures unwritten { (plan : List (ℕ × List ℕ)) (loans : List LoanState) → IsPlan plan world.now → IsPermutation (map (loan_of world.now) plan) loans
        → with_loans loans (frozen_by plan world.now).state ≡ world.now }
{
    world.tables.store.is_sound();
}

/// A frozen world has the entities, types and homes of the world, and types that aren't lent read as in the world.
pub fn the_rest_reads_as_before(world: &World)
    ensures alive { (plan : List (ℕ × List ℕ)) (e : Entity) → is_alive (frozen_by plan world.now).state.world e ≡ is_alive world.now.world e }
    ensures types { (plan : List (ℕ × List ℕ)) (e : Entity) → types_of (frozen_by plan world.now).state.world e ≡ types_of world.now.world e }
    ensures has { (plan : List (ℕ × List ℕ)) (e : Entity) (t : ℕ)
        → is_some (option_and_then (values_of t) (found e (frozen_by plan world.now).state.world.blocks)) ≡ is_some (option_and_then (values_of t) (found e world.now.world.blocks)) }
    ensures value { (plan : List (ℕ × List ℕ)) (t : ℕ) → is_lent (frozen_by plan world.now) t ≡ false
        → (e : Entity) (field : ℕ) → value_of (frozen_by plan world.now).state.world e t field ≡ value_of world.now.world e t field }
    ensures elements { (plan : List (ℕ × List ℕ)) (t : ℕ) → is_lent (frozen_by plan world.now) t ≡ false
        → (e : Entity) → elements_of (frozen_by plan world.now).state.world e t ≡ elements_of world.now.world e t }
    ensures element { (plan : List (ℕ × List ℕ)) (t : ℕ) → is_lent (frozen_by plan world.now) t ≡ false
        → (e : Entity) (k field : ℕ) → element_of (frozen_by plan world.now).state.world e t k field ≡ element_of world.now.world e t k field }
{
    let _ = &world.tables;
}
