//! Laws which show that the definitions mean what their names say. Each law is the contract of a function that does
//! nothing.
ghost use Rattle.std.specs.Prelude.{◌≡◌, ℕ, ◌<◌, Bool, true, List, length, None, ◌↔◌, IsPermutation, if◌then◌else◌};
ghost use Rattle.system_order.specs.Chain.{chained, earliest_on_cycle, HasPath};
ghost use Rattle.system_order.specs.Order.{first_cycle};
ghost use Rattle.system_order.specs.Place.{places};
ghost use Rattle.system_order.specs.Roots.{is_system_below, systems_below, times, IsForest};
ghost use Rattle.system_order.specs.declared.child.Child.{Child};

/// A sibling is chained to another one if and only if a path of siblings, each of which precedes the next, leads from
/// it to the other.
#[tactic(auto, using(crate::proofs::Paths::chains_are_paths))]
pub fn chains_are_paths()
    ensures { (before : ℕ → ℕ → Bool) (siblings : List ℕ) (first last : ℕ) → (chained before siblings first last ≡ true) ↔ HasPath before siblings first last }
{}

/// If no sibling precedes itself through a chain, each sibling gets one place.
#[tactic(auto, using(crate::proofs::Full::acyclic_places))]
pub fn siblings_without_a_cycle_get_places()
    ensures { (before : ℕ → ℕ → Bool) (siblings : List ℕ) → earliest_on_cycle before siblings ≡ None → IsPermutation siblings (places before (length siblings) siblings) }
{}

/// If no child precedes itself through a chain, each system is below its own root once, and nothing else is there.
#[tactic(auto, using(crate::proofs::ByRoot::once_below_its_root))]
pub fn each_system_is_once_below_its_root()
    ensures { (children : List Child) → IsForest children → first_cycle children ≡ None → (root number : ℕ) → root < 3 → times number (systems_below children root) ≡ (if is_system_below children root number then 1 else 0) }
{}
