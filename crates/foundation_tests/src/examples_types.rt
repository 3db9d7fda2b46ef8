//! Examples of sets and registries that are proved from the contracts alone, so that no body that differs here can meet
//! its contract.
ghost use Rattle.std.specs.Prelude.{◌≡◌, Some, IsTrue};
ghost use Rattle.ent_types.specs.Types.{is_lawful_type};
ghost use Rattle.ent_types.specs.Refusals.{refusal};
ghost use Rattle.ent_types.specs.declared.registry.RegistryFault.TheVariants.{Duplicate};

use crate::types::plain;
use ent_types::{Registry, RegistryFault, TypeId, TypeInfo, TypeSet};
use std::alloc::Global;

/// The empty set is a subset of each set, and no other set is a subset of it.
fn compares_sets() {
    let narrow = TypeSet::empty();
    let wide = narrow.with(TypeId(64));
    let is_in = narrow.is_subset(&wide);
    prove!(is_in);
    let is_turned = wide.is_subset(&narrow);
    prove!(!is_turned);
}

/// A name that is taken is the fault, though there is room for more types.
pub fn refuses_a_taken_name(registry: &mut Registry, info: TypeInfo)
    requires lawful { IsTrue (is_lawful_type info) }
    requires taken { refusal registry.old info ≡ Some Duplicate }
{
    let is_due = match registry.add(info) {
        Ok(_) => false,
        Err(fault) => fault == RegistryFault::Duplicate,
    };
    prove!(is_due);
}

/// A type gets the number of the types before it.
fn gives_the_next_number(registry: &mut Registry, info: TypeInfo) -> bool {
    let count = registry.len();
    if !info.is_lawful() {
        return false;
    }
    match registry.add(info) {
        Ok(ty) => {
            let is_next = usize::from(ty.0) == count;
            prove!(is_next);
            true
        }
        Err(_) => false,
    }
}

/// Adds a type to a new registry.
fn adds_a_type(alloc: Global) -> bool {
    let Ok(mut registry) = Registry::new(alloc) else {
        return false;
    };
    match plain(alloc, b"Health", 1) {
        Some(info) => gives_the_next_number(&mut registry, info),
        None => false,
    }
}

#[test]
fn what_is_proved_of_types_also_runs(rt: HostRuntime) {
    compares_sets();
    assert!(rt; adds_a_type(rt.alloc()));
}
