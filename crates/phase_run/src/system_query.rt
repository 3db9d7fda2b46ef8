//! What of a system says which rows it takes and which types it writes.
ghost use Rattle.std.specs.Prelude.{◌≡◌, ℕ, ◌<◌, ◌++◌, map, IfOk};
ghost use Rattle.ent_types.specs.declared.limits.TheConstants.{MOST_TYPES};
ghost use Rattle.ent_types.specs.TypeSets.{has_type};
ghost use Rattle.world_model.specs.Members.{In};
ghost use Rattle.expr_trees.specs.declared.tree.Assign.{Assign as AssignState};
ghost use Rattle.expr_trees.specs.declared.tree.Switch.{Switch as SwitchState};
ghost use Rattle.run_model.specs.Job.{writes};
ghost use Rattle.run_laws.specs.Runnable.{SystemRuns};
ghost use Rattle.phase_run.specs.Queries.{IsQueryOf, assigned_types, switched_types};

use ent_types::{Memory, Part, Parts, Registry, TypeSet, Values};
use expr_trees::{Assign, Switch};
use query_select::{Filter, Query};
use scenario_record::SystemEntry;
use std::alloc::Global;

/// The query and the filter of a system, and the types that it writes. It is made once for all runs.
#[derive(Debug, Drop)]
pub struct SystemQuery {
    /// Which rows match.
    pub query: Query,
    /// Which blocks are visited.
    pub filter: Filter,
    /// The types that the texts of the system write.
    pub written: TypeSet,
}

/// Returns some types and those that assignments write.
fn with_assigned(types: TypeSet, texts: &[Assign]) -> TypeSet
    requires { (a : AssignState) → In a texts.now → a.ty.0 < MOST_TYPES }
    ensures { (t : ℕ) → has_type result t ≡ has_type (types ++ assigned_types texts.now) t }
{
    let mut written = types;
    for text in texts {
        written = written.with(text.ty);
    }
    written
}

/// Returns some types and those that enable texts switch.
fn with_switched(types: TypeSet, texts: &[Switch]) -> TypeSet
    requires { (w : SwitchState) → In w texts.now → w.ty.0 < MOST_TYPES }
    ensures { (t : ℕ) → has_type result t ≡ has_type (types ++ switched_types texts.now) t }
{
    let mut written = types;
    for text in texts {
        written = written.with(text.ty);
    }
    written
}

/// Returns the types that the texts of a system write.
fn written_types(registry: &Registry, system: &SystemEntry) -> TypeSet
    requires { SystemRuns registry.now system.now }
    ensures { (t : ℕ) → has_type result t ≡ has_type (writes system.now) t }
{
    // Its contract says how many types a registry has at most.
    let _ = registry.types();
    let assigned = with_assigned(TypeSet::empty(), system.set.as_slice());
    with_switched(assigned, system.enable.as_slice())
}

/// Returns a copy of a part.
fn copy_of(alloc: Global, part: &Part) -> Result<Part, Memory>
    ensures { IfOk result (λ p. p ≡ part.now) }
{
    let values = Values::from_slice(alloc, part.values.as_slice())?;
    Ok(Part {
        ty: part.ty,
        values,
    })
}

/// Returns a copy of some parts.
fn copies_of(alloc: Global, parts: &[Part]) -> Result<Parts, Memory>
    ensures { IfOk result (λ copies. copies ≡ parts.now) }
{
    let mut copies = Parts::new(alloc);
    for part in parts {
        copies.push(copy_of(alloc, part)?)?;
    }
    Ok(copies)
}

impl SystemQuery {
    /// Returns the query, the filter and the written types of a system, whose shared values are copied.
    pub fn of(
        alloc: Global,
        registry: &Registry,
        system: &SystemEntry,
    ) -> Result<SystemQuery, Memory>
        requires { SystemRuns registry.now system.now }
        ensures { IfOk result (λ q. IsQueryOf system.now q) }
    {
        let shared = copies_of(alloc, system.shared.as_slice())?;
        Ok(SystemQuery {
            query: Query {
                all: system.all,
                any: system.any,
                none: system.none,
                disabled: system.disabled,
                absent: system.absent,
                include_disabled: system.include_disabled,
                include_prefab: system.include_prefab,
            },
            filter: Filter {
                changed: system.changed,
                order: system.order_changed,
                shared,
            },
            written: written_types(registry, system),
        })
    }
}
