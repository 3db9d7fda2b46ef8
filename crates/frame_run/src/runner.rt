//! The systems of a scenario with what their runs need and leave.
ghost use Rattle.std.specs.Prelude.{◌≡◌, ℕ, [], List, IfOk, OnOk};
ghost use Rattle.world_model.specs.Members.{In};
ghost use Rattle.scenario_record.specs.declared.record.SystemEntry.{SystemEntry as SystemState};
ghost use Rattle.run_laws.specs.Runnable.{SystemRuns};
ghost use Rattle.phase_run.specs.After.{ran, world_after};
ghost use Rattle.frame_run.specs.Runners.{AreRunnersOf, IsRunnerOf, never_ran};

use ent_types::{Memory, Registry, SystemVersion};
use phase_run::{SystemQuery, SystemRun, run_system};
use query_select::Cache;
use scenario_record::SystemEntry;
use std::alloc::Global;
use structural_ops::World;

/// What a system keeps from run to run.
#[derive(Drop)]
pub(crate) struct Runner {
    /// Which rows it takes, and which types it writes.
    pub(crate) query: SystemQuery,
    /// The archetypes that match.
    pub(crate) cache: Cache,
    /// The version of its last run; 0 if it never ran.
    pub(crate) last: SystemVersion,
}

impl Runner {
    /// Returns the runner of a system that never ran.
    fn of(alloc: Global, registry: &Registry, system: &SystemEntry) -> Result<Runner, Memory>
        requires { SystemRuns registry.now system.now }
        ensures runner { IfOk result (λ r. (archetypes : List (List ℕ)) → IsRunnerOf registry.now archetypes system.now r) }
        ensures last { IfOk result (λ r. r.last.0 ≡ 0) }
    {
        let query = SystemQuery::of(alloc, registry, system)?;
        Ok(Runner {
            query,
            cache: Cache::new(alloc),
            last: SystemVersion(0),
        })
    }

    /// Runs the system.
    pub(crate) fn run(
        &mut self,
        alloc: Global,
        world: World,
        system: &SystemEntry,
        frame: u32,
    ) -> Result<SystemRun, Memory>
        requires runs { SystemRuns world.world.registry system.now }
        requires no_commands { system.now.command ≡ [] }
        requires runner { IsRunnerOf world.world.registry world.archetypes system.now self.old }
        ensures world { IfOk result (λ r. r.world ≡ world_after system.now self.old.last.0 frame world) }
        ensures visits { IfOk result (λ r. r.visits ≡ (ran system.now self.old.last.0 frame world).visits) }
        ensures passing { IfOk result (λ r. r.passing ≡ (ran system.now self.old.last.0 frame world).passing) }
        ensures runner { OnOk result (IsRunnerOf world.world.registry world.archetypes system.now self.new) }
        ensures last { IfOk result (λ r. self.new.last.0 ≡ r.world.world.moment) }
    {
        let run = run_system(
            alloc,
            world,
            system,
            &self.query,
            self.last,
            frame,
            &mut self.cache,
        )?;
        self.last = run.world.version();
        Ok(run)
    }
}

/// Returns a runner for each system, in order.
pub(crate) fn runners_of(
    alloc: Global,
    registry: &Registry,
    systems: &[SystemEntry],
) -> Result<Vec<Runner>, Memory>
    requires { (s : SystemState) → In s systems.now → SystemRuns registry.now s }
    ensures runners { IfOk result (λ rs. (archetypes : List (List ℕ)) → AreRunnersOf registry.now archetypes systems.now rs.items) }
    ensures never { IfOk result (λ rs. never_ran rs.items) }
{
    let mut runners = Vec::new(alloc);
    for system in systems {
        runners.push(Runner::of(alloc, registry, system)?)?;
    }
    Ok(runners)
}
