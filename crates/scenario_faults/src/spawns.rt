//! The rows that spawns make: each fits into a block, and all can be alive together.
ghost use Rattle.std.specs.Prelude.{◌≡◌, ◌≤◌, nat_lt, map};
ghost use Rattle.ent_types.specs.Registries.{type_at};
ghost use Rattle.ent_types.specs.Types.{column_size};
ghost use Rattle.chunk_layout.specs.Capacity.{column_bytes, block_bytes};
ghost use Rattle.scenario_record.specs.Readings.{Passes};
ghost use Rattle.scenario_faults.specs.Checks.{spawn_fault, crowded_from, spawns_fault};

use crate::each::{Test, at_element, each};
use chunk_layout::COLUMN_ROOM;
use ent_types::Registry;
use ent_types::limits::{MOST_COLUMN_BYTES, MOST_ENTITIES};
use expr_trees::PartExpr;
use scenario_record::{Cause, Scenario, ScenarioFault, SpawnEntry, bad};
use std::alloc::Global;

/// The bytes of the column of ids, for one row.
const ID_BYTES: u32 = 64;

/// Returns the bytes of a column of one row: a multiple of 64.
fn column_bytes(size: u32) -> u32
    requires { size ≤ MOST_COLUMN_BYTES }
    ensures value { result ≡ column_bytes 1 size }
    ensures most { result ≤ MOST_COLUMN_BYTES }
{
    size.next_multiple_of(64)
}

/// `true` if the columns of one row, with the column of its id, take more bytes than a block has for columns.
#[tactic(auto, using(crate::proofs::RowLemmas::sums))]
fn is_too_large(registry: &Registry, parts: &[PartExpr]) -> bool
    ensures { result ≡ nat_lt COLUMN_ROOM (block_bytes (map (λ part. column_size (type_at registry.now part.ty.0)) parts.now) 1) }
{
    let mut bytes = ID_BYTES;
    for part in parts {
        bytes += column_bytes(registry.column_size(part.ty));
        if bytes > COLUMN_ROOM {
            return true;
        }
    }
    false
}

/// Each row of a spawn fits into a block.
#[derive(Drop)]
struct FitsBlock<'a> {
    /// The types.
    registry: &'a Registry,
}

impl<'a> Test for FitsBlock<'a> {
    type Item = SpawnEntry;

    ghost fault = { λ it p. spawn_fault it.registry.now p };

    #[tactic(auto, using(crate::proofs::RowLemmas::rows))]
    fn test(&self, alloc: Global, spawn: &SpawnEntry) -> Result<(), ScenarioFault> {
        if is_too_large(self.registry, spawn.parts.as_slice()) {
            return Err(bad(alloc, Cause::TooLarge));
        }
        Ok(())
    }
}

/// Checks that all rows can be alive together.
fn all_fit(alloc: Global, spawns: &[SpawnEntry]) -> Result<(), ScenarioFault>
    ensures { Passes (crowded_from 0 0 spawns.now) result }
{
    let mut made: u64 = 0;
    for (i, spawn) in spawns.iter().enumerate() {
        made += u64::from(spawn.count);
        if made > u64::from(MOST_ENTITIES) {
            let fault = bad(alloc, Cause::TooManyEntities);
            return Err(at_element(alloc, "spawn", i, fault));
        }
    }
    Ok(())
}

/// Checks that a row of each spawn fits into a block, then that all rows can be alive together.
#[tactic(auto, unfolding(crate::specs::Checks::spawns_fault))]
pub fn spawns(alloc: Global, scenario: &Scenario) -> Result<(), ScenarioFault>
    ensures { Passes (spawns_fault scenario.now) result }
{
    let spawns = scenario.spawn.as_slice();
    let fits = FitsBlock {
        registry: &scenario.registry,
    };
    each(alloc, "spawn", &fits, spawns)?;
    all_fit(alloc, spawns)
}
