//! A world that lends the columns of two blocks.
ghost use Rattle.std.specs.Prelude.{◌≡◌, [], ◌∷◌, ⊤, IfSome, length, true};
ghost use Rattle.structural_ops.specs.Freezing.{IsPlan};
ghost use Rattle.structural_ops.specs.Numbered.{HasBlock};

use crate::fixtures::{GLOW, HEALTH, create, made, parts};
use crate::rows::has;
use ent_types::{Entity, TypeSet};
use std::alloc::Global;
use structural_ops::{
    LendPlan, Loans, World, loans_bring_what_was_written, loans_come_in_any_order,
};

/// Returns the numbers of the first two blocks.
fn two_blocks(world: &World) -> Option<(u32, u32)>
    ensures first { IfSome result (λ p. HasBlock p.0 (λ _. ⊤) world.now) }
    ensures second { IfSome result (λ p. HasBlock p.1 (λ _. ⊤) world.now) }
    ensures apart { IfSome result (λ p. p.0 ≡ p.1 → ⊥) }
{
    let mut blocks = world.store().blocks();
    let Some((first, _)) = blocks.next() else {
        return None;
    };
    let Some((second, _)) = blocks.next() else {
        return None;
    };
    if first == second {
        return None;
    }
    Some((first, second))
}

/// Adds the types of two blocks to a plan that is empty.
fn fill_plan(
    plan: &mut LendPlan,
    first: u32,
    first_types: &TypeSet,
    second: u32,
    second_types: &TypeSet,
) -> bool
    requires { plan.old ≡ [] }
    ensures { result ≡ true → plan.new ≡ (first, first_types.now) ∷ (second, second_types.now) ∷ [] }
{
    if plan.add(first, first_types).is_err() {
        return false;
    }
    plan.add(second, second_types).is_ok()
}

/// Lends what a plan of two entries names, and takes the loans back in the opposite order. The world is as before.
fn comes_back(world: World, plan: &LendPlan, loans: Loans) -> World
    requires plan { IsPlan plan.now world }
    requires two { length plan.now ≡ 2 }
    requires empty { loans.loans ≡ [] }
    requires room { loans.spare ≡ 2 }
    ensures { result ≡ world }
{
    loans_bring_what_was_written(&world);
    let (frozen, mut loans) = world.freeze(plan, loans);
    let last = loans.take_last();
    let first = loans.take_last();
    loans.add(last);
    loans.add(first);
    loans_come_in_any_order(&frozen);
    frozen.restore(loans)
}

/// Lends all types of two blocks, and takes the loans back.
fn lends(alloc: Global, world: World, first: u32, second: u32) -> Option<World>
    requires first { HasBlock first (λ _. ⊤) world }
    requires second { HasBlock second (λ _. ⊤) world }
    requires apart { first ≡ second → ⊥ }
{
    let mut plan = LendPlan::new(alloc);
    let first_types = *world.block(first).types();
    let second_types = *world.block(second).types();
    if !fill_plan(&mut plan, first, &first_types, second, &second_types) {
        return None;
    }
    match Loans::with_room(alloc, 2) {
        Ok(loans) => Some(comes_back(world, &plan, loans)),
        Err(_) => None,
    }
}

/// Lends all types of the first two blocks of a world, and takes the loans back.
fn lends_two(alloc: Global, world: World) -> Option<World> {
    match two_blocks(&world) {
        Some((first, second)) => lends(alloc, world, first, second),
        None => None,
    }
}

/// Makes an entity of another block.
fn make_another(alloc: Global, world: &mut World) -> bool {
    match parts(alloc, &[(GLOW, &[1])]) {
        Some(parts) => create(world, &parts).is_some(),
        None => false,
    }
}

/// `true` if an entity has its numbers after its block lent all types.
fn keeps_numbers(alloc: Global, world: World, e: Entity) -> bool {
    match lends_two(alloc, world) {
        Some(world) => has(&world, e, HEALTH, 1, 6) & (world.alive_count() == 2),
        None => false,
    }
}

fn lends_and_restores(alloc: Global) -> bool {
    match made(alloc, &[(HEALTH, &[5, 6])]) {
        Some((mut world, e)) => make_another(alloc, &mut world) && keeps_numbers(alloc, world, e),
        None => false,
    }
}

#[test]
fn a_world_that_lent_two_blocks_is_as_before(rt: HostRuntime) {
    assert!(rt; lends_and_restores(rt.alloc()));
}
