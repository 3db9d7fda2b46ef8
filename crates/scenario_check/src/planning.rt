//! The plan of a scenario: the steps of a frame in the order of its groups, and what each system touches.
ghost use Rattle.std.specs.Prelude.{◌≡◌, ◌-◌, ◌++◌, None, map, IfOk};
ghost use Rattle.scenario_record.specs.declared.fault.Cause.TheVariants.{Cycle as CycleCause};
ghost use Rattle.scenario_record.specs.declared.fault.ScenarioFault.TheVariants.{Bad};
ghost use Rattle.scenario_record.specs.declared.plan.Step.TheVariants.{Run};
ghost use Rattle.scenario_record.specs.Faults.{IsMoved, bad};
ghost use Rattle.scenario_record.specs.Readings.{Answers};
ghost use Rattle.scenario_faults.specs.Checks.{names_fault};
ghost use Rattle.scenario_faults.specs.Touched.{access_of};
ghost use Rattle.system_order.specs.Roots.{systems_below};
ghost use Rattle.run_model.specs.Steps.{children_of, steps_of};
ghost use Rattle.scenario_check.specs.Planned.{at_child, plan_of, ordered};
ghost use Rattle.scenario_check.specs.Read.{IsRead};

use crate::children::{ROOTS, children_of};
use ent_types::{Memory, Point, Registry, Sequence};
use scenario_faults::access::access_of;
use scenario_faults::at_element;
use scenario_record::{Access, Cause, Plan, Scenario, ScenarioFault, Step, SystemEntry, bad};
use std::alloc::Global;
use system_order::{OrderFault, RootOrders, order_by_root};

/// Appends the runs of systems, given as children. The first system is the child with the number `first`.
fn push_runs(steps: &mut Vec<Step>, first: u32, systems: &[u32]) -> Result<(), Memory>
    ensures { IfOk result (λ _. steps.new.items ≡ steps.old.items ++ map (λ n. Run n) (map (λ child. child - first) systems.now)) }
{
    for child in systems {
        steps.push(Step::Run(child.saturating_sub(first)))?;
    }
    Ok(())
}

/// Returns the steps of a frame, by the systems below each root in their order.
#[tactic(auto, unfolding(run_model::specs::Steps::steps_of))]
fn steps_of(
    alloc: Global,
    scenario: &Scenario,
    roots: &RootOrders,
) -> Result<Sequence<Step>, Memory>
    requires read { IsRead scenario.now }
    requires initialization { roots.now.initialization ≡ systems_below (children_of scenario.now) 0 }
    requires simulation { roots.now.simulation ≡ systems_below (children_of scenario.now) 1 }
    requires presentation { roots.now.presentation ≡ systems_below (children_of scenario.now) 2 }
    ensures { IfOk result (λ steps. steps ≡ steps_of scenario.now) }
{
    let first = (ROOTS + scenario.group.len()) as u32;
    let mut steps = vec![in alloc; Step::Events, Step::Play(Point::BeginInitialization)]?;
    push_runs(&mut steps, first, roots.initialization.as_slice())?;
    steps.push(Step::Play(Point::EndInitialization))?;
    steps.push(Step::Play(Point::BeginSimulation))?;
    push_runs(&mut steps, first, roots.simulation.as_slice())?;
    steps.push(Step::Play(Point::EndSimulation))?;
    steps.push(Step::Play(Point::BeginPresentation))?;
    push_runs(&mut steps, first, roots.presentation.as_slice())?;
    Ok(Sequence::from_vec(steps))
}

/// Returns what each system touches.
fn access_of_each(
    alloc: Global,
    registry: &Registry,
    systems: &[SystemEntry],
) -> Result<Sequence<Access>, Memory>
    ensures { IfOk result (λ access. access ≡ map (access_of registry.now) systems.now) }
{
    let mut access = Sequence::new(alloc);
    for system in systems {
        access.push(access_of(registry, system))?;
    }
    Ok(access)
}

/// Returns the plan of a scenario, by the systems below each root in their order.
fn plan_of(alloc: Global, scenario: &Scenario, roots: &RootOrders) -> Result<Plan, Memory>
    requires read { IsRead scenario.now }
    requires initialization { roots.now.initialization ≡ systems_below (children_of scenario.now) 0 }
    requires simulation { roots.now.simulation ≡ systems_below (children_of scenario.now) 1 }
    requires presentation { roots.now.presentation ≡ systems_below (children_of scenario.now) 2 }
    ensures { IfOk result (λ plan. plan ≡ plan_of scenario.now) }
{
    let steps = steps_of(alloc, scenario, roots)?;
    let access = access_of_each(alloc, &scenario.registry, scenario.system.as_slice())?;
    Ok(Plan { steps, access })
}

/// Returns the fault of a child that precedes itself.
fn cycle_fault(alloc: Global, scenario: &Scenario, child: usize) -> ScenarioFault
    requires { IsRead scenario.now }
    ensures { IsMoved (at_child scenario.now child) (Bad (bad CycleCause)) result }
{
    let fault = bad(alloc, Cause::Cycle);
    let first = ROOTS + scenario.group.len();
    if child < first {
        return at_element(alloc, "group", child.saturating_sub(ROOTS), fault);
    }
    at_element(alloc, "system", child - first, fault)
}

/// Returns the plan of a scenario, or the fault of the first child that precedes itself through a chain of its siblings.
pub(crate) fn ordered(alloc: Global, scenario: &Scenario) -> Result<Plan, ScenarioFault>
    requires read { IsRead scenario.now }
    requires names { names_fault scenario.now ≡ None }
    ensures { Answers (ordered scenario.now) result }
{
    let children = children_of(alloc, scenario)?;
    match order_by_root(alloc, &children) {
        Ok(roots) => Ok(plan_of(alloc, scenario, &roots)?),
        Err(OrderFault::Cycle(child)) => Err(cycle_fault(alloc, scenario, child as usize)),
        Err(OrderFault::Memory) => Err(ScenarioFault::Memory),
    }
}
