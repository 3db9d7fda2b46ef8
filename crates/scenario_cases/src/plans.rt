//! The record of a scenario in numbers, and its plan.
use crate::fault::Fault;
use crate::outcomes::print_cause;
use ent_types::{Point, Registry, TypeId, TypeSet};
use scenario_check::{check, is_built};
use scenario_laws::what_is_read_can_be_checked;
use scenario_read::read_scenario;
use scenario_record::{Access, Plan, Scenario, ScenarioFault, Step, SystemEntry};
use std::alloc::Global;
use std::io;

/// Reads a scenario, and prints its numbers and its plan.
pub(crate) fn try_plan<R: Print + AllocGlobal>(rt: &R, text: &str) -> Result<(), Fault> {
    let (scenario, plan) = read_and_plan(rt.alloc(), text.as_bytes())?;
    print_numbers(rt, &scenario)?;
    print_outcome(rt, &scenario, &plan)
}

/// Returns the scenario, and its plan or why it has none.
fn read_and_plan(
    alloc: Global,
    bytes: &[u8],
) -> Result<(Scenario, Result<Plan, ScenarioFault>), ScenarioFault> {
    what_is_read_can_be_checked();
    let scenario = read_scenario(alloc, bytes)?;
    let plan = check(alloc, &scenario);
    Ok((scenario, plan))
}

/// Prints the plan, or the cause of the first fault.
fn print_outcome<R: Print>(
    rt: &R,
    scenario: &Scenario,
    plan: &Result<Plan, ScenarioFault>,
) -> Result<(), Fault> {
    match plan {
        Ok(plan) => print_plan(rt, scenario, plan),
        Err(ScenarioFault::Bad(bad)) => Ok(print_cause(rt, bad.cause)?),
        Err(ScenarioFault::Memory) => Err(Fault::Memory),
    }
}

/// Prints the numbers of a record, and whether it is of a form that is run.
fn print_numbers<R: Print>(rt: &R, scenario: &Scenario) -> io::Result<()> {
    let (frames, system_version) = (scenario.frames, scenario.first_system_version);
    let entity_version = scenario.first_entity_version;
    println!(rt; "frames={frames} versions={system_version},{entity_version}")?;
    print_types(rt, scenario.registry.len(), scenario.spawn.len())?;
    print_systems(
        rt,
        scenario.group.len(),
        scenario.system.len(),
        scenario.event.len(),
    )?;
    print_forms(rt, scenario.placed, scenario.unbuilt, is_built(scenario))
}

fn print_types<R: Print>(rt: &R, types: usize, spawns: usize) -> io::Result<()> {
    print!(rt; "types={types} spawns={spawns}")
}

fn print_systems<R: Print>(rt: &R, groups: usize, systems: usize, events: usize) -> io::Result<()> {
    println!(rt; " groups={groups} systems={systems} events={events}")
}

fn print_forms<R: Print>(rt: &R, placed: bool, unbuilt: bool, runs: bool) -> io::Result<()> {
    println!(rt; "placed={placed} unbuilt={unbuilt} runs={runs}")
}

/// Prints the steps of a plan, and what each system touches.
fn print_plan<R: Print>(rt: &R, scenario: &Scenario, plan: &Plan) -> Result<(), Fault> {
    let systems = scenario.system.as_slice();
    print_steps(rt, systems, plan.steps.as_slice())?;
    print_accesses(rt, &scenario.registry, systems, plan.access.as_slice())
}

fn print_steps<R: Print>(rt: &R, systems: &[SystemEntry], steps: &[Step]) -> Result<(), Fault> {
    for step in steps {
        print_step(rt, systems, *step)?;
    }
    Ok(())
}

/// Prints a step of a frame.
fn print_step<R: Print>(rt: &R, systems: &[SystemEntry], step: Step) -> Result<(), Fault> {
    match step {
        Step::Events => Ok(println!(rt; "events")?),
        Step::Play(point) => Ok(println!(rt; "play {}", point_name(point))?),
        Step::Run(number) => print_run(rt, systems, number as usize),
    }
}

fn print_run<R: Print>(rt: &R, systems: &[SystemEntry], number: usize) -> Result<(), Fault> {
    match systems.get(number) {
        Some(system) => Ok(println!(rt; "run {}", system.name.as_str())?),
        None => Err(Fault::Plan),
    }
}

/// Returns the word of a point in scenarios.
fn point_name(point: Point) -> &'static str {
    match point {
        Point::BeginInitialization => "BeginInitialization",
        Point::EndInitialization => "EndInitialization",
        Point::BeginSimulation => "BeginSimulation",
        Point::EndSimulation => "EndSimulation",
        Point::BeginPresentation => "BeginPresentation",
    }
}

/// Prints what each system touches.
fn print_accesses<R: Print>(
    rt: &R,
    registry: &Registry,
    systems: &[SystemEntry],
    accesses: &[Access],
) -> Result<(), Fault> {
    for (system, access) in systems.iter().zip(accesses) {
        print!(rt; "{}", system.name.as_str())?;
        print_access(rt, registry, access)?;
    }
    Ok(())
}

/// Prints what a system touches.
fn print_access<R: Print>(rt: &R, registry: &Registry, access: &Access) -> Result<(), Fault> {
    print!(rt; " reads=")?;
    print_names(rt, registry, &access.reads)?;
    print!(rt; " writes=")?;
    print_names(rt, registry, &access.writes)?;
    print!(rt; " names=")?;
    print_names(rt, registry, &access.named)?;
    Ok(println!(rt)?)
}

/// Prints the names of types, with commas between them.
fn print_names<R: Print>(rt: &R, registry: &Registry, types: &TypeSet) -> Result<(), Fault> {
    let mut is_first = true;
    for ty in types.iter() {
        print_name(rt, registry, is_first, ty)?;
        is_first = false;
    }
    Ok(())
}

/// Prints the name of a type, after a comma unless it is the first.
fn print_name<R: Print>(
    rt: &R,
    registry: &Registry,
    is_first: bool,
    ty: TypeId,
) -> Result<(), Fault> {
    if !registry.knows(ty) {
        return Err(Fault::Plan);
    }
    if !is_first {
        print!(rt; ",")?;
    }
    Ok(print!(rt; "{}", registry.info(ty).name.as_str())?)
}
