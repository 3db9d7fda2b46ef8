//! Phases in which two workers run two items.
ghost use Rattle.std.specs.Prelude.{◌≡◌, ◌+◌, ◌*◌, ◌%◌, ◌^◌};
ghost use Rattle.phase_core.specs.Work.{Work};

use phase_core::{ItemWork, Machine, Memory, StepFault, StepOf};
use std::alloc::Global;
use std::cell::Cell;

/// An item whose content is the decimal digits of the rows that have run, which it also shows in a cell. One row may
/// run out of memory.
#[derive(Drop)]
struct Digits<'a> {
    rows: u32,
    ran: u32,
    digits: u64,
    shown: &'a Cell<u64>,
    fails_at: Option<u32>,
}

impl<'a> ItemWork for Digits<'a> {
    type Content = u64;

    ghost work = { λ d. record { rows = d.rows; ran = d.ran; content = d.digits; row_makes = λ k c. (c * 10 % 2 ^ 64 + (k + 1)) % 2 ^ 64 } };

    fn rows(&self) -> u32 {
        self.rows
    }

    fn run_row(&mut self, k: u32) -> Result<(), Memory> {
        if self.fails_at == Some(k) {
            return Err(Memory);
        }
        self.digits = self.digits.wrapping_mul(10).wrapping_add(u64::from(k) + 1);
        self.ran += 1;
        self.shown.set(self.digits);
        Ok(())
    }
}

/// Steps of two workers over an item of two rows and one of one row, and what the machine returns.
const STEPS: [(StepOf, Result<(), StepFault>); 16] = [
    (StepOf::Draw(2), Err(StepFault::NotAllowed)),
    (StepOf::Row(0), Err(StepFault::NotAllowed)),
    (StepOf::Drop(0), Err(StepFault::NotAllowed)),
    (StepOf::Draw(0), Ok(())),
    (StepOf::Draw(0), Err(StepFault::NotAllowed)),
    (StepOf::Row(0), Ok(())),
    (StepOf::Drop(0), Err(StepFault::NotAllowed)),
    (StepOf::Row(0), Ok(())),
    (StepOf::Row(0), Err(StepFault::NotAllowed)),
    (StepOf::Drop(0), Ok(())),
    (StepOf::Draw(1), Ok(())),
    (StepOf::Draw(0), Ok(())),
    (StepOf::Draw(0), Err(StepFault::NotAllowed)),
    (StepOf::Row(0), Err(StepFault::NotAllowed)),
    (StepOf::Row(1), Ok(())),
    (StepOf::Drop(1), Ok(())),
];

/// Lists of which the third step has no memory, and the second step isn't lawful.
const NO_MEMORY: [StepOf; 4] = [
    StepOf::Draw(0),
    StepOf::Row(0),
    StepOf::Row(0),
    StepOf::Draw(1),
];

const NOT_LAWFUL: [StepOf; 3] = [StepOf::Draw(1), StepOf::Draw(1), StepOf::Row(1)];

/// Steps after these lists, by which worker 0 is at row 1 of item 0, and worker 1 at row 0 of item 1, the last.
const STANDS: [(StepOf, Result<(), StepFault>); 6] = [
    (StepOf::Row(0), Err(StepFault::Memory)),
    (StepOf::Drop(1), Err(StepFault::NotAllowed)),
    (StepOf::Row(1), Ok(())),
    (StepOf::Drop(1), Ok(())),
    (StepOf::Draw(1), Ok(())),
    (StepOf::Row(1), Err(StepFault::NotAllowed)),
];

fn fresh<'a>(rows: u32, shown: &'a Cell<u64>, fails_at: Option<u32>) -> Digits<'a>
    ensures { result.ran ≡ 0 }
{
    Digits {
        rows,
        ran: 0,
        digits: 0,
        shown,
        fails_at,
    }
}

/// Two items, of two rows and of one, and two workers.
fn two_of_each<'a>(
    alloc: Global,
    shown: &'a Cell<u64>,
    second: &'a Cell<u64>,
    fails_at: Option<u32>,
) -> Result<Machine<Digits<'a>>, Memory> {
    let items = vec![in alloc; fresh(2, shown, fails_at), fresh(1, second, None)]?;
    Machine::new(alloc, items, 2)
}

fn is_taken(machine: &mut Machine<Digits<'_>>, step: StepOf) -> bool {
    machine.apply(step).is_ok()
}

/// Takes the one lawful step of a worker, if it isn't ended.
fn advances(machine: &mut Machine<Digits<'_>>, worker: u32) -> bool {
    is_taken(machine, StepOf::Draw(worker))
        || is_taken(machine, StepOf::Row(worker))
        || is_taken(machine, StepOf::Drop(worker))
}

/// Nine steps end both workers. Each bit of the choices says which worker takes the next step, if it can.
fn ends_in_nine(machine: &mut Machine<Digits<'_>>, choices: u32) -> bool {
    for place in 0..9u32 {
        let worker = (choices >> place) % 2;
        if !advances(machine, worker) && !advances(machine, 1 - worker) {
            return false;
        }
    }
    !advances(machine, 0) & !advances(machine, 1)
}

/// `true` if nine steps end both workers of new items, which show their digits in these cells.
fn all_run<'a>(alloc: Global, first: &'a Cell<u64>, second: &'a Cell<u64>, choices: u32) -> bool {
    match two_of_each(alloc, first, second, None) {
        Ok(mut machine) => ends_in_nine(&mut machine, choices),
        Err(_) => false,
    }
}

fn runs_to_the_end(alloc: Global, choices: u32) -> bool {
    let first = Cell::new(0);
    let second = Cell::new(0);
    all_run(alloc, &first, &second, choices) & (first.get() == 12) & (second.get() == 1)
}

fn every_order_ends(alloc: Global) -> bool {
    for choices in 0..512u32 {
        if !runs_to_the_end(alloc, choices) {
            return false;
        }
    }
    true
}

#[test]
fn every_order_runs_each_item_to_its_end(rt: HostRuntime) {
    assert!(rt; every_order_ends(rt.alloc()));
}

fn returns(machine: &mut Machine<Digits<'_>>, step: StepOf, wanted: Result<(), StepFault>) -> bool {
    machine.apply(step) == wanted
}

/// `true` if the machine returns these results for these steps.
fn all_return(
    machine: &mut Machine<Digits<'_>>,
    steps: &[(StepOf, Result<(), StepFault>)],
) -> bool {
    for (step, wanted) in steps {
        if !returns(machine, *step, *wanted) {
            return false;
        }
    }
    true
}

fn lawful_steps_are_taken(alloc: Global) -> bool {
    let cell = Cell::new(0);
    match two_of_each(alloc, &cell, &cell, None) {
        Ok(mut machine) => all_return(&mut machine, &STEPS),
        Err(_) => false,
    }
}

#[test]
fn each_step_is_lawful_as_the_table_says(rt: HostRuntime) {
    assert!(rt; lawful_steps_are_taken(rt.alloc()));
}

fn stops_at(machine: &mut Machine<Digits<'_>>, steps: &[StepOf], fault: StepFault) -> bool {
    machine.run_list(steps) == Err(fault)
}

fn keeps_what_was_taken(alloc: Global) -> bool {
    let cell = Cell::new(0);
    match two_of_each(alloc, &cell, &cell, Some(1)) {
        Ok(mut machine) => {
            stops_at(&mut machine, &NO_MEMORY, StepFault::Memory)
                & stops_at(&mut machine, &NOT_LAWFUL, StepFault::NotAllowed)
                & all_return(&mut machine, &STANDS)
        }
        Err(_) => false,
    }
}

#[test]
fn a_list_holds_up_to_its_faulty_step(rt: HostRuntime) {
    assert!(rt; keeps_what_was_taken(rt.alloc()));
}

/// Proved from the contracts alone: a worker that doesn't exist takes no step, and the last item leaves none to draw.
fn steps_are_proved(alloc: Global) -> Result<(), Memory> {
    let cell = Cell::new(0);
    let items = vec![in alloc; fresh(0, &cell, None)]?;
    let mut machine = Machine::new(alloc, items, 1)?;
    let is_refused = machine.apply(StepOf::Draw(1)).is_err();
    prove!(is_refused);
    let is_drawn = machine.apply(StepOf::Draw(0)).is_ok();
    prove!(is_drawn);
    Ok(())
}

#[test]
fn a_worker_draws_first(rt: HostRuntime) {
    assert!(rt; steps_are_proved(rt.alloc()).is_ok());
}
