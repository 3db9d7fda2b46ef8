//! The machine: its steps, and the states of its workers.
ghost use Rattle.std.specs.Prelude.{◌≡◌, ◌<◌, All, map, slice_get, IfOk, IfErr, OnOk, OnErr};
ghost use Rattle.phase_core.specs.Core.{opening, Takes, TakesAll, FaultComes, StopsAt, IsSound};
ghost use Rattle.phase_core.specs.Phase.{core_of};
ghost use Rattle.phase_core.specs.declared.machine.StepFault.TheVariants.{Memory as OutOfMemory};

use crate::item::{ItemWork, rows_at, run_row_at};
use ent_types::Memory;
use std::alloc::Global;
use std::marker::Model;
use std::snapshot::Snapshot;

/// One step of the worker with a number. Workers are numbered from 0.
#[derive(Clone, Copy, Debug, PartialEq, Eq)]
pub enum StepOf {
    /// The idle worker takes the next item, at its first row, or ends if no item is left.
    Draw(u32),
    /// The worker runs the next row of its item.
    Row(u32),
    /// The worker puts down its item, which has no row left, and is idle then.
    Drop(u32),
}

/// Why a step was not taken.
#[derive(Clone, Copy, Debug, PartialEq, Eq)]
pub enum StepFault {
    /// There is no such worker, or it is in another state.
    NotAllowed,
    /// The row of the item ran out of memory.
    Memory,
}

impl From<Memory> for StepFault {
    ghost from_gives = { λ _ fault. fault ≡ OutOfMemory };

    fn from(_: Memory) -> StepFault {
        StepFault::Memory
    }
}

/// The state of a worker between two steps.
#[derive(Clone, Copy, Debug, PartialEq, Eq)]
pub enum WorkerState {
    /// It holds no item.
    Idle,
    /// It holds the item with the first number, of which it has run the second number of rows.
    AtRow(usize, u32),
    /// It drew when no item was left.
    Ended,
}

/// The items of a phase, the number that is drawn next, and the state of each worker.
///
/// Its steps are the events of a phase that many threads run: a worker draws an item, runs one row of it, or puts it
/// down at its end. The machine is entsim's own.
#[derive(Drop)]
pub struct Machine<I: ItemWork> {
    opened: Snapshot<Vec<I>>,
    items: Vec<I>,
    next: usize,
    workers: Vec<WorkerState>,
}

impl<I: ItemWork> Model for Machine<I> {
    ghost use Rattle.std.specs.Prelude.{map};
    ghost use Rattle.phase_core.specs.Phase.{Phase, core_of};
    ghost use Rattle.phase_core.specs.Core.{IsKept};

    ghost Value = { Phase I };

    ghost view = { λ m. record { opened = m.opened.value.items; items = m.items.items; next = m.next; workers = m.workers.items } };

    ghost invariant = { λ m. IsKept (core_of I.work (record { opened = m.opened.value.items; items = m.items.items; next = m.next; workers = m.workers.items })) };
}

impl<I: ItemWork + Drop> Machine<I> {
    /// Returns a machine whose workers are all idle, and which draws item 0 first. After `Memory` the items are
    /// dropped.
    pub fn new(alloc: Global, items: Vec<I>, workers: u32) -> Result<Machine<I>, Memory>
        requires workers { 0 < workers }
        requires unrun { All (λ w. w.ran ≡ 0) (map I.work items.items) }
        ensures opens { IfOk result (λ m. core_of I.work m ≡ opening (map I.work items.items) workers) }
        ensures sound { IfOk result (λ m. IsSound (core_of I.work m)) }
    {
        let workers = vec![in alloc; WorkerState::Idle; workers as usize]?;
        Ok(Machine {
            opened: Snapshot::of(&items),
            items,
            next: 0,
            workers,
        })
    }
}

impl<I: ItemWork> Machine<I> {
    /// Takes one step, if it is lawful. After a fault all is as before.
    pub fn apply(&mut self, step: StepOf) -> Result<(), StepFault>
        ensures ok { OnOk result (Takes (core_of I.work self.old) step (core_of I.work self.new)) }
        ensures fault { IfErr result (λ e. FaultComes (core_of I.work self.old) step e) }
        ensures unchanged { OnErr result (core_of I.work self.new ≡ core_of I.work self.old) }
        ensures sound { IsSound (core_of I.work self.new) }
    {
        match step {
            StepOf::Draw(worker) => self.draw(worker),
            StepOf::Row(worker) => self.run_row(worker),
            StepOf::Drop(worker) => self.put_down(worker),
        }
    }

    /// Takes the steps in their order, up to the first fault. The steps before it hold.
    pub fn run_list(&mut self, steps: &[StepOf]) -> Result<(), StepFault>
        ensures ok { OnOk result (TakesAll (core_of I.work self.old) steps.now (core_of I.work self.new)) }
        ensures fault { IfErr result (λ e. StopsAt (core_of I.work self.old) steps.now e (core_of I.work self.new)) }
        ensures sound { IsSound (core_of I.work self.new) }
    {
        // An empty list leaves the machine as it is, and it is sound.
        let _ = &self.next;
        for step in steps {
            self.apply(*step)?;
        }
        Ok(())
    }

    /// Returns the state of a worker, if there is one of this number.
    fn state_of(&self, worker: u32) -> Option<WorkerState>
        ensures { result ≡ slice_get self.now.workers worker }
    {
        self.workers.get(worker as usize).copied()
    }

    /// Lets an idle worker take the next item, or end.
    fn draw(&mut self, worker: u32) -> Result<(), StepFault>
        ensures ok { OnOk result (Takes (core_of I.work self.old) (StepOf.Draw worker) (core_of I.work self.new)) }
        ensures fault { IfErr result (λ e. FaultComes (core_of I.work self.old) (StepOf.Draw worker) e) }
        ensures unchanged { OnErr result (core_of I.work self.new ≡ core_of I.work self.old) }
        ensures sound { IsSound (core_of I.work self.new) }
    {
        let Some(WorkerState::Idle) = self.state_of(worker) else {
            return Err(StepFault::NotAllowed);
        };
        if self.next < self.items.len() {
            self.workers[worker as usize] = WorkerState::AtRow(self.next, 0);
            self.next += 1;
        } else {
            self.workers[worker as usize] = WorkerState::Ended;
        }
        Ok(())
    }

    /// Runs the next row of a worker's item.
    fn run_row(&mut self, worker: u32) -> Result<(), StepFault>
        ensures ok { OnOk result (Takes (core_of I.work self.old) (StepOf.Row worker) (core_of I.work self.new)) }
        ensures fault { IfErr result (λ e. FaultComes (core_of I.work self.old) (StepOf.Row worker) e) }
        ensures unchanged { OnErr result (core_of I.work self.new ≡ core_of I.work self.old) }
        ensures sound { IsSound (core_of I.work self.new) }
    {
        let Some(WorkerState::AtRow(item, row)) = self.state_of(worker) else {
            return Err(StepFault::NotAllowed);
        };
        if row >= rows_at(&self.items, item) {
            return Err(StepFault::NotAllowed);
        }
        run_row_at(&mut self.items, item, row)?;
        self.workers[worker as usize] = WorkerState::AtRow(item, row + 1);
        Ok(())
    }

    /// Takes its finished item from a worker.
    fn put_down(&mut self, worker: u32) -> Result<(), StepFault>
        ensures ok { OnOk result (Takes (core_of I.work self.old) (StepOf.Drop worker) (core_of I.work self.new)) }
        ensures fault { IfErr result (λ e. FaultComes (core_of I.work self.old) (StepOf.Drop worker) e) }
        ensures unchanged { OnErr result (core_of I.work self.new ≡ core_of I.work self.old) }
        ensures sound { IsSound (core_of I.work self.new) }
    {
        let Some(WorkerState::AtRow(item, row)) = self.state_of(worker) else {
            return Err(StepFault::NotAllowed);
        };
        if row != rows_at(&self.items, item) {
            return Err(StepFault::NotAllowed);
        }
        self.workers[worker as usize] = WorkerState::Idle;
        Ok(())
    }
}
