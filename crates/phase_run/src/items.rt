//! The items of a run: each visit with its loan.
ghost use Rattle.std.specs.Prelude.{◌≡◌, ◌≤◌, [], length, reverse};
ghost use Rattle.run_model.specs.Job.{texts_of};
ghost use Rattle.item_run.specs.Items.{IsItem};
ghost use Rattle.item_run.specs.Writing.{Does};
ghost use Rattle.phase_run.specs.Visited.{AreDone, AreItems, item_of, rows_of_loan};

use chunk_block::Loan;
use enable_bits::Mask;
use item_run::Item;
use query_select::Visit;
use scenario_record::SystemEntry;
use structural_ops::{Frozen, Loans};

/// Runs an item, and returns its loan.
fn run_item(
    frozen: &Frozen,
    system: &SystemEntry,
    number: u32,
    frame: u32,
    rows: Mask,
    loan: Loan,
) -> Loan
    requires { IsItem (item_of frozen.now system.now frame number rows loan) }
    ensures { Does (rows_of_loan frozen.now frame number loan) (texts_of system.now) rows result }
{
    let mut item = Item::new(frozen, system, number, frame, rows, loan);
    item.finish();
    item.take_apart()
}

/// Runs the item of each visit, the last one first, and returns the loans in that order. It takes no memory.
///
/// `lent` has the loan of each visit, in the order of the visits, and `done` has room for them.
pub(crate) fn run_items(
    frozen: &Frozen,
    system: &SystemEntry,
    frame: u32,
    visits: &[Visit],
    lent: Loans,
    done: Loans,
) -> Loans
    requires items { AreItems frozen.now system.now frame 0 visits.now lent.loans }
    requires empty { done.loans ≡ [] }
    requires room { length visits.now ≤ done.spare }
    ensures { AreDone frozen.now system.now frame 0 visits.now lent.loans (reverse result.loans) }
{
    let mut waiting = lent;
    let mut done = done;
    for _ in 0..visits.len() {
        let loan = waiting.take_last();
        let number = waiting.len();
        let rows = visits[number as usize].rows;
        done.add(run_item(frozen, system, number, frame, rows, loan));
    }
    done
}
