//! The items of a phase.
ghost use Rattle.std.specs.Prelude.{◌≡◌, ◌<◌, length, map, OnOk, OnErr};
ghost use Rattle.phase_core.specs.Work.{Work, after_row};
ghost use Rattle.phase_core.specs.Core.{rows_of, ran_of, with_row_run};

use ent_types::Memory;

/// An item of a phase: rows that are run one after the other. Each row changes the item's content.
pub trait ItemWork {
    /// The content that the rows change. Only proofs have values of it.
    type Content;

    // The count of rows and of rows that have run, the content, and the content that each row makes of another.
    ghost work: { Self → Work Self.Content };

    /// Counts the rows of the item.
    fn rows(&self) -> u32
        ensures { result ≡ (work self.now).rows };

    /// Runs row `k`, which has to be the next one. Rows are numbered from 0.
    ///
    /// After `Memory` the item is as before.
    fn run_row(&mut self, k: u32) -> Result<(), Memory>
        requires left { k < (work self.old).rows }
        requires next { k ≡ (work self.old).ran }
        ensures ok { OnOk result (work self.new ≡ after_row (work self.old)) }
        ensures err { OnErr result (work self.new ≡ work self.old) };
}

/// Counts the rows of item `k`.
pub(crate) fn rows_at<I: ItemWork>(items: &[I], k: usize) -> u32
    requires { k < length items.now }
    ensures { result ≡ rows_of (map I.work items.now) k }
{
    items[k].rows()
}

/// Runs the next row of item `k`.
pub(crate) fn run_row_at<I: ItemWork>(items: &mut [I], k: usize, row: u32) -> Result<(), Memory>
    requires there { k < length items.old }
    requires left { row < rows_of (map I.work items.old) k }
    requires next { row ≡ ran_of (map I.work items.old) k }
    ensures ok { OnOk result (map I.work items.new ≡ with_row_run (map I.work items.old) k) }
    ensures err { OnErr result (map I.work items.new ≡ map I.work items.old) }
{
    items[k].run_row(row)
}
