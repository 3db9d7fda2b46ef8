//! The search for a sibling that precedes itself through a chain.
ghost use Rattle.std.specs.Prelude.{◌≡◌, ℕ, ◌<◌, Bool, false, true, ◌||◌, All, IfOk, OnOk, List, [], length, map, slice_index_or};
ghost use Rattle.system_order.specs.Chain.{earliest_on_cycle, table_of, widened};
ghost use Rattle.system_order.specs.Child.{precedes};

use crate::Child;
use crate::group::is_before;
use ent_types::Memory;
use std::alloc::Global;
use std::marker::Model;

/// A row of the table of siblings: a mark for each sibling to which the row's own sibling leads.
#[derive(Debug, Drop)]
pub(crate) struct Row {
    marks: Vec<bool>,
}

impl Model for Row {
    ghost use Rattle.std.specs.Prelude.{List, Bool};

    ghost Value = { List Bool };

    ghost view = { λ row. row.marks.items };
}

impl Row {
    /// Returns the row of a sibling: a mark for each sibling that it precedes.
    fn of(alloc: Global, children: &[Child], siblings: &[u32], child: u32) -> Result<Row, Memory>
        requires known { All (λ number. number < length children.now) siblings.now }
        requires child { child < length children.now }
        ensures { OnOk result (result ≡ Ok (map (precedes children.now child) siblings.now)) }
    {
        let mut marks = Vec::with_capacity(alloc, siblings.len())?;
        for other in siblings {
            marks.push(is_before(children, child, *other))?;
        }
        Ok(Row { marks })
    }

    /// Returns a row with the same marks.
    fn copy(&self, alloc: Global) -> Result<Row, Memory>
        ensures { OnOk result (result ≡ Ok self.now) }
    {
        Ok(Row {
            marks: Vec::from_slice(alloc, self.marks.as_slice())?,
        })
    }

    /// `true` if the sibling at a place is marked.
    fn has(&self, at: usize) -> bool
        requires { at < length self.now }
        ensures { result ≡ slice_index_or self.now at false }
    {
        self.marks[at]
    }

    /// Marks also the siblings to which the sibling at a place leads, if that one is marked.
    #[tactic(auto, unfolding(crate::specs::Chain::widened))]
    fn widen(&mut self, at: usize, more: &Row)
        requires within { at < length self.old }
        requires alike { length more.now ≡ length self.old }
        ensures { self.new ≡ widened more.now at self.old }
    {
        if self.has(at) {
            mark_all(&mut self.marks, &more.marks);
        }
    }
}

/// Sets each mark that another row of as many marks has.
fn mark_all(marks: &mut [bool], more: &[bool])
    requires { length more.now ≡ length marks.old }
    ensures { (k : ℕ) → k < length marks.old → slice_index_or marks.new k false ≡ (slice_index_or marks.old k false || slice_index_or more.now k false) }
{
    for (at, is_marked) in more.iter().enumerate() {
        if *is_marked {
            marks[at] = true;
        }
    }
}

/// Returns a row for each sibling, with a mark for each sibling that it precedes.
fn list_rows(alloc: Global, children: &[Child], siblings: &[u32]) -> Result<Vec<Row>, Memory>
    requires { All (λ number. number < length children.now) siblings.now }
    ensures { IfOk result (λ rows. rows.items ≡ table_of (precedes children.now) siblings.now) }
{
    let mut rows = Vec::with_capacity(alloc, siblings.len())?;
    for child in siblings {
        rows.push(Row::of(alloc, children, siblings, *child)?)?;
    }
    Ok(rows)
}

/// Lets each row lead through the sibling at a place.
fn lead_through(alloc: Global, rows: &mut [Row], at: usize) -> Result<(), Memory>
    requires within { at < length rows.old }
    requires square { All (λ row. length row ≡ length rows.old) rows.old }
    ensures { OnOk result (rows.new ≡ map (widened (slice_index_or rows.old at []) at) rows.old) }
{
    let more = rows[at].copy(alloc)?;
    for row in rows.iter_mut() {
        row.widen(at, &more);
    }
    Ok(())
}

/// Returns the earliest declared sibling that precedes itself through a chain.
///
/// It is called only if siblings can't be placed. It reads or writes one mark for each triple of siblings.
#[tactic(auto, unfolding(crate::specs::Chain::earliest_on_cycle))]
pub(crate) fn find_cycle(
    alloc: Global,
    children: &[Child],
    siblings: &[u32],
) -> Result<Option<u32>, Memory>
    requires { All (λ number. number < length children.now) siblings.now }
    ensures { IfOk result (λ found. found ≡ earliest_on_cycle (precedes children.now) siblings.now) }
{
    let mut rows = list_rows(alloc, children, siblings)?;
    for middle in 0..siblings.len() {
        lead_through(alloc, &mut rows, middle)?;
    }
    for (at, child) in siblings.iter().enumerate() {
        if rows[at].has(at) {
            return Ok(Some(*child));
        }
    }
    Ok(None)
}
