//! Items.
ghost use Rattle.std.specs.Prelude.{◌≡◌};
ghost use Rattle.world_loans.specs.Fitting.{AreFitting};
ghost use Rattle.item_run.specs.ItemRows.{registry_of};
ghost use Rattle.item_run.specs.Items.{Finishes, IsItem};

use crate::texts::{Context, do_texts};
use chunk_block::Loan;
use enable_bits::Mask;
use scenario_record::SystemEntry;
use std::marker::Model;
use structural_ops::Frozen;

/// A system on a block that it visits, with the loan of the types that it writes. Contracts see the frozen world, the loan, and the
/// rows that are left.
#[derive(Drop)]
pub struct Item<'a> {
    frozen: &'a Frozen,
    system: &'a SystemEntry,
    loan: Loan,
    item: u32,
    frame: u32,
    left: Mask,
}

impl<'a> Model for Item<'a> {
    ghost use Rattle.std.specs.Coded.{codes};
    ghost use Rattle.expr_trees.specs.contracts.tree.Expr as expr;
    ghost use Rattle.item_run.specs.Items.{ItemState, IsItem};

    ghost Value = { ItemState };

    ghost coded = { Prim.hlevel (codes, expr.the_row.coded) };

    ghost view = { λ i. record { at = record { frozen = i.frozen.now; loan = i.loan; item = i.item; frame = i.frame }; system = i.system.now; left = i.left } };

    ghost invariant = { λ i. IsItem (record { at = record { frozen = i.frozen.now; loan = i.loan; item = i.item; frame = i.frame }; system = i.system.now; left = i.left }) };
}

impl<'a> Item<'a> {
    /// Returns the item of a loan, of which no row has run. `item` is the number of the visit, from 0, and `rows` has the matching rows.
    /// It takes no memory.
    pub fn new(
        frozen: &'a Frozen,
        system: &'a SystemEntry,
        item: u32,
        frame: u32,
        rows: Mask,
        loan: Loan,
    ) -> Item<'a>
        requires { IsItem (record { at = record { frozen = frozen.now; loan = loan; item = item; frame = frame }; system = system.now; left = rows }) }
        ensures { result ≡ record { at = record { frozen = frozen.now; loan = loan; item = item; frame = frame }; system = system.now; left = rows } }
    {
        Item {
            frozen,
            system,
            loan,
            item,
            frame,
            left: rows,
        }
    }

    /// Runs all rows that are left, text by text. It takes no memory.
    pub fn finish(&mut self)
        ensures { Finishes self.old self.new }
    {
        let context = Context {
            frozen: self.frozen,
            left: self.left,
            item: self.item,
            frame: self.frame,
        };
        do_texts(&context, self.system, &mut self.loan);
        self.left = Mask::empty();
    }

    /// Returns the loan as it stands. It takes no memory.
    pub fn take_apart(self) -> Loan
        ensures value { result ≡ self.entry.at.loan }
        ensures fit { AreFitting (registry_of self.entry.at) result.pieces }
    {
        let Item { loan, .. } = self;
        loan
    }
}
