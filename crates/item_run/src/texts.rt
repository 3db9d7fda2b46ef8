//! What a system writes into the rows of a block. A text is done for all rows at once: its values are worked out, then stored in
//! one pass.
ghost use Rattle.std.specs.Prelude.{◌≡◌, [], ◌∷◌, map};
ghost use Rattle.world_model.specs.Members.{In};
ghost use Rattle.expr_trees.specs.declared.tree.Assign.{Assign};
ghost use Rattle.expr_trees.specs.declared.tree.Switch.{Switch};
ghost use Rattle.expr_trees.specs.declared.tree.ValueExpr.TheVariants.{Int, Ref};
ghost use Rattle.run_model.specs.Job.{Assigns, Switches, texts_of};
ghost use Rattle.item_run.specs.Items.{IsItem};
ghost use Rattle.item_run.specs.Writing.{AreReady, CanAssign, CanSwitch, Does, rows_at};

use crate::rows::Rows;
use block_eval::{BlockRows, MOST_ROWS, evaluate, evaluate_mask, evaluate_refs};
use chunk_block::Loan;
use enable_bits::Mask;
use ent_types::Entity;
use expr_trees::{Assign, Expr, RefExpr, Switch, ValueExpr};
use scenario_record::SystemEntry;
use structural_ops::Frozen;

/// What all texts of an item have: the frozen world, the rows that they write, and where the block is in the run.
#[derive(Clone, Copy)]
pub(crate) struct Context<'a> {
    pub(crate) frozen: &'a Frozen,
    pub(crate) left: Mask,
    pub(crate) item: u32,
    pub(crate) frame: u32,
}

/// Writes the numbers of an expression into a field. The numbers lie on this call's stack.
#[inline(never)]
fn assign_numbers(context: &Context<'_>, text: &Assign, number: &Expr, loan: &mut Loan)
    requires ready { AreReady (rows_at context.now loan.old) }
    requires can { CanAssign (rows_at context.now loan.old) text.now }
    requires value { text.now.value ≡ Int number.now }
    ensures { Does (rows_at context.now loan.old) (Assigns text.now ∷ []) context.now.left loan.new }
{
    let mut scratch = [0; MOST_ROWS];
    let rows = Rows::new(context.frozen, loan, context.item, context.frame);
    let numbers = &mut scratch[..rows.len() as usize];
    evaluate(number, &rows, context.frozen, numbers);
    loan.store(text.ty, text.field, numbers, &context.left);
}

/// Writes the entities that a reference names into a field. The entities lie on this call's stack.
#[inline(never)]
fn assign_references(context: &Context<'_>, text: &Assign, reference: &RefExpr, loan: &mut Loan)
    requires ready { AreReady (rows_at context.now loan.old) }
    requires can { CanAssign (rows_at context.now loan.old) text.now }
    requires value { text.now.value ≡ Ref reference.now }
    ensures { Does (rows_at context.now loan.old) (Assigns text.now ∷ []) context.now.left loan.new }
{
    let mut scratch = [Entity::NULL; MOST_ROWS];
    let rows = Rows::new(context.frozen, loan, context.item, context.frame);
    let references = &mut scratch[..rows.len() as usize];
    evaluate_refs(reference, &rows, references);
    loan.store_references(text.ty, text.field, references, &context.left);
}

/// Does an assignment on all rows of the mask.
fn assign(context: &Context<'_>, text: &Assign, loan: &mut Loan)
    requires ready { AreReady (rows_at context.now loan.old) }
    requires can { CanAssign (rows_at context.now loan.old) text.now }
    ensures { Does (rows_at context.now loan.old) (Assigns text.now ∷ []) context.now.left loan.new }
{
    match &text.value {
        ValueExpr::Int(number) => assign_numbers(context, text, number, loan),
        ValueExpr::Ref(reference) => assign_references(context, text, reference, loan),
    }
}

/// Enables or disables a type in all rows of the mask.
fn switch(context: &Context<'_>, text: &Switch, loan: &mut Loan)
    requires ready { AreReady (rows_at context.now loan.old) }
    requires can { CanSwitch (rows_at context.now loan.old) text.now }
    ensures { Does (rows_at context.now loan.old) (Switches text.now ∷ []) context.now.left loan.new }
{
    let rows = Rows::new(context.frozen, loan, context.item, context.frame);
    let on = evaluate_mask(&text.value, &rows, context.frozen);
    loan.store_enabled(text.ty, &on, &context.left);
}

/// Does assignments in order.
fn assign_all(context: &Context<'_>, texts: &[Assign], loan: &mut Loan)
    requires ready { AreReady (rows_at context.now loan.old) }
    requires can { (a : Assign) → In a texts.now → CanAssign (rows_at context.now loan.old) a }
    ensures { Does (rows_at context.now loan.old) (map Assigns texts.now) context.now.left loan.new }
{
    for text in texts {
        assign(context, text, loan);
    }
}

/// Does enable texts in order.
fn switch_all(context: &Context<'_>, texts: &[Switch], loan: &mut Loan)
    requires ready { AreReady (rows_at context.now loan.old) }
    requires can { (w : Switch) → In w texts.now → CanSwitch (rows_at context.now loan.old) w }
    ensures { Does (rows_at context.now loan.old) (map Switches texts.now) context.now.left loan.new }
{
    for text in texts {
        switch(context, text, loan);
    }
}

/// Does the texts of a system on all rows of the mask: its assignments in order, then its enable texts in order. It takes no memory.
pub(crate) fn do_texts(context: &Context<'_>, system: &SystemEntry, loan: &mut Loan)
    requires { IsItem (record { at = rows_at context.now loan.old; system = system.now; left = context.now.left }) }
    ensures { Does (rows_at context.now loan.old) (texts_of system.now) context.now.left loan.new }
{
    assign_all(context, system.set.as_slice(), loan);
    switch_all(context, system.enable.as_slice(), loan);
}
