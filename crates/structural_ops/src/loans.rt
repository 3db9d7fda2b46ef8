//! Loans on their way, and which loans are wanted.
ghost use Rattle.std.specs.Prelude.{◌≡◌, ◌+◌, ◌-◌, ◌<◌, ◌≤◌, [], ◌∷◌, ◌++◌, length, vec_capacity, IfOk, OnOk, OnErr};
ghost use Rattle.world_model.specs.Members.{In};
ghost use Rattle.chunk_block.specs.Blocks.{LoanState, IsLoanOf};
ghost use Rattle.archetype_store.specs.Stores.{OfBlock};
ghost use Rattle.world_loans.specs.Returns.{after_returns};

use archetype_store::ArchetypeStore;
use chunk_block::Loan;
use ent_types::{Memory, TypeSet};
use std::alloc::Global;
use std::marker::Model;

/// Loans in order, with room for more. Contracts see the loans, and for how many more there is room.
#[derive(Drop)]
pub struct Loans {
    loans: Vec<Loan>,
    spare: u32,
}

impl Model for Loans {
    ghost use Rattle.std.specs.Prelude.{◌+◌, ◌≤◌, ◌<◌, ◌^◌, length, vec_capacity};
    ghost use Rattle.structural_ops.specs.Lent.{LoansState};

    ghost Value = { LoansState };

    ghost view = { λ l. record { loans = l.loans.items; spare = l.spare } };

    ghost invariant = { λ l. (length l.loans.items + l.spare ≤ vec_capacity l.loans) × (length l.loans.items + l.spare < 2 ^ 32) };
}

/// Adds a loan, for which there is room.
fn push_loan(loans: &mut Vec<Loan>, loan: Loan)
    requires { length loans.old.items < vec_capacity loans.old }
    ensures items { loans.new.items ≡ loans.old.items ++ loan ∷ [] }
    ensures room { vec_capacity loans.new ≡ vec_capacity loans.old }
{
    loans.push_reserved(loan);
}

/// Gives each loan back to its block. It takes no memory.
fn give_each(store: &mut ArchetypeStore, loans: Vec<Loan>)
    requires { (l : LoanState) → In l loans.items → OfBlock l.number (λ b. IsLoanOf b l) store.old.blocks }
    ensures { store.new ≡ after_returns loans.items store.old }
{
    for loan in loans {
        let number = loan.number();
        store.give_back(number, loan);
    }
}

impl Loans {
    /// Returns no loans, with room for `n`.
    pub fn with_room(alloc: Global, n: u32) -> Result<Loans, Memory>
        ensures { IfOk result (λ l. l ≡ record { loans = []; spare = n }) }
    {
        let loans = Vec::with_capacity(alloc, n as usize)?;
        Ok(Loans { loans, spare: n })
    }

    /// Returns the number of loans.
    pub fn len(&self) -> u32
        ensures { result ≡ length self.now.loans }
    {
        self.loans.len() as u32
    }

    /// Returns for how many more loans there is room.
    pub fn spare(&self) -> u32
        ensures { result ≡ self.now.spare }
    {
        self.spare
    }

    /// Puts a loan last. It takes no memory.
    pub fn add(&mut self, loan: Loan)
        requires { 1 ≤ self.old.spare }
        ensures { self.new ≡ record { loans = self.old.loans ++ loan ∷ []; spare = self.old.spare - 1 } }
    {
        push_loan(&mut self.loans, loan);
        self.spare -= 1;
    }

    /// Takes the last loan, and keeps room for one in its place.
    pub fn take_last(&mut self) -> Loan
        requires { 1 ≤ length self.old.loans }
        ensures loans { self.old.loans ≡ self.new.loans ++ result ∷ [] }
        ensures spare { self.new.spare ≡ self.old.spare + 1 }
    {
        self.spare += 1;
        match self.loans.pop() {
            Some(loan) => loan,
            None => unreachable!(),
        }
    }

    /// Gives each loan back to its block. It takes no memory.
    pub(crate) fn give_back(self, store: &mut ArchetypeStore)
        requires { (l : LoanState) → In l self.loans → OfBlock l.number (λ b. IsLoanOf b l) store.old.blocks }
        ensures { store.new ≡ after_returns self.loans store.old }
    {
        let Loans { loans, .. } = self;
        give_each(store, loans);
    }
}

/// What is to be lent. Contracts see a list: for each loan the number of its block and its types.
#[derive(Drop)]
pub struct LendPlan {
    entries: Vec<(u32, TypeSet)>,
}

impl Model for LendPlan {
    ghost use Rattle.std.specs.Prelude.{ℕ, List};

    ghost Value = { List (ℕ × List ℕ) };

    ghost view = { λ p. p.entries.items };
}

impl LendPlan {
    /// Returns the plan without a loan. It takes no memory.
    pub fn new(alloc: Global) -> LendPlan
        ensures { result ≡ [] }
    {
        LendPlan {
            entries: Vec::new(alloc),
        }
    }

    /// Adds a loan of some types of a block. After `Memory` the plan is as before.
    pub fn add(&mut self, block: u32, types: &TypeSet) -> Result<(), Memory>
        ensures ok { OnOk result (self.new ≡ self.old ++ (block, types.now) ∷ []) }
        ensures err { OnErr result (self.new ≡ self.old) }
    {
        self.entries.push((block, *types))?;
        Ok(())
    }

    /// Returns the number of loans.
    pub fn len(&self) -> usize
        ensures { result ≡ length self.now }
    {
        self.entries.len()
    }

    /// Returns the number of the block and the types of each loan.
    pub fn entries(&self) -> &[(u32, TypeSet)]
        ensures { result.now ≡ self.now }
    {
        &self.entries
    }
}
