//! A world that lends: while types of its blocks are written elsewhere, all may read the rest.
ghost use Rattle.std.specs.Prelude.{◌≡◌, ◌-◌, ◌≤◌, ⊤, [], map, length, true, false, Some};
ghost use Rattle.ent_types.specs.TypeLookups.{is_buffer_at, is_shared_at};
ghost use Rattle.ent_types.specs.TypeSets.{has_type};
ghost use Rattle.world_model.specs.Found.{part_at};
ghost use Rattle.world_model.specs.Lawful.{IsLawfulHome};
ghost use Rattle.world_model.specs.Members.{In};
ghost use Rattle.world_model.specs.Reads.{element_of, elements_of};
ghost use Rattle.chunk_block.specs.Blocks.{LoanState, IsLoanOf};
ghost use Rattle.archetype_store.specs.Stores.{OfBlock};
ghost use Rattle.world_loans.specs.Plans.{CanLend, after_lends, loans_from};
ghost use Rattle.world_loans.specs.Returns.{after_returns};
ghost use Rattle.structural_ops.specs.Numbered.{HasBlock};
ghost use Rattle.structural_ops.specs.Freezing.{AreBlank, AreLoansOf, IsPlan, frozen_by, is_lent, lent_block, lent_of, loan_of, with_loans};

use crate::World;
use crate::loans::{LendPlan, Loans};
use crate::lookups::{elements_in, has_in, value_in};
use crate::tables::Tables;
use archetype_store::ArchetypeStore;
use chunk_block::Block;
use ent_types::{Entity, Registry, TypeId, TypeSet, Value, Values};
use expr_eval::Lookup;
use std::marker::Model;

/// A world of which columns and bits are lent. Contracts see the world, where the cell of a type that is lent is blank, and the
/// types that are lent of each block.
///
/// It has no call that writes or that changes which rows there are.
///
/// ```text
/// let (frozen, mut loans) = world.freeze(&plan, loans);
/// let mut loan = loans.take_last();
/// loan.field_set(row, ty, field, value);
/// loans.add(loan);
/// let world = frozen.restore(loans);
/// ```
#[derive(Drop)]
pub struct Frozen {
    pub(crate) tables: Tables,
}

impl Model for Frozen {
    ghost use Rattle.structural_ops.specs.Freezing.{FrozenState, frozen_of, IsFrozen};

    ghost Value = { FrozenState };

    ghost view = { λ f. frozen_of f.tables };

    ghost invariant = { λ f. IsFrozen f.tables };
}

/// Lends what each entry names, and puts its loan last.
fn lend_each(store: &mut ArchetypeStore, entries: &[(u32, TypeSet)], loans: &mut Loans)
    requires can { CanLend entries.now store.old }
    requires room { length entries.now ≤ loans.old.spare }
    requires empty { loans.old.loans ≡ [] }
    ensures store { store.new ≡ after_lends entries.now store.old }
    ensures loans { loans.new ≡ record { loans = loans_from entries.now store.old; spare = loans.old.spare - length entries.now } }
    ensures own { (l : LoanState) → In l loans.new.loans → OfBlock l.number (λ b. IsLoanOf b l) store.new.blocks }
{
    for entry in entries {
        let loan = store.lend(entry.0, &entry.1);
        loans.add(loan);
    }
}

impl World {
    /// Lends what a plan names, as one loan for each entry, in order. It takes no memory.
    pub fn freeze(self, plan: &LendPlan, mut loans: Loans) -> (Frozen, Loans)
        requires plan { IsPlan plan.now self }
        requires empty { loans.loans ≡ [] }
        requires room { length plan.now ≤ loans.spare }
        ensures frozen { result.0 ≡ frozen_by plan.now self }
        ensures loans { result.1 ≡ record { loans = map (loan_of self) plan.now; spare = loans.spare - length plan.now } }
        ensures own { AreLoansOf result.0 result.1.loans }
    {
        let World { mut tables } = self;
        tables.store.is_sound();
        lend_each(&mut tables.store, plan.entries(), &mut loans);
        tables.store.is_sound();
        (Frozen { tables }, loans)
    }
}

impl Frozen {
    /// Takes all loans back, in any order, and returns the world with what was written into them. It takes no memory.
    pub fn restore(self, loans: Loans) -> World
        requires { AreLoansOf self loans.loans }
        ensures { result ≡ with_loans loans.loans self.state }
    {
        let Frozen { mut tables } = self;
        tables.store.is_sound();
        loans.give_back(&mut tables.store);
        World { tables }
    }

    /// Returns the registry.
    pub fn registry(&self) -> &Registry
        ensures { result.now ≡ self.now.state.world.registry }
    {
        &self.tables.registry
    }

    /// Returns the block of a number. Its rows can be read, and the columns and bits that aren't lent.
    pub fn block(&self, number: u32) -> &Block
        requires { HasBlock number (λ _. ⊤) self.now.state }
        ensures block { HasBlock number (λ b. result.now ≡ lent_block self.now.state.world.registry (lent_of self.now number) b) self.now.state }
        ensures blank { HasBlock number (λ b. AreBlank (lent_of self.now number) b.rows) self.now.state }
        ensures home { HasBlock number (λ b. IsLawfulHome self.now.state.world.registry b.home) self.now.state }
    {
        self.tables.store.is_sound();
        self.tables.store.block(number)
    }

    /// Returns the values that all rows of the block of a number have of a shared type.
    pub fn shared_of(&self, number: u32, ty: TypeId) -> &Values
        requires there { HasBlock number (λ b. has_type b.home.types ty.0 ≡ true) self.now.state }
        requires shared { is_shared_at self.now.state.world.registry ty.0 ≡ true }
        ensures { HasBlock number (λ b. part_at ty.0 b.home.shared ≡ Some result.now) self.now.state }
    {
        self.tables.store.shared_of(number, ty)
    }

    /// Returns the number of elements of a buffer, or `None` if and only if the entity isn't alive or lacks the type. The type must
    /// be a buffer type that isn't lent.
    pub fn elements(&self, e: Entity, ty: TypeId) -> Option<u32>
        requires buffer { is_buffer_at self.now.state.world.registry ty.0 ≡ true }
        requires held { is_lent self.now ty.0 ≡ false }
        ensures { result ≡ elements_of self.now.state.world e ty.0 }
    {
        let place = self.tables.table.place_of(e)?;
        let elements = elements_in(&self.tables.store, &self.tables.registry, place, ty)?;
        Some(elements.len())
    }

    /// Returns the value of a field of the element at place `k`, from 0, or `None` also if there is no such element or field. The
    /// type must be a buffer type that isn't lent.
    pub fn element(&self, e: Entity, ty: TypeId, k: u32, field: u8) -> Option<Value>
        requires buffer { is_buffer_at self.now.state.world.registry ty.0 ≡ true }
        requires held { is_lent self.now ty.0 ≡ false }
        ensures { result ≡ element_of self.now.state.world e ty.0 k field }
    {
        let place = self.tables.table.place_of(e)?;
        let elements = elements_in(&self.tables.store, &self.tables.registry, place, ty)?;
        if usize::from(field) >= self.tables.registry.fields(ty).len() {
            return None;
        }
        if k >= elements.len() {
            return None;
        }
        Some(elements.value(k, field))
    }
}

/// Other rows are those of the frozen world. A type can be read that isn't lent of any block and isn't a buffer type.
impl Lookup for Frozen {
    ghost use Rattle.std.specs.Prelude.{not, ◌&&◌};
    ghost use Rattle.ent_types.specs.TypeLookups.{is_buffer_at};
    ghost use Rattle.world_model.specs.Found.{found as found_in};
    ghost use Rattle.structural_ops.specs.Freezing.{is_lent};

    ghost found = { λ f e. found_in e f.state.world.blocks };

    ghost can_read = { λ f ty. not (is_lent f ty.0) && not (is_buffer_at f.state.world.registry ty.0) };

    fn value(&self, e: Entity, ty: TypeId, field: u8) -> Option<Value> {
        let place = self.tables.table.place_of(e)?;
        value_in(&self.tables.store, &self.tables.registry, place, ty, field)
    }

    fn has(&self, e: Entity, ty: TypeId) -> bool {
        match self.tables.table.place_of(e) {
            None => false,
            Some(place) => has_in(&self.tables.store, &self.tables.registry, place, ty),
        }
    }

    fn alive(&self, e: Entity) -> bool {
        self.tables.table.place_of(e).is_some()
    }
}
