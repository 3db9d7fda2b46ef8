//! The rows of an item as expressions see them: types of the loan as they now are, all others from the frozen block.
ghost use Rattle.std.specs.Prelude.{◌≡◌, ◌<◌, not, true, MatchOption};
ghost use Rattle.ent_types.specs.TypeLookups.{is_shared_at};
ghost use Rattle.ent_types.specs.TypeSets.{has_type};
ghost use Rattle.item_run.specs.ItemRows.{AreLawfulRows, AreRows, ShowsNothing, ShowsType, frozen_block, own_row_at, registry_of, row_count, sources_in};

use block_columns::{ColumnSlice, TypeRows};
use block_eval::BlockRows;
use chunk_block::{Block, Loan};
use enable_bits::Mask;
use ent_types::{Entity, Registry, TypeId, Value};
use expr_eval::RowReader;
use std::marker::Model;
use structural_ops::Frozen;

/// The rows of a block with a loan of it, for expressions over all rows.
#[derive(Drop)]
pub(crate) struct Rows<'a> {
    frozen: &'a Frozen,
    registry: &'a Registry,
    block: &'a Block,
    loan: &'a Loan,
    item: u32,
    frame: u32,
}

impl<'a> Model for Rows<'a> {
    ghost use Rattle.item_run.specs.ItemRows.{AreRowsOf, RowsState};

    ghost Value = { RowsState };

    ghost view = { λ r. record { frozen = r.frozen.now; loan = r.loan.now; item = r.item; frame = r.frame } };

    ghost invariant = { λ r. AreRowsOf r.registry.now r.block.now (record { frozen = r.frozen.now; loan = r.loan.now; item = r.item; frame = r.frame }) };
}

impl<'a> Rows<'a> {
    /// Returns the rows of the block of a loan. `item` is the number of the visit, from 0.
    pub(crate) fn new(frozen: &'a Frozen, loan: &'a Loan, item: u32, frame: u32) -> Rows<'a>
        requires { AreRows (record { frozen = frozen.now; loan = loan.now; item = item; frame = frame }) }
        ensures value { result ≡ record { frozen = frozen.now; loan = loan.now; item = item; frame = frame } }
        ensures lawful { AreLawfulRows (record { frozen = frozen.now; loan = loan.now; item = item; frame = frame }) }
    {
        let block = frozen.block(loan.number());
        // Their contracts say that each row has a cell for each type, and how many rows there are at most.
        let _ = block.types();
        let _ = block.len();
        let _ = block.capacity();
        Rows {
            frozen,
            registry: frozen.registry(),
            block,
            loan,
            item,
            frame,
        }
    }

    /// `true` if the block has the type, which may be an unknown one.
    fn has(&self, ty: TypeId) -> bool
        ensures { result ≡ has_type (frozen_block self.now).home.types ty.0 }
    {
        self.registry.knows(ty) && self.block.types().has(ty)
    }

    /// Returns the cells of a type, or `None` if the block lacks the type, or it is shared or lent to others.
    fn type_rows(&self, ty: TypeId) -> Option<&TypeRows>
        ensures { MatchOption result (ShowsNothing ty.0 self.now) (λ cells. ShowsType ty.0 self.now cells.now) }
    {
        match self.loan.rows_of(ty) {
            Some(cells) => Some(cells),
            None => self.block.rows_of(ty),
        }
    }

    /// Returns the value of a row in a field that lies in a column.
    fn value(&self, place: u32, ty: TypeId, field: u8) -> Value
        requires within { place < row_count self.now }
        requires has { (sources_in self.now).own ty field ≡ true }
        requires column { not (is_shared_at (registry_of self.now) ty.0) ≡ true }
        ensures { result ≡ (own_row_at self.now place).field ty field }
    {
        // By the invariant a field that is read and lies in a column is shown.
        let _ = &self.block;
        match self.type_rows(ty) {
            Some(cells) => cells.get(place, field),
            None => unreachable!(),
        }
    }

    /// Returns the row at a place.
    pub(crate) fn row(&'a self, place: u32) -> RowAt<'a>
        requires { place < row_count self.now }
        ensures { result ≡ record { rows = self.now; place = place } }
    {
        // By the invariant there are at most `MOST_BLOCK_ROWS` rows.
        let _ = &self.block;
        RowAt { rows: self, place }
    }
}

impl<'a> BlockRows for Rows<'a> {
    ghost rows = { row_count };

    ghost own_row = { own_row_at };

    ghost has_field = { λ x ty i. (sources_in x).own ty i };

    ghost has_column = { λ x ty. not (is_shared_at (registry_of x) ty.0) };

    fn len(&self) -> u32 {
        self.block.len()
    }

    fn constant(&self, ty: TypeId, field: u8) -> Option<Value> {
        if !self.registry.is_shared(ty) {
            return None;
        }
        let values = self.frozen.shared_of(self.loan.number(), ty);
        Some(values.as_slice()[usize::from(field)])
    }

    fn column(&self, ty: TypeId, field: u8) -> ColumnSlice<'_> {
        // By the invariant a field that is read and lies in a column is shown.
        let _ = &self.block;
        match self.type_rows(ty) {
            Some(cells) => cells.column(field),
            None => unreachable!(),
        }
    }

    fn entities(&self) -> &[Entity] {
        self.block.entities()
    }

    fn enabled(&self, ty: TypeId) -> Mask {
        if !self.has(ty) {
            return Mask::empty();
        }
        let all = Mask::first(self.block.len());
        if !self.registry.is_enableable(ty) {
            return all;
        }
        match self.type_rows(ty) {
            Some(cells) => all.and_not(&cells.disabled()),
            None => all,
        }
    }

    fn item(&self) -> u32 {
        self.item
    }

    fn first_row(&self) -> u32 {
        0
    }

    fn frame(&self) -> u32 {
        self.frame
    }

    fn n(&self) -> u32 {
        0
    }
}

/// One of the rows, by its place, for expressions on a single row.
#[derive(Drop)]
pub(crate) struct RowAt<'a> {
    rows: &'a Rows<'a>,
    place: u32,
}

impl<'a> Model for RowAt<'a> {
    ghost use Rattle.std.specs.Prelude.{◌<◌};
    ghost use Rattle.ent_types.specs.declared.limits.TheConstants.{MOST_BLOCK_ROWS};
    ghost use Rattle.item_run.specs.ItemRows.{RowState, row_count};

    ghost Value = { RowState };

    ghost view = { λ r. record { rows = r.rows.now; place = r.place } };

    ghost invariant = { λ r. (r.place < row_count r.rows.now) × (r.place < MOST_BLOCK_ROWS) };
}

impl<'a> RowReader for RowAt<'a> {
    ghost own_row = { λ r. own_row_at r.rows r.place };

    ghost has_field = { λ r ty i. (sources_in r.rows).own ty i };

    fn field(&self, ty: TypeId, field: u8) -> Value {
        match self.rows.constant(ty, field) {
            Some(value) => value,
            None => self.rows.value(self.place, ty, field),
        }
    }

    fn on(&self, ty: TypeId) -> bool {
        self.rows.enabled(ty).get(self.place)
    }

    fn me(&self) -> Entity {
        self.rows.entities()[self.place as usize]
    }

    fn item(&self) -> u32 {
        self.rows.item()
    }

    fn row(&self) -> u32 {
        self.place
    }

    fn frame(&self) -> u32 {
        self.rows.frame()
    }

    fn n(&self) -> u32 {
        0
    }
}
