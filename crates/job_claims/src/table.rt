//! The table of pieces.
ghost use Rattle.std.specs.Prelude.{◌≡◌, ◌^◌, ◌<◌, false, length, map, IfOk, IsTrue};
ghost use Rattle.std.specs.Slots.{IsFull};
ghost use mathlib.Core.Option.{none};
ghost use Rattle.atomic_table.specs.Table.{step};
ghost use Rattle.ent_types.specs.declared.limits.TheConstants.{MOST_WORKERS};
ghost use Rattle.job_claims.specs.Views.{opened, after_split, split_off, joined};
ghost use Rattle.job_claims.specs.Rule.{Draws, Gives, IsEachOnce};

use crate::rule::{Both, Claims, Draw, Move, Share};
use crate::seat::{ClaimSeat, Drawn, View};
use atomic_table::{Closed, Seat, Table};
use ent_types::Memory;
use std::alloc::{AllocError, Global};
use std::marker::Model;
use std::snapshot::Snapshot;

/// Pieces that up to `MOST_WORKERS` threads draw, each piece once.
#[derive(Drop)]
pub struct ClaimTable<T> {
    table: Table<Option<T>, View<T>, Snapshot<Vec<T>>, Claims, Global>,
}

impl<T> Model for ClaimTable<T> {
    ghost use Rattle.std.specs.Prelude.{◌≡◌, ◌^◌, ◌<◌};
    ghost use Rattle.atomic_table.specs.Seated.{TableId, table_id_coded};

    ghost Value = { TableId };

    ghost coded = { table_id_coded };

    ghost view = { λ t. t.table.shared.table_id };

    ghost invariant = { λ t. (t.table.shared.table_id.words ≡ 1) × (t.table.shared.table_id.slots < 2 ^ 32) };
}

impl<T> ClaimTable<T> {
    /// Returns a table of these pieces, and its first seat. After `Memory` the pieces are dropped.
    pub fn new(alloc: Global, items: Vec<T>) -> Result<(ClaimTable<T>, ClaimSeat<T>), Memory>
    where
        T: Drop,
        requires { length items.items < 2 ^ 32 }
        ensures own { IfOk result (λ t. t.1.table ≡ t.0) }
        ensures opens { IfOk result (λ t. t.1.view ≡ opened items.items) }
    {
        let about = Snapshot::of(&items);
        match Table::new(alloc, &[0], at_home(alloc, items)?, &about) {
            Ok((table, seat)) => Ok((ClaimTable { table }, ClaimSeat { seat, ended: false })),
            Err(_) => Err(Memory),
        }
    }

    /// Returns a seat for another thread. It has drawn nothing, and has one weight of `seat`. There can be `MOST_WORKERS` seats.
    pub fn split(&self, seat: &mut ClaimSeat<T>) -> ClaimSeat<T>
        requires own { seat.old.table ≡ self.now }
        requires room { 1 < seat.old.view.weight }
        ensures old { seat.new ≡ record seat.old { view = after_split seat.old.view } }
        ensures new { result ≡ record seat.old { view = split_off seat.old.view } }
    {
        ClaimSeat {
            ended: seat.ended,
            seat: self.table.shared.split_seat::<Share>(&mut seat.seat),
        }
    }

    /// Draws the next piece, if one is left. A seat that was answered `Ended` is always answered so, and takes no
    /// further step.
    ///
    /// It waits for nobody and takes no memory.
    pub fn draw(&self, seat: &mut ClaimSeat<T>) -> Drawn<T>
        requires { seat.old.table ≡ self.now }
        ensures own { seat.new.table ≡ seat.old.table }
        ensures gives { Gives seat.old.view result seat.new.view }
        ensures stays { (seat.new.view.weight ≡ seat.old.view.weight) × (seat.new.view.pieces ≡ seat.old.view.pieces) }
    {
        if seat.ended {
            return Drawn::Ended;
        }
        let number = self.take_number(&mut seat.seat);
        if number >= self.table.slot_count() as u64 {
            seat.ended = true;
            return Drawn::Ended;
        }
        let shared = &self.table.shared;
        let piece = shared.exchange(&mut seat.seat, number as usize, None);
        Drawn::Piece(number as u32, piece.unwrap())
    }

    /// Raises the claim word by 1, and returns the number that it had: the one atomic step of a draw.
    #[tactic(auto, using(crate::proofs::Allowed::draw_allowed))]
    fn take_number(&self, seat: &mut Seat<Option<T>, View<T>>) -> u64
        requires own { seat.old.table_id ≡ self.now }
        requires going { (seat.old.me.0.ended ≡ false) × (0 < seat.old.me.0.weight) }
        ensures own { seat.new.table_id ≡ seat.old.table_id }
        ensures number { Draws (step self.now.slots 0 1 0 none) seat.old.me result seat.new.me }
    {
        self.table.shared.fetch_add::<Draw>(seat, 0, 1)
    }

    /// Gives `into` all that `from` knows and drew.
    pub fn join_seats(&self, into: &mut ClaimSeat<T>, from: ClaimSeat<T>)
        requires own { (into.old.table ≡ self.now) × (from.table ≡ self.now) }
        ensures { into.new ≡ record into.old { view = joined into.old.view from.view } }
    {
        let ClaimSeat { mut seat, ended } = from;
        // A seat that holds slots can't be joined, so its view goes to one that holds none.
        let whole = self.table.shared.split_seat::<Move>(&mut seat);
        self.table.shared.join_seat::<Both>(&mut into.seat, whole);
        into.ended |= ended;
    }

    /// Ends the table. All seats together have drawn each number once.
    pub fn close(self, seat: ClaimSeat<T>)
    where
        T: Drop,
        requires own { seat.table ≡ self }
        requires joined { seat.view.weight ≡ MOST_WORKERS }
        requires ended { IsTrue seat.view.ended }
        ensures { IsEachOnce (length seat.view.pieces) seat.view.mine }
    {
        let ClaimTable { table } = self;
        let ClaimSeat { seat, ended: _ } = seat;
        clear(table.close_with(seat));
    }
}

/// Returns the slots, each with its piece.
fn at_home<T: Drop>(alloc: Global, items: Vec<T>) -> Result<Vec<Option<T>>, AllocError>
    ensures { IfOk result (λ slots. slots.items ≡ map (λ x. Some x) items.items) }
{
    items.into_iter().map(Some).collect(alloc)
}

/// Drops the pieces that the slots still hold, and frees the memory.
fn clear<T: Drop>(mut closed: Closed<Option<T>, Global>)
    requires { IsFull closed.slots }
{
    for slot in 0..closed.slot_count() {
        drop(closed.take(slot));
    }
    closed.free();
}
