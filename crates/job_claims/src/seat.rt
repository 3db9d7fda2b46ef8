//! The seat of a thread at a table, and what it knows.
use atomic_table::Seat;
use std::collections::LinkedList;
use std::marker::Model;

/// The knowledge of a seat of a table of pieces. Only proofs have values of it.
pub struct View<T> {
    /// The pieces as they were opened.
    pub pieces: LinkedList<T>,
    /// The numbers that this seat drew, in their order.
    pub mine: LinkedList<u32>,
    /// The count of the draws of this seat that found no piece left.
    pub ends: u64,
    /// `true` if a draw found no piece left, so no draw will find one.
    pub ended: bool,
    /// This seat's share of the weight of 64. Each other seat has at least 1 of the rest.
    pub weight: u64,
}

/// The right of one thread to draw from a table. It can be moved to another thread, but not copied.
#[derive(Drop)]
pub struct ClaimSeat<T> {
    pub(crate) seat: Seat<Option<T>, View<T>>,
    pub(crate) ended: bool,
}

impl<T> Model for ClaimSeat<T> {
    ghost use Rattle.std.specs.Prelude.{◌≡◌, ◌<◌};
    ghost use Rattle.job_claims.specs.Held.{Held};

    ghost Value = { Held T };

    ghost view = { λ s. record { table = s.seat.table_id; view = s.seat.me.0 } };

    ghost invariant = { λ s. (s.ended ≡ s.seat.me.0.ended) × (0 < s.seat.me.0.weight) };
}

/// The result of a draw.
#[derive(Drop)]
pub enum Drawn<T> {
    /// A piece, with its number. Pieces are numbered from 0.
    Piece(u32, T),
    /// No piece is left.
    Ended,
}
