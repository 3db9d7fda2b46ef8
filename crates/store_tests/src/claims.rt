//! Claims that two to eight threads draw.
ghost use Rattle.std.specs.Prelude.{◌≡◌, ◌+◌, ◌≤◌, ◌<◌, ◌^◌, [], true, length, IfOk};
ghost use Rattle.job_claims.specs.Views.{opened};
ghost use Rattle.std.specs.Thread.{IsSync};

use ent_types::Memory;
use job_claims::{ClaimSeat, ClaimTable, Drawn};
use std::alloc::{AllocError, Global};
use std::thread;
use std::thread::Threads;

const PIECES: u32 = 10_000;

/// Pieces that are three times their number.
fn multiples(alloc: Global) -> Result<Vec<u32>, AllocError>
    ensures { IfOk result (λ items. length items.items ≡ 10000) }
{
    (0..PIECES).map(|k| k * 3).collect(alloc)
}

/// Draws until no piece is left. A draw for which there is no memory is missing from the list.
fn drain(
    alloc: Global,
    table: &ClaimTable<u32>,
    mut seat: ClaimSeat<u32>,
) -> (ClaimSeat<u32>, Vec<(u32, u32)>)
    requires { seat.table ≡ table.now }
    ensures table { result.0.table ≡ table.now }
    ensures view { (result.0.view.ended ≡ true) × (result.0.view.weight ≡ seat.view.weight) }
{
    let mut drawn = Vec::new(alloc);
    while let Drawn::Piece(number, piece) = table.draw(&mut seat) {
        let _ = drawn.push((number, piece));
    }
    (seat, drawn)
}

/// Draws with `threads` threads, each with a seat of its own, until no piece is left, and joins the seats.
fn drain_with<R: Threads + Sync>(
    rt: &R,
    alloc: Global,
    table: &ClaimTable<u32>,
    mut seat: ClaimSeat<u32>,
    threads: u64,
) -> (ClaimSeat<u32>, Vec<(u32, u32)>)
    requires table { seat.table ≡ table.now }
    requires threads { threads ≤ seat.view.weight }
    ensures table { result.0.table ≡ table.now }
    ensures view { (result.0.view.ended ≡ true) × (result.0.view.weight ≡ seat.view.weight) }
{
    if threads <= 1 {
        return drain(alloc, table, seat);
    }
    let rest = threads - 1;
    let other = table.split(&mut seat);
    let ((other, more), (mut all, mut drawn)) = thread::join(
        rt,
        move || -> (ClaimSeat<u32>, Vec<(u32, u32)>)
            requires { other.table ≡ table.now }
            ensures { (result.0.table ≡ table.entry.now) × (result.0.view.ended ≡ true) × (result.0.view.weight ≡ other.view.weight) }
        { drain(alloc, table, other) },
        move || -> (ClaimSeat<u32>, Vec<(u32, u32)>)
            requires { (seat.table ≡ table.now) × (rest ≤ seat.view.weight) × IsSync R.row }
            ensures { (result.0.table ≡ table.entry.now) × (result.0.view.ended ≡ true) × (result.0.view.weight ≡ seat.view.weight) }
        { drain_with(rt, alloc, table, seat, rest) },
    );
    table.join_seats(&mut all, other);
    let _ = drawn.extend_from_slice(more.as_slice());
    (all, drawn)
}

/// `true` if each number was drawn once, with its piece.
fn is_each_once(alloc: Global, mut drawn: Vec<(u32, u32)>) -> Result<bool, AllocError> {
    drawn.sort_unstable();
    let expected: Vec<(u32, u32)> = (0..PIECES).map(|k| (k, k * 3)).collect(alloc)?;
    Ok(drawn == expected)
}

/// `true` if the seat draws this piece next.
fn draws(table: &ClaimTable<u32>, seat: &mut ClaimSeat<u32>, wanted: (u32, u32)) -> bool
    requires { seat.old.table ≡ table.now }
    ensures table { seat.new.table ≡ table.now }
    ensures weight { seat.new.view.weight ≡ seat.old.view.weight }
{
    match table.draw(seat) {
        Drawn::Piece(number, piece) => (number, piece) == wanted,
        Drawn::Ended => false,
    }
}

/// `true` if nothing is left for two seats, which are joined and given up.
fn is_drained(
    alloc: Global,
    table: ClaimTable<u32>,
    first: ClaimSeat<u32>,
    second: ClaimSeat<u32>,
) -> bool
    requires tables { (first.table ≡ table) × (second.table ≡ table) }
    requires weights { first.view.weight + second.view.weight ≡ 64 }
{
    let (mut all, more) = drain(alloc, &table, first);
    let (second, others) = drain(alloc, &table, second);
    table.join_seats(&mut all, second);
    table.close(all);
    more.is_empty() & others.is_empty()
}

/// `true` if two seats draw the three pieces in turn.
fn draw_in_turn(
    table: &ClaimTable<u32>,
    first: &mut ClaimSeat<u32>,
    second: &mut ClaimSeat<u32>,
) -> bool
    requires { (first.old.table ≡ table.now) × (second.old.table ≡ table.now) }
    ensures tables { (first.new.table ≡ table.now) × (second.new.table ≡ table.now) }
    ensures first { first.new.view.weight ≡ first.old.view.weight }
    ensures second { second.new.view.weight ≡ second.old.view.weight }
{
    draws(table, first, (0, 10)) & draws(table, second, (1, 20)) & draws(table, first, (2, 30))
}

fn seats_share(alloc: Global, items: Vec<u32>) -> bool
    requires { length items.items < 2 ^ 32 }
{
    match ClaimTable::new(alloc, items) {
        Ok((table, mut first)) => {
            let mut second = table.split(&mut first);
            let is_drawn = draw_in_turn(&table, &mut first, &mut second);
            is_drawn & is_drained(alloc, table, first, second)
        }
        Err(_) => false,
    }
}

fn two_seats_share(alloc: Global) -> bool {
    match vec![in alloc; 10u32, 20, 30] {
        Ok(items) => seats_share(alloc, items),
        Err(_) => false,
    }
}

#[test]
fn two_seats_draw_three_pieces(rt: HostRuntime) {
    assert!(rt; two_seats_share(rt.alloc()));
}

/// Draws all pieces with `threads` threads.
fn drained<R: Threads + Sync>(
    rt: &R,
    alloc: Global,
    items: Vec<u32>,
    threads: u64,
) -> Result<Vec<(u32, u32)>, Memory>
    requires few { threads ≤ 64 }
    requires items { length items.items < 2 ^ 32 }
{
    let (table, first) = ClaimTable::new(alloc, items)?;
    let (all, drawn) = drain_with(rt, alloc, &table, first, threads);
    table.close(all);
    Ok(drawn)
}

fn threads_share<R: Threads + Sync>(rt: &R, alloc: Global, threads: u64) -> bool
    requires { threads ≤ 64 }
{
    match multiples(alloc) {
        Ok(items) => match drained(rt, alloc, items, threads) {
            Ok(drawn) => is_each_once(alloc, drawn) == Ok(true),
            Err(_) => false,
        },
        Err(_) => false,
    }
}

fn all_share<R: Threads + Sync>(rt: &R, alloc: Global) -> bool {
    for threads in 2..9u64 {
        if !threads_share(rt, alloc, threads) {
            return false;
        }
    }
    true
}

#[test]
fn threads_draw_each_piece_once(rt: HostRuntime) {
    assert!(rt; all_share(&rt, rt.alloc()));
}

/// Proved from the contracts alone: where there are no pieces, the first draw ends the seat.
fn no_piece_is_drawn(table: &ClaimTable<u32>, seat: &mut ClaimSeat<u32>)
    requires own { seat.old.table ≡ table.now }
    requires none { seat.old.view ≡ opened [] }
    ensures own { seat.new.table ≡ table.now }
    ensures ended { (seat.new.view.ended ≡ true) × (seat.new.view.weight ≡ 64) }
{
    if let Drawn::Piece(_, _) = table.draw(seat) {
        unreachable!();
    }
}

fn end_without_pieces(alloc: Global) -> Result<(), Memory> {
    let (table, mut seat) = ClaimTable::new(alloc, Vec::new(alloc))?;
    no_piece_is_drawn(&table, &mut seat);
    table.close(seat);
    Ok(())
}

#[test]
fn a_table_of_no_pieces_ends(rt: HostRuntime) {
    assert!(rt; end_without_pieces(rt.alloc()).is_ok());
}
