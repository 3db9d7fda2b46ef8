//! The walk over the blocks.
ghost use Rattle.std.specs.Prelude.{◌≡◌, option_map};
ghost use Rattle.std.specs.Iterator.{YieldsFirstBy, item_count};
ghost use Rattle.archetype_store.specs.Inside.{walked};
ghost use Rattle.archetype_store.specs.Slots.{slot_at};

use crate::slots::Held;
use chunk_block::Block;
use std::marker::Model;

/// A walk over the blocks with their numbers, in block order. Contracts see the list of those that are left.
#[derive(Drop)]
pub struct Blocks<'a> {
    slots: &'a [Option<Held>],
    order: &'a [Option<u32>],
}

impl<'a> Model for Blocks<'a> {
    ghost use Rattle.std.specs.Prelude.{ℕ, List};
    ghost use Rattle.chunk_block.specs.Blocks.{BlockState};

    ghost Value = { List (ℕ × BlockState) };

    ghost use Rattle.archetype_store.specs.Inside.{walked};

    ghost view = { λ b. walked b.slots.now b.order.now };
}

impl<'a> Blocks<'a> {
    /// Returns the walk over the blocks of these numbers.
    pub(crate) fn new(slots: &'a [Option<Held>], order: &'a [Option<u32>]) -> Blocks<'a>
        ensures { result ≡ walked slots.now order.now }
    {
        Blocks { slots, order }
    }
}

impl<'a> Iterator for Blocks<'a> {
    type Item = (u32, &'a Block);

    ghost next_gives = { YieldsFirstBy (λ item. (item.0, item.1.now)) (λ rest. rest) };

    ghost remaining = { item_count (λ rest. rest) };

    fn next(&mut self) -> Option<(u32, &'a Block)> {
        while let Some((place, rest)) = self.order.split_first() {
            self.order = rest;
            if let Some(number) = *place {
                if let Some(block) = block_at(self.slots, number) {
                    return Some((number, block));
                }
            }
        }
        None
    }
}

/// Returns the block of a number, if there is one.
fn block_at(slots: &[Option<Held>], number: u32) -> Option<&Block>
    ensures { option_map (λ b. b.now) result ≡ option_map (λ held. held.block) (slot_at slots.now number) }
{
    match slots.get(number as usize) {
        Some(Some(held)) => Some(&held.block),
        _ => None,
    }
}
