ghost use Rattle.std.specs.Prelude.{◌≡◌, ℕ, ◌+◌, ◌-◌, ◌/◌, ◌^◌, ◌≤◌, ◌<◌, [], ◌&&◌, not, nat_lt, length, IfSome, MatchOption, true, false};
ghost use Rattle.enable_bits.specs.Masks.{has, places_where, with_place, swapped_back, first_from, IsMask, HasNoneFrom, IsNextFrom};

use std::marker::Model;

/// A set of places below 128, one for each row of a block. Contracts see the list of its places in rising order.
///
/// Unity keeps the enable bits of a chunk's rows in the same way. No call takes memory.
///
/// ```text
/// let mut mask = Mask::first(3);
/// mask.set(1, false);
/// assert_eq!(mask.next_from(1), Some(2));
/// ```
#[derive(Clone, Copy, Debug)]
pub struct Mask {
    bits: u128,
}

impl Model for Mask {
    ghost use Rattle.std.specs.Prelude.{ℕ, List, ◌<◌, ◌^◌};
    ghost use Rattle.std.proofs.Common.{ap};
    ghost use Rattle.enable_bits.specs.Bits.{places_of, bits_of, bits_of-places_of};

    ghost Value = { List ℕ };

    ghost view = { λ m. places_of m.bits };

    ghost invariant = { λ m. m.bits < 2 ^ 128 };

    ghost inverse = { λ places. record { bits = bits_of places } };

    ghost inverse_ok = { λ m h. ap (λ b. record { bits = b }) (bits_of-places_of m.bits h) };
}

/// Returns the number without its lowest `places` digits. `>>` would ask that there are fewer than 128.
fn shifted(bits: u128, places: u32) -> u128
    ensures { result ≡ bits / 2 ^ places }
{
    bits.checked_shr(places).unwrap_or(0)
}

impl Mask {
    /// Returns the mask of no place.
    pub fn empty() -> Mask
        ensures { result ≡ [] }
    {
        Mask { bits: 0 }
    }

    /// Returns the mask of the places below `n`.
    pub fn first(n: u32) -> Mask
        requires { n ≤ 128 }
        ensures { result ≡ places_where (λ place. nat_lt place n) }
    {
        Mask {
            bits: shifted(u128::MAX, 128 - n),
        }
    }

    /// `true` if the mask has a place.
    pub fn get(&self, place: u32) -> bool
        requires { place < 128 }
        ensures { result ≡ has self.now place }
    {
        (self.bits >> place) & 1 == 1
    }

    /// Sets or clears a place.
    pub fn set(&mut self, place: u32, on: bool)
        requires { place < 128 }
        ensures { self.new ≡ with_place self.old place on }
    {
        if on {
            self.bits |= 1 << place;
        } else {
            self.bits &= !(1 << place);
        }
    }

    /// Returns the places that both masks have.
    pub fn and(&self, other: &Mask) -> Mask
        ensures { result ≡ places_where (λ place. has self.now place && has other.now place) }
    {
        Mask {
            bits: self.bits & other.bits,
        }
    }

    /// Returns the places of this mask that the other one lacks.
    pub fn and_not(&self, other: &Mask) -> Mask
        ensures { result ≡ places_where (λ place. has self.now place && not (has other.now place)) }
    {
        Mask {
            bits: self.bits & !other.bits,
        }
    }

    /// Counts the places of the mask.
    pub fn count(&self) -> u32
        ensures value { result ≡ length self.now }
        ensures bound { result ≤ 128 }
        ensures is_mask { IsMask self.now }
    {
        self.bits.count_ones()
    }

    /// Gives `place` the bit of `len - 1` and then clears `len - 1`. A block does so when the last of `len` rows takes
    /// the place of a row that left.
    pub fn swap_back(&mut self, place: u32, len: u32)
        requires within { place < len }
        requires rows { len ≤ 128 }
        ensures { self.new ≡ swapped_back self.old place len }
    {
        let last = len - 1;
        let on = self.get(last);
        self.set(place, on);
        self.set(last, false);
    }

    /// Returns the least place of the mask at or past `place`, or `None` if there is none.
    pub fn next_from(&self, place: u32) -> Option<u32>
        ensures value { result ≡ first_from self.now place }
        ensures least { MatchOption result (HasNoneFrom self.now place) (IsNextFrom self.now place) }
        ensures bound { IfSome result (λ next. next < 128) }
        ensures is_mask { IsMask self.now }
    {
        let rest = shifted(self.bits, place);
        if rest == 0 {
            return None;
        }
        Some(place + rest.trailing_zeros())
    }
}
