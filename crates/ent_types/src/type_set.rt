//! Sets of types.
ghost use Rattle.std.specs.Prelude.{◌≡◌, ◌==◌, ℕ, ◌<◌, ◌≤◌, ◌^◌, ◌↔◌, [], length, not, IsTrue, IfSome, IfNone, option_map, nat_eq, sum_by, zip, bit_and, count_ones};
ghost use Rattle.std.specs.Int.{bit_not, w64};
ghost use Rattle.std.specs.List.{list_all, list_any};
ghost use Rattle.std.specs.Cmp.{partial_equiv_from_equiv};
ghost use Rattle.std.specs.Cmp.Lexicographic.{pointwise, nat_list_eq_equiv};
ghost use Rattle.std.specs.Iterator.{YieldsFirstBy, item_count};
ghost use Rattle.ent_types.specs.TypeWords.{IsFirstBit, HasNoBit};
ghost use Rattle.ent_types.specs.TypeSets.{IsRisingBelow, has_type, with_type, without_type, is_subset_of, meets, next_type};

use crate::TypeId;
use crate::limits::MOST_TYPES;
use std::hash::{Hash, Hasher};
use std::marker::Model;

/// A set of types whose numbers are below `MOST_TYPES`. Contracts see the rising list of the numbers.
///
/// It is one bit for each type, so no call takes memory, and each takes a few operations on words. Equal sets are
/// equal lists.
#[derive(Clone, Copy, Debug)]
pub struct TypeSet {
    // Type t is the bit t % 64 of word t / 64.
    words: [u64; 4],
}

impl Model for TypeSet {
    ghost use Rattle.std.specs.Prelude.{ℕ, List};
    ghost use Rattle.std.specs.Coded.{coded_ℕ, coded_list};
    ghost use Rattle.std.proofs.Common.{refl};
    ghost use Rattle.ent_types.specs.TypeWords.{types_of, words_of, IsWords};
    ghost use Rattle.ent_types.specs.TypeWordsBack.{words_of-types_of};

    ghost Value = { List ℕ };

    ghost coded = { coded_list coded_ℕ };

    ghost view = { λ s. types_of s.words };

    ghost invariant = { λ s. IsWords s.words };

    ghost inverse = { λ types. record { words = words_of types } };

    ghost inverse_ok = { λ s holds. Prim.rw (words_of-types_of s.words holds) refl };
}

/// `true` if each bit of each word is also in the other word at its place.
fn are_covered(words: &[u64], others: &[u64]) -> bool
    ensures { result ≡ list_all (λ pair. bit_and pair.0 (bit_not w64 pair.1) == 0) (zip words.now others.now) }
{
    words
        .iter()
        .zip(others.iter())
        .all(|(word, other)| word & !other == 0)
}

/// `true` if some bit is in both words at one place.
fn share_a_bit(words: &[u64], others: &[u64]) -> bool
    ensures { result ≡ list_any (λ pair. not (bit_and pair.0 pair.1 == 0)) (zip words.now others.now) }
{
    words
        .iter()
        .zip(others.iter())
        .any(|(word, other)| word & other != 0)
}

/// The number of bits that are set in some words.
fn count_bits(words: &[u64]) -> u32
    requires { sum_by count_ones words.now < 2 ^ 32 }
    ensures { result ≡ sum_by count_ones words.now }
{
    words.iter().map(|word| word.count_ones()).sum()
}

/// The place of the lowest bit of a word that is set, at `from` or above.
fn first_bit(word: u64, from: u32) -> Option<u32>
    requires { from < 64 }
    ensures some { IfSome result (IsFirstBit word from) }
    ensures none { IfNone result (HasNoBit word from 64) }
{
    let left = word & (u64::MAX << from);
    if left == 0 {
        None
    } else {
        Some(left.trailing_zeros())
    }
}

impl PartialEq for TypeSet {
    ghost eq = { pointwise nat_eq };

    ghost laws = { partial_equiv_from_equiv nat_list_eq_equiv };

    fn eq(&self, other: &TypeSet) -> bool {
        self.words == other.words
    }
}

impl Eq for TypeSet {
    ghost laws = { nat_list_eq_equiv };
}

/// The words are hashed, so that a set may be a key.
impl Hash for TypeSet {
    ghost use Rattle.std.specs.Hash as fed;
    ghost use Rattle.ent_types.specs.TypeWords.{words_of};
    ghost use Rattle.ent_types.specs.TypeWordsBack.{same_fed};

    ghost hash_input = { λ types. fed.slice fed.u64 (words_of types) };

    ghost respects_eq = { λ a b equal. same_fed (λ types. fed.slice fed.u64 (words_of types)) a b equal };

    fn hash<H: Hasher>(&self, state: &mut H) {
        self.words.hash(state);
    }
}

impl TypeSet {
    /// The set without a type.
    pub fn empty() -> TypeSet
        ensures { result ≡ [] }
    {
        TypeSet { words: [0; 4] }
    }

    /// The set, and the type.
    pub fn with(&self, ty: TypeId) -> TypeSet
        requires { ty.0 < MOST_TYPES }
        ensures value { result ≡ with_type self.now ty.0 }
        ensures rising { IsRisingBelow MOST_TYPES result }
    {
        let mut words = self.words;
        words[usize::from(ty.0 / 64)] |= 1 << (ty.0 % 64);
        TypeSet { words }
    }

    /// The set without the type.
    pub fn without(&self, ty: TypeId) -> TypeSet
        requires { ty.0 < MOST_TYPES }
        ensures value { result ≡ without_type self.now ty.0 }
        ensures rising { IsRisingBelow MOST_TYPES result }
    {
        let mut words = self.words;
        words[usize::from(ty.0 / 64)] &= !(1 << (ty.0 % 64));
        TypeSet { words }
    }

    /// `true` if the type is in the set.
    pub fn has(&self, ty: TypeId) -> bool
        requires { ty.0 < MOST_TYPES }
        ensures value { result ≡ has_type self.now ty.0 }
        ensures rising { IsRisingBelow MOST_TYPES self.now }
    {
        self.words[usize::from(ty.0 / 64)] >> (ty.0 % 64) & 1 == 1
    }

    /// `true` if each type of this set is in the other.
    pub fn is_subset(&self, other: &TypeSet) -> bool
        ensures value { result ≡ is_subset_of self.now other.now }
        ensures each { IsTrue result ↔ ((ty : ℕ) → IsTrue (has_type self.now ty) → IsTrue (has_type other.now ty)) }
        ensures rising { IsRisingBelow MOST_TYPES self.now × IsRisingBelow MOST_TYPES other.now }
    {
        are_covered(&self.words, &other.words)
    }

    /// `true` if some type is in both sets.
    pub fn meets(&self, other: &TypeSet) -> bool
        ensures value { result ≡ meets self.now other.now }
        ensures some { IsTrue result ↔ ((ty : ℕ) × IsTrue (has_type self.now ty) × IsTrue (has_type other.now ty)) }
        ensures rising { IsRisingBelow MOST_TYPES self.now × IsRisingBelow MOST_TYPES other.now }
    {
        share_a_bit(&self.words, &other.words)
    }

    /// The number of types in the set.
    pub fn len(&self) -> u32
        ensures value { result ≡ length self.now }
        ensures bound { result ≤ MOST_TYPES }
        ensures rising { IsRisingBelow MOST_TYPES self.now }
    {
        count_bits(&self.words)
    }

    /// `true` if no type is in the set.
    pub fn is_empty(&self) -> bool
        ensures { IsTrue result ↔ (self.now ≡ []) }
    {
        self.len() == 0
    }

    /// The first type of the set whose number is `from` or more.
    pub fn next_from(&self, from: u16) -> Option<TypeId>
        ensures value { option_map (λ ty. ty.0) result ≡ next_type self.now from }
        ensures found { IfSome result (λ ty. (from ≤ ty.0) × (ty.0 < MOST_TYPES) × IsTrue (has_type self.now ty.0)) }
        ensures rising { IsRisingBelow MOST_TYPES self.now }
    {
        let start = usize::from(from / 64);
        let mut lowest = u32::from(from % 64);
        for place in start..self.words.len() {
            if let Some(bit) = first_bit(self.words[place], lowest) {
                return Some(TypeId(64 * place as u16 + bit as u16));
            }
            lowest = 0;
        }
        None
    }

    /// The types of the set, in rising order.
    pub fn iter(&self) -> Types
        ensures value { result ≡ self.now }
        ensures rising { IsRisingBelow MOST_TYPES self.now }
        ensures bound { length self.now ≤ MOST_TYPES }
    {
        Types {
            left: TypeSet { words: self.words },
        }
    }
}

/// A walk over the types of a set, in rising order. Contracts see the list of the numbers of those that are left.
///
/// It costs what the set has, and not `MOST_TYPES`.
#[derive(Debug, Drop)]
pub struct Types {
    left: TypeSet,
}

impl Model for Types {
    ghost use Rattle.std.specs.Prelude.{ℕ, List};
    ghost use Rattle.std.specs.Coded.{coded_ℕ, coded_list};

    ghost Value = { List ℕ };

    ghost coded = { coded_list coded_ℕ };

    ghost view = { λ s. s.left };
}

impl Iterator for Types {
    type Item = TypeId;

    ghost next_gives = { YieldsFirstBy (λ ty. ty.0) (λ types. types) };

    ghost remaining = { item_count (λ types. types) };

    fn next(&mut self) -> Option<TypeId> {
        let first = self.left.next_from(0)?;
        self.left = self.left.without(first);
        Some(first)
    }
}
