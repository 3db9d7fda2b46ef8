//! The children of groups, and their bands.
ghost use Rattle.std.specs.Prelude.{◌≡◌};

use ent_types::Sequence;

/// The part of its group in which a child is: the children of the first band come before those of the middle band,
/// and these before those of the last.
#[derive(Clone, Copy, Debug, PartialEq, Eq, Hash)]
pub enum Band {
    /// The child is marked `first`.
    First,
    /// The child has no mark.
    Middle,
    /// The child is marked `last`.
    Last,
}

impl Band {
    ghost use Rattle.system_order.specs.Child.{rank_of};

    /// Returns the band's place among the bands.
    pub(crate) fn rank(self) -> u8
        ensures { result ≡ rank_of self }
    {
        match self {
            Band::First => 0,
            Band::Middle => 1,
            Band::Last => 2,
        }
    }
}

/// A child of a group: a system, or a group with children of its own. A child's number is its place in the list of
/// all children. The children 0, 1 and 2 are the root groups.
#[derive(Debug, Drop)]
pub struct Child {
    /// The number of the group of the child. Nobody reads that of a root.
    pub parent: u32,
    /// `true` if the child is a group.
    pub is_group: bool,
    /// The child's band.
    pub band: Band,
    /// The siblings that the child has to come before.
    pub before: Sequence<u32>,
    /// The siblings that the child has to come after.
    pub after: Sequence<u32>,
}
