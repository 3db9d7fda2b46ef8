//! When an entry is played.

/// When an entry is played: by rising key, then item, row and number, as turns are compared.
#[derive(Clone, Copy, Debug, PartialEq, Eq, PartialOrd, Ord)]
pub struct Turn {
    /// The sort key.
    pub key: i32,
    /// The number of the item.
    pub item: u32,
    /// The place of the row in its block.
    pub row: u32,
    /// The command's place in the system, from 0.
    pub number: u32,
}
