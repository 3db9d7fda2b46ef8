//! Playback of recorded commands: the entries of a buffer are put in order, and each is done as one operation of a world.
//!
//! Entries are played by sort key, as Unity plays its entity command buffers. That ties go by item, row and number, and that a key
//! must not come from two items, are entsim's own rules.
#![tactic(auto)]

mod apply;
mod laws;
mod made;
mod names;
mod order;
mod places;
mod player;

pub use laws::{
    entries_of_chains_are_apart, entries_of_own_rows_are_apart,
    entries_of_own_rows_play_as_defined, entries_of_own_rows_suit,
};
pub use order::{ArrangeEnd, arrange};
pub use player::{Note, play};
