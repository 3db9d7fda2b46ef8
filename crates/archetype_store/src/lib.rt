//! Blocks by archetype: a row's block is the first in block order that has its types, its shared values, and room.
//!
//! An archetype is a set of types. A block has one archetype, and one value for each of its shared types. Block order, and that an
//! emptied block goes while the others keep their order, are entsim's own rules.
#![tactic(auto)]

mod attach;
mod blocks;
mod gaps;
mod homes;
mod numbers;
mod shared_parts;
mod slots;
mod store;

pub use blocks::Blocks;
pub use numbers::MOST_NUMBERS;
pub use store::{ArchetypeId, ArchetypeStore};
