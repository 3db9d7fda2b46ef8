//! Interned values of shared types: equal values of one type have one id as long as anyone holds it.
#![tactic(auto)]

pub use table::{MOST_HOLDS, SharedId, SharedTable};

mod key;
mod table;
