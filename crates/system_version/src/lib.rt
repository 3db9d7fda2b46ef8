//! The system version, which stands for a moment in 32 bits, with the laws of its comparison.
#![tactic(auto)]

mod version;

pub use version::{LAST_VERSION, MOST_MOMENTS, SystemVersion};
