//! Checks a scenario that was read, and makes the plan of its frames.
#![tactic(auto)]

mod built;
mod checking;
mod children;
mod planning;

pub use built::is_built;
pub use checking::check;
