//! Generated input: a scenario and two scenes for each number, for benchmarks and random comparison.
#![tactic(auto)]

mod draws;
mod scenario;
mod scene;

pub use scenario::scenario_of;
pub use scene::scene_of;
