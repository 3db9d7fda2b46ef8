//! Which systems may run side by side, and the parts of a frame: its events, its points, and the phases between them.
#![tactic(auto)]

mod conflict;
mod law;
mod phase;

pub use conflict::conflicts;
pub use law::plans_have_the_phases_of_their_scenario;
pub use phase::{FramePart, phases};
