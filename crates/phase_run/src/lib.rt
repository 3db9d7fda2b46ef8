//! The run of a system: it visits blocks of a world, does its texts on their rows that match, and marks what it writes.
//!
//! The world lends the columns that the system writes, one loan for each visit. Each visit is an item, which reads the frozen world
//! and writes its own loan. Then the world takes all loans back. All memory is taken before the world lends, so that nothing fails
//! while it is frozen.
#![tactic(auto)]

mod items;
mod system_query;
mod system_run;
mod visiting;

pub use system_query::SystemQuery;
pub use system_run::{SystemRun, run_system};
