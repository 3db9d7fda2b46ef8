//! The phase machine: several workers draw the items of a phase, run each item's rows one after the other, and put
//! the finished item down. Each step is one event, and the machine takes the steps in any order.
//!
//! `specs/Core.antt` has the invariant that every call keeps. The next number is at most the count of items, and the
//! items from it on are as they were opened. Each item below it is held by exactly one worker at its row, or is held
//! by no worker and has run all its rows. So the order of the steps decides only which worker runs which item.
#![tactic(auto)]

mod item;
mod machine;

pub use ent_types::Memory;
pub use item::ItemWork;
pub use machine::{Machine, StepFault, StepOf, WorkerState};
