//! Examples of the small crates that the store and the frame depend on.
//!
//! The proofs cover what the contracts say. These examples compare the contracts with values from outside, and show
//! that each call which can run out of memory succeeds with ample memory.
#![tactic(auto)]

#[cfg(test)]
mod claims;
#[cfg(test)]
mod entities;
#[cfg(test)]
mod examples_tables;
#[cfg(test)]
mod interned;
#[cfg(test)]
mod masks;
#[cfg(test)]
mod orders;
#[cfg(test)]
mod phases;
#[cfg(test)]
mod workloads;
