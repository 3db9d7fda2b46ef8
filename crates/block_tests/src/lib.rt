//! Tests of blocks, their loans, and expressions over all rows at once.
//!
//! The proofs cover what the contracts say. These tests compare the contracts with values from outside, and show that a
//! block is made with ample memory. What a call requires is looked up at run time by the functions of `conditions`.
#![tactic(auto)]

#[cfg(test)]
mod conditions;
#[cfg(test)]
mod evaluations;
#[cfg(test)]
mod fixtures;
#[cfg(test)]
mod lending;
#[cfg(test)]
mod rows;
#[cfg(test)]
mod stores;
