//! Tests of the lowest crates: `ent_types`, `ent_io`, `chunk_layout` and `enable_bits`.
//!
//! They stand apart, so that a proof of those crates doesn't wait for the proof of the tests. Most helpers return a
//! `bool` and have no clause, which keeps the proofs of the tests short.
#![tactic(auto)]

#[cfg(test)]
mod examples;
#[cfg(test)]
mod examples_outside;
#[cfg(test)]
mod examples_types;
#[cfg(test)]
mod fields;
#[cfg(test)]
mod files;
#[cfg(test)]
mod layouts;
#[cfg(test)]
mod lists;
#[cfg(test)]
mod lookups;
#[cfg(test)]
mod masks;
#[cfg(test)]
mod outputs;
#[cfg(test)]
mod registries;
#[cfg(test)]
mod type_sets;
#[cfg(test)]
mod types;
#[cfg(test)]
mod versions;
