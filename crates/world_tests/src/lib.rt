//! Tests of the world with ample memory.
#![tactic(auto)]

#[cfg(test)]
mod changes;
#[cfg(test)]
mod entities;
#[cfg(test)]
mod fixtures;
#[cfg(test)]
mod lending;
#[cfg(test)]
mod references;
#[cfg(test)]
mod rows;
#[cfg(test)]
mod scenes;
#[cfg(test)]
mod selecting;
