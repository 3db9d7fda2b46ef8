//! What the world is, as definitions alone: rows as records, blocks as lists of rows, moments without end. There is no
//! code here. Each crate that keeps rows states its contracts by these definitions.
#![tactic(auto)]
