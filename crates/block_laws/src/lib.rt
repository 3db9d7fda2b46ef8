//! Laws of lending. Each is the contract of a call, proved from the contracts of blocks and loans alone.
#![tactic(auto)]

mod laws;
mod worked;
mod writes;

pub use laws::{either_order, restores};
pub use worked::{one_number, two_bits};
pub use writes::{
    field_set, loan_comes_back, put_elements, set_enabled, store, store_enabled, store_references,
    writes_follow,
};
