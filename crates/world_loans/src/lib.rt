//! What the blocks of a store are while types of them are lent, and after the loans came back.
#![tactic(auto)]
