//! How the blocks of a store and a table of entities make a world, and that what is done to both is what the world's model does.
#![tactic(auto)]
