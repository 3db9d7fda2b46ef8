//! The order of the systems of a frame: each group orders its children by their bands and by the names in their
//! `before` and `after`. Then each group gives way to its children.
#![tactic(auto)]

mod child;
mod cycle;
mod group;
mod law;
mod place;
mod splice;

pub use child::{Band, Child};
pub use law::{
    chains_are_paths, each_system_is_once_below_its_root, siblings_without_a_cycle_get_places,
};
pub use splice::{OrderFault, RootOrders, order, order_by_root};
