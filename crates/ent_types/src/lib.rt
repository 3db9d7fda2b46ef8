//! The plain types of the world, which every other crate names: entities, values, the registry of types,
//! sets of types, versions, and the small lists that contracts see as lists.
#![tactic(auto)]

mod entity;
mod kinds;
pub mod limits;
mod memory;
mod name;
mod point;
mod registry;
mod sequence;
mod skip;
mod steps;
mod type_info;
mod type_set;
mod value;

pub use entity::{BUILT_IN_TYPES, Entity, TypeId};
pub use kinds::{FieldKind, Kind, fit};
pub use memory::Memory;
pub use name::Name;
pub use point::Point;
pub use registry::{Registry, RegistryFault};
pub use sequence::Sequence;
pub use skip::Skip;
pub use steps::Steps;
pub use system_version::SystemVersion;
pub use type_info::{FieldInfo, TypeInfo};
pub use type_set::{TypeSet, Types};
pub use value::{Part, Parts, Value, Values};
