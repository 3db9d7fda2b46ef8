//! Which blocks a system visits, and which of their rows it takes.
//!
//! A query has five lists of types and two flags, as Unity's `EntityQuery` has. A row matches by the types that it has and by those
//! that are disabled in it. Filters leave out whole blocks: by the values of shared types, and by change versions. A cache keeps the
//! archetypes whose types pass, so that no call looks at an archetype twice.
//!
//! entsim's own rules are these: a block without a matching row isn't visited, and a block passes a change filter if one of the
//! types or the order of the rows changed.
#![tactic(auto)]

mod cache;
mod filter;
mod laws;
mod query;
mod visits;

pub use cache::Cache;
pub use filter::Filter;
pub use laws::{
    a_cache_stays_with_more_archetypes, numbered_visits_are_visits,
    systems_with_a_query_visit_alike, versions_stand_for_moments_in_visits,
};
pub use query::Query;
pub use visits::{Visit, select};
