//! What a node keeps of a group, as values.
#![tactic(auto)]

mod copies;
pub mod group_snapshot;
mod places;
mod readers;
pub mod stored_group;

pub use group_snapshot::GroupSnapshot;
pub use stored_group::StoredGroup;
