//! Where a node keeps its groups: what is asked of it, and two that keep them in memory.
#![tactic(auto)]

pub mod crash;
pub mod loaded_group;
pub mod only_group;
pub mod plain_groups;
pub mod storage;
pub mod uses;

pub use crash::CrashStorage;
pub use loaded_group::{LoadedGroup, loaded};
pub use only_group::ONLY_GROUP;
pub use plain_groups::PlainGroups;
pub use storage::GroupStorage;
