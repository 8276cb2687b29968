//! What nodes do with snapshots: laws of single steps of a group.
#![tactic(auto)]

pub mod snapshots;
