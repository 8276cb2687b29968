//! Laws over the histories of a group, above those of `raft_laws`: what leaders had, whole snapshots, where entries come from,
//! and what a told token stands for.
#![tactic(auto)]

pub mod candidates;
pub mod commits;
pub mod ends;
pub mod known_peers;
pub mod leader_lists;
pub mod limits;
pub mod numbers;
pub mod origins;
pub mod serving;
pub mod snapshots;
pub mod taking;
pub mod told;
pub mod waiting;
