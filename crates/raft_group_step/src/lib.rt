//! The group step of a Raft group.
#![tactic(auto)]

pub mod append_entries;
pub mod entries;
pub mod group_call;
pub mod request_id;
mod shown;
pub mod snapshot_message;
pub mod vote_message;
pub mod worked_steps;

pub use append_entries::{AppendEntriesRequest, AppendEntriesResponse};
pub use entries::Entries;
pub use group_call::GroupCall;
pub use request_id::RequestId;
pub use snapshot_message::{
    InstallSnapshotRequest, InstallSnapshotResponse, LoggedMembership, SnapshotMeta,
    SnapshotResponse,
};
pub use vote_message::{VoteRequest, VoteResponse};
