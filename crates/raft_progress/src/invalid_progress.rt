//! What is wrong with what a leader knows of a peer.
use raft_values::Invalid;
use thiserror::Error;

/// What is wrong with a progress entry (own; openraft answers a boxed text).
#[derive(Clone, Copy, Debug, PartialEq, Eq, Error)]
pub enum InvalidProgress {
    #[error("the log is known to be the same past the end of the search")]
    MatchingPastSearch,
    /// What is in flight is wrong by itself.
    #[error("{0}")]
    Inflight(Invalid),
    #[error("the request begins before what is known to be the same")]
    MatchingPastRequest,
    #[error("the request begins past the end of the search")]
    RequestPastSearch,
    #[error("the snapshot has nothing past what is known to be the same")]
    SnapshotNotPastMatching,
}
