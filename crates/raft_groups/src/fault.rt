//! Why a node's groups don't take an event.

use raft_member::Broken;
use std::fmt;
use thiserror::Error;

/// Why an event isn't taken (own).
#[derive(Debug, Drop, Error)]
#[error_bound(F: fmt::Display)]
pub enum GroupsFault<F> {
    /// An earlier event met a fault. Nothing more is taken: the node is to be opened again.
    #[error("the node failed before")]
    Failed,
    /// The node hasn't the group.
    #[error("the group isn't there")]
    UnknownGroup,
    /// The node has the group already.
    #[error("the group is there already")]
    GroupExists,
    /// The event met a fault, and from now on the node has failed.
    #[error("the node stopped: {0}")]
    Stopped(Broken<F>),
}
