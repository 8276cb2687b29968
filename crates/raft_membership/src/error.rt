//! Why a call is refused.

ghost use Rattle.std.specs.Prelude.{◌≡◌, None, Some, Option};
ghost use Rattle.raft_membership.specs.Forward.{forward_part};

use crate::membership::Membership;
use raft_values::log_id::LogId;
use raft_values::node::{Node, NodeId};
use raft_values::try_as_ref::TryAsRef;
use raft_values::vote::Vote;
use std::alloc::AllocError;
use thiserror::Error;

/// A voter group would have nobody (openraft).
#[derive(Clone, Copy, Debug, PartialEq, Eq, Error)]
#[error("a voter group would be empty")]
pub struct EmptyMembership {}

/// A voter isn't among the nodes (openraft).
#[derive(Clone, Copy, Debug, PartialEq, Eq, Error)]
#[error_bound(NID: NodeId)]
#[error("node {node_id} would be a voter but is no node")]
pub struct LearnerNotFound<NID> {
    pub node_id: NID,
}

/// An earlier change of the membership isn't committed yet (openraft).
#[derive(Clone, Copy, Debug, PartialEq, Eq, Error)]
#[error_bound(NID: NodeId)]
#[error("the change before isn't committed yet")]
pub struct InProgress<NID> {
    pub committed: Option<LogId<NID>>,
    pub membership_log_id: Option<LogId<NID>>,
}

/// Why a change of the membership is refused (openraft).
#[derive(Clone, Copy, Debug, PartialEq, Eq, Error)]
#[error_bound(NID: NodeId)]
pub enum ChangeMembershipError<NID> {
    #[error(transparent)]
    InProgress(InProgress<NID>),
    #[error(transparent)]
    EmptyMembership(EmptyMembership),
    #[error(transparent)]
    LearnerNotFound(LearnerNotFound<NID>),
    /// A growth was refused (own).
    #[error("out of memory")]
    Memory(AllocError),
}

/// A group that has been set up, or whose node has voted, can't be set up (openraft).
#[derive(Clone, Copy, Debug, PartialEq, Eq, Error)]
#[error_bound(NID: NodeId)]
#[error("the node has voted or has entries already")]
pub struct NotAllowed<NID> {
    pub last_log_id: Option<LogId<NID>>,
    pub vote: Vote<NID>,
}

/// A node that isn't a voter of the membership can't set up the group (openraft).
#[derive(Debug, Drop, PartialEq, Eq, Error)]
#[error("node {node_id} is no voter of the membership")]
pub struct NotInMembers<NID: NodeId, N: Node> {
    pub node_id: NID,
    pub membership: Membership<NID, N>,
}

/// Why a group isn't set up (openraft).
#[derive(Debug, Drop, PartialEq, Eq, Error)]
pub enum InitializeError<NID: NodeId, N: Node> {
    #[error(transparent)]
    NotAllowed(NotAllowed<NID>),
    #[error(transparent)]
    NotInMembers(NotInMembers<NID, N>),
}

/// An entry that was asked for isn't in the log (openraft).
#[derive(Clone, Copy, Debug, PartialEq, Eq, Error)]
#[error_bound(NID: NodeId)]
#[error("the log has no such entry")]
pub struct LackEntry<NID> {
    pub index: Option<u64>,
    pub last_purged_log_id: Option<LogId<NID>>,
}

/// The node doesn't lead: who is known to lead has to be asked (openraft).
#[derive(Debug, Drop, PartialEq, Eq, Error)]
#[error("another node leads")]
pub struct ForwardToLeader<NID: NodeId, N: Node> {
    pub leader_id: Option<NID>,
    pub leader_node: Option<N>,
}

impl<NID: NodeId, N: Node> ForwardToLeader<NID, N> {
    /// No leader is known.
    pub const fn empty() -> ForwardToLeader<NID, N>
        ensures { result ≡ record { leader_id = None; leader_node = None } }
    {
        ForwardToLeader {
            leader_id: None,
            leader_node: None,
        }
    }

    /// This leader is known.
    pub fn new(leader_id: NID, node: N) -> ForwardToLeader<NID, N>
        ensures { result ≡ record { leader_id = Some leader_id; leader_node = Some node } }
    {
        ForwardToLeader {
            leader_id: Some(leader_id),
            leader_node: Some(node),
        }
    }
}

/// Why a write of a client is refused (openraft).
#[derive(Debug, Drop, PartialEq, Eq, Error)]
pub enum ClientWriteError<NID: NodeId, N: Node> {
    #[error(transparent)]
    ForwardToLeader(ForwardToLeader<NID, N>),
    #[error(transparent)]
    ChangeMembershipError(ChangeMembershipError<NID>),
}

impl<NID: NodeId, N: Node> TryAsRef<ForwardToLeader<NID, N>> for ClientWriteError<NID, N> {
    ghost part = { forward_part };

    fn try_as_ref(&self) -> Option<&ForwardToLeader<NID, N>> {
        match self {
            ClientWriteError::ForwardToLeader(forward) => Some(forward),
            ClientWriteError::ChangeMembershipError(_) => None,
        }
    }
}
