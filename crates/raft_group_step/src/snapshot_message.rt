//! A leader's snapshot, and the answer.
ghost use Rattle.std.specs.Prelude.{◌≡◌};

use raft_state::{Bytes, LogId, Membership, Node, NodeId, Vote};
use std::fmt::{self, Display};

/// A membership, with the log id of the entry that has it (own).
#[derive(Drop)]
pub struct LoggedMembership<NID: NodeId, N: Node> {
    /// The log id of the entry.
    pub log_id: LogId<NID>,
    /// The membership in it.
    pub membership: Membership<NID, N>,
}

/// What a snapshot covers (openraft, without an id of its own: the last log id names it).
#[derive(Drop)]
pub struct SnapshotMeta<NID: NodeId, N: Node> {
    /// The log id of the last entry in the snapshot.
    pub last_log_id: LogId<NID>,
    /// The last membership in the snapshot, if there is one.
    pub last_membership: Option<LoggedMembership<NID, N>>,
}

impl<NID: NodeId, N: Node> Display for SnapshotMeta<NID, N> {
    fn fmt<W: fmt::Write>(&self, f: &mut fmt::Formatter<W>) -> fmt::Result {
        let last = &self.last_log_id;
        write!(f, "{{last_log:{last}}}")
    }
}

/// A leader sends its snapshot, whole (openraft, without chunks).
#[derive(Drop)]
pub struct InstallSnapshotRequest<NID: NodeId, N: Node> {
    /// The leader's vote.
    pub vote: Vote<NID>,
    /// What the snapshot covers.
    pub meta: SnapshotMeta<NID, N>,
    /// The bytes of the state machine.
    pub bytes: Bytes,
}

impl<NID: NodeId, N: Node> Display for InstallSnapshotRequest<NID, N> {
    fn fmt<W: fmt::Write>(&self, f: &mut fmt::Formatter<W>) -> fmt::Result {
        let vote = &self.vote;
        let meta = &self.meta;
        let count = self.bytes.len();
        write!(f, "vote:{vote}, meta:{meta}, len:{count}")
    }
}

/// A node answers a whole snapshot with the vote that it has then (openraft).
#[derive(Clone, Copy, PartialEq, Eq)]
pub struct SnapshotResponse<NID: NodeId> {
    /// The vote that the node has then.
    pub vote: Vote<NID>,
}

impl<NID: NodeId> SnapshotResponse<NID> {
    /// The answer of a node with this vote.
    pub fn new(vote: Vote<NID>) -> SnapshotResponse<NID>
        ensures { result ≡ record { vote = vote } }
    {
        SnapshotResponse { vote }
    }
}

/// A node answers a request to install a snapshot with the vote that it has then (openraft).
#[derive(Clone, Copy, PartialEq, Eq)]
pub struct InstallSnapshotResponse<NID: NodeId> {
    /// The vote that the node has then.
    pub vote: Vote<NID>,
}

impl<NID: NodeId> From<SnapshotResponse<NID>> for InstallSnapshotResponse<NID> {
    ghost from_gives = { λ answer response. response ≡ record { vote = answer.vote } };

    fn from(answer: SnapshotResponse<NID>) -> InstallSnapshotResponse<NID> {
        InstallSnapshotResponse { vote: answer.vote }
    }
}
