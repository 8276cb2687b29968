//! The facts of a group by which its events are judged.
use raft_group_step::GroupCall;
use raft_messages::LoggedPair;
use raft_state::{BasicNode, Bytes, Vote};

/// A call whose command is bytes.
pub type GroupCommand = GroupCall<u64, BasicNode, Bytes>;

/// What is known of a group at a node when an event comes (own).
#[derive(Clone, Copy)]
pub struct GroupFacts<'a> {
    /// The node's own id.
    pub own: u64,
    /// Whether the node has the group.
    pub present: bool,
    /// The stored vote.
    pub vote: Vote<u64>,
    /// The membership in force, if there is one.
    pub membership: Option<LoggedPair<'a>>,
    /// Whether the group has neither a vote nor entries nor a snapshot yet.
    pub is_new: bool,
    /// Whether the node leads the group.
    pub is_leader: bool,
    /// Whether the node stands for election.
    pub is_candidate: bool,
    /// The place after the log's last entry.
    pub end: u64,
    /// The last place that is known to be committed, if there is one.
    pub committed: Option<u64>,
    /// The greatest number of a next request of the leader's peers; 0 where there is none.
    pub greatest_next_id: u64,
}

/// Who a message is from and for (own).
#[derive(Clone, Copy, PartialEq, Eq)]
pub struct Parties {
    /// The node whose connection the message came over.
    pub peer: u64,
    /// The node that the message names as its sender.
    pub sender: u64,
    /// The node that the message is for.
    pub addressee: u64,
}
