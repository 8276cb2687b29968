//! What may happen to a cluster.

use raft_group_step::GroupCall;
use raft_sent_frames::Sequence;
use raft_state::{BasicNode, Bytes};

/// What a node is asked for in a group.
pub type GroupCommand = GroupCall<u64, BasicNode, Bytes>;

/// What a crash leaves of one file of a node (own).
#[derive(Drop)]
pub struct FileImage {
    /// The file's path.
    pub path: String,
    /// Its bytes.
    pub bytes: Vec<u8>,
}

/// What a crash leaves of a node's files (own).
#[derive(Drop)]
pub enum CrashChoice {
    /// What was synced.
    Least,
    /// What reads see.
    Most,
    /// These bytes, for each file once. The node refuses them where no crash leaves its files so.
    Bytes(Sequence<FileImage>),
}

/// An event of a cluster (own). Nodes, groups and peers are named by their ids; a moment `now` is in
/// ticks.
#[derive(Drop)]
pub enum ClusterEvent {
    /// The node gets the group, with nothing in it.
    AddGroup {
        node: u64,
        group: u64,
    },
    /// The node is asked for something of the group.
    Ask {
        node: u64,
        group: u64,
        call: GroupCommand,
        now: u64,
    },
    /// The group's frame of this number comes to the node that it is for, cut at these places in bytes.
    Deliver {
        group: u64,
        number: u64,
        cuts: Sequence<u64>,
        now: u64,
    },
    /// The peer's stream begins anew at the node, and what was held of it goes.
    ResetPeer {
        node: u64,
        peer: u64,
    },
    /// The node's log is cleaned, where it is time for that: what is no longer needed of its files goes.
    Clean {
        node: u64,
    },
    /// The node's files refuse each changing call from this one on, the first one counted as 1; with
    /// none they refuse no call any more. So a machine stops inside a call of its files.
    Fuse {
        node: u64,
        first_refused: Option<u64>,
    },
    /// The node's machine stops, and leaves of its files what the choice says.
    Crash {
        node: u64,
        choice: CrashChoice,
    },
    /// The node is opened again with its files, by so many workers.
    Reopen {
        node: u64,
        workers: u64,
    },
}
