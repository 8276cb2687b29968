//! What a node is asked for in a group.
use raft_state::{ChangeMembers, Membership, Node, NodeId};

/// What a node is asked for in a group (own). A token names a command or change: it is told with
/// its place once that is applied.
#[derive(Drop)]
pub enum GroupCall<NID: NodeId, N: Node, D> {
    /// The group is set up with this membership.
    Initialize {
        /// The first membership.
        membership: Membership<NID, N>,
    },
    /// The node stands for election.
    Elect,
    /// The leader takes a command.
    Propose {
        /// The command.
        command: D,
        /// What the command's place is told by.
        token: u64,
    },
    /// The leader takes a change of the membership.
    ChangeMembership {
        /// The change.
        change: ChangeMembers<NID, N>,
        /// What the change's place is told by.
        token: u64,
    },
    /// The leader sends a notice to each other node.
    Heartbeat,
    /// The outstanding request to the peer counts as failed.
    Lost {
        /// The peer.
        peer: NID,
    },
    /// A snapshot of what is applied is stored.
    TriggerSnapshot,
    /// The log is purged up to this place, no further than the snapshot goes.
    TriggerPurge {
        /// The last place that goes.
        place: u64,
    },
}
