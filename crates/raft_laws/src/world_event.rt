//! What may happen to a group's nodes.
use raft_group_step::GroupCall;
use raft_state::{BasicNode, Bytes};

/// What may happen to a group's nodes (own). Moments are ticks.
#[derive(Drop)]
pub enum WorldEvent {
    /// The group is added at a node.
    Add {
        /// The node.
        node: u64,
    },
    /// A node is asked for something.
    Ask {
        /// The node.
        node: u64,
        /// What it is asked for.
        call: GroupCall<u64, BasicNode, Bytes>,
        /// The moment.
        now: u64,
    },
    /// A message is delivered, perhaps again.
    Deliver {
        /// The number of the message, from 0 in the order of sending.
        number: u64,
        /// The moment.
        now: u64,
    },
    /// A node goes down, and what it has stored stays.
    Crash {
        /// The node.
        node: u64,
    },
    /// Another group's event stops the node: what it has stored stays, and its untold tokens are
    /// named as unknown.
    Halt {
        /// The node.
        node: u64,
    },
    /// A node that is down is opened.
    Restart {
        /// The node.
        node: u64,
    },
}
