//! The types that a group is made of.
use raft_state::{Node, NodeId};
use std::fmt::Debug;

/// The types that a group is made of (openraft; here without those of an async runtime). Entries
/// are `raft_state::Entry` over them.
pub trait RaftTypeConfig: Debug + Drop {
    /// What a client asks the state machine for.
    type D: Debug + Drop;
    /// What the state machine answers.
    type R: Debug + Drop;
    /// The id of a node.
    type NodeId: NodeId;
    /// What is known of a node beside its id.
    type Node: Node;
}
