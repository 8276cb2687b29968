//! Frames on their way.

use raft_list_facts::Acceptance;
use raft_values::Bytes;

/// A frame that leaves a node (own).
#[derive(Drop)]
pub struct NodeFrame {
    /// The node that it is for.
    pub peer: u64,
    /// Its bytes, whole.
    pub bytes: Bytes,
    /// What its message accepts, if anything.
    pub accepts: Option<Acceptance>,
}

/// A frame that a node sent (own).
#[derive(Drop)]
pub struct SentFrame {
    /// The node that sent it.
    pub sender: u64,
    /// The node that it is for.
    pub peer: u64,
    /// Its bytes, whole.
    pub bytes: Bytes,
    /// What its message accepts, if anything.
    pub accepts: Option<Acceptance>,
}

/// A frame by its number (own).
#[derive(Clone, Copy, Debug, PartialEq, Eq)]
pub struct SentNumber {
    /// The node that it is for.
    pub peer: u64,
    /// Its number among the group's frames, from 0 in the order of sending.
    pub number: u64,
}
