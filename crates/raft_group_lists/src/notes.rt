//! What is noted of a group's leaders.
use raft_state::{BasicNode, Bytes, Entry, Vote};

/// An entry that a leader had (own).
#[derive(Drop)]
pub struct Noted {
    /// The entry.
    pub entry: Entry<u64, BasicNode, Bytes>,
    /// Where the one before it in that leader's list is noted; none for the first entry.
    pub before: Option<usize>,
    /// How many entries that list has up to this one.
    pub count: usize,
}

/// What a node has accepted under a leader's vote (own).
#[derive(Drop)]
pub struct Reached {
    /// The node.
    pub node: u64,
    /// The greatest place of an own entry of the leader up to which it has accepted; none if there is none.
    pub place: Option<u64>,
}

/// What is noted under a vote (own).
#[derive(Drop)]
pub struct Lead {
    /// The vote.
    pub vote: Vote<u64>,
    /// Where the last entry of its leader's list is noted; none where no such list was noted.
    pub last: Option<usize>,
    /// Who accepted what.
    pub reached: Vec<Reached>,
}
