//! What an answer shows.

/// A frame that an event sent (own).
#[derive(Clone, Copy, Debug, PartialEq, Eq)]
pub struct SentNumber {
    /// The node that it is for.
    pub peer: u64,
    /// Its number among the group's frames, from 0 in the order of sending.
    pub number: u64,
}

/// A group's total at a node (own).
#[derive(Clone, Copy, PartialEq, Eq)]
pub struct AppliedTotal {
    pub total: u64,
    /// The last place that is in it, if any is.
    pub place: Option<u64>,
}
