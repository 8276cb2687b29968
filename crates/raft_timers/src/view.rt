//! What a clock is shown of a group.

use raft_values::ServerState;

/// What a node knows of a group, as its readers tell it (own). Moments are in ticks.
#[derive(Clone, Copy, Debug, PartialEq, Eq)]
pub struct GroupView {
    /// What part the node plays.
    pub role: ServerState,
    /// When the group's vote was stored, or a leader last heard of, if that is known.
    pub renewed: Option<u64>,
    /// The latest moment at or after which a leader has heard of a quorum, if it has.
    pub quorum_heard: Option<u64>,
    /// The last place that is applied, if one is.
    pub applied: Option<u64>,
    /// The last place that the snapshot covers, if there is one.
    pub snapshot: Option<u64>,
    /// The last place that is purged, if one is.
    pub purged: Option<u64>,
}
