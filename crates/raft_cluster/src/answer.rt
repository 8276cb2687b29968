//! What a node answers, before that is settled.

use raft_cluster_conditions::ClusterRefusal;
use raft_cluster_events::{NodeError, NodeOutcome, Sequence, Stop};

/// What a node answered to an event that came to it. Its frames aren't sent yet.
#[derive(Drop)]
pub enum Answer {
    /// To an event of one of its groups.
    OfGroup(Result<Option<NodeOutcome>, NodeError>),
    /// To an event that sends nothing.
    Quiet(Result<(), NodeError>),
    /// To the cleaning of its files: the groups that hold old ones back.
    Cleaned(Result<Sequence<u64>, NodeError>),
    /// To its opening.
    Opened(Result<Sequence<NodeOutcome>, Stop>),
    /// It refused a crash, which is turned away for this.
    Spared(ClusterRefusal),
}
