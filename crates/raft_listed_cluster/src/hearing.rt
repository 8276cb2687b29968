//! What is known of an event around a step of the cluster, and what the lists hear of it.
ghost use Rattle.std.specs.Prelude.{◌≡◌};
ghost use Rattle.std.specs.Option.{option_copied};
ghost use Rattle.raft_sent_frames.specs.Frames.{frames_of};
ghost use Rattle.raft_cluster_lists.specs.Groups.{IsReadyFor};
ghost use Rattle.raft_cluster_lists.specs.Hearing.{group_of};
ghost use Rattle.raft_cluster.specs.Facts.{node_at, node_of};
ghost use Rattle.raft_listed_cluster.specs.Hearing.{AcceptsSince, HasSent, IsHeardOf, IsHeardThen, Tells};
ghost use Rattle.raft_listed_cluster.specs.Numbers.{AcceptsBy};

use crate::numbers::accepts_by;
use raft_cluster::Cluster;
use raft_cluster_events::{Acceptance, ClusterNode, EventOutcome, Leading, Recorded};
use raft_cluster_lists::{Brought, ClusterLists, group_of};
use raft_sent_frames::first_accepted;

// The node of this id, lent, if there is one.
fn node_at<N: ClusterNode>(cluster: &Cluster<N>, id: Option<u64>) -> Option<&N>
    ensures { option_copied result ≡ node_at N.acts cluster.now.nodes id }
{
    cluster.node(id?)
}

/// What the node tells that it leads the group with, if there are both.
pub fn leading_at<N: ClusterNode>(
    cluster: &Cluster<N>,
    id: Option<u64>,
    group: Option<u64>,
) -> Option<Leading>
    ensures { Tells N.acts (node_at N.acts cluster.now.nodes id) group result }
{
    let node = node_at(cluster, id)?;
    node.leading(group?)
}

/// How many frames were sent in the group, if there is one.
pub fn sent_in<N: ClusterNode>(cluster: &Cluster<N>, group: Option<u64>) -> usize
    ensures { HasSent (frames_of cluster.now.sent) group result }
{
    match group {
        Some(group) => cluster.frames(group).len(),
        None => 0,
    }
}

// What the group's frames accept behind so many: the first that one does.
fn accepted_since<N: ClusterNode>(
    cluster: &Cluster<N>,
    group: Option<u64>,
    count: usize,
) -> Option<Acceptance>
    ensures { AcceptsSince (frames_of cluster.now.sent) group count result }
{
    let frames = cluster.frames(group?);
    if count > frames.len() {
        return None;
    }
    first_accepted(&frames[count..])
}

/// The lists go on with an event behind which the cluster is this. It was for the node of this id, and
/// so many frames were sent in its group before it. What has no node was turned away, and isn't heard.
pub fn hear_step<N: ClusterNode>(
    cluster: &Cluster<N>,
    lists: &mut ClusterLists,
    id: Option<u64>,
    count: usize,
    recorded: &Recorded,
    brought: Brought,
)
    requires { IsReadyFor recorded.now.event 1 lists.old }
    ensures { IsHeardOf N.acts cluster.now.nodes (frames_of cluster.now.sent) id (group_of recorded.now.event) count
        recorded.now.event recorded.now.outcome brought lists.old lists.new }
{
    let accepted = accepted_since(cluster, group_of(&recorded.event), count);
    if let Some(node) = node_at(cluster, id) {
        lists.hear_event(node, &recorded.event, &recorded.outcome, accepted, brought);
    }
}

// What an event of this outcome accepts with its frames of the group, if it is of one.
fn accepted_by<N: ClusterNode>(
    cluster: &Cluster<N>,
    group: Option<u64>,
    outcome: &EventOutcome,
) -> Option<Acceptance>
    ensures { AcceptsBy (frames_of cluster.now.sent) group outcome.now result }
{
    let group = group?;
    accepts_by(cluster.frames(group), group, outcome)
}

/// The lists go on with an event of a round that is over, behind which the cluster is this.
pub fn hear_behind<N: ClusterNode>(
    cluster: &Cluster<N>,
    lists: &mut ClusterLists,
    recorded: &Recorded,
    brought: Brought,
)
    requires { IsReadyFor recorded.now.event 1 lists.old }
    ensures { IsHeardThen N.acts cluster.now.nodes (frames_of cluster.now.sent) (node_of (frames_of cluster.now.sent) recorded.now.event)
        recorded.now.event recorded.now.outcome brought lists.old lists.new }
{
    let accepted = accepted_by(cluster, group_of(&recorded.event), &recorded.outcome);
    if let Some(node) = node_at(cluster, cluster.node_of(&recorded.event)) {
        lists.hear_event(node, &recorded.event, &recorded.outcome, accepted, brought);
    }
}
