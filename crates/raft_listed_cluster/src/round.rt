//! A round of events: memory for all of them before it, and what the lists hear of it once it is over.
ghost use Rattle.std.specs.Prelude.{◌≡◌, length, IfOk, OnOk};
ghost use Rattle.raft_sent_frames.specs.Frames.{frames_of};
ghost use Rattle.raft_cluster_lists.specs.Groups.{IsPreparedFor, KeepReady};
ghost use Rattle.raft_cluster.specs.Round.{is_crash};
ghost use Rattle.raft_listed_cluster.specs.Round.{AreReadyFor, HearsRound};
ghost use Rattle.raft_listed_cluster.specs.Preparing.{ArePrepared, ArePreparedFor, IsPreparedSo};

use crate::hearing::{hear_behind, leading_at};
use raft_cluster::Cluster;
use raft_cluster_events::{ClusterEvent, ClusterNode, Recorded};
use raft_cluster_lists::{Brought, ClusterLists, group_of};
use std::alloc::{AllocError, Global};

// Whether an event is a crash: it brings no list anything.
fn is_crash(event: &ClusterEvent) -> bool
    ensures { result ≡ is_crash event.now }
{
    matches!(event, ClusterEvent::Crash { .. })
}

/// Before an event, which is one of so many that come at once: finds memory for it, and copies what it
/// brings to the lists. An `Err` is want of memory, which changes no list.
pub fn prepare_event<N: ClusterNode>(
    cluster: &Cluster<N>,
    lists: &mut ClusterLists,
    event: &ClusterEvent,
    events: usize,
) -> Result<Brought, AllocError>
    ensures groups { IsPreparedFor event.now lists.old lists.new }
    ensures keep { OnOk result (KeepReady events events lists.old lists.new) }
    ensures prepared { IfOk result (λ brought. IsPreparedSo N.acts cluster.now.nodes (frames_of cluster.now.sent) events lists.new event.now brought) }
{
    let leading = leading_at(cluster, cluster.node_of(event), group_of(event));
    lists.prepare(&leading, event, events)
}

/// The same for each event of a round but its crashes. An `Err` changes no list either.
pub fn prepare_round<N: ClusterNode>(
    alloc: Global,
    cluster: &Cluster<N>,
    lists: &mut ClusterLists,
    events: &[ClusterEvent],
) -> Result<Vec<Brought>, AllocError>
    ensures groups { ArePreparedFor events.now lists.old lists.new }
    ensures prepared { IfOk result (λ broughts. ArePrepared N.acts cluster.now.nodes (frames_of cluster.now.sent) (length events.now) lists.new events.now broughts.items) }
{
    let mut broughts = Vec::new(alloc);
    for event in events {
        if is_crash(event) {
            continue;
        }
        let brought = prepare_event(cluster, lists, event, events.len())?;
        broughts.push(brought)?;
    }
    Ok(broughts)
}

/// The lists go on with the events of a round that happened, in their order; behind it the cluster is
/// this. Of each event but the crashes there is what it brings, and room for it, so it can't fail.
pub fn hear_round<N: ClusterNode>(
    cluster: &Cluster<N>,
    lists: &mut ClusterLists,
    records: &[Recorded],
    broughts: Vec<Brought>,
)
    requires { AreReadyFor records.now broughts.items lists.old }
    ensures { HearsRound N.acts cluster.now.nodes (frames_of cluster.now.sent) records.now broughts.items lists.old lists.new }
{
    let mut left = broughts.into_iter();
    for recorded in records {
        if is_crash(&recorded.event) {
            continue;
        }
        let Some(brought) = left.next() else {
            return;
        };
        hear_behind(cluster, lists, recorded, brought);
    }
}
