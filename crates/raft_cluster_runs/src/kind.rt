//! Kinds of nodes.
ghost use Rattle.std.specs.Thread.{IsSync};

use raft_cluster_events::{ClusterEvent, ClusterNode};
use raft_listed_cluster::{ListedCluster, RoundRefusal};
use raft_machines::AddingMachine;
use std::alloc::{AllocError, Global};
use std::thread::Threads;

/// A kind of nodes, and how clusters of them run events (own). A handle of threads is shared with them:
/// the clauses say again what the bound `Sync` does.
pub trait NodeKind {
    /// The nodes.
    type Node: ClusterNode<Machine = AddingMachine>;

    /// What their log files are to be like: their size, and how much of them is cleaned, in kilobytes.
    fn settings(
        alloc: Global,
        file_size: u32,
        threshold: u32,
    ) -> Result<<Self::Node as ClusterNode>::Settings, AllocError>;

    /// Runs events in order, and says how many.
    fn run<R: Threads + Sync>(
        rt: &R,
        cluster: &mut ListedCluster<Self::Node>,
        events: Vec<ClusterEvent>,
    ) -> usize
        requires shared { IsSync R.row };
}

/// A kind of nodes that run the events of a round at once (own).
pub trait RoundKind: NodeKind {
    /// Runs the events of a round, and says how many.
    fn run_round<R: Threads + Sync>(
        rt: &R,
        cluster: &mut ListedCluster<Self::Node>,
        events: Vec<ClusterEvent>,
    ) -> Result<usize, RoundRefusal>
        requires shared { IsSync R.row };
}

/// A cluster of nodes from 1 to that number, which have nothing.
pub fn cluster_of<K: NodeKind, R: Threads + Sync>(
    rt: &R,
    alloc: Global,
    count: u64,
    file_size: u32,
) -> Result<ListedCluster<K::Node>, AllocError> {
    let settings = K::settings(alloc, file_size, file_size.saturating_mul(4))?;
    let mut ids = Vec::new(alloc);
    for id in 0..count {
        ids.push(id + 1)?;
    }
    ListedCluster::new(rt, alloc, ids.as_slice(), &settings)
}
