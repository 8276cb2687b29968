//! A node over a log in memory is one of a cluster's nodes, and so its clusters keep the headline.
ghost use Rattle.std.specs.Prelude.{◌≤◌, take, vec_len};
ghost use Rattle.raft_cluster.specs.Cluster.{Runs};
ghost use Rattle.raft_listed_cluster.specs.Listed.{HasLists, OnlyGrow, lists_of};
ghost use Rattle.raft_node_laws.specs.Law.{KeepsLaw};

use crate::fused_log::FusedLog;
use raft_cluster_events::{ClusterEvent, ClusterNode};
use raft_listed_cluster::ListedCluster;
use raft_machines::StateMachine;
use raft_nodes_on_logs::{LogNode, log_nodes_keep_the_law};
use std::thread::Threads;

/// A node of a cluster, over a log of its own in memory: a crash keeps what is stored, whatever the
/// choice (own). Behind a fuse each write of its log is refused from that one on.
pub type PlainNode<M> = LogNode<M, FusedLog>;

/// A node over a log in memory keeps the law that a cluster asks of its nodes: wherever it stands in a
/// history, each of its calls, crashes and openings leads its groups on as the rules say, and it
/// answers so.
pub fn plain_nodes_keep_the_law<M: StateMachine>()
    ensures { KeepsLaw M.rules ⟦<PlainNode<M> as ClusterNode>⟧.acts ⟦<PlainNode<M> as ClusterNode>⟧.states }
{
    log_nodes_keep_the_law::<M, FusedLog>();
}

/// Runs events of a cluster of nodes over logs in memory in order, and says how many (own), with the
/// promises of `run_on_files`: behind them the list of each group that the cluster lends is the one of
/// which the headline speaks, and it only grows.
pub fn run_on_plain_logs<M: StateMachine, R: Threads + Sync>(
    rt: &R,
    cluster: &mut ListedCluster<PlainNode<M>>,
    events: Vec<ClusterEvent>,
) -> usize
    ensures within { result ≤ vec_len events }
    ensures runs { Runs ⟦<PlainNode<M> as ClusterNode>⟧.acts cluster.old.cluster (take result events.items) cluster.new.cluster }
    ensures lists { HasLists M.rules ⟦<PlainNode<M> as ClusterNode>⟧.acts ⟦<PlainNode<M> as ClusterNode>⟧.states cluster.new }
    ensures grow { OnlyGrow (lists_of cluster.old.groups) (lists_of cluster.new.groups) }
{
    plain_nodes_keep_the_law::<M>();
    cluster.run(rt, events)
}
