//! A node on files is one of a cluster's nodes, and so its clusters keep the headline.
ghost use Rattle.std.specs.Prelude.{◌≡◌, ◌≤◌, ℕ, not, true, take, vec_len, IfErr, IfOk, OnErr, OnOk};
ghost use Rattle.raft_cluster.specs.Cluster.{Runs};
ghost use Rattle.raft_cluster.specs.Round.{Rounds, is_for_nodes, is_round};
ghost use Rattle.raft_listed_cluster.specs.Listed.{HasLists, OnlyGrow, lists_of};
ghost use Rattle.raft_node_laws.specs.Law.{KeepsLaw};
ghost use Rattle.raft_sent_frames.specs.Frames.{frames_of};

use crate::file_node::FileNode;
use raft_cluster_events::{ClusterEvent, ClusterNode};
use raft_listed_cluster::{ListedCluster, RoundRefusal};
use raft_log_engine::MemoryLog;
use raft_machines::StateMachine;
use raft_nodes_on_logs::log_nodes_keep_the_law;
use std::thread::Threads;

/// A node on files keeps the law that a cluster asks of its nodes: wherever it stands in a history,
/// each of its calls, crashes and openings leads its groups on as the rules say, and it answers so.
pub fn nodes_on_files_keep_the_law<M: StateMachine>()
    ensures { KeepsLaw M.rules ⟦<FileNode<M> as ClusterNode>⟧.acts ⟦<FileNode<M> as ClusterNode>⟧.states }
{
    log_nodes_keep_the_law::<M, MemoryLog>();
}

/// Runs events of a cluster of nodes on files in order, and says how many (own). Fewer than all only
/// for want of memory before one. Behind them the list of each group that the cluster lends is the one
/// of which the headline speaks, whichever of the states that its files may show each node is in: each
/// node has applied a front of it, and what was told stands on it with the fold's answers. It only
/// grows.
pub fn run_on_files<M: StateMachine, R: Threads + Sync>(
    rt: &R,
    cluster: &mut ListedCluster<FileNode<M>>,
    events: Vec<ClusterEvent>,
) -> usize
    ensures within { result ≤ vec_len events }
    ensures runs { Runs ⟦<FileNode<M> as ClusterNode>⟧.acts cluster.old.cluster (take result events.items) cluster.new.cluster }
    ensures lists { HasLists M.rules ⟦<FileNode<M> as ClusterNode>⟧.acts ⟦<FileNode<M> as ClusterNode>⟧.states cluster.new }
    ensures grow { OnlyGrow (lists_of cluster.old.groups) (lists_of cluster.new.groups) }
{
    nodes_on_files_keep_the_law::<M>();
    cluster.run(rt, events)
}

/// Runs the events of a round on threads, each for another node on files, and says how many happened
/// (own): the round ends before the first crash for which its node lacks memory, as `run_on_files` does.
/// What comes of it is what that gives on these events in their order, and the lists behind it are those
/// of which the headline speaks. An `Err` changes nothing: C8 where the events are no round, else C10.
pub fn run_round_on_files<M: StateMachine + Send, R: Threads + Sync>(
    rt: &R,
    cluster: &mut ListedCluster<FileNode<M>>,
    events: Vec<ClusterEvent>,
) -> Result<usize, RoundRefusal>
    ensures runs { IfOk result (λ count. Rounds ⟦<FileNode<M> as ClusterNode>⟧.acts cluster.old.cluster events.items count cluster.new.cluster) }
    ensures round { OnOk result (is_round (frames_of cluster.old.cluster.sent) events.items ≡ true) }
    ensures why { IfErr result (λ why. is_for_nodes why ≡ not (is_round (frames_of cluster.old.cluster.sent) events.items)) }
    ensures err { OnErr result (cluster.new.cluster ≡ cluster.old.cluster) }
    ensures err_lists { OnErr result ((group : ℕ) → lists_of cluster.new.groups group ≡ lists_of cluster.old.groups group) }
    ensures lists { HasLists M.rules ⟦<FileNode<M> as ClusterNode>⟧.acts ⟦<FileNode<M> as ClusterNode>⟧.states cluster.new }
    ensures grow { OnlyGrow (lists_of cluster.old.groups) (lists_of cluster.new.groups) }
{
    nodes_on_files_keep_the_law::<M>();
    cluster.run_round(rt, events)
}
