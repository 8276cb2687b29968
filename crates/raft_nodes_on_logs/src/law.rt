//! A node over any log is one of a cluster's nodes.
ghost use Rattle.raft_node_laws.specs.Law.{KeepsLaw};

use crate::log_node::LogNode;
use raft_cluster_events::ClusterNode;
use raft_machines::StateMachine;
use raft_node_logs::NodeLog;

/// A node over any log keeps the law that a cluster asks of its nodes: wherever it stands in a history,
/// each of its calls, crashes and openings leads its groups on as the rules say, and it answers so.
pub fn log_nodes_keep_the_law<M: StateMachine, L: NodeLog>()
    ensures { KeepsLaw M.rules ⟦<LogNode<M, L> as ClusterNode>⟧.acts ⟦<LogNode<M, L> as ClusterNode>⟧.states }
{}
