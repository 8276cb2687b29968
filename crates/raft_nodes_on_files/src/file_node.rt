//! A node on files of its own.

use raft_log_engine::MemoryLog;
use raft_nodes_on_logs::LogNode;

/// A node of a cluster, on files of its own in memory (own).
pub type FileNode<M> = LogNode<M, MemoryLog>;
