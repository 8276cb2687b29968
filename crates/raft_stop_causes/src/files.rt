//! Why a node on files stops, where a history leads to it.
ghost use Rattle.raft_store_laws.specs.Storable.{HasShortSnapshots};
ghost use Rattle.raft_stop_causes.specs.FileCauses.{StopOnFiles};

use raft_cluster_events::ClusterNode;
use raft_machines::StateMachine;
use raft_nodes_on_files::FileNode;

/// A node on files that stands behind a history, and whose machine's snapshots have no more bytes than
/// one may have, never stops for `TooLong`; and by `Other` only where its log's calls met a file that is
/// gone or has no number (own).
pub fn file_nodes_stop_for_cause<M: StateMachine>()
    ensures { HasShortSnapshots M.rules → StopOnFiles M.rules ⟦<FileNode<M> as ClusterNode>⟧.acts ⟦<FileNode<M> as ClusterNode>⟧.states }
{}
