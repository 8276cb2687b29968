//! What a crash and a fuse do at a node on files.
ghost use Rattle.raft_nodes_on_files.specs.Stops.{StopAsAsked};

use crate::file_node::FileNode;
use raft_cluster_events::ClusterNode;
use raft_machines::StateMachine;

/// A crash leaves of a node's files just what was chosen: bytes that a crash may leave, and nothing
/// among them that passes by chance for what a call wrote. It is refused for the lack of one of these,
/// or of memory, and changes nothing then. A fuse is set, also of a node that is down; it burns by
/// changing calls alone, and an opened node has that of its files. Behind a fuse that refuses each
/// changing call, an event that ends without a stop has stored nothing (own).
pub fn file_nodes_stop_as_asked<M: StateMachine>()
    ensures { StopAsAsked ⟦<FileNode<M> as ClusterNode>⟧.acts }
{}
