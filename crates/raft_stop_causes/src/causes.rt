//! Why a node over any log stops, where a history leads to it.
ghost use Rattle.raft_nodes_on_logs.specs.Kinds.{kind_of};
ghost use Rattle.raft_store_laws.specs.Storable.{HasShortSnapshots};
ghost use Rattle.raft_stop_causes.specs.Causes.{StopForCause};

use raft_machines::StateMachine;
use raft_node_logs::NodeLog;

/// A node over any log that stands behind a history, and whose machine's snapshots have no more bytes
/// than one may have, stops only for want of memory, or for a fault that its log's own calls met, and
/// never by a misuse of the log (own): its store refuses nothing that it is given, and none of its
/// messages is past the limits of a frame. Openings say so too, but for the frames that they send.
pub fn log_nodes_stop_for_cause<M: StateMachine, L: NodeLog>()
    ensures { HasShortSnapshots M.rules → StopForCause (kind_of M.StateMachine.own L.ContentLog.own L.CrashLog.own L.NodeLog.own) }
{}
