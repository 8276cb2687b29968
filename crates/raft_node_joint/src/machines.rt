//! A node's machines keep the law of machines.
ghost use Rattle.raft_node.specs.Standing.{value_of};
ghost use Rattle.raft_node_joint.specs.Standing.{KeepMachinesLaw};

use raft_group_storage::GroupStorage;
use raft_machines::StateMachine;
use raft_messages::SnapshotBytes;
use raft_node::Node;

/// What a snapshot of a machine restores is the machine's state: of a new machine, and of each that
/// runs at the node.
pub fn machines_keep_their_law<M: StateMachine, S: GroupStorage<Snapshot = SnapshotBytes>>(
    node: &Node<M, S>,
)
    ensures { KeepMachinesLaw M.rules (value_of M.state S.is_well S.shows S.fails node.now) }
{}
