//! What a node that is up lends and tells of a group.
ghost use Rattle.std.specs.Prelude.{◌≡◌, option_map};
ghost use Rattle.std.specs.Option.{option_copied};
ghost use Rattle.raft_node.specs.Reading.{machine_in, place_in};
ghost use Rattle.raft_node.specs.Standing.{running_in};
ghost use Rattle.raft_nodes_on_logs.specs.Acts.{unless_failed};

use raft_machines::StateMachine;
use raft_node::Node;
use raft_node_logs::NodeLog;
use raft_store::Store;

/// The group's machine, lent; none once the node has failed.
pub fn machine_of<M: StateMachine, L: NodeLog>(
    node: &Node<M, Store<M, L>>,
    group: u64,
) -> Option<&M>
    ensures { option_map M.state (option_copied result) ≡ machine_in (unless_failed node.now.groups.has_failed (running_in M.state node.now.machines group)) }
{
    node.machine(group)
}

/// The last place that the group's machine has run; none once the node has failed.
pub fn place_of<M: StateMachine, L: NodeLog>(node: &Node<M, Store<M, L>>, group: u64) -> Option<u64>
    ensures { result ≡ place_in (unless_failed node.now.groups.has_failed (running_in M.state node.now.machines group)) }
{
    node.applied(group)
}
