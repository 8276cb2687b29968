//! How events of a cluster come to their groups.
ghost use Rattle.raft_node_joint.specs.Coming.{AddingsCome, CallsCome, MessagesCome};

/// An adding, a call and a message that was sent come to their node as that event of their group.
/// The other groups see them only where they stop the node.
pub fn events_come_to_their_groups()
    ensures addings { AddingsCome }
    ensures calls { CallsCome }
    ensures messages { MessagesCome }
{}
