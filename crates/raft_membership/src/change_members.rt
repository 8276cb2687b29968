//! What a change of a membership asks for.
ghost use Rattle.std.specs.Prelude.{◌≡◌};
ghost use Rattle.raft_membership.specs.declared.change_members.ChangeMembers.TheVariants.{ReplaceAllVoters};

use raft_quorums::id_set::IdSet;
use raft_quorums::node_map::NodeMap;
use raft_values::node::{Node, NodeId};

/// A change of a membership (openraft).
#[derive(Drop, PartialEq, Eq)]
pub enum ChangeMembers<NID: NodeId, N: Node> {
    /// These nodes become voters too. They have to be nodes already.
    AddVoterIds(IdSet<NID>),
    /// These nodes come in and become voters too. The descriptions of nodes that are there stay.
    AddVoters(NodeMap<NID, N>),
    /// These nodes are voters no longer.
    RemoveVoters(IdSet<NID>),
    /// The voters are just these.
    ReplaceAllVoters(IdSet<NID>),
    /// These nodes come in. The descriptions of nodes that are there stay.
    AddNodes(NodeMap<NID, N>),
    /// These nodes come in, in place of those with their ids.
    SetNodes(NodeMap<NID, N>),
    /// These nodes leave. A voter can't.
    RemoveNodes(IdSet<NID>),
    /// The nodes are just these.
    ReplaceAllNodes(NodeMap<NID, N>),
}

// The ids alone stand for a change to just these voters.
impl<NID: NodeId, N: Node> From<IdSet<NID>> for ChangeMembers<NID, N> {
    ghost from_gives = { λ ids change. change ≡ ReplaceAllVoters ids };

    fn from(ids: IdSet<NID>) -> ChangeMembers<NID, N> {
        ChangeMembers::ReplaceAllVoters(ids)
    }
}
