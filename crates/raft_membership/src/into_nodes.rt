//! What nodes may be given as.
ghost use Rattle.std.specs.Prelude.{◌≡◌, Bool, List, [], true, false, map, IfOk};
ghost use Rattle.raft_membership.specs.Membership.{default_nodes, optional_nodes};

use raft_quorums::id_set::IdSet;
use raft_quorums::node_map::NodeMap;
use raft_values::node::{Node, NodeId};
use std::alloc::{AllocError, Global};

/// What nodes may be given as (openraft): nothing, ids alone, or ids with their nodes.
pub trait IntoNodes<NID: NodeId, N: Node>: Drop {
    // Whether it tells more than the ids.
    ghost tells_nodes: { Self → Bool };
    // The nodes that it stands for, by rising id.
    ghost nodes: { Self → List (NID × N) };

    /// Whether it tells more of the nodes than their ids.
    fn has_nodes(&self) -> bool
        ensures { result ≡ tells_nodes self.now };

    /// The ids of the nodes.
    fn node_ids(&self, alloc: Global) -> Result<IdSet<NID>, AllocError>
        ensures { IfOk result (λ ids. ids ≡ map (λ (x : NID × N). x.0) (nodes self.now)) };

    /// The nodes. Where only ids are told, nothing else is known of the nodes.
    fn into_nodes(self, alloc: Global) -> Result<NodeMap<NID, N>, AllocError>
        ensures { IfOk result (λ map. map ≡ nodes self) };
}

// The ids with nodes of which nothing is known.
fn default_nodes<NID: NodeId, N: Node>(
    alloc: Global,
    ids: &[NID],
) -> Result<Vec<(NID, N)>, AllocError>
    ensures { IfOk result (λ nodes. nodes.items ≡ default_nodes N.default_node ids.now) }
{
    let mut nodes = Vec::new(alloc);
    for id in ids {
        nodes.push((*id, N::default(alloc)))?;
    }
    Ok(nodes)
}

impl<NID: NodeId, N: Node> IntoNodes<NID, N> for () {
    ghost tells_nodes = { λ _. false };

    ghost nodes = { λ _. [] };

    fn has_nodes(&self) -> bool {
        false
    }

    fn node_ids(&self, alloc: Global) -> Result<IdSet<NID>, AllocError> {
        Ok(IdSet::new(alloc))
    }

    fn into_nodes(self, alloc: Global) -> Result<NodeMap<NID, N>, AllocError> {
        Ok(NodeMap::new(alloc))
    }
}

#[tactic(auto, using(crate::proofs::MembershipLemmas::ids_of_default_nodes, crate::proofs::MembershipLemmas::rising_default_nodes))]
impl<NID: NodeId, N: Node> IntoNodes<NID, N> for IdSet<NID> {
    ghost tells_nodes = { λ _. false };

    ghost nodes = { default_nodes N.default_node };

    fn has_nodes(&self) -> bool {
        false
    }

    fn node_ids(&self, _alloc: Global) -> Result<IdSet<NID>, AllocError> {
        self.clone()
    }

    fn into_nodes(self, alloc: Global) -> Result<NodeMap<NID, N>, AllocError> {
        let nodes = default_nodes(alloc, self.as_slice())?;
        Ok(NodeMap::from_rising(nodes))
    }
}

impl<NID: NodeId, N: Node> IntoNodes<NID, N> for Option<IdSet<NID>> {
    ghost tells_nodes = { λ _. false };

    ghost nodes = { optional_nodes N.default_node };

    fn has_nodes(&self) -> bool {
        false
    }

    fn node_ids(&self, alloc: Global) -> Result<IdSet<NID>, AllocError> {
        match self {
            None => Ok(IdSet::new(alloc)),
            Some(ids) => <IdSet<NID> as IntoNodes<NID, N>>::node_ids(ids, alloc),
        }
    }

    fn into_nodes(self, alloc: Global) -> Result<NodeMap<NID, N>, AllocError> {
        match self {
            None => Ok(NodeMap::new(alloc)),
            Some(ids) => ids.into_nodes(alloc),
        }
    }
}

impl<NID: NodeId, N: Node> IntoNodes<NID, N> for NodeMap<NID, N> {
    ghost tells_nodes = { λ _. true };

    ghost nodes = { λ nodes. nodes };

    fn has_nodes(&self) -> bool {
        true
    }

    fn node_ids(&self, _alloc: Global) -> Result<IdSet<NID>, AllocError> {
        self.ids()
    }

    fn into_nodes(self, _alloc: Global) -> Result<NodeMap<NID, N>, AllocError> {
        Ok(self)
    }
}
