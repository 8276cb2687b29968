//! The voter group that a change asks for, seen without being made.
ghost use Rattle.raft_membership.specs.Membership.{first_outside};
ghost use Rattle.raft_membership.specs.MembershipChange.{without_ids};
ghost use Rattle.std.specs.Cmp.Lexicographic.{pointwise};
ghost use Rattle.std.specs.Prelude.{◌≡◌, ◌==◌, List, length, map};

use raft_quorums::has_id::HasId;
use raft_quorums::id_set::IdSet;
use raft_values::node::{Node, NodeId};

/// The voter group that a change asks for, or the ids that are to come into one. It takes no
/// memory (own).
pub trait Goal<NID: NodeId> {
    // Its ids.
    ghost ids: { Self → List NID };

    /// Whether it has nobody.
    fn has_nobody(&self) -> bool
        ensures { result ≡ (length (ids self.now) == 0) };

    /// The first of its ids that is no node.
    fn first_missing<S: HasId<NID>>(&self, nodes: &S) -> Option<NID>
        ensures { result ≡ first_outside (S.has nodes.now) (ids self.now) };

    /// Whether the voter group has just its ids.
    fn is_group(&self, group: &IdSet<NID>) -> bool
        ensures { result ≡ pointwise NID.eq group.now (ids self.now) };
}

impl<NID: NodeId> Goal<NID> for &[NID] {
    ghost ids = { λ ids. ids.now };

    fn has_nobody(&self) -> bool {
        self.len() == 0
    }

    fn first_missing<S: HasId<NID>>(&self, nodes: &S) -> Option<NID> {
        self.iter().copied().find(|id| !nodes.has_id(id))
    }

    fn is_group(&self, group: &IdSet<NID>) -> bool {
        group.as_slice() == *self
    }
}

/// Whether these are just the ids of the nodes, in their order (own).
pub fn are_ids_of<NID: NodeId, N: Node>(ids: &[NID], nodes: &[(NID, N)]) -> bool
    ensures { result ≡ pointwise NID.eq ids.now (map (λ x. x.0) nodes.now) }
{
    let mut at = 0;
    for node in nodes {
        if at == ids.len() || ids[at] != node.0 {
            return false;
        }
        at += 1;
    }
    at == ids.len()
}

/// Whether these are just those of the group who stay, in their order (own).
pub fn are_stayers<NID: NodeId>(ids: &[NID], group: &[NID], leavers: &IdSet<NID>) -> bool
    ensures { result ≡ pointwise NID.eq ids.now (without_ids NID.eq group.now leavers.now) }
{
    let mut at = 0;
    for id in group {
        if leavers.contains(id) {
            continue;
        }
        if at == ids.len() || ids[at] != *id {
            return false;
        }
        at += 1;
    }
    at == ids.len()
}

// The ids of these nodes.
impl<NID: NodeId, N: Node> Goal<NID> for &[(NID, N)] {
    ghost ids = { λ nodes. map (λ (x : NID × N). x.0) nodes.now };

    fn has_nobody(&self) -> bool {
        self.len() == 0
    }

    fn first_missing<S: HasId<NID>>(&self, nodes: &S) -> Option<NID> {
        self.iter().map(|node| node.0).find(|id| !nodes.has_id(id))
    }

    fn is_group(&self, group: &IdSet<NID>) -> bool {
        are_ids_of(group.as_slice(), *self)
    }
}

/// Those of a voter group who stay.
#[derive(Drop)]
pub struct Stayers<'a, NID: NodeId> {
    /// The voter group.
    pub group: &'a IdSet<NID>,
    /// Those who leave it.
    pub leavers: &'a IdSet<NID>,
}

impl<'a, NID: NodeId> Goal<NID> for Stayers<'a, NID> {
    ghost ids = { λ s. without_ids NID.eq s.group.now s.leavers.now };

    fn has_nobody(&self) -> bool {
        self.group
            .as_slice()
            .iter()
            .copied()
            .filter(|id| !self.leavers.contains(id))
            .count()
            == 0
    }

    fn first_missing<S: HasId<NID>>(&self, nodes: &S) -> Option<NID> {
        self.group
            .as_slice()
            .iter()
            .copied()
            .filter(|id| !self.leavers.contains(id))
            .find(|id| !nodes.has_id(id))
    }

    fn is_group(&self, group: &IdSet<NID>) -> bool {
        are_stayers(group.as_slice(), self.group.as_slice(), self.leavers)
    }
}
