//! Memberships: voter groups, and nodes.
ghost use Rattle.std.specs.Option.{option_copied};
ghost use Rattle.raft_quorums.specs.Nodes.{node_at};
ghost use Rattle.raft_membership.specs.Membership.{is_voter, voter_ids, learner_ids, filled_nodes};
ghost use Rattle.std.specs.Prelude.{◌≡◌, ◌↔◌, ◌<◌, IsTrue, IfOk, length, not, OnOk, IfErr, []};
ghost use Rattle.raft_membership.specs.Membership.{first_outside, least_outside, has_empty_group, lesser};
ghost use Rattle.raft_quorums.specs.Quorum.{is_quorum};
ghost use Rattle.raft_quorums.specs.Rising.{IsRisingByFirst};
ghost use Rattle.raft_quorums.specs.QuorumLaws.{wider_quorum};
ghost use Rattle.raft_quorums.specs.RisingLaws.{joint_ids_rise};
ghost use Rattle.raft_membership.specs.Validity.{fault_of, groups_fault, validity_fault};

use crate::error::{ChangeMembershipError, EmptyMembership, LearnerNotFound};
use crate::into_nodes::IntoNodes;
use raft_quorums::has_id::HasId;
use raft_quorums::id_set::IdSet;
use raft_quorums::joint::all_accept;
use raft_quorums::node_map::NodeMap;
use raft_quorums::quorum_set::QuorumSet;
use raft_quorums::voter_groups::VoterGroups;
use raft_values::node::{Node, NodeId};
use std::alloc::{AllocError, Global};
use std::cmp::Ordering;
use std::fmt::{self, Display};

/// The voter groups, and the nodes by their ids (openraft).
/// A node in no voter group is a learner; more than one voter group is a joint config.
#[derive(Debug, Drop, PartialEq, Eq)]
pub struct Membership<NID: NodeId, N: Node> {
    pub(crate) configs: VoterGroups<NID>,
    pub(crate) nodes: NodeMap<NID, N>,
}

// The lesser of two ids that may be none.
pub(crate) fn lesser<NID: NodeId>(a: Option<NID>, b: Option<NID>) -> Option<NID>
    ensures { result ≡ lesser NID.cmp a b }
{
    match (a, b) {
        (None, other) => other,
        (Some(x), None) => Some(x),
        (Some(x), Some(y)) => match x.cmp(&y) {
            Ordering::Greater => Some(y),
            _ => Some(x),
        },
    }
}

// The first id of the group that is no node.
pub(crate) fn first_missing<NID: NodeId, S: HasId<NID>>(
    group: &IdSet<NID>,
    nodes: &S,
) -> Option<NID>
    ensures { result ≡ first_outside (S.has nodes.now) group.now }
{
    group
        .as_slice()
        .iter()
        .copied()
        .find(|id| !nodes.has_id(id))
}

// The least voter that is no node.
#[tactic(auto, using(crate::proofs::MembershipLemmas::one_group_more))]
fn missing_voter<NID: NodeId, S: HasId<NID>>(groups: &[IdSet<NID>], nodes: &S) -> Option<NID>
    ensures { result ≡ least_outside NID.cmp (S.has nodes.now) groups.now }
{
    let mut least = None;
    for group in groups {
        least = lesser(least, first_missing(group, nodes));
    }
    least
}

// An empty voter group comes first, then a voter that is no node.
pub(crate) fn fault_of<NID: NodeId>(
    empty: bool,
    missing: Option<NID>,
) -> Option<ChangeMembershipError<NID>>
    ensures { result ≡ fault_of empty missing }
{
    if empty {
        return Some(ChangeMembershipError::EmptyMembership(EmptyMembership {}));
    }
    match missing {
        None => None,
        Some(node_id) => Some(ChangeMembershipError::LearnerNotFound(LearnerNotFound { node_id })),
    }
}

// Whether the id is in a voter group.
pub(crate) fn is_voter<NID: NodeId>(groups: &VoterGroups<NID>, id: &NID) -> bool
    ensures { result ≡ is_voter NID.eq groups.now id.now }
{
    groups.as_slice().iter().any(|group| group.contains(id))
}

// The ids that are in no voter group.
#[derive(Drop)]
struct Learners<'a, NID: NodeId> {
    configs: &'a VoterGroups<NID>,
}

impl<'a, NID: NodeId> HasId<NID> for Learners<'a, NID> {
    ghost has = { λ s id. not (is_voter NID.eq s.configs.now id) };

    fn has_id(&self, id: &NID) -> bool {
        !is_voter(self.configs, id)
    }
}

impl<NID: NodeId, N: Node> Membership<NID, N> {
    /// The membership with just these voter groups and nodes (own).
    pub fn from_parts(configs: VoterGroups<NID>, nodes: NodeMap<NID, N>) -> Membership<NID, N>
        ensures { result ≡ record { configs = configs; nodes = nodes } }
    {
        Membership { configs, nodes }
    }

    /// No voter groups and no nodes. Takes no memory.
    pub fn default(alloc: Global) -> Membership<NID, N>
        ensures { result ≡ record { configs = []; nodes = [] } }
    {
        Membership {
            configs: VoterGroups::new(alloc),
            nodes: NodeMap::new(alloc),
        }
    }

    /// The voter groups.
    pub fn get_joint_config(&self) -> &[IdSet<NID>]
        ensures { result.now ≡ self.now.configs }
    {
        self.configs.as_slice()
    }

    /// The ids with their nodes, voters and learners, by rising id.
    pub fn nodes(&self) -> &[(NID, N)]
        ensures nodes { result.now ≡ self.now.nodes }
        ensures rising { IsRisingByFirst NID.cmp self.now.nodes }
    {
        self.nodes.as_slice()
    }

    /// The membership with these voter groups and nodes (openraft). A voter that isn't among the
    /// nodes comes in as a node of which nothing is known.
    pub fn new<T: IntoNodes<NID, N>>(
        alloc: Global,
        configs: Vec<IdSet<NID>>,
        nodes: T,
    ) -> Result<Membership<NID, N>, AllocError>
        ensures { IfOk result (λ m. m ≡ record { configs = configs.items; nodes = filled_nodes NID.eq NID.cmp N.default_node configs.items (T.nodes nodes) }) }
    {
        let configs = VoterGroups::from(configs);
        let voters = configs.ids()?;
        let defaults: NodeMap<NID, N> = voters.into_nodes(alloc)?;
        let nodes = nodes
            .into_nodes(alloc)?
            .with_new_nodes(defaults.as_slice())?;
        Ok(Membership::from_parts(configs, nodes))
    }

    /// Whether there is more than one voter group.
    pub fn is_in_joint_consensus(&self) -> bool
        ensures { IsTrue result ↔ (1 < length self.now.configs) }
    {
        self.configs.len() > 1
    }

    /// The ids of all voters.
    pub fn voter_ids(&self) -> Result<IdSet<NID>, AllocError>
        ensures { IfOk result (λ ids. ids ≡ voter_ids NID.cmp self.now.configs) }
    {
        self.configs.ids()
    }

    /// The ids of the nodes that are no voters.
    pub fn learner_ids(&self) -> Result<IdSet<NID>, AllocError>
        ensures { IfOk result (λ ids. ids ≡ learner_ids NID.eq self.now.configs self.now.nodes) }
    {
        self.nodes.ids()?.filtered(&Learners {
            configs: &self.configs,
        })
    }

    /// Whether the node is in a voter group.
    pub fn is_voter(&self, node_id: &NID) -> bool
        ensures { result ≡ is_voter NID.eq self.now.configs node_id.now }
    {
        is_voter(&self.configs, node_id)
    }

    /// The node with the id.
    pub fn get_node(&self, node_id: &NID) -> Option<&N>
        ensures { option_copied result ≡ node_at NID.eq self.now.nodes node_id.now }
    {
        self.nodes.get(node_id)
    }

    // Why the voter groups aren't valid where the nodes are these.
    pub(crate) fn fault_with<S: HasId<NID>>(&self, nodes: &S) -> Option<ChangeMembershipError<NID>>
        ensures { result ≡ groups_fault NID.cmp (S.has nodes.now) self.now.configs }
    {
        let missing = missing_voter(self.configs.as_slice(), nodes);
        fault_of(self.has_empty_group(), missing)
    }

    // Whether a voter group has nobody.
    fn has_empty_group(&self) -> bool
        ensures { result ≡ has_empty_group self.now.configs }
    {
        self.configs.as_slice().iter().any(|group| group.len() == 0)
    }

    /// Whether no voter group is empty and each voter is a node; else the first fault:
    /// `EmptyMembership`, then `LearnerNotFound` with the least voter that is no node.
    pub fn ensure_valid(&self) -> Result<(), ChangeMembershipError<NID>>
        ensures ok { OnOk result (validity_fault NID.eq NID.cmp self.now.configs self.now.nodes ≡ None) }
        ensures err { IfErr result (λ e. validity_fault NID.eq NID.cmp self.now.configs self.now.nodes ≡ Some e) }
    {
        match self.fault_with(&self.nodes) {
            None => Ok(()),
            Some(fault) => Err(fault),
        }
    }
}

impl<NID: NodeId, N: Node> Clone for Membership<NID, N> {
    ghost is_clone = { λ x y. y ≡ x };

    fn clone(&self) -> Result<Membership<NID, N>, AllocError> {
        Ok(Membership {
            configs: self.configs.clone()?,
            nodes: self.nodes.clone()?,
        })
    }
}

// A quorum has more than half of each voter group.
impl<NID: NodeId, N: Node> QuorumSet<NID> for Membership<NID, N> {
    ghost accepts = { λ m p. is_quorum m.configs p };

    ghost members = { λ m. voter_ids NID.cmp m.configs };

    fn is_quorum<S: HasId<NID>>(&self, nodes: &S) -> bool {
        all_accept(self.configs.as_slice(), nodes)
    }

    fn ids(&self, _alloc: Global) -> Result<IdSet<NID>, AllocError> {
        self.voter_ids()
    }

    ghost superset = { λ m p r wider h. wider_quorum p r wider m.configs h };

    ghost members_rise = { λ m. joint_ids_rise NID.total (λ group. group) m.configs };
}

impl<NID: NodeId, N: Node> Display for Membership<NID, N> {
    fn fmt<W: fmt::Write>(&self, f: &mut fmt::Formatter<W>) -> fmt::Result {
        let configs = self.configs.as_slice();
        let nodes = self.nodes();
        write!(f, "{{voters:{configs:?}, nodes:{nodes:?}}}")
    }
}
