//! The membership in force.
ghost use Rattle.std.specs.Prelude.{◌≡◌, None, [], IfOk};
ghost use Rattle.std.specs.Option.{option_copied};
ghost use Rattle.raft_membership.specs.Membership.{is_voter, voter_ids};
ghost use Rattle.raft_quorums.specs.Nodes.{node_at};
ghost use Rattle.raft_quorums.specs.Quorum.{is_quorum};
ghost use Rattle.raft_quorums.specs.QuorumLaws.{wider_quorum};
ghost use Rattle.raft_quorums.specs.RisingLaws.{joint_ids_rise};

use crate::membership::Membership;
use raft_quorums::has_id::HasId;
use raft_quorums::id_set::IdSet;
use raft_quorums::quorum_set::QuorumSet;
use raft_values::log_id::LogId;
use raft_values::node::{Node, NodeId};
use std::alloc::{AllocError, Global};
use std::fmt::{self, Display};

/// The membership in force: the last one of the log, committed or not, and the log id of its
/// entry (openraft; here the voters are read off the membership).
#[derive(Drop, PartialEq, Eq)]
pub struct EffectiveMembership<NID: NodeId, N: Node> {
    log_id: Option<LogId<NID>>,
    membership: Membership<NID, N>,
}

impl<NID: NodeId, N: Node> EffectiveMembership<NID, N> {
    /// The membership of the entry with this log id; none for one that no entry has.
    pub fn new(
        log_id: Option<LogId<NID>>,
        membership: Membership<NID, N>,
    ) -> EffectiveMembership<NID, N>
        ensures { result ≡ record { log_id = log_id; membership = membership } }
    {
        EffectiveMembership { log_id, membership }
    }

    /// No voter groups and no nodes, which no entry has. Takes no memory.
    pub fn default(alloc: Global) -> EffectiveMembership<NID, N>
        ensures { result ≡ record { log_id = None; membership = record { configs = []; nodes = [] } } }
    {
        EffectiveMembership {
            log_id: None,
            membership: Membership::default(alloc),
        }
    }

    /// The log id of the entry that has the membership.
    pub fn log_id(&self) -> &Option<LogId<NID>>
        ensures { result.now ≡ self.now.log_id }
    {
        &self.log_id
    }

    /// The membership.
    pub fn membership(&self) -> &Membership<NID, N>
        ensures { result.now ≡ self.now.membership }
    {
        &self.membership
    }

    /// The ids of all voters.
    pub fn voter_ids(&self) -> Result<IdSet<NID>, AllocError>
        ensures { IfOk result (λ ids. ids ≡ voter_ids NID.cmp self.now.membership.configs) }
    {
        self.membership.voter_ids()
    }

    /// Whether the node is in a voter group.
    pub fn is_voter(&self, node_id: &NID) -> bool
        ensures { result ≡ is_voter NID.eq self.now.membership.configs node_id.now }
    {
        self.membership.is_voter(node_id)
    }

    /// The node with the id.
    pub fn get_node(&self, node_id: &NID) -> Option<&N>
        ensures { option_copied result ≡ node_at NID.eq self.now.membership.nodes node_id.now }
    {
        self.membership.get_node(node_id)
    }

    /// The voter groups.
    pub fn get_joint_config(&self) -> &[IdSet<NID>]
        ensures { result.now ≡ self.now.membership.configs }
    {
        self.membership.get_joint_config()
    }

    /// The ids with their nodes, voters and learners, by rising id.
    pub fn nodes(&self) -> &[(NID, N)]
        ensures { result.now ≡ self.now.membership.nodes }
    {
        self.membership.nodes()
    }
}

impl<NID: NodeId, N: Node> Clone for EffectiveMembership<NID, N> {
    ghost is_clone = { λ x y. y ≡ x };

    fn clone(&self) -> Result<EffectiveMembership<NID, N>, AllocError> {
        Ok(EffectiveMembership {
            log_id: self.log_id,
            membership: self.membership.clone()?,
        })
    }
}

impl<NID: NodeId, N: Node> Display for EffectiveMembership<NID, N> {
    fn fmt<W: fmt::Write>(&self, f: &mut fmt::Formatter<W>) -> fmt::Result {
        let membership = &self.membership;
        match self.log_id {
            None => write!(f, "{{log_id:None, {membership}}}"),
            Some(log_id) => write!(f, "{{log_id:{log_id}, {membership}}}"),
        }
    }
}

impl<NID: NodeId, N: Node> QuorumSet<NID> for EffectiveMembership<NID, N> {
    ghost accepts = { λ m p. is_quorum m.membership.configs p };

    ghost members = { λ m. voter_ids NID.cmp m.membership.configs };

    fn is_quorum<S: HasId<NID>>(&self, nodes: &S) -> bool {
        self.membership.is_quorum(nodes)
    }

    fn ids(&self, _alloc: Global) -> Result<IdSet<NID>, AllocError> {
        self.voter_ids()
    }

    ghost superset = { λ m p r wider h. wider_quorum p r wider m.membership.configs h };

    ghost members_rise = { λ m. joint_ids_rise NID.total (λ group. group) m.membership.configs };
}
