//! Memberships as a log keeps them.
ghost use Rattle.std.specs.Prelude.{◌≡◌, None, [], IfOk};
ghost use Rattle.raft_membership.specs.Membership.{voter_ids};

use crate::membership::Membership;
use raft_quorums::id_set::IdSet;
use raft_values::log_id::LogId;
use raft_values::node::{Node, NodeId};
use std::alloc::{AllocError, Global};
use std::fmt::{self, Display};

/// A membership, and the log id of the entry that has it (openraft).
#[derive(Drop, PartialEq, Eq)]
pub struct StoredMembership<NID: NodeId, N: Node> {
    log_id: Option<LogId<NID>>,
    membership: Membership<NID, N>,
}

impl<NID: NodeId, N: Node> StoredMembership<NID, N> {
    /// The membership of the entry with this log id; none for one that no entry has.
    pub fn new(
        log_id: Option<LogId<NID>>,
        membership: Membership<NID, N>,
    ) -> StoredMembership<NID, N>
        ensures { result ≡ record { log_id = log_id; membership = membership } }
    {
        StoredMembership { log_id, membership }
    }

    /// No voter groups and no nodes, which no entry has. Takes no memory.
    pub fn default(alloc: Global) -> StoredMembership<NID, N>
        ensures { result ≡ record { log_id = None; membership = record { configs = []; nodes = [] } } }
    {
        StoredMembership {
            log_id: None,
            membership: Membership::default(alloc),
        }
    }

    /// The log id of the entry that has the membership.
    pub fn log_id(&self) -> &Option<LogId<NID>>
        ensures { result.now ≡ self.now.log_id }
    {
        &self.log_id
    }

    /// The membership.
    pub fn membership(&self) -> &Membership<NID, N>
        ensures { result.now ≡ self.now.membership }
    {
        &self.membership
    }

    /// The ids of all voters.
    pub fn voter_ids(&self) -> Result<IdSet<NID>, AllocError>
        ensures { IfOk result (λ ids. ids ≡ voter_ids NID.cmp self.now.membership.configs) }
    {
        self.membership.voter_ids()
    }

    /// The ids with their nodes, voters and learners, by rising id.
    pub fn nodes(&self) -> &[(NID, N)]
        ensures { result.now ≡ self.now.membership.nodes }
    {
        self.membership.nodes()
    }
}

impl<NID: NodeId, N: Node> Clone for StoredMembership<NID, N> {
    ghost is_clone = { λ x y. y ≡ x };

    fn clone(&self) -> Result<StoredMembership<NID, N>, AllocError> {
        Ok(StoredMembership {
            log_id: self.log_id,
            membership: self.membership.clone()?,
        })
    }
}

impl<NID: NodeId, N: Node> Display for StoredMembership<NID, N> {
    fn fmt<W: fmt::Write>(&self, f: &mut fmt::Formatter<W>) -> fmt::Result {
        let membership = &self.membership;
        match self.log_id {
            None => write!(f, "{{log_id:None, {membership}}}"),
            Some(log_id) => write!(f, "{{log_id:{log_id}, {membership}}}"),
        }
    }
}
