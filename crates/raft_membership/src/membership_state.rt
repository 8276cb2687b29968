//! The two memberships that a node knows.
ghost use Rattle.std.specs.Prelude.{◌≡◌, ◌≢◌, None, [], IfOk, OnOk, OnErr, IfErr};
ghost use Rattle.raft_membership.specs.Membership.{is_voter};
ghost use Rattle.raft_values.specs.LogId.{reaches};
ghost use Rattle.raft_membership.specs.MembershipState.{changes_force, committed_upto, membership_fault, taken_over, truncated_from};

use crate::effective_membership::EffectiveMembership;
use crate::error::InProgress;
use crate::membership::Membership;
use raft_values::log_id::LogId;
use raft_values::log_id_option_ext::{is_past, reaches, stands_before};
use raft_values::node::{Node, NodeId};
use raft_values::validate::{Invalid, Validate};
use std::alloc::{AllocError, Global};
use std::fmt::{self, Display};
use std::mem;

/// The last committed membership, and the one in force (openraft; memberships are owned, so what
/// makes one the other copies it).
#[derive(Drop)]
pub struct MembershipState<NID: NodeId, N: Node> {
    committed: EffectiveMembership<NID, N>,
    effective: EffectiveMembership<NID, N>,
}

impl<NID: NodeId, N: Node> MembershipState<NID, N> {
    /// These two memberships.
    pub fn new(
        committed: EffectiveMembership<NID, N>,
        effective: EffectiveMembership<NID, N>,
    ) -> MembershipState<NID, N>
        ensures { result ≡ record { committed = committed; effective = effective } }
    {
        MembershipState {
            committed,
            effective,
        }
    }

    /// Two memberships without voter groups and nodes, which no entry has. Takes no memory.
    pub fn default(alloc: Global) -> MembershipState<NID, N>
        ensures committed { result.committed ≡ record { log_id = None; membership = record { configs = []; nodes = [] } } }
        ensures effective { result.effective ≡ record { log_id = None; membership = record { configs = []; nodes = [] } } }
    {
        MembershipState {
            committed: EffectiveMembership::default(alloc),
            effective: EffectiveMembership::default(alloc),
        }
    }

    /// The last committed membership.
    pub fn committed(&self) -> &EffectiveMembership<NID, N>
        ensures { result.now ≡ self.now.committed }
    {
        &self.committed
    }

    /// The membership in force.
    pub fn effective(&self) -> &EffectiveMembership<NID, N>
        ensures { result.now ≡ self.now.effective }
    {
        &self.effective
    }

    /// Whether the node is in a voter group of the membership in force.
    pub fn is_voter(&self, id: &NID) -> bool
        ensures { result ≡ is_voter NID.eq self.now.effective.membership.configs id.now }
    {
        self.effective.is_voter(id)
    }

    /// Whether the membership in force is committed; else `InProgress` with the log ids of both.
    pub fn ensure_committed(&self) -> Result<(), InProgress<NID>>
        ensures ok { OnOk result (self.now.committed.log_id ≡ self.now.effective.log_id) }
        ensures err { OnErr result (self.now.committed.log_id ≢ self.now.effective.log_id) }
        ensures told { IfErr result (λ e. e ≡ record { committed = self.now.committed.log_id; membership_log_id = self.now.effective.log_id }) }
    {
        let committed = *self.committed.log_id();
        let membership_log_id = *self.effective.log_id();
        if committed == membership_log_id {
            return Ok(());
        }
        Err(InProgress {
            committed,
            membership_log_id,
        })
    }

    /// The log is committed up to here: so is the membership in force, if it isn't later.
    /// Without memory both stay.
    pub fn commit(&mut self, upto: &Option<LogId<NID>>) -> Result<(), AllocError>
        ensures ok { OnOk result (self.new ≡ committed_upto NID.cmp self.old upto.now) }
        ensures err { OnErr result (self.new ≡ self.old) }
    {
        if is_past(self.effective.log_id(), upto) {
            return Ok(());
        }
        self.committed = self.effective.clone()?;
        Ok(())
    }

    /// The log has a new membership. The one before is committed by then, since a group has one
    /// at most that isn't.
    pub fn append(&mut self, membership: EffectiveMembership<NID, N>)
        ensures { self.new ≡ record { committed = self.old.effective; effective = membership } }
    {
        self.committed = mem::replace(&mut self.effective, membership);
    }

    /// The log is shortened from the index on: where the membership in force goes with it, the
    /// committed one is in force again. Says whether it is so. Without memory both stay.
    pub fn truncate(&mut self, since: u64) -> Result<bool, AllocError>
        ensures ok { OnOk result (self.new ≡ truncated_from self.old since) }
        ensures changed { IfOk result (λ changed. changed ≡ reaches self.old.effective.log_id since) }
        ensures err { OnErr result (self.new ≡ self.old) }
    {
        if !reaches(self.effective.log_id(), since) {
            return Ok(false);
        }
        self.effective = self.committed.clone()?;
        Ok(true)
    }

    /// A membership is known to be committed, as by a snapshot: it is in force unless the one in
    /// force stands at a later index, and the last committed one unless that is no earlier.
    /// Says whether other voter groups or nodes are in force now. Without memory both stay.
    pub fn update_committed(
        &mut self,
        committed: EffectiveMembership<NID, N>,
    ) -> Result<bool, AllocError>
        ensures ok { OnOk result (self.new ≡ taken_over NID.cmp self.old committed) }
        ensures changed { IfOk result (λ changed. changed ≡ changes_force ⟦<Membership<NID, N> as PartialEq>⟧.eq self.old committed) }
        ensures err { OnErr result (self.new ≡ self.old) }
    {
        let in_force = !stands_before(committed.log_id(), self.effective.log_id());
        let later = is_past(committed.log_id(), self.committed.log_id());
        let changed = in_force && *committed.membership() != *self.effective.membership();
        match (in_force, later) {
            (true, true) => {
                self.effective = committed.clone()?;
                self.committed = committed;
            }
            (true, false) => self.effective = committed,
            (false, true) => self.committed = committed,
            (false, false) => {}
        }
        Ok(changed)
    }
}

impl<NID: NodeId, N: Node> Display for MembershipState<NID, N> {
    fn fmt<W: fmt::Write>(&self, f: &mut fmt::Formatter<W>) -> fmt::Result {
        let committed = self.committed();
        let effective = self.effective();
        write!(
            f,
            "MembershipState{{committed: {committed}, effective: {effective}}}"
        )
    }
}

impl<NID: NodeId, N: Node> Clone for MembershipState<NID, N> {
    ghost is_clone = { λ x y. y ≡ x };

    fn clone(&self) -> Result<MembershipState<NID, N>, AllocError> {
        Ok(MembershipState {
            committed: self.committed.clone()?,
            effective: self.effective.clone()?,
        })
    }
}

impl<NID: NodeId, N: Node> Validate<Invalid> for MembershipState<NID, N> {
    ghost fault = { membership_fault NID.cmp };

    fn validate(&self) -> Result<(), Invalid> {
        if is_past(self.committed.log_id(), self.effective.log_id()) {
            return Err(Invalid::CommittedMembership);
        }
        Ok(())
    }
}
