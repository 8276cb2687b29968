//! The snapshot of what a machine has run.
ghost use Rattle.std.specs.Prelude.{◌≡◌, ℕ, IfOk, Some};
ghost use Rattle.raft_group_step.specs.StoredGroup.{StoredGroup as Stored};
ghost use Rattle.raft_group_step.specs.GroupState.{GroupState};
ghost use Rattle.raft_known_state.specs.KnownState.{Knows, committed_membership, effective_of};
ghost use Rattle.raft_messages.specs.Memberships.{logged_or_none};
ghost use Rattle.raft_member.specs.Member.{IsBuilt, IsIdle};
ghost use Rattle.raft_applier.specs.Applied.{IsCaughtUp};
ghost use Rattle.raft_applier.specs.Building.{HasItsMembership, IsEffective};
ghost use Rattle.raft_applier.specs.Following.{AreOfMachine};

use crate::applier::Applier;
use raft_group_step::SnapshotMeta;
use raft_group_storage::GroupStorage;
use raft_machines::StateMachine;
use raft_member::Member;
use raft_messages::{LoggedPair, SnapshotBytes, copy_of_pair};
use raft_state::{BasicNode, EffectiveMembership};
use raft_values::log_id_option_ext::stands_before;
use std::alloc::{AllocError, Global};

// The membership, lent with the log id of its entry, if an entry has it.
fn pair_of(effective: &EffectiveMembership<u64, BasicNode>) -> Option<LoggedPair<'_>>
    ensures { IsEffective effective.now (logged_or_none result) }
{
    match effective.log_id() {
        Some(log_id) => Some((*log_id, effective.membership())),
        None => None,
    }
}

impl<M: StateMachine> Applier<M> {
    /// The snapshot of what is applied, as the storage keeps it (own): to be handed to the member as
    /// it is called for a snapshot. None where the last snapshot has all that is applied. It fails for
    /// want of memory alone.
    pub fn build_snapshot<S: GroupStorage<Snapshot = SnapshotBytes>>(
        &self,
        member: &Member,
    ) -> Result<Option<SnapshotBytes>, AllocError>
        ensures { (e : _) (s : GroupState) → AreOfMachine M.rules S.stands → member.now.engine ≡ Some e → IsIdle member.now.id e s → HasItsMembership s
            → IsCaughtUp M.rules (M.state self.now.machine) self.now.applied s → IfOk result (λ built. IsBuilt S.stands built s) }
    {
        let Some(engine) = member.engine() else {
            return Ok(None);
        };
        let known = &engine.state;
        let covered = known.state.snapshot_meta.last_log_id;
        let Some(last) = known.state.committed else {
            return Ok(None);
        };
        if !stands_before(&covered, &Some(last)) {
            return Ok(None);
        }
        let last_membership = copy_of_pair(pair_of(known.committed_membership()))?;
        let bytes = self.machine.snapshot()?;
        let meta = SnapshotMeta {
            last_log_id: last,
            last_membership,
        };
        Ok(Some(SnapshotBytes { meta, bytes }))
    }
}
