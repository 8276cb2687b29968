//! Snapshots that the node builds.
ghost use Rattle.std.specs.Prelude.{◌≡◌, ◌∷◌, [], ℕ, OnOk, IfOk, Ok, Err, true, false, Some, None};
ghost use Rattle.std.specs.Result.{is_ok};
ghost use Rattle.raft_values.specs.LogId.{stands_before};
ghost use Rattle.raft_group_step.specs.StoredGroup.{Snapshot};
ghost use Rattle.raft_group_step.specs.GroupState.{GroupState};
ghost use Rattle.raft_group_step.specs.GroupEvent.{Call};
ghost use Rattle.raft_group_step.specs.declared.group_call.GroupCall.TheVariants.{TriggerSnapshot};
ghost use Rattle.raft_group_step.specs.Refusal.{refusal_of};
ghost use Rattle.raft_known_state.specs.KnownState.{meta_of};
ghost use Rattle.raft_engine.specs.Building.{IsSnapshotOfApplied, asking, covered_id, is_building, with_building};
ghost use Rattle.raft_engine.specs.declared.error.CallError.TheVariants.{NotBuilding as IsNotBuilding};
ghost use Rattle.raft_engine.specs.Clock.{KeepsHeard};
ghost use Rattle.raft_engine.specs.Events.{HasTaken, IsReady, MayTake};
ghost use Rattle.raft_engine.specs.Standing.{IsStateOf};

use crate::engine::Engine;
use crate::error::CallError;
use crate::leader_handler::count_if;
use raft_commands::RaftTypeConfig;
use raft_state::{BasicNode, Bytes, SnapshotMeta};
use std::alloc::AllocError;

impl<C: RaftTypeConfig<NodeId = u64, Node = BasicNode, D = Bytes>> Engine<C> {
    /// The state machine is to build a snapshot of what is applied, and that is answered (openraft).
    /// Not where one is being built, nor where the last one has all that is applied: then the event
    /// is over.
    pub fn trigger_snapshot(&mut self) -> Result<bool, AllocError>
        ensures heard { OnOk result (KeepsHeard self.old.leader self.new.leader) }
        ensures busy { is_building self.old ≡ true → (result ≡ Ok false) × (self.new ≡ self.old) }
        ensures none_new { (x : Snapshot) (own at : ℕ) (s : GroupState) → MayTake own self.old s (Call TriggerSnapshot at) → is_building self.old ≡ false
            → stands_before (covered_id self.old) self.old.state.state.committed ≡ false
            → IfOk result (λ asked. (asked ≡ false) × HasTaken x own self.old self.new s (Call TriggerSnapshot at)) }
        ensures asked { is_building self.old ≡ false → stands_before (covered_id self.old) self.old.state.state.committed ≡ true
            → IfOk result (λ asked. (asked ≡ true) × (self.new ≡ asking self.old)) }
    {
        let before = self.state.state.committed;
        let is_building = self.state.state.io_state.building_snapshot();
        let is_asked = self.snapshot_handler().trigger_snapshot()?;
        if !is_building && !is_asked {
            self.finish(before)?;
        }
        Ok(is_asked)
    }

    /// The snapshot that was asked for is built, and is the node's last one from now on (openraft).
    /// One that doesn't go past the last one is ignored. One that nobody asked for is refused, and
    /// the engine stays as it is (own): no command that is queued stores it.
    pub fn finish_building_snapshot(
        &mut self,
        meta: SnapshotMeta<u64, BasicNode>,
    ) -> Result<Result<(), CallError>, AllocError>
        ensures heard { OnOk result (KeepsHeard self.old.leader self.new.leader) }
        ensures which { IfOk result (λ answer. is_ok answer ≡ is_building self.old) }
        ensures unasked { is_building self.old ≡ false → (result ≡ Ok (Err IsNotBuilding)) × (self.new ≡ self.old) }
        ensures built { (own at : ℕ) (before : _) (s : GroupState) (x : Snapshot) → self.old ≡ asking before → before.output.queue ≡ [] → IsStateOf own self.old s → IsReady own s
            → refusal_of own s (Call TriggerSnapshot at) ≡ None → meta ≡ meta_of (Some x) → IsSnapshotOfApplied s x
            → OnOk result (HasTaken x own before self.new s (Call TriggerSnapshot at)) }
        ensures ignored { is_building self.old ≡ true → stands_before (covered_id self.old) meta.last_log_id ≡ false
            → (result ≡ Ok (Ok tt)) × (self.new ≡ with_building false self.old) }
    {
        if !self.state.state.io_state.building_snapshot() {
            return Ok(Err(CallError::NotBuilding));
        }
        self.state.state.io_state.set_building_snapshot(false);
        let is_changed = self.state.memberships.len() == 0;
        let before = self.state.state.committed;
        let is_updated = self.snapshot_handler().update_snapshot(meta)?;
        if !is_updated {
            return Ok(Ok(()));
        }
        let membership = self.state.effective_membership();
        count_if(self.alloc, is_changed, &mut self.leader, membership)?;
        self.finish(before)?;
        Ok(Ok(()))
    }
}
