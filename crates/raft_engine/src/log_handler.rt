//! The log is purged, no further than the snapshot goes.
ghost use Rattle.std.specs.Prelude.{◌≡◌, ◌<◌, ◌≤◌, ◌^◌, ℕ, OnOk, min, nat_lt, if◌then◌else◌, Some};
ghost use Rattle.raft_values.specs.LogId.{next_place, place_of};
ghost use Rattle.raft_group_step.specs.StoredGroup.{end_place, first_place, snapshot_last};
ghost use Rattle.raft_group_step.specs.GroupState.{Lead, Leader as Leading};
ghost use Rattle.raft_group_step.specs.StepResult.{StepResult, is_within, later_place};
ghost use Rattle.raft_group_step.specs.Lead.{purge_as_wished, purge_up_to, with_wish};
ghost use Rattle.raft_group_step.specs.AppendRequest.{lesser_place};
ghost use Rattle.raft_group_step.specs.PurgeTrigger.{purge_trigger_step};
ghost use Rattle.raft_engine.specs.Clock.{KeepsHeard};
ghost use Rattle.raft_engine.specs.Standing.{Given, IsStepOf};
ghost use Rattle.raft_engine.specs.Building.{covered_id};

use crate::engine::Engine;
use crate::leader_handler::count_if;
use raft_commands::{Command, RaftTypeConfig};
use raft_state::{BasicNode, Bytes, LogId};
use std::alloc::AllocError;

// Whether the log id stands at the place or above it.
fn reaches(log_id: &Option<LogId<u64>>, place: u64) -> bool
    ensures { result ≡ is_within place (place_of log_id.now) }
{
    match log_id {
        None => false,
        Some(log_id) => place <= log_id.index,
    }
}

/// Purges the log (openraft).
#[derive(Drop)]
pub struct LogHandler<'x, C: RaftTypeConfig> {
    pub(crate) engine: &'x mut Engine<C>,
}

impl<'x, C: RaftTypeConfig<NodeId = u64, Node = BasicNode, D = Bytes>> LogHandler<'x, C> {
    /// The last place that goes where the log is to be purged up to this one (openraft): the
    /// snapshot's last place, if that is lower. None where there is no snapshot.
    pub fn calc_purge_upto(&self, place: u64) -> Option<u64>
        ensures { result ≡ lesser_place (Some place) (place_of (covered_id self.now.engine.now)) }
    {
        match self.engine.state.state.snapshot_meta.last_log_id {
            None => None,
            Some(last) => Some(place.min(last.index)),
        }
    }

    /// The log is to be purged up to the place (openraft), and goes no further than the snapshot: a
    /// leader purges once no request needs what goes, and any other node at once.
    pub fn update_purge_upto(&mut self, place: u64) -> Result<(), AllocError>
        ensures same_engine { self.new.engine.ghost_name ≡ self.old.engine.ghost_name }
        ensures heard { OnOk result (KeepsHeard self.old.engine.now.leader self.new.engine.now.leader) }
        ensures within { (x : Given) (own : _) (r : StepResult) → IsStepOf x own self.old.engine.now r → end_place r.state.stored < 2 ^ 64
            → OnOk result (self.new.engine.now.state.state.purged_next ≤ next_place (covered_id self.new.engine.now)) }
        ensures step { (x : Given) (own : _) (r : StepResult) → IsStepOf x own self.old.engine.now r → end_place r.state.stored < 2 ^ 64
            → OnOk result (IsStepOf x own self.new.engine.now (purge_trigger_step place r)) }
    {
        self.engine.purge_trigger(place)
    }

    /// What a leader is still to purge goes (openraft), once no request needs it, and no further
    /// than the snapshot.
    pub fn purge_log(&mut self) -> Result<(), AllocError>
        ensures same_engine { self.new.engine.ghost_name ≡ self.old.engine.ghost_name }
        ensures within { (x : Given) (own : _) (r : StepResult) → IsStepOf x own self.old.engine.now r → end_place r.state.stored < 2 ^ 64
            → ((place : ℕ) → r.state.wish ≡ Some place → place < next_place (snapshot_last r.state.stored))
            → OnOk result (self.new.engine.now.state.state.purged_next ≤ next_place (covered_id self.new.engine.now)) }
        ensures step { (x : Given) (own : _) (r : StepResult) → IsStepOf x own self.old.engine.now r → end_place r.state.stored < 2 ^ 64
            → ((place : ℕ) → r.state.wish ≡ Some place → place < next_place (snapshot_last r.state.stored))
            → OnOk result (IsStepOf x own self.new.engine.now (purge_as_wished r.state.role r.state.wish r)) }
    {
        self.engine.purge_as_wished()
    }
}

impl<C: RaftTypeConfig<NodeId = u64, Node = BasicNode, D = Bytes>> Engine<C> {
    // The log is removed up to its entry at the place, if it has one there. The membership in force
    // may change by it: where the log has none left, the snapshot's is in force, whatever it is.
    pub(crate) fn purge_up_to(&mut self, place: u64) -> Result<(), AllocError>
        ensures heard { OnOk result (KeepsHeard self.old.leader self.new.leader) }
        ensures step { (x : Given) (own : _) (r : StepResult) → IsStepOf x own self.old r → end_place r.state.stored < 2 ^ 64
            → place < next_place (snapshot_last r.state.stored) → OnOk result (IsStepOf x own self.new (purge_up_to place r)) }
    {
        if !self.state.has_entry_at(place) {
            return Ok(());
        }
        let Some(upto) = self.state.get_log_id(place) else {
            return Ok(());
        };
        if upto.index == u64::MAX {
            return Ok(());
        }
        let before = self.state.memberships.len();
        self.state.purge(&upto)?;
        let is_changed = self.state.memberships.len() != before;
        let membership = self.state.effective_membership();
        count_if(self.alloc, is_changed, &mut self.leader, membership)?;
        self.output.push_command(Command::PurgeLog { upto })
    }

    // A leader is to purge up to the place, once no request needs what goes.
    fn wish_to_purge(&mut self, place: u64)
        ensures leader { self.new.leader ≡ self.old.leader }
        ensures step { (x : Given) (own : _) (r : StepResult) → IsStepOf x own self.old r → place < next_place (snapshot_last r.state.stored)
            → IsStepOf x own self.new (if nat_lt place (first_place r.state.stored) then r else with_wish (later_place r.state.wish (Some place)) r) }
    {
        if place < self.state.first_place() {
            return;
        }
        if reaches(&self.state.wish, place) {
            return;
        }
        let wish = self.state.get_log_id(place);
        self.state.set_wish(wish);
    }

    // The log is to be purged up to the place, as far as the snapshot goes: a leader does so once
    // no request needs what goes.
    pub(crate) fn purge_trigger(&mut self, place: u64) -> Result<(), AllocError>
        ensures heard { OnOk result (KeepsHeard self.old.leader self.new.leader) }
        ensures step { (x : Given) (own : _) (r : StepResult) → IsStepOf x own self.old r → end_place r.state.stored < 2 ^ 64
            → OnOk result (IsStepOf x own self.new (purge_trigger_step place r)) }
    {
        let Some(last) = self.state.state.snapshot_meta.last_log_id else {
            return Ok(());
        };
        let place = place.min(last.index);
        if self.leader.is_none() {
            return self.purge_up_to(place);
        }
        self.wish_to_purge(place);
        Ok(())
    }

    // What a leader is still to purge goes, once no request needs it.
    pub(crate) fn purge_as_wished(&mut self) -> Result<(), AllocError>
        ensures heard { OnOk result (KeepsHeard self.old.leader self.new.leader) }
        ensures step { (x : Given) (own : _) (r : StepResult) → IsStepOf x own self.old r → end_place r.state.stored < 2 ^ 64
            → ((place : ℕ) → r.state.wish ≡ Some place → place < next_place (snapshot_last r.state.stored))
            → OnOk result (IsStepOf x own self.new (purge_as_wished r.state.role r.state.wish r)) }
    {
        let Some(wish) = self.state.wish else {
            return Ok(());
        };
        if self.leader.is_none() {
            return Ok(());
        }
        if self.is_kept(wish.index) {
            return Ok(());
        }
        self.state.set_wish(None);
        self.purge_up_to(wish.index)
    }
}
