//! Snapshots that the state machine builds, and those that a leader sends.
ghost use Rattle.std.specs.Prelude.{◌≡◌, ◌≤◌, ◌<◌, ◌+◌, ◌^◌, ℕ, OnOk, IfOk, Ok, true, false, Some, None};
ghost use Rattle.raft_values.specs.LogId.{next_place, stands_before};
ghost use Rattle.raft_group_step.specs.StoredGroup.{Snapshot, StoredGroup, RemoveUpTo, SetSnapshot, after_storing};
ghost use Rattle.raft_group_step.specs.GroupState.{Follower};
ghost use Rattle.raft_group_step.specs.StepResult.{StepResult, apply_up_to, is_within, store};
ghost use Rattle.raft_group_step.specs.SnapshotRequest.{cut_other, install_unless, reply_snapshot, snapshot_request_step};
ghost use Rattle.raft_known_state.specs.KnownState.{IsEntryOrPast, KeepsRest, Knows, meta_of};
ghost use Rattle.raft_engine.specs.Building.{asking, covered_id, is_building};
ghost use Rattle.raft_engine.specs.Clock.{KeepsHeard};
ghost use Rattle.raft_engine.specs.Commands.{snapshot_result};
ghost use Rattle.raft_engine.specs.Numbering.{GainsNumber, KeepsNumbers, NumbersRise};
ghost use Rattle.raft_engine.specs.Standing.{Given, IsStepOf, basis_of};
ghost use Rattle.raft_engine.specs.Ordering.{InstallRestsOn};
ghost use Rattle.raft_engine.specs.Following.{IsVoteOfAnother, SpellsSnapshotReply};

use crate::engine::Engine;
use crate::following_handler::is_committed;
use crate::orders::is_lower;
use raft_commands::{Caller, Command, RaftTypeConfig, Respond, ValueSender, sm};
use raft_group_step::SnapshotResponse;
use raft_state::{BasicNode, Bytes, LogId, SnapshotMeta, Vote, VoteStateReader};
use raft_values::log_id_option_ext::stands_before;
use std::alloc::AllocError;

/// Takes care of the node's snapshots (openraft).
#[derive(Drop)]
pub struct SnapshotHandler<'x, C: RaftTypeConfig> {
    pub(crate) engine: &'x mut Engine<C>,
}

impl<'x, C: RaftTypeConfig<NodeId = u64, Node = BasicNode, D = Bytes>> SnapshotHandler<'x, C> {
    /// The state machine is to build a snapshot of what is applied (openraft). Not where one is
    /// being built, nor where the last one has all that is applied. Says whether it is to.
    pub fn trigger_snapshot(&mut self) -> Result<bool, AllocError>
        ensures same_engine { self.new.engine.ghost_name ≡ self.old.engine.ghost_name }
        ensures leader { self.new.engine.now.leader ≡ self.old.engine.now.leader }
        ensures busy { is_building self.old.engine.now ≡ true → (result ≡ Ok false) × (self.new.engine.now ≡ self.old.engine.now) }
        ensures none_new { stands_before (covered_id self.old.engine.now) self.old.engine.now.state.state.committed ≡ false
            → (result ≡ Ok false) × (self.new.engine.now ≡ self.old.engine.now) }
        ensures asked { is_building self.old.engine.now ≡ false → stands_before (covered_id self.old.engine.now) self.old.engine.now.state.state.committed ≡ true
            → IfOk result (λ asked. (asked ≡ true) × (self.new.engine.now ≡ asking self.old.engine.now)) }
    {
        let state = &mut self.engine.state.state;
        if state.io_state.building_snapshot() {
            return Ok(false);
        }
        if !stands_before(&state.snapshot_meta.last_log_id, &state.committed) {
            return Ok(false);
        }
        let seq = self.engine.output.next_sm_seq();
        let command = sm::Command::build_snapshot().with_seq(seq);
        self.engine
            .output
            .push_command(Command::StateMachine { command })?;
        self.engine.state.state.io_state.set_building_snapshot(true);
        Ok(true)
    }

    /// A snapshot that was built or came is the node's last one from now on (openraft), if it goes
    /// past the one before. Says whether it does.
    pub fn update_snapshot(
        &mut self,
        meta: SnapshotMeta<u64, BasicNode>,
    ) -> Result<bool, AllocError>
        ensures same_engine { self.new.engine.ghost_name ≡ self.old.engine.ghost_name }
        ensures ignored { stands_before (covered_id self.old.engine.now) meta.last_log_id ≡ false → (result ≡ Ok false) × (self.new.engine.now ≡ self.old.engine.now) }
        ensures which { IfOk result (λ updated. updated ≡ stands_before (covered_id self.old.engine.now) meta.last_log_id) }
        ensures known { (s : StoredGroup) (x : Snapshot) → Knows self.old.engine.now.state s → meta ≡ meta_of (Some x)
            → IfOk result (λ updated. updated ≡ true → Knows self.new.engine.now.state (after_storing (SetSnapshot x) s)) }
        ensures rest { OnOk result (KeepsRest self.old.engine.now.state self.new.engine.now.state
            × (self.new.engine.now ≡ record self.old.engine.now { state = self.new.engine.now.state })) }
    {
        let last = &self.engine.state.state.snapshot_meta.last_log_id;
        if !stands_before(last, &meta.last_log_id) {
            return Ok(false);
        }
        self.engine.state.save_snapshot(meta)?;
        Ok(true)
    }
}

impl<C: RaftTypeConfig<NodeId = u64, Node = BasicNode, D = Bytes>> Engine<C> {
    // Where another entry stands at the snapshot's place, what isn't committed goes.
    fn cut_other(&mut self, last: LogId<u64>) -> Result<(), AllocError>
        requires { last.index + 1 < 2 ^ 64 }
        ensures leader { self.new.leader ≡ self.old.leader }
        ensures numbers { OnOk result (KeepsNumbers self.old.output self.new.output) }
        ensures step { (x : Given) (own : _) (r : StepResult) → IsStepOf x own self.old r → r.state.role ≡ Follower
            → is_within last.index r.state.committed ≡ false → OnOk result (IsStepOf x own self.new (cut_other last r)) }
    {
        if self.state.has_log_id(&last) || self.state.get_log_id(last.index).is_none() {
            return Ok(());
        }
        match self.state.state.committed {
            None => self.cut_from(0),
            Some(committed) => self.cut_from(committed.index.saturating_add(1)),
        }
    }

    // The snapshot is stored, and the log that it covers goes after it.
    fn put_snapshot(
        &mut self,
        meta: SnapshotMeta<u64, BasicNode>,
        last: LogId<u64>,
    ) -> Result<(), AllocError>
        requires { last.index + 1 < 2 ^ 64 }
        ensures leader { self.new.leader ≡ self.old.leader }
        ensures numbers { OnOk result (GainsNumber self.old.output self.new.output) }
        ensures step { (x : Given) (own : _) (r : StepResult) → IsStepOf x own self.old r → r.state.role ≡ Follower → meta ≡ meta_of (Some x.snapshot) → last ≡ x.snapshot.last
            → is_within last.index r.state.committed ≡ false → IsEntryOrPast r.state.stored last
            → OnOk result (IsStepOf x own self.new (apply_up_to (Some last.index) (store (RemoveUpTo last) (store (SetSnapshot x.snapshot) r)))) }
    {
        let copy = meta.clone()?;
        self.state.save_snapshot(meta)?;
        let seq = self.output.next_sm_seq();
        let command = sm::Command::install_full_snapshot(copy).with_seq(seq);
        self.output.push_command(Command::StateMachine { command })?;
        self.state.purge(&last)?;
        self.state.commit(Some(last))?;
        self.output.push_command(Command::PurgeLog { upto: last })
    }

    // The snapshot is installed, unless all of it is committed.
    pub(crate) fn install(&mut self, meta: SnapshotMeta<u64, BasicNode>) -> Result<(), AllocError>
        requires { next_place meta.last_log_id < 2 ^ 64 }
        ensures leader { self.new.leader ≡ self.old.leader }
        ensures numbers { OnOk result (NumbersRise self.old.output self.new.output) }
        ensures step { (x : Given) (own : _) (r : StepResult) → IsStepOf x own self.old r → r.state.role ≡ Follower → meta ≡ meta_of (Some x.snapshot)
            → OnOk result (IsStepOf x own self.new (install_unless (is_within x.snapshot.last.index r.state.committed) x.snapshot r)) }
    {
        let Some(last) = meta.last_log_id else {
            return Ok(());
        };
        if is_committed(&self.state, last.index) {
            return Ok(());
        }
        self.cut_other(last)?;
        self.put_snapshot(meta, last)
    }

    // The leader gets the node's vote for an answer.
    fn answer_snapshot(&mut self, tx: Caller<u64>) -> Result<(), AllocError>
        ensures leader { self.new.leader ≡ self.old.leader }
        ensures step { (x : Given) (own : _) (r : StepResult) (id : ℕ) → IsStepOf x own self.old r → SpellsSnapshotReply tx id x.snapshot
            → InstallRestsOn (basis_of self.old r.state) tx r.state.stored.vote
            → OnOk result (IsStepOf x own self.new (reply_snapshot own tx.peer tx.vote id x.snapshot (snapshot_result tx.vote (record { vote = r.state.stored.vote })) r)) }
    {
        let resp = SnapshotResponse::new(*self.state.state.vote_ref());
        let resp = Respond::InstallFullSnapshot(ValueSender::new(resp, tx));
        self.output
            .push_command(Command::Respond { when: None, resp })
    }

    // A leader sends its snapshot, and is answered. Its vote is committed, and of another node.
    pub(crate) fn snapshot_request(
        &mut self,
        vote: Vote<u64>,
        meta: SnapshotMeta<u64, BasicNode>,
        tx: Caller<u64>,
        now: u64,
    ) -> Result<(), AllocError>
        requires { next_place meta.last_log_id < 2 ^ 64 }
        ensures heard { OnOk result (KeepsHeard self.old.leader self.new.leader) }
        ensures step { (x : Given) (own : _) (r : StepResult) (id : ℕ) → IsStepOf x own self.old r → r.state.now ≡ now → meta ≡ meta_of (Some x.snapshot)
            → tx.vote ≡ vote → SpellsSnapshotReply tx id x.snapshot → IsVoteOfAnother own vote
            → OnOk result (IsStepOf x own self.new (snapshot_request_step own tx.peer vote id x.snapshot r)) }
    {
        let is_lower = is_lower(&vote, self.state.state.vote_ref());
        if is_lower {
            return self.answer_snapshot(tx);
        }
        self.take_over(vote, now)?;
        self.install(meta)?;
        self.answer_snapshot(tx)
    }
}
