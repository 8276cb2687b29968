//! Votes: which one is in force, and whether it is granted to another node.
ghost use Rattle.std.specs.Prelude.{◌≡◌, OnOk, IfOk, Ok, None, true, false, if◌then◌else◌};
ghost use Rattle.raft_group_step.specs.Values.{vote_lt};
ghost use Rattle.raft_group_step.specs.GroupState.{GroupState, Follower};
ghost use Rattle.raft_group_step.specs.StepResult.{StepResult, step_down, store_vote, take_over};
ghost use Rattle.raft_group_step.specs.VoteReply.{take_over_greater};
ghost use Rattle.raft_group_step.specs.VoteRequest.{is_under_lease, may_grant, reply_vote, vote_request_step};
ghost use Rattle.raft_engine.specs.Clock.{KeepsHeard};
ghost use Rattle.raft_engine.specs.Standing.{Given, IsStateOf, IsStepOf};

use crate::engine::Engine;
use crate::orders::{is_behind, is_lower};
use raft_commands::{Caller, Command, RaftTypeConfig, Respond, ValueSender};
use raft_group_step::{VoteRequest, VoteResponse};
use raft_state::{BasicNode, Bytes, Vote};
use std::alloc::AllocError;

/// Decides of the votes that come with messages (openraft).
#[derive(Drop)]
pub struct VoteHandler<'x, C: RaftTypeConfig> {
    pub(crate) engine: &'x mut Engine<C>,
}

impl<'x, C: RaftTypeConfig<NodeId = u64, Node = BasicNode, D = Bytes>> VoteHandler<'x, C> {
    /// A message comes with this vote at this moment, in ticks (openraft): a greater one is taken
    /// over and stored, the one in force is renewed, and a lesser one is refused. Says whether it
    /// is in force from now on.
    pub fn update_vote(&mut self, vote: Vote<u64>, now: u64) -> Result<bool, AllocError>
        ensures same_engine { self.new.engine.ghost_name ≡ self.old.engine.ghost_name }
        ensures lesser { vote_lt vote self.old.engine.now.state.state.vote.value ≡ true → (result ≡ Ok false) × (self.new.engine.now ≡ self.old.engine.now) }
        ensures equal { vote ≡ self.old.engine.now.state.state.vote.value → (result ≡ Ok true) × (self.new.engine.now.output ≡ self.old.engine.now.output) }
        ensures step { (x : Given) (own : _) (r : StepResult) → IsStepOf x own self.old.engine.now r → r.state.now ≡ now → vote_lt vote r.state.stored.vote ≡ false
            → IfOk result (λ is_in_force. (is_in_force ≡ true) × IsStepOf x own self.new.engine.now (take_over vote r)) }
    {
        if is_lower(&vote, self.engine.state.state.vote_ref()) {
            return Ok(false);
        }
        self.engine.take_over(vote, now)?;
        Ok(true)
    }

    /// A message answers with this vote at this moment, in ticks (own): a greater one is taken over
    /// and stored, and any other one changes nothing.
    pub fn update_greater_vote(&mut self, vote: Vote<u64>, now: u64) -> Result<(), AllocError>
        ensures same_engine { self.new.engine.ghost_name ≡ self.old.engine.ghost_name }
        ensures heard { OnOk result (KeepsHeard self.old.engine.now.leader self.new.engine.now.leader) }
        ensures step { (x : Given) (own : _) (r : StepResult) → IsStepOf x own self.old.engine.now r → r.state.now ≡ now
            → OnOk result (IsStepOf x own self.new.engine.now (take_over_greater vote r)) }
    {
        self.engine.take_over_greater(vote, now)
    }

    /// The node neither stands nor leads any more (openraft), and a lead that ends is told of.
    pub fn become_following(&mut self) -> Result<(), AllocError>
        ensures same_engine { self.new.engine.ghost_name ≡ self.old.engine.ghost_name }
        ensures step { (x : Given) (own : _) (r : StepResult) → IsStepOf x own self.old.engine.now r → OnOk result (IsStepOf x own self.new.engine.now (step_down r)) }
    {
        self.engine.step_down()
    }
}

impl<C: RaftTypeConfig<NodeId = u64, Node = BasicNode, D = Bytes>> Engine<C> {
    // The node neither stands nor leads any more. The runtime is told of a lead that ends.
    pub(crate) fn step_down(&mut self) -> Result<(), AllocError>
        ensures ends { OnOk result (self.new.leader ≡ None) }
        ensures heard { OnOk result (KeepsHeard self.old.leader self.new.leader) }
        ensures step { (x : Given) (own : _) (r : StepResult) → IsStepOf x own self.old r → OnOk result (IsStepOf x own self.new (step_down r)) }
    {
        self.state.set_wish(None);
        if self.leader.is_some() {
            self.output.push_command(Command::QuitLeader)?;
        }
        self.leader = None;
        self.candidate = None;
        Ok(())
    }

    // The vote is stored, and heard of at this moment.
    pub(crate) fn store_vote(&mut self, vote: Vote<u64>, now: u64) -> Result<(), AllocError>
        ensures leader { self.new.leader ≡ self.old.leader }
        ensures step { (x : Given) (own : _) (r : StepResult) → IsStepOf x own self.old r → r.state.role ≡ Follower → r.state.now ≡ now
            → OnOk result (IsStepOf x own self.new (store_vote vote r)) }
    {
        self.state.save_vote(now, vote);
        self.output.push_command(Command::SaveVote { vote })
    }

    // A vote that isn't below the own one is in force from now on; a greater one is stored.
    pub(crate) fn take_over(&mut self, vote: Vote<u64>, now: u64) -> Result<(), AllocError>
        ensures level { vote_lt self.old.state.state.vote.value vote ≡ false → (result ≡ Ok tt) × (self.new.output ≡ self.old.output) }
        ensures heard { OnOk result (KeepsHeard self.old.leader self.new.leader) }
        ensures step { (x : Given) (own : _) (r : StepResult) → IsStepOf x own self.old r → r.state.now ≡ now
            → OnOk result (IsStepOf x own self.new (take_over vote r)) }
    {
        if is_lower(self.state.state.vote_ref(), &vote) {
            self.step_down()?;
            return self.store_vote(vote, now);
        }
        self.state.state.vote.touch(now);
        Ok(())
    }

    // A greater vote is taken over, and nothing else changes anything.
    pub(crate) fn take_over_greater(&mut self, vote: Vote<u64>, now: u64) -> Result<(), AllocError>
        ensures heard { OnOk result (KeepsHeard self.old.leader self.new.leader) }
        ensures step { (x : Given) (own : _) (r : StepResult) → IsStepOf x own self.old r → r.state.now ≡ now
            → OnOk result (IsStepOf x own self.new (take_over_greater vote r)) }
    {
        if is_lower(self.state.state.vote_ref(), &vote) {
            self.step_down()?;
            return self.store_vote(vote, now);
        }
        Ok(())
    }

    // Whether a leader was heard of not long ago.
    fn is_under_lease(&self, now: u64) -> bool
        ensures { (own : _) (s : GroupState) → IsStateOf own self.now s → s.now ≡ now → result ≡ is_under_lease s }
    {
        let lease = self.config.timer_config.leader_lease;
        match self.state.state.vote_last_modified() {
            Some(renewed) if self.state.state.vote_ref().is_committed() => {
                now <= renewed.saturating_add(lease)
            }
            _ => false,
        }
    }

    // Whether the node may grant the vote: the lease has passed, and neither the candidate's log
    // nor its vote is behind the own one.
    fn may_grant(&self, req: &VoteRequest<u64>, now: u64) -> bool
        ensures { (own : _) (s : GroupState) → IsStateOf own self.now s → s.now ≡ now → result ≡ may_grant s req.now.vote req.now.last_log_id }
    {
        let last = self.state.last_log_id();
        let is_refused = self.is_under_lease(now)
            || is_behind(&req.last_log_id, &last)
            || is_lower(&req.vote, self.state.state.vote_ref());
        !is_refused
    }

    // The vote is taken over, if it is granted.
    fn take_over_if(&mut self, granted: bool, vote: Vote<u64>, now: u64) -> Result<(), AllocError>
        ensures heard { OnOk result (KeepsHeard self.old.leader self.new.leader) }
        ensures step { (x : Given) (own : _) (r : StepResult) → IsStepOf x own self.old r → r.state.now ≡ now
            → OnOk result (IsStepOf x own self.new (if granted then take_over vote r else r)) }
    {
        if granted {
            return self.take_over(vote, now);
        }
        Ok(())
    }

    // The candidate is answered by the vote in force and the last log id.
    fn answer_vote(&mut self, tx: Caller<u64>, granted: bool) -> Result<(), AllocError>
        ensures leader { self.new.leader ≡ self.old.leader }
        ensures step { (x : Given) (own : _) (r : StepResult) → IsStepOf x own self.old r
            → OnOk result (IsStepOf x own self.new (reply_vote own tx.peer granted r)) }
    {
        let last = self.state.last_log_id();
        let resp = VoteResponse::new(self.state.state.vote_ref(), last, granted);
        let resp = Respond::Vote(ValueSender::new(resp, tx));
        self.output
            .push_command(Command::Respond { when: None, resp })
    }

    // A candidate asks for the node's vote, and is answered.
    pub(crate) fn vote_request(
        &mut self,
        req: &VoteRequest<u64>,
        tx: Caller<u64>,
        now: u64,
    ) -> Result<(), AllocError>
        ensures heard { OnOk result (KeepsHeard self.old.leader self.new.leader) }
        ensures step { (x : Given) (own : _) (r : StepResult) → IsStepOf x own self.old r → r.state.now ≡ now
            → OnOk result (IsStepOf x own self.new (vote_request_step own tx.peer req.now.vote req.now.last_log_id r)) }
    {
        let granted = self.may_grant(req, now);
        self.take_over_if(granted, req.vote, now)?;
        self.answer_vote(tx, granted)
    }
}
