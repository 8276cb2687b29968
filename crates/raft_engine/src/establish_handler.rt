//! Elections: a node stands, asks the others, and counts who grants.
ghost use Rattle.std.specs.Prelude.{◌≡◌, ◌+◌, ◌<◌, ◌^◌, ◌↔◌, OnOk, IfOk, Ok, Err, None, IsTrue, true, false, List, ℕ, ◌∷◌, []};
ghost use Rattle.raft_values.specs.LogId.{next_place};
ghost use Rattle.raft_log_ids.specs.LogIdList.{last_id as last_known_id};
ghost use Rattle.raft_group_step.specs.StoredGroup.{StoredGroup, end_place, last_id};
ghost use Rattle.raft_group_step.specs.GroupState.{GroupState, Candidate as Standing, is_candidate};
ghost use Rattle.raft_group_step.specs.Message.{VoteReply};
ghost use Rattle.raft_group_step.specs.StepResult.{StepResult, in_role, step_down};
ghost use Rattle.raft_group_step.specs.Lead.{begin_lead, with_grant};
ghost use Rattle.raft_group_step.specs.Elect.{ask, elect_step, stand};
ghost use Rattle.raft_group_step.specs.Initialize.{initialize_step, is_new};
ghost use Rattle.raft_group_step.specs.VoteReply.{vote_reply_step};
ghost use Rattle.raft_engine.specs.Standing.{Given, IsStateOf, IsStepOf, Stands};
ghost use Rattle.raft_engine.specs.Clock.{HasHeardOfNobody, KeepsHeard, KeepsHeardOrBegins};
ghost use Rattle.raft_engine.specs.Events.{tells_greater_log};
ghost use Rattle.raft_engine.specs.declared.error.CallError.TheVariants.{NotStanding as StandsNot};

use crate::engine::Engine;
use crate::error::CallError;
use crate::orders::is_behind;
use raft_commands::{Command, RaftTypeConfig};
use raft_group_step::{Entries, VoteRequest, VoteResponse};
use raft_leaders::Candidate;
use raft_state::{
    BasicNode, Bytes, EffectiveMembership, Entry, EntryPayload, LeaderId, LogId, Membership, Vote,
};
use std::alloc::AllocError;

/// Makes a leader of a candidate (openraft).
#[derive(Drop)]
pub struct EstablishHandler<'x, C: RaftTypeConfig> {
    pub(crate) engine: &'x mut Engine<C>,
}

impl<'x, C: RaftTypeConfig<NodeId = u64, Node = BasicNode, D = Bytes>> EstablishHandler<'x, C> {
    /// A quorum has granted the candidate's vote at this moment, in ticks (openraft): the node leads,
    /// and writes a blank entry unless it has written an entry under the vote. A node that doesn't
    /// stand for election is refused.
    pub fn establish(&mut self, now: u64) -> Result<Result<(), CallError>, AllocError>
        requires { next_place (last_known_id self.old.engine.now.state.state.log_ids) < 2 ^ 63 }
        ensures same_engine { self.new.engine.ghost_name ≡ self.old.engine.ghost_name }
        ensures idle { self.old.engine.now.candidate ≡ None → (result ≡ Ok (Err StandsNot)) × (self.new.engine.now ≡ self.old.engine.now) }
        ensures step { (x : Given) (own : _) (r : StepResult) (granters : List ℕ) → IsStepOf x own self.old.engine.now r → r.state.role ≡ Standing granters → r.state.now ≡ now
            → IfOk result (λ answer. (answer ≡ Ok tt) × IsStepOf x own self.new.engine.now (begin_lead r)) }
    {
        if self.engine.candidate.is_none() {
            return Ok(Err(CallError::NotStanding));
        }
        self.engine.begin_lead(now)?;
        Ok(Ok(()))
    }
}

impl<C: RaftTypeConfig<NodeId = u64, Node = BasicNode, D = Bytes>> Engine<C> {
    // Each of these voters is asked for its vote.
    fn ask(&mut self, voters: &[u64], vote_req: VoteRequest<u64>) -> Result<(), AllocError>
        ensures leader { OnOk result (self.new.leader ≡ self.old.leader) }
        ensures step { (x : Given) (own : _) (r : StepResult) → IsStepOf x own self.old r → r.state.stored.vote ≡ vote_req.vote
            → last_id r.state.stored ≡ vote_req.last_log_id → OnOk result (IsStepOf x own self.new (ask own voters.now r)) }
    {
        for target in voters {
            let target = *target;
            self.output
                .push_command(Command::SendVote { target, vote_req })?;
        }
        Ok(())
    }

    // A candidate for this vote, which the node itself has granted.
    fn new_candidate(
        &self,
        vote: Vote<u64>,
        now: u64,
    ) -> Result<Candidate<u64, EffectiveMembership<u64, BasicNode>>, AllocError>
        ensures { (s : StoredGroup) → vote.leader_id.node_id ≡ self.now.config.id → vote.committed ≡ false
            → IfOk result (λ c. Stands self.now.config.id c (record s { vote = vote }) (self.now.config.id ∷ [])) }
    {
        let last = self.state.last_log_id();
        let membership = self.state.effective_membership().clone()?;
        let mut candidate = Candidate::new(self.alloc, now, vote, last, membership, &[])?;
        candidate.grant_by(&self.config.id)?;
        Ok(candidate)
    }

    /// Whether the log has room for one more entry: places are below 2^63 (own).
    pub fn has_room(&self) -> bool
        ensures { IsTrue result ↔ (next_place (last_known_id self.now.state.state.log_ids) < 2 ^ 63) }
    {
        match self.state.state.log_ids.last() {
            None => true,
            Some(last) => last.index < (1 << 63) - 1,
        }
    }

    // A candidate notes that this node has granted its vote. Once a quorum has of those who are the
    // voters now, it leads.
    pub(crate) fn with_grant(&mut self, n: u64, now: u64) -> Result<(), AllocError>
        ensures leads_on { self.old.candidate ≡ None → OnOk result (KeepsHeard self.old.leader self.new.leader) }
        ensures heard { OnOk result (KeepsHeardOrBegins self.old.leader self.new.leader) }
        ensures step { (x : Given) (own : _) (r : StepResult) → IsStepOf x own self.old r → r.state.now ≡ now
            → (is_candidate r.state.role ≡ true → end_place r.state.stored < 2 ^ 63)
            → OnOk result (IsStepOf x own self.new (with_grant n r.state.role r)) }
    {
        let Some(candidate) = &mut self.candidate else {
            return Ok(());
        };
        candidate.grant_by(&n)?;
        let is_quorum = candidate.is_granted_by(self.state.effective_membership());
        if is_quorum && self.has_room() {
            return self.begin_lead(now);
        }
        Ok(())
    }

    // The node votes for itself in the next term, and asks the other voters.
    fn stand(&mut self, now: u64) -> Result<(), AllocError>
        ensures ends { OnOk result (self.new.leader ≡ None) }
        ensures step { (x : Given) (own : _) (r : StepResult) → IsStepOf x own self.old r → r.state.now ≡ now
            → r.state.stored.vote.leader_id.term + 1 < 2 ^ 64
            → OnOk result (IsStepOf x own self.new (in_role (Standing (own ∷ [])) (stand own r))) }
    {
        let own = self.config.id;
        self.step_down()?;
        let term = self.state.state.vote_ref().leader_id.term.saturating_add(1);
        let vote = Vote::new(term, own);
        self.store_vote(vote, now)?;
        let candidate = self.new_candidate(vote, now)?;
        self.candidate = Some(candidate);
        let voters = self.state.other_voters(self.alloc, own)?;
        let vote_req = VoteRequest::new(vote, self.state.last_log_id());
        self.ask(voters.as_slice(), vote_req)
    }

    // The node stands for election. It leads at once where its own grant is a quorum.
    pub(crate) fn elect_part(&mut self, now: u64) -> Result<(), AllocError>
        ensures heard { OnOk result (HasHeardOfNobody self.new.leader) }
        ensures step { (x : Given) (own : _) (r : StepResult) → IsStepOf x own self.old r → r.state.now ≡ now
            → r.state.stored.vote.leader_id.term + 1 < 2 ^ 64 → end_place r.state.stored < 2 ^ 63
            → OnOk result (IsStepOf x own self.new (elect_step own r)) }
    {
        self.stand(now)?;
        self.with_grant(self.config.id, now)
    }

    // Whether an answer that isn't a grant tells a candidate of a log that is greater than its own.
    pub(crate) fn is_told_of_greater_log(&self, resp: &VoteResponse<u64>) -> bool
        ensures { (own : ℕ) (s : GroupState) → IsStateOf own self.now s
            → result ≡ tells_greater_log s (VoteReply resp.now.vote resp.now.vote_granted resp.now.last_log_id) }
    {
        let last = self.state.last_log_id();
        let is_grant = resp.vote_granted && resp.vote == *self.state.state.vote_ref();
        self.candidate.is_some() && !is_grant && is_behind(&last, &resp.last_log_id)
    }

    // Another voter answers a candidate. A grant counts where its vote is the one in force.
    pub(crate) fn vote_reply(
        &mut self,
        peer: u64,
        resp: &VoteResponse<u64>,
        now: u64,
    ) -> Result<(), AllocError>
        ensures leads_on { self.old.candidate ≡ None → OnOk result (KeepsHeard self.old.leader self.new.leader) }
        ensures heard { OnOk result (KeepsHeardOrBegins self.old.leader self.new.leader) }
        ensures step { (x : Given) (own : _) (r : StepResult) → IsStepOf x own self.old r → r.state.now ≡ now
            → (is_candidate r.state.role ≡ true → end_place r.state.stored < 2 ^ 63)
            → OnOk result (IsStepOf x own self.new (vote_reply_step peer resp.now.vote resp.now.vote_granted r)) }
    {
        if resp.vote_granted && resp.vote == *self.state.state.vote_ref() {
            return self.with_grant(peer, now);
        }
        self.take_over_greater(resp.vote, now)
    }

    // The group is set up: its membership is the first entry, and the node stands for election.
    pub(crate) fn initialize_part(
        &mut self,
        membership: Membership<u64, BasicNode>,
        now: u64,
    ) -> Result<(), AllocError>
        ensures heard { OnOk result (HasHeardOfNobody self.new.leader) }
        ensures step { (x : Given) (own : _) (r : StepResult) → IsStepOf x own self.old r → r.state.now ≡ now
            → is_new r.state.stored ≡ true
            → OnOk result (IsStepOf x own self.new (initialize_step own membership r)) }
    {
        self.step_down()?;
        let log_id = LogId::new(LeaderId::new(0, 0), 0);
        let payload = EntryPayload::Membership(membership);
        let mut entries = Entries::new(self.alloc);
        entries.push(Entry { log_id, payload })?;
        self.put_entries(entries)?;
        self.elect_part(now)
    }
}
