//! What the engine is asked for: each call does what the group step does at its event.
ghost use Rattle.std.specs.Prelude.{◌≡◌, ◌<◌, ◌+◌, ◌^◌, ℕ, OnOk, IfOk, max, [], None, Some, Ok, Err, true, false, is_some, nat_eq};
ghost use Rattle.std.specs.Result.{is_ok};
ghost use Rattle.raft_values.specs.LogId.{next_place};
ghost use Rattle.raft_log_ids.specs.LogIdList.{last_id};
ghost use Rattle.raft_membership.specs.declared.error.InitializeError.TheVariants.{NotAllowed as IsNotAllowed, NotInMembers as IsNotInMembers};
ghost use Rattle.raft_group_step.specs.Values.{ChangeMembers, LoggedMembership, after_change, is_voter};
ghost use Rattle.raft_group_step.specs.StoredGroup.{Snapshot, end_place, membership_in_force, snapshot_last, last_id as last_stored_id};
ghost use Rattle.raft_group_step.specs.Initialize.{is_new};
ghost use Rattle.raft_group_step.specs.GroupState.{GroupState, Follower};
ghost use Rattle.raft_group_step.specs.GroupEvent.{Call};
ghost use Rattle.raft_group_step.specs.declared.group_call.GroupCall.TheVariants.{Initialize, Elect, Propose, ChangeMembership, Heartbeat, Lost, TriggerPurge};
ghost use Rattle.raft_group_step.specs.Message.{AppendFields, VoteRequest as AsksForVote, VoteReply, AppendRequest, AppendReply, SnapshotRequest, SnapshotReply};
ghost use Rattle.raft_group_step.specs.StepResult.{StepResult, step_down, unchanged};
ghost use Rattle.raft_group_step.specs.Lead.{purge_as_wished};
ghost use Rattle.raft_group_step.specs.GroupStep.{finished};
ghost use Rattle.raft_group_step.specs.Opening.{resume_lead};
ghost use Rattle.raft_known_state.specs.KnownState.{meta_of};
ghost use Rattle.raft_engine.specs.Clock.{HasHeardOfNobody, HearsAfter, KeepsHeard, KeepsHeardOrBegins, moment_shown};
ghost use Rattle.raft_engine.specs.Events.{HasTaken, IsReady, MayTake, received};
ghost use Rattle.raft_engine.specs.Following.{SpellsAppend, SpellsAppendReply, SpellsSnapshotReply, follow_one_another};
ghost use Rattle.raft_engine.specs.Forwarding.{forward_of};
ghost use Rattle.raft_engine.specs.declared.error.CallError.TheVariants.{GapInEntries as HasGap};
ghost use Rattle.raft_engine.specs.Sending.{reply_of};
ghost use Rattle.raft_engine.specs.Standing.{Given, IsStateOf, IsStepOf, IsWholeStepOf, given_at_start};

use crate::engine::Engine;
use crate::error::CallError;
use crate::following_handler::follow_one_another;
use raft_commands::{Caller, RaftTypeConfig};
use raft_group_step::{AppendEntriesRequest, AppendEntriesResponse, VoteRequest, VoteResponse};
use raft_state::{
    BasicNode, Bytes, ForwardToLeader, InitializeError, Membership, NotAllowed, NotInMembers,
    SnapshotMeta, Vote,
};
use std::alloc::AllocError;

impl<C: RaftTypeConfig<NodeId = u64, Node = BasicNode, D = Bytes>> Engine<C> {
    /// The node starts with what it has stored (openraft): it leads on under a committed vote of
    /// its own, and else follows.
    pub fn startup(&mut self) -> Result<(), AllocError>
        ensures heard { OnOk result (KeepsHeardOrBegins self.old.leader self.new.leader) }
        ensures started { (x : Snapshot) (own : ℕ) (s : GroupState) → IsStateOf own self.old s → self.old.output.queue ≡ [] → IsReady own s → s.role ≡ Follower
            → OnOk result (IsWholeStepOf (given_at_start x self.old s) own self.new (finished own None (resume_lead own (unchanged s)))) }
    {
        self.resume_lead()?;
        self.finish(None)
    }

    /// The group is set up with its first membership at this moment, in ticks, and the node stands
    /// for election (openraft). A group that isn't new stays as it is, and so does one whose
    /// membership hasn't the node as a voter.
    pub fn initialize(
        &mut self,
        membership: Membership<u64, BasicNode>,
        now: u64,
    ) -> Result<Result<(), InitializeError<u64, BasicNode>>, AllocError>
        ensures heard { OnOk result (KeepsHeardOrBegins self.old.leader self.new.leader) }
        ensures refused_old { (own : ℕ) (s : GroupState) → IsStateOf own self.old s → is_new s.stored ≡ false
            → (result ≡ Ok (Err (IsNotAllowed (record { last_log_id = last_stored_id s.stored; vote = s.stored.vote })))) × (self.new ≡ self.old) }
        ensures refused_stranger { (own : ℕ) (s : GroupState) → IsStateOf own self.old s → is_new s.stored ≡ true → is_voter membership own ≡ false
            → (result ≡ Ok (Err (IsNotInMembers (record { node_id = own; membership = membership })))) × (self.new ≡ self.old) }
        ensures taken { (x : Snapshot) (own at : ℕ) (s : GroupState) → now ≡ max s.now at → MayTake own self.old s (Call (Initialize membership) at)
            → IfOk result (λ answer. (answer ≡ Ok tt) × HasTaken x own self.old self.new s (Call (Initialize membership) at)) }
    {
        if !self.state.is_new() {
            let last_log_id = self.state.last_log_id();
            let vote = *self.state.state.vote_ref();
            let refused = NotAllowed { last_log_id, vote };
            return Ok(Err(InitializeError::NotAllowed(refused)));
        }
        let node_id = self.config.id;
        if !membership.is_voter(&node_id) {
            let refused = NotInMembers {
                node_id,
                membership,
            };
            return Ok(Err(InitializeError::NotInMembers(refused)));
        }
        let before = self.state.state.committed;
        self.initialize_part(membership, now)?;
        self.finish(before)?;
        Ok(Ok(()))
    }

    /// The node stands for election at this moment, in ticks (openraft). It leads at once where
    /// its own grant is a quorum.
    pub fn elect(&mut self, now: u64) -> Result<(), AllocError>
        ensures heard { OnOk result (HasHeardOfNobody self.new.leader) }
        ensures taken { (x : Snapshot) (own at : ℕ) (s : GroupState) → now ≡ max s.now at → MayTake own self.old s (Call Elect at)
            → OnOk result (HasTaken x own self.old self.new s (Call Elect at)) }
    {
        let before = self.state.state.committed;
        self.elect_part(now)?;
        self.finish(before)
    }

    /// A candidate asks for the node's vote at this moment, in ticks (openraft). The answer to it
    /// is queued.
    pub fn handle_vote_req(
        &mut self,
        req: &VoteRequest<u64>,
        tx: Caller<u64>,
        now: u64,
    ) -> Result<(), AllocError>
        ensures heard { OnOk result (KeepsHeard self.old.leader self.new.leader) }
        ensures taken { (x : Snapshot) (own at : ℕ) (s : GroupState) → now ≡ max s.now at
            → MayTake own self.old s (received own tx.peer (AsksForVote req.now.vote req.now.last_log_id) at)
            → OnOk result (HasTaken x own self.old self.new s (received own tx.peer (AsksForVote req.now.vote req.now.last_log_id) at)) }
    {
        let before = self.state.state.committed;
        self.vote_request(req, tx, now)?;
        self.finish(before)
    }

    /// Another voter answers this candidate at this moment, in ticks (openraft). An answer that
    /// isn't a grant may tell of a greater log, so that the runtime waits longer before the next
    /// election.
    pub fn handle_vote_resp(
        &mut self,
        target: u64,
        resp: &VoteResponse<u64>,
        now: u64,
    ) -> Result<(), AllocError>
        ensures leads_on { self.old.candidate ≡ None → OnOk result (KeepsHeard self.old.leader self.new.leader) }
        ensures heard { OnOk result (KeepsHeardOrBegins self.old.leader self.new.leader) }
        ensures taken { (x : Snapshot) (own at : ℕ) (s : GroupState) → now ≡ max s.now at
            → MayTake own self.old s (received own target (VoteReply resp.now.vote resp.now.vote_granted resp.now.last_log_id) at)
            → OnOk result (HasTaken x own self.old self.new s (received own target (VoteReply resp.now.vote resp.now.vote_granted resp.now.last_log_id) at)) }
    {
        let before = self.state.state.committed;
        let is_told = self.is_told_of_greater_log(resp);
        self.vote_reply(target, resp, now)?;
        self.finish(before)?;
        if is_told {
            self.set_greater_log();
        }
        Ok(())
    }

    /// A leader sends entries, or says what is committed, at this moment, in ticks (openraft).
    /// The answer to it is queued. Entries that don't follow one another and the log id before them
    /// are refused, and the engine stays as it is (own; openraft asserts).
    pub fn handle_append_entries(
        &mut self,
        req: AppendEntriesRequest<u64, BasicNode, Bytes>,
        tx: Caller<u64>,
        now: u64,
    ) -> Result<Result<(), CallError>, AllocError>
        ensures heard { OnOk result (KeepsHeard self.old.leader self.new.leader) }
        ensures which { IfOk result (λ answer. is_ok answer ≡ follow_one_another req.prev_log_id req.entries) }
        ensures gap { follow_one_another req.prev_log_id req.entries ≡ false → (result ≡ Ok (Err HasGap)) × (self.new ≡ self.old) }
        ensures taken { (x : Snapshot) (own at : ℕ) (s : GroupState) (m : AppendFields) → now ≡ max s.now at
            → SpellsAppend req m → SpellsAppendReply tx m → MayTake own self.old s (received own tx.peer (AppendRequest m) at)
            → IfOk result (λ answer. (answer ≡ Ok tt) × HasTaken x own self.old self.new s (received own tx.peer (AppendRequest m) at)) }
    {
        if !follow_one_another(req.prev_log_id, req.entries.as_slice()) {
            return Ok(Err(CallError::GapInEntries));
        }
        let before = self.state.state.committed;
        self.append_request(req, tx, now)?;
        self.finish(before)?;
        Ok(Ok(()))
    }

    /// A leader sends its whole snapshot at this moment, in ticks (openraft). The answer to it is
    /// queued.
    pub fn handle_install_full_snapshot(
        &mut self,
        vote: Vote<u64>,
        meta: SnapshotMeta<u64, BasicNode>,
        tx: Caller<u64>,
        now: u64,
    ) -> Result<(), AllocError>
        requires { next_place meta.last_log_id < 2 ^ 64 }
        ensures heard { OnOk result (KeepsHeard self.old.leader self.new.leader) }
        ensures taken { (x : Snapshot) (own at id : ℕ) (s : GroupState) → now ≡ max s.now at
            → meta ≡ meta_of (Some x) → tx.vote ≡ vote → SpellsSnapshotReply tx id x → MayTake own self.old s (received own tx.peer (SnapshotRequest vote id x) at)
            → OnOk result (HasTaken x own self.old self.new s (received own tx.peer (SnapshotRequest vote id x) at)) }
    {
        let before = self.state.state.committed;
        self.snapshot_request(vote, meta, tx, now)?;
        self.finish(before)
    }

    /// A leader takes a command, of at most 65,536 bytes (own; openraft's leader handler). Whose
    /// command it is the runtime keeps. A node that doesn't lead names who does, and stays as it is.
    pub fn propose(
        &mut self,
        command: Bytes,
    ) -> Result<Result<(), ForwardToLeader<u64, BasicNode>>, AllocError>
        requires { next_place (last_id self.old.state.state.log_ids) < 2 ^ 63 }
        ensures heard { OnOk result (KeepsHeard self.old.leader self.new.leader) }
        ensures which { IfOk result (λ answer. is_ok answer ≡ is_some self.old.leader) }
        ensures elsewhere { self.old.leader ≡ None → (self.new ≡ self.old) × IfOk result (λ answer. answer ≡ Err (forward_of nat_eq self.old.state)) }
        ensures taken { (x : Snapshot) (own at token : ℕ) (s : GroupState) → MayTake own self.old s (Call (Propose command token) at)
            → IfOk result (λ answer. (answer ≡ Ok tt) × HasTaken x own self.old self.new s (Call (Propose command token) at)) }
    {
        if let Some(forward) = self.led_elsewhere() {
            return Ok(Err(forward?));
        }
        let before = self.state.state.committed;
        self.propose_part(command)?;
        self.finish(before)?;
        Ok(Ok(()))
    }

    /// A leader takes the membership that a change of the one in force makes (own; openraft's
    /// leader handler). A node that doesn't lead names who does, and stays as it is.
    pub fn change_membership(
        &mut self,
        changed: Membership<u64, BasicNode>,
    ) -> Result<Result<(), ForwardToLeader<u64, BasicNode>>, AllocError>
        requires { next_place (last_id self.old.state.state.log_ids) < 2 ^ 63 }
        ensures heard { OnOk result (KeepsHeard self.old.leader self.new.leader) }
        ensures which { IfOk result (λ answer. is_ok answer ≡ is_some self.old.leader) }
        ensures elsewhere { self.old.leader ≡ None → (self.new ≡ self.old) × IfOk result (λ answer. answer ≡ Err (forward_of nat_eq self.old.state)) }
        ensures taken { (x : Snapshot) (own at token : ℕ) (s : GroupState) (m : LoggedMembership) (change : ChangeMembers)
            → membership_in_force s.stored ≡ Some m → changed ≡ after_change m.membership change → MayTake own self.old s (Call (ChangeMembership change token) at)
            → IfOk result (λ answer. (answer ≡ Ok tt) × HasTaken x own self.old self.new s (Call (ChangeMembership change token) at)) }
    {
        if let Some(forward) = self.led_elsewhere() {
            return Ok(Err(forward?));
        }
        let before = self.state.state.committed;
        self.membership_part(changed)?;
        self.finish(before)?;
        Ok(Ok(()))
    }

    /// A leader says to every other node that it leads on (own; openraft's leader handler). A node
    /// that doesn't lead names who does, and stays as it is.
    pub fn send_heartbeat(
        &mut self,
    ) -> Result<Result<(), ForwardToLeader<u64, BasicNode>>, AllocError>
        ensures heard { OnOk result (KeepsHeard self.old.leader self.new.leader) }
        ensures which { IfOk result (λ answer. is_ok answer ≡ is_some self.old.leader) }
        ensures elsewhere { self.old.leader ≡ None → (self.new ≡ self.old) × IfOk result (λ answer. answer ≡ Err (forward_of nat_eq self.old.state)) }
        ensures taken { (x : Snapshot) (own at : ℕ) (s : GroupState) → MayTake own self.old s (Call Heartbeat at)
            → IfOk result (λ answer. (answer ≡ Ok tt) × HasTaken x own self.old self.new s (Call Heartbeat at)) }
    {
        if let Some(forward) = self.led_elsewhere() {
            return Ok(Err(forward?));
        }
        let before = self.state.state.committed;
        self.notices()?;
        self.finish(before)?;
        Ok(Ok(()))
    }

    /// The request on its way to the peer counts as failed (own; openraft's replication handler). A
    /// node that doesn't lead names who does, and stays as it is.
    pub fn handle_lost(
        &mut self,
        peer: u64,
    ) -> Result<Result<(), ForwardToLeader<u64, BasicNode>>, AllocError>
        ensures heard { OnOk result (KeepsHeard self.old.leader self.new.leader) }
        ensures which { IfOk result (λ answer. is_ok answer ≡ is_some self.old.leader) }
        ensures elsewhere { self.old.leader ≡ None → (self.new ≡ self.old) × IfOk result (λ answer. answer ≡ Err (forward_of nat_eq self.old.state)) }
        ensures taken { (x : Snapshot) (own at : ℕ) (s : GroupState) → MayTake own self.old s (Call (Lost peer) at)
            → IfOk result (λ answer. (answer ≡ Ok tt) × HasTaken x own self.old self.new s (Call (Lost peer) at)) }
    {
        if let Some(forward) = self.led_elsewhere() {
            return Ok(Err(forward?));
        }
        let before = self.state.state.committed;
        self.lost(peer);
        self.finish(before)?;
        Ok(Ok(()))
    }

    /// A peer answers a leader's append request or snapshot at this moment, in ticks (own;
    /// openraft's replication handler). What came of a snapshot is told as of an append request. The
    /// request left at `sending_time`, in ticks, if its runtime knows that: an answer to the request
    /// on its way that tells of no greater vote moves the leader's clock for the peer up to there.
    pub fn handle_replication_resp(
        &mut self,
        peer: u64,
        reply: &Caller<u64>,
        outcome: &AppendEntriesResponse<u64>,
        sending_time: Option<u64>,
        now: u64,
    ) -> Result<(), AllocError>
        ensures heard { OnOk result (HearsAfter peer (moment_shown peer (reply_of reply.now outcome.now) sending_time self.old.leader) self.old.leader self.new.leader) }
        ensures append { (x : Snapshot) (own at : ℕ) (s : GroupState) → now ≡ max s.now at
            → MayTake own self.old s (received own peer (AppendReply (reply_of reply.now outcome.now)) at)
            → OnOk result (HasTaken x own self.old self.new s (received own peer (AppendReply (reply_of reply.now outcome.now)) at)) }
        ensures snapshot { (x : Snapshot) (own at : ℕ) (s : GroupState) → now ≡ max s.now at
            → MayTake own self.old s (received own peer (SnapshotReply (reply_of reply.now outcome.now)) at)
            → OnOk result (HasTaken x own self.old self.new s (received own peer (SnapshotReply (reply_of reply.now outcome.now)) at)) }
    {
        let before = self.state.state.committed;
        self.hear_answer(peer, reply, outcome, sending_time);
        self.answered(peer, reply, outcome, now)?;
        self.finish(before)
    }

    /// The log is to be purged up to the place, as far as the snapshot goes (openraft). A leader
    /// purges once no request needs what goes.
    pub fn trigger_purge_log(&mut self, place: u64) -> Result<(), AllocError>
        ensures heard { OnOk result (KeepsHeard self.old.leader self.new.leader) }
        ensures taken { (x : Snapshot) (own at : ℕ) (s : GroupState) → MayTake own self.old s (Call (TriggerPurge place) at)
            → OnOk result (HasTaken x own self.old self.new s (Call (TriggerPurge place) at)) }
    {
        let before = self.state.state.committed;
        self.log_handler().update_purge_upto(place)?;
        self.finish(before)
    }

    /// What a leader is still to purge goes, once no request needs it (openraft).
    pub fn try_purge_log(&mut self) -> Result<(), AllocError>
        ensures { (x : Given) (own : ℕ) (r : StepResult) → IsStepOf x own self.old r → end_place r.state.stored < 2 ^ 64
            → ((place : ℕ) → r.state.wish ≡ Some place → place < next_place (snapshot_last r.state.stored))
            → OnOk result (IsStepOf x own self.new (purge_as_wished r.state.role r.state.wish r)) }
    {
        self.log_handler().purge_log()
    }

    /// The node leads no more (openraft), and the runtime is told so. Tokens that are to be told stay
    /// unknown.
    pub fn leader_step_down(&mut self) -> Result<(), AllocError>
        ensures { (x : Given) (own : ℕ) (r : StepResult) → IsStepOf x own self.old r → OnOk result (IsStepOf x own self.new (step_down r)) }
    {
        self.vote_handler().become_following()
    }
}
