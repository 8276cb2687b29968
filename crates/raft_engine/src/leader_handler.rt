//! Leading: how a lead begins, and what a leader writes.
ghost use Rattle.std.specs.Prelude.{◌≡◌, ◌+◌, ◌<◌, ◌^◌, ℕ, OnOk, IfOk, IsTrue, ◌↔◌, true, false, Some, None, List, [], Option};
ghost use Rattle.raft_values.specs.LogId.{next_place};
ghost use Rattle.raft_log_ids.specs.LogIdList.{last_id};
ghost use Rattle.raft_group_step.specs.Values.{ChangeMembers, LoggedMembership, after_change, is_written_by, membership_after};
ghost use Rattle.std.specs.List.{list_any};
ghost use Rattle.raft_group_step.specs.StoredGroup.{StoredGroup, end_place, membership_in_force};
ghost use Rattle.raft_group_step.specs.Propose.{propose_step};
ghost use Rattle.raft_group_step.specs.MembershipStep.{membership_step};
ghost use Rattle.raft_group_step.specs.GroupState.{Lead, Leader as Leading, Candidate as Standing, Follower as Following};
ghost use Rattle.raft_group_step.specs.StepResult.{StepResult, append};
ghost use Rattle.raft_group_step.specs.Lead.{append_blank, begin_lead, commit_as_leader, new_lead};
ghost use Rattle.raft_group_step.specs.Opening.{resume_lead};
ghost use Rattle.raft_group_step.specs.Heartbeat.{beat_as};
ghost use Rattle.raft_known_state.specs.KnownState.{IsPlaced, Knows, effective_of};
ghost use Rattle.raft_leaders.specs.Leader.{id_of_leader, peer_at};
ghost use Rattle.raft_engine.specs.Standing.{Given, IsStepOf, Leads};
ghost use Rattle.raft_engine.specs.Turns.{MayLead};
ghost use Rattle.raft_engine.specs.Clock.{HasHeardOfNobody, KeepsHeard, KeepsHeardOrBegins, heard_at};
ghost use Rattle.raft_engine.specs.Leading.{CountsOn, KnowsMembers, leads_by};
ghost use Rattle.std.specs.Prelude.{nat_eq};
ghost use Rattle.std.specs.Option.{option_copied};

use crate::engine::Engine;
use crate::replication_handler::place_after;
use raft_commands::{Command, RaftTypeConfig};
use raft_group_step::Entries;
use raft_leaders::{Leader, greatest_accepted};
use raft_state::{
    BasicNode, Bytes, EffectiveMembership, Entry, EntryPayload, LogId, LogIdOptionExt, Membership,
    RaftPayload, Vote, VoteStateReader,
};
use std::alloc::{AllocError, Global};

// Whether both log ids stand at one place, or there is none.
fn share_place(a: Option<&LogId<u64>>, b: Option<&LogId<u64>>) -> bool
    ensures { IsTrue result ↔ (next_place (option_copied a.entry) ≡ next_place (option_copied b.entry)) }
{
    match (a, b) {
        (None, None) => true,
        (Some(a), Some(b)) => a.index == b.index,
        _ => false,
    }
}

// Whether the node leads under the vote: it is committed, and the node's own.
fn leads_under(vote: &Vote<u64>, own: u64) -> bool
    ensures { result ≡ leads_by vote.now own }
{
    vote.committed && vote.leader_id.node_id == own
}

// The next log id that the leader gives.
fn next_log_id(leader: &mut Leader<u64, EffectiveMembership<u64, BasicNode>>) -> LogId<u64>
    requires { next_place leader.old.last_log_id < 2 ^ 63 }
    ensures id { result ≡ id_of_leader leader.old.vote.leader_id (next_place leader.old.last_log_id) }
    ensures rest { leader.new ≡ record leader.old { last_log_id = Some result } }
{
    let mut ids = [LogId::new(leader.vote_ref().leader_id, 0)];
    leader.assign_log_ids(&mut ids);
    ids[0]
}

// The leader counts by the membership of the entry, if it has one. What is known of each peer stays.
fn count_by_entry(
    alloc: Global,
    leader: &mut Leader<u64, EffectiveMembership<u64, BasicNode>>,
    entry: &Entry<u64, BasicNode, Bytes>,
) -> Result<(), AllocError>
    ensures members { (before : Option LoggedMembership) → KnowsMembers leader.old before
        → OnOk result (KnowsMembers leader.new (membership_after before entry.now.log_id entry.now.payload)) }
    ensures peers { OnOk result ((n : ℕ) → peer_at nat_eq leader.new n ≡ peer_at nat_eq leader.old n) }
    ensures heard { OnOk result ((n : ℕ) → heard_at leader.new n ≡ heard_at leader.old n) }
    ensures rest { leader.new ≡ record leader.old { progress = leader.new.progress; clock_progress = leader.new.clock_progress } }
{
    let Some(membership) = entry.get_membership() else {
        return Ok(());
    };
    let learner_ids = membership.learner_ids()?;
    let effective = EffectiveMembership::new(Some(entry.log_id), membership.clone()?);
    leader.change_membership(alloc, effective, learner_ids.as_slice())
}

// A leader counts by this membership, if there is a leader. What is known of each peer stays.
fn count_by(
    alloc: Global,
    leader: &mut Option<Leader<u64, EffectiveMembership<u64, BasicNode>>>,
    membership: &EffectiveMembership<u64, BasicNode>,
) -> Result<(), AllocError>
    ensures heard { OnOk result (KeepsHeard leader.old leader.new) }
    ensures counts { (m : Option LoggedMembership) → membership.now ≡ effective_of m → OnOk result (CountsOn m leader.old leader.new) }
{
    let Some(leader) = leader else {
        return Ok(());
    };
    let learner_ids = membership.membership().learner_ids()?;
    leader.change_membership(alloc, membership.clone()?, learner_ids.as_slice())?;
    Ok(())
}

// The same where the membership may have changed; else the leader counts by it already.
pub(crate) fn count_if(
    alloc: Global,
    changed: bool,
    leader: &mut Option<Leader<u64, EffectiveMembership<u64, BasicNode>>>,
    membership: &EffectiveMembership<u64, BasicNode>,
) -> Result<(), AllocError>
    ensures heard { OnOk result (KeepsHeard leader.old leader.new) }
    ensures counts { (m : Option LoggedMembership) → membership.now ≡ effective_of m → (changed ≡ false → CountsOn m leader.old leader.old)
        → OnOk result (CountsOn m leader.old leader.new) }
{
    if changed {
        return count_by(alloc, leader, membership);
    }
    Ok(())
}

/// Writes and speaks for a node that leads (openraft).
#[derive(Drop)]
pub struct LeaderHandler<'x, C: RaftTypeConfig> {
    pub(crate) engine: &'x mut Engine<C>,
}

impl<'x, C: RaftTypeConfig<NodeId = u64, Node = BasicNode, D = Bytes>> LeaderHandler<'x, C> {
    /// An entry goes behind the log (openraft; here one at a time). It is sent once it is written.
    pub fn leader_append_entry(
        &mut self,
        payload: EntryPayload<u64, BasicNode, Bytes>,
    ) -> Result<(), AllocError>
        requires { next_place (last_id self.old.engine.now.state.state.log_ids) < 2 ^ 63 }
        ensures same_engine { self.new.engine.ghost_name ≡ self.old.engine.ghost_name }
        ensures step { (x : Given) (own : _) (r : StepResult) (lead : Lead) → IsStepOf x own self.old.engine.now r → r.state.role ≡ Leading lead
            → OnOk result (IsStepOf x own self.new.engine.now (append payload r)) }
    {
        self.engine.append(payload)
    }

    /// The leader says to every other node that it leads on (openraft).
    pub fn send_heartbeat(&mut self) -> Result<(), AllocError>
        ensures same_engine { self.new.engine.ghost_name ≡ self.old.engine.ghost_name }
        ensures step { (x : Given) (own : _) (r : StepResult) → IsStepOf x own self.old.engine.now r
            → OnOk result (IsStepOf x own self.new.engine.now (beat_as own r.state.role r)) }
    {
        self.engine.notices()
    }
}

impl<C: RaftTypeConfig<NodeId = u64, Node = BasicNode, D = Bytes>> Engine<C> {
    // A lead that begins under this vote: of no peer anything is known yet. It looks for its first
    // entry among all its own keys: an own run may stand before another leader's.
    fn new_leader(
        &self,
        vote: Vote<u64>,
    ) -> Result<Leader<u64, EffectiveMembership<u64, BasicNode>>, AllocError>
        requires { next_place (last_id self.now.state.state.log_ids) < 2 ^ 63 }
        ensures heard { IfOk result (λ l. HasHeardOfNobody (Some l)) }
        ensures leads { (own : _) (s : StoredGroup) → Knows self.now.state s → IsPlaced s → vote.leader_id.node_id ≡ own → vote.committed ≡ true
            → IfOk result (λ l. Leads own l (record s { vote = vote }) (new_lead s)) }
    {
        let membership = self.state.effective_membership().clone()?;
        let learner_ids = membership.membership().learner_ids()?;
        let keys = self.state.keys_of_leader(&vote.leader_id);
        Leader::new(self.alloc, vote, membership, learner_ids.as_slice(), keys)
    }

    // The entry goes behind the log, under the vote's leader, and the leader counts by its
    // membership. A leader whose last log id isn't the log's writes nothing.
    pub(crate) fn append(
        &mut self,
        payload: EntryPayload<u64, BasicNode, Bytes>,
    ) -> Result<(), AllocError>
        requires { next_place (last_id self.old.state.state.log_ids) < 2 ^ 63 }
        ensures heard { OnOk result (KeepsHeard self.old.leader self.new.leader) }
        ensures step { (x : Given) (own : _) (r : StepResult) (lead : Lead) → IsStepOf x own self.old r → r.state.role ≡ Leading lead
            → OnOk result (IsStepOf x own self.new (append payload r)) }
    {
        let Some(leader) = &mut self.leader else {
            return Ok(());
        };
        if !share_place(leader.last_log_id(), self.state.state.log_ids.last()) {
            return Ok(());
        }
        let log_id = next_log_id(leader);
        let vote = *leader.vote_ref();
        let entry = Entry { log_id, payload };
        count_by_entry(self.alloc, leader, &entry)?;
        let mut entries = Entries::new(self.alloc);
        entries.push(entry)?;
        self.state.append(entries.as_slice())?;
        self.output
            .push_command(Command::AppendInputEntries { vote, entries })
    }

    // Whether the leader has written an entry of the log. Where its first entry is the next one it
    // has written none, and no key is read.
    fn has_written(&self) -> bool
        requires { next_place (last_id self.now.state.state.log_ids) < 2 ^ 63 }
        ensures { (x : Given) (own : _) (r : StepResult) (lead : Lead) → IsStepOf x own self.now r → r.state.role ≡ Leading lead
            → result ≡ list_any (is_written_by r.state.stored.vote.leader_id) r.state.stored.log }
    {
        let Some(leader) = &self.leader else {
            return false;
        };
        if self.state.end() <= leader.noop_log_id().index {
            return false;
        }
        self.state
            .is_written_by_leader(&leader.vote_ref().leader_id)
    }

    // A blank entry goes behind the log, unless the leader has written one already.
    fn append_blank(&mut self) -> Result<(), AllocError>
        requires { next_place (last_id self.old.state.state.log_ids) < 2 ^ 63 }
        ensures heard { OnOk result (KeepsHeard self.old.leader self.new.leader) }
        ensures step { (x : Given) (own : _) (r : StepResult) (lead : Lead) → IsStepOf x own self.old r → r.state.role ≡ Leading lead
            → OnOk result (IsStepOf x own self.new (append_blank r)) }
    {
        if self.has_written() {
            return Ok(());
        }
        self.append(EntryPayload::Blank)
    }

    // A quorum has granted the candidate's vote: it leads, and writes a blank entry.
    pub(crate) fn begin_lead(&mut self, now: u64) -> Result<(), AllocError>
        requires { next_place (last_id self.old.state.state.log_ids) < 2 ^ 63 }
        ensures heard { OnOk result (HasHeardOfNobody self.new.leader) }
        ensures step { (x : Given) (own : _) (r : StepResult) (granters : List ℕ) → IsStepOf x own self.old r → r.state.role ≡ Standing granters → r.state.now ≡ now
            → OnOk result (IsStepOf x own self.new (begin_lead r)) }
    {
        let mut vote = *self.state.state.vote_ref();
        vote.committed = true;
        let leader = self.new_leader(vote)?;
        self.state.save_vote(now, vote);
        self.output.push_command(Command::SaveVote { vote })?;
        self.candidate = None;
        self.leader = Some(leader);
        self.output.push_command(Command::BecomeLeader)?;
        self.append_blank()
    }

    // The node leads on under a committed vote of its own, and writes nothing.
    pub(crate) fn resume_lead(&mut self) -> Result<(), AllocError>
        ensures heard { OnOk result (KeepsHeardOrBegins self.old.leader self.new.leader) }
        ensures step { (x : Given) (own : _) (r : StepResult) → IsStepOf x own self.old r → self.old.output.queue ≡ [] → x.turn_before ≡ MayLead → r.state.role ≡ Following
            → end_place r.state.stored < 2 ^ 63
            → OnOk result (IsStepOf x own self.new (resume_lead own r)) }
    {
        let vote = *self.state.state.vote_ref();
        let leads_on = leads_under(&vote, self.config.id);
        if !leads_on || !self.has_room() {
            return Ok(());
        }
        let leader = self.new_leader(vote)?;
        self.leader = Some(leader);
        self.output.push_command(Command::BecomeLeader)
    }

    // A command goes behind the log. Its token is for the runtime to keep.
    pub(crate) fn propose_part(&mut self, command: Bytes) -> Result<(), AllocError>
        requires { next_place (last_id self.old.state.state.log_ids) < 2 ^ 63 }
        ensures heard { OnOk result (KeepsHeard self.old.leader self.new.leader) }
        ensures step { (x : Given) (own : _) (r : StepResult) (lead : Lead) (token : ℕ) → IsStepOf x own self.old r → r.state.role ≡ Leading lead
            → OnOk result (IsStepOf x own self.new (propose_step command token r)) }
    {
        self.append(EntryPayload::Normal(command))
    }

    // The membership that a change of the one in force asks for goes behind the log.
    pub(crate) fn membership_part(
        &mut self,
        changed: Membership<u64, BasicNode>,
    ) -> Result<(), AllocError>
        requires { next_place (last_id self.old.state.state.log_ids) < 2 ^ 63 }
        ensures heard { OnOk result (KeepsHeard self.old.leader self.new.leader) }
        ensures step { (x : Given) (own : _) (r : StepResult) (lead : Lead) (token : ℕ) (m : LoggedMembership) (change : ChangeMembers)
            → IsStepOf x own self.old r → r.state.role ≡ Leading lead → membership_in_force r.state.stored ≡ Some m → changed ≡ after_change m.membership change
            → OnOk result (IsStepOf x own self.new (membership_step change token r)) }
    {
        self.append(EntryPayload::Membership(changed))
    }

    // The greatest place that a leader may commit is committed, if it is above what is. So the log
    // is read from there on alone.
    pub(crate) fn commit_as_leader(&mut self) -> Result<(), AllocError>
        requires { next_place (last_id self.old.state.state.log_ids) < 2 ^ 63 }
        ensures leader { self.new.leader ≡ self.old.leader }
        ensures step { (x : Given) (own : _) (r : StepResult) → IsStepOf x own self.old r
            → OnOk result (IsStepOf x own self.new (commit_as_leader own r.state.role r)) }
    {
        let Some(leader) = &self.leader else {
            return Ok(());
        };
        let voters = self.state.state.membership_state.effective();
        let log_ids = &self.state.state.log_ids;
        let from = place_after(&self.state.state.committed);
        let greatest = greatest_accepted(leader, self.config.id, log_ids, from, voters);
        self.commit_up_to(greatest.index())
    }
}
