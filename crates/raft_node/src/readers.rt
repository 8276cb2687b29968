//! What a node tells of its groups. Where a group isn't there, and once the node has failed, there is
//! nothing to tell.
ghost use Rattle.std.specs.Prelude.{◌≡◌, ◌<◌, ◌^◌, [], ℕ, IfOk, None, Some, false, true, is_some, nat_lt, option_and_then, option_map};
ghost use Rattle.std.specs.List.Sorted.{IsStrictlySortedBy};
ghost use Rattle.std.specs.Set.{is_member};
ghost use Rattle.std.specs.Option.{option_copied};
ghost use Rattle.std.specs.Ordering.{eq_by_cmp, nat_cmp};
ghost use Rattle.std.specs.BTreeMap.{get, keys};
ghost use Rattle.raft_known_state.specs.KnownState.{logged_as_effective};
ghost use Rattle.raft_group_step.specs.StoredGroup.{end_place, last_id, membership_in_force, snapshot_last};
ghost use Rattle.raft_group_step.specs.Frames.{committed_id};
ghost use Rattle.raft_group_step.specs.GroupState.{GroupState};
ghost use Rattle.raft_group_step.specs.VoteRequest.{is_under_lease};
ghost use Rattle.raft_group_step.specs.Refusal.{is_voter_in, known_leader};
ghost use Rattle.raft_engine.specs.ServerStates.{part_in};
ghost use Rattle.raft_engine.specs.Standing.{IsStateOf};
ghost use Rattle.raft_laws.specs.GroupWorld.{Up};
ghost use Rattle.raft_list_facts.specs.Leads.{leading_of};
ghost use Rattle.raft_framed_groups.specs.Answers.{Stands};
ghost use Rattle.raft_node.specs.Reading.{TellsOf, free_from, machine_in, matched_by, moment_of, next_entry_id, outstanding_to, place_in};
ghost use Rattle.raft_node.specs.Standing.{applier_in, running_in, value_of};

use crate::node::Node;
use raft_applier::Applier;
use raft_engine::Engine;
use raft_group_storage::GroupStorage;
use raft_list_facts::{Leading, base_of};
use raft_machines::StateMachine;
use raft_member::{ByteGroup, Member, facts_of};
use raft_messages::SnapshotBytes;
use raft_state::{BasicNode, EffectiveMembership, LogId, LogStateReader, ServerState, Vote};
use std::alloc::{AllocError, Global};
use std::collections::BTreeMap;

// The part that the engine's node plays: as openraft's `calc_server_state`, of a lent engine.
fn part_of(engine: &Engine<ByteGroup>) -> ServerState
    ensures { (own : _) (s : GroupState) → IsStateOf own engine.now s → result ≡ part_in s.role (is_voter_in (membership_in_force s.stored) own) }
{
    if engine.leader.is_some() {
        return ServerState::Leader;
    }
    if engine.candidate.is_some() {
        return ServerState::Candidate;
    }
    if engine.state.state.is_voter(&engine.config.id) {
        ServerState::Follower
    } else {
        ServerState::Learner
    }
}

// What the engine's node leads with, if it leads.
fn leading_by(engine: &Engine<ByteGroup>) -> Option<Leading>
    ensures { (own : _) (s : GroupState) → IsStateOf own engine.now s → result ≡ leading_of s }
{
    if engine.leader.is_none() {
        return None;
    }
    let known = &engine.state;
    Some(Leading {
        vote: *known.state.vote.get(),
        last: known.last_log_id(),
        base: base_of(known),
    })
}

// Whether the engine's node leads and waits for the peer's answer.
fn is_waiting(engine: &Engine<ByteGroup>, peer: u64) -> bool
    ensures { (own : _) (s : GroupState) → IsStateOf own engine.now s → result ≡ is_some (outstanding_to peer s.role) }
{
    match &engine.leader {
        Some(leader) => !leader.peer(&peer).inflight.is_none(),
        None => false,
    }
}

// What the peer is known to have, where the engine's node leads.
fn matching_of(engine: &Engine<ByteGroup>, peer: u64) -> Option<LogId<u64>>
    ensures { (own : _) (s : GroupState) → IsStateOf own engine.now s → result ≡ matched_by peer s.role }
{
    match &engine.leader {
        Some(leader) => leader.peer(&peer).matching,
        None => None,
    }
}

// The first moment at which the engine's node is under no lease; none where 64 bits don't have it.
fn free_moment(engine: &Engine<ByteGroup>) -> Option<u64>
    ensures { (own : _) (s : GroupState) → IsStateOf own engine.now s → result ≡ moment_of (free_from s) }
{
    let vote = &engine.state.state.vote;
    if !vote.get().committed {
        return Some(0);
    }
    match vote.utime() {
        Some(renewed) => {
            let lease = engine.config.timer_config.leader_lease;
            renewed.checked_add(lease)?.checked_add(1)
        }
        None => Some(0),
    }
}

// The groups that have members, rising.
fn groups_of(alloc: Global, members: &BTreeMap<u64, Member>) -> Result<Vec<u64>, AllocError>
    ensures ids { IfOk result (λ ids. ids.items ≡ keys members.now) }
    ensures rising { IsStrictlySortedBy nat_cmp (keys members.now) }
    ensures exactly { (group : ℕ) → is_some (get nat_cmp members.now group) ≡ is_member (eq_by_cmp nat_cmp) (keys members.now) group }
{
    members.keys().copied().collect(alloc)
}

impl<M: StateMachine, S: GroupStorage<Snapshot = SnapshotBytes>> Node<M, S> {
    /// The node's id.
    pub fn id(&self) -> u64
        ensures { result ≡ self.now.groups.id }
    {
        self.groups.id
    }

    /// Whether an event has stopped.
    pub fn has_failed(&self) -> bool
        ensures { result ≡ self.now.groups.has_failed }
    {
        self.groups.has_failed
    }

    /// The groups that are there, rising (own). It fails for want of memory alone.
    pub fn groups(&self) -> Result<Vec<u64>, AllocError>
        ensures failed { self.now.groups.has_failed ≡ true → IfOk result (λ groups. groups.items ≡ []) }
        ensures rising { self.now.groups.has_failed ≡ false → IfOk result (λ groups. IsStrictlySortedBy nat_cmp groups.items) }
        ensures exactly { (group : ℕ) → self.now.groups.has_failed ≡ false
            → IfOk result (λ groups. is_member (eq_by_cmp nat_cmp) groups.items group ≡ is_some (get nat_cmp self.now.groups.members group)) }
    {
        if self.groups.has_failed {
            return Ok(Vec::new(self.alloc));
        }
        groups_of(self.alloc, &self.groups.members)
    }

    // The engine of a group that is there, in a node that hasn't failed.
    fn going_engine(&self, group: u64) -> Option<&Engine<ByteGroup>>
        ensures failed { self.now.groups.has_failed ≡ true → option_copied result ≡ None }
        ensures going { self.now.groups.has_failed ≡ false
            → option_copied result ≡ option_and_then (λ m. m.engine) (get nat_cmp self.now.groups.members group) }
    {
        if self.groups.has_failed {
            return None;
        }
        self.engine(group)
    }

    // What is applied of a group that is there, in a node that hasn't failed.
    fn going_applier(&self, group: u64) -> Option<&Applier<M>>
        ensures failed { self.now.groups.has_failed ≡ true → result ≡ None }
        ensures going { self.now.groups.has_failed ≡ false → option_copied result ≡ applier_in self.now.machines group }
    {
        if self.groups.has_failed {
            return None;
        }
        self.applier(group)
    }

    /// What part the node plays in the group.
    pub fn role(&self, group: u64) -> Option<ServerState>
        ensures { TellsOf (value_of M.state S.is_well S.shows S.fails self.now) group result
            (λ s. Some (part_in s.role (is_voter_in (membership_in_force s.stored) self.now.groups.id))) }
    {
        Some(part_of(self.going_engine(group)?))
    }

    /// The group's leader, as far as this node knows: the node of its vote, once that is committed.
    pub fn leader(&self, group: u64) -> Option<u64>
        ensures { TellsOf (value_of M.state S.is_well S.shows S.fails self.now) group result (λ s. known_leader s.stored.vote) }
    {
        let vote = self.going_engine(group)?.state.state.vote.get();
        vote.committed.then_some(vote.leader_id.node_id)
    }

    /// The vote that the node has stored for the group: its term, whose it is, and whether a quorum
    /// granted it (openraft's `Vote`).
    pub fn vote(&self, group: u64) -> Option<Vote<u64>>
        ensures { TellsOf (value_of M.state S.is_well S.shows S.fails self.now) group result (λ s. Some s.stored.vote) }
    {
        Some(*self.going_engine(group)?.state.state.vote.get())
    }

    /// The last log id of the group that this node knows to be committed; none since an opening until
    /// a leader tells it (openraft's `committed`).
    pub fn committed(&self, group: u64) -> Option<LogId<u64>>
        ensures { TellsOf (value_of M.state S.is_well S.shows S.fails self.now) group result committed_id }
    {
        self.going_engine(group)?.state.state.committed().copied()
    }

    /// The last place that the group's machine has run; none where it has run none.
    pub fn applied(&self, group: u64) -> Option<u64>
        ensures failed { self.now.groups.has_failed ≡ true → result ≡ None }
        ensures going { self.now.groups.has_failed ≡ false → result ≡ place_in (running_in M.state self.now.machines group) }
    {
        Some(self.going_applier(group)?.applied.last?.index)
    }

    /// The group's machine, lent.
    pub fn machine(&self, group: u64) -> Option<&M>
        ensures failed { self.now.groups.has_failed ≡ true → result ≡ None }
        ensures going { self.now.groups.has_failed ≡ false
            → option_map M.state (option_copied result) ≡ machine_in (running_in M.state self.now.machines group) }
    {
        Some(&self.going_applier(group)?.machine)
    }

    /// The log id of the last entry of the group's log, purged or not.
    pub fn last_log_id(&self, group: u64) -> Option<LogId<u64>>
        ensures { TellsOf (value_of M.state S.is_well S.shows S.fails self.now) group result (λ s. last_id s.stored) }
    {
        self.going_engine(group)?.state.last_log_id()
    }

    /// The log id that the next entry of a group gets which the node leads.
    pub fn next_log_id(&self, group: u64) -> Option<LogId<u64>>
        ensures failed { self.now.groups.has_failed ≡ true → result ≡ None }
        ensures absent { get nat_cmp self.now.groups.members group ≡ None → result ≡ None }
        ensures up { (s : GroupState) → self.now.groups.has_failed ≡ false
            → Stands (value_of M.state S.is_well S.shows S.fails self.now).groups group (Up s) → end_place s.stored < 2 ^ 64 → result ≡ next_entry_id s }
    {
        let engine = self.going_engine(group)?;
        let facts = facts_of(self.groups.id, engine);
        if !facts.is_leader {
            return None;
        }
        Some(LogId {
            leader_id: facts.vote.leader_id,
            index: facts.end,
        })
    }

    /// The membership in force with its addresses, lent, committed or not, with the log id of its
    /// entry (own); none where no entry has one.
    pub fn membership(&self, group: u64) -> Option<&EffectiveMembership<u64, BasicNode>>
        ensures { TellsOf (value_of M.state S.is_well S.shows S.fails self.now) group (option_copied result)
            (λ s. option_map logged_as_effective (membership_in_force s.stored)) }
    {
        self.going_engine(group)?.state.membership()
    }

    /// The moment, in ticks, at which the group's vote was stored or last renewed since the opening:
    /// by an own election, a granted vote, or a leader that was heard of (own).
    pub fn renewed(&self, group: u64) -> Option<u64>
        ensures { TellsOf (value_of M.state S.is_well S.shows S.fails self.now) group result (λ s. s.renewed) }
    {
        self.going_engine(group)?.state.state.vote.utime()
    }

    /// The first moment, in ticks, from which on an election of the group may be asked for (own): the
    /// lease of a committed vote is over then, as far as this node has heard of its leader, so this
    /// node would grant another its vote, too. None where 64 bits have no such moment.
    pub fn may_elect_from(&self, group: u64) -> Option<u64>
        ensures moment { TellsOf (value_of M.state S.is_well S.shows S.fails self.now) group result (λ s. moment_of (free_from s)) }
        ensures lease { (s : GroupState) (now : ℕ) → is_under_lease (record s { now = now }) ≡ nat_lt now (free_from s) }
    {
        free_moment(self.going_engine(group)?)
    }

    /// The last log id that the group's snapshot covers (own).
    pub fn snapshot_last(&self, group: u64) -> Option<LogId<u64>>
        ensures { TellsOf (value_of M.state S.is_well S.shows S.fails self.now) group result (λ s. snapshot_last s.stored) }
    {
        self.going_engine(group)?
            .state
            .state
            .snapshot_meta
            .last_log_id
    }

    /// The last log id that is purged of the group's log (own).
    pub fn last_purged_log_id(&self, group: u64) -> Option<LogId<u64>>
        ensures { TellsOf (value_of M.state S.is_well S.shows S.fails self.now) group result (λ s. s.stored.purged) }
    {
        self.going_engine(group)?
            .state
            .state
            .last_purged_log_id()
            .copied()
    }

    /// What the node has that leads the group: its vote, the end of its log, and what it took over (own).
    /// None where the node doesn't lead it.
    pub fn leading(&self, group: u64) -> Option<Leading>
        ensures { TellsOf (value_of M.state S.is_well S.shows S.fails self.now) group result (λ s. leading_of s) }
    {
        leading_by(self.going_engine(group)?)
    }

    /// Whether the node leads the group and waits for the peer's answer to a request (own). What is
    /// lost of it, `lost` tells the node.
    pub fn is_waiting_for(&self, group: u64, peer: u64) -> bool
        ensures failed { self.now.groups.has_failed ≡ true → result ≡ false }
        ensures absent { get nat_cmp self.now.groups.members group ≡ None → result ≡ false }
        ensures up { (s : GroupState) → self.now.groups.has_failed ≡ false
            → Stands (value_of M.state S.is_well S.shows S.fails self.now).groups group (Up s)
            → result ≡ is_some (outstanding_to peer s.role) }
    {
        match self.going_engine(group) {
            Some(engine) => is_waiting(engine, peer),
            None => false,
        }
    }

    /// The last log id of the leader's log that the peer is known to have (openraft's `matching`);
    /// none where the node doesn't lead the group, or knows of none.
    pub fn matched(&self, group: u64, peer: u64) -> Option<LogId<u64>>
        ensures { TellsOf (value_of M.state S.is_well S.shows S.fails self.now) group result (λ s. matched_by peer s.role) }
    {
        matching_of(self.going_engine(group)?, peer)
    }
}
