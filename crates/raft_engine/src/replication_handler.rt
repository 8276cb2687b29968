//! Replication: what a leader sends to its peers, and what it learns from them.
ghost use Rattle.std.specs.Prelude.{◌≡◌, ◌↔◌, ℕ, ◌+◌, ◌-◌, ◌*◌, ◌/◌, ◌^◌, ◌<◌, ◌≤◌, IsTrue, min, nat_le, true, take, drop, length, OnOk, Some};
ghost use Rattle.std.specs.List.{list_all};
ghost use Rattle.raft_values.specs.LogId.{next_place};
ghost use Rattle.raft_log_ids.specs.LogIdList.{last_id};
ghost use Rattle.raft_group_step.specs.Values.{has_id};
ghost use Rattle.raft_group_step.specs.StoredGroup.{StoredGroup, end_place, first_place, id_before, membership_in_force, snapshot_last};
ghost use Rattle.raft_group_step.specs.Message.{Numbered, last_sent, request_id_eq};
ghost use Rattle.raft_group_step.specs.Peer.{is_answer_to, is_kept_for_peers, needs_below};
ghost use Rattle.raft_group_step.specs.GroupState.{GroupState, Lead, Leader as LeaderRole};
ghost use Rattle.raft_group_step.specs.StepResult.{StepResult, send};
ghost use Rattle.raft_group_step.specs.Lead.{commit_as_leader, ids_of, other_ids, peer_of, purge_as_wished};
ghost use Rattle.raft_group_step.specs.Frames.{entries_in_request, has_grown, lacks_entries, notice, request_start, send_request, serve_all, serve_as, with_frames};
ghost use Rattle.raft_group_step.specs.Heartbeat.{beat_as, send_notices};
ghost use Rattle.raft_group_step.specs.Reply.{accepted_up_to, after_answer, answered, reply_step};
ghost use Rattle.raft_group_step.specs.Lost.{lost_as};
ghost use Rattle.raft_known_state.specs.KnownState.{IsPlaced, Knows};
ghost use Rattle.raft_engine.specs.Clock.{KeepsHeard};
ghost use Rattle.raft_engine.specs.Commands.{number_of};
ghost use Rattle.raft_messages.specs.Messages.{outcome_of};
ghost use Rattle.raft_engine.specs.Standing.{Given, IsStateOf, IsStepOf, IsWholeStepOf, outstanding_of, peer_state};
ghost use Rattle.raft_engine.specs.Sending.{HasPeer, HasRoomFor, reply_of, request_for, with_known};

use crate::engine::Engine;
use raft_commands::{Caller, Command, RaftTypeConfig};
use raft_group_step::{AppendEntriesResponse, RequestId};
use raft_progress::{Inflight, ProgressEntry};
use raft_state::{BasicNode, Bytes, LogId, LogIdOptionExt, LogIdRange};
use std::alloc::AllocError;

// The place after the log id, or the greatest number if that is less.
pub(crate) fn place_after(log_id: &Option<LogId<u64>>) -> u64
    ensures { result ≡ min (next_place log_id.now) (2 ^ 64 - 1) }
{
    match log_id {
        None => 0,
        Some(log_id) => log_id.index.saturating_add(1),
    }
}

// Halfway from one place to another that isn't below it, by eights.
fn halfway(next: u64, search: u64) -> u64
    ensures { result ≡ next + (search - next) / 16 * 8 }
{
    next + search.saturating_sub(next) / 16 * 8
}

// Whether the committed place is past the one before.
fn has_grown(before: Option<u64>, committed: Option<u64>) -> bool
    ensures { result ≡ has_grown before committed }
{
    match (before, committed) {
        (_, None) => false,
        (None, Some(_)) => true,
        (Some(before), Some(committed)) => before < committed,
    }
}

// Whether this is the number.
fn has_number(id: &RequestId, number: u64) -> bool
    ensures { result ≡ request_id_eq (number_of id.now) (Numbered number) }
{
    match id {
        RequestId::HeartBeat => false,
        RequestId::AppendEntries { id } | RequestId::Snapshot { id } => *id == number,
    }
}

// Whether the reply repeats the number and both log ids of the request that is on its way.
pub(crate) fn is_answer_to(inflight: &Inflight<u64>, reply: &Caller<u64>) -> bool
    ensures { (outcome : _) → result ≡ is_answer_to (reply_of reply.now outcome) (outstanding_of inflight.now) }
{
    match inflight {
        Inflight::None => false,
        Inflight::Logs { id, log_id_range } => {
            has_number(&reply.id, *id)
                && reply.previous == log_id_range.prev
                && reply.last == log_id_range.last
        }
        Inflight::Snapshot { id, last_log_id } => {
            has_number(&reply.id, *id) && reply.previous.is_none() && reply.last == *last_log_id
        }
    }
}

// Whether the place is above what the peer's log is known to have.
fn is_unknown(entry: &ProgressEntry<u64>, place: u64) -> bool
    ensures { IsTrue result ↔ (next_place entry.now.matching ≤ place) }
{
    match entry.matching {
        None => true,
        Some(matching) => matching.index < place,
    }
}

// Whether the first log id stands no further than the second; none stands before all.
fn is_at_most(id: &Option<LogId<u64>>, other: &Option<LogId<u64>>) -> bool
    ensures { result ≡ nat_le (next_place id.now) (next_place other.now) }
{
    match (id, other) {
        (None, _) => true,
        (Some(_), None) => false,
        (Some(id), Some(other)) => id.index <= other.index,
    }
}

// What is known of the peer once it has accepted all up to this log id.
fn accepted_up_to(entry: &ProgressEntry<u64>, last: Option<LogId<u64>>) -> ProgressEntry<u64>
    ensures { (n : ℕ) → next_place last < 2 ^ 64 → peer_state n result ≡ accepted_up_to last (peer_state n entry.now) }
{
    let mut entry = *entry;
    entry.inflight = Inflight::None;
    entry.matching = last;
    entry.searching_end = entry.searching_end.max(place_after(&last));
    entry
}

// What is known of the peer after an answer to its request.
fn after_answer(
    entry: &ProgressEntry<u64>,
    reply: &Caller<u64>,
    outcome: &AppendEntriesResponse<u64>,
) -> ProgressEntry<u64>
    ensures { (n : ℕ) → next_place reply.now.last < 2 ^ 64
        → peer_state n result ≡ after_answer (peer_state n entry.now) (reply_of reply.now outcome.now) (outcome_of outcome.now) }
{
    let mut after = *entry;
    after.inflight = Inflight::None;
    match outcome {
        AppendEntriesResponse::Success => return accepted_up_to(entry, reply.last),
        AppendEntriesResponse::PartialSuccess(last) => {
            if is_at_most(&entry.matching, last) && is_at_most(last, &reply.last) {
                return accepted_up_to(entry, *last);
            }
        }
        AppendEntriesResponse::Conflict => {
            if let Some(previous) = reply.previous
                && is_unknown(&after, previous.index)
            {
                after.searching_end = previous.index;
            }
        }
        AppendEntriesResponse::HigherVote(_) => {}
    }
    after
}

// Whether an append request is on its way whose previous place is below this one, or none.
fn needs_below(place: u64, inflight: &Inflight<u64>) -> bool
    ensures { result ≡ needs_below place (outstanding_of inflight.now) }
{
    match inflight {
        Inflight::None | Inflight::Snapshot { .. } => false,
        Inflight::Logs { log_id_range, .. } => match log_id_range.prev {
            None => true,
            Some(previous) => previous.index < place,
        },
    }
}

/// Sends to the peers of a leader, and learns from their answers (openraft).
#[derive(Drop)]
pub struct ReplicationHandler<'x, C: RaftTypeConfig> {
    pub(crate) engine: &'x mut Engine<C>,
}

impl<'x, C: RaftTypeConfig<NodeId = u64, Node = BasicNode, D = Bytes>> ReplicationHandler<'x, C> {
    /// The leader sends what an event calls for (openraft): a request to each peer that lacks entries
    /// and has none on its way, else a notice where more is committed than this place.
    pub fn initiate_replication(&mut self, committed_before: Option<u64>) -> Result<(), AllocError>
        ensures same_engine { self.new.engine.ghost_name ≡ self.old.engine.ghost_name }
        ensures step { (x : Given) (own : ℕ) (r : StepResult) → IsWholeStepOf x own self.old.engine.now r → HasRoomFor (2 ^ 63) r.state
            → OnOk result (IsWholeStepOf x own self.new.engine.now (with_frames own committed_before r)) }
    {
        self.engine.with_frames(committed_before)
    }

    /// The peer answers the request on its way at this moment, in ticks (openraft): a greater vote
    /// is taken over, then the answer counts.
    pub fn update_progress(
        &mut self,
        peer: u64,
        reply: &Caller<u64>,
        outcome: &AppendEntriesResponse<u64>,
        now: u64,
    ) -> Result<(), AllocError>
        ensures same_engine { self.new.engine.ghost_name ≡ self.old.engine.ghost_name }
        ensures step { (x : Given) (own : ℕ) (r : StepResult) → IsStepOf x own self.old.engine.now r → r.state.now ≡ now → next_place reply.now.last < 2 ^ 64
            → OnOk result (IsStepOf x own self.new.engine.now (reply_step peer (reply_of reply.now outcome.now) r)) }
    {
        self.engine.answered(peer, reply, outcome, now)
    }

    /// The request on its way to the peer counts as failed (own).
    pub fn reset_inflight(&mut self, peer: u64)
        ensures same_engine { self.new.engine.ghost_name ≡ self.old.engine.ghost_name }
        ensures step { (x : Given) (own : ℕ) (r : StepResult) → IsStepOf x own self.old.engine.now r → IsStepOf x own self.new.engine.now (lost_as peer r.state.role r) }
    {
        self.engine.lost(peer);
    }

    /// The greatest place that a quorum has accepted is committed (openraft), if it is above what is.
    pub fn try_commit_quorum_accepted(&mut self) -> Result<(), AllocError>
        requires { next_place (last_id self.old.engine.now.state.state.log_ids) < 2 ^ 63 }
        ensures same_engine { self.new.engine.ghost_name ≡ self.old.engine.ghost_name }
        ensures step { (x : Given) (own : ℕ) (r : StepResult) → IsStepOf x own self.old.engine.now r
            → OnOk result (IsStepOf x own self.new.engine.now (commit_as_leader own r.state.role r)) }
    {
        self.engine.commit_as_leader()
    }

    /// What the leader is still to purge goes (openraft), once no request needs it.
    pub fn try_purge_log(&mut self) -> Result<(), AllocError>
        ensures same_engine { self.new.engine.ghost_name ≡ self.old.engine.ghost_name }
        ensures step { (x : Given) (own : ℕ) (r : StepResult) → IsStepOf x own self.old.engine.now r → end_place r.state.stored < 2 ^ 64
            → ((place : ℕ) → r.state.wish ≡ Some place → place < next_place (snapshot_last r.state.stored))
            → OnOk result (IsStepOf x own self.new.engine.now (purge_as_wished r.state.role r.state.wish r)) }
    {
        self.engine.purge_as_wished()
    }
}

impl<C: RaftTypeConfig<NodeId = u64, Node = BasicNode, D = Bytes>> Engine<C> {
    // The log id before the place.
    fn id_before(&self, place: u64) -> Option<LogId<u64>>
        ensures { (s : StoredGroup) → Knows self.now.state s → IsPlaced s → result ≡ id_before s place }
    {
        if place == 0 {
            return None;
        }
        self.state.get_log_id(place - 1)
    }

    // The place after the log's last entry.
    fn log_end(&self) -> u64
        ensures { (s : StoredGroup) → Knows self.now.state s → IsPlaced s → end_place s < 2 ^ 64 → result ≡ end_place s }
    {
        place_after(&self.state.last_log_id())
    }

    // Whether the peer hasn't accepted all entries.
    fn lacks_entries(&self, entry: &ProgressEntry<u64>) -> bool
        ensures { (s : StoredGroup) (n : ℕ) → Knows self.now.state s → IsPlaced s → end_place s < 2 ^ 64
            → result ≡ lacks_entries s (peer_state n entry.now) }
    {
        place_after(&entry.matching) < self.log_end()
    }

    // Where the next request to the peer begins.
    fn request_start(&self, entry: &ProgressEntry<u64>) -> u64
        ensures { (s : StoredGroup) (n : ℕ) → Knows self.now.state s → next_place entry.now.matching < 2 ^ 64
            → result ≡ request_start s (peer_state n entry.now) }
    {
        let next = place_after(&entry.matching);
        self.state
            .first_place()
            .max(halfway(next, entry.searching_end))
    }

    // The log ids before and at the end of a request that begins at the place.
    fn log_id_range(&self, start: u64) -> LogIdRange<u64>
        ensures { (own : ℕ) (s : GroupState) → IsStateOf own self.now s → end_place s.stored < 2 ^ 64 → first_place s.stored ≤ start
            → result ≡ record { prev = id_before s.stored start; last = last_sent (id_before s.stored start) (take entries_in_request (drop (start - first_place s.stored) s.stored.log)) } }
    {
        let prev = self.id_before(start);
        let stop = start
            .saturating_add(self.config.max_payload_entries)
            .min(self.log_end());
        let last = if start < stop {
            self.id_before(stop)
        } else {
            prev
        };
        LogIdRange::new(prev, last)
    }

    // What goes to the peer next.
    fn next_request(&self, entry: &ProgressEntry<u64>) -> Inflight<u64>
        ensures { (own n : ℕ) (s : GroupState) → IsStateOf own self.now s → end_place s.stored < 2 ^ 64
            → next_place entry.now.matching < 2 ^ 64 → entry.now.curr_inflight_id + 1 < 2 ^ 64
            → result ≡ request_for s.stored (peer_state n entry.now) s.stored.snapshot }
    {
        let id = entry.curr_inflight_id.saturating_add(1);
        let last_log_id = self.state.state.snapshot_meta.last_log_id;
        if last_log_id.is_some() && entry.searching_end < self.state.first_place() {
            return Inflight::Snapshot { id, last_log_id };
        }
        let log_id_range = self.log_id_range(self.request_start(entry));
        Inflight::Logs { id, log_id_range }
    }

    // This is known of the peer from now on, if the leader keeps something of it. Answers whether it
    // does, as of each member, and of each peer that a request is on its way to.
    fn set_peer(&mut self, n: u64, entry: ProgressEntry<u64>) -> bool
        ensures there { (own : ℕ) (s : GroupState) (lead : Lead) → IsStateOf own self.old s → s.role ≡ LeaderRole lead → HasPeer n self.old.leader → result ≡ true }
        ensures known { (own : ℕ) (s : GroupState) (lead : Lead) → IsStateOf own self.old s → s.role ≡ LeaderRole lead → HasPeer n self.old.leader
            → IsStateOf own self.new (with_known (peer_state n entry) lead s) }
        ensures rest { (self.new.output ≡ self.old.output) × (self.new.seen_greater_log ≡ self.old.seen_greater_log) }
        ensures same { self.new.state ≡ self.old.state }
        ensures heard { KeepsHeard self.old.leader self.new.leader }
    {
        let Some(leader) = &mut self.leader else {
            return false;
        };
        leader.set_peer(&n, entry)
    }

    // The peer gets its next request.
    fn send_request(&mut self, n: u64, entry: &ProgressEntry<u64>) -> Result<(), AllocError>
        ensures heard { OnOk result (KeepsHeard self.old.leader self.new.leader) }
        ensures step { (x : Given) (own : ℕ) (r : StepResult) (lead : Lead) → IsWholeStepOf x own self.old r → r.state.role ≡ LeaderRole lead → HasPeer n self.old.leader
            → peer_of lead n ≡ peer_state n entry.now → HasRoomFor 1 r.state → next_place entry.now.matching < 2 ^ 64
            → OnOk result (IsWholeStepOf x own self.new (send_request own (peer_of lead n) lead r.state.stored.snapshot r)) }
    {
        let req = self.next_request(entry);
        let mut sent = *entry;
        sent.curr_inflight_id = entry.curr_inflight_id.saturating_add(1);
        sent.inflight = req;
        // A request whose number can't be noted isn't sent.
        if !self.set_peer(n, sent) {
            return Ok(());
        }
        self.output
            .push_command(Command::Replicate { target: n, req })
    }

    // The peer is told how far is committed.
    fn send_notice(&mut self, n: u64, entry: &ProgressEntry<u64>) -> Result<(), AllocError>
        ensures leader { self.new.leader ≡ self.old.leader }
        ensures step { (x : Given) (own : ℕ) (r : StepResult) (lead : Lead) → IsStepOf x own self.old r → peer_of lead n ≡ peer_state n entry.now
            → OnOk result (IsStepOf x own self.new (send own n (notice r.state (peer_of lead n)) r)) }
        ensures whole { (x : Given) (own : ℕ) (r : StepResult) (lead : Lead) → IsWholeStepOf x own self.old r → peer_of lead n ≡ peer_state n entry.now
            → OnOk result (IsWholeStepOf x own self.new (send own n (notice r.state (peer_of lead n)) r)) }
    {
        self.output.push_command(Command::ReplicateCommitted {
            target: n,
            vote: *self.state.state.vote_ref(),
            matching: entry.matching,
            committed: self.state.state.committed,
        })
    }

    // A leader sends a request to the member if none is on its way and entries are lacking, else a
    // notice if there is news.
    fn serve(&mut self, n: u64, has_news: bool) -> Result<(), AllocError>
        ensures heard { OnOk result (KeepsHeard self.old.leader self.new.leader) }
        ensures step { (x : Given) (own : ℕ) (r : StepResult) → IsWholeStepOf x own self.old r → has_id (ids_of (membership_in_force r.state.stored)) n ≡ true
            → HasRoomFor 1 r.state → OnOk result (IsWholeStepOf x own self.new (serve_as own has_news n r.state.role r)) }
    {
        let Some(leader) = &self.leader else {
            return Ok(());
        };
        let entry = leader.peer(&n);
        if entry.inflight.is_none() && self.lacks_entries(&entry) {
            return self.send_request(n, &entry);
        }
        if has_news {
            return self.send_notice(n, &entry);
        }
        Ok(())
    }

    // A leader serves these members in turn.
    fn serve_all(&mut self, ids: &[u64], has_news: bool) -> Result<(), AllocError>
        ensures heard { OnOk result (KeepsHeard self.old.leader self.new.leader) }
        ensures step { (x : Given) (own : ℕ) (r : StepResult) → IsWholeStepOf x own self.old r
            → list_all (has_id (ids_of (membership_in_force r.state.stored))) ids.now ≡ true → HasRoomFor (2 ^ 63) r.state
            → OnOk result (IsWholeStepOf x own self.new (serve_all own has_news ids.now r)) }
    {
        for n in ids {
            self.serve(*n, has_news)?;
        }
        Ok(())
    }

    // What a leader sends when the event is over; before: what was committed as it began.
    pub(crate) fn with_frames(&mut self, before: Option<u64>) -> Result<(), AllocError>
        ensures heard { OnOk result (KeepsHeard self.old.leader self.new.leader) }
        ensures step { (x : Given) (own : ℕ) (r : StepResult) → IsWholeStepOf x own self.old r → HasRoomFor (2 ^ 63) r.state
            → OnOk result (IsWholeStepOf x own self.new (with_frames own before r)) }
    {
        if self.leader.is_none() {
            return Ok(());
        }
        let committed = self.state.state.committed.index();
        let ids = self.state.other_ids(self.alloc, self.config.id)?;
        self.serve_all(ids.as_slice(), has_grown(before, committed))
    }

    // A leader tells the node how far is committed.
    fn notice(&mut self, n: u64) -> Result<(), AllocError>
        ensures leader { self.new.leader ≡ self.old.leader }
        ensures step { (x : Given) (own : ℕ) (r : StepResult) (lead : Lead) → IsStepOf x own self.old r → r.state.role ≡ LeaderRole lead
            → OnOk result (IsStepOf x own self.new (send own n (notice r.state (peer_of lead n)) r)) }
    {
        let Some(leader) = &self.leader else {
            return Ok(());
        };
        let entry = leader.peer(&n);
        self.send_notice(n, &entry)
    }

    // A leader tells each of these nodes.
    fn send_notices(&mut self, ids: &[u64]) -> Result<(), AllocError>
        ensures leader { self.new.leader ≡ self.old.leader }
        ensures step { (x : Given) (own : ℕ) (r : StepResult) (lead : Lead) → IsStepOf x own self.old r → r.state.role ≡ LeaderRole lead
            → OnOk result (IsStepOf x own self.new (send_notices own lead ids.now r)) }
    {
        for n in ids {
            self.notice(*n)?;
        }
        Ok(())
    }

    // A leader says to every other node that it leads on.
    pub(crate) fn notices(&mut self) -> Result<(), AllocError>
        ensures leader { self.new.leader ≡ self.old.leader }
        ensures step { (x : Given) (own : ℕ) (r : StepResult) → IsStepOf x own self.old r
            → OnOk result (IsStepOf x own self.new (beat_as own r.state.role r)) }
    {
        if self.leader.is_none() {
            return Ok(());
        }
        let ids = self.state.other_ids(self.alloc, self.config.id)?;
        self.send_notices(ids.as_slice())
    }

    // An answer under the own vote to the outstanding request ends it.
    fn take_answer(&mut self, peer: u64, reply: &Caller<u64>, outcome: &AppendEntriesResponse<u64>)
        ensures heard { KeepsHeard self.old.leader self.new.leader }
        ensures step { (x : Given) (own : ℕ) (r : StepResult) → IsStepOf x own self.old r → next_place reply.now.last < 2 ^ 64
            → IsStepOf x own self.new (answered peer (reply_of reply.now outcome.now) r.state.role r) }
    {
        let Some(leader) = &self.leader else {
            return;
        };
        let entry = leader.peer(&peer);
        if reply.vote == *self.state.state.vote_ref() && is_answer_to(&entry.inflight, reply) {
            self.set_peer(peer, after_answer(&entry, reply, outcome));
        }
    }

    // A peer has answered a request: a greater vote is taken over, then the answer counts.
    pub(crate) fn answered(
        &mut self,
        peer: u64,
        reply: &Caller<u64>,
        outcome: &AppendEntriesResponse<u64>,
        now: u64,
    ) -> Result<(), AllocError>
        ensures heard { OnOk result (KeepsHeard self.old.leader self.new.leader) }
        ensures step { (x : Given) (own : ℕ) (r : StepResult) → IsStepOf x own self.old r → r.state.now ≡ now → next_place reply.now.last < 2 ^ 64
            → OnOk result (IsStepOf x own self.new (reply_step peer (reply_of reply.now outcome.now) r)) }
    {
        if let AppendEntriesResponse::HigherVote(vote) = outcome {
            self.take_over_greater(*vote, now)?;
        }
        self.take_answer(peer, reply, outcome);
        Ok(())
    }

    // The outstanding request to the peer counts as failed.
    pub(crate) fn lost(&mut self, peer: u64)
        ensures heard { KeepsHeard self.old.leader self.new.leader }
        ensures step { (x : Given) (own : ℕ) (r : StepResult) → IsStepOf x own self.old r → IsStepOf x own self.new (lost_as peer r.state.role r) }
    {
        let Some(leader) = &self.leader else {
            return;
        };
        let mut entry = leader.peer(&peer);
        if entry.inflight.is_none() {
            return;
        }
        entry.inflight = Inflight::None;
        self.set_peer(peer, entry);
    }

    // Whether an outstanding request keeps the log from being purged up to the place.
    pub(crate) fn is_kept(&self, place: u64) -> bool
        ensures { (own : ℕ) (s : GroupState) (lead : Lead) → IsStateOf own self.now s → s.role ≡ LeaderRole lead → result ≡ is_kept_for_peers place lead.peers }
    {
        let Some(leader) = &self.leader else {
            return false;
        };
        for entry in leader.progress().iter() {
            if needs_below(place, &leader.peer(&entry.0).inflight) {
                return true;
            }
        }
        false
    }
}
