//! Following: entries and places that a leader sends.
ghost use Rattle.std.specs.Prelude.{◌≡◌, ◌≢◌, ◌≤◌, ◌<◌, ◌^◌, ◌==◌, ℕ, OnOk, IfOk, Ok, Err, true, false, length, drop, nat_le, Some, None};
ghost use Rattle.raft_values.specs.LogId.{next_place, place_of};
ghost use Rattle.raft_group_step.specs.StoredGroup.{StoredGroup, end_place};
ghost use Rattle.raft_group_step.specs.GroupState.{Follower};
ghost use Rattle.raft_group_step.specs.StepResult.{StepResult, apply_up_to, is_within};
ghost use Rattle.raft_group_step.specs.Message.{AppendFields, ReplyResult};
ghost use Rattle.raft_group_step.specs.AppendRequest.{above_committed, append_request_step, cut_at, cut_from, is_held, joined, lesser_place, missing_entries, put_entries, reply_append};
ghost use Rattle.raft_group_step.specs.Refusal.{do_follow};
ghost use Rattle.raft_group_step.specs.SnapshotRequest.{install_unless};
ghost use Rattle.raft_known_state.specs.KnownState.{ArePlaced, IsPlaced, Knows, meta_of};
ghost use Rattle.raft_messages.specs.Messages.{outcome_of};
ghost use Rattle.raft_engine.specs.Clock.{KeepsHeard};
ghost use Rattle.raft_engine.specs.Numbering.{KeepsNumbers, NumbersRise};
ghost use Rattle.raft_engine.specs.Standing.{Given, IsStateOf, IsStepOf, basis_of};
ghost use Rattle.raft_engine.specs.Ordering.{OutcomeRestsOn};
ghost use Rattle.raft_engine.specs.Following.{EndsWithin, IsVoteOfAnother, SpellsAppend, SpellsAppendReply, follow_one_another, is_behind_log, join_log, unheld_entries};
ghost use Rattle.raft_engine.specs.declared.error.CallError.TheVariants.{GapInEntries as HasGap, LacksEntry as HasNone, CutsCommitted as WouldCut};
ghost use Rattle.raft_group_step.specs.GroupState.{GroupState};

use crate::engine::Engine;
use crate::error::CallError;
use crate::orders::is_lower;
use raft_commands::{Caller, Command, RaftTypeConfig, Respond, ValueSender};
use raft_group_step::{AppendEntriesRequest, AppendEntriesResponse, Entries};
use raft_known_state::KnownState;
use raft_messages::all_go_on;
use raft_state::{
    BasicNode, Bytes, Entry, LogId, LogIdOptionExt, RaftLogId, SnapshotMeta, VoteStateReader,
};
use std::alloc::AllocError;

// Whether the place is committed.
pub(crate) fn is_committed(known: &KnownState<u64, BasicNode>, place: u64) -> bool
    ensures { result ≡ is_within place (place_of known.now.state.committed) }
{
    match known.state.committed {
        None => false,
        Some(committed) => place <= committed.index,
    }
}

// Whether the log has the entries up to this log id: there is none, it is committed, or in the log.
fn is_held(known: &KnownState<u64, BasicNode>, previous: Option<LogId<u64>>) -> bool
    ensures { (s : StoredGroup) → Knows known.now s → IsPlaced s → result ≡ is_held s (place_of known.now.state.committed) previous }
{
    match previous {
        None => true,
        Some(previous) => is_committed(known, previous.index) || known.has_log_id(&previous),
    }
}

// How many of the entries, from the first one on, are committed or in the log.
fn count_held(known: &KnownState<u64, BasicNode>, entries: &[Entry<u64, BasicNode, Bytes>]) -> usize
    ensures held { (s : StoredGroup) → Knows known.now s → IsPlaced s → drop result entries.now ≡ unheld_entries s (place_of known.now.state.committed) entries.now }
    ensures within { result ≤ length entries.now }
{
    for (at, entry) in entries.iter().enumerate() {
        if !is_held(known, Some(entry.log_id)) {
            return at;
        }
    }
    entries.len()
}

// Whether the place is the one behind the log id, or the first one behind none.
fn is_next(previous: &Option<LogId<u64>>, place: u64) -> bool
    ensures { result ≡ (place == next_place previous.now) }
{
    match previous {
        None => place == 0,
        Some(previous) => previous.index < place && place - previous.index == 1,
    }
}

// Whether the place is at most the one behind the log id, or the first one behind none.
fn is_at_most_next(last: &Option<LogId<u64>>, place: u64) -> bool
    ensures { result ≡ nat_le place (next_place last.now) }
{
    match last {
        None => place == 0,
        Some(last) => place.saturating_sub(1) <= last.index,
    }
}

// Whether the entries follow the log id and one another, place by place.
pub(crate) fn follow_one_another(
    previous: Option<LogId<u64>>,
    entries: &[Entry<u64, BasicNode, Bytes>],
) -> bool
    ensures { result ≡ follow_one_another previous entries.now }
{
    let mut previous = previous;
    for entry in entries {
        if !is_next(&previous, entry.log_id.index) {
            return false;
        }
        previous = Some(entry.log_id);
    }
    true
}

// Whether the entries follow one another, and the first stands at most right behind the log id.
fn join_log(last: &Option<LogId<u64>>, entries: &[Entry<u64, BasicNode, Bytes>]) -> bool
    ensures { result ≡ join_log (next_place last.now) entries.now }
{
    match entries {
        [] => true,
        [first, rest @ ..] => {
            is_at_most_next(last, first.log_id.index)
                && follow_one_another(Some(first.log_id), rest)
        }
    }
}

// Whether the place is behind the log id's, or there is none.
fn is_past(last: &Option<LogId<u64>>, place: u64) -> bool
    ensures { result ≡ nat_le (next_place last.now) place }
{
    match last {
        None => true,
        Some(last) => last.index < place,
    }
}

// The lesser of the two places, none where there is none.
fn lesser_place(a: Option<LogId<u64>>, b: Option<LogId<u64>>) -> Option<u64>
    ensures { result ≡ lesser_place (place_of a) (place_of b) }
{
    match (a, b) {
        (Some(a), Some(b)) => Some(a.index.min(b.index)),
        _ => None,
    }
}

/// Takes what a leader sends, at a node that doesn't lead (openraft).
#[derive(Drop)]
pub struct FollowingHandler<'x, C: RaftTypeConfig> {
    pub(crate) engine: &'x mut Engine<C>,
}

impl<'x, C: RaftTypeConfig<NodeId = u64, Node = BasicNode, D = Bytes>> FollowingHandler<'x, C> {
    /// The entries that the log doesn't have are appended (openraft), after the log was shortened
    /// where another entry stands; the one before them is committed or in the log. Entries that don't
    /// follow one another, or begin behind the log's end, are refused.
    pub fn append_entries(
        &mut self,
        entries: Entries<u64, BasicNode, Bytes>,
    ) -> Result<Result<(), CallError>, AllocError>
        ensures same_engine { self.new.engine.ghost_name ≡ self.old.engine.ghost_name }
        ensures gap { (own : ℕ) (s : GroupState) → IsStateOf own self.old.engine.now s → join_log (end_place s.stored) entries ≡ false
            → (result ≡ Ok (Err HasGap)) × (self.new.engine.now ≡ self.old.engine.now) }
        ensures step { (x : Given) (own : _) (r : StepResult) (vote : _) (previous : _) → IsStepOf x own self.old.engine.now r → r.state.role ≡ Follower
            → do_follow vote previous entries ≡ true → is_held r.state.stored r.state.committed previous ≡ true
            → IfOk result (λ answer. (answer ≡ Ok tt)
            × IsStepOf x own self.new.engine.now (put_entries (missing_entries r.state.stored (above_committed r.state.committed entries)) r)) }
    {
        if !self.engine.is_joined_by(entries.as_slice()) {
            return Ok(Err(CallError::GapInEntries));
        }
        self.engine.put_missing(entries)?;
        Ok(Ok(()))
    }

    /// All up to the place is committed (openraft), if it is above what is. A place behind the log's
    /// end is refused.
    pub fn commit_entries(
        &mut self,
        leader_committed: Option<u64>,
    ) -> Result<Result<(), CallError>, AllocError>
        ensures same_engine { self.new.engine.ghost_name ≡ self.old.engine.ghost_name }
        ensures lacks { (own place : ℕ) (s : GroupState) → IsStateOf own self.old.engine.now s → leader_committed ≡ Some place → end_place s.stored ≤ place
            → (result ≡ Ok (Err HasNone)) × (self.new.engine.now ≡ self.old.engine.now) }
        ensures numbers { OnOk result (NumbersRise self.old.engine.now.output self.new.engine.now.output) }
        ensures step { (x : Given) (own : _) (r : StepResult) → IsStepOf x own self.old.engine.now r → EndsWithin leader_committed r.state.stored
            → IfOk result (λ answer. (answer ≡ Ok tt) × IsStepOf x own self.new.engine.now (apply_up_to leader_committed r)) }
    {
        if self.engine.ends_before(leader_committed) {
            return Ok(Err(CallError::LacksEntry));
        }
        self.engine.commit_up_to(leader_committed)?;
        Ok(Ok(()))
    }

    /// The log is shortened from the place on (openraft), where it has an entry there. A place that
    /// is committed is refused.
    pub fn truncate_logs(&mut self, since: u64) -> Result<Result<(), CallError>, AllocError>
        ensures same_engine { self.new.engine.ghost_name ≡ self.old.engine.ghost_name }
        ensures committed { is_within since (place_of self.old.engine.now.state.state.committed) ≡ true
            → (result ≡ Ok (Err WouldCut)) × (self.new.engine.now ≡ self.old.engine.now) }
        ensures step { (x : Given) (own : _) (r : StepResult) → IsStepOf x own self.old.engine.now r → r.state.role ≡ Follower
            → is_within since r.state.committed ≡ false → IfOk result (λ answer. (answer ≡ Ok tt) × IsStepOf x own self.new.engine.now (cut_from since r)) }
    {
        if is_committed(&self.engine.state, since) {
            return Ok(Err(CallError::CutsCommitted));
        }
        self.engine.cut_from(since)?;
        Ok(Ok(()))
    }

    /// The snapshot is installed (openraft), unless all of it is committed; the log that it covers
    /// goes.
    pub fn install_full_snapshot(
        &mut self,
        meta: SnapshotMeta<u64, BasicNode>,
    ) -> Result<(), AllocError>
        requires { next_place meta.last_log_id < 2 ^ 64 }
        ensures same_engine { self.new.engine.ghost_name ≡ self.old.engine.ghost_name }
        ensures numbers { OnOk result (NumbersRise self.old.engine.now.output self.new.engine.now.output) }
        ensures step { (x : Given) (own : _) (r : StepResult) → IsStepOf x own self.old.engine.now r → r.state.role ≡ Follower → meta ≡ meta_of (Some x.snapshot)
            → OnOk result (IsStepOf x own self.new.engine.now (install_unless (is_within x.snapshot.last.index r.state.committed) x.snapshot r)) }
    {
        self.engine.install(meta)
    }
}

impl<C: RaftTypeConfig<NodeId = u64, Node = BasicNode, D = Bytes>> Engine<C> {
    // Whether the entries follow one another, and begin in the log or right behind it.
    fn is_joined_by(&self, entries: &[Entry<u64, BasicNode, Bytes>]) -> bool
        ensures { (s : StoredGroup) → Knows self.now.state s → IsPlaced s → result ≡ join_log (end_place s) entries.now }
    {
        join_log(&self.state.last_log_id(), entries)
    }

    // Whether the log ends before the place, if there is one.
    fn ends_before(&self, place: Option<u64>) -> bool
        ensures { (s : StoredGroup) → Knows self.now.state s → IsPlaced s → result ≡ is_behind_log (end_place s) place }
    {
        match place {
            None => false,
            Some(place) => is_past(&self.state.last_log_id(), place),
        }
    }

    // All up to the place is committed, if it is above what is.
    pub(crate) fn commit_up_to(&mut self, place: Option<u64>) -> Result<(), AllocError>
        ensures leader { self.new.leader ≡ self.old.leader }
        ensures numbers { OnOk result (NumbersRise self.old.output self.new.output) }
        ensures step { (x : Given) (own : _) (r : StepResult) → IsStepOf x own self.old r → EndsWithin place r.state.stored
            → OnOk result (IsStepOf x own self.new (apply_up_to place r)) }
    {
        let Some(place) = place else {
            return Ok(());
        };
        if is_committed(&self.state, place) {
            return Ok(());
        }
        let Some(upto) = self.state.get_log_id(place) else {
            return Ok(());
        };
        let already_committed = self.state.state.committed;
        self.state.commit(Some(upto))?;
        let seq = self.output.next_sm_seq();
        self.output.push_command(Command::Commit {
            seq,
            already_committed,
            upto,
        })
    }

    // The log is shortened from the place on, where it has an entry there.
    pub(crate) fn cut_from(&mut self, place: u64) -> Result<(), AllocError>
        ensures leader { self.new.leader ≡ self.old.leader }
        ensures numbers { OnOk result (KeepsNumbers self.old.output self.new.output) }
        ensures step { (x : Given) (own : _) (r : StepResult) → IsStepOf x own self.old r → r.state.role ≡ Follower
            → is_within place r.state.committed ≡ false → OnOk result (IsStepOf x own self.new (cut_from place r)) }
    {
        let Some(since) = self.state.get_log_id(place) else {
            return Ok(());
        };
        self.state.truncate(place)?;
        self.output
            .push_command(Command::DeleteConflictLog { since })
    }

    // The log is shortened from this log id on, where it has an entry at its place.
    fn cut_at(&mut self, previous: Option<LogId<u64>>) -> Result<(), AllocError>
        ensures leader { self.new.leader ≡ self.old.leader }
        ensures step { (x : Given) (own : _) (r : StepResult) → IsStepOf x own self.old r → r.state.role ≡ Follower
            → is_held r.state.stored r.state.committed previous ≡ false → OnOk result (IsStepOf x own self.new (cut_at previous r)) }
    {
        match previous {
            None => Ok(()),
            Some(previous) => self.cut_from(previous.index),
        }
    }

    // The entries are appended under the vote in force, after the log was shortened where another
    // entry stands. Entries that don't go on behind the log are left out; such a request is refused before.
    pub(crate) fn put_entries(
        &mut self,
        entries: Entries<u64, BasicNode, Bytes>,
    ) -> Result<(), AllocError>
        ensures leader { self.new.leader ≡ self.old.leader }
        ensures step { (x : Given) (own : _) (r : StepResult) (place : ℕ) → IsStepOf x own self.old r → r.state.role ≡ Follower
            → ArePlaced place entries → is_within place r.state.committed ≡ false → place ≤ end_place r.state.stored
            → OnOk result (IsStepOf x own self.new (put_entries entries r)) }
    {
        let Some(first) = entries.as_slice().first() else {
            return Ok(());
        };
        self.cut_from(first.log_id.index)?;
        let last = self.state.state.log_ids.last().copied();
        if !all_go_on(last, entries.as_slice()) {
            return Ok(());
        }
        self.state.append(entries.as_slice())?;
        let vote = *self.state.state.vote_ref();
        self.output
            .push_command(Command::AppendInputEntries { vote, entries })
    }

    // The entries from the first one on that the log doesn't have are appended.
    fn put_missing(&mut self, entries: Entries<u64, BasicNode, Bytes>) -> Result<(), AllocError>
        ensures leader { self.new.leader ≡ self.old.leader }
        ensures step { (x : Given) (own : _) (r : StepResult) (vote : _) (previous : _) → IsStepOf x own self.old r → r.state.role ≡ Follower
            → do_follow vote previous entries ≡ true → is_held r.state.stored r.state.committed previous ≡ true
            → OnOk result (IsStepOf x own self.new (put_entries (missing_entries r.state.stored (above_committed r.state.committed entries)) r)) }
    {
        let mut missing = entries;
        let held = count_held(&self.state, missing.as_slice());
        missing.drop_first(held);
        self.put_entries(missing)
    }

    // The leader gets this answer.
    fn answer_append(
        &mut self,
        resp: AppendEntriesResponse<u64>,
        tx: Caller<u64>,
    ) -> Result<(), AllocError>
        ensures leader { self.new.leader ≡ self.old.leader }
        ensures step { (x : Given) (own : _) (r : StepResult) (m : AppendFields) → IsStepOf x own self.old r → SpellsAppendReply tx m → OutcomeRestsOn (basis_of self.old r.state) tx resp
            → OnOk result (IsStepOf x own self.new (reply_append own tx.peer m (outcome_of resp) r)) }
    {
        let resp = Respond::AppendEntries(ValueSender::new(resp, tx));
        self.output
            .push_command(Command::Respond { when: None, resp })
    }

    // The entries follow what the log has, or they don't.
    fn join_entries(
        &mut self,
        req: AppendEntriesRequest<u64, BasicNode, Bytes>,
        tx: Caller<u64>,
    ) -> Result<(), AllocError>
        ensures leader { self.new.leader ≡ self.old.leader }
        ensures step { (x : Given) (own : _) (r : StepResult) (m : AppendFields) → IsStepOf x own self.old r → r.state.role ≡ Follower
            → r.state.stored.vote ≡ m.vote → SpellsAppend req m → SpellsAppendReply tx m → do_follow m.vote m.previous m.entries ≡ true
            → OnOk result (IsStepOf x own self.new (joined own tx.peer m (is_held r.state.stored r.state.committed m.previous) r)) }
    {
        if !is_held(&self.state, req.prev_log_id) {
            self.cut_at(req.prev_log_id)?;
            return self.answer_append(AppendEntriesResponse::Conflict, tx);
        }
        self.put_missing(req.entries)?;
        self.commit_up_to(lesser_place(req.leader_commit, tx.last))?;
        self.answer_append(AppendEntriesResponse::Success, tx)
    }

    // A leader sends entries, or says what is committed, and is answered. Its vote is committed,
    // and of another node.
    pub(crate) fn append_request(
        &mut self,
        req: AppendEntriesRequest<u64, BasicNode, Bytes>,
        tx: Caller<u64>,
        now: u64,
    ) -> Result<(), AllocError>
        ensures heard { OnOk result (KeepsHeard self.old.leader self.new.leader) }
        ensures step { (x : Given) (own : _) (r : StepResult) (m : AppendFields) → IsStepOf x own self.old r → r.state.now ≡ now
            → SpellsAppend req m → SpellsAppendReply tx m → IsVoteOfAnother own m.vote → do_follow m.vote m.previous m.entries ≡ true
            → OnOk result (IsStepOf x own self.new (append_request_step own tx.peer m r)) }
    {
        let mine = *self.state.state.vote_ref();
        let is_lower = is_lower(&req.vote, &mine);
        if is_lower {
            return self.answer_append(AppendEntriesResponse::HigherVote(mine), tx);
        }
        self.take_over(req.vote, now)?;
        self.join_entries(req, tx)
    }
}
