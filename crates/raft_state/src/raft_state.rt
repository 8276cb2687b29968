//! What a node knows of its group.
ghost use Rattle.std.specs.Prelude.{◌≡◌, ◌↔◌, ◌+◌, ◌<◌, ◌^◌, ◌&&◌, true, false, IsTrue, [], None, Some, map, if◌then◌else◌, IfOk, OnOk, OnErr, IfErr};
ghost use Rattle.std.specs.List.{slice_get};
ghost use Rattle.std.specs.Option.{option_copied};
ghost use Rattle.raft_values.specs.LogId.{is_past};
ghost use Rattle.raft_log_ids.specs.LogIdList.{AllGoOn, HasFewerKeys, HaveOneLeader, extended, id_at, last_id, purged};
ghost use Rattle.raft_membership.specs.Membership.{is_voter};
ghost use Rattle.raft_membership.specs.MembershipState.{committed_upto};
ghost use Rattle.raft_values.specs.declared.server_state.ServerState.TheVariants.{Learner};
ghost use Rattle.raft_state.specs.State.{first_leader, no_io};
ghost use Rattle.raft_state.specs.State.{accepted_under, begins_at, first_vote, last_purged, part_of, purge_fault, state_fault};

use crate::accepted::Accepted;
use raft_log_ids::RaftLogId;
use raft_log_ids::log_id_list::LogIdList;
use raft_log_ids::log_state_reader::LogStateReader;
use raft_membership::membership_state::MembershipState;
use raft_membership::snapshot_meta::SnapshotMeta;
use raft_values::instant::Instant;
use raft_values::io_state::{IOState, LogIOId};
use raft_values::log_id::LogId;
use raft_values::log_id_option_ext::is_past;
use raft_values::node::{Node, NodeId, default_id};
use raft_values::server_state::ServerState;
use raft_values::utime::UTime;
use raft_values::validate::{Invalid, Validate};
use raft_values::vote::{LeaderId, Vote};
use raft_values::vote_state_reader::VoteStateReader;
use std::alloc::{AllocError, Global};

/// What a node knows of its group (openraft).
#[derive(Drop)]
pub struct RaftState<NID: NodeId, N: Node, I: Instant> {
    /// The vote, and when it was last renewed.
    pub vote: UTime<Vote<NID>, I>,
    /// The last log id known to be committed.
    pub committed: Option<LogId<NID>>,
    /// The place behind the last purged one; 0 where nothing was purged.
    pub purged_next: u64,
    /// The ids of the log, the last purged one with them.
    pub log_ids: LogIdList<NID>,
    /// The last committed membership, and the one in force.
    pub membership_state: MembershipState<NID, N>,
    /// What the snapshot holds.
    pub snapshot_meta: SnapshotMeta<NID, N>,
    /// What part the node plays.
    pub server_state: ServerState,
    /// What the node has accepted of a leader's log.
    pub accepted: Accepted<NID>,
    /// What has really been written and applied.
    pub io_state: IOState<NID>,
    /// Up to where the log is to be purged.
    pub purge_upto: Option<LogId<NID>>,
}

// Whether it is the vote of a node that never voted.
fn is_first_vote<NID: NodeId>(vote: &Vote<NID>) -> bool
    ensures { IsTrue result ↔ (vote.now ≡ first_vote NID.default_id) }
{
    if vote.committed {
        return false;
    }
    if vote.leader_id.term > 0 {
        return false;
    }
    vote.leader_id.node_id == default_id()
}

impl<NID: NodeId, N: Node, I: Instant> RaftState<NID, N, I> {
    /// The state of a node that knows nothing of its group. Takes no memory.
    pub fn default(alloc: Global) -> RaftState<NID, N, I>
        ensures vote { result.vote ≡ record { value = first_vote NID.default_id; utime = None } }
        ensures log { (result.log_ids ≡ []) × (result.purged_next ≡ 0) }
        ensures none { (result.committed ≡ None) × (result.purge_upto ≡ None) × (result.snapshot_meta.last_log_id ≡ None) }
        ensures role { result.server_state ≡ Learner }
        ensures snapshot { result.snapshot_meta ≡ record { last_log_id = None; last_membership = record { log_id = None; membership = record { configs = []; nodes = [] } } } }
        ensures committed { result.membership_state.committed ≡ record { log_id = None; membership = record { configs = []; nodes = [] } } }
        ensures effective { result.membership_state.effective ≡ record { log_id = None; membership = record { configs = []; nodes = [] } } }
        ensures accepted { result.accepted ≡ record { leader_id = first_leader NID.default_id; log_id = None } }
        ensures io { result.io_state ≡ no_io NID.default_id }
        ensures valid { state_fault NID.cmp result ≡ None }
    {
        let vote = Vote::new(0, default_id());
        let flushed = LogIOId::new(LeaderId::new(0, default_id()), None);
        RaftState {
            vote: UTime::without_utime(vote),
            committed: None,
            purged_next: 0,
            log_ids: LogIdList::default(alloc),
            membership_state: MembershipState::default(alloc),
            snapshot_meta: SnapshotMeta::default(alloc),
            server_state: ServerState::Learner,
            accepted: Accepted::none(),
            io_state: IOState::new(vote, flushed, None, None, None),
            purge_upto: None,
        }
    }

    /// The same state again, with the allocators that it keeps.
    pub fn clone(&self) -> Result<RaftState<NID, N, I>, AllocError>
        ensures { IfOk result (λ state. state ≡ self.now) }
    {
        Ok(RaftState {
            vote: self.vote,
            committed: self.committed,
            purged_next: self.purged_next,
            log_ids: self.log_ids.clone()?,
            membership_state: self.membership_state.clone()?,
            snapshot_meta: self.snapshot_meta.clone()?,
            server_state: self.server_state,
            accepted: self.accepted,
            io_state: self.io_state,
            purge_upto: self.purge_upto,
        })
    }

    /// The vote.
    pub fn vote_ref(&self) -> &Vote<NID>
        ensures { result.now ≡ self.now.vote.value }
    {
        self.vote.get()
    }

    /// When the vote was last renewed.
    pub fn vote_last_modified(&self) -> Option<I>
        ensures { result ≡ self.now.vote.utime }
    {
        self.vote.utime()
    }

    /// Whether the group was set up, as far as the node knows: it has a log id, or it has voted.
    pub fn is_initialized(&self) -> bool
        ensures { (result ≡ false) ↔ ((self.now.log_ids ≡ []) × (self.now.vote.value ≡ first_vote NID.default_id)) }
    {
        match self.log_ids.last() {
            Some(_) => true,
            None => !is_first_vote(self.vote.get()),
        }
    }

    /// Whether the node is in a voter group of the membership in force.
    pub fn is_voter(&self, id: &NID) -> bool
        ensures { result ≡ is_voter NID.eq self.now.membership_state.effective.membership.configs id.now }
    {
        self.membership_state.is_voter(id)
    }

    /// Whether the vote is for the node, so that it is a candidate or the leader.
    pub fn is_leading(&self, id: &NID) -> bool
        ensures { result ≡ NID.eq self.now.vote.value.leader_id.node_id id.now }
    {
        self.vote.get().leader_id.node_id == *id
    }

    /// Whether a quorum has granted the vote for the node.
    pub fn is_leader(&self, id: &NID) -> bool
        ensures { result ≡ (NID.eq self.now.vote.value.leader_id.node_id id.now && self.now.vote.value.committed) }
    {
        self.is_leading(id) && self.vote.get().is_committed()
    }

    /// The part that the node plays by its vote and the membership in force.
    pub fn calc_server_state(&self, id: &NID) -> ServerState
        ensures { result ≡ part_of (is_voter NID.eq self.now.membership_state.effective.membership.configs id.now)
            (NID.eq self.now.vote.value.leader_id.node_id id.now) self.now.vote.value.committed }
    {
        if !self.is_voter(id) {
            return ServerState::Learner;
        }
        if self.is_leader(id) {
            return ServerState::Leader;
        }
        if self.is_leading(id) {
            ServerState::Candidate
        } else {
            ServerState::Follower
        }
    }

    /// The last log id that was accepted of the leader that the vote is for.
    pub fn accepted(&self) -> Option<&LogId<NID>>
        ensures { option_copied result ≡ accepted_under NID.eq self.now.accepted self.now.vote.value.leader_id }
    {
        self.accepted
            .last_accepted_log_id(self.vote.get().leader_id())
    }

    /// Notes the last log id that was accepted of the leader that the vote is for.
    pub fn update_accepted(&mut self, accepted: Option<LogId<NID>>)
        ensures { self.new ≡ record self.old { accepted = record { leader_id = self.old.vote.value.leader_id; log_id = accepted } } }
    {
        self.accepted = Accepted::new(self.vote.get().leader_id, accepted);
    }

    /// Notes the last log id that is committed, if it is past the one before, and that the
    /// membership in force is committed with it; says whether it is. Without memory the state stays.
    pub fn update_committed(&mut self, committed: &Option<LogId<NID>>) -> Result<bool, AllocError>
        ensures grown { IfOk result (λ grown. grown ≡ is_past NID.cmp committed.now self.old.committed) }
        ensures ok { OnOk result (self.new ≡ (if is_past NID.cmp committed.now self.old.committed
            then record self.old { committed = committed.now; membership_state = committed_upto NID.cmp self.old.membership_state committed.now }
            else self.old)) }
        ensures err { OnErr result (self.new ≡ self.old) }
        ensures only { OnErr result (is_past NID.cmp committed.now self.old.committed ≡ true) }
    {
        if !is_past(committed, &self.committed) {
            return Ok(false);
        }
        self.membership_state.commit(committed)?;
        self.committed = *committed;
        Ok(true)
    }

    /// Puts the log ids behind the others. Without memory the state stays.
    pub fn extend_log_ids<LID: RaftLogId<NID>>(&mut self, new_ids: &[LID]) -> Result<(), AllocError>
        requires { AllGoOn (last_id self.old.log_ids) (map LID.id new_ids.now) }
        ensures ok { OnOk result (self.new ≡ record self.old { log_ids = extended self.old.log_ids (map LID.id new_ids.now) }) }
        ensures err { OnErr result (self.new ≡ self.old) }
        ensures only { OnErr result (HasFewerKeys NID.cmp self.old.log_ids (extended self.old.log_ids (map LID.id new_ids.now))) }
    {
        self.log_ids.extend(new_ids)
    }

    /// The same for log ids of one leader, of which only the first and the last one are read.
    pub fn extend_log_ids_from_same_leader<LID: RaftLogId<NID>>(
        &mut self,
        new_ids: &[LID],
    ) -> Result<(), AllocError>
        requires goes_on { AllGoOn (last_id self.old.log_ids) (map LID.id new_ids.now) }
        requires one_leader { HaveOneLeader (map LID.id new_ids.now) }
        ensures ok { OnOk result (self.new ≡ record self.old { log_ids = extended self.old.log_ids (map LID.id new_ids.now) }) }
        ensures err { OnErr result (self.new ≡ self.old) }
        ensures only { OnErr result (HasFewerKeys NID.cmp self.old.log_ids (extended self.old.log_ids (map LID.id new_ids.now))) }
    {
        self.log_ids.extend_from_same_leader(new_ids)
    }

    /// Purges the log up to the log id. Only an empty log wants memory for it; without memory the
    /// state stays.
    pub fn purge_log(&mut self, upto: &LogId<NID>) -> Result<(), AllocError>
        requires { upto.now.index + 1 < 2 ^ 64 }
        ensures ok { OnOk result (self.new ≡ record self.old { log_ids = purged self.old.log_ids upto.now; purged_next = upto.now.index + 1 }) }
        ensures err { OnErr result (self.new ≡ self.old) }
        ensures only { OnErr result (self.old.log_ids ≡ []) }
    {
        self.log_ids.purge(upto)?;
        self.purged_next = upto.index + 1;
        Ok(())
    }

    // Whether the log begins with the last purged log id, and at 0 where nothing was purged.
    fn begins_rightly(&self) -> bool
        ensures { result ≡ begins_at self.now.purged_next (slice_get self.now.log_ids 0) }
    {
        match self.log_ids.first() {
            None => self.purged_next == 0,
            Some(first) if self.purged_next == 0 => first.index == 0,
            Some(first) => first.index == self.purged_next - 1,
        }
    }

    // Whether more is to be purged than the snapshot has, or without one than is committed.
    fn purge_fault(&self) -> Option<Invalid>
        ensures { result ≡ purge_fault NID.cmp self.now }
    {
        let snapshot = &self.snapshot_meta.last_log_id;
        if snapshot.is_none() && is_past(&self.purge_upto, &self.committed) {
            return Some(Invalid::PurgePastCommitted);
        }
        if snapshot.is_some() && is_past(&self.purge_upto, snapshot) {
            return Some(Invalid::PurgePastSnapshot);
        }
        None
    }
}

impl<NID: NodeId, N: Node, I: Instant> Validate<Invalid> for RaftState<NID, N, I> {
    ghost fault = { state_fault NID.cmp };

    fn validate(&self) -> Result<(), Invalid> {
        if !self.begins_rightly() {
            return Err(Invalid::FirstLogId);
        }
        if is_past(&self.last_purged_log_id().copied(), &self.purge_upto) {
            return Err(Invalid::PurgedPastGoal);
        }
        if let Some(fault) = self.purge_fault() {
            return Err(fault);
        }
        if is_past(&self.snapshot_meta.last_log_id, &self.committed) {
            return Err(Invalid::SnapshotPastCommitted);
        }
        if is_past(&self.committed, &self.log_ids.last().copied()) {
            return Err(Invalid::CommittedPastLog);
        }
        self.membership_state.validate()
    }
}

impl<NID: NodeId, N: Node, I: Instant> VoteStateReader<NID> for RaftState<NID, N, I> {
    ghost vote_of = { λ s. s.vote.value };

    fn vote_ref(&self) -> &Vote<NID> {
        self.vote.get()
    }
}

impl<NID: NodeId, N: Node, I: Instant> LogStateReader<NID> for RaftState<NID, N, I> {
    ghost ids = { λ s. s.log_ids };

    ghost committed_id = { λ s. s.committed };

    ghost applied_id = { λ s. s.io_state.applied };

    ghost written_snapshot_id = { λ s. s.io_state.snapshot };

    ghost written_purged_id = { λ s. s.io_state.purged };

    ghost snapshot_id = { λ s. s.snapshot_meta.last_log_id };

    ghost purge_goal = { λ s. s.purge_upto };

    ghost purged_id = { λ s. last_purged s.purged_next s.log_ids };

    fn get_log_id(&self, index: u64) -> Option<LogId<NID>> {
        self.log_ids.get(index)
    }

    fn last_log_id(&self) -> Option<&LogId<NID>> {
        self.log_ids.last()
    }

    fn committed(&self) -> Option<&LogId<NID>> {
        self.committed.as_ref()
    }

    fn io_applied(&self) -> Option<&LogId<NID>> {
        self.io_state.applied()
    }

    fn io_snapshot_last_log_id(&self) -> Option<&LogId<NID>> {
        self.io_state.snapshot()
    }

    fn io_purged(&self) -> Option<&LogId<NID>> {
        self.io_state.purged()
    }

    fn snapshot_last_log_id(&self) -> Option<&LogId<NID>> {
        self.snapshot_meta.last_log_id.as_ref()
    }

    fn purge_upto(&self) -> Option<&LogId<NID>> {
        self.purge_upto.as_ref()
    }

    fn last_purged_log_id(&self) -> Option<&LogId<NID>> {
        if self.purged_next == 0 {
            return None;
        }
        self.log_ids.first()
    }
}
