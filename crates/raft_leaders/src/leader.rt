//! A node that leads.
ghost use Rattle.std.specs.Prelude.{◌≡◌, ◌+◌, ◌++◌, ◌∷◌, [], ◌<◌, ◌≤◌, ◌^◌, ◌&&◌, not, true, false};
ghost use Rattle.std.specs.Prelude.{Some, None, IfOk, OnOk, OnErr, if◌then◌else◌, length, map, filter, unwrap_or};
ghost use Rattle.std.specs.List.{find, list_any};
ghost use Rattle.std.specs.Option.{option_cmp, option_copied};
ghost use Rattle.std.specs.Ordering.{nat_cmp};
ghost use Rattle.raft_values.specs.LogId.{next_place};
ghost use Rattle.raft_log_ids.specs.LogIdList.{last_id, leader_ids};
ghost use Rattle.raft_quorums.specs.Nodes.{has_id};
ghost use Rattle.raft_progress.specs.Counted.{IsCounted};
ghost use Rattle.raft_progress.specs.Granted.{IsGranted};
ghost use Rattle.raft_progress.specs.Parts.{IsUpgraded, SetsValue, has_value, value_of};
ghost use Rattle.raft_progress.specs.Values.{are_distinct, rises_above};
ghost use Rattle.raft_leaders.specs.Leader.{end_of, first_log_id, is_of_leader, last_given, left_ids, peer_at, unknown_peer, with_log_ids};

use raft_progress::{Borrow, ProgressEntry, VecProgress};
use raft_state::{LeaderId, LogId, LogIdOptionExt, NodeId, QuorumSet, RaftLogId, Vote};
use std::alloc::{AllocError, Global};
use std::fmt::{self, Display};
use std::marker::Model;

/// A node that leads: the log ids that it gives, what it knows of each peer, and when it heard of
/// each (openraft). Contracts see its fields, and each progress as its parts.
#[derive(Drop)]
pub struct Leader<NID: NodeId, QS: QuorumSet<NID>> {
    vote: Vote<NID>,
    last_log_id: Option<LogId<NID>>,
    noop_log_id: LogId<NID>,
    progress: VecProgress<NID, ProgressEntry<NID>, Option<LogId<NID>>, QS>,
    clock_progress: VecProgress<NID, Option<u64>, Option<u64>, QS>,
    began: u64,
}

impl<NID: NodeId, QS: QuorumSet<NID>> Model for Leader<NID, QS> {
    ghost use Rattle.std.specs.Prelude.{◌≡◌, None};
    ghost use Rattle.std.specs.Option.{option_cmp};
    ghost use Rattle.std.specs.Ordering.{nat_cmp};
    ghost use Rattle.raft_progress.specs.Counted.{IsCounted};
    ghost use Rattle.raft_leaders.specs.Leader.{LeaderValue};

    ghost Value = { LeaderValue NID QS };

    ghost view = { λ l. record {
      vote = l.vote;
      last_log_id = l.last_log_id;
      noop_log_id = l.noop_log_id;
      progress = l.progress;
      clock_progress = l.clock_progress;
      began = l.began;
    } };

    ghost invariant = { λ l. IsCounted NID.eq (option_cmp nat_cmp) (λ t. t) QS.accepts l.clock_progress × (l.clock_progress.built_with ≡ None) };
}

// The place behind the last of these log ids.
fn end_of<NID: NodeId>(ids: &[LogId<NID>]) -> u64
    requires { end_of ids.now < 2 ^ 64 }
    ensures { result ≡ end_of ids.now }
{
    match ids.last() {
        None => 0,
        Some(id) => id.index + 1,
    }
}

// The log id of the leader's first entry: the first one of its own, or else the next one to be
// given.
fn first_log_id<NID: NodeId>(leader_id: LeaderId<NID>, ids: &[LogId<NID>]) -> LogId<NID>
    requires { end_of ids.now < 2 ^ 64 }
    ensures { result ≡ first_log_id NID.eq leader_id ids.now }
{
    for id in ids {
        if id.leader_id == leader_id {
            return *id;
        }
    }
    LogId::new(leader_id, end_of(ids))
}

// Gives these the leader's log ids from the place on, one after the other.
fn give_log_ids<NID: NodeId, LID: RaftLogId<NID>>(
    entries: &mut [LID],
    leader_id: LeaderId<NID>,
    first: u64,
)
    requires { first + length entries.old ≤ 2 ^ 64 }
    ensures { entries.new ≡ with_log_ids LID.with_id leader_id first entries.old }
{
    for (at, entry) in entries.iter_mut().enumerate() {
        entry.set_log_id(&LogId::new(leader_id, first + at as u64));
    }
}

// Puts the id behind the others if it is in neither list.
fn push_left<NID: NodeId>(
    ids: &mut Vec<NID>,
    id: NID,
    members: &[NID],
    learner_ids: &[NID],
) -> Result<(), AllocError>
    ensures { OnOk result (ids.new.items ≡ ids.old.items ++ filter (λ i. not (has_id NID.eq members.now i) && not (has_id NID.eq learner_ids.now i)) (id ∷ [])) }
{
    if !members.contains(&id) && !learner_ids.contains(&id) {
        ids.push(id)?;
    }
    Ok(())
}

// The learner ids, and behind them the ids that have a value and are in neither list.
fn with_left_ids<NID: NodeId, V: Copy + Borrow<P>, P: Copy + Ord, QS: QuorumSet<NID> + Drop>(
    alloc: Global,
    progress: &VecProgress<NID, V, P, QS>,
    members: &[NID],
    learner_ids: &[NID],
) -> Result<Vec<NID>, AllocError>
    ensures { IfOk result (λ ids. ids.items ≡ learner_ids.now ++ left_ids NID.eq progress.now members.now learner_ids.now) }
{
    let mut ids = Vec::from_slice(alloc, learner_ids)?;
    for entry in progress.iter() {
        push_left(&mut ids, entry.0, members, learner_ids)?;
    }
    Ok(ids)
}

// The learner ids, and behind them the ids that have a value and are no longer in the quorum set.
fn kept_ids<NID: NodeId, V: Copy + Borrow<P>, P: Copy + Ord, QS: QuorumSet<NID> + Drop>(
    alloc: Global,
    progress: &VecProgress<NID, V, P, QS>,
    quorum_set: &QS,
    learner_ids: &[NID],
) -> Result<Vec<NID>, AllocError>
    ensures { IfOk result (λ ids. ids.items ≡ learner_ids.now ++ left_ids NID.eq progress.now (QS.members quorum_set.now) learner_ids.now) }
{
    let members = quorum_set.ids(alloc)?;
    with_left_ids(alloc, progress, members.as_slice(), learner_ids)
}

// The progress of another quorum set, where whoever has a value keeps it.
fn carry_over<NID: NodeId, V: Copy + Borrow<P>, P: Copy + Ord, QS: QuorumSet<NID> + Drop>(
    alloc: Global,
    progress: &VecProgress<NID, V, P, QS>,
    quorum_set: QS,
    learner_ids: &[NID],
    default_value: V,
) -> Result<VecProgress<NID, V, P, QS>, AllocError>
    ensures upgraded { IfOk result (λ p. IsUpgraded NID.eq progress.now p quorum_set (QS.members quorum_set)
        (learner_ids.now ++ left_ids NID.eq progress.now (QS.members quorum_set) learner_ids.now) default_value) }
    ensures built_with { IfOk result (λ p. p.built_with ≡ V.borrowed default_value) }
    ensures counted { IfOk result (λ p. IsCounted NID.eq P.cmp V.borrowed QS.accepts p) }
{
    let ids = kept_ids(alloc, progress, &quorum_set, learner_ids)?;
    progress.upgrade_quorum_set(alloc, quorum_set, ids.as_slice(), default_value)
}

// The same by rising id, so that a peer is found by halving. What is granted isn't counted.
fn carry_over_by_id<NID: NodeId, V: Copy + Borrow<P>, P: Copy + Ord, QS: QuorumSet<NID> + Drop>(
    alloc: Global,
    progress: &VecProgress<NID, V, P, QS>,
    quorum_set: QS,
    learner_ids: &[NID],
    default_value: V,
) -> Result<VecProgress<NID, V, P, QS>, AllocError>
    ensures { IfOk result (λ p. IsUpgraded NID.eq progress.now p quorum_set (QS.members quorum_set)
        (learner_ids.now ++ left_ids NID.eq progress.now (QS.members quorum_set) learner_ids.now) default_value) }
{
    let ids = kept_ids(alloc, progress, &quorum_set, learner_ids)?;
    progress.upgrade_by_id(alloc, quorum_set, ids.as_slice(), default_value)
}

impl<NID: NodeId, QS: QuorumSet<NID> + Drop> Leader<NID, QS> {
    /// The vote under which it leads (openraft).
    pub fn vote_ref(&self) -> &Vote<NID>
        ensures { result.now ≡ self.now.vote }
    {
        &self.vote
    }

    /// The last log id of its log (openraft).
    pub fn last_log_id(&self) -> Option<&LogId<NID>>
        ensures { option_copied result ≡ self.now.last_log_id }
    {
        self.last_log_id.as_ref()
    }

    /// The log id of its first entry (openraft).
    pub fn noop_log_id(&self) -> &LogId<NID>
        ensures { result.now ≡ self.now.noop_log_id }
    {
        &self.noop_log_id
    }

    /// What it knows of each peer (openraft).
    pub fn progress(&self) -> &VecProgress<NID, ProgressEntry<NID>, Option<LogId<NID>>, QS>
        ensures { result.now ≡ self.now.progress }
    {
        &self.progress
    }

    /// The place behind its log as the lead began: where the search for each peer's log begins
    /// (own).
    pub fn began(&self) -> u64
        ensures { result ≡ self.now.began }
    {
        self.began
    }

    /// Gives the entries its next log ids, one after the other (openraft).
    pub fn assign_log_ids<LID: RaftLogId<NID>>(&mut self, entries: &mut [LID])
        requires { next_place self.old.last_log_id + length entries.old ≤ 2 ^ 64 }
        ensures entries { entries.new ≡ with_log_ids LID.with_id self.old.vote.leader_id (next_place self.old.last_log_id) entries.old }
        ensures ids { map LID.id entries.new ≡ leader_ids self.old.vote.leader_id (next_place self.old.last_log_id) (next_place self.old.last_log_id + length entries.old) }
        ensures last { self.new ≡ record self.old { last_log_id = last_given self.old.last_log_id self.old.vote.leader_id (length entries.old) } }
    {
        if entries.is_empty() {
            return;
        }
        let leader_id = self.vote.leader_id;
        let first = self.last_log_id.next_index();
        let last = first + (entries.len() - 1) as u64;
        give_log_ids(entries, leader_id, first);
        self.last_log_id = Some(LogId::new(leader_id, last));
    }

    /// What it knows of a peer: nothing where nobody has the id (own).
    pub fn peer(&self, id: &NID) -> ProgressEntry<NID>
        ensures { result ≡ peer_at NID.eq self.now id.now }
    {
        match self.progress.try_get(id) {
            Some(entry) => *entry,
            None => ProgressEntry::empty(self.began()),
        }
    }

    /// Writes down what it knows of a peer, and answers whether somebody has the id; else nothing
    /// is changed (own). What `progress` grants isn't kept up.
    pub fn set_peer(&mut self, id: &NID, entry: ProgressEntry<NID>) -> bool
        ensures there { result ≡ has_value NID.eq self.old.progress id.now }
        ensures sets { SetsValue NID.eq self.old.progress self.new.progress id.now entry }
        ensures rest { self.new ≡ record self.old { progress = self.new.progress } }
    {
        let Some(known) = self.progress.get_mut(id) else {
            return false;
        };
        *known = entry;
        true
    }

    /// Notes that the peer was heard of at this moment (in ticks), if that is later than before,
    /// and answers whether somebody has the id (openraft).
    pub fn update_clock(&mut self, id: &NID, time: u64) -> bool
        ensures there { result ≡ has_value NID.eq self.old.clock_progress id.now }
        ensures rises { rises_above (option_cmp nat_cmp) (λ t. t) (value_of NID.eq self.old.clock_progress id.now) (Some time) ≡ true
            → SetsValue NID.eq self.old.clock_progress self.new.clock_progress id.now (Some time) }
        ensures unless_it_rises { rises_above (option_cmp nat_cmp) (λ t. t) (value_of NID.eq self.old.clock_progress id.now) (Some time) ≡ false
            → self.new ≡ self.old }
        ensures rest { self.new ≡ record self.old { clock_progress = self.new.clock_progress } }
    {
        self.clock_progress.increase_to(id, Some(time)).is_ok()
    }

    /// The latest moment at or after which a quorum was heard of; the leader itself is heard of now
    /// (openraft, which reads the clock).
    pub fn last_quorum_acked_time(&mut self, now: u64) -> Option<u64>
        ensures rises { rises_above (option_cmp nat_cmp) (λ t. t) (value_of NID.eq self.old.clock_progress self.old.vote.leader_id.node_id) (Some now) ≡ true
            → SetsValue NID.eq self.old.clock_progress self.new.clock_progress self.old.vote.leader_id.node_id (Some now) }
        ensures unless_it_rises { rises_above (option_cmp nat_cmp) (λ t. t) (value_of NID.eq self.old.clock_progress self.old.vote.leader_id.node_id) (Some now) ≡ false
            → self.new ≡ self.old }
        ensures rest { self.new ≡ record self.old { clock_progress = self.new.clock_progress } }
        ensures granted { IsGranted NID.eq (option_cmp nat_cmp) (λ t. t) (QS.accepts self.new.clock_progress.quorum_set) None result self.new.clock_progress.voters }
    {
        let own = self.vote.leader_id.node_id;
        // What is granted is the same whether somebody has the id or nobody.
        let _ = self.clock_progress.increase_to(&own, Some(now));
        *self.clock_progress.granted()
    }
}

impl<NID: NodeId, QS: QuorumSet<NID> + Clone + Drop> Leader<NID, QS> {
    /// A leader under this vote, of whose peers nothing is known. The log ids are those of the last
    /// leader in its log, or all keys, by rising place; a leader that starts anew under its own vote
    /// finds its first entry among them. The learners are distinct and no voters (openraft).
    pub fn new(
        alloc: Global,
        vote: Vote<NID>,
        quorum_set: QS,
        learner_ids: &[NID],
        last_leader_log_id: &[LogId<NID>],
    ) -> Result<Leader<NID, QS>, AllocError>
        requires distinct { are_distinct NID.eq learner_ids.now ≡ true }
        requires no_voters { list_any (has_id NID.eq (QS.members quorum_set)) learner_ids.now ≡ false }
        requires fits { end_of last_leader_log_id.now < 2 ^ 64 }
        requires clones { (x y : QS) → QS.is_clone x y → y ≡ x }
        ensures vote { IfOk result (λ l. l.vote ≡ vote) }
        ensures last_log_id { IfOk result (λ l. l.last_log_id ≡ last_id last_leader_log_id.now) }
        ensures noop_log_id { IfOk result (λ l. l.noop_log_id ≡ first_log_id NID.eq vote.leader_id last_leader_log_id.now) }
        ensures began { IfOk result (λ l. l.began ≡ end_of last_leader_log_id.now) }
        ensures quorum_set { IfOk result (λ l. (l.progress.quorum_set ≡ quorum_set) × (l.clock_progress.quorum_set ≡ quorum_set)) }
        ensures voters { IfOk result (λ l. l.progress.voters ≡ map (λ id. (id, unknown_peer (end_of last_leader_log_id.now))) (QS.members quorum_set)) }
        ensures learners { IfOk result (λ l. l.progress.learners ≡ map (λ id. (id, unknown_peer (end_of last_leader_log_id.now))) learner_ids.now) }
        ensures voter_clocks { IfOk result (λ l. l.clock_progress.voters ≡ map (λ id. (id, None)) (QS.members quorum_set)) }
        ensures learner_clocks { IfOk result (λ l. l.clock_progress.learners ≡ map (λ id. (id, None)) learner_ids.now) }
    {
        let began = end_of(last_leader_log_id);
        let clock_set = quorum_set.clone()?;
        let unknown = ProgressEntry::empty(began);
        let progress = VecProgress::new(alloc, quorum_set, learner_ids, unknown)?;
        let clock_progress = VecProgress::new(alloc, clock_set, learner_ids, None)?;
        Ok(Leader {
            vote,
            last_log_id: last_leader_log_id.last().copied(),
            noop_log_id: first_log_id(vote.leader_id, last_leader_log_id),
            progress,
            clock_progress,
            began,
        })
    }

    /// Counts by another quorum set. Who had progress keeps it: an id that is in neither list any
    /// more stays as a learner, since a peer that comes back in one lead goes on where it was.
    /// Without memory nothing is changed (openraft, where such an id is forgotten).
    pub fn change_membership(
        &mut self,
        alloc: Global,
        quorum_set: QS,
        learner_ids: &[NID],
    ) -> Result<(), AllocError>
        requires clones { (x y : QS) → QS.is_clone x y → y ≡ x }
        ensures progress { OnOk result (IsUpgraded NID.eq self.old.progress self.new.progress quorum_set (QS.members quorum_set)
            (learner_ids.now ++ left_ids NID.eq self.old.progress (QS.members quorum_set) learner_ids.now) (unknown_peer self.old.began)) }
        ensures clocks { OnOk result (IsUpgraded NID.eq self.old.clock_progress self.new.clock_progress quorum_set (QS.members quorum_set)
            (learner_ids.now ++ left_ids NID.eq self.old.clock_progress (QS.members quorum_set) learner_ids.now) None) }
        ensures peers { OnOk result ((id : NID) → peer_at NID.eq self.new id ≡ peer_at NID.eq self.old id) }
        ensures rest { self.new ≡ record self.old { progress = self.new.progress; clock_progress = self.new.clock_progress } }
        ensures err { OnErr result (self.new ≡ self.old) }
    {
        let clock_set = quorum_set.clone()?;
        let unknown = ProgressEntry::empty(self.began());
        let progress = carry_over_by_id(alloc, &self.progress, quorum_set, learner_ids, unknown)?;
        self.clock_progress = carry_over(
            alloc,
            &self.clock_progress,
            clock_set,
            learner_ids,
            None,
        )?;
        self.progress = progress;
        Ok(())
    }
}

/// Writes what stands first of a lead: its vote and the last log id.
fn write_head<NID: NodeId, W: fmt::Write>(
    vote: &Vote<NID>,
    last_log_id: &Option<LogId<NID>>,
    f: &mut fmt::Formatter<W>,
) -> fmt::Result {
    match last_log_id {
        None => write!(f, "{{vote:{vote}, last_log_id:None, "),
        Some(last) => write!(f, "{{vote:{vote}, last_log_id:{last}, "),
    }
}

impl<NID: NodeId, QS: QuorumSet<NID> + Drop> Display for Leader<NID, QS> {
    fn fmt<W: fmt::Write>(&self, f: &mut fmt::Formatter<W>) -> fmt::Result {
        write_head(&self.vote, &self.last_log_id, f)?;
        let first = self.noop_log_id();
        let progress = self.progress();
        write!(f, "noop_log_id:{first}, progress:{progress}}}")
    }
}
