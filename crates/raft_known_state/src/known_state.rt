//! What a node knows of its stored group.
ghost use Rattle.std.specs.Prelude.{◌≡◌, ◌≤◌, ◌<◌, ◌+◌, ◌^◌, ◌++◌, ◌⊎◌, OnOk, IfOk, Some, None, ℕ, length, take, drop, [], false};
ghost use Rattle.std.specs.Ordering.{nat_cmp};
ghost use Rattle.raft_values.specs.LogId.{next_place};
ghost use Rattle.raft_log_ids.specs.LogIdList.{AllGoOn, PlacesRise, ids_of, last_id};
ghost use Rattle.raft_group_step.specs.StoredGroup.{StoredGroup, Snapshot, CutFrom, PutEntries, RemoveUpTo, SetSnapshot, SetVote, after_storing};
ghost use Rattle.raft_group_step.specs.StoredGroup.{end_place, first_place, has_id_in_log, id_at as id_at_place, last_id as last_stored_id, entry_at};
ghost use Rattle.raft_group_step.specs.StoredGroup.{membership_in_force};
ghost use Rattle.std.specs.Option.{option_copied, option_map, is_some};
ghost use Rattle.std.specs.List.{list_any};
ghost use Rattle.raft_group_step.specs.Values.{is_written_by};
ghost use Rattle.raft_group_step.specs.Initialize.{is_new};
ghost use Rattle.raft_group_step.specs.Lead.{other_ids};
ghost use Rattle.raft_group_step.specs.Elect.{other_voters};
ghost use Rattle.raft_known_state.specs.KnownState.{AreInOrder, AreNoted, ArePlaced, IsEntryOrPast, IsPlaced, KeepsRest, Knows, entry_ids, force_of, is_below};
ghost use Rattle.raft_known_state.specs.KnownState.{memberships_in, meta_of, effective_of, logged_as_effective, drop_below, take_below, purged_ids, ids_of_leader, stored_ids};
ghost use Rattle.raft_known_state.specs.KnownState.{committed_membership, committed_of, force_of_snapshot, last_else, with_committed, with_goal, with_members};

use crate::key_leaders::has_leader_from;
use crate::member_ids::{ids_of_others, voters_of_others};
use crate::terms::highest_term;
use raft_state::{
    BasicNode, Bytes, EffectiveMembership, Entry, KeptVec, LeaderId, LogId, LogIdOptionExt,
    LogStateReader, MembershipState, Node, NodeId, RaftPayload, RaftState, SnapshotMeta, UTime,
    Vote,
};
use std::alloc::{AllocError, Global};

/// What a node knows of its stored group (openraft's state of a group; the memberships of the
/// whole log are own: a log that is shortened may have more than one that isn't committed).
#[derive(Drop)]
pub struct KnownState<NID: NodeId, N: Node> {
    /// What openraft keeps: vote, log ids, places, snapshot.
    pub state: RaftState<NID, N, u64>,
    /// The memberships of the log above the purge point, by rising place.
    pub memberships: KeptVec<EffectiveMembership<NID, N>>,
    /// Up to where a leader is still to purge, once no request needs what goes.
    pub wish: Option<LogId<NID>>,
    /// No entry of the log is of a higher term than this one (own): the highest that it has had. The
    /// purge point may be, as a peer's snapshot may end with any log id.
    pub highest_term: u64,
}

// Whether the log id stands below the place; none stands below each.
fn stands_below(log_id: &Option<LogId<u64>>, place: u64) -> bool
    ensures { result ≡ is_below place log_id.now }
{
    match log_id {
        None => true,
        Some(log_id) => log_id.index < place,
    }
}

// The membership of the entry of a snapshot, as one that is in force.
fn as_effective(
    meta: &SnapshotMeta<u64, BasicNode>,
) -> Result<EffectiveMembership<u64, BasicNode>, AllocError>
    ensures { IfOk result (λ m. m ≡ record { log_id = meta.now.last_membership.log_id; membership = meta.now.last_membership.membership }) }
{
    let last = &meta.last_membership;
    Ok(EffectiveMembership::new(*last.log_id(), last.membership().clone()?))
}

// The memberships of these entries behind the others.
fn push_memberships(
    memberships: &mut KeptVec<EffectiveMembership<u64, BasicNode>>,
    entries: &[Entry<u64, BasicNode, Bytes>],
) -> Result<(), AllocError>
    ensures { OnOk result (memberships.new ≡ memberships.old ++ memberships_in entries.now) }
{
    for entry in entries {
        if let Some(membership) = entry.get_membership() {
            let copy = membership.clone()?;
            memberships.push(EffectiveMembership::new(Some(entry.log_id), copy))?;
        }
    }
    Ok(())
}

// How many of the memberships stand below the place, where they are in order: found by halving.
fn count_below(memberships: &[EffectiveMembership<u64, BasicNode>], place: u64) -> usize
    ensures below { AreInOrder memberships.now → take result memberships.now ≡ take_below place memberships.now }
    ensures above { AreInOrder memberships.now → drop result memberships.now ≡ drop_below place memberships.now }
    ensures within { result ≤ length memberships.now }
{
    memberships.partition_point(|membership| stands_below(membership.log_id(), place))
}

// Whether the log id stands at or below the committed one; none stands below each.
fn is_committed(log_id: &Option<LogId<u64>>, committed: &Option<LogId<u64>>) -> bool
    ensures { result ≡ is_below (next_place committed.now) log_id.now }
{
    match (log_id, committed) {
        (None, _) => true,
        (Some(_), None) => false,
        (Some(log_id), Some(committed)) => log_id.index <= committed.index,
    }
}

// How many of the memberships are committed, where they are in order: found by halving.
fn count_committed(
    memberships: &[EffectiveMembership<u64, BasicNode>],
    committed: &Option<LogId<u64>>,
) -> usize
    ensures below { AreInOrder memberships.now → take result memberships.now ≡ take_below (next_place committed.now) memberships.now }
    ensures within { result ≤ length memberships.now }
{
    memberships.partition_point(|membership| is_committed(membership.log_id(), committed))
}

impl KnownState<u64, BasicNode> {
    /// What is known of a stored group with this vote and snapshot, of which the log up to the
    /// purge point is gone and no entry was read yet (own): `append` adds entries, so that a long
    /// log is read by blocks.
    pub fn begin(
        alloc: Global,
        vote: Vote<u64>,
        purged: Option<LogId<u64>>,
        snapshot: SnapshotMeta<u64, BasicNode>,
    ) -> Result<KnownState<u64, BasicNode>, AllocError>
        requires { next_place purged < 2 ^ 64 }
        ensures known { (s : StoredGroup) → s.vote ≡ vote → s.purged ≡ purged → snapshot ≡ meta_of s.snapshot → s.log ≡ []
            → IfOk result (λ k. Knows k s) }
        ensures ids { IfOk result (λ k. k.state.log_ids ≡ purged_ids purged) }
        ensures fresh { IfOk result (λ k. (k.state.vote.utime ≡ None) × (k.state.committed ≡ None) × (k.wish ≡ None)) }
    {
        let mut state = RaftState::default(alloc);
        state.vote = UTime::without_utime(vote);
        state.snapshot_meta = snapshot;
        state.purge_upto = purged;
        if let Some(purged) = purged {
            state.purge_log(&purged)?;
        }
        let memberships = KeptVec::new(alloc);
        let mut known = KnownState {
            state,
            memberships,
            wish: None,
            highest_term: 0,
        };
        known.refresh_memberships()?;
        Ok(known)
    }

    /// What is known of a stored group with this vote, of which the log up to the purge point is
    /// gone and these entries stand above it (openraft reads it from the log's store).
    pub fn load(
        alloc: Global,
        vote: Vote<u64>,
        purged: Option<LogId<u64>>,
        snapshot: SnapshotMeta<u64, BasicNode>,
        entries: &[Entry<u64, BasicNode, Bytes>],
    ) -> Result<KnownState<u64, BasicNode>, AllocError>
        requires fits { next_place purged < 2 ^ 64 }
        requires goes_on { AllGoOn purged (entry_ids entries.now) }
        ensures known { (s : StoredGroup) → s.vote ≡ vote → s.purged ≡ purged → snapshot ≡ meta_of s.snapshot → s.log ≡ entries.now → IsPlaced s
            → IfOk result (λ k. Knows k s) }
        ensures fresh { IfOk result (λ k. (k.state.vote.utime ≡ None) × (k.state.committed ≡ None) × (k.wish ≡ None)) }
    {
        let mut known = KnownState::begin(alloc, vote, purged, snapshot)?;
        known.append(entries)?;
        Ok(known)
    }

    // The last of the first memberships, so many of them, or else the snapshot's.
    fn last_among(&self, count: usize) -> Result<EffectiveMembership<u64, BasicNode>, AllocError>
        requires { count ≤ length self.now.memberships }
        ensures { IfOk result (λ m. m ≡ last_else (force_of_snapshot self.now.state.snapshot_meta) (take count self.now.memberships)) }
    {
        let (first, _) = self.memberships.as_slice().split_at(count);
        match first.last() {
            Some(last) => last.clone(),
            None => as_effective(&self.state.snapshot_meta),
        }
    }

    // The memberships of a log are in order, since its log ids are. Their list tells so by itself:
    // nothing is read.
    fn show_order(&self)
        ensures { (s : StoredGroup) → Knows self.now s → AreInOrder self.now.memberships }
    {
        let _ = self.state.log_ids.key_log_ids();
    }

    // The last membership of the log is in force from now on, and the last one of the committed log
    // is the committed one; where the log has none, the snapshot's is.
    fn refresh_memberships(&mut self) -> Result<(), AllocError>
        ensures noted { AreInOrder self.old.memberships → OnOk result (AreNoted self.new) }
        ensures rest { OnOk result (self.new ≡ with_members self.old self.new.state.membership_state) }
    {
        let count = count_committed(self.memberships.as_slice(), &self.state.committed);
        let committed = self.last_among(count)?;
        let effective = self.last_among(self.memberships.len())?;
        self.state.membership_state = MembershipState::new(committed, effective);
        Ok(())
    }

    // The same where the memberships changed; else both are noted already.
    fn refresh_if(&mut self, changed: bool) -> Result<(), AllocError>
        ensures noted { AreInOrder self.old.memberships → (changed ≡ false → AreNoted self.old) → OnOk result (AreNoted self.new) }
        ensures rest { OnOk result (self.new ≡ with_members self.old self.new.state.membership_state) }
    {
        if changed {
            return self.refresh_memberships();
        }
        Ok(())
    }

    /// The place after the last entry of the log (own).
    pub fn end(&self) -> u64
        requires { next_place (last_id self.now.state.log_ids) < 2 ^ 64 }
        ensures { (s : StoredGroup) → Knows self.now s → IsPlaced s → result ≡ end_place s }
    {
        self.state.log_ids.last().copied().next_index()
    }

    /// The log id at the place: of an entry of the log, or the last purged one (openraft).
    pub fn get_log_id(&self, place: u64) -> Option<LogId<u64>>
        ensures { (s : StoredGroup) → Knows self.now s → IsPlaced s → result ≡ id_at_place s place }
    {
        self.state.log_ids.get(place)
    }

    /// The last log id: of the log's last entry, or the last purged one where the log is empty
    /// (openraft).
    pub fn last_log_id(&self) -> Option<LogId<u64>>
        ensures { (s : StoredGroup) → Knows self.now s → IsPlaced s → result ≡ last_stored_id s }
    {
        self.state.log_ids.last().copied()
    }

    /// Whether the log above the purge point has an entry of this log id (openraft).
    pub fn has_log_id(&self, log_id: &LogId<u64>) -> bool
        ensures { (s : StoredGroup) → Knows self.now s → IsPlaced s → result ≡ has_id_in_log s log_id.now }
    {
        if log_id.index < self.first_place() {
            return false;
        }
        self.state.log_ids.get(log_id.index) == Some(*log_id)
    }

    /// The place of the log's first entry, right behind the purge point (own).
    pub fn first_place(&self) -> u64
        ensures { (s : StoredGroup) → Knows self.now s → result ≡ first_place s }
    {
        self.state.purged_next
    }

    /// Whether the log above the purge point has an entry at the place (own).
    pub fn has_entry_at(&self, place: u64) -> bool
        ensures { (s : StoredGroup) → Knows self.now s → IsPlaced s → result ≡ is_some (entry_at s place) }
    {
        if place < self.first_place() {
            return false;
        }
        self.state.log_ids.get(place).is_some()
    }

    /// Whether the group is new: it has no vote, no entries and no snapshot yet (own).
    pub fn is_new(&self) -> bool
        ensures { (s : StoredGroup) → Knows self.now s → result ≡ is_new s }
    {
        *self.state.vote.get() == Vote::new(0, 0)
            && self.state.log_ids.last().is_none()
            && self.state.snapshot_meta.last_log_id.is_none()
    }

    /// The membership in force, committed or not; where no entry has one, that without voter
    /// groups, nodes and log id (openraft).
    pub fn effective_membership(&self) -> &EffectiveMembership<u64, BasicNode>
        ensures { (s : StoredGroup) → Knows self.now s → result.now ≡ effective_of (membership_in_force s) }
    {
        self.state.membership_state.effective()
    }

    /// The last committed membership (openraft): the last one of the log at or below the committed
    /// place, or else the snapshot's.
    pub fn committed_membership(&self) -> &EffectiveMembership<u64, BasicNode>
        ensures { (s : StoredGroup) → Knows self.now s → result.now ≡ committed_membership s self.now.state.committed }
    {
        self.state.membership_state.committed()
    }

    /// The membership in force, committed or not, if an entry has one (own).
    pub fn membership(&self) -> Option<&EffectiveMembership<u64, BasicNode>>
        ensures { (s : StoredGroup) → Knows self.now s → option_copied result ≡ option_map logged_as_effective (membership_in_force s) }
    {
        let effective = self.effective_membership();
        if effective.log_id().is_none() {
            return None;
        }
        Some(effective)
    }

    /// The ids of all nodes of the membership in force but the own one, by rising id (own).
    pub fn other_ids(&self, alloc: Global, own: u64) -> Result<Vec<u64>, AllocError>
        ensures { (s : StoredGroup) → Knows self.now s → IfOk result (λ ids. ids.items ≡ other_ids own s) }
    {
        ids_of_others(alloc, self.effective_membership().membership(), own)
    }

    /// The ids of all voters of the membership in force but the own one, by rising id (own).
    pub fn other_voters(&self, alloc: Global, own: u64) -> Result<Vec<u64>, AllocError>
        ensures { (s : StoredGroup) → Knows self.now s → IfOk result (λ ids. ids.items ≡ other_voters own s) }
    {
        voters_of_others(alloc, self.effective_membership().membership(), own)
    }

    /// Whether the leader wrote an entry of the log above the purge point (own).
    pub fn is_written_by_leader(&self, leader: &LeaderId<u64>) -> bool
        ensures { (s : StoredGroup) → Knows self.now s → IsPlaced s → result ≡ list_any (is_written_by leader.now) s.log }
    {
        has_leader_from(self.state.log_ids.key_log_ids(), self.first_place(), leader)
    }

    // Whether an entry may be of this leader: none is where its term is above those of all entries.
    fn may_have_leader(&self, leader: &LeaderId<u64>) -> bool
        ensures { (s : StoredGroup) → Knows self.now s → result ≡ false → ids_of_leader leader.now (entry_ids s.log) ≡ [] }
    {
        leader.term <= self.highest_term
    }

    /// Keys that tell each entry's log id of this leader, and the last log id: all keys, or the last
    /// one alone where the leader's term is above those of all entries, as at each election (own;
    /// openraft takes those of the last leader). Whose the purge point is matters not, as a leader
    /// never commits it: so no snapshot that a peer made up makes an election read all keys.
    pub fn keys_of_leader(&self, leader: &LeaderId<u64>) -> &[LogId<u64>]
        ensures rise { PlacesRise result.now }
        ensures last { last_id result.now ≡ last_id self.now.state.log_ids }
        ensures ids { (s : StoredGroup) → Knows self.now s → (ids_of result.now ≡ stored_ids s) ⊎ (ids_of_leader leader.now (entry_ids s.log) ≡ []) }
    {
        let keys = self.state.log_ids.key_log_ids();
        if self.may_have_leader(leader) {
            return keys;
        }
        let (_, last) = keys.split_at(keys.len().saturating_sub(1));
        last
    }

    /// The vote is stored, and heard of at this moment (openraft).
    pub fn save_vote(&mut self, now: u64, vote: Vote<u64>)
        ensures known { (s : StoredGroup) → Knows self.old s → Knows self.new (after_storing (SetVote vote) s) }
        ensures rest { self.new ≡ record self.old { state = record self.old.state { vote = record { value = vote; utime = Some now } } } }
    {
        self.state.vote.update(now, vote);
    }

    /// All up to the log id is committed (openraft), and with it the memberships of the log up to
    /// there; without one nothing is. After an error nothing is promised.
    pub fn commit(&mut self, upto: Option<LogId<u64>>) -> Result<(), AllocError>
        ensures known { (s : StoredGroup) → Knows self.old s → OnOk result (Knows self.new s) }
        ensures rest { OnOk result (self.new ≡ with_committed self.old upto self.new.state.membership_state) }
    {
        self.show_order();
        let before = count_committed(self.memberships.as_slice(), &self.state.committed);
        self.state.committed = upto;
        let now = count_committed(self.memberships.as_slice(), &self.state.committed);
        self.refresh_if(now != before)
    }

    /// The entries stand behind the log's last one, as they are written or read. After an error
    /// nothing is promised.
    pub fn append(&mut self, entries: &[Entry<u64, BasicNode, Bytes>]) -> Result<(), AllocError>
        requires { AllGoOn (last_id self.old.state.log_ids) (entry_ids entries.now) }
        ensures known { (s : StoredGroup) → Knows self.old s → IsPlaced s → ArePlaced (end_place s) entries.now
            → OnOk result (Knows self.new (after_storing (PutEntries (end_place s) entries.now) s)) }
        ensures grown { (s : StoredGroup) → Knows self.old s → IsPlaced s → ArePlaced (end_place s) entries.now
            → OnOk result (Knows self.new (record s { log = s.log ++ entries.now })) }
        ensures rest { OnOk result (KeepsRest self.old self.new) }
    {
        self.state.extend_log_ids(entries)?;
        self.highest_term = highest_term(self.highest_term, entries);
        let before = self.memberships.len();
        push_memberships(&mut self.memberships, entries)?;
        let is_grown = self.memberships.len() != before;
        self.refresh_if(is_grown)
    }

    /// The log is shortened from the place on, which is above the purge point. After an error
    /// nothing is promised.
    pub fn truncate(&mut self, since: u64) -> Result<(), AllocError>
        ensures known { (s : StoredGroup) → Knows self.old s → IsPlaced s → first_place s ≤ since
            → OnOk result (Knows self.new (after_storing (CutFrom since) s)) }
        ensures rest { OnOk result (KeepsRest self.old self.new) }
    {
        self.state.log_ids.truncate(since);
        let kept = count_below(self.memberships.as_slice(), since);
        let is_shortened = kept < self.memberships.len();
        self.memberships.truncate(kept);
        self.refresh_if(is_shortened)
    }

    /// Up to where a leader is still to purge, if anywhere: so far the log is to be purged then
    /// (openraft's `purge_upto`), and else as far as it is.
    pub fn set_wish(&mut self, wish: Option<LogId<u64>>)
        ensures known { (s : StoredGroup) → Knows self.old s → Knows self.new s }
        ensures rest { self.new ≡ with_goal self.old wish self.new.state.purge_upto }
    {
        self.wish = wish;
        self.state.purge_upto = wish.or(self.state.last_purged_log_id().copied());
    }

    /// The log is purged up to the log id: that of its entry there, or one past its end. After an
    /// error nothing is promised.
    pub fn purge(&mut self, upto: &LogId<u64>) -> Result<(), AllocError>
        requires { upto.now.index + 1 < 2 ^ 64 }
        ensures known { (s : StoredGroup) → Knows self.old s → IsPlaced s → first_place s ≤ upto.now.index
            → IsEntryOrPast s upto.now
            → OnOk result (Knows self.new (after_storing (RemoveUpTo upto.now) s)) }
        ensures rest { OnOk result (KeepsRest self.old self.new) }
    {
        self.state.purge_log(upto)?;
        self.state.purge_upto = self.wish.or(Some(*upto));
        let gone = count_below(self.memberships.as_slice(), upto.index + 1);
        self.memberships.drop_front(gone);
        self.refresh_if(gone > 0)
    }

    /// A snapshot is stored. After an error nothing is promised.
    pub fn save_snapshot(&mut self, meta: SnapshotMeta<u64, BasicNode>) -> Result<(), AllocError>
        ensures known { (s : StoredGroup) (x : Snapshot) → Knows self.old s → meta ≡ meta_of (Some x)
            → OnOk result (Knows self.new (after_storing (SetSnapshot x) s)) }
        ensures rest { OnOk result (KeepsRest self.old self.new) }
    {
        self.show_order();
        self.state.snapshot_meta = meta;
        self.refresh_memberships()
    }
}
