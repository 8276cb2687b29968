//! What a log holds of a group.
ghost use Rattle.std.specs.Prelude.{◌≡◌, ◌-◌, ◌<◌, ◌≤◌, ℕ, List, [], ◌∷◌, ◌++◌, drop, filter, max, take};
ghost use Rattle.std.specs.Prelude.{IfOk, IfErr, IfSome, MatchResult, OnOk, false, is_some, option_and_then, option_map};
ghost use Rattle.std.specs.Result.{result_err};
ghost use Rattle.std.specs.List.Sorted.{IsStrictlySortedBy};
ghost use Rattle.std.specs.Ordering.{eq_by_cmp, nat_cmp};
ghost use Rattle.std.specs.Set.{is_member};
ghost use Rattle.raft_log_memtables.specs.Content.{no_group};
ghost use Rattle.raft_content_log.specs.Leaving.{AreEntries, AreThere};
ghost use Rattle.raft_group_step.specs.StoredGroup.{StoredGroup, end_place, first_place};
ghost use Rattle.raft_group_storage.specs.Keeping.{KeepsAll, StandsOrNone, entries_of};
ghost use Rattle.raft_group_storage.specs.Loaded.{IsLoaded};
ghost use Rattle.raft_log_records.specs.Batch.{payloads};
ghost use Rattle.raft_machines.specs.Machine.{MachineRules};
ghost use Rattle.raft_store.specs.Batches.{ShowsBy};
ghost use Rattle.raft_store.specs.Faults.{IsLogOrMemory, log_fault};
ghost use Rattle.raft_store.specs.Keys.{group_key};
ghost use Rattle.raft_store.specs.Reading.{StandsFor};
ghost use Rattle.raft_store.specs.declared.fault.StoreRefusal.TheVariants as refusal;

use crate::fault::{StoreFault, StoreRefusal};
use crate::places::Bounds;
use crate::readings::{end_of, entries_of, purged_of, snapshot_of, vote_of};
use crate::store::Store;
use raft_content_log::ContentLog;
use raft_group_step::{Entries, SnapshotMeta};
use raft_group_storage::LoadedGroup;
use raft_machines::StateMachine;
use raft_messages::{GroupEntry, SnapshotBytes};
use raft_state::{BasicNode, Bytes, LogId, Vote};
use std::alloc::{AllocError, Global};
use std::ops::Range;

// What the snapshot covers, if there is one.
fn head_of(snapshot: Option<SnapshotBytes>) -> Option<SnapshotMeta<u64, BasicNode>>
    ensures { result ≡ option_map (λ x. x.meta) snapshot }
{
    match snapshot {
        Some(snapshot) => Some(snapshot.meta),
        None => None,
    }
}

// One id more.
fn push_id(ids: &mut Vec<u64>, id: u64) -> Result<(), AllocError>
    ensures { OnOk result (ids.new.items ≡ ids.old.items ++ id ∷ []) }
{
    ids.push(id)?;
    Ok(())
}

impl<M: StateMachine, L: ContentLog> Store<M, L> {
    // The value of a key of the group.
    fn get(&mut self, group: u64, key: &[u8]) -> Result<Option<Vec<u8>>, StoreFault<L::Fault>>
        ensures value { L.is_sound self.old.log → IfOk result (λ found. option_map (λ v. v.items) found ≡ (L.answers self.old.log group).value key.now) }
        ensures cause { IfErr result (IsLogOrMemory L.is_misuse) }
        ensures well { L.is_sound self.old.log → OnOk result (L.is_sound self.new.log) }
        ensures steady { L.is_sound self.new.log → L.is_sound self.old.log × (L.answers self.new.log ≡ L.answers self.old.log) }
        ensures kept { (rules : MachineRules) → KeepsAll (ShowsBy rules L.is_sound L.answers L.leaves self.old.log self.old.recent)
            (ShowsBy rules L.is_sound L.answers L.leaves self.new.log self.new.recent) }
        ensures met { L.meets self.old.log self.new.log (option_and_then log_fault (result_err result)) }
        ensures refused { self.new.refused ≡ self.old.refused }
        ensures cleaning { self.new.failed_cleaning ≡ self.old.failed_cleaning }
    {
        match self.log.get(group, key) {
            Ok(value) => Ok(value),
            Err(fault) => Err(StoreFault::Log(fault)),
        }
    }

    // The bytes of the group's entries from a place on up to another one, which is left out.
    fn fetch(
        &mut self,
        group: u64,
        begin: u64,
        end: u64,
    ) -> Result<Vec<Vec<u8>>, StoreFault<L::Fault>>
        ensures entries { L.is_sound self.old.log → IfOk result (λ found. AreEntries (L.answers self.old.log group).entry begin end (payloads found.items)) }
        ensures cause { L.is_sound self.old.log → begin < end → AreThere (L.answers self.old.log group).entry begin end → IfErr result (IsLogOrMemory L.is_misuse) }
        ensures well { L.is_sound self.old.log → OnOk result (L.is_sound self.new.log) }
        ensures kept { (rules : MachineRules) → KeepsAll (ShowsBy rules L.is_sound L.answers L.leaves self.old.log self.old.recent)
            (ShowsBy rules L.is_sound L.answers L.leaves self.new.log self.new.recent) }
        ensures met { L.meets self.old.log self.new.log (option_and_then log_fault (result_err result)) }
        ensures refused { self.new.refused ≡ self.old.refused }
        ensures cleaning { self.new.failed_cleaning ≡ self.old.failed_cleaning }
    {
        match self.log.fetch_entries_to(group, begin, end) {
            Ok(bytes) => Ok(bytes),
            Err(fault) => Err(StoreFault::Log(fault)),
        }
    }

    // Where the group's log begins and ends.
    pub(crate) fn bounds(&mut self, group: u64) -> Result<Bounds, StoreFault<L::Fault>>
        ensures purged { (rules : MachineRules) (s : StoredGroup) → L.is_sound self.old.log → ShowsBy rules L.is_sound L.answers L.leaves self.old.log self.old.recent group (s ∷ [])
            → IfOk result (λ b. b.purged ≡ s.purged) }
        ensures first { (rules : MachineRules) (s : StoredGroup) → L.is_sound self.old.log → ShowsBy rules L.is_sound L.answers L.leaves self.old.log self.old.recent group (s ∷ [])
            → IfOk result (λ b. b.first ≡ first_place s) }
        ensures end { (rules : MachineRules) (s : StoredGroup) → L.is_sound self.old.log → ShowsBy rules L.is_sound L.answers L.leaves self.old.log self.old.recent group (s ∷ [])
            → IfOk result (λ b. b.end ≡ end_place s) }
        ensures cause { (rules : MachineRules) (s : StoredGroup) → L.is_sound self.old.log → ShowsBy rules L.is_sound L.answers L.leaves self.old.log self.old.recent group (s ∷ [])
            → IfErr result (IsLogOrMemory L.is_misuse) }
        ensures well { L.is_sound self.old.log → OnOk result (L.is_sound self.new.log) }
        ensures kept { (rules : MachineRules) → KeepsAll (ShowsBy rules L.is_sound L.answers L.leaves self.old.log self.old.recent)
            (ShowsBy rules L.is_sound L.answers L.leaves self.new.log self.new.recent) }
        ensures met { L.meets self.old.log self.new.log (option_and_then log_fault (result_err result)) }
        ensures refused { self.new.refused ≡ self.old.refused }
        ensures cleaning { self.new.failed_cleaning ≡ self.old.failed_cleaning }
    {
        let purged_value = self.get(group, b"purged")?;
        let end_value = self.get(group, b"end")?;
        let purged = purged_of(purged_value)?;
        let end = end_of(end_value)?;
        Ok(Bounds::new(purged, end)?)
    }

    // Whether the node has the group.
    fn is_present(&mut self, group: u64) -> Result<bool, StoreFault<L::Fault>>
        ensures ok { (rules : MachineRules) (s : StoredGroup) → L.is_sound self.old.log → ShowsBy rules L.is_sound L.answers L.leaves self.old.log self.old.recent group (s ∷ [])
            → IfOk result (λ there. there ≡ s.present) }
        ensures by_key { L.is_sound self.old.log → IfOk result (λ there. there ≡ is_some ((L.answers self.old.log group).value group_key)) }
        ensures cause { IfErr result (IsLogOrMemory L.is_misuse) }
        ensures well { L.is_sound self.old.log → OnOk result (L.is_sound self.new.log) }
        ensures steady { L.is_sound self.new.log → L.is_sound self.old.log × (L.answers self.new.log ≡ L.answers self.old.log) }
        ensures kept { (rules : MachineRules) → KeepsAll (ShowsBy rules L.is_sound L.answers L.leaves self.old.log self.old.recent)
            (ShowsBy rules L.is_sound L.answers L.leaves self.new.log self.new.recent) }
        ensures met { L.meets self.old.log self.new.log (option_and_then log_fault (result_err result)) }
        ensures refused { self.new.refused ≡ self.old.refused }
        ensures cleaning { self.new.failed_cleaning ≡ self.old.failed_cleaning }
    {
        Ok(self.get(group, b"group")?.is_some())
    }

    // The vote.
    fn vote(&mut self, group: u64) -> Result<Vote<u64>, StoreFault<L::Fault>>
        ensures ok { (rules : MachineRules) (s : StoredGroup) → L.is_sound self.old.log → ShowsBy rules L.is_sound L.answers L.leaves self.old.log self.old.recent group (s ∷ [])
            → IfOk result (λ vote. vote ≡ s.vote) }
        ensures cause { (rules : MachineRules) (s : StoredGroup) → L.is_sound self.old.log → ShowsBy rules L.is_sound L.answers L.leaves self.old.log self.old.recent group (s ∷ [])
            → IfErr result (IsLogOrMemory L.is_misuse) }
        ensures well { L.is_sound self.old.log → OnOk result (L.is_sound self.new.log) }
        ensures kept { (rules : MachineRules) → KeepsAll (ShowsBy rules L.is_sound L.answers L.leaves self.old.log self.old.recent)
            (ShowsBy rules L.is_sound L.answers L.leaves self.new.log self.new.recent) }
        ensures met { L.meets self.old.log self.new.log (option_and_then log_fault (result_err result)) }
        ensures refused { self.new.refused ≡ self.old.refused }
        ensures cleaning { self.new.failed_cleaning ≡ self.old.failed_cleaning }
    {
        let value = self.get(group, b"vote")?;
        Ok(vote_of(value)?)
    }

    // The entries at these places of the log.
    fn entries(
        &mut self,
        alloc: Global,
        group: u64,
        places: Range<u64>,
    ) -> Result<Vec<GroupEntry>, StoreFault<L::Fault>>
        ensures read { (rules : MachineRules) (s : StoredGroup) → L.is_sound self.old.log → ShowsBy rules L.is_sound L.answers L.leaves self.old.log self.old.recent group (s ∷ [])
            → first_place s ≤ places.start → places.end ≤ max (end_place s) places.start
            → MatchResult result (λ found. found.items ≡ take (places.end - places.start) (drop (places.start - first_place s) s.log)) (IsLogOrMemory L.is_misuse) }
        ensures well { L.is_sound self.old.log → OnOk result (L.is_sound self.new.log) }
        ensures kept { (rules : MachineRules) → KeepsAll (ShowsBy rules L.is_sound L.answers L.leaves self.old.log self.old.recent)
            (ShowsBy rules L.is_sound L.answers L.leaves self.new.log self.new.recent) }
        ensures met { L.meets self.old.log self.new.log (option_and_then log_fault (result_err result)) }
        ensures refused { self.new.refused ≡ self.old.refused }
        ensures cleaning { self.new.failed_cleaning ≡ self.old.failed_cleaning }
    {
        if places.is_empty() {
            return Ok(Vec::new(alloc));
        }
        let bytes = self.fetch(group, places.start, places.end)?;
        Ok(entries_of(alloc, &bytes)?)
    }

    // The log's entries above the first log id, up to the second, if there are any and they are
    // remembered.
    fn recalled(
        &self,
        alloc: Global,
        group: u64,
        prev: Option<LogId<u64>>,
        last: Option<LogId<u64>>,
    ) -> Result<Option<Vec<GroupEntry>>, StoreRefusal>
        ensures { (rules : MachineRules) (s : StoredGroup) → L.is_sound self.now.log → ShowsBy rules L.is_sound L.answers L.leaves self.now.log self.now.recent group (s ∷ [])
            → MatchResult result (λ found. IfSome found (λ entries. entries.items ≡ entries_of s prev last)) (λ refused. refused ≡ refusal.Memory) }
    {
        let Some(recent) = &self.recent else {
            return Ok(None);
        };
        let Some(bytes) = recent.between(group, prev, last) else {
            return Ok(None);
        };
        Ok(Some(entries_of(alloc, bytes)?))
    }

    /// A copy of the snapshot, if there is one (own). Stored bytes that aren't one are refused
    /// (`Value`); where the store is well there are none.
    pub fn snapshot(
        &mut self,
        alloc: Global,
        group: u64,
    ) -> Result<Option<SnapshotBytes>, StoreFault<L::Fault>>
        ensures well { L.is_sound self.old.log → OnOk result (L.is_sound self.new.log) }
        ensures ok { (rules : MachineRules) (s : StoredGroup) → L.is_sound self.old.log → ShowsBy rules L.is_sound L.answers L.leaves self.old.log self.old.recent group (s ∷ [])
            → IfOk result (λ copy. StandsOrNone (StandsFor rules) copy s.snapshot) }
        ensures cause { (rules : MachineRules) (s : StoredGroup) → L.is_sound self.old.log → ShowsBy rules L.is_sound L.answers L.leaves self.old.log self.old.recent group (s ∷ [])
            → IfErr result (IsLogOrMemory L.is_misuse) }
        ensures kept { (rules : MachineRules) → KeepsAll (ShowsBy rules L.is_sound L.answers L.leaves self.old.log self.old.recent)
            (ShowsBy rules L.is_sound L.answers L.leaves self.new.log self.new.recent) }
        ensures met { L.meets self.old.log self.new.log (option_and_then log_fault (result_err result)) }
        ensures refused { self.new.refused ≡ self.old.refused }
        ensures cleaning { self.new.failed_cleaning ≡ self.old.failed_cleaning }
    {
        let value = self.get(group, b"snapshot")?;
        Ok(snapshot_of(alloc, value)?)
    }

    /// Copies of the log's entries above the first log id, up to the second (own). Where the first
    /// is below the purge point, they are as many of the log's first entries. Stored bytes that
    /// aren't readable are refused (`Value`, `BadEnd`); where the store is well there are none.
    pub fn entries_between(
        &mut self,
        alloc: Global,
        group: u64,
        prev: Option<LogId<u64>>,
        last: Option<LogId<u64>>,
    ) -> Result<Entries<u64, BasicNode, Bytes>, StoreFault<L::Fault>>
        ensures well { L.is_sound self.old.log → OnOk result (L.is_sound self.new.log) }
        ensures ok { (rules : MachineRules) (s : StoredGroup) → L.is_sound self.old.log → ShowsBy rules L.is_sound L.answers L.leaves self.old.log self.old.recent group (s ∷ [])
            → IfOk result (λ copies. copies ≡ entries_of s prev last) }
        ensures cause { (rules : MachineRules) (s : StoredGroup) → L.is_sound self.old.log → ShowsBy rules L.is_sound L.answers L.leaves self.old.log self.old.recent group (s ∷ [])
            → IfErr result (IsLogOrMemory L.is_misuse) }
        ensures kept { (rules : MachineRules) → KeepsAll (ShowsBy rules L.is_sound L.answers L.leaves self.old.log self.old.recent)
            (ShowsBy rules L.is_sound L.answers L.leaves self.new.log self.new.recent) }
        ensures met { L.meets self.old.log self.new.log (option_and_then log_fault (result_err result)) }
        ensures refused { self.new.refused ≡ self.old.refused }
        ensures cleaning { self.new.failed_cleaning ≡ self.old.failed_cleaning }
    {
        if let Some(entries) = self.recalled(alloc, group, prev, last)? {
            return Ok(Entries::from_vec(entries));
        }
        let bounds = self.bounds(group)?;
        let entries = self.entries(alloc, group, bounds.between(prev, last))?;
        Ok(Entries::from_vec(entries))
    }

    /// A copy of what is stored of the group, but for what its snapshot has (own). Stored bytes that
    /// aren't readable are refused (`Value`, `BadEnd`); where the store is well there are none.
    pub fn load(&mut self, alloc: Global, group: u64) -> Result<LoadedGroup, StoreFault<L::Fault>>
        ensures well { L.is_sound self.old.log → OnOk result (L.is_sound self.new.log) }
        ensures ok { (rules : MachineRules) (s : StoredGroup) → L.is_sound self.old.log → ShowsBy rules L.is_sound L.answers L.leaves self.old.log self.old.recent group (s ∷ [])
            → IfOk result (λ loaded. IsLoaded loaded s) }
        ensures cause { (rules : MachineRules) (s : StoredGroup) → L.is_sound self.old.log → ShowsBy rules L.is_sound L.answers L.leaves self.old.log self.old.recent group (s ∷ [])
            → IfErr result (IsLogOrMemory L.is_misuse) }
        ensures kept { (rules : MachineRules) → KeepsAll (ShowsBy rules L.is_sound L.answers L.leaves self.old.log self.old.recent)
            (ShowsBy rules L.is_sound L.answers L.leaves self.new.log self.new.recent) }
        ensures met { L.meets self.old.log self.new.log (option_and_then log_fault (result_err result)) }
        ensures refused { self.new.refused ≡ self.old.refused }
        ensures cleaning { self.new.failed_cleaning ≡ self.old.failed_cleaning }
    {
        let bounds = self.bounds(group)?;
        let present = self.is_present(group)?;
        let vote = self.vote(group)?;
        let snapshot = self.snapshot(alloc, group)?;
        let log = self.entries(alloc, group, bounds.all())?;
        Ok(LoadedGroup {
            present,
            vote,
            snapshot: head_of(snapshot),
            purged: bounds.purged,
            log,
        })
    }

    /// The ids of the groups that the node has, rising (own). It fails by a fault of the log that
    /// tells of no misuse, or for want of memory.
    pub fn groups(&mut self, alloc: Global) -> Result<Vec<u64>, StoreFault<L::Fault>>
        ensures well { L.is_sound self.old.log → OnOk result (L.is_sound self.new.log) }
        ensures rising { L.is_sound self.old.log → IfOk result (λ ids. IsStrictlySortedBy nat_cmp ids.items) }
        ensures ok { (rules : MachineRules) (group : ℕ) (s : StoredGroup) → L.is_sound self.old.log → ShowsBy rules L.is_sound L.answers L.leaves self.old.log self.old.recent group (s ∷ [])
            → IfOk result (λ ids. is_member (eq_by_cmp nat_cmp) ids.items group ≡ s.present) }
        ensures cause { IfErr result (IsLogOrMemory L.is_misuse) }
        ensures kept { (rules : MachineRules) → KeepsAll (ShowsBy rules L.is_sound L.answers L.leaves self.old.log self.old.recent)
            (ShowsBy rules L.is_sound L.answers L.leaves self.new.log self.new.recent) }
        ensures met { L.meets self.old.log self.new.log (option_and_then log_fault (result_err result)) }
        ensures refused { self.new.refused ≡ self.old.refused }
        ensures cleaning { self.new.failed_cleaning ≡ self.old.failed_cleaning }
    {
        let logged = self.logged_groups()?;
        self.made_among(alloc, logged)
    }

    // Those of these groups that the node has.
    fn made_among(
        &mut self,
        alloc: Global,
        groups: Vec<u64>,
    ) -> Result<Vec<u64>, StoreFault<L::Fault>>
        ensures ids { L.is_sound self.old.log → IfOk result (λ ids. ids.items ≡ filter (λ group. is_some ((L.answers self.old.log group).value group_key)) groups.items) }
        ensures cause { IfErr result (IsLogOrMemory L.is_misuse) }
        ensures well { L.is_sound self.old.log → OnOk result (L.is_sound self.new.log) }
        ensures kept { (rules : MachineRules) → KeepsAll (ShowsBy rules L.is_sound L.answers L.leaves self.old.log self.old.recent)
            (ShowsBy rules L.is_sound L.answers L.leaves self.new.log self.new.recent) }
        ensures met { L.meets self.old.log self.new.log (option_and_then log_fault (result_err result)) }
        ensures refused { self.new.refused ≡ self.old.refused }
        ensures cleaning { self.new.failed_cleaning ≡ self.old.failed_cleaning }
    {
        let mut made = Vec::new(alloc);
        for group in groups {
            if self.is_present(group)? {
                push_id(&mut made, group)?;
            }
        }
        Ok(made)
    }

    // The ids of the groups that the log has something of.
    fn logged_groups(&mut self) -> Result<Vec<u64>, StoreFault<L::Fault>>
        ensures rising { IfOk result (λ ids. IsStrictlySortedBy nat_cmp ids.items) }
        ensures there { L.is_sound self.old.log → IfOk result (λ ids. (group : ℕ) → (L.answers self.old.log group).there ≡ is_member (eq_by_cmp nat_cmp) ids.items group) }
        ensures none { L.is_sound self.old.log → OnOk result ((group : ℕ) → (L.answers self.old.log group).there ≡ false → L.answers self.old.log group ≡ no_group) }
        ensures cause { IfErr result (IsLogOrMemory L.is_misuse) }
        ensures well { L.is_sound self.old.log → OnOk result (L.is_sound self.new.log) }
        ensures steady { L.is_sound self.new.log → L.is_sound self.old.log × (L.answers self.new.log ≡ L.answers self.old.log) }
        ensures kept { (rules : MachineRules) → KeepsAll (ShowsBy rules L.is_sound L.answers L.leaves self.old.log self.old.recent)
            (ShowsBy rules L.is_sound L.answers L.leaves self.new.log self.new.recent) }
        ensures met { L.meets self.old.log self.new.log (option_and_then log_fault (result_err result)) }
        ensures refused { self.new.refused ≡ self.old.refused }
        ensures cleaning { self.new.failed_cleaning ≡ self.old.failed_cleaning }
    {
        match self.log.groups() {
            Ok(groups) => Ok(groups),
            Err(fault) => Err(StoreFault::Log(fault)),
        }
    }
}
