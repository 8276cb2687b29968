//! A node's groups in a log.
ghost use Rattle.std.specs.Prelude.{◌≡◌, ℕ, List, [], ◌∷◌, None, IfErr, OnOk, OnErr, false, option_and_then};
ghost use Rattle.std.specs.Result.{result_err};
ghost use Rattle.raft_group_step.specs.StoredGroup.{Snapshot, StoredGroup};
ghost use Rattle.raft_group_step.specs.StoredGroup.{CutFrom, MakeGroup, PutEntries, RemoveUpTo, SetSnapshot, SetVote, StartAfter};
ghost use Rattle.raft_content_log.specs.Leaving.{LeavesOnly};
ghost use Rattle.raft_group_step.specs.GroupState.{no_group};
ghost use Rattle.raft_group_storage.specs.Keeping.{KeepsOthers, Stores};
ghost use Rattle.raft_log_memtables.specs.Content.{nothing};
ghost use Rattle.raft_log_records.specs.Item.{Change};
ghost use Rattle.raft_store.specs.Batches.{Carries, MayHaveStored, ShowsBy, of_group};
ghost use Rattle.raft_store.specs.Faults.{IsLogOrMemory, IsNoMisuse, log_fault};
ghost use Rattle.raft_machines.specs.Machine.{MachineRules};
ghost use Rattle.raft_store.specs.Reading.{HoldsOne, StandsFor};
ghost use Rattle.raft_store.specs.Storable.{IsStorable};
ghost use Rattle.raft_wire.specs.Frames.{fault_of_snapshot};

use crate::batches::{
    end_batch, entry_batch, make_batch, removal_batch, snapshot_batch, start_batch, vote_batch,
};
use crate::fault::{StoreFault, StoreRefusal};
use crate::recent::Recent;
use raft_content_log::ContentLog;
use raft_log_records::LogBatch;
use raft_machines::StateMachine;
use raft_messages::{GroupEntry, SnapshotBytes};
use raft_state::{LogId, Vote};
use std::alloc::Global;
use std::marker::PhantomData;

/// A node's groups in a log (own). Each call that stores writes one synced batch, of one group.
/// Snapshots are those of the machine.
#[derive(Drop)]
pub struct Store<M: StateMachine, L: ContentLog> {
    alloc: Global,
    pub(crate) log: L,
    /// The entries that were put last, if nothing was stored since then.
    pub(crate) recent: Option<Recent>,
    /// Why the storage refused a call, if it did: the last one that it refused.
    pub(crate) refused: Option<StoreRefusal>,
    /// Whether a cleaning of the log failed. No log says of that fault that it tells of no misuse.
    pub(crate) failed_cleaning: bool,
    of: PhantomData<M>,
}

impl<M: StateMachine, L: ContentLog> Store<M, L> {
    /// The groups that the log has. Takes no memory (own). Where the log leaves nothing but what it
    /// answers, as one does that was opened, the parts are shown that the answer holds. Where it has
    /// nothing the node has no group.
    pub fn new(alloc: Global, log: L) -> Store<M, L>
        ensures log { result.log ≡ log }
        ensures refused { result.refused ≡ None }
        ensures cleaning { result.failed_cleaning ≡ false }
        ensures shown { (group : ℕ) (parts : List StoredGroup) → LeavesOnly (L.leaves log) (L.answers log) → HoldsOne M.rules (L.answers log group) parts
            → ShowsBy M.rules L.is_sound L.answers L.leaves result.log result.recent group parts }
        ensures none { (group : ℕ) → LeavesOnly (L.leaves log) (L.answers log) → L.answers log ≡ nothing
            → ShowsBy M.rules L.is_sound L.answers L.leaves result.log result.recent group (no_group ∷ []) }
    {
        Store {
            alloc,
            log,
            recent: None,
            refused: None,
            failed_cleaning: false,
            of: PhantomData,
        }
    }

    /// The log, handed back (own). A node that stops closes it.
    pub fn into_log(self) -> L
        ensures { result ≡ self.log }
    {
        self.log
    }

    /// The log, lent for reading (own).
    pub fn log(&self) -> &L
        ensures { result.now ≡ self.now.log }
    {
        &self.log
    }

    // Writes a batch of one group's changes. No entries are remembered then.
    fn store(&mut self, batch: &mut LogBatch) -> Result<(), StoreFault<L::Fault>>
        ensures well { L.is_sound self.old.log → OnOk result (L.is_sound self.new.log) }
        ensures ok { (rules : MachineRules) (group : ℕ) (changes : List (Change (List ℕ))) (s t : StoredGroup) → batch.old.items ≡ of_group group changes → Carries rules changes s t
            → L.is_sound self.old.log → ShowsBy rules L.is_sound L.answers L.leaves self.old.log self.old.recent group (s ∷ [])
            → OnOk result (ShowsBy rules L.is_sound L.answers L.leaves self.new.log self.new.recent group (t ∷ [])) }
        ensures err { (rules : MachineRules) (group : ℕ) (changes : List (Change (List ℕ))) (s t : StoredGroup) → batch.old.items ≡ of_group group changes → Carries rules changes s t
            → L.is_sound self.old.log → ShowsBy rules L.is_sound L.answers L.leaves self.old.log self.old.recent group (s ∷ [])
            → OnErr result (ShowsBy rules L.is_sound L.answers L.leaves self.new.log self.new.recent group (s ∷ t ∷ [])) }
        ensures others { (rules : MachineRules) (group : ℕ) (changes : List (Change (List ℕ))) → batch.old.items ≡ of_group group changes
            → KeepsOthers (ShowsBy rules L.is_sound L.answers L.leaves self.old.log self.old.recent) (ShowsBy rules L.is_sound L.answers L.leaves self.new.log self.new.recent) group }
        ensures forgets { self.new.recent ≡ None }
        ensures refused { self.new.refused ≡ self.old.refused }
        ensures cleaning { self.new.failed_cleaning ≡ self.old.failed_cleaning }
        ensures met { L.meets self.old.log self.new.log (option_and_then log_fault (result_err result)) }
        ensures fits { (rules : MachineRules) (group : ℕ) (changes : List (Change (List ℕ))) (s t : StoredGroup) → batch.old.items ≡ of_group group changes → Carries rules changes s t
            → L.is_sound self.old.log → ShowsBy rules L.is_sound L.answers L.leaves self.old.log self.old.recent group (s ∷ [])
            → IfErr result (IsNoMisuse L.is_misuse) }
        ensures takes { (rules : MachineRules) (group : ℕ) (changes : List (Change (List ℕ))) (s t : StoredGroup) → batch.old.items ≡ of_group group changes → Carries rules changes s t
            → L.is_sound self.old.log → ShowsBy rules L.is_sound L.answers L.leaves self.old.log self.old.recent group (s ∷ [])
            → IfErr result (IsLogOrMemory L.is_misuse) }
    {
        self.recent = None;
        match self.log.write(batch) {
            Ok(()) => Ok(()),
            Err(fault) => Err(StoreFault::Log(fault)),
        }
    }

    /// The node has the group from now on (own). Refused for want of memory alone.
    pub fn make_group(&mut self, group: u64) -> Result<(), StoreFault<L::Fault>>
        ensures well { L.is_sound self.old.log → OnOk result (L.is_sound self.new.log) }
        ensures ok { (rules : MachineRules) → L.is_sound self.old.log
            → OnOk result (Stores (ShowsBy rules L.is_sound L.answers L.leaves self.old.log self.old.recent)
            (ShowsBy rules L.is_sound L.answers L.leaves self.new.log self.new.recent) group MakeGroup) }
        ensures err { (rules : MachineRules) → L.is_sound self.old.log
            → OnErr result (MayHaveStored (ShowsBy rules L.is_sound L.answers L.leaves self.old.log self.old.recent)
            (ShowsBy rules L.is_sound L.answers L.leaves self.new.log self.new.recent) group MakeGroup) }
        ensures others { (rules : MachineRules) → KeepsOthers (ShowsBy rules L.is_sound L.answers L.leaves self.old.log self.old.recent)
            (ShowsBy rules L.is_sound L.answers L.leaves self.new.log self.new.recent) group }
        ensures met { L.meets self.old.log self.new.log (option_and_then log_fault (result_err result)) }
        ensures fits { (rules : MachineRules) (s : StoredGroup) → L.is_sound self.old.log → ShowsBy rules L.is_sound L.answers L.leaves self.old.log self.old.recent group (s ∷ [])
            → IfErr result (IsNoMisuse L.is_misuse) }
        ensures takes { (rules : MachineRules) (s : StoredGroup) → L.is_sound self.old.log → ShowsBy rules L.is_sound L.answers L.leaves self.old.log self.old.recent group (s ∷ [])
            → IsStorable rules s MakeGroup → IfErr result (IsLogOrMemory L.is_misuse) }
        ensures refused { self.new.refused ≡ self.old.refused }
        ensures cleaning { self.new.failed_cleaning ≡ self.old.failed_cleaning }
    {
        let mut batch = make_batch(self.alloc, group)?;
        self.store(&mut batch)
    }

    /// The vote takes the place of the one before (own). Refused for want of memory alone.
    pub fn set_vote(&mut self, group: u64, vote: Vote<u64>) -> Result<(), StoreFault<L::Fault>>
        ensures well { L.is_sound self.old.log → OnOk result (L.is_sound self.new.log) }
        ensures ok { (rules : MachineRules) → L.is_sound self.old.log
            → OnOk result (Stores (ShowsBy rules L.is_sound L.answers L.leaves self.old.log self.old.recent)
            (ShowsBy rules L.is_sound L.answers L.leaves self.new.log self.new.recent) group (SetVote vote)) }
        ensures err { (rules : MachineRules) → L.is_sound self.old.log
            → OnErr result (MayHaveStored (ShowsBy rules L.is_sound L.answers L.leaves self.old.log self.old.recent)
            (ShowsBy rules L.is_sound L.answers L.leaves self.new.log self.new.recent) group (SetVote vote)) }
        ensures others { (rules : MachineRules) → KeepsOthers (ShowsBy rules L.is_sound L.answers L.leaves self.old.log self.old.recent)
            (ShowsBy rules L.is_sound L.answers L.leaves self.new.log self.new.recent) group }
        ensures met { L.meets self.old.log self.new.log (option_and_then log_fault (result_err result)) }
        ensures fits { (rules : MachineRules) (s : StoredGroup) → L.is_sound self.old.log → ShowsBy rules L.is_sound L.answers L.leaves self.old.log self.old.recent group (s ∷ [])
            → IfErr result (IsNoMisuse L.is_misuse) }
        ensures takes { (rules : MachineRules) (s : StoredGroup) → L.is_sound self.old.log → ShowsBy rules L.is_sound L.answers L.leaves self.old.log self.old.recent group (s ∷ [])
            → IsStorable rules s (SetVote vote) → IfErr result (IsLogOrMemory L.is_misuse) }
        ensures refused { self.new.refused ≡ self.old.refused }
        ensures cleaning { self.new.failed_cleaning ≡ self.old.failed_cleaning }
    {
        let mut batch = vote_batch(self.alloc, group, vote)?;
        self.store(&mut batch)
    }

    /// A copy of the snapshot takes the place of the one before (own). Refused are a membership and
    /// bytes of the machine past their limits (`Value`), and want of memory.
    pub fn set_snapshot(
        &mut self,
        group: u64,
        snapshot: &SnapshotBytes,
    ) -> Result<(), StoreFault<L::Fault>>
        ensures well { L.is_sound self.old.log → OnOk result (L.is_sound self.new.log) }
        ensures ok { (rules : MachineRules) (x : Snapshot) → L.is_sound self.old.log → StandsFor rules snapshot.now x
            → OnOk result (Stores (ShowsBy rules L.is_sound L.answers L.leaves self.old.log self.old.recent)
            (ShowsBy rules L.is_sound L.answers L.leaves self.new.log self.new.recent) group (SetSnapshot x)) }
        ensures err { (rules : MachineRules) (x : Snapshot) → L.is_sound self.old.log → StandsFor rules snapshot.now x
            → OnErr result (MayHaveStored (ShowsBy rules L.is_sound L.answers L.leaves self.old.log self.old.recent)
            (ShowsBy rules L.is_sound L.answers L.leaves self.new.log self.new.recent) group (SetSnapshot x)) }
        ensures others { (rules : MachineRules) → KeepsOthers (ShowsBy rules L.is_sound L.answers L.leaves self.old.log self.old.recent)
            (ShowsBy rules L.is_sound L.answers L.leaves self.new.log self.new.recent) group }
        ensures met { L.meets self.old.log self.new.log (option_and_then log_fault (result_err result)) }
        ensures fits { (rules : MachineRules) (s : StoredGroup) (x : Snapshot) → L.is_sound self.old.log → StandsFor rules snapshot.now x
            → ShowsBy rules L.is_sound L.answers L.leaves self.old.log self.old.recent group (s ∷ []) → IfErr result (IsNoMisuse L.is_misuse) }
        ensures takes { (rules : MachineRules) (s : StoredGroup) (x : Snapshot) → L.is_sound self.old.log → StandsFor rules snapshot.now x
            → ShowsBy rules L.is_sound L.answers L.leaves self.old.log self.old.recent group (s ∷ [])
            → fault_of_snapshot snapshot.now.meta.last_membership snapshot.now.bytes ≡ None → IfErr result (IsLogOrMemory L.is_misuse) }
        ensures refused { self.new.refused ≡ self.old.refused }
        ensures cleaning { self.new.failed_cleaning ≡ self.old.failed_cleaning }
    {
        let mut batch = snapshot_batch(self.alloc, group, snapshot)?;
        self.store(&mut batch)
    }

    /// Copies of the entries stand from the place on, and whatever stood there before is gone (own).
    /// Refused are, in this order, a place below the log's first one or past its end (`Gap`), entries
    /// with no numbered place behind them (`NoPlace`), a command or a membership past its limits
    /// (`Value`), and more bytes than a record has (`TooLong`); and want of memory at any time. As
    /// many entries as a request has, within their limits, are never too long.
    pub fn put_entries(
        &mut self,
        group: u64,
        place: u64,
        entries: &[GroupEntry],
    ) -> Result<(), StoreFault<L::Fault>>
        ensures well { L.is_sound self.old.log → OnOk result (L.is_sound self.new.log) }
        ensures ok { (rules : MachineRules) → L.is_sound self.old.log
            → OnOk result (Stores (ShowsBy rules L.is_sound L.answers L.leaves self.old.log self.old.recent)
            (ShowsBy rules L.is_sound L.answers L.leaves self.new.log self.new.recent) group (PutEntries place entries.now)) }
        ensures err { (rules : MachineRules) → L.is_sound self.old.log
            → OnErr result (MayHaveStored (ShowsBy rules L.is_sound L.answers L.leaves self.old.log self.old.recent)
            (ShowsBy rules L.is_sound L.answers L.leaves self.new.log self.new.recent) group (PutEntries place entries.now)) }
        ensures others { (rules : MachineRules) → KeepsOthers (ShowsBy rules L.is_sound L.answers L.leaves self.old.log self.old.recent)
            (ShowsBy rules L.is_sound L.answers L.leaves self.new.log self.new.recent) group }
        ensures met { L.meets self.old.log self.new.log (option_and_then log_fault (result_err result)) }
        ensures fits { (rules : MachineRules) (s : StoredGroup) → L.is_sound self.old.log → ShowsBy rules L.is_sound L.answers L.leaves self.old.log self.old.recent group (s ∷ [])
            → IfErr result (IsNoMisuse L.is_misuse) }
        ensures takes { (rules : MachineRules) (s : StoredGroup) → L.is_sound self.old.log → ShowsBy rules L.is_sound L.answers L.leaves self.old.log self.old.recent group (s ∷ [])
            → IsStorable rules s (PutEntries place entries.now) → IfErr result (IsLogOrMemory L.is_misuse) }
        ensures refused { self.new.refused ≡ self.old.refused }
        ensures cleaning { self.new.failed_cleaning ≡ self.old.failed_cleaning }
    {
        let bounds = self.bounds(group)?;
        bounds.check_place(place)?;
        let (mut batch, recent) = entry_batch(self.alloc, group, place, entries)?;
        self.store(&mut batch)?;
        self.recent = Some(recent);
        Ok(())
    }

    /// The log ends below the place (own). Refused for want of memory alone, where the store is well.
    pub fn cut_from(&mut self, group: u64, place: u64) -> Result<(), StoreFault<L::Fault>>
        ensures well { L.is_sound self.old.log → OnOk result (L.is_sound self.new.log) }
        ensures ok { (rules : MachineRules) → L.is_sound self.old.log
            → OnOk result (Stores (ShowsBy rules L.is_sound L.answers L.leaves self.old.log self.old.recent)
            (ShowsBy rules L.is_sound L.answers L.leaves self.new.log self.new.recent) group (CutFrom place)) }
        ensures err { (rules : MachineRules) → L.is_sound self.old.log
            → OnErr result (MayHaveStored (ShowsBy rules L.is_sound L.answers L.leaves self.old.log self.old.recent)
            (ShowsBy rules L.is_sound L.answers L.leaves self.new.log self.new.recent) group (CutFrom place)) }
        ensures others { (rules : MachineRules) → KeepsOthers (ShowsBy rules L.is_sound L.answers L.leaves self.old.log self.old.recent)
            (ShowsBy rules L.is_sound L.answers L.leaves self.new.log self.new.recent) group }
        ensures met { L.meets self.old.log self.new.log (option_and_then log_fault (result_err result)) }
        ensures fits { (rules : MachineRules) (s : StoredGroup) → L.is_sound self.old.log → ShowsBy rules L.is_sound L.answers L.leaves self.old.log self.old.recent group (s ∷ [])
            → IfErr result (IsNoMisuse L.is_misuse) }
        ensures takes { (rules : MachineRules) (s : StoredGroup) → L.is_sound self.old.log → ShowsBy rules L.is_sound L.answers L.leaves self.old.log self.old.recent group (s ∷ [])
            → IsStorable rules s (CutFrom place) → IfErr result (IsLogOrMemory L.is_misuse) }
        ensures refused { self.new.refused ≡ self.old.refused }
        ensures cleaning { self.new.failed_cleaning ≡ self.old.failed_cleaning }
    {
        let bounds = self.bounds(group)?;
        let mut batch = end_batch(self.alloc, group, bounds.cut_end(place))?;
        self.store(&mut batch)
    }

    /// The log is empty, and goes on right behind the log id (own). Refused are a log id before the
    /// one up to which the log is purged (`BelowPurge`), one with no numbered place behind it
    /// (`NoPlace`), and want of memory.
    pub fn start_after(&mut self, group: u64, id: LogId<u64>) -> Result<(), StoreFault<L::Fault>>
        ensures well { L.is_sound self.old.log → OnOk result (L.is_sound self.new.log) }
        ensures ok { (rules : MachineRules) → L.is_sound self.old.log
            → OnOk result (Stores (ShowsBy rules L.is_sound L.answers L.leaves self.old.log self.old.recent)
            (ShowsBy rules L.is_sound L.answers L.leaves self.new.log self.new.recent) group (StartAfter id)) }
        ensures err { (rules : MachineRules) → L.is_sound self.old.log
            → OnErr result (MayHaveStored (ShowsBy rules L.is_sound L.answers L.leaves self.old.log self.old.recent)
            (ShowsBy rules L.is_sound L.answers L.leaves self.new.log self.new.recent) group (StartAfter id)) }
        ensures others { (rules : MachineRules) → KeepsOthers (ShowsBy rules L.is_sound L.answers L.leaves self.old.log self.old.recent)
            (ShowsBy rules L.is_sound L.answers L.leaves self.new.log self.new.recent) group }
        ensures met { L.meets self.old.log self.new.log (option_and_then log_fault (result_err result)) }
        ensures fits { (rules : MachineRules) (s : StoredGroup) → L.is_sound self.old.log → ShowsBy rules L.is_sound L.answers L.leaves self.old.log self.old.recent group (s ∷ [])
            → IfErr result (IsNoMisuse L.is_misuse) }
        ensures takes { (rules : MachineRules) (s : StoredGroup) → L.is_sound self.old.log → ShowsBy rules L.is_sound L.answers L.leaves self.old.log self.old.recent group (s ∷ [])
            → IsStorable rules s (StartAfter id) → IfErr result (IsLogOrMemory L.is_misuse) }
        ensures refused { self.new.refused ≡ self.old.refused }
        ensures cleaning { self.new.failed_cleaning ≡ self.old.failed_cleaning }
    {
        let bounds = self.bounds(group)?;
        bounds.check_purge(id)?;
        let mut batch = start_batch(self.alloc, group, id)?;
        self.store(&mut batch)
    }

    /// The log is purged up to and with the log id's place (own). Refused are a log id before the one
    /// up to which it is purged (`BelowPurge`), one with no numbered place behind it (`NoPlace`), and
    /// want of memory.
    pub fn remove_up_to(&mut self, group: u64, id: LogId<u64>) -> Result<(), StoreFault<L::Fault>>
        ensures well { L.is_sound self.old.log → OnOk result (L.is_sound self.new.log) }
        ensures ok { (rules : MachineRules) → L.is_sound self.old.log
            → OnOk result (Stores (ShowsBy rules L.is_sound L.answers L.leaves self.old.log self.old.recent)
            (ShowsBy rules L.is_sound L.answers L.leaves self.new.log self.new.recent) group (RemoveUpTo id)) }
        ensures err { (rules : MachineRules) → L.is_sound self.old.log
            → OnErr result (MayHaveStored (ShowsBy rules L.is_sound L.answers L.leaves self.old.log self.old.recent)
            (ShowsBy rules L.is_sound L.answers L.leaves self.new.log self.new.recent) group (RemoveUpTo id)) }
        ensures others { (rules : MachineRules) → KeepsOthers (ShowsBy rules L.is_sound L.answers L.leaves self.old.log self.old.recent)
            (ShowsBy rules L.is_sound L.answers L.leaves self.new.log self.new.recent) group }
        ensures met { L.meets self.old.log self.new.log (option_and_then log_fault (result_err result)) }
        ensures fits { (rules : MachineRules) (s : StoredGroup) → L.is_sound self.old.log → ShowsBy rules L.is_sound L.answers L.leaves self.old.log self.old.recent group (s ∷ [])
            → IfErr result (IsNoMisuse L.is_misuse) }
        ensures takes { (rules : MachineRules) (s : StoredGroup) → L.is_sound self.old.log → ShowsBy rules L.is_sound L.answers L.leaves self.old.log self.old.recent group (s ∷ [])
            → IsStorable rules s (RemoveUpTo id) → IfErr result (IsLogOrMemory L.is_misuse) }
        ensures refused { self.new.refused ≡ self.old.refused }
        ensures cleaning { self.new.failed_cleaning ≡ self.old.failed_cleaning }
    {
        let bounds = self.bounds(group)?;
        bounds.check_purge(id)?;
        let mut batch = removal_batch(self.alloc, group, id, bounds.end)?;
        self.store(&mut batch)
    }
}
