//! What is asked of where groups are kept.
ghost use Rattle.std.specs.Prelude.{◌≡◌, ℕ, IfOk, OnOk, OnErr, [], ◌∷◌, List, Option, Some, None};
ghost use Rattle.std.specs.List.Sorted.{IsStrictlySortedBy};
ghost use Rattle.std.specs.Ordering.{eq_by_cmp, nat_cmp};
ghost use Rattle.std.specs.Set.{is_member};
ghost use Rattle.std.specs.declared.alloc.AllocError.{AllocError};
ghost use Rattle.raft_group_step.specs.StoredGroup.{Snapshot, StoredGroup, StoringCommand};
ghost use Rattle.raft_group_step.specs.StoredGroup.{CutFrom, MakeGroup, PutEntries, RemoveUpTo, SetSnapshot, SetVote, StartAfter};
ghost use Rattle.std.specs.Result.{result_err};
ghost use Rattle.raft_group_storage.specs.Keeping.{FailsAnyhow, KeepsAll, KeepsOthers, MayStore, ShowsMore, StandsOrNone, Stores, entries_of};
ghost use Rattle.raft_group_storage.specs.Loaded.{IsLoaded};
ghost use Rattle.raft_messages.specs.Memberships.{snapshot_of};

use crate::loaded_group::LoadedGroup;
use raft_group_step::Entries;
use raft_messages::{GroupEntry, SnapshotHead};
use raft_state::{BasicNode, Bytes, LogId, Vote};
use std::alloc::{AllocError, Global};

/// Where a node keeps its groups (own). Each call that stores makes one change of one group, whole
/// or not at all. Once a call has failed, the next ones are promised nothing but to leave the other
/// groups alone.
pub trait GroupStorage: Drop {
    /// A snapshot as it is kept.
    type Snapshot: Drop;

    /// Why a call fails. Want of memory is one of the reasons.
    type Fault: From<AllocError> + Drop;

    /// No call has failed since the storage was opened.
    ghost is_well: { Self → Type 0 };

    /// Whatever a crash leaves of a group stands for one of these stored parts.
    ghost shows: { Self → ℕ → List StoredGroup → Type 0 };

    /// A snapshot as it is kept stands for this one.
    ghost stands: { Self.Snapshot → Snapshot → Type 0 };

    /// Calls led from one to the other: none of them met a fault, or the last one met this one. By this
    /// a storage tells why it fails.
    ghost meets: { Self → Self → Option Self.Fault → Type 0 };

    /// The commands at which the last call may have failed, each where this was stored. By this a
    /// storage tells what it refuses: any one, wherever, while no call has failed.
    ghost fails: { Self → StoringCommand → StoredGroup → Type 0 };

    /// The node has the group from now on (own).
    fn make_group(&mut self, group: u64) -> Result<(), Self::Fault>
        ensures well { is_well self.old → OnOk result (is_well self.new) }
        ensures ok { is_well self.old → OnOk result (Stores (shows self.old) (shows self.new) group MakeGroup) }
        ensures err { is_well self.old → OnErr result (MayStore (shows self.old) (shows self.new) (fails self.new) group MakeGroup) }
        ensures others { KeepsOthers (shows self.old) (shows self.new) group }
        ensures met { meets self.old self.new (result_err result) };

    /// The vote takes the place of the one before (own).
    fn set_vote(&mut self, group: u64, vote: Vote<u64>) -> Result<(), Self::Fault>
        ensures well { is_well self.old → OnOk result (is_well self.new) }
        ensures ok { is_well self.old → OnOk result (Stores (shows self.old) (shows self.new) group (SetVote vote)) }
        ensures err { is_well self.old → OnErr result (MayStore (shows self.old) (shows self.new) (fails self.new) group (SetVote vote)) }
        ensures others { KeepsOthers (shows self.old) (shows self.new) group }
        ensures met { meets self.old self.new (result_err result) };

    /// Copies of the entries stand from the place on, and whatever stood there before is gone
    /// (own).
    fn put_entries(
        &mut self,
        group: u64,
        place: u64,
        entries: &[GroupEntry],
    ) -> Result<(), Self::Fault>
        ensures well { is_well self.old → OnOk result (is_well self.new) }
        ensures ok { is_well self.old → OnOk result (Stores (shows self.old) (shows self.new) group (PutEntries place entries.now)) }
        ensures err { is_well self.old → OnErr result (MayStore (shows self.old) (shows self.new) (fails self.new) group (PutEntries place entries.now)) }
        ensures others { KeepsOthers (shows self.old) (shows self.new) group }
        ensures met { meets self.old self.new (result_err result) };

    /// The log ends below the place (own).
    fn cut_from(&mut self, group: u64, place: u64) -> Result<(), Self::Fault>
        ensures well { is_well self.old → OnOk result (is_well self.new) }
        ensures ok { is_well self.old → OnOk result (Stores (shows self.old) (shows self.new) group (CutFrom place)) }
        ensures err { is_well self.old → OnErr result (MayStore (shows self.old) (shows self.new) (fails self.new) group (CutFrom place)) }
        ensures others { KeepsOthers (shows self.old) (shows self.new) group }
        ensures met { meets self.old self.new (result_err result) };

    /// The log is purged up to and with the log id's place (own).
    fn remove_up_to(&mut self, group: u64, id: LogId<u64>) -> Result<(), Self::Fault>
        ensures well { is_well self.old → OnOk result (is_well self.new) }
        ensures ok { is_well self.old → OnOk result (Stores (shows self.old) (shows self.new) group (RemoveUpTo id)) }
        ensures err { is_well self.old → OnErr result (MayStore (shows self.old) (shows self.new) (fails self.new) group (RemoveUpTo id)) }
        ensures others { KeepsOthers (shows self.old) (shows self.new) group }
        ensures met { meets self.old self.new (result_err result) };

    /// A copy of the snapshot takes the place of the one before (own).
    fn set_snapshot(&mut self, group: u64, snapshot: &Self::Snapshot) -> Result<(), Self::Fault>
        ensures well { is_well self.old → OnOk result (is_well self.new) }
        ensures ok { (x : Snapshot) → is_well self.old → stands snapshot.now x → OnOk result (Stores (shows self.old) (shows self.new) group (SetSnapshot x)) }
        ensures err { (x : Snapshot) → is_well self.old → stands snapshot.now x → OnErr result (MayStore (shows self.old) (shows self.new) (fails self.new) group (SetSnapshot x)) }
        ensures others { KeepsOthers (shows self.old) (shows self.new) group }
        ensures met { meets self.old self.new (result_err result) };

    /// The log is empty, and goes on right behind the log id (own).
    fn start_after(&mut self, group: u64, id: LogId<u64>) -> Result<(), Self::Fault>
        ensures well { is_well self.old → OnOk result (is_well self.new) }
        ensures ok { is_well self.old → OnOk result (Stores (shows self.old) (shows self.new) group (StartAfter id)) }
        ensures err { is_well self.old → OnErr result (MayStore (shows self.old) (shows self.new) (fails self.new) group (StartAfter id)) }
        ensures others { KeepsOthers (shows self.old) (shows self.new) group }
        ensures met { meets self.old self.new (result_err result) };

    /// Copies of the log's entries above the first log id, up to the second (own). Where the first
    /// is below the purge point, they are as many of the log's first entries.
    fn entries_between(
        &mut self,
        alloc: Global,
        group: u64,
        prev: Option<LogId<u64>>,
        last: Option<LogId<u64>>,
    ) -> Result<Entries<u64, BasicNode, Bytes>, Self::Fault>
        ensures well { is_well self.old → OnOk result (is_well self.new) }
        ensures ok { (s : StoredGroup) → is_well self.old → shows self.old group (s ∷ []) → IfOk result (λ copies. copies ≡ entries_of s prev last) }
        ensures err { (s : StoredGroup) → is_well self.old → shows self.old group (s ∷ []) → OnErr result (FailsAnyhow (fails self.new)) }
        ensures kept { KeepsAll (shows self.old) (shows self.new) }
        ensures met { meets self.old self.new (result_err result) };

    /// A copy of the snapshot, if there is one (own).
    fn snapshot(&mut self, alloc: Global, group: u64) -> Result<Option<Self::Snapshot>, Self::Fault>
        ensures well { is_well self.old → OnOk result (is_well self.new) }
        ensures ok { (s : StoredGroup) → is_well self.old → shows self.old group (s ∷ []) → IfOk result (λ copy. StandsOrNone stands copy s.snapshot) }
        ensures err { (s : StoredGroup) → is_well self.old → shows self.old group (s ∷ []) → OnErr result (FailsAnyhow (fails self.new)) }
        ensures kept { KeepsAll (shows self.old) (shows self.new) }
        ensures met { meets self.old self.new (result_err result) };

    /// What a snapshot covers, lent (own).
    fn head(snapshot: &Self::Snapshot) -> SnapshotHead<'_>
        ensures { (x : Snapshot) → stands snapshot.now x → snapshot_of result x.«prefix» ≡ x };

    /// A copy of what is stored of the group, but for what its snapshot has (own): a node opens the
    /// group with it.
    fn load(&mut self, alloc: Global, group: u64) -> Result<LoadedGroup, Self::Fault>
        ensures well { is_well self.old → OnOk result (is_well self.new) }
        ensures ok { (s : StoredGroup) → is_well self.old → shows self.old group (s ∷ []) → IfOk result (λ loaded. IsLoaded loaded s) }
        ensures err { (s : StoredGroup) → is_well self.old → shows self.old group (s ∷ []) → OnErr result (FailsAnyhow (fails self.new)) }
        ensures kept { KeepsAll (shows self.old) (shows self.new) }
        ensures met { meets self.old self.new (result_err result) };

    /// The ids of the groups that the node has, rising (own): a node that starts opens these.
    fn groups(&mut self, alloc: Global) -> Result<Vec<u64>, Self::Fault>
        ensures well { is_well self.old → OnOk result (is_well self.new) }
        ensures rising { is_well self.old → IfOk result (λ ids. IsStrictlySortedBy nat_cmp ids.items) }
        ensures ok { (group : ℕ) (s : StoredGroup) → is_well self.old → shows self.old group (s ∷ [])
            → IfOk result (λ ids. is_member (eq_by_cmp nat_cmp) ids.items group ≡ s.present) }
        ensures err { is_well self.old → OnErr result (FailsAnyhow (fails self.new)) }
        ensures kept { KeepsAll (shows self.old) (shows self.new) }
        ensures met { meets self.old self.new (result_err result) };

    /// Where one of these is shown, one of more is.
    ghost shows_more: { (x : Self) → ShowsMore (shows x) };

    /// No call meets no fault.
    ghost meets_none: { (x : Self) → meets x x None };

    /// Calls that met none are followed by others.
    ghost meets_later: { (x y z : Self) (met : Option Self.Fault) → meets x y None → meets y z met → meets x z met };

    /// Memory may be missing at any time.
    ghost meets_want: { (x y : Self) (refused : AllocError) (why : Self.Fault) → Self.Fault.from_gives refused why → meets x y None → meets x y (Some why) };

    /// Where no call has failed nothing was refused.
    ghost well_fails: { (x : Self) → is_well x → FailsAnyhow (fails x) };
}
