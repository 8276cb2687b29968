//! The store is a storage of groups. What it refuses a call for is noted behind it.
use crate::fault::{StoreFault, noted_after};
use crate::store::Store;
use raft_content_log::ContentLog;
use raft_group_step::Entries;
use raft_group_storage::{GroupStorage, LoadedGroup};
use raft_machines::StateMachine;
use raft_messages::{GroupEntry, SnapshotBytes, SnapshotHead, head_of};
use raft_state::{BasicNode, Bytes, LogId, Vote};
use std::alloc::Global;

impl<M: StateMachine, L: ContentLog> GroupStorage for Store<M, L> {
    type Snapshot = SnapshotBytes;

    type Fault = StoreFault<L::Fault>;

    ghost use Rattle.std.specs.Prelude.{◌≡◌, None, false};
    ghost use Rattle.raft_store.specs.Batches.{ShowsBy};
    ghost use Rattle.raft_store.specs.Faults.{IsUsedWell, Meets, calls_later, calls_want, no_call};
    ghost use Rattle.raft_store.specs.Reading.{StandsFor};
    ghost use Rattle.raft_store.specs.Showing.{shows_more};
    ghost use Rattle.raft_store.specs.Storable.{FailsBy, fails_anyhow};

    ghost is_well = { λ x. L.is_sound x.log × (x.refused ≡ None) × (x.failed_cleaning ≡ false) };

    ghost shows = { λ x group parts. ShowsBy M.rules L.is_sound L.answers L.leaves x.log x.recent group parts };

    ghost stands = { λ x y. StandsFor M.rules x y };

    ghost meets = { λ old new met. Meets (L.meets old.log new.log) L.is_misuse
        (IsUsedWell L.is_sound L.answers L.leaves old.log old.recent) (IsUsedWell L.is_sound L.answers L.leaves new.log new.recent)
        new.refused new.failed_cleaning met };

    ghost fails = { λ x c s. FailsBy M.rules x.refused x.failed_cleaning c s };

    ghost shows_more = { λ x. shows_more M.rules L.is_sound L.answers L.leaves x.log x.recent };

    ghost meets_none = { λ x. no_call L.is_misuse (L.meets x.log x.log) _ _ _ (L.meets_none x.log) };

    ghost meets_later = { λ x y z met first second. calls_later L.is_misuse (L.meets x.log y.log) (L.meets y.log z.log) (L.meets x.log z.log) _ _ _ _ _ _ _ met
        (L.meets_later x.log y.log z.log _) first second };

    ghost meets_want = { λ x y refused why gives first. calls_want L.is_misuse (L.meets x.log y.log) _ _ _ _ why gives first };

    ghost well_fails = { λ x well. fails_anyhow M.rules x.refused x.failed_cleaning well.1 well.2 };

    fn make_group(&mut self, group: u64) -> Result<(), StoreFault<L::Fault>> {
        let made = Store::make_group(self, group);
        self.refused = noted_after(self.refused, &made);
        made
    }

    fn set_vote(&mut self, group: u64, vote: Vote<u64>) -> Result<(), StoreFault<L::Fault>> {
        let made = Store::set_vote(self, group, vote);
        self.refused = noted_after(self.refused, &made);
        made
    }

    fn put_entries(
        &mut self,
        group: u64,
        place: u64,
        entries: &[GroupEntry],
    ) -> Result<(), StoreFault<L::Fault>> {
        let made = Store::put_entries(self, group, place, entries);
        self.refused = noted_after(self.refused, &made);
        made
    }

    fn cut_from(&mut self, group: u64, place: u64) -> Result<(), StoreFault<L::Fault>> {
        let made = Store::cut_from(self, group, place);
        self.refused = noted_after(self.refused, &made);
        made
    }

    fn remove_up_to(&mut self, group: u64, id: LogId<u64>) -> Result<(), StoreFault<L::Fault>> {
        let made = Store::remove_up_to(self, group, id);
        self.refused = noted_after(self.refused, &made);
        made
    }

    fn set_snapshot(
        &mut self,
        group: u64,
        snapshot: &SnapshotBytes,
    ) -> Result<(), StoreFault<L::Fault>> {
        let made = Store::set_snapshot(self, group, snapshot);
        self.refused = noted_after(self.refused, &made);
        made
    }

    fn start_after(&mut self, group: u64, id: LogId<u64>) -> Result<(), StoreFault<L::Fault>> {
        let made = Store::start_after(self, group, id);
        self.refused = noted_after(self.refused, &made);
        made
    }

    fn entries_between(
        &mut self,
        alloc: Global,
        group: u64,
        prev: Option<LogId<u64>>,
        last: Option<LogId<u64>>,
    ) -> Result<Entries<u64, BasicNode, Bytes>, StoreFault<L::Fault>> {
        let made = Store::entries_between(self, alloc, group, prev, last);
        self.refused = noted_after(self.refused, &made);
        made
    }

    fn snapshot(
        &mut self,
        alloc: Global,
        group: u64,
    ) -> Result<Option<SnapshotBytes>, StoreFault<L::Fault>> {
        let made = Store::snapshot(self, alloc, group);
        self.refused = noted_after(self.refused, &made);
        made
    }

    fn head(snapshot: &SnapshotBytes) -> SnapshotHead<'_> {
        head_of(&snapshot.meta)
    }

    fn load(&mut self, alloc: Global, group: u64) -> Result<LoadedGroup, StoreFault<L::Fault>> {
        let made = Store::load(self, alloc, group);
        self.refused = noted_after(self.refused, &made);
        made
    }

    fn groups(&mut self, alloc: Global) -> Result<Vec<u64>, StoreFault<L::Fault>> {
        let made = Store::groups(self, alloc);
        self.refused = noted_after(self.refused, &made);
        made
    }
}
