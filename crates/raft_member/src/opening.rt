//! A member that was down is opened with what is stored.
ghost use Rattle.std.specs.Prelude.{◌≡◌, ◌<◌, ◌-◌, ◌^◌, nat_lt, ℕ, Option, MatchOption, IfOk, Ok, OnOk, OnErr, None, is_some, true, false};
ghost use Rattle.std.specs.Option.{option_copied};
ghost use Rattle.raft_values.specs.LogId.{next_place};
ghost use Rattle.raft_group_step.specs.StoredGroup.{StoredGroup as Stored, Snapshot, StartAfter, after_storing, end_place, snapshot_last};
ghost use Rattle.raft_group_step.specs.StepResult.{unchanged};
ghost use Rattle.raft_group_step.specs.GroupState.{state_of};
ghost use Rattle.raft_group_step.specs.GroupEvent.{Open};
ghost use Rattle.raft_group_step.specs.GroupStep.{finished};
ghost use Rattle.raft_group_step.specs.Opening.{is_joined_to, resume_lead};
ghost use Rattle.std.specs.Result.{result_err};
ghost use Rattle.raft_group_storage.specs.Keeping.{KeepsAll, KeepsOthers};
ghost use Rattle.raft_group_storage.specs.Loaded.{IsHead, IsLoaded};
ghost use Rattle.raft_known_state.specs.KnownState.{IsPlaced, meta_of};
ghost use Rattle.raft_laws.specs.Opened.{opened};
ghost use Rattle.raft_member.specs.Member.{HasEnded, HasStopped, IsDown};
ghost use Rattle.raft_member.specs.Opening.{HasStarted, IsFresh, IsOpenable, stale_end};
ghost use Rattle.raft_member.specs.Running.{HasHalted, HasRun};
ghost use Rattle.raft_member.specs.declared.member.Ended.TheVariants.{Skipped};

use crate::member::{ByteGroup, Ended, Member};
use raft_engine::{Engine, KnownState};
use raft_executor::meta_of;
use raft_group_step::SnapshotMeta as Covered;
use raft_group_storage::{GroupStorage, LoadedGroup};
use raft_messages::{all_go_on, head_of};
use raft_state::{BasicNode, LogId, SnapshotMeta};
use std::alloc::{AllocError, Global};

// Whether a place stands behind the log id that 64 bits hold.
fn has_next(last: Option<LogId<u64>>) -> bool
    ensures { result ≡ nat_lt (next_place last) (2 ^ 64) }
{
    match last {
        None => true,
        Some(id) => id.index < u64::MAX,
    }
}

// What the stored snapshot covers, as an engine is told of it; nothing where there is none.
fn loaded_meta(
    alloc: Global,
    covered: Option<&Covered<u64, BasicNode>>,
) -> Result<SnapshotMeta<u64, BasicNode>, AllocError>
    ensures { (x : Option Snapshot) → IsHead (option_copied covered.entry) x → IfOk result (λ meta. meta ≡ meta_of x) }
{
    let Some(covered) = covered else {
        return Ok(SnapshotMeta::default(alloc));
    };
    meta_of(alloc, head_of(covered))
}

// What is known of what is stored; nothing where the log's places don't rise.
fn known_state(
    alloc: Global,
    loaded: &LoadedGroup,
) -> Result<Option<KnownState<u64, BasicNode>>, AllocError>
    ensures { (s : Stored) → IsLoaded loaded.now s → IsPlaced s → end_place s < 2 ^ 64 → IfOk result (IsFresh s) }
{
    let log = loaded.log.as_slice();
    let purged = loaded.purged;
    if !has_next(purged) || !all_go_on(purged, log) {
        return Ok(None);
    }
    let meta = loaded_meta(alloc, loaded.snapshot.as_ref())?;
    let known = KnownState::load(alloc, loaded.vote, purged, meta, log)?;
    Ok(Some(known))
}

// The last log id of the stored snapshot, if there is one.
fn snapshot_last(loaded: &LoadedGroup) -> Option<LogId<u64>>
    ensures { (s : Stored) → IsLoaded loaded.now s → result ≡ snapshot_last s }
{
    match &loaded.snapshot {
        Some(covered) => Some(covered.last_log_id),
        None => None,
    }
}

// The engine of what is stored, as it has started.
fn opened_engine(
    alloc: Global,
    id: u64,
    loaded: &LoadedGroup,
) -> Result<Option<Engine<ByteGroup>>, AllocError>
    ensures { (x : Snapshot) (st : Stored) → IsLoaded loaded.now (opened st).state.stored → IsOpenable id st → IfOk result (HasStarted x id (opened st).state) }
{
    let Some(known) = known_state(alloc, loaded)? else {
        return Ok(None);
    };
    Ok(Some(Engine::open(alloc, known, id)?))
}

// How many places stand above the purge point and below the place; none where that is purged.
fn places_below(purged: Option<LogId<u64>>, place: u64) -> Option<u64>
    ensures { MatchOption result (nat_lt place (next_place purged) ≡ true) (λ count. (nat_lt place (next_place purged) ≡ false) × (count ≡ place - next_place purged)) }
{
    match purged {
        None => Some(place),
        Some(purged) => place.checked_sub(purged.index)?.checked_sub(1),
    }
}

// Whether the log has the entry of this log id, or has purged its place.
fn is_joined_to(loaded: &LoadedGroup, last: &LogId<u64>) -> bool
    ensures { (s : Stored) → IsLoaded loaded.now s → result ≡ is_joined_to s last.now }
{
    let Some(below) = places_below(loaded.purged, last.index) else {
        return true;
    };
    match loaded.log.get(below as usize) {
        Some(entry) => entry.log_id == *last,
        None => false,
    }
}

// The snapshot's last log id, where the log doesn't belong to the snapshot.
fn stale_end(loaded: &LoadedGroup) -> Option<LogId<u64>>
    ensures { (s : Stored) → IsLoaded loaded.now s → result ≡ stale_end s }
{
    let last = snapshot_last(loaded)?;
    if is_joined_to(loaded, &last) {
        return None;
    }
    Some(last)
}

// What is loaded, once the log begins behind the log id.
fn starting_after(loaded: LoadedGroup, last: LogId<u64>) -> LoadedGroup
    ensures { (s : Stored) → IsLoaded loaded s → IsLoaded result (after_storing (StartAfter last) s) }
{
    let mut loaded = loaded;
    loaded.purged = Some(last);
    loaded.log.clear();
    loaded
}

impl Member {
    // The engine starts with what is stored, whose log belongs to the snapshot.
    fn start<S: GroupStorage>(
        &mut self,
        alloc: Global,
        loaded: &LoadedGroup,
        stop: Option<u64>,
        storage: &mut S,
        group: u64,
    ) -> Result<Ended<S::Snapshot>, S::Fault>
        ensures id { self.new.id ≡ self.old.id }
        ensures well { S.is_well storage.old → OnOk result (S.is_well storage.new) }
        ensures ok { (st : Stored) → IsLoaded loaded.now (opened st).state.stored
            → IsDown (S.is_well storage.old) (S.shows storage.old group) self.old (opened st).state.stored → IsOpenable self.old.id st
            → IfOk result (HasRun S.stands (S.is_well storage.new) (S.shows storage.new group) (opened st).state.stored
            (finished self.old.id None (resume_lead self.old.id (unchanged (opened st).state))) stop self.new) }
        ensures err { (st : Stored) → IsLoaded loaded.now (opened st).state.stored
            → IsDown (S.is_well storage.old) (S.shows storage.old group) self.old (opened st).state.stored → IsOpenable self.old.id st
            → OnErr result (HasHalted (S.shows storage.new group) (S.fails storage.new) (opened st).state.stored
            (finished self.old.id None (resume_lead self.old.id (unchanged (opened st).state))) self.new) }
        ensures others { KeepsOthers (S.shows storage.old) (S.shows storage.new) group }
        ensures met { S.meets storage.old storage.new (result_err result) }
    {
        let Some(mut engine) = opened_engine(alloc, self.id, loaded)? else {
            return Ok(Ended::Skipped);
        };
        let told = self.end_without_snapshot(alloc, &mut engine, 0, stop, storage, group);
        self.put_back(engine, &told);
        told
    }

    /// The member is opened with what is stored (own): what the snapshot has is committed and
    /// applied, a log that doesn't belong to the snapshot is dropped, and the node leads on under a
    /// committed vote of its own. It may stop after so many storing commands. At a fault of the
    /// storage, or without memory, the member is down: some of the storing commands are done, from
    /// the first on, and the one that failed is or isn't. Other groups are as they were.
    pub fn open<S: GroupStorage>(
        &mut self,
        alloc: Global,
        stop: Option<u64>,
        storage: &mut S,
        group: u64,
    ) -> Result<Ended<S::Snapshot>, S::Fault>
        ensures id { self.new.id ≡ self.old.id }
        ensures well { S.is_well storage.old → OnOk result (S.is_well storage.new) }
        ensures ok { (st : Stored) → IsDown (S.is_well storage.old) (S.shows storage.old group) self.old st → IsOpenable self.old.id st
            → IfOk result (HasEnded S.stands (S.is_well storage.new) (S.shows storage.new group) self.old.id (state_of st) Open stop self.new) }
        ensures err { (st : Stored) → IsDown (S.is_well storage.old) (S.shows storage.old group) self.old st → IsOpenable self.old.id st
            → OnErr result (HasStopped (S.shows storage.new group) (S.fails storage.new) self.old.id (state_of st) Open self.new) }
        ensures up { is_some self.old.engine ≡ true → (result ≡ Ok Skipped) × (self.new ≡ self.old) × KeepsAll (S.shows storage.old) (S.shows storage.new) }
        ensures others { KeepsOthers (S.shows storage.old) (S.shows storage.new) group }
        ensures met { S.meets storage.old storage.new (result_err result) }
    {
        if self.engine.is_some() {
            return Ok(Ended::Skipped);
        }
        let loaded = storage.load(alloc, group)?;
        let Some(last) = stale_end(&loaded) else {
            return self.start(alloc, &loaded, stop, storage, group);
        };
        let stop_later = match stop {
            Some(0) => return Ok(Ended::Stopped),
            Some(count) => Some(count - 1),
            None => None,
        };
        storage.start_after(group, last)?;
        let loaded = starting_after(loaded, last);
        self.start(alloc, &loaded, stop_later, storage, group)
    }
}
