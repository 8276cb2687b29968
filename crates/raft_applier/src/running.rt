//! A machine goes on to what is committed.
ghost use Rattle.std.specs.Prelude.{◌≡◌, ◌+◌, ◌<◌, ◌^◌, [], ◌∷◌, List, IfOk, IfSome, OnErr, OnOk, drop, length};
ghost use Rattle.raft_values.specs.LogId.{next_place};
ghost use Rattle.raft_group_step.specs.Values.{Entry};
ghost use Rattle.raft_group_step.specs.StoredGroup.{StoredGroup as Stored, snapshot_last};
ghost use Rattle.raft_group_step.specs.GroupState.{GroupState};
ghost use Rattle.std.specs.Result.{result_err};
ghost use Rattle.raft_group_storage.specs.Keeping.{FailsAnyhow, KeepsAll, entries_of};
ghost use Rattle.raft_laws.specs.OneList.{applied_list};
ghost use Rattle.raft_machines.specs.Fold.{fold_of};
ghost use Rattle.raft_machines.specs.Telling.{AreToldAs, WaitFrom, untold_of};
ghost use Rattle.raft_applier.specs.Applied.{answers_of};
ghost use Rattle.raft_applier.specs.Following.{AreOfMachine};
ghost use Rattle.raft_applier.specs.Running.{HasItsList, HasRun, later_id};

use raft_group_step::Entries;
use raft_group_storage::GroupStorage;
use raft_machines::{StateMachine, Told, Untold, run_entries};
use raft_messages::{GroupEntry, SnapshotBytes};
use raft_state::{BasicNode, Bytes, LogId};
use raft_values::log_id_option_ext::stands_before;
use std::alloc::{AllocError, Global};

// The place behind the log id, where so many places more have numbers of 64 bits.
fn place_behind(last: Option<LogId<u64>>, count: usize) -> Option<u64>
    ensures { IfSome result (λ place. (place ≡ next_place last) × (place + count < 2 ^ 64)) }
{
    let place = match last {
        None => 0,
        Some(id) => id.index.checked_add(1)?,
    };
    let _end = place.checked_add(count as u64)?;
    Some(place)
}

// Where the snapshot goes past what the machine has run, the machine goes to the snapshot. What it
// has run then is answered by its last log id.
pub(crate) fn restore<M: StateMachine, S: GroupStorage<Snapshot = SnapshotBytes>>(
    alloc: Global,
    machine: &mut M,
    last: Option<LogId<u64>>,
    snapshot: Option<LogId<u64>>,
    storage: &mut S,
    group: u64,
) -> Result<Option<LogId<u64>>, S::Fault>
    ensures well { S.is_well storage.old → OnOk result (S.is_well storage.new) }
    ensures ok { (s : GroupState) → AreOfMachine M.rules S.stands → S.is_well storage.old → S.shows storage.old group (s.stored ∷ [])
        → snapshot ≡ snapshot_last s.stored → HasItsList s → HasRun M.rules (M.state machine.old) last (applied_list s)
        → IfOk result (λ now. HasRun M.rules (M.state machine.new) now (applied_list s)) }
    ensures goes { (s : GroupState) → S.is_well storage.old → S.shows storage.old group (s.stored ∷ []) → snapshot ≡ snapshot_last s.stored
        → IfOk result (λ now. now ≡ later_id last snapshot) }
    ensures failed { (s : Stored) → S.is_well storage.old → S.shows storage.old group (s ∷ []) → OnErr result (FailsAnyhow (S.fails storage.new)) }
    ensures kept { KeepsAll (S.shows storage.old) (S.shows storage.new) }
    ensures met { S.meets storage.old storage.new (result_err result) }
{
    if !stands_before(&last, &snapshot) {
        return Ok(last);
    }
    let stored = storage.snapshot(alloc, group)?;
    let Some(stored) = stored else {
        return Ok(last);
    };
    machine.restore(stored.bytes.as_slice())?;
    Ok(snapshot)
}

// The log's entries behind the first log id, up to the second.
pub(crate) fn entries_after<S: GroupStorage>(
    alloc: Global,
    last: Option<LogId<u64>>,
    upto: Option<LogId<u64>>,
    storage: &mut S,
    group: u64,
) -> Result<Entries<u64, BasicNode, Bytes>, S::Fault>
    ensures well { S.is_well storage.old → OnOk result (S.is_well storage.new) }
    ensures ok { (s : Stored) → S.is_well storage.old → S.shows storage.old group (s ∷ []) → IfOk result (λ entries. entries ≡ entries_of s last upto) }
    ensures failed { (s : Stored) → S.is_well storage.old → S.shows storage.old group (s ∷ []) → OnErr result (FailsAnyhow (S.fails storage.new)) }
    ensures kept { KeepsAll (S.shows storage.old) (S.shows storage.new) }
    ensures met { S.meets storage.old storage.new (result_err result) }
{
    if !stands_before(&last, &upto) {
        return Ok(Entries::new(alloc));
    }
    storage.entries_between(alloc, group, last, upto)
}

// The machine runs the rest of a list, and those that wait for it are told the fold's answers. A
// list with more places than 64 bits can number counts as want of memory.
pub(crate) fn run_rest<M: StateMachine>(
    alloc: Global,
    machine: &mut M,
    last: Option<LogId<u64>>,
    entries: &[GroupEntry],
    waiting: &[Untold],
) -> Result<Vec<Told>, AllocError>
    ensures state { (list : List Entry) → entries.now ≡ drop (next_place last) list → HasRun M.rules (M.state machine.old) last list
        → OnOk result (M.state machine.new ≡ fold_of M.rules list) }
    ensures told { (list : List Entry) → entries.now ≡ drop (next_place last) list → HasRun M.rules (M.state machine.old) last list
        → WaitFrom (next_place last) (length list) (untold_of waiting.now)
        → IfOk result (λ told. AreToldAs (answers_of M.rules list) told.items (untold_of waiting.now)) }
{
    let Some(place) = place_behind(last, entries.len()) else {
        return Err(AllocError);
    };
    run_entries(alloc, machine, place, entries, waiting)
}
