//! The batch of each storing command.
ghost use Rattle.std.specs.Prelude.{◌≡◌, ◌<◌, ◌≤◌, ◌+◌, ◌^◌, ◌++◌, [], ◌∷◌, ℕ, List, length, map, IfErr, IfOk, OnOk, Some};
ghost use Rattle.std.specs.List.{AllByRecursion};
ghost use Rattle.raft_log_records.specs.Batch.{payloads};
ghost use Rattle.raft_log_records.specs.Spelling.{record_len};
ghost use Rattle.raft_log_records.specs.Item.{Change};
ghost use Rattle.raft_log_records.specs.Item.Change.{put};
ghost use Rattle.raft_wire.specs.Bodies.{FitsSnapshot};
ghost use Rattle.raft_wire.specs.Entries.{FitsEntry, spelled_entry};
ghost use Rattle.raft_wire.specs.Fields.{FitsLogId, FitsVote};
ghost use Rattle.raft_wire.specs.Frames.{fault_of_snapshot};
ghost use Rattle.raft_wire.specs.declared.error.FrameFault.TheVariants as frame_fault;
ghost use Rattle.raft_store.specs.Batches.{of_group, vote_changes, make_changes, end_changes};
ghost use Rattle.raft_store.specs.Batches.{IsRemoval, entry_changes, purge_changes, snapshot_changes};
ghost use Rattle.raft_store.specs.Faults.{IsMemoryOr};
ghost use Rattle.raft_store.specs.Storable.{AreShort, IsPutRefusal};
ghost use Rattle.raft_store.specs.declared.fault.StoreRefusal.TheVariants as refusal;

use crate::fault::StoreRefusal;
use crate::recent::Recent;
use raft_log_records::{Command, LogBatch};
use raft_messages::{GroupEntry, SnapshotBytes};
use raft_state::{LogId, Vote};
use raft_wire::{write_entry, write_log_id, write_place, write_snapshot_body, write_vote};
use std::alloc::Global;

// Sets a key of the group.
fn put(
    alloc: Global,
    batch: &mut LogBatch,
    group: u64,
    key: &[u8],
    value: Vec<u8>,
) -> Result<(), StoreRefusal>
    requires { 0 < length key.now }
    ensures items { OnOk result (batch.new.items ≡ batch.old.items ++ of_group group (put key.now value.items ∷ [])) }
    ensures refused { IfErr result (IsMemoryOr refusal.TooLong (33554432 < record_len (batch.old.items ++ of_group group (put key.now value.items ∷ [])))) }
{
    let key = Vec::from_slice(alloc, key)?;
    Ok(batch.put(group, key, value)?)
}

/// The group is there.
pub fn make_batch(alloc: Global, group: u64) -> Result<LogBatch, StoreRefusal>
    ensures items { IfOk result (λ b. b.items ≡ of_group group make_changes) }
    ensures refused { IfErr result (λ why. why ≡ refusal.Memory) }
{
    let mut batch = LogBatch::new(alloc);
    put(alloc, &mut batch, group, b"group", Vec::new(alloc))?;
    Ok(batch)
}

/// The vote.
pub fn vote_batch(alloc: Global, group: u64, vote: Vote<u64>) -> Result<LogBatch, StoreRefusal>
    ensures items { IfOk result (λ b. b.items ≡ of_group group (vote_changes vote)) }
    ensures fits { OnOk result (FitsVote vote) }
    ensures refused { IfErr result (λ why. why ≡ refusal.Memory) }
{
    let value = write_vote(alloc, &vote)?;
    let mut batch = LogBatch::new(alloc);
    put(alloc, &mut batch, group, b"vote", value)?;
    Ok(batch)
}

/// The snapshot.
pub fn snapshot_batch(
    alloc: Global,
    group: u64,
    snapshot: &SnapshotBytes,
) -> Result<LogBatch, StoreRefusal>
    ensures items { IfOk result (λ b. b.items ≡ of_group group (snapshot_changes snapshot.now)) }
    ensures fits { OnOk result (FitsSnapshot snapshot.now) }
    ensures refused { IfErr result (IsMemoryOr (refusal.Value frame_fault.TooLong) (fault_of_snapshot snapshot.now.meta.last_membership snapshot.now.bytes ≡ Some frame_fault.TooLong)) }
{
    let value = write_snapshot_body(alloc, &snapshot.meta, &snapshot.bytes)?;
    let mut batch = LogBatch::new(alloc);
    put(alloc, &mut batch, group, b"snapshot", value)?;
    Ok(batch)
}

// The log ends before the place.
fn put_end(alloc: Global, batch: &mut LogBatch, group: u64, end: u64) -> Result<(), StoreRefusal>
    ensures items { OnOk result (batch.new.items ≡ batch.old.items ++ of_group group (end_changes end)) }
    ensures refused { IfErr result (IsMemoryOr refusal.TooLong (33554432 < record_len (batch.old.items ++ of_group group (end_changes end)))) }
{
    let value = write_place(alloc, end)?;
    put(alloc, batch, group, b"end", value)
}

/// The log's end.
pub fn end_batch(alloc: Global, group: u64, end: u64) -> Result<LogBatch, StoreRefusal>
    ensures items { IfOk result (λ b. b.items ≡ of_group group (end_changes end)) }
    ensures fits { end < 2 ^ 64 }
    ensures refused { IfErr result (λ why. why ≡ refusal.Memory) }
{
    let mut batch = LogBatch::new(alloc);
    put_end(alloc, &mut batch, group, end)?;
    Ok(batch)
}

// The bytes of each entry.
fn spelled(alloc: Global, entries: &[GroupEntry]) -> Result<Vec<Vec<u8>>, StoreRefusal>
    ensures bytes { IfOk result (λ all. payloads all.items ≡ map spelled_entry entries.now) }
    ensures fits { OnOk result (AllByRecursion FitsEntry entries.now) }
    ensures refused { IfErr result (IsMemoryOr (refusal.Value frame_fault.TooLong) (AreShort entries.now → ⊥)) }
{
    let mut all = Vec::with_capacity(alloc, entries.len())?;
    for entry in entries {
        all.push(write_entry(alloc, entry)?)?;
    }
    Ok(all)
}

/// Entries from the place on, and the log's end behind them; and what is to be remembered of them.
pub fn entry_batch(
    alloc: Global,
    group: u64,
    place: u64,
    entries: &[GroupEntry],
) -> Result<(LogBatch, Recent), StoreRefusal>
    ensures items { IfOk result (λ x. x.0.items ≡ of_group group (entry_changes place entries.now (place + length entries.now))) }
    ensures group { IfOk result (λ x. x.1.group ≡ group) }
    ensures place { IfOk result (λ x. x.1.place ≡ place) }
    ensures bytes { IfOk result (λ x. payloads x.1.entries.items ≡ map spelled_entry entries.now) }
    ensures fits { OnOk result (AllByRecursion FitsEntry entries.now) }
    ensures places { OnOk result (place + length entries.now < 2 ^ 64) }
    ensures refused { IfErr result (IsPutRefusal group place entries.now) }
{
    let Some(end) = place.checked_add(entries.len() as u64) else {
        return Err(StoreRefusal::NoPlace);
    };
    let entries = spelled(alloc, entries)?;
    let mut batch = LogBatch::new(alloc);
    batch.add_raw_entries(group, place, &entries)?;
    put_end(alloc, &mut batch, group, end)?;
    let recent = Recent {
        group,
        place,
        entries,
    };
    Ok((batch, recent))
}

// The purge point, and no entries up to its place.
fn put_purge(
    alloc: Global,
    batch: &mut LogBatch,
    group: u64,
    id: LogId<u64>,
    first: u64,
) -> Result<(), StoreRefusal>
    requires { first ≡ id.index + 1 }
    ensures items { OnOk result (batch.new.items ≡ batch.old.items ++ of_group group (purge_changes id [])) }
    ensures fits { OnOk result (FitsLogId id) }
    ensures refused { batch.old.items ≡ [] → IfErr result (λ why. why ≡ refusal.Memory) }
{
    let value = write_log_id(alloc, &id)?;
    put(alloc, batch, group, b"purged", value)?;
    Ok(batch.add_command(group, Command::Compact { index: first })?)
}

/// The log begins behind the log id, and has entries.
pub fn purge_batch(alloc: Global, group: u64, id: LogId<u64>) -> Result<LogBatch, StoreRefusal>
    ensures items { IfOk result (λ b. b.items ≡ of_group group (purge_changes id [])) }
    ensures fits { OnOk result (FitsLogId id) }
    ensures refused { IfErr result (IsMemoryOr refusal.NoPlace (2 ^ 64 ≤ id.index + 1)) }
{
    let Some(first) = id.index.checked_add(1) else {
        return Err(StoreRefusal::NoPlace);
    };
    let mut batch = LogBatch::new(alloc);
    put_purge(alloc, &mut batch, group, id, first)?;
    Ok(batch)
}

/// The log begins behind the log id, and has none.
pub fn start_batch(alloc: Global, group: u64, id: LogId<u64>) -> Result<LogBatch, StoreRefusal>
    ensures items { IfOk result (λ b. b.items ≡ of_group group (purge_changes id (end_changes (id.index + 1)))) }
    ensures fits { OnOk result (FitsLogId id) }
    ensures places { OnOk result (id.index + 1 < 2 ^ 64) }
    ensures refused { IfErr result (IsMemoryOr refusal.NoPlace (2 ^ 64 ≤ id.index + 1)) }
{
    let Some(first) = id.index.checked_add(1) else {
        return Err(StoreRefusal::NoPlace);
    };
    let mut batch = LogBatch::new(alloc);
    put_purge(alloc, &mut batch, group, id, first)?;
    put_end(alloc, &mut batch, group, first)?;
    Ok(batch)
}

/// The log begins behind the log id. Where it gets empty, its end goes along.
pub fn removal_batch(
    alloc: Global,
    group: u64,
    id: LogId<u64>,
    end: u64,
) -> Result<LogBatch, StoreRefusal>
    ensures items { IfOk result (λ b. (changes : List (Change (List ℕ))) × (b.items ≡ of_group group changes) × IsRemoval id end changes) }
    ensures fits { OnOk result (FitsLogId id) }
    ensures refused { IfErr result (IsMemoryOr refusal.NoPlace (2 ^ 64 ≤ id.index + 1)) }
{
    if end.saturating_sub(id.index) > 1 {
        Ok(purge_batch(alloc, group, id)?)
    } else {
        Ok(start_batch(alloc, group, id)?)
    }
}
