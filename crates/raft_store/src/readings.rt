//! What the values of a group's keys, and the bytes of its entries, read as.
ghost use Rattle.std.specs.Prelude.{◌≡◌, ℕ, List, Option, IfOk, MatchResult, map, option_map};
ghost use Rattle.std.specs.List.{AllByRecursion};
ghost use Rattle.raft_values.specs.declared.log_id.LogId.{LogId as LogIdOf};
ghost use Rattle.raft_values.specs.declared.vote.Vote.{Vote as VoteOf};
ghost use Rattle.raft_group_step.specs.Values.{Entry};
ghost use Rattle.raft_group_step.specs.StoredGroup.{Snapshot};
ghost use Rattle.raft_group_storage.specs.Keeping.{StandsOrNone};
ghost use Rattle.raft_log_records.specs.Batch.{payloads};
ghost use Rattle.raft_machines.specs.Machine.{MachineRules};
ghost use Rattle.raft_wire.specs.Bodies.{spelled_snapshot};
ghost use Rattle.raft_wire.specs.Entries.{FitsEntry, spelled_entry};
ghost use Rattle.raft_wire.specs.Fields.{FitsLast, spelled_log_id};
ghost use Rattle.raft_store.specs.Faults.{IsRead};
ghost use Rattle.raft_store.specs.Reading.{HoldsEnd, HoldsSnapshot, HoldsVote, StandsFor};
ghost use Rattle.raft_store.specs.declared.fault.StoreRefusal.TheVariants as refusal;

use crate::fault::StoreRefusal;
use raft_messages::{GroupEntry, SnapshotBytes};
use raft_state::{LogId, Vote};
use raft_wire::{read_entry, read_log_id, read_place, read_snapshot_body, read_vote};
use std::alloc::Global;

/// The vote, by the value of its key.
pub fn vote_of(value: Option<Vec<u8>>) -> Result<Vote<u64>, StoreRefusal>
    ensures read { (vote : VoteOf ℕ) → HoldsVote (option_map (λ v. v.items) value) vote → IsRead result vote }
    // Other bytes are refused.
    ensures found { IfOk result (λ vote. HoldsVote (option_map (λ v. v.items) value) vote) }
{
    match value {
        None => Ok(Vote::new(0, 0)),
        Some(bytes) => Ok(read_vote(&bytes)?),
    }
}

/// The log id up to which the log is purged, by the value of its key.
pub fn purged_of(value: Option<Vec<u8>>) -> Result<Option<LogId<u64>>, StoreRefusal>
    ensures read { (id : Option (LogIdOf ℕ)) → FitsLast id → option_map (λ v. v.items) value ≡ option_map spelled_log_id id → IsRead result id }
    // Other bytes are refused.
    ensures found { IfOk result (λ id. option_map (λ v. v.items) value ≡ option_map spelled_log_id id) }
{
    match value {
        None => Ok(None),
        Some(bytes) => Ok(Some(read_log_id(&bytes)?)),
    }
}

/// The place behind the log's last entry, by the value of its key.
pub fn end_of(value: Option<Vec<u8>>) -> Result<u64, StoreRefusal>
    ensures read { (end : ℕ) → HoldsEnd (option_map (λ v. v.items) value) end → IsRead result end }
    // Other bytes are refused.
    ensures found { IfOk result (λ end. HoldsEnd (option_map (λ v. v.items) value) end) }
{
    match value {
        None => Ok(0),
        Some(bytes) => Ok(read_place(&bytes)?),
    }
}

/// The snapshot, by the value of its key.
pub fn snapshot_of(
    alloc: Global,
    value: Option<Vec<u8>>,
) -> Result<Option<SnapshotBytes>, StoreRefusal>
    ensures read { (rules : MachineRules) (x : Option Snapshot) → HoldsSnapshot rules (option_map (λ v. v.items) value) x
        → MatchResult result (λ found. StandsOrNone (StandsFor rules) found x) (λ refused. refused ≡ refusal.Memory) }
    // Other bytes are refused.
    ensures found { IfOk result (λ x. option_map (λ v. v.items) value ≡ option_map spelled_snapshot x) }
{
    match value {
        None => Ok(None),
        Some(bytes) => Ok(Some(read_snapshot_body(alloc, &bytes)?)),
    }
}

/// Entries, by the bytes of each.
pub fn entries_of(alloc: Global, all: &[Vec<u8>]) -> Result<Vec<GroupEntry>, StoreRefusal>
    ensures read { (entries : List Entry) → AllByRecursion FitsEntry entries → payloads all.now ≡ map spelled_entry entries
        → MatchResult result (λ found. found.items ≡ entries) (λ refused. refused ≡ refusal.Memory) }
    // Other bytes are refused.
    ensures found { IfOk result (λ found. payloads all.now ≡ map spelled_entry found.items) }
{
    let mut entries = Vec::with_capacity(alloc, all.len())?;
    for bytes in all {
        entries.push(read_entry(alloc, bytes)?)?;
    }
    Ok(entries)
}
