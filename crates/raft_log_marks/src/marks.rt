//! The marks of a group.

ghost use Rattle.std.specs.Prelude.{◌≡◌, ◌≤◌, ◌++◌, ◌∷◌, [], map, OnOk, IfOk, IfErr};
ghost use Rattle.raft_log_records.specs.Item.Change.{clean, compact, delete};
ghost use Rattle.raft_log_records.specs.declared.error.RecordError.TheVariants.{Memory};
ghost use Rattle.raft_log_covers.specs.Marks.{of_group, deletes};
ghost use Rattle.raft_log_traces.specs.Traces.{trace_in};
ghost use Rattle.raft_log_marks.specs.Caused.{IsMarkFault};
ghost use Rattle.raft_log_marks.specs.GroupMarks.{marks_of};
ghost use Rattle.raft_log_marks.specs.declared.marks.MarkError.TheVariants.{Record};

use raft_log_records::{Command, LogBatch, RecordError};
use raft_log_traces::GroupTrace;
use std::alloc::{AllocError, AllocFailed, Global};
use thiserror::Error;

/// Why a group's marks aren't written (own).
#[derive(Clone, Copy, Debug, PartialEq, Eq, Error)]
pub enum MarkError {
    /// The batch would be too long, or memory is missing.
    #[error("{0}")]
    Record(RecordError),
    /// A deleted key has no bytes: no record has such a key.
    #[error("a deleted key has no bytes")]
    EmptyKey,
    /// The group has no entry, and had one at the greatest index: no `Compact` goes past that.
    #[error("no mark goes past the greatest index")]
    PastGreatestIndex,
}

impl From<RecordError> for MarkError {
    ghost from_gives = { λ error e. e ≡ Record error };

    fn from(e: RecordError) -> MarkError {
        MarkError::Record(e)
    }
}

impl From<AllocError> for MarkError {
    ghost from_gives = { λ _ e. e ≡ Record Memory };

    fn from(_e: AllocError) -> MarkError {
        MarkError::Record(RecordError::Memory)
    }
}

impl<T: Drop> From<AllocFailed<T>> for MarkError {
    ghost from_gives = { λ _ e. e ≡ Record Memory };

    fn from(_e: AllocFailed<T>) -> MarkError {
        MarkError::Record(RecordError::Memory)
    }
}

fn add_clean(batch: &mut LogBatch, raft_group_id: u64) -> Result<(), MarkError>
    ensures added { OnOk result (batch.new.items ≡ batch.old.items ++ of_group raft_group_id (clean ∷ [])) }
    ensures cause { IfErr result IsMarkFault }
{
    batch.add_command(raft_group_id, Command::Clean)?;
    Ok(())
}

/// The index that a `Compact` names.
fn compact_index(low: u128) -> Result<u64, MarkError>
    ensures is { IfOk result (λ index. index ≡ low) }
    ensures cause { IfErr result IsMarkFault }
{
    if low > u64::MAX as u128 {
        return Err(MarkError::PastGreatestIndex);
    }
    Ok(low as u64)
}

fn add_compact(batch: &mut LogBatch, raft_group_id: u64, low: u128) -> Result<(), MarkError>
    ensures added { OnOk result (batch.new.items ≡ batch.old.items ++ of_group raft_group_id (compact low ∷ [])) }
    ensures cause { IfErr result IsMarkFault }
{
    let index = compact_index(low)?;
    batch.add_command(raft_group_id, Command::Compact { index })?;
    Ok(())
}

fn add_delete(
    alloc: Global,
    batch: &mut LogBatch,
    raft_group_id: u64,
    name: &[u8],
) -> Result<(), MarkError>
    ensures added { OnOk result (batch.new.items ≡ batch.old.items ++ of_group raft_group_id (delete name.now ∷ [])) }
    ensures cause { IfErr result IsMarkFault }
{
    if name.is_empty() {
        return Err(MarkError::EmptyKey);
    }
    let key = Vec::from_slice(alloc, name)?;
    batch.delete(raft_group_id, key)?;
    Ok(())
}

fn add_deletes(
    alloc: Global,
    batch: &mut LogBatch,
    raft_group_id: u64,
    names: &[&[u8]],
) -> Result<(), MarkError>
    ensures added { OnOk result (batch.new.items ≡ batch.old.items ++ of_group raft_group_id (deletes (map (λ n. n.now) names.now))) }
    ensures cause { IfErr result IsMarkFault }
{
    for name in names {
        add_delete(alloc, batch, raft_group_id, name)?;
    }
    Ok(())
}

/// Adds the marks of a group that is there, but for its `Clean`.
fn add_removals(
    alloc: Global,
    batch: &mut LogBatch,
    raft_group_id: u64,
    trace: &GroupTrace,
) -> Result<(), MarkError>
    ensures added { OnOk result (batch.new.items
        ≡ batch.old.items ++ of_group raft_group_id (compact (trace_in trace.now).low ∷ deletes (trace_in trace.now).deleted)) }
    ensures cause { IfErr result IsMarkFault }
{
    add_compact(batch, raft_group_id, trace.low())?;
    let names = trace.deleted(alloc)?;
    add_deletes(alloc, batch, raft_group_id, &names)
}

/// Adds the marks of a group to a batch for the rewrite queue (own): all that was removed from it
/// since its last marks. Of a group that isn't there a `Clean`. Of one that is there a `Clean` if it
/// was cleaned since, then a `Compact` to its first index (without entries, to one past the greatest
/// that it ever had), then a deletion of each key that was deleted. After an `Err` the batch may have
/// some of them.
pub fn add_marks(
    alloc: Global,
    batch: &mut LogBatch,
    raft_group_id: u64,
    is_there: bool,
    trace: &GroupTrace,
) -> Result<(), MarkError>
    ensures added { OnOk result (batch.new.items ≡ batch.old.items ++ of_group raft_group_id (marks_of is_there (trace_in trace.now))) }
    ensures cause { IfErr result IsMarkFault }
{
    if !is_there {
        return add_clean(batch, raft_group_id);
    }
    if !trace.is_cleaned() {
        return add_removals(alloc, batch, raft_group_id, trace);
    }
    add_clean(batch, raft_group_id)?;
    add_removals(alloc, batch, raft_group_id, trace)
}
