//! Entries and keys of groups, in a batch for the rewrite queue.

ghost use Rattle.std.specs.Prelude.{◌≡◌, ◌+◌, ◌<◌, ◌^◌, ◌∷◌, ◌++◌, [], false, true, length, IfErr, List, ℕ, OnOk, Some};
ghost use Rattle.raft_log_marks.specs.Caused.{IsBatchFault};
ghost use Rattle.raft_log_memtables.specs.Content.{Content};
ghost use Rattle.raft_log_purge.specs.Steps.{HasSteps, IsFrontOf};
ghost use Rattle.raft_log_records.specs.Batch.{payloads, run_of};
ghost use Rattle.raft_log_records.specs.Item.Change.{put};
ghost use Rattle.raft_log_traces.specs.GroupTraces.{traces_in};

use raft_log_records::{LogBatch, RecordError};
use raft_log_traces::GroupTraces;

/// Adds entries of a group, one at least, from an index on.
fn add_run(
    batch: &mut LogBatch,
    group: u64,
    first: u64,
    entries: &[Vec<u8>],
) -> Result<(), RecordError>
    requires some { 0 < length entries.now }
    requires indexes { first + length entries.now < 2 ^ 64 }
    ensures added { OnOk result (batch.new.items ≡ batch.old.items ++ run_of group first (payloads entries.now) ∷ []) }
    ensures cause { IfErr result IsBatchFault }
{
    batch.add_raw_entries(group, first, entries)
}

/// Adds entries of a group to a batch for the rewrite queue, from an index on, and notes them in its
/// trace: so the batch has to be written before anything else is done. They are what the group has
/// from the first entry on that stands in an append file, or from an earlier one on, to the end of
/// its list or to an entry that stands in an append file.
pub fn rewrite_entries(
    batch: &mut LogBatch,
    traces: &mut GroupTraces,
    group: u64,
    first: u64,
    entries: &[Vec<u8>],
) -> Result<(), RecordError>
    requires some { 0 < length entries.now }
    requires indexes { first + length entries.now < 2 ^ 64 }
    ensures written { OnOk result (batch.new.items ≡ batch.old.items ++ run_of group first (payloads entries.now) ∷ []) }
    ensures steps { OnOk result ((content : Content (List ℕ)) → IsFrontOf content (traces_in traces.old) group first (payloads entries.now)
        → HasSteps content (traces_in traces.old) batch.old.items (traces_in traces.new) batch.new.items) }
    ensures cause { IfErr result IsBatchFault }
{
    add_run(batch, group, first, entries)?;
    traces.set_rewritten(group, first as u128 + entries.len() as u128);
    Ok(())
}

/// Adds a key of a group to a batch for the rewrite queue, with the value that it has, and notes it
/// in the group's trace: so the batch has to be written before anything else is done, also after an
/// `Err`.
pub fn rewrite_key(
    batch: &mut LogBatch,
    traces: &mut GroupTraces,
    group: u64,
    key: Vec<u8>,
    value: Vec<u8>,
) -> Result<(), RecordError>
    requires { 0 < length key.items }
    ensures written { OnOk result (batch.new.items ≡ batch.old.items ++ record { group = group; change = put key.items value.items } ∷ []) }
    ensures steps { OnOk result ((content : Content (List ℕ)) → (traces_in traces.old group).cleaned ≡ false → (content group).there ≡ true
        → (content group).value key.items ≡ Some value.items → HasSteps content (traces_in traces.old) batch.old.items (traces_in traces.new) batch.new.items) }
    ensures cause { IfErr result IsBatchFault }
{
    traces.set_key_rewritten(group, &key);
    batch.put(group, key, value)
}
