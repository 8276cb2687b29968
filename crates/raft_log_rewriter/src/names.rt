//! What a group has in the rewrite queue.

ghost use Rattle.std.specs.Prelude.{◌≡◌, ◌≤◌, ◌<◌, ℕ, List, map, true, IfErr, IfOk, IsTrue, OnOk};
ghost use Rattle.std.specs.Map.Iter.{deref_pair};
ghost use Rattle.raft_log_covers.specs.Marks.{is_in};
ghost use Rattle.raft_log_files.specs.declared.error.Error.TheVariants.{EntryNotFound};
ghost use Rattle.raft_log_purge.specs.Anew.{names_of};
ghost use Rattle.raft_log_memtables.specs.MemTables.{content_in};
ghost use Rattle.raft_log_records.specs.Batch.{payloads};
ghost use Rattle.raft_log_rewriter.specs.Parts.{AreStoredNames, IsStoredRange};
ghost use Rattle.raft_log_traces.specs.GroupTraces.{traces_in};

use raft_log_files::Error;
use raft_log_traced::TracedTables;
use raft_log_traces::GroupTraces;
use std::alloc::{AllocError, Global};

/// The indexes from one on, up to before another one, as far as an entry may have them.
fn as_range(low: u128, stop: u128) -> Result<(u64, u64), Error>
    ensures same { IfOk result (λ range. low < stop → (range.0 ≡ low) × (range.1 ≡ stop)) }
    ensures none { IfOk result (λ range. stop ≤ low → range.0 ≡ range.1) }
    ensures cause { IfErr result (λ e. e ≡ EntryNotFound) }
{
    if stop <= low {
        return Ok((0, 0));
    }
    if stop > u64::MAX as u128 {
        return Err(Error::EntryNotFound);
    }
    Ok((low as u64, stop as u64))
}

/// The entries of a group that stand in the rewrite queue: from an index on, up to before another one.
/// A list that reaches the greatest index is refused.
pub(crate) fn stored_range(traces: &GroupTraces, group: u64) -> Result<(u64, u64), Error>
    ensures is { IfOk result (λ range. IsStoredRange (traces_in traces.now group) range.0 range.1) }
    ensures cause { IfErr result (λ e. e ≡ EntryNotFound) }
{
    match traces.get(group) {
        None => Ok((0, 0)),
        Some(trace) => as_range(trace.low(), trace.rewritten_end()),
    }
}

/// Whether a key of a group stands in the rewrite queue. It is told so of one that isn't there, too.
fn is_stored(traces: &GroupTraces, group: u64, name: &[u8]) -> bool
    ensures { (traces_in traces.now group).key_file name.now ≡ None → IsTrue result }
{
    match traces.get(group) {
        None => true,
        Some(trace) => trace.key_file(name).is_none(),
    }
}

/// Adds a copy of the name of a key, if it stands in the rewrite queue.
fn add_stored(
    alloc: Global,
    traces: &GroupTraces,
    group: u64,
    name: &[u8],
    names: &mut Vec<Vec<u8>>,
) -> Result<(), AllocError>
    ensures kept { OnOk result ((k : List ℕ) → is_in k (payloads names.old.items) ≡ true → is_in k (payloads names.new.items) ≡ true) }
    ensures added { OnOk result ((traces_in traces.now group).key_file name.now ≡ None → is_in name.now (payloads names.new.items) ≡ true) }
{
    if !is_stored(traces, group, name) {
        return Ok(());
    }
    let copy = Vec::from_slice(alloc, name)?;
    names.push(copy)?;
    Ok(())
}

/// Copies of the names of those keys that stand in the rewrite queue.
fn names_among(
    alloc: Global,
    traces: &GroupTraces,
    group: u64,
    found: &[(&[u8], &[u8])],
) -> Result<Vec<Vec<u8>>, AllocError>
    ensures { IfOk result (λ names. (k : List ℕ) → is_in k (names_of (map deref_pair found.now)) ≡ true → (traces_in traces.now group).key_file k ≡ None
        → is_in k (payloads names.items) ≡ true) }
{
    let mut names = Vec::new(alloc);
    for pair in found {
        add_stored(alloc, traces, group, pair.0, &mut names)?;
    }
    Ok(names)
}

/// Copies of the names of all keys of a group that stand in the rewrite queue.
pub(crate) fn stored_names(
    alloc: Global,
    log: &TracedTables,
    group: u64,
) -> Result<Vec<Vec<u8>>, AllocError>
    ensures { IfOk result (λ names. AreStoredNames (traces_in log.now.traces group) (content_in log.now.tables group).value (payloads names.items)) }
{
    let found = log.tables.scan(group, None, None, false)?;
    names_among(alloc, &log.traces, group, &found)
}
