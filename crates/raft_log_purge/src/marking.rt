//! Marks of groups, in a batch for the rewrite queue.

ghost use Rattle.std.specs.Prelude.{◌≡◌, ◌≤◌, ◌<◌, ◌⊎◌, ◌++◌, false, true, length, slice_index, List, ℕ, IfErr, IfOk, IsTrue, OnOk};
ghost use Rattle.raft_log_records.specs.Spelling.{record_len};
ghost use Rattle.raft_log_covers.specs.Kept.{with_trace};
ghost use Rattle.raft_log_covers.specs.Marks.{of_group};
ghost use Rattle.raft_log_marks.specs.Caused.{IsMarkFault};
ghost use Rattle.raft_log_marks.specs.GroupMarks.{marks_of, trace_after_marks};
ghost use Rattle.raft_log_memtables.specs.Content.{Content};
ghost use Rattle.raft_log_memtables.specs.MemTables.{content_in};
ghost use Rattle.raft_log_purge.specs.Marking.{is_before, needs_marks};
ghost use Rattle.raft_log_purge.specs.Steps.{AreThere, HasSteps};
ghost use Rattle.raft_log_traces.specs.Alike.{AreAlike};
ghost use Rattle.raft_log_traces.specs.GroupTraces.{traces_in};
ghost use Rattle.raft_log_traces.specs.Traces.{trace_in};

use raft_log_marks::{MarkError, add_marks};
use raft_log_memtables::MemTables;
use raft_log_records::{Command, FileSeq, LogBatch};
use raft_log_traces::{GroupTrace, GroupTraces};
use std::alloc::Global;

/// A batch with so many bytes is written.
const MOST_BATCH_BYTES: usize = 131_072;

/// Whether there is a file, and it comes before another one.
fn is_before(file: Option<FileSeq>, other: FileSeq) -> bool
    ensures { result ≡ is_before other file }
{
    match file {
        Some(file) => file < other,
        None => false,
    }
}

/// Whether a group has a change before a file of which no marks were written. Where no mark says it,
/// since it goes past the greatest index, the group keeps its files.
fn needs_marks(trace: &GroupTrace, file: FileSeq) -> bool
    ensures { result ≡ needs_marks file (trace_in trace.now) }
{
    is_before(trace.since(), file) && trace.low() <= u64::MAX as u128
}

/// Whether a batch has so many bytes that it is written.
fn is_large(batch: &LogBatch) -> bool
    ensures { IsTrue result → 131072 ≤ record_len batch.now.items }
{
    batch.approximate_size() >= MOST_BATCH_BYTES
}

/// The marks of a group are written.
fn note_marks(traces: &mut GroupTraces, group: u64, is_there: bool)
    ensures { AreAlike (with_trace group (trace_after_marks is_there (traces_in traces.old group)) (traces_in traces.old)) (traces_in traces.new) }
{
    if is_there {
        traces.set_marked(group);
    } else {
        traces.forget(group);
    }
}

/// Adds the marks of a group to a batch for the rewrite queue, where it needs some before the append
/// files before this one go, and notes them in its trace: so the batch has to be written before
/// anything else is done. After an `Err` the batch may have some of them.
pub fn mark_group(
    alloc: Global,
    batch: &mut LogBatch,
    tables: &MemTables,
    traces: &mut GroupTraces,
    group: u64,
    file: FileSeq,
) -> Result<(), MarkError>
    ensures steps { OnOk result ((content : Content (List ℕ)) → AreThere (λ g. (content_in tables.now g).there) content
        → HasSteps content (traces_in traces.old) batch.old.items (traces_in traces.new) batch.new.items) }
    ensures marked { OnOk result (needs_marks file (traces_in traces.new group) ≡ false) }
    ensures stays { OnOk result ((other : ℕ) → needs_marks file (traces_in traces.old other) ≡ false → needs_marks file (traces_in traces.new other) ≡ false) }
    ensures cause { IfErr result IsMarkFault }
{
    let Some(trace) = traces.get(group) else {
        return Ok(());
    };
    if !needs_marks(trace, file) {
        return Ok(());
    }
    let is_there = tables.has_group(group);
    add_marks(alloc, batch, group, is_there, trace)?;
    note_marks(traces, group, is_there);
    Ok(())
}

/// Adds the marks of a group that is there to a batch for the rewrite queue, whether it needs some or
/// not, and notes them in its trace: so the group is there in the rewrite queue, too. The batch has to
/// be written before anything else is done. After an `Err` it may have some of them.
pub fn mark_anyway(
    alloc: Global,
    batch: &mut LogBatch,
    traces: &mut GroupTraces,
    group: u64,
) -> Result<(), MarkError>
    ensures written { OnOk result (batch.new.items ≡ batch.old.items ++ of_group group (marks_of true (traces_in traces.old group))) }
    ensures steps { OnOk result ((content : Content (List ℕ)) → (content group).there ≡ true
        → HasSteps content (traces_in traces.old) batch.old.items (traces_in traces.new) batch.new.items) }
    ensures cause { IfErr result IsMarkFault }
{
    let Some(trace) = traces.get(group) else {
        batch.add_command(group, Command::Compact { index: 0 })?;
        return Ok(());
    };
    add_marks(alloc, batch, group, true, trace)?;
    traces.set_marked(group);
    Ok(())
}

/// Adds the marks of groups to a batch, in their order, as `mark_group` does, until the batch is
/// large. Answers how many groups that were: one at least, where there is one and the batch wasn't
/// large before.
pub fn mark_groups(
    alloc: Global,
    batch: &mut LogBatch,
    tables: &MemTables,
    traces: &mut GroupTraces,
    groups: &[u64],
    file: FileSeq,
) -> Result<usize, MarkError>
    ensures steps { OnOk result ((content : Content (List ℕ)) → AreThere (λ g. (content_in tables.now g).there) content
        → HasSteps content (traces_in traces.old) batch.old.items (traces_in traces.new) batch.new.items) }
    ensures marked { IfOk result (λ n. (k : ℕ) → k < n → needs_marks file (traces_in traces.new (slice_index groups.now k)) ≡ false) }
    ensures all_or_large { IfOk result (λ n. (n ≡ length groups.now) ⊎ (131072 ≤ record_len batch.new.items)) }
    ensures cause { IfErr result IsMarkFault }
{
    let mut count = 0;
    for group in groups {
        if is_large(batch) {
            return Ok(count);
        }
        mark_group(alloc, batch, tables, traces, *group, file)?;
        count += 1;
    }
    Ok(count)
}
