//! The traces that an opening makes of replayed ones, by the memtables of all that was read.

ghost use Rattle.std.specs.Prelude.{◌≡◌, ◌≤◌, ◌^◌, None, IfOk, OnOk, Option};
ghost use Rattle.std.specs.Prelude.{ℕ, true, false, List};
ghost use Rattle.std.specs.Ordering.{eq_by_cmp, nat_cmp};
ghost use Rattle.std.specs.Set.{is_member};
ghost use Rattle.raft_log_covers.specs.Kept.{new_trace, with_trace};
ghost use Rattle.raft_log_marks.specs.Opened.{AreEnds, file_at, past_of};
ghost use Rattle.raft_log_memtables.specs.MemTables.{content_in, reach_in};
ghost use Rattle.raft_log_traced.specs.Opened.{AreChanged, IsFiledOne, HasEntries, HasSince};
ghost use Rattle.raft_log_traced.specs.Opened.{IsNextWithin, IsSetOne, IsTailedOne, is_file, run_begun};
ghost use Rattle.raft_log_traced.specs.Traced.{lies_in};
ghost use Rattle.raft_log_traces.specs.Alike.{AreAlike, IsAlike};
ghost use Rattle.raft_log_traces.specs.GroupTraces.{traces_in};

use raft_log_memtables::MemTables;
use raft_log_records::{FileSeq, LogQueue};
use raft_log_traces::GroupTraces;
use std::alloc::AllocError;

/// One past the greatest index that an entry of a group ever had.
fn top_of(tables: &MemTables, group: u64) -> u128
    ensures reach { result ≡ past_of (reach_in tables.now group) }
    ensures within { result ≤ 2 ^ 64 }
{
    match tables.reached(group) {
        Some(most) => most as u128 + 1,
        None => 0,
    }
}

/// The ends of a group's entries, and one past the greatest index that they ever had.
fn ends_of(tables: &MemTables, group: u64) -> (u128, u128, u128)
    ensures ends { AreEnds (content_in tables.now group) (reach_in tables.now group) result.0 result.1 result.2 }
    ensures ordered { result.0 ≤ result.1 }
    ensures within { result.1 ≤ 2 ^ 64 }
{
    let top = top_of(tables, group);
    let Some(first) = tables.first_index(group) else {
        return (top, top, top);
    };
    let Some(last) = tables.last_index(group) else {
        return (top, top, top);
    };
    (first as u128, last as u128 + 1, top)
}

/// The append file of an entry. None: it stands in the rewrite queue, or isn't there.
fn file_of(tables: &MemTables, group: u64, index: u64) -> Option<FileSeq>
    ensures { result ≡ file_at lies_in ((content_in tables.now group).entry index) }
{
    let handle = tables.get_entry(group, index)?.entries?;
    match handle.id.queue {
        LogQueue::Append => Some(handle.id.seq),
        LogQueue::Rewrite => None,
    }
}

/// Whether it is this file.
fn is_file(before: Option<FileSeq>, file: FileSeq) -> bool
    ensures { result ≡ is_file before file }
{
    match before {
        Some(other) => other == file,
        None => false,
    }
}

/// From an index on the entries of a group stand in a file, if it isn't that of the entry before.
fn begin_run(
    traces: &mut GroupTraces,
    group: u64,
    index: u128,
    before: Option<FileSeq>,
    file: Option<FileSeq>,
) -> Result<(), AllocError>
    ensures { OnOk result (AreAlike (with_trace group (run_begun index before file (traces_in traces.old group)) (traces_in traces.old)) (traces_in traces.new)) }
{
    let Some(file) = file else {
        return Ok(());
    };
    if is_file(before, file) {
        return Ok(());
    }
    traces.set_file(group, index, file)
}

/// The least index at which a group has an entry, from an index on and before another one.
fn next_within(tables: &MemTables, group: u64, from: u128, limit: u128) -> Option<u64>
    requires { limit ≤ 2 ^ 64 }
    ensures { IsNextWithin (content_in tables.now group) from limit result }
{
    if limit <= from {
        return None;
    }
    let index = tables.next_index(group, from as u64)?;
    if limit <= index as u128 {
        return None;
    }
    Some(index)
}

/// The files of a group's entries are those in which they lie. It goes from entry to entry, over
/// holes at once.
fn set_files(
    traces: &mut GroupTraces,
    tables: &MemTables,
    group: u64,
    low: u128,
    next: u128,
) -> Result<(), AllocError>
    requires ordered { low ≤ next }
    requires within { next ≤ 2 ^ 64 }
    ensures { OnOk result ((before : Option ℕ) × IsFiledOne (content_in tables.now group) group low next before (traces_in traces.old) (traces_in traces.new)) }
{
    let mut at = low;
    let mut before = None;
    while let Some(index) = next_within(tables, group, at, next) {
        let file = file_of(tables, group, index);
        begin_run(traces, group, index as u128, before, file)?;
        at = index as u128 + 1;
        before = file;
    }
    Ok(())
}

/// What lies past the entries of a group stands in the file of the last one: a change of keys alone,
/// or of what lies below the entries, moves it into no append file.
fn set_tail(
    traces: &mut GroupTraces,
    tables: &MemTables,
    group: u64,
    low: u128,
    next: u128,
) -> Result<(), AllocError>
    requires { next ≤ 2 ^ 64 }
    ensures { OnOk result (IsTailedOne (content_in tables.now group) group low next (traces_in traces.old) (traces_in traces.new)) }
{
    if next <= low {
        return Ok(());
    }
    let file = file_of(tables, group, (next - 1) as u64);
    traces.set_tail(group, file)
}

/// The ends, the files and the tail of a group's entries are those of the entries that are there.
fn set_group(traces: &mut GroupTraces, tables: &MemTables, group: u64) -> Result<(), AllocError>
    ensures { OnOk result (IsSetOne (content_in tables.now group) (reach_in tables.now group) group (traces_in traces.old) (traces_in traces.new)) }
{
    let (low, next, top) = ends_of(tables, group);
    traces.set_ends(group, low, next, top)?;
    set_files(traces, tables, group, low, next)?;
    set_tail(traces, tables, group, low, next)
}

fn set_groups(
    traces: &mut GroupTraces,
    tables: &MemTables,
    groups: &[u64],
) -> Result<(), AllocError>
    ensures { OnOk result (AreChanged (λ group. HasEntries (content_in tables.now group) (reach_in tables.now group)) groups.now (traces_in traces.old) (traces_in traces.new)) }
{
    for group in groups {
        set_group(traces, tables, *group)?;
    }
    Ok(())
}

fn set_since_of(traces: &mut GroupTraces, groups: &[u64], first: FileSeq) -> Result<(), AllocError>
    ensures { OnOk result (AreChanged (HasSince first) groups.now (traces_in traces.old) (traces_in traces.new)) }
{
    for group in groups {
        traces.set_since(*group, first)?;
    }
    Ok(())
}

/// What was removed from the groups of which something is kept may have been so from the first append
/// file on. After an `Err`, for want of memory, the traces are given up.
pub(crate) fn set_removals(traces: &mut GroupTraces, first: FileSeq) -> Result<(), AllocError>
    ensures { OnOk result ((groups : List ℕ) × AreChanged (HasSince first) groups (traces_in traces.old) (traces_in traces.new)
        × ((group : ℕ) → is_member (eq_by_cmp nat_cmp) groups group ≡ false → traces_in traces.old group ≡ new_trace)) }
{
    let groups = traces.groups()?;
    set_since_of(traces, &groups, first)
}

/// The entries of each group that is there are those of the tables. After an `Err`, for want of
/// memory, the traces are given up.
pub(crate) fn set_entries(traces: &mut GroupTraces, tables: &MemTables) -> Result<(), AllocError>
    ensures there { OnOk result ((group : ℕ) → (content_in tables.now group).there ≡ true
        → HasEntries (content_in tables.now group) (reach_in tables.now group) (traces_in traces.old group) (traces_in traces.new group)) }
    ensures gone { OnOk result ((group : ℕ) → (content_in tables.now group).there ≡ false → IsAlike (traces_in traces.old group) (traces_in traces.new group)) }
{
    let groups = tables.groups()?;
    set_groups(traces, tables, &groups)
}
