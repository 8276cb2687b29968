//! What a cleaning knows of a group.

ghost use Rattle.std.specs.Prelude.{◌≡◌, ◌+◌, ◌<◌, ◌≤◌, ◌^◌, ℕ, None, Some, IfNone, IfOk, IfSome, if◌then◌else◌};
ghost use Rattle.raft_log_cleaner.specs.Facts.{AreFactsOf, IsOldestOfEntries, IsOldestOfKeys, TellEntries, count_passing, is_rewritten, least_up_to, lies_up_to};
ghost use Rattle.raft_log_memtables.specs.MemTables.{content_in};
ghost use Rattle.raft_log_traced.specs.Traced.{lies_in};
ghost use Rattle.raft_log_traces.specs.Before.{StandsFrom};
ghost use Rattle.raft_log_traces.specs.GroupTraces.{traces_in};
ghost use Rattle.raft_log_traces.specs.Traces.{trace_in};

use crate::entries::as_index;
use raft_log_memtables::MemTables;
use raft_log_purge::GroupFacts;
use raft_log_records::{EntryIndex, FileSeq, LogQueue};
use raft_log_traced::TracedTables;
use raft_log_traces::GroupTrace;
use std::alloc::{AllocError, Global};

/// The append file in which an entry lies. None: it lies in the rewrite queue, or nowhere.
fn file_of(place: EntryIndex) -> Option<FileSeq>
    ensures { result ≡ lies_in place }
{
    let handle = place.entries?;
    match handle.id.queue {
        LogQueue::Append => Some(handle.id.seq),
        LogQueue::Rewrite => None,
    }
}

/// The first entry of a group from an index on and before another one, with its place.
fn next_entry(tables: &MemTables, group: u64, from: u64, limit: u64) -> Option<(u64, EntryIndex)>
    ensures within { IfSome result (λ e. (from ≤ e.0) × (e.0 < limit)) }
    ensures is { IfSome result (λ e. (content_in tables.now group).entry e.0 ≡ Some e.1) }
    ensures first { IfSome result (λ e. (i : ℕ) → from ≤ i → i < e.0 → (content_in tables.now group).entry i ≡ None) }
    ensures none { IfNone result ((i : ℕ) → from ≤ i → i < limit → (content_in tables.now group).entry i ≡ None) }
{
    let index = tables.next_index(group, from)?;
    if limit <= index {
        return None;
    }
    let place = tables.get_entry(group, index)?;
    Some((index, place))
}

/// The lesser of a file and another one, if that one is there and not behind a mark.
fn older(file: Option<FileSeq>, other: Option<FileSeq>, mark: FileSeq) -> Option<FileSeq>
    ensures { result ≡ least_up_to mark file other }
{
    match (file, other) {
        (Some(file), Some(other)) if other <= mark => Some(file.min(other)),
        (None, Some(other)) if other <= mark => Some(other),
        (file, _) => file,
    }
}

/// How many entries of a group lie where.
#[derive(Clone, Copy, PartialEq, Eq)]
pub(crate) struct Counts {
    /// In the rewrite queue.
    pub(crate) rewritten: u64,
    /// There, or in append files up to a mark.
    up_to_mark: u64,
    /// The oldest append file of those.
    oldest: Option<FileSeq>,
}

/// With one more entry, which lies in this append file, or in the rewrite queue.
fn with_entry(counts: Counts, file: Option<FileSeq>, mark: FileSeq) -> Counts
    requires rewritten { counts.rewritten + 1 < 2 ^ 64 }
    requires up_to_mark { counts.up_to_mark + 1 < 2 ^ 64 }
    ensures rewritten { result.rewritten ≡ counts.rewritten + (if is_rewritten file then 1 else 0) }
    ensures up_to_mark { result.up_to_mark ≡ counts.up_to_mark + (if lies_up_to mark file then 1 else 0) }
    ensures oldest { result.oldest ≡ least_up_to mark counts.oldest file }
{
    let oldest = older(counts.oldest, file, mark);
    match file {
        None => Counts {
            rewritten: counts.rewritten + 1,
            up_to_mark: counts.up_to_mark + 1,
            oldest,
        },
        Some(file) if file <= mark => Counts {
            rewritten: counts.rewritten,
            up_to_mark: counts.up_to_mark + 1,
            oldest,
        },
        Some(_) => Counts {
            rewritten: counts.rewritten,
            up_to_mark: counts.up_to_mark,
            oldest,
        },
    }
}

/// Counts the entries of a group below an index.
pub(crate) fn counts_of(tables: &MemTables, group: u64, limit: u64, mark: FileSeq) -> Counts
    ensures rewritten { result.rewritten ≡ count_passing is_rewritten (content_in tables.now group).entry limit }
    ensures up_to_mark { result.up_to_mark ≡ count_passing (lies_up_to mark) (content_in tables.now group).entry limit }
    ensures oldest { IsOldestOfEntries (content_in tables.now group).entry mark limit result.oldest }
{
    let mut counts = Counts {
        rewritten: 0,
        up_to_mark: 0,
        oldest: None,
    };
    let mut at = 0;
    'entries: while let Some(next) = next_entry(tables, group, at, limit) {
        counts = with_entry(counts, file_of(next.1), mark);
        at = next.0 + 1;
    }
    counts
}

/// One past the entries of which some may lie in the rewrite queue, or in an append file before one:
/// from it on each entry lies in that file, or in a later one.
pub(crate) fn end_before(trace: &GroupTrace, file: FileSeq) -> u128
    ensures { (i : ℕ) → result ≤ i → i < (trace_in trace.now).next → StandsFrom file ((trace_in trace.now).entry_file i) }
{
    let stop = match trace.entries_before(file) {
        Some((_, stop)) => stop,
        None => 0,
    };
    stop.max(trace.rewritten_end())
}

/// The oldest append file up to a mark in which a key of a group stands.
fn oldest_of_keys(
    alloc: Global,
    trace: &GroupTrace,
    mark: FileSeq,
) -> Result<Option<FileSeq>, AllocError>
    requires { mark + 1 < 2 ^ 64 }
    ensures { IfOk result (IsOldestOfKeys (trace_in trace.now) mark) }
{
    let names = trace.keys_before(alloc, mark + 1)?;
    let mut oldest = None;
    for name in &names {
        oldest = older(oldest, trace.key_file(name), mark);
    }
    Ok(oldest)
}

/// What is known of a group, that was told to compact and left alone so many times in a row. Its
/// entries are counted up to the mark alone.
pub(crate) fn facts_of(
    alloc: Global,
    log: &TracedTables,
    group: u64,
    mark: FileSeq,
    reports: u32,
) -> Result<GroupFacts, AllocError>
    requires entries { TellEntries (traces_in log.now.traces) (content_in log.now.tables) }
    requires mark { mark + 1 < 2 ^ 64 }
    ensures { IfOk result (AreFactsOf (content_in log.now.tables group) (traces_in log.now.traces group) mark reports) }
{
    let Some(trace) = log.traces.get(group) else {
        return Ok(GroupFacts {
            least_file: None,
            rewritten: 0,
            up_to_mark: 0,
            reports,
        });
    };
    let limit = as_index(end_before(trace, mark + 1));
    let counts = counts_of(&log.tables, group, limit, mark);
    let of_keys = oldest_of_keys(alloc, trace, mark)?;
    Ok(GroupFacts {
        least_file: older(counts.oldest, of_keys, mark),
        rewritten: counts.rewritten,
        up_to_mark: counts.up_to_mark,
        reports,
    })
}
