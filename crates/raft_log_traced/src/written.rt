//! How much is written to the rewrite queue: entries, keys and marks.

ghost use Rattle.std.specs.Prelude.{◌≡◌};
ghost use Rattle.raft_log_records.specs.Item.{change_of, items_of};
ghost use Rattle.raft_log_traced.specs.Written.{marks_by, sets_by, with_record};

use raft_log_purge::RewriteCounts;
use raft_log_records::{LogItem, LogItemContent};

/// How many entries and keys an item has that it sets.
fn sets_of(item: &LogItem) -> u64
    ensures { result ≡ sets_by (change_of item.now.content) }
{
    match &item.content {
        LogItemContent::EntryIndexes(entries) => entries.len() as u64,
        LogItemContent::Put { .. } => 1,
        LogItemContent::Command(_)
        | LogItemContent::Delete { .. }
        | LogItemContent::AtomicGroup { .. } => 0,
    }
}

/// How many marks an item is. That of an atomic group is none.
fn marks_of(item: &LogItem) -> u64
    ensures { result ≡ marks_by (change_of item.now.content) }
{
    match &item.content {
        LogItemContent::Command(_) | LogItemContent::Delete { .. } => 1,
        LogItemContent::EntryIndexes(_)
        | LogItemContent::Put { .. }
        | LogItemContent::AtomicGroup { .. } => 0,
    }
}

/// So many, and those of a batch with these items.
pub(crate) fn with_written(before: RewriteCounts, items: &[LogItem]) -> RewriteCounts
    ensures { result ≡ with_record before (items_of items.now) }
{
    let mut counts = before;
    for item in items {
        counts.sets = counts.sets.saturating_add(sets_of(item));
        counts.marks = counts.marks.saturating_add(marks_of(item));
    }
    counts
}
