//! Holes in the entries of groups.

ghost use Rattle.std.specs.Prelude.{◌≡◌, [], ◌∷◌, List, ℕ, Some, IfOk, OnOk, option_to_list, ◌==◌, if◌then◌else◌};
ghost use Rattle.std.specs.BTreeMap.{get};
ghost use Rattle.std.specs.Ordering.{nat_cmp};
ghost use Rattle.raft_log_records.specs.Item.{change_of, item_of, items_of};
ghost use Rattle.raft_log_recovery.specs.Replay.{Placed};
ghost use Rattle.raft_log_items.specs.Holes.{AreHoles, HasSpans, bounds_in, hole_between, joined, span_in, with_span, with_spans, written_by};

use raft_log_files::Error;
use raft_log_records::{FileBlockHandle, LogItem, LogItemBatch, LogItemContent};
use raft_log_recovery::{MergeMachine, NewMachine, ReplayMachine};
use std::alloc::{AllocError, Global};
use std::collections::BTreeMap;

/// The last index before a hole, if entries that begin at `first` leave one behind `last`.
fn hole_before(last: u64, first: u64) -> Option<u64>
    ensures { result ≡ hole_between last first }
{
    if last < first && first - last > 1 {
        Some(last)
    } else {
        None
    }
}

/// What is written of a group's entries, as far as holes go.
#[derive(Clone, Copy, PartialEq, Eq)]
pub(crate) struct Span {
    /// The index at which the first entries begin.
    pub first: u64,
    /// The index at which the last ones end.
    pub last: u64,
    /// The last index before the first hole, if there is one.
    pub hole: Option<u64>,
}

impl Span {
    /// With what is written behind it: a hole may lie between, before those of what is behind.
    fn with(self, behind: Span) -> Span
        ensures { result ≡ joined self behind }
    {
        let between = hole_before(self.last, behind.first);
        Span {
            first: self.first,
            last: behind.last,
            hole: self.hole.or(between.or(behind.hole)),
        }
    }
}

/// What an item writes, if it writes entries.
fn span_of(content: &LogItemContent) -> Option<Span>
    ensures { result ≡ span_in (option_to_list (bounds_in (change_of content.now))) }
{
    match content {
        LogItemContent::EntryIndexes(entries) => match (entries.first(), entries.last()) {
            (Some(first), Some(last)) => Some(Span {
                first: first.index,
                last: last.index,
                hole: None,
            }),
            _ => None,
        },
        _ => None,
    }
}

/// Finds the groups whose entries have a hole (raft-engine's `ConsistencyChecker`): an item's
/// entries begin past the index behind the last one. Entries that begin at or below the end take
/// the place of all from there on, so the end is each time where those end that were written last.
/// A `Compact` and a `Clean` count for nothing: a group that was removed and begins anew further on
/// has a hole. What is missing before the first entries and behind the last isn't seen.
#[derive(Drop)]
pub struct ConsistencyChecker {
    pub(crate) spans: BTreeMap<u64, Span>,
}

impl ConsistencyChecker {
    /// Adds what is written of a group behind the rest of it.
    fn add(&mut self, group: u64, behind: Span) -> Result<(), AllocError>
        ensures { OnOk result ((n : ℕ) → get nat_cmp self.new.spans n
            ≡ (if group == n then Some (with_span (get nat_cmp self.old.spans group) behind) else get nat_cmp self.old.spans n)) }
    {
        let span = match self.spans.get(&group) {
            Some(before) => before.with(behind),
            None => behind,
        };
        self.spans.insert(group, span)?;
        Ok(())
    }

    /// Adds what an item writes.
    fn add_item(&mut self, item: &LogItem) -> Result<(), AllocError>
        ensures { OnOk result ((n : ℕ) → get nat_cmp self.new.spans n
            ≡ with_spans (get nat_cmp self.old.spans n) (span_in (written_by n (item_of item.now ∷ [])))) }
    {
        match span_of(&item.content) {
            Some(span) => self.add(item.raft_group_id, span),
            None => Ok(()),
        }
    }

    /// Adds what the items of a batch write.
    fn add_items(&mut self, items: &[LogItem]) -> Result<(), AllocError>
        ensures { OnOk result ((n : ℕ) → get nat_cmp self.new.spans n
            ≡ with_spans (get nat_cmp self.old.spans n) (span_in (written_by n (items_of items.now)))) }
    {
        for item in items {
            self.add_item(item)?;
        }
        Ok(())
    }

    /// Adds what was written behind all that is here, group by group.
    fn add_spans(&mut self, spans: BTreeMap<u64, Span>) -> Result<(), AllocError>
        ensures { OnOk result ((n : ℕ) → get nat_cmp self.new.spans n
            ≡ with_spans (get nat_cmp self.old.spans n) (get nat_cmp spans n)) }
    {
        for (group, span) in spans {
            self.add(group, span)?;
        }
        Ok(())
    }

    /// The groups that have a hole, rising, each with the last index before its first one. The only
    /// error is want of memory.
    pub fn finish(self, alloc: Global) -> Result<Vec<(u64, u64)>, AllocError>
        ensures { IfOk result (λ holes. (placed : List Placed) → HasSpans self placed → AreHoles placed holes.items) }
    {
        let mut holes = Vec::new(alloc);
        for (group, span) in self.spans {
            if let Some(index) = span.hole {
                holes.push((group, index))?;
            }
        }
        Ok(holes)
    }
}

impl ReplayMachine for ConsistencyChecker {
    ghost use Rattle.raft_log_items.specs.Holes.{HasSpans};

    ghost has_replayed = { HasSpans };

    fn replay(&mut self, batch: LogItemBatch, _handle: FileBlockHandle) -> Result<(), Error> {
        self.add_items(&batch.items)?;
        Ok(())
    }
}

impl MergeMachine for ConsistencyChecker {
    fn merge(&mut self, behind: ConsistencyChecker) -> Result<(), Error> {
        self.add_spans(behind.spans)?;
        Ok(())
    }
}

impl NewMachine for ConsistencyChecker {
    fn new_machine(alloc: Global) -> ConsistencyChecker {
        ConsistencyChecker {
            spans: BTreeMap::new(alloc),
        }
    }
}
