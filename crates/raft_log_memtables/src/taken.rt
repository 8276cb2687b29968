//! Which batches the memtables take.

ghost use Rattle.std.specs.Prelude.{◌≡◌, ◌<◌, ◌-◌, ◌∷◌, ◌++◌, [], length, min, IfSome, IfNone, nat_eq};
ghost use Rattle.std.specs.Bool.{OnTrue, OnFalse};
ghost use Rattle.std.specs.List.{list_any};
ghost use Rattle.raft_log_records.specs.Item.{change_of, items_of};
ghost use Rattle.raft_log_records.specs.Item.Change.{entries};
ghost use Rattle.raft_log_records.specs.Places.{indexed};
ghost use Rattle.raft_log_memtables.specs.Content.{after_batch};
ghost use Rattle.raft_log_memtables.specs.MemTables.{content_in};
ghost use Rattle.raft_log_memtables.specs.Search.{Leaves};
ghost use Rattle.raft_log_memtables.specs.Taken.{within, HasWithin, NoneWithin};
ghost use Rattle.raft_log_memtables.specs.Taken.{TakesFrom, Takes, TakesEach};

use crate::entries::is_within;
use crate::memtable::first_index_of;
use crate::memtables::MemTables;
use raft_log_records::{Command, EntryIndex, LogItem, LogItemContent};

/// What a search for entries between two indexes comes to at an item.
#[derive(Clone, Copy)]
enum Search {
    /// The item has one of them.
    Found,
    /// The item leaves none.
    Missing,
    /// It goes on before the item, between these indexes.
    Before { first: u64, last: Option<u64> },
}

fn any_within(entries: &[EntryIndex], first: u64, last: Option<u64>) -> bool
    ensures { result ≡ list_any (λ e. within first last e.index) entries.now }
{
    entries
        .iter()
        .any(|entry| is_within(entry.index, first, last))
}

/// The last index that is below a limit too.
fn last_below(last: Option<u64>, limit: u64) -> u64
    requires { 0 < limit }
    ensures bounded { IfSome last (λ l. result ≡ min l (limit - 1)) }
    ensures open { IfNone last (result ≡ limit - 1) }
{
    match last {
        Some(last) => last.min(limit - 1),
        None => limit - 1,
    }
}

/// Whether an item is of a group.
fn names_group(items: &[LogItem], raft_group_id: u64) -> bool
    ensures { result ≡ list_any (λ item. nat_eq item.raft_group_id raft_group_id) items.now }
{
    items.iter().any(|item| item.raft_group_id == raft_group_id)
}

/// A search at entries, which take the place of all from the first one's index on.
fn search_run(run: &[EntryIndex], first: u64, last: Option<u64>) -> Search
    ensures { Leaves (entries (indexed run.now)) first last result }
{
    let start = first_index_of(run);
    if any_within(run, first.max(start), last) {
        return Search::Found;
    }
    if start == 0 {
        return Search::Missing;
    }
    let last = Some(last_below(last, start));
    Search::Before { first, last }
}

/// A search at an item of its group.
fn search_at(content: &LogItemContent, first: u64, last: Option<u64>) -> Search
    ensures { Leaves (change_of content.now) first last result }
{
    match content {
        LogItemContent::EntryIndexes(run) => search_run(run, first, last),
        LogItemContent::Command(Command::Clean) => Search::Missing,
        LogItemContent::Command(Command::Compact { index }) => Search::Before {
            first: first.max(*index),
            last,
        },
        LogItemContent::Put { .. }
        | LogItemContent::Delete { .. }
        | LogItemContent::AtomicGroup { .. } => Search::Before { first, last },
    }
}

impl MemTables {
    /// Whether a group has an entry between two indexes after some items. It looks at them from the
    /// last one on.
    fn has_within(
        &self,
        items: &[LogItem],
        raft_group_id: u64,
        first: u64,
        last: Option<u64>,
    ) -> bool
        ensures yes { OnTrue result (HasWithin
            (after_batch (items_of items.now) (content_in self.now) raft_group_id).entry first last) }
        ensures no { OnFalse result (NoneWithin
            (after_batch (items_of items.now) (content_in self.now) raft_group_id).entry first last) }
    {
        let mut rest = items;
        let mut bounds = (first, last);
        while let [before @ .., item] = rest {
            rest = before;
            if item.raft_group_id == raft_group_id {
                match search_at(&item.content, bounds.0, bounds.1) {
                    Search::Found => return true,
                    Search::Missing => return false,
                    Search::Before { first, last } => bounds = (first, last),
                }
            }
        }
        self.holds_within(raft_group_id, bounds.0, bounds.1)
    }

    /// Whether entries may begin at this index.
    fn takes_now(&self, raft_group_id: u64, index: u64) -> bool
        ensures yes { OnTrue result (TakesFrom (content_in self.now raft_group_id).entry index) }
        ensures no { OnFalse result (TakesFrom (content_in self.now raft_group_id).entry index → ⊥) }
    {
        match self.get_table(raft_group_id) {
            Some(table) => table.takes(index),
            None => true,
        }
    }

    /// Whether entries may begin at this index after some items.
    fn takes_from(&self, items: &[LogItem], raft_group_id: u64, index: u64) -> bool
        ensures yes { OnTrue result (TakesFrom
            (after_batch (items_of items.now) (content_in self.now) raft_group_id).entry index) }
        ensures no { OnFalse result (TakesFrom
            (after_batch (items_of items.now) (content_in self.now) raft_group_id).entry index → ⊥) }
    {
        if !names_group(items, raft_group_id) {
            return self.takes_now(raft_group_id, index);
        }
        !self.has_within(items, raft_group_id, 0, None)
            || (self.has_within(items, raft_group_id, 0, Some(index))
                && self.has_within(items, raft_group_id, index.saturating_sub(1), None))
    }

    /// Whether an item is taken after some items.
    fn takes_item(&self, items: &[LogItem], item: &LogItem) -> bool
        ensures yes { OnTrue result (Takes (change_of item.now.content)
            (after_batch (items_of items.now) (content_in self.now) item.now.raft_group_id)) }
        ensures no { OnFalse result (Takes (change_of item.now.content)
            (after_batch (items_of items.now) (content_in self.now) item.now.raft_group_id) → ⊥) }
    {
        match &item.content {
            LogItemContent::EntryIndexes(run) => {
                self.takes_from(items, item.raft_group_id, first_index_of(run))
            }
            LogItemContent::Command(_)
            | LogItemContent::Put { .. }
            | LogItemContent::Delete { .. }
            | LogItemContent::AtomicGroup { .. } => true,
        }
    }

    /// Whether a batch may be written (own): the entries of each item begin inside their group's list
    /// or at its end, as the items before it leave the list, and where there are no entries they begin
    /// anywhere. Nothing is allocated; the time grows with the square of the number of items.
    pub fn takes(&self, items: &[LogItem]) -> bool
        ensures yes { OnTrue result (TakesEach (items_of items.now) (content_in self.now)) }
        ensures no { OnFalse result (TakesEach (items_of items.now) (content_in self.now) → ⊥) }
    {
        for (place, item) in items.iter().enumerate() {
            if !self.takes_item(&items[..place], item) {
                return false;
            }
        }
        true
    }
}
