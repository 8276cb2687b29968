//! What the log engine has of every group.

ghost use Rattle.std.specs.Prelude.{◌≡◌, ℕ, Option, Some, None, IsSome, is_some, true, false, nat_eq};
ghost use Rattle.std.specs.Prelude.{if◌then◌else◌, IfOk, OnOk, MatchOption};
ghost use Rattle.std.specs.List.Sorted.{IsStrictlySortedBy};
ghost use Rattle.std.specs.Set.{is_member};
ghost use Rattle.std.specs.Bool.{OnTrue, OnFalse};
ghost use Rattle.std.specs.Option.{option_copied};
ghost use Rattle.std.specs.BTreeMap.{get, keys};
ghost use Rattle.std.specs.Ordering.{nat_cmp, eq_by_cmp};
ghost use Rattle.raft_log_records.specs.Item.{change_of, item_of, item_map};
ghost use Rattle.raft_log_memtables.specs.Content.{nothing, no_group, after_change, after_item};
ghost use Rattle.raft_log_memtables.specs.Content.{after_batch, reach_after, reach_after_item};
ghost use Rattle.raft_log_memtables.specs.Content.{reach_after_batch, takes_from};
ghost use Rattle.raft_log_memtables.specs.Entries.{IsFirst, IsLast, IsNext, placed_in};
ghost use Rattle.raft_log_memtables.specs.MemTable.{group_in, batch_items, placed_change};
ghost use Rattle.raft_log_memtables.specs.MemTable.{is_clean_of, is_mark_of};
ghost use Rattle.raft_log_memtables.specs.Tables.{table_at, reach_at, IsMade, IsChanged};
ghost use Rattle.raft_log_memtables.specs.MemTables.{content_in, reach_in};
ghost use Rattle.raft_log_memtables.specs.Taken.{HasWithin, NoneWithin};

use crate::memtable::MemTable;
use raft_log_records::{
    Command, EntryIndex, FileBlockHandle, LogItem, LogItemBatch, LogItemContent,
};
use std::alloc::{AllocError, Global};
use std::collections::BTreeMap;

/// The memtables of all groups.
pub(crate) type TableMap = BTreeMap<u64, MemTable>;

fn is_mark(content: &LogItemContent) -> bool
    ensures { result ≡ is_mark_of (change_of content.now) }
{
    matches!(content, LogItemContent::AtomicGroup { .. })
}

fn is_clean(content: &LogItemContent) -> bool
    ensures { result ≡ is_clean_of (change_of content.now) }
{
    matches!(content, LogItemContent::Command(Command::Clean))
}

/// Makes a memtable for a group that has none.
fn make_table(alloc: Global, tables: &mut TableMap, raft_group_id: u64) -> Result<(), AllocError>
    ensures { OnOk result (IsMade tables.old raft_group_id tables.new) }
{
    if !tables.contains_key(&raft_group_id) {
        tables.insert(raft_group_id, MemTable::new(alloc))?;
    }
    Ok(())
}

/// Does what an item says to the memtable of its group.
fn change_table(
    tables: &mut TableMap,
    raft_group_id: u64,
    content: LogItemContent,
    handle: FileBlockHandle,
) -> Result<(), AllocError>
    requires not_clean { is_clean_of (change_of content) ≡ false }
    requires there { IsSome (get nat_cmp tables.old raft_group_id) }
    ensures { OnOk result (IsChanged tables.old raft_group_id (placed_change handle (change_of content)) tables.new) }
{
    if let Some(table) = tables.get_mut(&raft_group_id) {
        table.change(content, handle)?;
    }
    Ok(())
}

/// Does what an item says to the memtable of its group, which is made where there is none.
fn set_table(
    alloc: Global,
    tables: &mut TableMap,
    raft_group_id: u64,
    content: LogItemContent,
    handle: FileBlockHandle,
) -> Result<(), AllocError>
    requires not_clean { is_clean_of (change_of content) ≡ false }
    requires not_mark { is_mark_of (change_of content) ≡ false }
    ensures content { OnOk result (table_at tables.new
        ≡ after_item (record { group = raft_group_id; change = placed_change handle (change_of content) }) (table_at tables.old)) }
    ensures reach { OnOk result (reach_at tables.new
        ≡ reach_after_item (record { group = raft_group_id; change = placed_change handle (change_of content) }) (reach_at tables.old)) }
{
    if let Some(table) = tables.get_mut(&raft_group_id) {
        return table.change(content, handle);
    }
    make_table(alloc, tables, raft_group_id)?;
    change_table(tables, raft_group_id, content, handle)
}

/// Does what an item says.
fn apply_item(
    alloc: Global,
    tables: &mut TableMap,
    item: LogItem,
    handle: FileBlockHandle,
) -> Result<(), AllocError>
    ensures content { OnOk result (table_at tables.new
        ≡ after_item (item_map (placed_in handle) (item_of item)) (table_at tables.old)) }
    ensures reach { OnOk result (reach_at tables.new
        ≡ reach_after_item (item_map (placed_in handle) (item_of item)) (reach_at tables.old)) }
{
    let LogItem {
        raft_group_id,
        content,
    } = item;
    if is_mark(&content) {
        return Ok(());
    }
    if is_clean(&content) {
        tables.remove(&raft_group_id);
        return Ok(());
    }
    set_table(alloc, tables, raft_group_id, content, handle)
}

/// The least id of a group that has a memtable.
fn first_group(tables: &TableMap) -> Option<u64>
    ensures { IsFirst (get nat_cmp tables.now) result }
{
    match tables.first_key_value() {
        Some((raft_group_id, _)) => Some(*raft_group_id),
        None => None,
    }
}

/// The ids of the groups that have a memtable, rising.
fn group_ids(alloc: Global, tables: &TableMap) -> Result<Vec<u64>, AllocError>
    ensures ids { IfOk result (λ ids. ids.items ≡ keys tables.now) }
    ensures rising { IsStrictlySortedBy nat_cmp (keys tables.now) }
    ensures exactly { (group : ℕ) → is_some (get nat_cmp tables.now group) ≡ is_member (eq_by_cmp nat_cmp) (keys tables.now) group }
{
    tables.keys().copied().collect(alloc)
}

/// What the log engine has of every group (raft-engine's `MemTables`). A group is there from any
/// item but a `Clean` or an atomic mark until its next `Clean`.
#[derive(Drop)]
pub struct MemTables {
    pub(crate) tables: TableMap,
    pub(crate) alloc: Global,
}

impl MemTables {
    /// No group is there yet.
    #[tactic(auto, unfolding(crate::specs::MemTables::content_in, crate::specs::MemTables::reach_in))]
    pub fn new(alloc: Global) -> MemTables
        ensures content { content_in result ≡ nothing }
        ensures reach { (group : ℕ) → reach_in result group ≡ None }
    {
        MemTables {
            tables: BTreeMap::new(alloc),
            alloc,
        }
    }

    /// Whether no group is there.
    pub fn is_empty(&self) -> bool
        ensures yes { OnTrue result ((group : ℕ) → content_in self.now group ≡ no_group) }
        ensures no { OnFalse result ((group : ℕ) × ((content_in self.now group).there ≡ true)) }
    {
        match first_group(&self.tables) {
            Some(_) => false,
            None => true,
        }
    }

    /// The ids of the groups that are there, rising, and of no others.
    pub fn groups(&self) -> Result<Vec<u64>, AllocError>
        ensures rising { IfOk result (λ ids. IsStrictlySortedBy nat_cmp ids.items) }
        ensures exactly { IfOk result (λ ids. (group : ℕ)
            → (content_in self.now group).there ≡ is_member (eq_by_cmp nat_cmp) ids.items group) }
    {
        group_ids(self.alloc, &self.tables)
    }

    /// Does what the items of a batch say, whose entries lie in the block of this handle (own).
    /// After an `Err`, for want of memory, the tables are given up.
    #[tactic(auto, unfolding(crate::specs::MemTables::content_in, crate::specs::MemTables::reach_in))]
    pub fn apply(&mut self, batch: LogItemBatch, handle: FileBlockHandle) -> Result<(), AllocError>
        ensures content { OnOk result (content_in self.new
            ≡ after_batch (batch_items handle batch) (content_in self.old)) }
        ensures reach { OnOk result (reach_in self.new
            ≡ reach_after_batch (batch_items handle batch) (reach_in self.old)) }
    {
        for item in batch.items {
            apply_item(self.alloc, &mut self.tables, item, handle)?;
        }
        Ok(())
    }

    /// The memtable of a group, if the group is there.
    #[tactic(auto, unfolding(crate::specs::MemTables::content_in, crate::specs::MemTable::group_in))]
    pub fn get_table(&self, raft_group_id: u64) -> Option<&MemTable>
        ensures { MatchOption result (content_in self.now raft_group_id ≡ no_group)
            (λ t. content_in self.now raft_group_id ≡ group_in t.now) }
    {
        self.tables.get(&raft_group_id)
    }

    /// Whether a group is there, with or without entries and keys.
    #[tactic(auto, unfolding(crate::specs::MemTables::content_in))]
    pub fn has_group(&self, raft_group_id: u64) -> bool
        ensures { result ≡ (content_in self.now raft_group_id).there }
    {
        self.tables.contains_key(&raft_group_id)
    }

    /// Where the entry of a group with this index lies, if it is there.
    pub fn get_entry(&self, raft_group_id: u64, index: u64) -> Option<EntryIndex>
        ensures { result ≡ (content_in self.now raft_group_id).entry index }
    {
        match self.get_table(raft_group_id) {
            None => None,
            Some(table) => table.get_entry(index),
        }
    }

    /// The value of a key of a group, if it is there.
    pub fn get(&self, raft_group_id: u64, key: &[u8]) -> Option<&[u8]>
        ensures { option_copied result ≡ (content_in self.now raft_group_id).value key.now }
    {
        match self.get_table(raft_group_id) {
            None => None,
            Some(table) => table.get(key),
        }
    }

    /// The greatest index that an entry of a group ever had since the group was last cleaned, also
    /// where it isn't there any more (own). None, if it never had one.
    #[tactic(auto, unfolding(crate::specs::MemTables::reach_in, crate::specs::MemTable::reached_in))]
    pub fn reached(&self, raft_group_id: u64) -> Option<u64>
        ensures { result ≡ reach_in self.now raft_group_id }
    {
        match self.tables.get(&raft_group_id) {
            None => None,
            Some(table) => table.reached(),
        }
    }

    /// Whether a group has an entry between two indexes.
    pub(crate) fn holds_within(&self, raft_group_id: u64, first: u64, last: Option<u64>) -> bool
        ensures yes { OnTrue result (HasWithin (content_in self.now raft_group_id).entry first last) }
        ensures no { OnFalse result (NoneWithin (content_in self.now raft_group_id).entry first last) }
    {
        match self.get_table(raft_group_id) {
            None => false,
            Some(table) => table.has_within(first, last),
        }
    }

    /// The index of a group's first entry, if it has one.
    pub fn first_index(&self, raft_group_id: u64) -> Option<u64>
        ensures { IsFirst (content_in self.now raft_group_id).entry result }
    {
        match self.get_table(raft_group_id) {
            None => None,
            Some(table) => table.first_index(),
        }
    }

    /// The index of a group's last entry, if it has one.
    pub fn last_index(&self, raft_group_id: u64) -> Option<u64>
        ensures { IsLast (content_in self.now raft_group_id).entry result }
    {
        match self.get_table(raft_group_id) {
            None => None,
            Some(table) => table.last_index(),
        }
    }

    /// The least index from one on at which a group has an entry, if there is one (own). So the
    /// entries are gone over one by one, however far apart they stand.
    pub fn next_index(&self, raft_group_id: u64, from: u64) -> Option<u64>
        ensures { IsNext (content_in self.now raft_group_id).entry from result }
    {
        match self.get_table(raft_group_id) {
            None => None,
            Some(table) => table.next_index(from),
        }
    }
}
