//! What the log engine has of one group.

ghost use Rattle.std.specs.Prelude.{◌≡◌, ℕ, Option, None, false, OnOk};
ghost use Rattle.std.specs.Bool.{OnTrue, OnFalse};
ghost use Rattle.std.specs.Option.{option_copied};
ghost use Rattle.raft_log_records.specs.Item.{change_of};
ghost use Rattle.raft_log_records.specs.Item.Change.{entries, compact, put, delete};
ghost use Rattle.raft_log_records.specs.Places.{indexed};
ghost use Rattle.raft_log_records.specs.Spelling.{first_index};
ghost use Rattle.raft_log_memtables.specs.Content.{after_change, reach_after, takes_from};
ghost use Rattle.raft_log_memtables.specs.Entries.{IsFirst, IsLast, IsNext};
ghost use Rattle.raft_log_memtables.specs.Taken.{HasWithin, NoneWithin, TakesFrom};
ghost use Rattle.raft_log_memtables.specs.MemTable.{table_content, group_in, reached_in};
ghost use Rattle.raft_log_memtables.specs.MemTable.{only_there, placed_change, is_clean_of};

use crate::entries::{
    EntryMap, add_placed, cut_before, cut_from, first_of, has_within, last_of, next_of, reach,
};
use crate::keys::KeyMap;
use raft_log_records::{Command, EntryIndex, FileBlockHandle, LogItemContent};
use std::alloc::{AllocError, Global};
use std::collections::BTreeMap;

/// What the log engine has of one group (raft-engine's `MemTable`): its entries with their places,
/// and its keys with their values.
#[derive(Drop)]
pub struct MemTable {
    pub(crate) entries: EntryMap,
    pub(crate) keys: KeyMap,
    /// The greatest index that entries ever had since the group was last cleaned.
    pub(crate) reached: Option<u64>,
}

/// The index of the first entry.
pub(crate) fn first_index_of(entries: &[EntryIndex]) -> u64
    ensures { result ≡ first_index (indexed entries.now) }
{
    match entries {
        [] => 0,
        [first, ..] => first.index,
    }
}

impl MemTable {
    /// A group that is there without entries and keys.
    #[tactic(auto, unfolding(crate::specs::MemTable::group_in, crate::specs::MemTable::reached_in))]
    pub fn new(alloc: Global) -> MemTable
        ensures content { group_in result ≡ only_there }
        ensures reach { reached_in result ≡ None }
    {
        MemTable {
            entries: BTreeMap::new(alloc),
            keys: BTreeMap::new(alloc),
            reached: None,
        }
    }

    /// Entries of a block take the place of all from the first one's index on.
    #[inline(always)]
    fn take_entries(
        &mut self,
        handle: FileBlockHandle,
        more: &[EntryIndex],
    ) -> Result<(), AllocError>
        ensures content { OnOk result (table_content self.new
            ≡ after_change (placed_change handle (entries (indexed more.now))) (table_content self.old)) }
        ensures reach { OnOk result (self.new.reached
            ≡ reach_after (placed_change handle (entries (indexed more.now))) self.old.reached) }
    {
        let first = first_index_of(more);
        cut_from(&mut self.entries, first);
        self.reached = reach(self.reached, more);
        add_placed(&mut self.entries, first, handle, more)
    }

    /// Sets a key.
    fn put(&mut self, key: Vec<u8>, value: Vec<u8>) -> Result<(), AllocError>
        ensures content { OnOk result (table_content self.new
            ≡ after_change (put key.items value.items) (table_content self.old)) }
        ensures reach { self.new.reached ≡ self.old.reached }
    {
        self.keys.insert(key, value)?;
        Ok(())
    }

    /// Removes a key.
    fn delete(&mut self, key: &[u8])
        ensures content { table_content self.new
            ≡ after_change (delete key.now) (table_content self.old) }
        ensures reach { self.new.reached ≡ self.old.reached }
    {
        self.keys.remove(key);
    }

    /// Removes the entries before an index.
    fn compact_to(&mut self, index: u64)
        ensures content { table_content self.new
            ≡ after_change (compact index) (table_content self.old) }
        ensures reach { self.new.reached ≡ self.old.reached }
    {
        cut_before(&mut self.entries, index);
    }

    /// Does what an item says to its group, where the item's entries lie in a block. A `Clean` is
    /// not for one memtable.
    #[inline(always)]
    pub(crate) fn change(
        &mut self,
        content: LogItemContent,
        handle: FileBlockHandle,
    ) -> Result<(), AllocError>
        requires { is_clean_of (change_of content) ≡ false }
        ensures content { OnOk result (table_content self.new
            ≡ after_change (placed_change handle (change_of content)) (table_content self.old)) }
        ensures reach { OnOk result (self.new.reached
            ≡ reach_after (placed_change handle (change_of content)) self.old.reached) }
    {
        match content {
            LogItemContent::EntryIndexes(entries) => self.take_entries(handle, &entries),
            LogItemContent::Command(Command::Compact { index }) => {
                self.compact_to(index);
                Ok(())
            }
            LogItemContent::Put { key, value } => self.put(key, value),
            LogItemContent::Delete { key } => {
                self.delete(&key);
                Ok(())
            }
            LogItemContent::Command(Command::Clean) | LogItemContent::AtomicGroup { .. } => Ok(()),
        }
    }
}

impl MemTable {
    /// Where the entry with this index lies, if it is there.
    #[tactic(auto, unfolding(crate::specs::MemTable::group_in))]
    pub fn get_entry(&self, index: u64) -> Option<EntryIndex>
        ensures { result ≡ (group_in self.now).entry index }
    {
        self.entries.get(&index).copied()
    }

    /// The value of a key, if it is there.
    #[tactic(auto, unfolding(crate::specs::MemTable::group_in))]
    pub fn get(&self, key: &[u8]) -> Option<&[u8]>
        ensures { option_copied result ≡ (group_in self.now).value key.now }
    {
        match self.keys.get(key) {
            Some(value) => Some(value.as_slice()),
            None => None,
        }
    }

    /// Whether an entry is there between two indexes.
    #[tactic(auto, unfolding(crate::specs::MemTable::group_in))]
    pub(crate) fn has_within(&self, first: u64, last: Option<u64>) -> bool
        ensures yes { OnTrue result (HasWithin (group_in self.now).entry first last) }
        ensures no { OnFalse result (NoneWithin (group_in self.now).entry first last) }
    {
        has_within(&self.entries, first, last)
    }

    /// The index of the first entry, if there is one.
    #[tactic(auto, unfolding(crate::specs::MemTable::group_in))]
    pub fn first_index(&self) -> Option<u64>
        ensures { IsFirst (group_in self.now).entry result }
    {
        first_of(&self.entries)
    }

    /// The index of the last entry, if there is one.
    #[tactic(auto, unfolding(crate::specs::MemTable::group_in))]
    pub fn last_index(&self) -> Option<u64>
        ensures { IsLast (group_in self.now).entry result }
    {
        last_of(&self.entries)
    }

    /// The least index from one on at which an entry is there, if there is one.
    #[tactic(auto, unfolding(crate::specs::MemTable::group_in))]
    pub fn next_index(&self, from: u64) -> Option<u64>
        ensures { IsNext (group_in self.now).entry from result }
    {
        next_of(&self.entries, from)
    }

    /// The greatest index that entries ever had since the group was last cleaned, also where none is
    /// left (own). A mark that lets old files go has to lie past it.
    #[tactic(auto, unfolding(crate::specs::MemTable::reached_in))]
    pub fn reached(&self) -> Option<u64>
        ensures { result ≡ reached_in self.now }
    {
        self.reached
    }

    /// Whether a batch may add entries from an index on (own): they begin inside the list or at its
    /// end, and where there are no entries they begin anywhere.
    #[tactic(auto, unfolding(crate::specs::MemTable::group_in))]
    pub fn takes(&self, first: u64) -> bool
        ensures ends { (low high : Option ℕ) → IsFirst (group_in self.now).entry low → IsLast (group_in self.now).entry high
            → result ≡ takes_from low high first }
        // The same as a batch that begins with such entries is judged by.
        ensures yes { OnTrue result (TakesFrom (group_in self.now).entry first) }
        ensures no { OnFalse result (TakesFrom (group_in self.now).entry first → ⊥) }
    {
        let Some(high) = self.last_index() else {
            return true;
        };
        if high < first {
            return first - 1 <= high;
        }
        match self.first_index() {
            Some(low) => low <= first,
            None => true,
        }
    }
}
