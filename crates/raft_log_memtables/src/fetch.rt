//! Entries of a range of indexes, as far as a size allows.

ghost use Rattle.std.specs.Prelude.{◌≡◌, ◌≤◌, ◌<◌, ◌+◌, ◌^◌, ◌↔◌, ℕ, true, false, IsTrue};
ghost use Rattle.std.specs.Prelude.{IfSome};
ghost use Rattle.raft_log_memtables.specs.MemTable.{group_in};
ghost use Rattle.raft_log_memtables.specs.MemTables.{content_in};
ghost use Rattle.raft_log_memtables.specs.Fetch.{Fetches, FetchesNone, Checks, count_before};
ghost use Rattle.raft_log_memtables.specs.declared.fetch.FetchError.TheVariants.{Memory};

use crate::entries::count_before;
use crate::memtable::MemTable;
use crate::memtables::MemTables;
use raft_log_records::EntryIndex;
use std::alloc::{AllocError, AllocFailed, Global};
use thiserror::Error;

/// Why entries are not fetched (those of raft-engine's `Error` that its memtables answer).
#[derive(Clone, Copy, Debug, PartialEq, Eq, Error)]
pub enum FetchError {
    #[error("out of memory")]
    Memory,
    /// The range begins before the group's first entry.
    #[error("the entry was compacted")]
    EntryCompacted,
    /// The group has no entries, or the range goes past the last one.
    #[error("there is no such entry")]
    EntryNotFound,
}

impl From<AllocError> for FetchError {
    ghost from_gives = { λ _ e. e ≡ Memory };

    fn from(_e: AllocError) -> FetchError {
        FetchError::Memory
    }
}

impl<T: Drop> From<AllocFailed<T>> for FetchError {
    ghost from_gives = { λ _ e. e ≡ Memory };

    fn from(_e: AllocFailed<T>) -> FetchError {
        FetchError::Memory
    }
}

/// Whether more bytes fit behind so many, where a size is given.
fn fits(max_size: Option<u64>, size: u64, more: u64) -> bool
    ensures exactly { IsTrue result ↔ IfSome max_size (λ most. size + more ≤ most) }
    ensures short { IsTrue result → IfSome max_size (λ _. size + more < 2 ^ 64) }
{
    match max_size {
        Some(most) => size <= most && more <= most - size,
        None => true,
    }
}

impl MemTable {
    /// Refuses a range that begins before the first entry or ends past the last one.
    fn check_range(&self, begin: u64, end: u64) -> Result<(), FetchError>
        requires { begin < end }
        ensures { Checks (group_in self.now).entry begin end result }
    {
        let (Some(first), Some(last)) = (self.first_index(), self.last_index()) else {
            return Err(FetchError::EntryNotFound);
        };
        if begin < first {
            return Err(FetchError::EntryCompacted);
        }
        if last < end - 1 {
            return Err(FetchError::EntryNotFound);
        }
        Ok(())
    }

    /// Where the entries from an index on lie, up to another one, which is left out (raft-engine's
    /// `fetch_entries_to`). With a size in bytes they end before the entry that would pass it, but
    /// one at least is given. A hole is as the end of the list (own).
    pub fn fetch_entries_to(
        &self,
        alloc: Global,
        begin: u64,
        end: u64,
        max_size: Option<u64>,
    ) -> Result<Vec<EntryIndex>, FetchError>
        ensures some { begin < end → Fetches (group_in self.now).entry begin end max_size result }
        ensures none { end ≤ begin → FetchesNone result }
    {
        let mut entries = Vec::new(alloc);
        if end <= begin {
            return Ok(entries);
        }
        self.check_range(begin, end)?;
        let mut size: u64 = 0;
        for index in begin..end {
            let Some(entry) = self.get_entry(index) else {
                return Err(FetchError::EntryNotFound);
            };
            let more = u64::from(entry.entry_len);
            if !entries.is_empty() && !fits(max_size, size, more) {
                break;
            }
            entries.push(entry)?;
            size = size.saturating_add(more);
        }
        Ok(entries)
    }

    /// How many entries are there before an index. So many a `Compact` to it removes (what
    /// raft-engine's `compact_to` answers; here a hole isn't counted).
    #[tactic(auto, unfolding(crate::specs::MemTable::group_in))]
    pub fn count_before(&self, index: u64) -> u64
        ensures { result ≡ count_before (group_in self.now).entry index }
    {
        count_before(&self.entries, index)
    }
}

impl MemTables {
    /// Where a group's entries from an index on lie, up to another one, which is left out
    /// (raft-engine's `fetch_entries_to`). With a size in bytes they end before the entry that would
    /// pass it, but one at least is given. A group that is not there has none, and no refusal.
    pub fn fetch_entries_to(
        &self,
        raft_group_id: u64,
        begin: u64,
        end: u64,
        max_size: Option<u64>,
    ) -> Result<Vec<EntryIndex>, FetchError>
        ensures some { (content_in self.now raft_group_id).there ≡ true → begin < end
            → Fetches (content_in self.now raft_group_id).entry begin end max_size result }
        ensures none { end ≤ begin → FetchesNone result }
        ensures unknown { (content_in self.now raft_group_id).there ≡ false → FetchesNone result }
    {
        match self.get_table(raft_group_id) {
            Some(table) => table.fetch_entries_to(self.alloc, begin, end, max_size),
            None => Ok(Vec::new(self.alloc)),
        }
    }

    /// How many entries of a group are there before an index: so many a `Compact` to it removes.
    pub fn count_before(&self, raft_group_id: u64, index: u64) -> u64
        ensures { result ≡ count_before (content_in self.now raft_group_id).entry index }
    {
        match self.get_table(raft_group_id) {
            Some(table) => table.count_before(index),
            None => 0,
        }
    }
}
