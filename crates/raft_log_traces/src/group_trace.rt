//! What the log engine keeps of one group for cleaning.

ghost use Rattle.std.specs.Prelude.{◌≡◌, ◌+◌, [], nat_lt, if◌then◌else◌, OnOk, OnErr};
ghost use Rattle.raft_log_records.specs.declared.item.EntryIndex.{EntryIndex};
ghost use Rattle.raft_log_records.specs.Item.{change_of};
ghost use Rattle.raft_log_records.specs.Item.Change.{clean, put, delete};
ghost use Rattle.raft_log_records.specs.Places.{indexed};
ghost use Rattle.raft_log_records.specs.Spelling.{first_index};
ghost use Rattle.raft_log_covers.specs.Trace.{least, greater, entered, cut, trace_after};
ghost use Rattle.raft_log_covers.specs.Kept.{new_trace};
ghost use Rattle.raft_log_traces.specs.Alike.{IsAlike};
ghost use Rattle.raft_log_traces.specs.Traces.{trace_of};

use crate::runs::{Run, drop_before, put_from};
use raft_log_records::{Command, EntryIndex, FileSeq, LogItemContent};
use std::alloc::{AllocError, Global};
use std::collections::{BTreeMap, BTreeSet};

/// The lesser of two files, if there is one.
pub(crate) fn lesser(file: Option<FileSeq>, other: Option<FileSeq>) -> Option<FileSeq>
    ensures { result ≡ least file other }
{
    match (file, other) {
        (Some(file), Some(other)) => Some(file.min(other)),
        (Some(file), None) => Some(file),
        (None, other) => other,
    }
}

/// The lesser of two indexes.
pub(crate) fn earlier(index: u128, other: u128) -> u128
    ensures { result ≡ (if nat_lt index other then index else other) }
{
    if index < other { index } else { other }
}

/// The greater of two indexes.
pub(crate) fn later(index: u128, other: u128) -> u128
    ensures { result ≡ greater index other }
{
    if index < other { other } else { index }
}

/// The index of the first entry.
fn first_index_of(entries: &[EntryIndex]) -> u64
    ensures { result ≡ first_index (indexed entries.now) }
{
    match entries {
        [first, ..] => first.index,
        [] => 0,
    }
}

/// What the log engine keeps of one group for cleaning (own): the append files in which its entries
/// and keys stand, and what was removed or changed since its last marks.
#[derive(Drop)]
pub struct GroupTrace {
    /// The entries are those from `low` up to before `next`. Where `next` isn't above `low`, there
    /// is none.
    pub(crate) low: u128,
    pub(crate) next: u128,
    /// One past the greatest index that entries ever had since a `Clean`.
    pub(crate) top: u128,
    /// The least append file with a change since the last marks.
    pub(crate) since: Option<FileSeq>,
    /// The append file of the last entry; without entries, that of `since`.
    pub(crate) tail: Option<FileSeq>,
    /// The append files of the entries from `floor` on. Those below it stand in none.
    pub(crate) floor: u128,
    pub(crate) runs: Vec<Run>,
    /// The append files of the keys that stand in one.
    pub(crate) keys: BTreeMap<Vec<u8>, FileSeq>,
    /// Whether the group was cleaned since the last marks.
    pub(crate) cleaned: bool,
    /// The keys that were deleted since then and aren't there.
    pub(crate) deleted: BTreeSet<Vec<u8>>,
}

impl GroupTrace {
    /// Nothing was ever written of the group.
    pub(crate) fn new(alloc: Global) -> GroupTrace
        ensures { IsAlike new_trace (trace_of result) }
    {
        GroupTrace {
            low: 0,
            next: 0,
            top: 0,
            since: None,
            tail: None,
            floor: 0,
            runs: Vec::new(alloc),
            keys: BTreeMap::new(alloc),
            cleaned: false,
            deleted: BTreeSet::new(alloc),
        }
    }

    /// Entries from an index on were written to a file.
    fn add_entries(&mut self, file: FileSeq, first: u64, count: usize) -> Result<(), AllocError>
        ensures ok { OnOk result (IsAlike (entered file first (first + count) (trace_of self.old) (nat_lt self.old.low self.old.next)) (trace_of self.new)) }
        ensures err { OnErr result (IsAlike (trace_of self.old) (trace_of self.new)) }
    {
        let first = first as u128;
        let next = first + count as u128;
        put_from(&mut self.runs, first, file)?;
        if self.low < self.next {
            self.floor = earlier(first, self.floor);
        } else {
            self.low = first;
            self.floor = first;
            self.since = lesser(self.since, self.tail);
        }
        self.since = lesser(self.since, Some(file));
        self.tail = Some(file);
        self.next = next;
        self.top = later(self.top, next);
        Ok(())
    }

    /// A `Compact` was written to a file.
    fn compact_to(&mut self, file: FileSeq, index: u64)
        ensures { IsAlike (cut file (greater self.old.low index) (trace_of self.old) (nat_lt (greater self.old.low index) self.old.next)) (trace_of self.new) }
    {
        let low = later(self.low, index as u128);
        if low < self.next {
            self.low = low;
            self.floor = later(self.floor, low);
            drop_before(&mut self.runs, self.floor);
            self.since = lesser(self.since, Some(file));
        } else {
            self.low = self.top;
            self.next = self.top;
            self.tail = lesser(lesser(self.since, self.tail), Some(file));
            self.since = self.tail;
            self.floor = self.top;
            self.runs.clear();
        }
    }

    /// A `Clean` was written to a file.
    fn clean(&mut self, file: FileSeq)
        ensures { IsAlike (trace_after {E = EntryIndex} file clean (trace_of self.old)) (trace_of self.new) }
    {
        self.low = 0;
        self.next = 0;
        self.top = 0;
        self.since = Some(file);
        self.tail = Some(file);
        self.runs.clear();
        self.keys.clear();
        self.cleaned = true;
        self.deleted.clear();
    }

    /// A key was put in a file.
    fn put(&mut self, alloc: Global, file: FileSeq, key: &[u8]) -> Result<(), AllocError>
        // The value says nothing.
        ensures ok { OnOk result (IsAlike (trace_after {E = EntryIndex} file (put key.now []) (trace_of self.old)) (trace_of self.new)) }
        ensures err { OnErr result (IsAlike (trace_of self.old) (trace_of self.new)) }
    {
        let name = Vec::from_slice(alloc, key)?;
        self.keys.insert(name, file)?;
        self.deleted.remove(key);
        self.since = lesser(self.since, Some(file));
        Ok(())
    }

    /// A key was deleted in a file.
    fn delete(&mut self, alloc: Global, file: FileSeq, key: &[u8]) -> Result<(), AllocError>
        ensures ok { OnOk result (IsAlike (trace_after {E = EntryIndex} file (delete key.now) (trace_of self.old)) (trace_of self.new)) }
        ensures err { OnErr result (IsAlike (trace_of self.old) (trace_of self.new)) }
    {
        let name = Vec::from_slice(alloc, key)?;
        self.deleted.insert(name)?;
        self.keys.remove(key);
        self.since = lesser(self.since, Some(file));
        Ok(())
    }

    /// What an item does to its group was written to a file. After an `Err`, for want of memory, the
    /// trace is as before.
    pub(crate) fn change(
        &mut self,
        alloc: Global,
        file: FileSeq,
        content: &LogItemContent,
    ) -> Result<(), AllocError>
        ensures ok { OnOk result (IsAlike (trace_after file (change_of content.now) (trace_of self.old)) (trace_of self.new)) }
        ensures err { OnErr result (IsAlike (trace_of self.old) (trace_of self.new)) }
    {
        match content {
            LogItemContent::EntryIndexes(entries) => {
                self.add_entries(file, first_index_of(entries), entries.len())
            }
            LogItemContent::Command(Command::Clean) => {
                self.clean(file);
                Ok(())
            }
            LogItemContent::Command(Command::Compact { index }) => {
                self.compact_to(file, *index);
                Ok(())
            }
            LogItemContent::Put { key, .. } => self.put(alloc, file, key),
            LogItemContent::Delete { key } => self.delete(alloc, file, key),
            LogItemContent::AtomicGroup { .. } => Ok(()),
        }
    }
}
