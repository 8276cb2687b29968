//! The entries of a group by their indexes.

ghost use Rattle.std.specs.Prelude.{◌≡◌, ◌≤◌, ◌<◌, ◌-◌, ◌∷◌, ℕ, length, drop, None, nat_le};
ghost use Rattle.std.specs.Prelude.{nat_lt, if◌then◌else◌, OnOk, Some, nat_eq};
ghost use Rattle.std.specs.Bool.{OnTrue, OnFalse};
ghost use Rattle.std.specs.BTreeMap.{btree_map_len};
ghost use Rattle.raft_log_records.specs.Item.{change_map};
ghost use Rattle.raft_log_records.specs.Places.{indexed};
ghost use Rattle.raft_log_memtables.specs.Content.{entry_at, reach_of};
ghost use Rattle.raft_log_memtables.specs.Entries.{entry_of, placed_in, placed_pairs, IsFirst};
ghost use Rattle.raft_log_memtables.specs.Entries.{IsLast, IsNext, HasFrom, NoneFrom};
ghost use Rattle.raft_log_memtables.specs.Entries.{HasBefore, NoneBefore, or_else};
ghost use Rattle.raft_log_memtables.specs.Fetch.{count_before};
ghost use Rattle.raft_log_memtables.specs.Moved.{moved};
ghost use Rattle.raft_log_memtables.specs.Taken.{within, HasWithin, NoneWithin};

use raft_log_records::{EntryIndex, FileBlockHandle};
use std::alloc::AllocError;
use std::collections::BTreeMap;

/// Entries by their indexes.
pub type EntryMap = BTreeMap<u64, EntryIndex>;

/// The least index.
pub fn first_of(entries: &EntryMap) -> Option<u64>
    ensures { IsFirst (entry_of entries.now) result }
{
    match entries.first_key_value() {
        Some((index, _)) => Some(*index),
        None => None,
    }
}

/// The greatest index.
pub fn last_of(entries: &EntryMap) -> Option<u64>
    ensures { IsLast (entry_of entries.now) result }
{
    match entries.last_key_value() {
        Some((index, _)) => Some(*index),
        None => None,
    }
}

/// The least index from one on.
pub fn next_of(entries: &EntryMap, from: u64) -> Option<u64>
    ensures { IsNext (entry_of entries.now) from result }
{
    match entries.range(from..).next() {
        Some((index, _)) => Some(*index),
        None => None,
    }
}

/// Whether an entry is there from an index on.
fn has_from(entries: &EntryMap, first: u64) -> bool
    ensures yes { OnTrue result (HasFrom (entry_of entries.now) first) }
    ensures no { OnFalse result (NoneFrom (entry_of entries.now) first) }
{
    match last_of(entries) {
        Some(last) => first <= last,
        None => false,
    }
}

/// Whether an entry is there before an index.
fn has_before(entries: &EntryMap, limit: u64) -> bool
    ensures yes { OnTrue result (HasBefore (entry_of entries.now) limit) }
    ensures no { OnFalse result (NoneBefore (entry_of entries.now) limit) }
{
    match first_of(entries) {
        Some(first) => first < limit,
        None => false,
    }
}

/// Whether an index lies between two others, of which the last may be left out.
pub fn is_within(index: u64, first: u64, last: Option<u64>) -> bool
    ensures { result ≡ within first last index }
{
    match last {
        Some(last) => first <= index && index <= last,
        None => first <= index,
    }
}

/// Whether an entry is there between two indexes.
pub fn has_within(entries: &EntryMap, first: u64, last: Option<u64>) -> bool
    ensures yes { OnTrue result (HasWithin (entry_of entries.now) first last) }
    ensures no { OnFalse result (NoneWithin (entry_of entries.now) first last) }
{
    match entries.range(first..).next() {
        Some((index, _)) => is_within(*index, first, last),
        None => false,
    }
}

/// Removes the entries from an index on.
pub fn cut_from(entries: &mut EntryMap, first: u64)
    ensures { (i : ℕ) → entry_of entries.new i
        ≡ (if nat_le first i then None else entry_of entries.old i) }
{
    while has_from(entries, first) {
        entries.pop_last();
    }
}

/// Removes the entries before an index.
pub fn cut_before(entries: &mut EntryMap, limit: u64)
    ensures { (i : ℕ) → entry_of entries.new i
        ≡ (if nat_lt i limit then None else entry_of entries.old i) }
{
    while has_before(entries, limit) {
        entries.pop_first();
    }
}

fn place_in(handle: FileBlockHandle, entry: EntryIndex) -> EntryIndex
    ensures { result ≡ placed_in handle entry }
{
    EntryIndex {
        index: entry.index,
        entries: Some(handle),
        entry_offset: entry.entry_offset,
        entry_len: entry.entry_len,
    }
}

/// The entry before a place in a list.
fn entry_before(entries: &[EntryIndex], at: usize) -> EntryIndex
    requires some { 0 < at }
    requires within { at ≤ length entries.now }
    ensures { drop (at - 1) entries.now ≡ result ∷ drop at entries.now }
{
    entries[at - 1]
}

/// Adds the entries from an index on, which now lie in a block. Where one index comes twice, the
/// first counts.
pub fn add_placed(
    entries: &mut EntryMap,
    first: u64,
    handle: FileBlockHandle,
    more: &[EntryIndex],
) -> Result<(), AllocError>
    ensures { OnOk result ((i : ℕ) → entry_of entries.new i ≡ (if nat_le first i
        then or_else (entry_at (placed_pairs handle more.now) i) (entry_of entries.old i) else entry_of entries.old i)) }
{
    let mut at = more.len();
    while at > 0 {
        let entry = entry_before(more, at);
        at -= 1;
        if first <= entry.index {
            entries.insert(entry.index, place_in(handle, entry))?;
        }
    }
    Ok(())
}

/// The entry of this one's index, if it is there, lies where this one does now.
fn move_entry(entries: &mut EntryMap, entry: EntryIndex)
    ensures { (i : ℕ) → entry_of entries.new i
        ≡ (if nat_eq entry.index i then moved (entry_of entries.old i) (Some entry) else entry_of entries.old i) }
{
    if let Some(place) = entries.get_mut(&entry.index) {
        *place = entry;
    }
}

/// The entries of these indexes that are there lie in this block now. Where one index comes twice,
/// the first counts.
pub fn move_entries(entries: &mut EntryMap, handle: FileBlockHandle, more: &[EntryIndex])
    ensures { (i : ℕ) → entry_of entries.new i ≡ moved (entry_of entries.old i) (entry_at (placed_pairs handle more.now) i) }
{
    let mut at = more.len();
    while at > 0 {
        let entry = entry_before(more, at);
        at -= 1;
        move_entry(entries, place_in(handle, entry));
    }
}

/// The greatest index that entries ever had, with these.
pub fn reach(before: Option<u64>, more: &[EntryIndex]) -> Option<u64>
    ensures { result ≡ reach_of (indexed more.now) before }
{
    let mut reached = before;
    for entry in more {
        reached = match reached {
            Some(most) if entry.index <= most => Some(most),
            _ => Some(entry.index),
        };
    }
    reached
}

/// How many entries are there before an index.
pub fn count_before(entries: &EntryMap, limit: u64) -> u64
    ensures { result ≡ count_before (entry_of entries.now) limit }
{
    entries.range(..limit).count() as u64
}
