//! Reading the fields and items of a record, from left to right.

ghost use Rattle.std.specs.Prelude.{◌≡◌, ◌≤◌, ◌+◌, ◌<◌, ◌/◌, ◌^◌, length, take, drop, min, IfOk, MatchOption};
ghost use Rattle.std.specs.Int.{w32, w64, from_be_bytes};
ghost use Rattle.raft_log_records.specs.Item.{change_of, item_of, items_of};
ghost use Rattle.raft_log_records.specs.Reading.{Gives, number_at, string_at, key_at, status_at, entry_at, entries_at, run_at, change_behind, change_at, item_at, items_at, body_at};

use crate::command::Command;
use crate::error::{RecordError, RecordFault};
use crate::item::{AtomicGroupStatus, EntryIndex, LogItem, LogItemContent};
use std::alloc::Global;

/// An item has its group and its tag at least.
const LEAST_ITEM_LEN: usize = 9;

/// An entry's index and length.
const ENTRY_LEN: usize = 12;

/// How many of `count` parts some bytes can hold, each of `part_len` bytes at least. Room is made for
/// so many, whatever the count says, so that bytes can't ask for more memory than parts of theirs take.
fn parts_within(count: u32, part_len: usize, bytes: &[u8]) -> usize
    requires { 0 < part_len }
    ensures { result ≡ min count (length bytes.now / part_len) }
{
    (count as usize).min(bytes.len() / part_len)
}

/// The number in the first four bytes and the bytes behind it, or none where they end before.
pub fn u32_front(bytes: &[u8]) -> Option<(u32, &[u8])>
    ensures { MatchOption result (length bytes.now < 4) (λ x. (4 ≤ length bytes.now) × (x.0 ≡ from_be_bytes w32 (take 4 bytes.now)) × (x.1.now ≡ drop 4 bytes.now)) }
{
    if bytes.len() < 4 {
        return None;
    }
    let (front, rest) = bytes.split_at(4);
    let number = u32::from_be_bytes([front[0], front[1], front[2], front[3]]);
    Some((number, rest))
}

fn u32_at(bytes: &[u8]) -> Result<(u32, &[u8]), RecordError>
    ensures { Gives (λ x. (x.0, x.1.now)) result (number_at w32 bytes.now) }
{
    let Some(read) = u32_front(bytes) else {
        return Err(RecordError::Corruption(RecordFault::ItemsCutShort));
    };
    Ok(read)
}

fn u64_at(bytes: &[u8]) -> Result<(u64, &[u8]), RecordError>
    ensures { Gives (λ x. (x.0, x.1.now)) result (number_at w64 bytes.now) }
{
    if bytes.len() < 8 {
        return Err(RecordError::Corruption(RecordFault::ItemsCutShort));
    }
    let (front, rest) = bytes.split_at(8);
    let number = u64::from_be_bytes([
        front[0], front[1], front[2], front[3], front[4], front[5], front[6], front[7],
    ]);
    Ok((number, rest))
}

#[tactic(auto, unfolding(crate::specs::Reading::string_at))]
fn string_of(alloc: Global, bytes: &[u8]) -> Result<(Vec<u8>, &[u8]), RecordError>
    ensures { Gives (λ x. (x.0.items, x.1.now)) result (string_at bytes.now) }
{
    let (len, rest) = u32_at(bytes)?;
    let len = len as usize;
    if rest.len() < len {
        return Err(RecordError::Corruption(RecordFault::ItemsCutShort));
    }
    let (text, rest) = rest.split_at(len);
    Ok((Vec::from_slice(alloc, text)?, rest))
}

#[tactic(auto, unfolding(crate::specs::Reading::key_at))]
fn key_of(alloc: Global, bytes: &[u8]) -> Result<(Vec<u8>, &[u8]), RecordError>
    ensures { Gives (λ x. (x.0.items, x.1.now)) result (key_at bytes.now) }
{
    let (key, rest) = string_of(alloc, bytes)?;
    if key.is_empty() {
        return Err(RecordError::Corruption(RecordFault::EmptyKey));
    }
    Ok((key, rest))
}

#[tactic(auto, unfolding(crate::specs::Reading::status_at))]
fn status_of(bytes: &[u8]) -> Result<(AtomicGroupStatus, &[u8]), RecordError>
    ensures { Gives (λ x. (x.0, x.1.now)) result (status_at bytes.now) }
{
    match bytes {
        [] => Err(RecordError::Corruption(RecordFault::ItemsCutShort)),
        [0, rest @ ..] => Ok((AtomicGroupStatus::Begin, rest)),
        [1, rest @ ..] => Ok((AtomicGroupStatus::Middle, rest)),
        [2, rest @ ..] => Ok((AtomicGroupStatus::End, rest)),
        [_, ..] => Err(RecordError::Corruption(RecordFault::BadTag)),
    }
}

/// One entry's index and place: it must be the i-th from the first one on, and lie within the block
/// of entries, of `limit` bytes, of which entries take `at` so far.
#[tactic(auto, unfolding(crate::specs::Reading::entry_at))]
fn entry_of(
    first: u64,
    i: u32,
    limit: u32,
    at: u32,
    bytes: &[u8],
) -> Result<(EntryIndex, &[u8]), RecordError>
    requires { at ≤ limit }
    ensures within { IfOk result (λ x. at + x.0.entry_len ≤ limit) }
    ensures read { Gives (λ x. (x.0, x.1.now)) result (entry_at (first + i) limit at bytes.now) }
{
    let (index, rest) = u64_at(bytes)?;
    let (entry_len, rest) = u32_at(rest)?;
    if index < first || index - first != u64::from(i) {
        return Err(RecordError::Corruption(RecordFault::NotConsecutive));
    }
    if limit - at < entry_len {
        return Err(RecordError::Corruption(RecordFault::EntriesLength));
    }
    let entry = EntryIndex {
        index,
        entries: None,
        entry_offset: at,
        entry_len,
    };
    Ok((entry, rest))
}

/// So many entries: with how many bytes of the block entries take then.
fn entries_of(
    alloc: Global,
    count: u32,
    first: u64,
    limit: u32,
    mut at: u32,
    bytes: &[u8],
) -> Result<(Vec<EntryIndex>, u32, &[u8]), RecordError>
    requires { at ≤ limit }
    ensures within { IfOk result (λ x. x.1 ≤ limit) }
    ensures read { Gives (λ x. (x.0.items, x.1, x.2.now)) result (entries_at count first limit at bytes.now) }
{
    let mut entries = Vec::with_capacity(alloc, parts_within(count, ENTRY_LEN, bytes))?;
    let mut rest = bytes;
    for i in 0..count {
        let (entry, after) = entry_of(first, i, limit, at, rest)?;
        at += entry.entry_len;
        entries.push(entry)?;
        rest = after;
    }
    Ok((entries, at, rest))
}

#[tactic(auto, unfolding(crate::specs::Reading::run_at))]
fn run_of(
    alloc: Global,
    limit: u32,
    at: u32,
    bytes: &[u8],
) -> Result<(Vec<EntryIndex>, u32, &[u8]), RecordError>
    requires { at ≤ limit }
    ensures within { IfOk result (λ x. x.1 ≤ limit) }
    ensures read { Gives (λ x. (x.0.items, x.1, x.2.now)) result (run_at limit at bytes.now) }
{
    let (count, rest) = u32_at(bytes)?;
    if count == 0 {
        return Err(RecordError::Corruption(RecordFault::NotConsecutive));
    }
    let (first, _) = u64_at(rest)?;
    entries_of(alloc, count, first, limit, at, rest)
}

#[tactic(auto, unfolding(crate::specs::Reading::change_behind))]
fn content_behind(
    alloc: Global,
    tag: u8,
    limit: u32,
    at: u32,
    bytes: &[u8],
) -> Result<(LogItemContent, u32, &[u8]), RecordError>
    requires { at ≤ limit }
    ensures within { IfOk result (λ x. x.1 ≤ limit) }
    ensures read { Gives (λ x. (change_of x.0, x.1, x.2.now)) result (change_behind tag limit at bytes.now) }
{
    match tag {
        1 => {
            let (entries, at, rest) = run_of(alloc, limit, at, bytes)?;
            Ok((LogItemContent::EntryIndexes(entries), at, rest))
        }
        2 => Ok((LogItemContent::Command(Command::Clean), at, bytes)),
        3 => {
            let (index, rest) = u64_at(bytes)?;
            Ok((
                LogItemContent::Command(Command::Compact { index }),
                at,
                rest,
            ))
        }
        4 => {
            let (key, rest) = key_of(alloc, bytes)?;
            let (value, rest) = string_of(alloc, rest)?;
            Ok((LogItemContent::Put { key, value }, at, rest))
        }
        5 => {
            let (key, rest) = key_of(alloc, bytes)?;
            Ok((LogItemContent::Delete { key }, at, rest))
        }
        6 => {
            let (id, rest) = u64_at(bytes)?;
            let (status, rest) = status_of(rest)?;
            Ok((LogItemContent::AtomicGroup { id, status }, at, rest))
        }
        _ => Err(RecordError::Corruption(RecordFault::BadTag)),
    }
}

#[tactic(auto, unfolding(crate::specs::Reading::change_at))]
fn content_of(
    alloc: Global,
    limit: u32,
    at: u32,
    bytes: &[u8],
) -> Result<(LogItemContent, u32, &[u8]), RecordError>
    requires { at ≤ limit }
    ensures within { IfOk result (λ x. x.1 ≤ limit) }
    ensures read { Gives (λ x. (change_of x.0, x.1, x.2.now)) result (change_at limit at bytes.now) }
{
    match bytes {
        [] => Err(RecordError::Corruption(RecordFault::ItemsCutShort)),
        [tag, rest @ ..] => content_behind(alloc, *tag, limit, at, rest),
    }
}

#[tactic(auto, unfolding(crate::specs::Reading::item_at))]
fn item_behind(
    alloc: Global,
    limit: u32,
    at: u32,
    bytes: &[u8],
) -> Result<(LogItem, u32, &[u8]), RecordError>
    requires { at ≤ limit }
    ensures within { IfOk result (λ x. x.1 ≤ limit) }
    ensures read { Gives (λ x. (item_of x.0, x.1, x.2.now)) result (item_at limit at bytes.now) }
{
    let (raft_group_id, rest) = u64_at(bytes)?;
    let (content, at, rest) = content_of(alloc, limit, at, rest)?;
    let item = LogItem {
        raft_group_id,
        content,
    };
    Ok((item, at, rest))
}

fn items_behind(
    alloc: Global,
    count: u32,
    limit: u32,
    bytes: &[u8],
) -> Result<(Vec<LogItem>, u32, &[u8]), RecordError>
    ensures { Gives (λ x. (items_of x.0.items, x.1, x.2.now)) result (items_at count limit 0 bytes.now) }
{
    let mut items = Vec::with_capacity(alloc, parts_within(count, LEAST_ITEM_LEN, bytes))?;
    let mut rest = bytes;
    let mut at = 0;
    for _ in 0..count {
        let (item, after_entries, after) = item_behind(alloc, limit, at, rest)?;
        items.push(item)?;
        at = after_entries;
        rest = after;
    }
    Ok((items, at, rest))
}

/// The items of a record, from their count on and without their checksum. Their entries take all of
/// a block of `limit` bytes.
#[tactic(auto, unfolding(crate::specs::Reading::body_at))]
pub fn body_of(alloc: Global, limit: u32, bytes: &[u8]) -> Result<Vec<LogItem>, RecordError>
    ensures { Gives (λ v. items_of v.items) result (body_at limit bytes.now) }
{
    let (count, rest) = u32_at(bytes)?;
    let (items, at, rest) = items_behind(alloc, count, limit, rest)?;
    if !rest.is_empty() {
        return Err(RecordError::Corruption(RecordFault::TrailingBytes));
    }
    if at != limit {
        return Err(RecordError::Corruption(RecordFault::EntriesLength));
    }
    Ok(items)
}
