//! Entries on their way into a batch.

ghost use Rattle.std.specs.Prelude.{◌≡◌, ◌≤◌, ◌<◌, ◌+◌, ◌*◌, ◌^◌, ◌++◌, ℕ, List, length, map, true, IfSome, IfNone, IfOk, IfErr, OnOk, OnErr};
ghost use Rattle.std.specs.List.{list_all};
ghost use Rattle.raft_log_records.specs.Batch.{payloads, joined, numbered, IsWriteRefusal};
ghost use Rattle.raft_log_records.specs.Places.{runs};

use crate::error::RecordError;
use crate::item::EntryIndex;
use crate::message::Message;
use crate::record::MAX_RECORD_LEN;
use std::alloc::{AllocError, Global};

/// A record has at most so many entries, each with an index and a length.
const MOST_ENTRIES: usize = MAX_RECORD_LEN as usize / 12;

/// The length of all entries together, or none where it passes any record's.
pub fn total_len(entries: &[Vec<u8>]) -> Option<u32>
    ensures fits { IfSome result (λ n. (n ≡ length (joined (payloads entries.now))) × (n ≤ 33554432)) }
    ensures long { IfNone result (33554432 < length (joined (payloads entries.now))) }
{
    let mut total: u32 = 0;
    for entry in entries {
        if entry.len() > (MAX_RECORD_LEN - total) as usize {
            return None;
        }
        total += entry.len() as u32;
    }
    Some(total)
}

/// Where the entries lie, of which the first begins at byte `at` of the block.
pub fn index_entries(
    alloc: Global,
    first: u64,
    mut at: u32,
    entries: &[Vec<u8>],
) -> Result<Vec<EntryIndex>, AllocError>
    requires indexes { first + length entries.now < 2 ^ 64 }
    requires room { at + length (joined (payloads entries.now)) < 2 ^ 32 }
    ensures { IfOk result (λ v. v.items ≡ runs at (numbered first (payloads entries.now))) }
{
    let mut indexes = Vec::with_capacity(alloc, entries.len())?;
    let mut index = first;
    for entry in entries {
        let entry_len = entry.len() as u32;
        indexes.push(EntryIndex {
            index,
            entries: None,
            entry_offset: at,
            entry_len,
        })?;
        at += entry_len;
        index += 1;
    }
    Ok(indexes)
}

/// Puts all entries behind what is there, or leaves it as it is. Room is made once, for so many bytes.
pub fn append_all(out: &mut Vec<u8>, entries: &[Vec<u8>], room: u32) -> Result<(), AllocError>
    ensures ok { OnOk result (out.new.items ≡ out.old.items ++ joined (payloads entries.now)) }
    ensures err { OnErr result (out.new.items ≡ out.old.items) }
{
    let len = out.len();
    out.reserve(room as usize)?;
    for entry in entries {
        let Ok(()) = out.extend_from_slice(entry) else {
            out.truncate(len);
            return Err(AllocError);
        };
    }
    Ok(())
}

/// Writes all entries behind what is there, and answers where they lie. The bytes and the lengths of
/// the entries are bounded as a record's are. An entry past a limit of its type is `TooLong` too.
pub fn write_all<T: Message>(
    alloc: Global,
    first: u64,
    entries: &[T],
    out: &mut Vec<u8>,
) -> Result<Vec<EntryIndex>, RecordError>
    requires indexes { first + length entries.now < 2 ^ 64 }
    requires room { length out.old.items ≤ 33554432 }
    ensures bytes { OnOk result (out.new.items ≡ out.old.items ++ joined (map T.bytes entries.now)) }
    ensures places { IfOk result (λ v. v.items ≡ runs (length out.old.items) (numbered first (map T.bytes entries.now))) }
    ensures short { OnOk result (length out.new.items + 12 * length entries.now ≤ 33554432) }
    ensures stays { OnErr result ((more : List ℕ) × (out.new.items ≡ out.old.items ++ more)) }
    ensures fit { OnOk result (list_all T.fits entries.now ≡ true) }
    ensures long { IfErr result (IsWriteRefusal (list_all T.fits entries.now) (length out.old.items + 12 * length entries.now + length (joined (map T.bytes entries.now)))) }
{
    let mut indexes = Vec::with_capacity(alloc, entries.len().min(MOST_ENTRIES))?;
    let mut index = first;
    for entry in entries {
        let at = out.len();
        entry.write(out)?;
        if out.len() + 12 * (indexes.len() + 1) > MAX_RECORD_LEN as usize {
            return Err(RecordError::TooLong);
        }
        indexes.push(EntryIndex {
            index,
            entries: None,
            entry_offset: at as u32,
            entry_len: (out.len() - at) as u32,
        })?;
        index += 1;
    }
    Ok(indexes)
}
