//! Tests of what a crash may leave of a file.

ghost use Rattle.std.specs.Prelude.{◌≡◌, ◌<◌, ◌≤◌, ◌==◌, IsTrue, IfOk, OnOk, IfSome, length, slice_index, take, drop};
ghost use Rattle.std.specs.List.{list_all};
ghost use Rattle.raft_log_records.specs.Reading.{record_at};
ghost use Rattle.raft_log_disk.specs.Disk.{IsIn};
ghost use Rattle.raft_log_disk.specs.Image.{IsOutside, IsFileImage};
ghost use Rattle.raft_log_disk.specs.Chance.{Stands, IsWritten, IsHeaderWritten, AreWritten, IsGenuine, LengthIs, gap, padding};
ghost use Rattle.raft_log_disk.specs.Memory.{state_of};
ghost use Rattle.raft_log_disk.specs.Changes.{spans_of, ranges_of, undo, undone};

use crate::format::LogFileFormat;
use crate::memory_file::{Change, MemoryFile, Written, overwrite};
use raft_log_records::{FileId, LogFileContext, RecordError, read_record};
use std::alloc::{AllocError, Global};

fn undo_change(bytes: &mut Vec<u8>, change: &Change) -> Result<(), AllocError>
    ensures { OnOk result (bytes.new.items ≡ undo change.now bytes.old.items) }
{
    let at = change.from.min(bytes.len());
    let Ok(()) = overwrite(bytes, at, &change.replaced) else {
        return Err(AllocError);
    };
    bytes.truncate(change.len);
    Ok(())
}

/// The bytes of the last sync or crash.
pub fn kept_of(alloc: Global, file: &MemoryFile) -> Result<Vec<u8>, AllocError>
    ensures { IfOk result (λ v. v.items ≡ undone file.now.changes.items file.now.bytes.items) }
{
    let mut bytes = Vec::from_slice(alloc, &file.bytes)?;
    let mut left = file.changes.len();
    while left > 0 {
        left -= 1;
        undo_change(&mut bytes, &file.changes[left])?;
    }
    Ok(bytes)
}

// Whether no change reached this place.
fn is_outside(i: usize, ranges: &[Change]) -> bool
    ensures yes { IsTrue result → IsOutside i (ranges_of ranges.now) }
    ensures no { IsOutside i (ranges_of ranges.now) → IsTrue result }
{
    match ranges {
        [] => true,
        [first, rest @ ..] => (i < first.from || first.to <= i) && is_outside(i, rest),
    }
}

fn byte_at(bytes: &[u8], i: usize) -> u8
    ensures { result ≡ slice_index bytes.now i }
{
    if i < bytes.len() { bytes[i] } else { 0 }
}

/// Whether a crash may leave these bytes of a file, whose last sync or crash left `kept`.
pub fn is_image(file: &MemoryFile, kept: &[u8], bytes: &[u8]) -> bool
    requires { kept.now ≡ undone file.now.changes.items file.now.bytes.items }
    ensures yes { IsTrue result → IsFileImage (state_of file.now) bytes.now }
    ensures no { IsFileImage (state_of file.now) bytes.now → IsTrue result }
{
    if bytes.len() < file.least || bytes.len() > file.greatest {
        return false;
    }
    for (i, b) in bytes.iter().enumerate() {
        // Most bytes are as they were, so the changes are looked through for few of them.
        if byte_at(kept, i) != *b && is_outside(i, &file.changes) {
            return false;
        }
    }
    true
}

fn is_same(a: &[u8], b: &[u8]) -> bool
    ensures yes { IsTrue result → a.now ≡ b.now }
    ensures no { a.now ≡ b.now → IsTrue result }
{
    a == b
}

// Whether one of the writes was of these bytes at this place.
fn has_span(writes: &[Written], at: usize, bytes: &[u8]) -> bool
    ensures yes { IsTrue result → IsIn (at, bytes.now) (spans_of writes.now) }
    ensures no { IsIn (at, bytes.now) (spans_of writes.now) → IsTrue result }
{
    match writes {
        [] => false,
        [first, rest @ ..] => {
            if first.at != at {
                return has_span(rest, at, bytes);
            }
            if is_same(bytes, &first.bytes) {
                return true;
            }
            has_span(rest, at, bytes)
        }
    }
}

fn stands(kept: &[u8], at: usize, bytes: &[u8]) -> bool
    ensures yes { IsTrue result → Stands kept.now at bytes.now }
    ensures no { Stands kept.now at bytes.now → IsTrue result }
{
    let (_, rest) = kept.split_at(at.min(kept.len()));
    let (there, _) = rest.split_at(bytes.len().min(rest.len()));
    is_same(there, bytes)
}

// Whether just these bytes were written at this place, and a crash would show them as such.
fn is_written(file: &MemoryFile, kept: &[u8], at: usize, bytes: &[u8]) -> bool
    requires { kept.now ≡ undone file.now.changes.items file.now.bytes.items }
    ensures yes { IsTrue result → IsWritten (state_of file.now) at bytes.now }
    ensures no { IsWritten (state_of file.now) at bytes.now → IsTrue result }
{
    if has_span(&file.later, at, bytes) {
        return true;
    }
    has_span(&file.earlier, at, bytes) && stands(kept, at, bytes)
}

fn starts_with(text: &[u8], front: &[u8]) -> bool
    ensures yes { IsTrue result → take (length front.now) text.now ≡ front.now }
    ensures no { take (length front.now) text.now ≡ front.now → IsTrue result }
{
    let (there, _) = text.split_at(front.len().min(text.len()));
    is_same(there, front)
}

// The same of a header, but for the one that a rename brought.
fn is_header_written(file: &MemoryFile, kept: &[u8], header: &[u8]) -> bool
    requires { kept.now ≡ undone file.now.changes.items file.now.bytes.items }
    ensures yes { IsTrue result → IsHeaderWritten (state_of file.now) header.now }
    ensures no { IsHeaderWritten (state_of file.now) header.now → IsTrue result }
{
    if is_written(file, kept, 0, header) {
        return true;
    }
    starts_with(&file.brought, header)
}

// The length of the record at the front, if there is one.
fn next_len(
    alloc: Global,
    bytes: &[u8],
    signature: Option<u32>,
) -> Result<Option<usize>, AllocError>
    ensures read { IfOk result (λ len. LengthIs (record_at signature bytes.now) len) }
    ensures within { IfOk result (λ len. IfSome len (λ n. n ≤ length bytes.now)) }
{
    match read_record(alloc, bytes, signature) {
        Ok(record) => Ok(Some(record.len as usize)),
        Err(RecordError::Memory) => Err(AllocError),
        Err(_) => Ok(None),
    }
}

// How far it is from a place to the next multiple of an alignment, if there is an alignment.
fn gap(alignment: u64, at: u64) -> u64
    ensures { result ≡ gap alignment at }
{
    if alignment == 0 {
        return 0;
    }
    let past = at % alignment;
    if past == 0 { 0 } else { alignment - past }
}

fn are_zeros(bytes: &[u8]) -> bool
    ensures { result ≡ list_all (λ b. b == 0) bytes.now }
{
    bytes.iter().all(|b| *b == 0)
}

// The length of the padding at the front, which reading skips.
fn padding(alignment: u64, at: usize, bytes: &[u8]) -> usize
    ensures is { result ≡ padding alignment at bytes.now }
    ensures within { result ≤ length bytes.now }
{
    let len = gap(alignment, at as u64) as usize;
    if bytes.len() < len {
        return 0;
    }
    let (front, _) = bytes.split_at(len);
    if are_zeros(front) { len } else { 0 }
}

// Whether each record that is read from a place on was written there.
fn are_written(
    alloc: Global,
    file: &MemoryFile,
    kept: &[u8],
    alignment: u64,
    signature: Option<u32>,
    bytes: &[u8],
    start: usize,
) -> Result<bool, AllocError>
    requires kept { kept.now ≡ undone file.now.changes.items file.now.bytes.items }
    requires start { start ≤ length bytes.now }
    ensures yes { IfOk result (λ b. IsTrue b → AreWritten (state_of file.now) alignment signature (length bytes.now) start (drop start bytes.now)) }
    ensures no { IfOk result (λ b. AreWritten (state_of file.now) alignment signature (length bytes.now) start (drop start bytes.now) → IsTrue b) }
{
    let (_, mut rest) = bytes.split_at(start);
    let mut at = start;
    for step in 0..bytes.len() {
        let _ = step;
        let Some(len) = next_len(alloc, rest, signature)? else {
            let skipped = padding(alignment, at, rest);
            if skipped == 0 {
                return Ok(true);
            }
            let (_, behind) = rest.split_at(skipped);
            at += skipped;
            rest = behind;
            continue;
        };
        let (record, behind) = rest.split_at(len);
        if !is_written(file, kept, at, record) {
            return Ok(false);
        }
        at += len;
        rest = behind;
    }
    Ok(true)
}

/// Whether the header and each record that a log file's bytes show from their front were written
/// there.
pub fn is_genuine(
    alloc: Global,
    id: FileId,
    file: &MemoryFile,
    kept: &[u8],
    bytes: &[u8],
) -> Result<bool, AllocError>
    requires { kept.now ≡ undone file.now.changes.items file.now.bytes.items }
    ensures yes { IfOk result (λ b. IsTrue b → IsGenuine id (state_of file.now) bytes.now) }
    ensures no { IfOk result (λ b. IsGenuine id (state_of file.now) bytes.now → IsTrue b) }
{
    let Ok(format) = LogFileFormat::decode(bytes) else {
        return Ok(true);
    };
    let len = LogFileFormat::encoded_len(format.version);
    let (header, _) = bytes.split_at(len);
    if !is_header_written(file, kept, header) {
        return Ok(false);
    }
    let signature = LogFileContext::new(id, format.version).get_signature();
    are_written(alloc, file, kept, format.alignment, signature, bytes, len)
}
