//! Where a log file's header and its records end. A file is loaded piece by piece, so that each of them
//! counts as written: one that a torn write leaves by chance does not.
ghost use Rattle.std.specs.Prelude.{◌≤◌, ◌<◌, ◌+◌, length, IfOk};

use raft_log_disk::LogFileFormat;
use raft_log_records::{FileId, LogFileContext, RecordError, read_record};
use std::alloc::{AllocError, Global};

// The length of the header, or of all bytes where there is none.
fn header_len(bytes: &[u8]) -> usize
    ensures within { result ≤ length bytes.now }
    ensures some { 0 < length bytes.now → 0 < result }
{
    match LogFileFormat::decode(bytes) {
        Ok(format) => LogFileFormat::encoded_len(format.version),
        Err(_) => bytes.len(),
    }
}

// What the records of a file are signed with, if it has a header.
fn signature_of(id: FileId, bytes: &[u8]) -> Option<u32> {
    match LogFileFormat::decode(bytes) {
        Ok(format) => LogFileContext::new(id, format.version).get_signature(),
        Err(_) => None,
    }
}

// This length, or that of all bytes where they have no piece of it.
fn within(len: usize, bytes: &[u8]) -> usize
    ensures within { result ≤ length bytes.now }
    ensures some { 0 < length bytes.now → 0 < result }
{
    if 0 < len && len <= bytes.len() {
        len
    } else {
        bytes.len()
    }
}

// The length of the record at the front, or of all bytes where there is none.
fn record_len(alloc: Global, signature: Option<u32>, bytes: &[u8]) -> Result<usize, AllocError>
    ensures within { IfOk result (λ len. len ≤ length bytes.now) }
    ensures some { 0 < length bytes.now → IfOk result (λ len. 0 < len) }
{
    match read_record(alloc, bytes, signature) {
        Ok(record) => Ok(within(record.len as usize, bytes)),
        Err(RecordError::Memory) => Err(AllocError),
        Err(_) => Ok(bytes.len()),
    }
}

/// The length of the piece that begins at a place of a file's bytes: its header, a record, or all that
/// is left.
pub fn piece_len(alloc: Global, id: FileId, bytes: &[u8], at: usize) -> Result<usize, AllocError>
    requires { at < length bytes.now }
    ensures within { IfOk result (λ len. at + len ≤ length bytes.now) }
    ensures some { IfOk result (λ len. 0 < len) }
{
    if at == 0 {
        return Ok(header_len(bytes));
    }
    record_len(alloc, signature_of(id, bytes), &bytes[at..])
}
