//! Names of log files.

ghost use Rattle.std.specs.Prelude.{◌≡◌, ◌≤◌, length, Option, Some, None, ◌&&◌, if◌then◌else◌};
ghost use Rattle.std.specs.List.{list_all};
ghost use Rattle.raft_log_disk.specs.Name.{is_digit, value_of, queued, file_id_of, log_file_of};

use crate::number;
use raft_log_records::{FileId, LogQueue};

/// The number that sixteen digits at most spell, if they are digits.
fn short_value(text: &[u8]) -> Option<u64>
    requires { length text.now ≤ 16 }
    ensures { result ≡ (if list_all is_digit text.now then Some (value_of text.now) else None) }
{
    if number::are_digits(text) {
        number::digits_value(text)
    } else {
        None
    }
}

fn queued(suffix: &[u8], seq: u64) -> Option<FileId>
    ensures { result ≡ queued suffix.now seq }
{
    if suffix == b".raftlog".as_slice() {
        Some(FileId::new(LogQueue::Append, seq))
    } else if suffix == b".rewrite".as_slice() {
        Some(FileId::new(LogQueue::Rewrite, seq))
    } else {
        None
    }
}

/// The log file of a name: exactly sixteen digits and a queue's suffix.
pub fn id_of(name: &[u8]) -> Option<FileId>
    ensures { result ≡ file_id_of name.now }
{
    if name.len() != 24 {
        return None;
    }
    let seq = short_value(&name[..16])?;
    queued(&name[16..], seq)
}

/// The log file of a path.
pub fn id_of_path(path: &[u8]) -> Option<FileId>
    ensures { result ≡ log_file_of path.now }
{
    if path.len() <= 24 {
        return None;
    }
    let start = path.len() - 24;
    if path[start - 1] != b'/' {
        return None;
    }
    let (_, name) = path.split_at(start);
    id_of(name)
}
