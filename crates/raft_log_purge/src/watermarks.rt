//! Up to which files the append queue is cleaned.

ghost use Rattle.std.specs.Prelude.{◌≡◌, ◌<◌, ◌≤◌};
ghost use Rattle.raft_log_purge.specs.Watermarks.{mark_at};

use crate::due::QueueFiles;
use raft_log_records::FileSeq;

/// Groups with something in the oldest files, so many per cent, are old.
const COMPACT_PERCENT: u64 = 20;

/// What stands in the oldest files, so many per cent, may be rewritten.
const REWRITE_PERCENT: u64 = 70;

/// The files up to which the append queue is cleaned (raft-engine's watermarks).
#[derive(Clone, Copy, PartialEq, Eq)]
pub struct Watermarks {
    /// A group with something in a file before this one is old.
    pub compact: FileSeq,
    /// What stands in this file, or in one before it, may be rewritten.
    pub rewrite: FileSeq,
}

/// The file before which so many per cent of the files from the first to the last lie, but before
/// the last one, which is written.
pub fn mark_at(first: FileSeq, last: FileSeq, percent: u64) -> FileSeq
    requires some { first < last }
    requires percent { percent ≤ 100 }
    ensures mark { result ≡ mark_at first last percent }
    ensures from { first ≤ result }
    ensures before { result < last }
{
    let count = (last - first) as u128 + 1;
    let at = first as u128 + count * (percent as u128) / 100;
    at.min((last - 1) as u128) as u64
}

/// The marks of a queue that has more files than the one that is written.
pub fn watermarks_of(files: QueueFiles) -> Watermarks
    requires { files.first < files.active }
    ensures compact { result.compact ≡ mark_at files.first files.active 20 }
    ensures rewrite { result.rewrite ≡ mark_at files.first files.active 70 }
    ensures from { files.first ≤ result.compact }
    ensures order { result.compact ≤ result.rewrite }
    ensures before { result.rewrite < files.active }
{
    Watermarks {
        compact: mark_at(files.first, files.active, COMPACT_PERCENT),
        rewrite: mark_at(files.first, files.active, REWRITE_PERCENT),
    }
}
