//! Whether the rewrite queue is to be written anew.

ghost use Rattle.std.specs.Prelude.{◌↔◌, ◌<◌, IsTrue};
ghost use Rattle.raft_log_rewriter.specs.Due.{IsDue};

use raft_log_purge::{QueueFiles, Rewritten, has_garbage, is_large};

/// A group with more entries than these in the rewrite queue is told to compact.
const MANY_REWRITTEN: u64 = 32;

/// Whether the rewrite queue is to be written anew (raft-engine's `needs_rewrite_log_files` of that
/// queue): it has old files and more bytes than a threshold, and more per cent than these of what was
/// written to it count no more.
pub fn is_due(files: QueueFiles, counts: Rewritten, threshold: u64, percent: u64) -> bool
    ensures { IsTrue result ↔ IsDue files counts threshold percent }
{
    is_large(files, threshold) && has_garbage(counts, percent)
}

/// Whether a group with so many entries in the rewrite queue is told to compact, as the queue is
/// written anew.
pub fn has_many_rewritten(rewritten: u64) -> bool
    ensures { IsTrue result ↔ (32 < rewritten) }
{
    rewritten > MANY_REWRITTEN
}
