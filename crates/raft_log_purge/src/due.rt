//! Whether a queue is to be cleaned.

ghost use Rattle.std.specs.Prelude.{◌≡◌, ◌+◌, ◌-◌, ◌*◌, ◌^◌, ◌↔◌, min, length, IsTrue};
ghost use Rattle.raft_log_pipe.specs.Pipe.{first_of};
ghost use Rattle.raft_log_pipes.specs.Pipes.{pipe_of};
ghost use Rattle.raft_log_purge.specs.Due.{HasGarbage, IsLarge, IsPast, all_of};

use raft_log_pipes::DualPipes;
use raft_log_records::{FileSeq, LogQueue};

/// The files of a queue.
#[derive(Clone, Copy, PartialEq, Eq)]
pub struct QueueFiles {
    /// The number of the first one.
    pub first: FileSeq,
    /// The number of the last one, which is written.
    pub active: FileSeq,
    /// The bytes of all of them, each taken as long as the target size.
    pub size: u64,
}

/// What stands in the rewrite queue, counted. A count stays at 2^64 - 1.
#[derive(Clone, Copy, PartialEq, Eq)]
pub struct RewriteCounts {
    /// Entries, and keys that are set (raft-engine's `rewrite_entries`).
    pub sets: u64,
    /// Marks (own): each Clean, each Compact, each key that is removed.
    pub marks: u64,
}

/// What was written to the rewrite queue.
#[derive(Clone, Copy, PartialEq, Eq)]
pub struct Rewritten {
    /// How much was written to it, since it was last written anew.
    pub written: RewriteCounts,
    /// How much of it still counts.
    pub live: RewriteCounts,
}

/// The files that a queue has.
pub fn files_of(pipes: &DualPipes, queue: LogQueue) -> QueueFiles
    ensures first { result.first ≡ first_of (pipe_of pipes.now queue) }
    ensures active { result.active ≡ (pipe_of pipes.now queue).active.seq }
    ensures size { result.size ≡ min ((length (pipe_of pipes.now queue).older.items + 1) * (pipe_of pipes.now queue).target_file_size) (2 ^ 64 - 1) }
{
    let (first, active) = pipes.file_span(queue);
    QueueFiles {
        first,
        active,
        size: pipes.total_size(queue),
    }
}

/// Whether a queue has old files, and with them more bytes than it may have.
pub fn is_large(files: QueueFiles, most: u64) -> bool
    ensures { IsTrue result ↔ IsLarge files most }
{
    files.first < files.active && most < files.size
}

impl RewriteCounts {
    /// Entries, keys and marks together.
    fn all(&self) -> u64
        ensures { result ≡ all_of self.now }
    {
        self.sets.saturating_add(self.marks)
    }
}

/// Whether more per cent than these of so many count no more.
fn is_past(written: u64, live: u64, percent: u64) -> bool
    ensures { IsTrue result ↔ IsPast written live percent }
{
    let garbage = written.saturating_sub(live);
    (written as u128) * (percent as u128) < (garbage as u128) * 100
}

/// Whether more per cent than these of what was written to the rewrite queue count no more: of its
/// entries and keys (as raft-engine counts), or of these with its marks (own), so that marks alone
/// don't pile up.
pub fn has_garbage(counts: Rewritten, percent: u64) -> bool
    ensures { IsTrue result ↔ HasGarbage counts percent }
{
    is_past(counts.written.sets, counts.live.sets, percent)
        || is_past(counts.written.all(), counts.live.all(), percent)
}
