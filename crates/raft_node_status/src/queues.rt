//! How many files a log has, and how many bytes they take.
ghost use Rattle.std.specs.Prelude.{◌≡◌};
ghost use Rattle.raft_log_engine.specs.Reads.{used_by};
ghost use Rattle.raft_log_pipe.specs.Pipe.{AreConsecutive};
ghost use Rattle.raft_log_pipes.specs.Pipes.{pipe_of};
ghost use Rattle.raft_log_records.specs.declared.file_id.LogQueue.TheVariants.{Append, Rewrite};
ghost use Rattle.raft_node_status.specs.Queues.{IsQueueStatus, files_in, numbers_in};

use raft_log_engine::Engine;
use raft_log_files::FileSystem;
use raft_log_records::LogQueue;

/// The files of one queue of a log (own).
#[derive(Clone, Copy, Debug, PartialEq, Eq)]
pub struct QueueStatus {
    /// How many there are, the one that is written among them.
    pub files: u64,
    /// How many bytes they take, each taken as long as the target size (raft-engine's
    /// `get_used_size` for one queue).
    pub bytes: u64,
}

/// The files of a log (own).
#[derive(Clone, Copy, Debug, PartialEq, Eq)]
pub struct LogStatus {
    /// Those that calls write to.
    pub append: QueueStatus,
    /// Those that cleanings write to.
    pub rewrite: QueueStatus,
}

/// The files of a queue (own). Files that are kept for reuse don't count.
pub fn queue_status<F: FileSystem + Drop>(engine: &Engine<F>, queue: LogQueue) -> QueueStatus
    ensures numbers { result.files ≡ numbers_in engine.now.pipes queue }
    ensures files { AreConsecutive (pipe_of engine.now.pipes queue).older.items (pipe_of engine.now.pipes queue).active.seq → result.files ≡ files_in engine.now.pipes queue }
    ensures bytes { result.bytes ≡ used_by engine.now.pipes queue }
{
    let (first, last) = engine.file_span(queue);
    QueueStatus {
        files: last.saturating_sub(first).saturating_add(1),
        bytes: engine.total_size(queue),
    }
}

/// The files of both queues (own).
pub fn log_status<F: FileSystem + Drop>(engine: &Engine<F>) -> LogStatus
    ensures append { IsQueueStatus engine.now.pipes Append result.append }
    ensures rewrite { IsQueueStatus engine.now.pipes Rewrite result.rewrite }
{
    LogStatus {
        append: queue_status(engine, LogQueue::Append),
        rewrite: queue_status(engine, LogQueue::Rewrite),
    }
}
