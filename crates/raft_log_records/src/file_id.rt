//! Which log file, and where in it.

ghost use Rattle.std.specs.Prelude.{◌≡◌};

/// The two queues of log files: new batches go to the append queue, and what cleaning keeps of old
/// files goes to the rewrite queue. The rewrite queue comes first, since it is replayed first.
#[derive(Clone, Copy, Debug, PartialEq, Eq, PartialOrd, Ord)]
pub enum LogQueue {
    Rewrite,
    Append,
}

/// A log file's number in its queue, from 1 on.
pub type FileSeq = u64;

/// A log file's name: its queue and its number (raft-engine's `FileId`). All files of the rewrite
/// queue come before those of the append queue, and in one queue the number counts.
#[derive(Clone, Copy, Debug, PartialEq, Eq, PartialOrd, Ord)]
pub struct FileId {
    pub queue: LogQueue,
    pub seq: FileSeq,
}

impl FileId {
    /// The file with this number in a queue.
    pub fn new(queue: LogQueue, seq: FileSeq) -> FileId
        ensures queue { result.queue ≡ queue }
        ensures seq { result.seq ≡ seq }
    {
        FileId { queue, seq }
    }
}

/// Where a block of bytes stands in a log file (raft-engine's `FileBlockHandle`): its file, the
/// bytes before it there, and its length in bytes.
#[derive(Clone, Copy, Debug, PartialEq, Eq)]
pub struct FileBlockHandle {
    pub id: FileId,
    pub offset: u64,
    pub len: u64,
}
