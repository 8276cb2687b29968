//! Two pipes, and what they tell of their files.

ghost use Rattle.std.specs.Prelude.{◌≡◌, ◌+◌, ◌-◌, ◌*◌, ◌/◌, ◌≤◌, ◌^◌, min, length, IfErr, OnOk};
ghost use Rattle.raft_log_files.specs.declared.error.Error.TheVariants.{Memory};
ghost use Rattle.raft_log_records.specs.declared.file_id.LogQueue.{LogQueue};
ghost use Rattle.raft_log_records.specs.declared.file_id.LogQueue.TheVariants.{Append, Rewrite};
ghost use Rattle.raft_log_disk.specs.Cause.{NothingRefuses, RefusesNoMore};
ghost use Rattle.raft_log_pipe.specs.Alone.{IsAlone, directories_of_pipe, main_of};
ghost use Rattle.raft_log_pipe.specs.Caused.{IsRefusalOrMemory};
ghost use Rattle.raft_log_pipe.specs.Kept.{with_reserved};
ghost use Rattle.raft_log_pipe.specs.Pipe.{IsPipe, Holds, Numbered, first_of};
ghost use Rattle.raft_log_pipe.specs.Prepared.{AreTrimmed, IsPreparedOf, LacksNumbers};
ghost use Rattle.raft_log_pipe.specs.Reserved.{AreReserved};
ghost use Rattle.raft_log_pipe.specs.Taken.{IsTakenBy};
ghost use Rattle.raft_log_pipe.specs.Unreserved.{KeepsUnreserved};

use raft_log_files::{Error, FileSystem};
use raft_log_pipe::{ReservedFile, SinglePipe};
use raft_log_records::{FileBlockHandle, FileSeq, LogQueue};

/// The log files of both queues (raft-engine's `DualPipes`), each pipe of its queue. The file system
/// is passed to each call, and lies under both: a call on one queue leaves the files of the other as
/// they are.
#[derive(Drop)]
pub struct DualPipes {
    pub(crate) append: SinglePipe,
    pub(crate) rewrite: SinglePipe,
    pub ghost appends: { append.queue ≡ Append },
    pub ghost rewrites: { rewrite.queue ≡ Rewrite },
}

impl DualPipes {
    ghost use Rattle.raft_log_pipes.specs.Calls.{IsReadOf};
    ghost use Rattle.raft_log_pipes.specs.Pipes.{ArePipes, pipe_of};

    /// The pipes of both queues (raft-engine's `open`).
    pub fn open(append: SinglePipe, rewrite: SinglePipe) -> DualPipes
        requires append { append.queue ≡ Append }
        requires rewrite { rewrite.queue ≡ Rewrite }
        ensures pipes { (result.append ≡ append) × (result.rewrite ≡ rewrite) }
    {
        DualPipes { append, rewrite }
    }

    /// Takes over the reserved files that an opening found, for the append queue: its rotations take
    /// the first of them. It keeps none of them unless each is there. From then on the queue has as
    /// many files as the capacity says, those that it keeps and all others.
    pub fn keep_reserved<F: FileSystem>(
        &mut self,
        files: &F,
        found: Vec<ReservedFile>,
        capacity: u64,
    ) -> Result<(), Error>
        requires { ArePipes self.old (F.disk files.now) }
        ensures pipes { ArePipes self.new (F.disk files.now) }
        ensures append { self.new.append ≡ with_reserved self.old.append self.new.append.reserved self.new.append.capacity }
        ensures capacity { OnOk result (self.new.append.capacity ≡ capacity) }
        ensures rewrite { self.new.rewrite ≡ self.old.rewrite }
        ensures ok { OnOk result (AreReserved self.old.append.queue (directories_of_pipe self.old.append) (F.disk files.now) found.items → self.new.append.reserved.items ≡ found.items) }
        ensures cause { IfErr result (λ e. e ≡ Memory) }
    {
        self.append.keep_reserved(files, found, capacity)
    }

    /// Makes the append queue's reserved files up to a wanted number, or deletes those past it, as
    /// `SinglePipe::prepare_reserved` does. Nothing else of either queue changes.
    pub fn prepare_reserved<F: FileSystem>(
        &mut self,
        files: &mut F,
        wanted: u64,
    ) -> Result<(), Error>
        requires { ArePipes self.old (F.disk files.old) }
        ensures pipes { ArePipes self.new (F.disk files.new) }
        ensures append { self.new.append ≡ with_reserved self.old.append self.new.append.reserved self.old.append.capacity }
        ensures rewrite { self.new.rewrite ≡ self.old.rewrite }
        ensures ok { OnOk result (length self.new.append.reserved.items ≤ wanted) }
        ensures made { OnOk result (IsPreparedOf self.new.append (F.disk files.new) wanted (F.meter files.old) (F.meter files.new)) }
        ensures gone { OnOk result (AreTrimmed self.old.append self.new.append (F.disk files.new)) }
        ensures unreserved { KeepsUnreserved (F.disk files.old) (F.disk files.new) }
        ensures holds { (queue : LogQueue) (synced : Numbered) (unsynced : Numbered) → Holds (pipe_of self.old queue) (F.disk files.old) synced unsynced
            → Holds (pipe_of self.new queue) (F.disk files.new) synced unsynced }
        ensures alone { (queue : LogQueue) → IsAlone (pipe_of self.old queue) (F.disk files.old) → IsAlone (pipe_of self.new queue) (F.disk files.new) }
        ensures later { RefusesNoMore (F.is_bounded files.old) (F.is_bounded files.new) (F.meter files.old) (F.meter files.new) }
        ensures taken { NothingRefuses (F.is_bounded files.old) (F.meter files.old) → IsTakenBy ⊥ ⊥ (LacksNumbers (F.disk files.old) (wanted - length self.old.append.reserved.items)) result }
        ensures cause { IfErr result (λ e. IsRefusalOrMemory (F.meter files.old) (F.meter files.new) e) }
    {
        self.append.prepare_reserved(files, wanted)
    }

    /// The main directory of the append queue's files.
    pub fn path(&self) -> &str
        ensures { result.now ≡ main_of (directories_of_pipe self.now.append) }
    {
        self.append.path()
    }

    /// The numbers of the first file and of the last of a queue.
    pub fn file_span(&self, queue: LogQueue) -> (FileSeq, FileSeq)
        ensures first { result.0 ≡ first_of (pipe_of self.now queue) }
        ensures last { result.1 ≡ (pipe_of self.now queue).active.seq }
    {
        match queue {
            LogQueue::Append => self.append.file_span(),
            LogQueue::Rewrite => self.rewrite.file_span(),
        }
    }

    /// The number of the file before which so many per cent of a queue's files lie.
    pub fn file_at(&self, queue: LogQueue, percent: u64) -> FileSeq
        requires { percent ≤ 100 }
        ensures { result ≡ min (first_of (pipe_of self.now queue) + min ((length (pipe_of self.now queue).older.items + 1) * percent) (2 ^ 64 - 1) / 100) (2 ^ 64 - 1) }
    {
        match queue {
            LogQueue::Append => self.append.file_at(percent),
            LogQueue::Rewrite => self.rewrite.file_at(percent),
        }
    }

    /// The bytes of all files of a queue, each taken as long as the target size.
    pub fn total_size(&self, queue: LogQueue) -> u64
        ensures { result ≡ min ((length (pipe_of self.now queue).older.items + 1) * (pipe_of self.now queue).target_file_size) (2 ^ 64 - 1) }
    {
        match queue {
            LogQueue::Append => self.append.total_size(),
            LogQueue::Rewrite => self.rewrite.total_size(),
        }
    }

    /// The bytes of a block of a file of the handle's queue. A block of a file that this queue
    /// doesn't have is `Corruption`.
    pub fn read_bytes<F: FileSystem>(
        &self,
        files: &F,
        handle: FileBlockHandle,
    ) -> Result<Vec<u8>, Error>
        requires { IsPipe (pipe_of self.now handle.id.queue) (F.disk files.now) }
        ensures { IsReadOf (pipe_of self.now handle.id.queue) (F.disk files.now) (F.meter files.now) handle result }
    {
        match handle.id.queue {
            LogQueue::Append => self.append.read_bytes(files, handle),
            LogQueue::Rewrite => self.rewrite.read_bytes(files, handle),
        }
    }
}
