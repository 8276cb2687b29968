//! Calls that change the files of one queue.

ghost use Rattle.std.specs.Prelude.{◌≡◌, ◌⊎◌, IfErr, IsErrOf, OnOk};
ghost use Rattle.raft_log_records.specs.Spelling.{AreItems};
ghost use Rattle.raft_log_disk.specs.Cause.{NothingRefuses, RefusesNoMore, Spends};
ghost use Rattle.raft_log_files.specs.declared.error.Error.TheVariants.{Other};
ghost use Rattle.raft_log_files.specs.declared.error.OtherFault.TheVariants.{FileGone};
ghost use Rattle.raft_log_pipe.specs.Alone.{IsAlone};
ghost use Rattle.raft_log_pipe.specs.Blocks.{IsOutOfSpan};
ghost use Rattle.raft_log_pipe.specs.Caused.{IsAppendFault, IsPurgeFault, IsRefusalOrMemory, IsRotationFault};
ghost use Rattle.raft_log_pipe.specs.Others.{KeepsOthers};
ghost use Rattle.raft_log_pipe.specs.Pipe.{IsPipe, IsPopulated};
ghost use Rattle.raft_log_pipe.specs.Taken.{IsAppendTaken, IsOkOrMemory, IsPurgeTaken, IsRotationTaken};
ghost use Rattle.raft_log_pipes.specs.Calls.{IsAppendOf, IsCloseOf, IsPurgeOf, IsRotationOf, IsSyncOf};
ghost use Rattle.raft_log_pipes.specs.Kept.{KeepSettings};
ghost use Rattle.raft_log_pipes.specs.Pipes.{ArePipes, IsAsBefore, other_queue, pipe_of};

use crate::pipes::DualPipes;
use raft_log_files::{Error, FileSystem};
use raft_log_records::{FileBlockHandle, FileSeq, LogBatch, LogQueue};

impl DualPipes {
    /// Appends a batch to a queue, as `SinglePipe::append` does, and answers where its record
    /// stands. The other queue stays as it is.
    pub fn append<F: FileSystem>(
        &mut self,
        files: &mut F,
        queue: LogQueue,
        batch: &mut LogBatch,
    ) -> Result<FileBlockHandle, Error>
        requires pipe { IsPipe (pipe_of self.old queue) (F.disk files.old) }
        requires populated { IsPopulated batch.old }
        requires items { AreItems batch.old.items }
        ensures call { IsAppendOf (pipe_of self.old queue) (F.disk files.old) (pipe_of self.new queue) (F.disk files.new) batch.old.items result }
        ensures set { KeepSettings self.old self.new }
        ensures batch { batch.new.items ≡ batch.old.items }
        ensures both { ArePipes self.old (F.disk files.old) → OnOk result (ArePipes self.new (F.disk files.new)) }
        ensures others { KeepsOthers queue (F.disk files.old) (F.disk files.new) }
        ensures other { IsAsBefore (pipe_of self.old (other_queue queue)) (F.disk files.old) (pipe_of self.new (other_queue queue)) (F.disk files.new) }
        ensures later { RefusesNoMore (F.is_bounded files.old) (F.is_bounded files.new) (F.meter files.old) (F.meter files.new) }
        ensures taken { NothingRefuses (F.is_bounded files.old) (F.meter files.old) → IsAppendTaken (pipe_of self.old queue) (F.disk files.old) batch.old.items result }
        ensures cause { IfErr result (λ e. IsAppendFault (pipe_of self.old queue) (F.disk files.old) (F.meter files.old) (F.meter files.new) e) }
    {
        match queue {
            LogQueue::Append => self.append.append(files, batch),
            LogQueue::Rewrite => self.rewrite.append(files, batch),
        }
    }

    /// After it, a crash leaves what was appended to a queue. The other queue stays as it is, and
    /// what of it wasn't synced is not synced by this call.
    pub fn sync<F: FileSystem>(&mut self, files: &mut F, queue: LogQueue) -> Result<(), Error>
        requires pipe { IsPipe (pipe_of self.old queue) (F.disk files.old) }
        ensures call { IsSyncOf (pipe_of self.old queue) (F.disk files.old) (pipe_of self.new queue) (F.disk files.new) result }
        ensures set { KeepSettings self.old self.new }
        ensures both { ArePipes self.old (F.disk files.old) → ArePipes self.new (F.disk files.new) }
        ensures others { KeepsOthers queue (F.disk files.old) (F.disk files.new) }
        ensures other { IsAsBefore (pipe_of self.old (other_queue queue)) (F.disk files.old) (pipe_of self.new (other_queue queue)) (F.disk files.new) }
        ensures later { RefusesNoMore (F.is_bounded files.old) (F.is_bounded files.new) (F.meter files.old) (F.meter files.new) }
        ensures taken { NothingRefuses (F.is_bounded files.old) (F.meter files.old) → IsOkOrMemory result }
        ensures cause { IfErr result (λ e. IsRefusalOrMemory (F.meter files.old) (F.meter files.new) e) }
        ensures spends { OnOk result (Spends (F.meter files.old) (F.meter files.new)) }
    {
        match queue {
            LogQueue::Append => self.append.sync(files),
            LogQueue::Rewrite => self.rewrite.sync(files),
        }
    }

    /// Goes on with a new file of a queue. All that was appended to it is on the disk then. The
    /// other queue stays as it is.
    pub fn rotate<F: FileSystem>(&mut self, files: &mut F, queue: LogQueue) -> Result<(), Error>
        requires pipe { IsPipe (pipe_of self.old queue) (F.disk files.old) }
        ensures call { IsRotationOf (pipe_of self.old queue) (F.disk files.old) (pipe_of self.new queue) (F.disk files.new) result }
        ensures set { KeepSettings self.old self.new }
        ensures both { ArePipes self.old (F.disk files.old) → OnOk result (ArePipes self.new (F.disk files.new)) }
        ensures others { KeepsOthers queue (F.disk files.old) (F.disk files.new) }
        ensures other { IsAsBefore (pipe_of self.old (other_queue queue)) (F.disk files.old) (pipe_of self.new (other_queue queue)) (F.disk files.new) }
        ensures later { RefusesNoMore (F.is_bounded files.old) (F.is_bounded files.new) (F.meter files.old) (F.meter files.new) }
        ensures taken { NothingRefuses (F.is_bounded files.old) (F.meter files.old) → IsRotationTaken (pipe_of self.old queue) (F.disk files.old) result }
        ensures cause { IfErr result (λ e. IsRotationFault (pipe_of self.old queue) (F.disk files.old) (F.meter files.old) (F.meter files.new) e) }
    {
        match queue {
            LogQueue::Append => self.append.rotate(files),
            LogQueue::Rewrite => self.rewrite.rotate(files),
        }
    }

    /// Lets the files of a queue before a number go, and answers how many went, as
    /// `SinglePipe::purge_to` does. No file of the other queue goes.
    pub fn purge_to<F: FileSystem>(
        &mut self,
        files: &mut F,
        queue: LogQueue,
        seq: FileSeq,
    ) -> Result<u64, Error>
        requires pipe { IsPipe (pipe_of self.old queue) (F.disk files.old) }
        ensures call { IsPurgeOf (pipe_of self.old queue) (F.disk files.old) (pipe_of self.new queue) (F.disk files.new) seq result }
        ensures set { KeepSettings self.old self.new }
        ensures both { ArePipes self.old (F.disk files.old) → ArePipes self.new (F.disk files.new) }
        ensures others { KeepsOthers queue (F.disk files.old) (F.disk files.new) }
        ensures other { IsAsBefore (pipe_of self.old (other_queue queue)) (F.disk files.old) (pipe_of self.new (other_queue queue)) (F.disk files.new) }
        ensures later { RefusesNoMore (F.is_bounded files.old) (F.is_bounded files.new) (F.meter files.old) (F.meter files.new) }
        ensures taken { NothingRefuses (F.is_bounded files.old) (F.meter files.old) → IsPurgeTaken (pipe_of self.old queue) (F.disk files.old) seq result }
        ensures there { NothingRefuses (F.is_bounded files.old) (F.meter files.old) → IsAlone (pipe_of self.old queue) (F.disk files.old)
            → IsOutOfSpan (pipe_of self.old queue) seq ⊎ IsOkOrMemory result }
        ensures cause { IfErr result (λ e. IsPurgeFault (pipe_of self.old queue) (F.disk files.old) seq (F.meter files.old) (F.meter files.new) e) }
        ensures found { IsAlone (pipe_of self.old queue) (F.disk files.old) → IsErrOf result (Other FileGone) → ⊥ }
    {
        match queue {
            LogQueue::Append => self.append.purge_to(files, seq),
            LogQueue::Rewrite => self.rewrite.purge_to(files, seq),
        }
    }

    /// Cuts and syncs the last file of a queue, so that all that was appended to it is on the disk.
    /// The other queue stays as it is.
    pub fn close<F: FileSystem>(&mut self, files: &mut F, queue: LogQueue) -> Result<(), Error>
        requires pipe { IsPipe (pipe_of self.old queue) (F.disk files.old) }
        ensures call { IsCloseOf (pipe_of self.old queue) (F.disk files.old) (pipe_of self.new queue) (F.disk files.new) result }
        ensures set { KeepSettings self.old self.new }
        ensures both { ArePipes self.old (F.disk files.old) → ArePipes self.new (F.disk files.new) }
        ensures others { KeepsOthers queue (F.disk files.old) (F.disk files.new) }
        ensures other { IsAsBefore (pipe_of self.old (other_queue queue)) (F.disk files.old) (pipe_of self.new (other_queue queue)) (F.disk files.new) }
        ensures later { RefusesNoMore (F.is_bounded files.old) (F.is_bounded files.new) (F.meter files.old) (F.meter files.new) }
        ensures taken { NothingRefuses (F.is_bounded files.old) (F.meter files.old) → IsOkOrMemory result }
        ensures cause { IfErr result (λ e. IsRefusalOrMemory (F.meter files.old) (F.meter files.new) e) }
    {
        match queue {
            LogQueue::Append => self.append.close(files),
            LogQueue::Rewrite => self.rewrite.close(files),
        }
    }
}
