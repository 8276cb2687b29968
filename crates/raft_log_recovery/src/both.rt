//! Both queues, recovered and opened one after the other.

ghost use Rattle.std.specs.Prelude.{◌≡◌, ◌⊎◌, ◌++◌, List, [], Err, IfErr, IfOk, IsErr, OnOk};
ghost use Rattle.raft_log_disk.specs.Cause.{NothingRefuses, RefusesNoMore};
ghost use Rattle.raft_log_files.specs.Settings.{settings_of};
ghost use Rattle.raft_log_files.specs.declared.error.CorruptionFault.{CorruptionFault};
ghost use Rattle.raft_log_files.specs.declared.error.Error.TheVariants.{Corruption, Memory};
ghost use Rattle.raft_log_pipe.specs.Alone.{directories_of_pipe};
ghost use Rattle.raft_log_pipe.specs.Kept.{with_reserved};
ghost use Rattle.raft_log_pipe.specs.Others.{KeepsOthers};
ghost use Rattle.raft_log_pipes.specs.Pipes.{ArePipes, other_queue, pipe_of};
ghost use Rattle.raft_log_records.specs.declared.file_id.LogQueue.{LogQueue};
ghost use Rattle.raft_log_records.specs.declared.file_id.LogQueue.TheVariants.{Append, Rewrite};
ghost use Rattle.raft_log_recovery.specs.Both.{AreOpened, ArePipesWith, AreTaken, CantBeOpened, HasFewHoles, HaveFewHoles, IsEitherFault, IsFaultOf, IsFoundBy};
ghost use Rattle.raft_log_recovery.specs.Both.{IsOpened, KeepsFound, LeavesBoth, LeavesQueue, as_reserved};
ghost use Rattle.raft_log_recovery.specs.Opening.{IsPipeWith};
ghost use Rattle.raft_log_recovery.specs.Queue.{ChangesAtMost, directories_in, names_in};
ghost use Rattle.raft_log_recovery.specs.declared.scan.FileKind.TheVariants.{Log};
ghost use Rattle.raft_log_recovery.specs.Replay.{Placed};
ghost use Rattle.raft_log_recovery.specs.Scan.{AreFound, directories_of};
ghost use Rattle.raft_log_recovery.specs.Ways.{IsWay, Recovers};

use crate::builder::DualPipesBuilder;
use crate::machine::{Factory, ReplayMachine};
use crate::scan::FileName;
use raft_log_files::{Error, FileSystem, RecoveryConfig};
use raft_log_pipe::{File, ReservedFile, SinglePipe};
use raft_log_pipes::DualPipes;
use raft_log_records::LogQueue;
use std::alloc::{AllocError, Global};

// Reserved files by their names.
fn reserved_of(alloc: Global, found: &[FileName]) -> Result<Vec<ReservedFile>, AllocError>
    ensures { IfOk result (λ v. v.items ≡ as_reserved found.now) }
{
    let mut reserved = Vec::new(alloc);
    for file in found {
        reserved.push(ReservedFile {
            seq: file.seq,
            path_id: file.path_id,
        })?;
    }
    Ok(reserved)
}

// The other queue.
fn other_of(queue: LogQueue) -> LogQueue
    ensures { result ≡ other_queue queue }
{
    match queue {
        LogQueue::Append => LogQueue::Rewrite,
        LogQueue::Rewrite => LogQueue::Append,
    }
}

// The pipe of this queue, and that of the other, as both.
fn paired(first: LogQueue, one: SinglePipe, two: SinglePipe) -> DualPipes
    requires one { one.queue ≡ first }
    requires two { two.queue ≡ other_queue first }
    ensures one { pipe_of result first ≡ one }
    ensures two { pipe_of result (other_queue first) ≡ two }
{
    match first {
        LogQueue::Append => DualPipes::open(one, two),
        LogQueue::Rewrite => DualPipes::open(two, one),
    }
}

impl DualPipesBuilder {
    /// Opens one queue as the settings say.
    fn open_one<
        F: FileSystem,
        M: ReplayMachine,
        W: Fn(&DualPipesBuilder, &mut F, &RecoveryConfig, &mut M) -> Result<Vec<File>, Error>,
    >(&self, way: &W, files: &mut F, queue: LogQueue, machine: &mut M) -> Result<SinglePipe, Error>
        requires way { IsWay (W.pre way.now) (W.post way.now) F.disk F.meter F.is_bounded M.has_replayed }
        requires found { IsFoundBy self.now queue (F.disk files.old) }
        requires directories { directories_in self.now ≡ directories_of (settings_of self.now.config) }
        ensures opened { IfOk result (IsOpened self.now queue (F.disk files.old) (F.disk files.new)) }
        ensures replayed { IfOk result (λ p. (placed : List Placed) → M.has_replayed machine.old placed
            → (more : List Placed) × M.has_replayed machine.new (placed ++ more)
            × IsPipeWith (directories_in self.now) queue (names_in self.now queue) (F.disk files.old) (F.disk files.new) p more) }
        ensures leaves { LeavesQueue self.now.config.recovery_mode (directories_in self.now) queue (names_in self.now queue) (F.disk files.old) (F.disk files.new) }
        ensures only { ChangesAtMost (directories_in self.now) queue (names_in self.now queue) (F.disk files.old) (F.disk files.new) }
        ensures others { KeepsOthers queue (F.disk files.old) (F.disk files.new) }
        ensures refused { CantBeOpened self.now.config.recovery_mode self.now queue (F.disk files.old) → IsErr result }
        ensures corrupt { (f : CorruptionFault) → result ≡ Err (Corruption f) → CantBeOpened self.now.config.recovery_mode self.now queue (F.disk files.old) }
        ensures holes { IfOk result (HasFewHoles self.now queue (F.disk files.old) (F.disk files.new)) }
        ensures later { RefusesNoMore (F.is_bounded files.old) (F.is_bounded files.new) (F.meter files.old) (F.meter files.new) }
        ensures cause { IfErr result (λ e. IsFaultOf self.now queue (F.disk files.old) (F.disk files.new) (F.is_bounded files.old) (F.meter files.old) (F.meter files.new) e) }
    {
        let config = RecoveryConfig {
            queue,
            mode: self.config.recovery_mode,
            concurrency: self.config.recovery_threads,
            read_block_size: self.config.recovery_read_block_size.0,
        };
        self.open_by(way, files, &config, machine)
    }

    /// Opens one queue, and then the other.
    fn open_both<
        F: FileSystem,
        M: ReplayMachine,
        W: Fn(&DualPipesBuilder, &mut F, &RecoveryConfig, &mut M) -> Result<Vec<File>, Error>,
    >(&self, way: &W, files: &mut F, first: LogQueue, machine: &mut M) -> Result<DualPipes, Error>
        requires way { IsWay (W.pre way.now) (W.post way.now) F.disk F.meter F.is_bounded M.has_replayed }
        requires one { IsFoundBy self.now first (F.disk files.old) }
        requires two { IsFoundBy self.now (other_queue first) (F.disk files.old) }
        requires directories { directories_in self.now ≡ directories_of (settings_of self.now.config) }
        ensures pipes { IfOk result (λ p. ArePipes p (F.disk files.new)) }
        ensures opened { IfOk result (AreOpened self.now (F.disk files.old) (F.disk files.new)) }
        ensures replayed { IfOk result (λ p. M.has_replayed machine.old [] → (ones : List Placed) × (twos : List Placed) × M.has_replayed machine.new (ones ++ twos)
            × IsPipeWith (directories_in self.now) first (names_in self.now first) (F.disk files.old) (F.disk files.new) (pipe_of p first) ones
            × IsPipeWith (directories_in self.now) (other_queue first) (names_in self.now (other_queue first)) (F.disk files.old) (F.disk files.new) (pipe_of p (other_queue first)) twos) }
        ensures leaves { LeavesBoth self.now.config.recovery_mode self.now (F.disk files.old) (F.disk files.new) }
        ensures refused { (queue : LogQueue) → CantBeOpened self.now.config.recovery_mode self.now queue (F.disk files.old) → IsErr result }
        ensures corrupt { (f : CorruptionFault) → result ≡ Err (Corruption f) → (queue : LogQueue) × CantBeOpened self.now.config.recovery_mode self.now queue (F.disk files.old) }
        ensures holes { M.has_replayed machine.old [] → IfOk result (HaveFewHoles self.now (F.disk files.old) (F.disk files.new)) }
        ensures later { RefusesNoMore (F.is_bounded files.old) (F.is_bounded files.new) (F.meter files.old) (F.meter files.new) }
        ensures cause { IfErr result (λ e. IsEitherFault self.now (F.disk files.old) (F.disk files.new) (F.is_bounded files.old) (F.meter files.old) (F.meter files.new) e) }
    {
        let one = self.open_one(way, files, first, machine)?;
        let two = self.open_one(way, files, other_of(first), machine)?;
        Ok(paired(first, one, two))
    }

    // The queue that is opened first.
    fn first_queue(&self) -> LogQueue
        ensures { (result ≡ Rewrite) ⊎ (names_in self.now result ≡ []) }
    {
        if self.append_file_names.is_empty() {
            LogQueue::Append
        } else {
            LogQueue::Rewrite
        }
    }

    /// Hands the reserved files that `scan` found over to the append queue's pipe, with the capacity
    /// that the settings say: also where it is 0, so that they can be deleted.
    fn with_found<F: FileSystem>(&self, files: &F, pipes: &mut DualPipes) -> Result<(), Error>
        requires { ArePipes pipes.old (F.disk files.now) }
        ensures pipes { ArePipes pipes.new (F.disk files.now) }
        ensures append { pipes.new.append ≡ with_reserved pipes.old.append pipes.new.append.reserved pipes.new.append.capacity }
        ensures rewrite { pipes.new.rewrite ≡ pipes.old.rewrite }
        ensures reserved { OnOk result (KeepsFound self.now pipes.old.append.queue (directories_of_pipe pipes.old.append) (F.disk files.now) pipes.new.append) }
        ensures cause { IfErr result (λ e. e ≡ Memory) }
    {
        let found = reserved_of(self.alloc, &self.reserved_file_names)?;
        let capacity = self.config.recycle_capacity();
        pipes.keep_reserved(files, found, capacity)
    }

    /// Recovers the files of both queues that `scan` found in this way, and opens the pipes over them
    /// (own; raft-engine's `recover` and `finish`): a way does with a queue's files what
    /// `recover_queue` does. The rewrite queue comes first, so that one machine
    /// replays its batches, and then those of the append queue. But where the append queue has no
    /// files, so that nothing of it is replayed, its first file is made before those of the rewrite
    /// queue are opened. Errors are those of either queue, and `Memory`. Refused or not, an opening
    /// that follows finds no other batches of either queue than one before would have.
    pub fn recover_by<
        F: FileSystem,
        M: ReplayMachine + Drop,
        T: Factory<M>,
        W: Fn(&DualPipesBuilder, &mut F, &RecoveryConfig, &mut M) -> Result<Vec<File>, Error>,
    >(&self, way: &W, files: &mut F, factory: &T) -> Result<(DualPipes, M), Error>
        requires way { IsWay (W.pre way.now) (W.post way.now) F.disk F.meter F.is_bounded M.has_replayed }
        requires append { IsFoundBy self.now Append (F.disk files.old) }
        requires rewrite { IsFoundBy self.now Rewrite (F.disk files.old) }
        requires directories { directories_in self.now ≡ directories_of (settings_of self.now.config) }
        ensures pipes { IfOk result (λ r. ArePipes r.0 (F.disk files.new)) }
        ensures opened { IfOk result (λ r. AreOpened self.now (F.disk files.old) (F.disk files.new) r.0) }
        ensures replayed { IfOk result (λ r. (all : List Placed) × M.has_replayed r.1 all × ArePipesWith self.now (F.disk files.old) (F.disk files.new) r.0 all) }
        ensures reserved { IfOk result (λ r. KeepsFound self.now Append (directories_in self.now) (F.disk files.new) r.0.append) }
        ensures leaves { LeavesBoth self.now.config.recovery_mode self.now (F.disk files.old) (F.disk files.new) }
        ensures refused { (queue : LogQueue) → CantBeOpened self.now.config.recovery_mode self.now queue (F.disk files.old) → IsErr result }
        ensures corrupt { (f : CorruptionFault) → result ≡ Err (Corruption f) → (queue : LogQueue) × CantBeOpened self.now.config.recovery_mode self.now queue (F.disk files.old) }
        ensures holes { IfOk result (λ r. HaveFewHoles self.now (F.disk files.old) (F.disk files.new) r.0) }
        ensures later { RefusesNoMore (F.is_bounded files.old) (F.is_bounded files.new) (F.meter files.old) (F.meter files.new) }
        ensures cause { IfErr result (λ e. IsEitherFault self.now (F.disk files.old) (F.disk files.new) (F.is_bounded files.old) (F.meter files.old) (F.meter files.new) e) }
        ensures taken { NothingRefuses (F.is_bounded files.old) (F.meter files.old) → AreTaken self.now (F.disk files.old) (F.disk files.new) result }
    {
        let mut machine = factory.new_target();
        let first = self.first_queue();
        let mut pipes = self.open_both(way, files, first, &mut machine)?;
        self.with_found(files, &mut pipes)?;
        Ok((pipes, machine))
    }

    /// Recovers the files of both queues that `scan` found, with one worker, and opens the pipes
    /// over them (own): as `recover_by` does.
    pub fn recover_alone<F: FileSystem, M: ReplayMachine + Drop, T: Factory<M>>(
        &self,
        files: &mut F,
        factory: &T,
    ) -> Result<(DualPipes, M), Error>
        requires append { IsFoundBy self.now Append (F.disk files.old) }
        requires rewrite { IsFoundBy self.now Rewrite (F.disk files.old) }
        requires directories { directories_in self.now ≡ directories_of (settings_of self.now.config) }
        ensures pipes { IfOk result (λ r. ArePipes r.0 (F.disk files.new)) }
        ensures opened { IfOk result (λ r. AreOpened self.now (F.disk files.old) (F.disk files.new) r.0) }
        ensures replayed { IfOk result (λ r. (all : List Placed) × M.has_replayed r.1 all × ArePipesWith self.now (F.disk files.old) (F.disk files.new) r.0 all) }
        ensures reserved { IfOk result (λ r. KeepsFound self.now Append (directories_in self.now) (F.disk files.new) r.0.append) }
        ensures leaves { LeavesBoth self.now.config.recovery_mode self.now (F.disk files.old) (F.disk files.new) }
        ensures refused { (queue : LogQueue) → CantBeOpened self.now.config.recovery_mode self.now queue (F.disk files.old) → IsErr result }
        ensures corrupt { (f : CorruptionFault) → result ≡ Err (Corruption f) → (queue : LogQueue) × CantBeOpened self.now.config.recovery_mode self.now queue (F.disk files.old) }
        ensures holes { IfOk result (λ r. HaveFewHoles self.now (F.disk files.old) (F.disk files.new) r.0) }
        ensures later { RefusesNoMore (F.is_bounded files.old) (F.is_bounded files.new) (F.meter files.old) (F.meter files.new) }
        ensures cause { IfErr result (λ e. IsEitherFault self.now (F.disk files.old) (F.disk files.new) (F.is_bounded files.old) (F.meter files.old) (F.meter files.new) e) }
        ensures taken { NothingRefuses (F.is_bounded files.old) (F.meter files.old) → AreTaken self.now (F.disk files.old) (F.disk files.new) result }
    {
        self.recover_by(
            &|builder: &DualPipesBuilder, files: &mut F, config: &RecoveryConfig, machine: &mut M| -> Result<
                Vec<File>,
                Error,
            >
                requires { AreFound (F.disk files.now) (Log config.now.queue) (directories_in builder.now) (names_in builder.now config.now.queue) }
                ensures { Recovers (M.has_replayed machine.entry.now) (M.has_replayed machine.exit.now) builder.entry.now config.entry.now (F.disk files.entry.now) (F.disk files.exit.now)
                    (F.is_bounded files.entry.now) (F.is_bounded files.exit.now) (F.meter files.entry.now) (F.meter files.exit.now) result }
            { builder.recover_in_turn(files, config, machine) },
            files,
            factory,
        )
    }
}
