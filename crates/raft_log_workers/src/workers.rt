//! Recovery of queues by several workers.

ghost use Rattle.std.specs.Prelude.{◌≡◌, List, Err, IfErr, IfOk, IsErr};
ghost use Rattle.raft_log_disk.specs.Cause.{NothingRefuses, RefusesNoMore};
ghost use Rattle.raft_log_files.specs.Settings.{settings_of};
ghost use Rattle.raft_log_files.specs.declared.error.CorruptionFault.{CorruptionFault};
ghost use Rattle.raft_log_files.specs.declared.error.Error.TheVariants.{Corruption};
ghost use Rattle.raft_log_pipes.specs.Pipes.{ArePipes};
ghost use Rattle.raft_log_records.specs.declared.file_id.LogQueue.{LogQueue};
ghost use Rattle.raft_log_records.specs.declared.file_id.LogQueue.TheVariants.{Append, Rewrite};
ghost use Rattle.raft_log_recovery.specs.declared.scan.FileKind.TheVariants.{Log};
ghost use Rattle.raft_log_recovery.specs.Both.{AreOpened, ArePipesWith, AreTaken, CantBeOpened, HaveFewHoles, IsEitherFault, IsFoundBy, LeavesBoth};
ghost use Rattle.raft_log_recovery.specs.Queue.{directories_in, names_in};
ghost use Rattle.raft_log_recovery.specs.Replay.{Placed};
ghost use Rattle.raft_log_recovery.specs.Scan.{AreFound, directories_of};
ghost use Rattle.raft_log_recovery.specs.Ways.{Recovers};

use crate::recovery::recover_each;
use raft_log_files::{Error, FileSystem, RecoveryConfig};
use raft_log_pipe::File;
use raft_log_pipes::DualPipes;
use raft_log_recovery::{DualPipesBuilder, Factory, MergeMachine, NewMachine};
use std::thread::Threads;

/// Recovers the files of a queue that `scan` found, by `config.concurrency` workers (raft-engine's
/// `recover_queue`); 0 counts as 1. Each worker reads some files that follow one another, on a thread
/// of its own where one can be made. Then one thread merges what they have replayed and repairs the
/// files, in the order of the files' numbers. So all is as `DualPipesBuilder::recover_queue` leaves it,
/// but that all files are opened and read before the first is repaired.
pub fn recover_queue<F: FileSystem, M: MergeMachine + NewMachine + Send + Drop, R: Threads + Sync>(
    rt: &R,
    builder: &DualPipesBuilder,
    files: &mut F,
    config: &RecoveryConfig,
    machine: &mut M,
) -> Result<Vec<File>, Error>
    requires { AreFound (F.disk files.old) (Log config.now.queue) (directories_in builder.now) (names_in builder.now config.now.queue) }
    ensures { Recovers (M.has_replayed machine.old) (M.has_replayed machine.new) builder.now config.now (F.disk files.old) (F.disk files.new)
        (F.is_bounded files.old) (F.is_bounded files.new) (F.meter files.old) (F.meter files.new) result }
{
    let names = builder.names_of(config.queue);
    recover_each(
        rt,
        files,
        builder.alloc(),
        machine,
        config,
        builder.directories(),
        names,
    )
}

/// Recovers the files of both queues that `scan` found, each by as many workers as `recovery_threads`
/// of the settings says, and opens the pipes over them (raft-engine's `recover` and `finish`). All is
/// as `DualPipesBuilder::recover_alone` leaves it.
pub fn recover<
    F: FileSystem,
    M: MergeMachine + NewMachine + Send + Drop,
    R: Threads + Sync,
    T: Factory<M>,
>(rt: &R, builder: &DualPipesBuilder, files: &mut F, factory: &T) -> Result<(DualPipes, M), Error>
    requires append { IsFoundBy builder.now Append (F.disk files.old) }
    requires rewrite { IsFoundBy builder.now Rewrite (F.disk files.old) }
    requires directories { directories_in builder.now ≡ directories_of (settings_of builder.now.config) }
    ensures pipes { IfOk result (λ r. ArePipes r.0 (F.disk files.new)) }
    ensures opened { IfOk result (λ r. AreOpened builder.now (F.disk files.old) (F.disk files.new) r.0) }
    ensures replayed { IfOk result (λ r. (all : List Placed) × M.has_replayed r.1 all × ArePipesWith builder.now (F.disk files.old) (F.disk files.new) r.0 all) }
    ensures leaves { LeavesBoth builder.now.config.recovery_mode builder.now (F.disk files.old) (F.disk files.new) }
    ensures refused { (queue : LogQueue) → CantBeOpened builder.now.config.recovery_mode builder.now queue (F.disk files.old) → IsErr result }
    ensures corrupt { (f : CorruptionFault) → result ≡ Err (Corruption f) → (queue : LogQueue) × CantBeOpened builder.now.config.recovery_mode builder.now queue (F.disk files.old) }
    ensures holes { IfOk result (λ r. HaveFewHoles builder.now (F.disk files.old) (F.disk files.new) r.0) }
    ensures later { RefusesNoMore (F.is_bounded files.old) (F.is_bounded files.new) (F.meter files.old) (F.meter files.new) }
    ensures cause { IfErr result (λ e. IsEitherFault builder.now (F.disk files.old) (F.disk files.new) (F.is_bounded files.old) (F.meter files.old) (F.meter files.new) e) }
    ensures taken { NothingRefuses (F.is_bounded files.old) (F.meter files.old) → AreTaken builder.now (F.disk files.old) (F.disk files.new) result }
{
    builder.recover_by(
        &|builder: &DualPipesBuilder, files: &mut F, config: &RecoveryConfig, machine: &mut M| -> Result<
            Vec<File>,
            Error,
        >
            requires { AreFound (F.disk files.now) (Log config.now.queue) (directories_in builder.now) (names_in builder.now config.now.queue) }
            ensures { Recovers (M.has_replayed machine.entry.now) (M.has_replayed machine.exit.now) builder.entry.now config.entry.now (F.disk files.entry.now) (F.disk files.exit.now)
                (F.is_bounded files.entry.now) (F.is_bounded files.exit.now) (F.meter files.entry.now) (F.meter files.exit.now) result }
        { recover_queue(rt, builder, files, config, machine) },
        files,
        factory,
    )
}
