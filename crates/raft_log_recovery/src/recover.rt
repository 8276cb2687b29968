//! One log file of a queue: read whole into a machine, and repaired.

ghost use Rattle.std.specs.Prelude.{◌≡◌, ◌++◌, false, List, Option, Some, Err, IfErr, IfOk, IsErr, OnOk, OnErr};
ghost use Rattle.raft_log_disk.specs.Cause.{NothingRefuses, RefusesNoMore};
ghost use Rattle.raft_log_disk.specs.Disk.{IsNoFile};
ghost use Rattle.raft_log_files.specs.declared.error.CorruptionFault.{CorruptionFault};
ghost use Rattle.raft_log_files.specs.declared.error.Error.TheVariants.{Corruption};
ghost use Rattle.raft_log_recovery.specs.Caused.{IsFileFault, IsRecoveryTaken};
ghost use Rattle.raft_log_recovery.specs.Repair.{IsRepaired, IsStopped, batches_in, cuts_faults, fault_in, format_in};
ghost use Rattle.raft_log_recovery.specs.Replay.{Placed, ArePlaced};

use crate::machine::ReplayMachine;
use crate::reading::replay_file;
use crate::repair::repair_file;
use raft_log_files::{Error, Fd, FileSystem, LogFileFormat, RecoveryConfig};
use raft_log_records::FileId;
use std::alloc::Global;

/// Replays the batches of a file into a machine (own), and leaves of the file these batches and
/// nothing else, all of them on the disk. The file is read by blocks of `read_block_size` bytes. A
/// fault behind them is cut away where the mode says so, else it is `Corruption` and nothing
/// changes. A file whose header is broken is cut to 0, and has version 1 from then on.
pub fn recover_file<F: FileSystem, M: ReplayMachine>(
    files: &mut F,
    alloc: Global,
    machine: &mut M,
    id: FileId,
    fd: Fd,
    config: &RecoveryConfig,
    is_last: bool,
) -> Result<LogFileFormat, Error>
    requires { IsNoFile (F.disk files.old) fd.0 → ⊥ }
    ensures ok { OnOk result (IsRepaired (F.disk files.old) (F.disk files.new) id fd.0) }
    ensures replayed { OnOk result ((placed : List Placed) → M.has_replayed machine.old placed
        → (more : List Placed) × M.has_replayed machine.new (placed ++ more)
        × ArePlaced id ((F.disk files.new).file fd.0).bytes (batches_in id ((F.disk files.old).file fd.0).bytes) more) }
    ensures format { IfOk result (λ format. format ≡ format_in ((F.disk files.old).file fd.0).bytes) }
    ensures err { OnErr result (IsStopped (F.disk files.old) (F.disk files.new) id fd.0) }
    ensures refused { (f : CorruptionFault) → fault_in id ((F.disk files.old).file fd.0).bytes ≡ Some f → cuts_faults config.now.mode is_last ≡ false
        → IsErr result × (F.disk files.new ≡ F.disk files.old) }
    ensures corrupt { (f : CorruptionFault) → result ≡ Err (Corruption f)
        → (fault_in id ((F.disk files.old).file fd.0).bytes ≡ Some f) × (cuts_faults config.now.mode is_last ≡ false) }
    ensures later { RefusesNoMore (F.is_bounded files.old) (F.is_bounded files.new) (F.meter files.old) (F.meter files.new) }
    ensures cause { IfErr result (λ e. IsFileFault (F.disk files.old) fd.0 (F.is_bounded files.old) (F.meter files.old) (F.meter files.new) e) }
    ensures taken { NothingRefuses (F.is_bounded files.old) (F.meter files.old) → IsRecoveryTaken ⊥ ⊥ result }
{
    let read = replay_file(files, alloc, machine, id, fd, config.read_block_size)?;
    repair_file(files, id, fd, read.end, config.mode, is_last)?;
    Ok(read.format)
}
