//! A file that a worker has read: its machine is merged, and the file is repaired.

ghost use Rattle.std.specs.Prelude.{◌≡◌, ◌++◌, false, List, Some, Err, IfErr, IfOk, IsErr, IsSome, OnOk, OnErr};
ghost use Rattle.raft_log_disk.specs.Cause.{RefusesNoMore};
ghost use Rattle.raft_log_disk.specs.Disk.{IsNoFile};
ghost use Rattle.raft_log_files.specs.declared.error.CorruptionFault.{CorruptionFault};
ghost use Rattle.raft_log_files.specs.declared.error.Error.TheVariants.{Corruption};
ghost use Rattle.raft_log_recovery.specs.Caused.{IsFileFault};
ghost use Rattle.raft_log_recovery.specs.Repair.{IsRepaired, IsStopped, batches_in, cuts_faults, fault_in, format_in};
ghost use Rattle.raft_log_recovery.specs.Replay.{Placed, ArePlaced};
ghost use Rattle.raft_log_workers.specs.Reading.{IsReadBy};

use crate::share::Share;
use raft_log_files::{Error, FileSystem, LogFileFormat, RecoveryConfig};
use raft_log_records::FileId;
use raft_log_recovery::{MergeMachine, repair_file};

/// Adds what a worker has replayed of a file behind what a machine has replayed, and leaves of the
/// file what `recover_file` leaves: errors are the same, too.
pub(crate) fn settle<F: FileSystem, M: MergeMachine + Drop>(
    files: &mut F,
    machine: &mut M,
    id: FileId,
    share: Share<M>,
    config: &RecoveryConfig,
    is_last: bool,
) -> Result<LogFileFormat, Error>
    requires there { IsNoFile (F.disk files.old) share.fd.0 → ⊥ }
    requires read { IsReadBy (M.has_replayed share.machine) (F.disk files.old) (F.meter files.old) id share.fd.0 share.read }
    ensures ok { OnOk result (IsRepaired (F.disk files.old) (F.disk files.new) id share.fd.0) }
    ensures replayed { OnOk result ((placed : List Placed) → M.has_replayed machine.old placed
        → (more : List Placed) × M.has_replayed machine.new (placed ++ more)
        × ArePlaced id ((F.disk files.new).file share.fd.0).bytes (batches_in id ((F.disk files.old).file share.fd.0).bytes) more) }
    ensures format { IfOk result (λ format. format ≡ format_in ((F.disk files.old).file share.fd.0).bytes) }
    ensures err { OnErr result (IsStopped (F.disk files.old) (F.disk files.new) id share.fd.0) }
    ensures refused { (f : CorruptionFault) → fault_in id ((F.disk files.old).file share.fd.0).bytes ≡ Some f → cuts_faults config.now.mode is_last ≡ false
        → IsErr result × (F.disk files.new ≡ F.disk files.old) }
    ensures corrupt { (f : CorruptionFault) → result ≡ Err (Corruption f)
        → (fault_in id ((F.disk files.old).file share.fd.0).bytes ≡ Some f) × (cuts_faults config.now.mode is_last ≡ false) }
    ensures later { RefusesNoMore (F.is_bounded files.old) (F.is_bounded files.new) (F.meter files.old) (F.meter files.new) }
    ensures cause { IfErr result (λ e. IsFileFault (F.disk files.old) share.fd.0 (F.is_bounded files.old) (F.meter files.old) (F.meter files.new) e) }
{
    let Share {
        name: _,
        fd,
        machine: part,
        read,
    } = share;
    let read = read.unwrap()?;
    machine.merge(part)?;
    repair_file(files, id, fd, read.end, config.mode, is_last)?;
    Ok(read.format)
}
