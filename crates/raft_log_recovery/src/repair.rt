//! One log file: cut where its whole records end, by the mode, and synced.

ghost use Rattle.std.specs.Prelude.{◌≡◌, false, Option, Some, None, Ok, Err, IfErr, OnOk, OnErr};
ghost use Rattle.raft_log_disk.specs.Cause.{RefusesNoMore};
ghost use Rattle.raft_log_disk.specs.Disk.{AreBytes, Disk, IsNoFile};
ghost use Rattle.raft_log_files.specs.declared.error.CorruptionFault.{CorruptionFault};
ghost use Rattle.raft_log_files.specs.declared.error.Error.TheVariants.{Corruption};
ghost use Rattle.raft_log_recovery.specs.Caused.{IsCallFault, IsRecoveryFault, IsRefusal};
ghost use Rattle.raft_log_recovery.specs.Repair.{IsRepaired, IsStopped, Settles, batches_in, cuts_faults, end_in, fault_in};

use raft_log_files::{CorruptionFault, Error, Fd, FileSystem, RecoveryMode};
use raft_log_records::FileId;

/// Whether the mode cuts a file that has a fault.
fn cuts(mode: RecoveryMode, is_last: bool) -> bool
    ensures { result ≡ cuts_faults mode is_last }
{
    match mode {
        RecoveryMode::AbsoluteConsistency => false,
        RecoveryMode::TolerateTailCorruption => is_last,
        RecoveryMode::TolerateAnyCorruption => true,
    }
}

/// Cuts a file to a length, if one is said, and syncs it.
fn settle<F: FileSystem>(files: &mut F, fd: Fd, cut: Option<u64>) -> Result<(), Error>
    ensures settles { Settles result (F.disk files.old) (F.disk files.new) fd.0 cut }
    ensures sound { (f : CorruptionFault) → result ≡ Err (Corruption f) → ⊥ }
    ensures later { RefusesNoMore (F.is_bounded files.old) (F.is_bounded files.new) (F.meter files.old) (F.meter files.new) }
    ensures cause { IfErr result (λ e. IsCallFault (IsNoFile (F.disk files.old) fd.0) (F.is_bounded files.old) (F.meter files.old) (F.meter files.new) e) }
{
    match cut {
        None => {
            files.sync(fd)?;
            Ok(())
        }
        Some(len) => {
            files.truncate(fd, len)?;
            files.sync(fd)?;
            Ok(())
        }
    }
}

/// How far the whole records of a file reach, and the fault behind them (own).
#[derive(Clone, Copy, PartialEq, Eq)]
pub struct FileEnd {
    /// The file's bytes before that place: 0 where its header is broken.
    pub to: u64,
    pub fault: Option<CorruptionFault>,
}

/// Leaves of a file the batches that it reads as, and nothing else, all of them on the disk (own):
/// `end` tells how it was read. A fault behind them is cut away where the mode says so: else it is
/// `Corruption`, and nothing changes.
pub fn repair_file<F: FileSystem>(
    files: &mut F,
    id: FileId,
    fd: Fd,
    end: FileEnd,
    mode: RecoveryMode,
    is_last: bool,
) -> Result<(), Error>
    requires to { end.to ≡ end_in id ((F.disk files.old).file fd.0).bytes }
    requires fault { end.fault ≡ fault_in id ((F.disk files.old).file fd.0).bytes }
    requires fits { AreBytes ((F.disk files.old).file fd.0).bytes }
    ensures ok { OnOk result (IsRepaired (F.disk files.old) (F.disk files.new) id fd.0) }
    ensures err { OnErr result (IsStopped (F.disk files.old) (F.disk files.new) id fd.0) }
    ensures refused { (f : CorruptionFault) → fault_in id ((F.disk files.old).file fd.0).bytes ≡ Some f → cuts_faults mode is_last ≡ false
        → (result ≡ Err (Corruption f)) × (F.disk files.new ≡ F.disk files.old) }
    ensures corrupt { (f : CorruptionFault) → result ≡ Err (Corruption f)
        → (fault_in id ((F.disk files.old).file fd.0).bytes ≡ Some f) × (cuts_faults mode is_last ≡ false) }
    ensures later { RefusesNoMore (F.is_bounded files.old) (F.is_bounded files.new) (F.meter files.old) (F.meter files.new) }
    ensures cause { IfErr result (λ e. IsRecoveryFault (IsRefusal (F.is_bounded files.old) ⊥ (F.meter files.old) (F.meter files.new)) (IsNoFile (F.disk files.old) fd.0) e) }
{
    match end.fault {
        None => settle(files, fd, None),
        Some(fault) => {
            if cuts(mode, is_last) {
                settle(files, fd, Some(end.to))
            } else {
                Err(Error::Corruption(fault))
            }
        }
    }
}
