//! Files that are known to be there, and why a call on them is refused.

ghost use Rattle.std.specs.Prelude.{◌≡◌, ◌⊎◌, ◌+◌, ◌-◌, ◌^◌, min, ℕ, Some, Err, IfOk, IfErr};
ghost use Rattle.raft_log_disk.specs.declared.fault.IoFault.{IoFault};
ghost use Rattle.raft_log_disk.specs.Disk.{IsFile, fd_of};
ghost use Rattle.raft_log_disk.specs.Cause.{counted};
ghost use Rattle.raft_log_files.specs.Error.{io_error};
ghost use Rattle.raft_log_files.specs.declared.error.Error.TheVariants.{Io, Memory};
ghost use Rattle.raft_log_files.specs.declared.error.DiskRefusal.{DiskRefusal};
ghost use Rattle.raft_log_files.specs.declared.error.DiskRefusal.TheVariants.{Refused};

use crate::Error;
use raft_log_disk::{Fd, FileSystem, Permission};

/// Opens a file that is there, as each that was listed is until a call deletes or renames it (own).
/// So it is never missing: the call is `Ok`, `Memory`, or `Io` with one more refusal counted.
pub fn open_listed<F: FileSystem>(
    files: &mut F,
    path: &str,
    permission: Permission,
) -> Result<Fd, Error>
    requires { IsFile (F.disk files.old) path.now }
    ensures ok { IfOk result (λ fd. fd_of (F.disk files.old).names path.now ≡ Some fd.0) }
    ensures kept { F.disk files.new ≡ F.disk files.old }
    ensures err { IfErr result (λ e. (e ≡ Memory) ⊎ ((e ≡ Io Refused) × ((F.meter files.new).refusals ≡ min ((F.meter files.old).refusals + 1) (2 ^ 64 - 1)))) }
{
    match files.open(path, permission) {
        Ok(fd) => Ok(fd),
        Err(fault) => Err(Error::from(fault)),
    }
}

/// A fault that is told as `Io` is one by which the file system's count of refusals rises.
pub fn io_is_counted()
    ensures { (fault : IoFault) (refusal : DiskRefusal) (refusals : ℕ) → io_error fault ≡ Io refusal →
        counted {T = Unit {0}} (Err fault) refusals ≡ min (refusals + 1) (2 ^ 64 - 1) }
{}
