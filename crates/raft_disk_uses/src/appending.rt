//! Appends that are on the disk when they are told.

ghost use Rattle.std.specs.Prelude.{◌≡◌, ◌++◌, OnOk, OnErr};
ghost use Rattle.raft_log_disk.specs.Disk.{IsNoFile};
ghost use Rattle.raft_log_disk.specs.Image.{IsStill};
ghost use Rattle.raft_disk_uses.specs.Left.{LeavesBytes, LeavesFront};

use raft_log_disk::{Fd, FileSystem, IoFault};

/// Writes bytes behind a file's end and syncs it. After `Ok` whatever a crash leaves of the file is
/// its bytes and these; after an `Err` a file that was synced still begins with its bytes.
pub fn append<F: FileSystem>(files: &mut F, fd: Fd, bytes: &[u8]) -> Result<(), IoFault>
    ensures ok { OnOk result (LeavesBytes (F.disk files.new) fd.0 (((F.disk files.old).file fd.0).bytes ++ bytes.now)) }
    ensures still { OnOk result (IsStill ((F.disk files.new).file fd.0)) }
    ensures err { OnErr result (IsStill ((F.disk files.old).file fd.0) → (IsNoFile (F.disk files.old) fd.0 → ⊥) →
        LeavesFront (F.disk files.new) fd.0 ((F.disk files.old).file fd.0).bytes) }
{
    let end = files.file_size(fd)?;
    files.write_at(fd, end, bytes)?;
    files.sync(fd)
}
