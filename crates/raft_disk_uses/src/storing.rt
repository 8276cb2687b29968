//! Files that are there whole or not at all.

ghost use Rattle.std.specs.Prelude.{◌≡◌, ◌⊎◌, ◌<◌, ℕ, List, Option, Some, None, Vec, OnOk, OnErr, IfOk, option_map, false};
ghost use Rattle.std.specs.declared.alloc.Global.{Global};
ghost use Rattle.raft_log_disk.specs.Text.{same_text};
ghost use Rattle.raft_log_disk.specs.Disk.{fd_of};
ghost use Rattle.raft_log_disk.specs.Image.{seen_image};
ghost use Rattle.raft_disk_uses.specs.Left.{Leaves, LeavesOneOf, found_at};

use raft_log_disk::{FileSystem, IoFault, Permission};
use std::alloc::Global;

/// Stores bytes under a path: they are written and synced under another name first, the draft's.
/// After `Ok` whatever a crash leaves has just these bytes under the path; after an `Err` it has
/// them or no file. The files that were there before stay as they were.
pub fn store<F: FileSystem>(
    files: &mut F,
    draft: &str,
    path: &str,
    bytes: &[u8],
) -> Result<(), IoFault>
    requires draft { fd_of (F.disk files.old).names draft.now ≡ None }
    requires path { fd_of (F.disk files.old).names path.now ≡ None }
    requires apart { same_text draft.now path.now ≡ false }
    ensures ok { OnOk result (Leaves (F.disk files.new) path.now (Some bytes.now)) }
    ensures err { OnErr result (LeavesOneOf (F.disk files.new) path.now None (Some bytes.now)) }
    ensures others { (n : ℕ) → n < (F.disk files.old).next → (F.disk files.new).file n ≡ (F.disk files.old).file n }
{
    let fd = files.create(draft)?;
    files.write_at(fd, 0, bytes)?;
    files.sync(fd)?;
    files.rename(draft, path)
}

/// What a read gives of the file of a path, if there is one.
pub fn load<F: FileSystem>(
    files: &mut F,
    alloc: Global,
    path: &str,
) -> Result<Option<Vec<u8>>, IoFault>
    ensures ok { IfOk result (λ found. option_map (λ v. v.items) found ≡ found_at (F.disk files.old) (seen_image (F.disk files.old)) path.now) }
    ensures kept { F.disk files.new ≡ F.disk files.old }
{
    let fd = match files.open(path, Permission::ReadOnly) {
        Ok(fd) => fd,
        Err(IoFault::NotFound) => return Ok(None),
        Err(fault) => return Err(fault),
    };
    let len = files.file_size(fd)?;
    let bytes = files.read_at(alloc, fd, 0, len)?;
    Ok(Some(bytes))
}
