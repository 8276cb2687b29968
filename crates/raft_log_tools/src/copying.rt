//! A log file, copied into another directory.

ghost use Rattle.std.specs.Prelude.{◌≡◌, ◌≢◌, ◌<◌, [], length, map, string_bytes, IfOk, OnOk};
ghost use Rattle.raft_log_disk.specs.Image.{IsStill};
ghost use Rattle.raft_log_files.specs.FileName.{IsFileSeq};
ghost use Rattle.raft_log_recovery.specs.Queue.{IsFileOf};
ghost use Rattle.raft_log_tools.specs.Forking.{IsCopied, OnlyAdds, WritesOnly, copy_path};

use crate::error::ForkError;
use crate::found::open_to_read;
use raft_log_files::{Error, Fd, FileNameExt, FileSystem};
use raft_log_records::{FileId, LogQueue};
use raft_log_recovery::FileName;
use std::alloc::Global;

/// The most bytes of a file that are held at once.
const PIECE_SIZE: u64 = 1_048_576;

/// Writes the bytes of a file into one that has none, and syncs that.
fn copy_bytes<F: FileSystem>(files: &mut F, alloc: Global, from: Fd, to: Fd) -> Result<(), Error>
    requires apart { from.0 ≢ to.0 }
    requires empty { ((F.disk files.old).file to.0).bytes ≡ [] }
    ensures ok { OnOk result (((F.disk files.new).file to.0).bytes ≡ ((F.disk files.old).file from.0).bytes) }
    ensures synced { OnOk result (IsStill ((F.disk files.new).file to.0)) }
    ensures only { WritesOnly (F.disk files.old) (F.disk files.new) to.0 }
{
    let size = files.file_size(from)?;
    let mut at = 0;
    'pieces: while at < size {
        let len = PIECE_SIZE.min(size - at);
        let bytes = files.read_at(alloc, from, at, len)?;
        files.write_at(to, at, &bytes)?;
        at += len;
    }
    files.sync(to)?;
    Ok(())
}

/// Copies a log file that was found into a directory under its name, and answers the path of the
/// copy. A path that a file has already is refused.
pub(crate) fn copy_file<F: FileSystem>(
    files: &mut F,
    alloc: Global,
    directories: &[String],
    queue: LogQueue,
    name: FileName,
    target: &str,
) -> Result<String, ForkError>
    requires seq { IsFileSeq name.seq }
    requires place { name.path_id < length directories.now }
    ensures ok { IfOk result (λ path. string_bytes path ≡ copy_path target.now queue name) }
    ensures copied { OnOk result (IsCopied (F.disk files.old) (F.disk files.new) (map string_bytes directories.now) queue name target.now) }
    ensures adds { OnlyAdds (F.disk files.old) (F.disk files.new) }
{
    let from = open_to_read(files, alloc, directories, queue, name)?;
    let id = FileId::new(queue, name.seq);
    let path = id.build_file_path(alloc, target)?;
    if files.is_file(path.as_str()) {
        return Err(ForkError::TargetHasFiles);
    }
    let to = files.create(path.as_str())?;
    copy_bytes(files, alloc, from, to)?;
    Ok(path)
}
