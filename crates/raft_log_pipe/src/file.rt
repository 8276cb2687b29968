//! Files of a pipe, and where a new one goes.

ghost use Rattle.std.specs.Prelude.{◌≡◌, ◌<◌, ◌+◌, ◌-◌, ◌^◌, length, map, string_bytes, IfOk, IfSome, IsErrOf};
ghost use Rattle.raft_log_disk.specs.declared.fault.IoFault.TheVariants.{NoSpace};
ghost use Rattle.raft_log_disk.specs.Cause.{IsTaken, NothingRefuses, RefusesNoMore, Rises};
ghost use Rattle.raft_log_disk.specs.Disk.{HasDirectory, IsNoNewFile};
ghost use Rattle.raft_log_files.specs.FileName.{IsFileSeq};
ghost use Rattle.raft_log_pipe.specs.Alone.{IsMadeIn};
ghost use Rattle.raft_log_pipe.specs.Caused.{LacksDirectory};
ghost use Rattle.raft_log_pipe.specs.Pipe.{IsLast};
ghost use Rattle.raft_log_pipe.specs.Placing.{first_with_room, path_chosen, IsCreated};
ghost use Rattle.raft_log_pipe.specs.Taken.{main_path};

use raft_log_files::{
    DEFAULT_PATH_ID, Fd, FileNameExt, FileSystem, IoFault, LogFileFormat, PathId,
};
use raft_log_records::{FileId, FileSeq};
use std::alloc::Global;

/// The directories of a pipe: the main one, then those that files spill to.
pub type Paths = Vec<String>;

/// A file of a pipe (raft-engine's `File`).
#[derive(Clone, Copy, PartialEq, Eq)]
pub struct File {
    pub seq: FileSeq,
    pub handle: Fd,
    pub format: LogFileFormat,
    /// In which of the pipe's directories it lies.
    pub path_id: PathId,
    /// Whether it has a reserved name.
    pub reserved: bool,
}

/// A file that is kept for reuse, under a reserved name.
#[derive(Clone, Copy, PartialEq, Eq)]
pub struct ReservedFile {
    /// The number in its name.
    pub seq: FileSeq,
    /// In which of the pipe's directories it lies.
    pub path_id: PathId,
}

/// The first directory whose free bytes reach the target size, counted from a place on.
fn with_room<F: FileSystem>(
    files: &F,
    paths: &[String],
    target_size: u64,
    at: PathId,
) -> Option<PathId>
    requires { at + length paths.now < 2 ^ 64 }
    ensures found { result ≡ first_with_room (F.room files.now) target_size at paths.now }
    ensures within { IfSome result (λ i. i < at + length paths.now) }
{
    match paths {
        [] => None,
        [first, rest @ ..] => {
            if files.available(first.as_str()) >= target_size {
                Some(at)
            } else {
                with_room(files, rest, target_size, at + 1)
            }
        }
    }
}

/// The first directory whose free bytes reach the target size, else the main one (raft-engine's
/// `find_available_dir`).
pub(crate) fn find_available_dir<F: FileSystem>(
    files: &F,
    paths: &[String],
    target_size: u64,
) -> PathId
    ensures chosen { result ≡ path_chosen (F.room files.now) target_size paths.now }
    ensures within { 0 < length paths.now → result < length paths.now }
{
    match with_room(files, paths, target_size, 0) {
        Some(path_id) => path_id,
        None => DEFAULT_PATH_ID,
    }
}

/// Makes the file of this name, in the first directory with room. No file may have a number as
/// great.
pub(crate) fn new_file<F: FileSystem>(
    files: &mut F,
    alloc: Global,
    paths: &[String],
    id: FileId,
    format: LogFileFormat,
    target_size: u64,
) -> Result<File, IoFault>
    requires paths { 0 < length paths.now }
    requires number { (0 < id.seq) × IsFileSeq id.seq }
    requires last { IsLast (F.disk files.old) paths.now id.queue (id.seq - 1) }
    ensures created { IsCreated (F.disk files.old) (F.disk files.new) id result }
    ensures made { IsMadeIn (F.disk files.old) (F.disk files.new) (map string_bytes paths.now) id result }
    ensures file { IfOk result (λ f. (f.seq ≡ id.seq) × (f.format ≡ format) × (f.path_id ≡ path_chosen (F.room files.old) target_size paths.now)) }
    ensures within { IfOk result (λ f. f.path_id < length paths.now) }
    ensures later { RefusesNoMore (F.is_bounded files.old) (F.is_bounded files.new) (F.meter files.old) (F.meter files.new) }
    ensures taken { NothingRefuses (F.is_bounded files.old) (F.meter files.old) → IsTaken (HasDirectory (F.disk files.old).directories (main_path paths.now id) → ⊥)
        (IsNoNewFile (F.disk files.old) (main_path paths.now id)) result }
    ensures cause { IsTaken (LacksDirectory (F.disk files.old) (map string_bytes paths.now) id) (Rises 1 (F.meter files.old) (F.meter files.new)) result }
    ensures space { IsErrOf result NoSpace → ⊥ }
{
    let path_id = find_available_dir(files, paths, target_size);
    let path = id.build_file_path(alloc, paths[path_id].as_str())?;
    let handle = match files.create(path.as_str()) {
        Ok(handle) => handle,
        Err(fault) => return Err(fault),
    };
    Ok(File {
        seq: id.seq,
        handle,
        format,
        path_id,
        reserved: false,
    })
}
