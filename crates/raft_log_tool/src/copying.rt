//! A copy of a log on the disk.
ghost use Rattle.std.specs.Prelude.{◌∷◌, [], IfOk, map, string_bytes};
ghost use Rattle.raft_log_tools.specs.Forking.{IsForkOf, OnlyAdds};

use crate::failure::Failure;
use raft_log_files::{Config, Error, FileSystem, MemoryFileSystem, Permission};
use raft_log_tools::{CopyDetails, ForkError, fork};
use std::alloc::Global;
use std::io::{ErrorKind, Write};
use std::{fs, io};

/// The most bytes of a file that are written at once.
const PIECE_SIZE: u64 = 1_048_576;

/// Copies of the files that an opening finds in a directory, by the settings that an engine has
/// without others, but that it keeps none for reuse (own).
pub fn fork_directory<F: FileSystem>(
    files: &mut F,
    alloc: Global,
    directory: &str,
    target: &str,
) -> Result<CopyDetails, ForkError>
    ensures ok { IfOk result (λ details. IsForkOf (F.disk files.old) (F.disk files.new) (directory.now ∷ []) target.now (map string_bytes details.copied.items)) }
    ensures adds { OnlyAdds (F.disk files.old) (F.disk files.new) }
{
    let mut config = Config::default(alloc);
    config.dir = String::from_str(alloc, directory)?;
    config.enable_log_recycle = false;
    fork(files, alloc, &config, target)
}

// What holds the file or directory of a path.
fn parent_of(path: &str) -> &str {
    match path.rsplit_once('/') {
        Some(("", _)) => "/",
        Some((parent, _)) => parent,
        None => ".",
    }
}

// Whether a path, its links followed, lies in a directory or is it. The directory's has no links.
fn lies_within(rt: &HostRuntime, path: &str, directory: &str) -> io::Result<bool> {
    let path = fs::canonicalize(rt, path)?.into_string();
    Ok(match path.as_str().strip_prefix(directory) {
        Some(rest) => rest.is_empty() || rest.starts_with('/') || directory == "/",
        None => false,
    })
}

// Whether the target is to be made; an error where it is there and isn't empty.
fn is_absent(rt: &HostRuntime, target: &str) -> Result<bool, Failure> {
    match fs::read_dir(rt, target) {
        Ok(mut entries) => match entries.next() {
            None => Ok(false),
            Some(_) => Err(Failure::TargetNotEmpty),
        },
        Err(why) if why.kind() == ErrorKind::NotFound => Ok(true),
        Err(why) => Err(Failure::of_writing(why)),
    }
}

/// Refuses a target that has files, or that lies in the directory. Nothing is made yet.
pub fn check_target(rt: &HostRuntime, directory: &str, target: &str) -> Result<(), Failure> {
    let directory = fs::canonicalize(rt, directory).map_err(Failure::of_reading)?;
    let place = if is_absent(rt, target)? {
        parent_of(target)
    } else {
        target
    };
    if lies_within(rt, place, directory.into_string().as_str()).map_err(Failure::of_writing)? {
        return Err(Failure::TargetWithin);
    }
    Ok(())
}

// The target is there, and its name is on the disk.
fn make_target(rt: &HostRuntime, target: &str) -> io::Result<()> {
    match fs::create_dir(rt, target) {
        Ok(()) => fs::File::open(rt, parent_of(target))?.sync_all(),
        Err(why) if why.kind() == ErrorKind::AlreadyExists => Ok(()),
        Err(why) => Err(why),
    }
}

// A file that was copied in memory gets onto the disk, under the same path.
fn write_copy(rt: &HostRuntime, files: &mut MemoryFileSystem, path: &str) -> Result<(), Failure> {
    let fd = files.open(path, Permission::ReadOnly).map_err(Error::from)?;
    let size = files.file_size(fd).map_err(Error::from)?;
    let mut output = fs::File::create_new(rt, path).map_err(Failure::of_writing)?;
    let mut at = 0;
    'pieces: while at < size {
        let len = PIECE_SIZE.min(size - at);
        let bytes = files.read_at(rt.alloc(), fd, at, len).map_err(Error::from)?;
        output
            .write_all(bytes.as_slice())
            .map_err(Failure::of_writing)?;
        at += len;
    }
    output.sync_all().map_err(Failure::of_writing)
}

/// The copies get onto the disk, each under its path, and are synced with the target (own). Where
/// one can't be written, those before it stay.
pub fn write_copies(
    rt: &HostRuntime,
    files: &mut MemoryFileSystem,
    target: &str,
    copied: &[String],
) -> Result<(), Failure> {
    make_target(rt, target).map_err(Failure::of_writing)?;
    for path in copied {
        write_copy(rt, files, path.as_str())?;
    }
    let folder = fs::File::open(rt, target).map_err(Failure::of_writing)?;
    folder.sync_all().map_err(Failure::of_writing)
}
