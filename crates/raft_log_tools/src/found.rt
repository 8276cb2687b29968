//! The log files of a queue that an opening would find: looked for, and opened for reading. Nothing
//! is made, and nothing is deleted.

ghost use Rattle.std.specs.Prelude.{◌≡◌, ◌++◌, ◌+◌, ◌<◌, ◌≤◌, ◌^◌, List, length, map, None, IfOk, IfErr, OnOk, option_to_list, IsTrue, ◌↔◌, string_bytes};
ghost use Rattle.raft_log_disk.specs.Cause.{RefusesNoMore};
ghost use Rattle.raft_log_disk.specs.Disk.{fd_of};
ghost use Rattle.raft_log_files.specs.FileName.{IsFileSeq};
ghost use Rattle.raft_log_files.specs.declared.error.Error.TheVariants.{Memory};
ghost use Rattle.raft_log_recovery.specs.declared.scan.FileKind.TheVariants.{Log};
ghost use Rattle.raft_log_recovery.specs.Caused.{IsCallFault};
ghost use Rattle.raft_log_recovery.specs.Queue.{IsFileOf, path_of};
ghost use Rattle.raft_log_recovery.specs.Scan.{AreFound, AreInDirectories, IsLastRun, file_named, files_named};

use raft_log_files::{Error, Fd, FileNameExt, FileSystem, PathId, Permission};
use raft_log_records::{FileId, LogQueue};
use raft_log_recovery::FileName;
use std::alloc::{AllocError, Global};

/// The log file of a queue that has this name in the directory of a number.
fn file_of_name(queue: LogQueue, path_id: PathId, name: &str) -> Option<FileName>
    ensures { result ≡ file_named (Log queue) path_id name.now }
{
    match FileId::parse_file_name(name) {
        Some(id) => {
            if id.queue == queue {
                Some(FileName {
                    seq: id.seq,
                    path_id,
                })
            } else {
                None
            }
        }
        None => None,
    }
}

fn add_file(found: &mut Vec<FileName>, file: Option<FileName>) -> Result<(), AllocError>
    ensures { OnOk result (found.new.items ≡ found.old.items ++ option_to_list file) }
{
    match file {
        Some(file) => {
            found.push(file)?;
            Ok(())
        }
        None => Ok(()),
    }
}

/// Adds the log files of a queue among the names of a directory.
fn add_names(
    found: &mut Vec<FileName>,
    queue: LogQueue,
    path_id: PathId,
    names: &[String],
) -> Result<(), AllocError>
    ensures { OnOk result (found.new.items ≡ found.old.items ++ files_named (Log queue) path_id (map string_bytes names.now)) }
{
    for name in names {
        add_file(found, file_of_name(queue, path_id, name.as_str()))?;
    }
    Ok(())
}

/// Adds those of the directories, which have the numbers from `path_id` on.
fn add_directories<F: FileSystem>(
    found: &mut Vec<FileName>,
    files: &F,
    alloc: Global,
    queue: LogQueue,
    directories: &[String],
    path_id: PathId,
) -> Result<(), Error>
    requires { path_id + length directories.now < 2 ^ 64 }
    ensures ok { OnOk result ((more : List FileName) × (found.new.items ≡ found.old.items ++ more)
        × AreInDirectories (F.disk files.now) (Log queue) path_id (map string_bytes directories.now) more) }
    ensures err { IfErr result (λ e. e ≡ Memory) }
{
    match directories {
        [] => Ok(()),
        [directory, others @ ..] => {
            let names = files.list(alloc, directory.as_str())?;
            add_names(found, queue, path_id, &names)?;
            add_directories(found, files, alloc, queue, others, path_id + 1)
        }
    }
}

/// Whether a file's number is the one behind another's.
fn follows(before: FileName, file: FileName) -> bool
    ensures { IsTrue result ↔ (file.seq ≡ before.seq + 1) }
{
    before.seq < file.seq && file.seq - before.seq == 1
}

/// Where the last run of numbers begins that follow one another.
fn last_run(found: &[FileName]) -> usize
    ensures run { IsLastRun found.now result }
    ensures within { result ≤ length found.now }
{
    let mut start = 0;
    for i in 1..found.len() {
        if !follows(found[i - 1], found[i]) {
            start = i;
        }
    }
    start
}

/// The files of a queue that an opening finds in these directories: those of the last run of numbers.
pub(crate) fn found_files<F: FileSystem>(
    files: &F,
    alloc: Global,
    directories: &[String],
    queue: LogQueue,
) -> Result<Vec<FileName>, Error>
    ensures ok { IfOk result (λ v. AreFound (F.disk files.now) (Log queue) (map string_bytes directories.now) v.items) }
    ensures err { IfErr result (λ e. e ≡ Memory) }
{
    let mut found = Vec::new(alloc);
    add_directories(&mut found, files, alloc, queue, directories, 0)?;
    found.sort_by_key(|file| file.seq)?;
    let start = last_run(&found);
    let run = Vec::from_slice(alloc, &found[start..])?;
    Ok(run)
}

/// Opens a file that was found, for reading.
pub(crate) fn open_to_read<F: FileSystem>(
    files: &mut F,
    alloc: Global,
    directories: &[String],
    queue: LogQueue,
    name: FileName,
) -> Result<Fd, Error>
    requires seq { IsFileSeq name.seq }
    requires place { name.path_id < length directories.now }
    ensures ok { IfOk result (λ fd. IsFileOf (F.disk files.old) (map string_bytes directories.now) queue name fd.0) }
    ensures kept { F.disk files.new ≡ F.disk files.old }
    ensures later { RefusesNoMore (F.is_bounded files.old) (F.is_bounded files.new) (F.meter files.old) (F.meter files.new) }
    ensures cause { IfErr result (λ e. IsCallFault (fd_of (F.disk files.old).names (path_of (map string_bytes directories.now) queue name) ≡ None)
        (F.is_bounded files.old) (F.meter files.old) (F.meter files.new) e) }
{
    let id = FileId::new(queue, name.seq);
    let path = id.build_file_path(alloc, directories[name.path_id].as_str())?;
    let fd = files.open(path.as_str(), Permission::ReadOnly)?;
    Ok(fd)
}
