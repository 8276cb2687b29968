//! The log files of a path.

ghost use Rattle.std.specs.Prelude.{◌≡◌, ◌++◌, ◌∷◌, [], Some, None, IfOk, IfErr, OnOk, IfSome, IsNone, map, string_bytes};
ghost use Rattle.raft_log_files.specs.declared.error.Error.TheVariants.{Memory};
ghost use Rattle.raft_log_items.specs.Found.{AreLogFiles, IsLastPart, IsLogPath, IsNoLogPath, IsQueue, found_of, id_in, log_files, path_in};

use raft_log_files::{Error, FileNameExt, FileSystem};
use raft_log_records::{FileId, LogQueue};
use std::alloc::{AllocError, Global};

/// A log file that isn't read yet.
#[derive(Drop)]
pub(crate) struct LogFile {
    pub id: FileId,
    pub path: String,
}

/// The log file of a queue that has this name.
fn id_named(queue: LogQueue, name: &str) -> Option<FileId>
    ensures { result ≡ id_in queue name.now }
{
    match FileId::parse_file_name(name) {
        Some(id) => { if id.queue == queue { Some(id) } else { None } }
        None => None,
    }
}

/// What stands behind the last slash of a path.
fn name_of(path: &str) -> &str
    ensures { IsLastPart path.now result.now }
{
    match path.rsplit_once('/') {
        Some((_, name)) => name,
        None => path,
    }
}

/// The log file that a path names.
pub(crate) fn id_of_path(path: &str) -> Option<FileId>
    ensures found { IfSome result (λ id. IsLogPath path.now id) }
    ensures none { IsNone result → IsNoLogPath path.now }
{
    FileId::parse_file_name(name_of(path))
}

fn path_of(alloc: Global, directory: &str, name: &str) -> Result<String, AllocError>
    ensures { IfOk result (λ path. string_bytes path ≡ path_in directory.now name.now) }
{
    let mut path = String::from_str(alloc, directory)?;
    path.push_str("/")?;
    path.push_str(name)?;
    Ok(path)
}

/// Adds the log file of a name in a directory, if its queue is this one.
fn push_file(
    found: &mut Vec<LogFile>,
    alloc: Global,
    directory: &str,
    queue: LogQueue,
    name: &str,
) -> Result<(), AllocError>
    ensures { OnOk result (map found_of found.new.items ≡ map found_of found.old.items ++ log_files queue directory.now (name.now ∷ [])) }
{
    match id_named(queue, name) {
        Some(id) => {
            let path = path_of(alloc, directory, name)?;
            found.push(LogFile { id, path })?;
            Ok(())
        }
        None => Ok(()),
    }
}

/// The log files of a queue among these names of a directory.
fn files_named(
    alloc: Global,
    directory: &str,
    queue: LogQueue,
    names: &[String],
) -> Result<Vec<LogFile>, AllocError>
    ensures { IfOk result (λ v. map found_of v.items ≡ log_files queue directory.now (map string_bytes names.now)) }
{
    let mut found = Vec::new(alloc);
    for name in names {
        push_file(&mut found, alloc, directory, queue, name.as_str())?;
    }
    Ok(found)
}

/// The log files of a queue in a directory, by rising numbers.
fn files_of_queue<F: FileSystem>(
    files: &F,
    alloc: Global,
    directory: &str,
    queue: LogQueue,
) -> Result<Vec<LogFile>, Error>
    ensures ok { IfOk result (λ v. IsQueue (F.disk files.now) directory.now queue (map found_of v.items)) }
    ensures err { IfErr result (λ e. e ≡ Memory) }
{
    let names = files.list(alloc, directory)?;
    let mut found = files_named(alloc, directory, queue, &names)?;
    found.sort_by_key(|file| file.id.seq)?;
    Ok(found)
}

/// The log files of a directory, in the order of their `FileId`s.
pub(crate) fn files_in<F: FileSystem>(
    files: &F,
    alloc: Global,
    directory: &str,
) -> Result<Vec<LogFile>, Error>
    ensures ok { IfOk result (λ v. AreLogFiles (F.disk files.now) directory.now (map found_of v.items)) }
    ensures err { IfErr result (λ e. e ≡ Memory) }
{
    let mut found = files_of_queue(files, alloc, directory, LogQueue::Rewrite)?;
    let mut behind = files_of_queue(files, alloc, directory, LogQueue::Append)?;
    found.append(&mut behind)?;
    Ok(found)
}
