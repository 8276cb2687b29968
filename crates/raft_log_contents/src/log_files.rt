//! The log files of a directory, by their names.
ghost use Rattle.std.specs.Prelude.{◌≡◌, ◌++◌, ◌∷◌, [], IfOk, IfErr, OnOk, map, string_bytes};
ghost use Rattle.raft_log_files.specs.declared.error.Error.TheVariants.{Memory};
ghost use Rattle.raft_log_items.specs.Found.{IsQueue, id_in, log_files, path_in};
ghost use Rattle.raft_log_contents.specs.Content.{found_of};

use raft_log_files::{Error, FileNameExt, FileSystem};
use raft_log_records::{FileId, LogQueue};
use std::alloc::{AllocError, Global};

/// A log file: its queue and number, and its path (own).
#[derive(Drop)]
pub struct LogFile {
    pub id: FileId,
    pub path: String,
}

// The log file of a queue that has this name.
fn id_named(queue: LogQueue, name: &str) -> Option<FileId>
    ensures { result ≡ id_in queue name.now }
{
    match FileId::parse_file_name(name) {
        Some(id) => { if id.queue == queue { Some(id) } else { None } }
        None => None,
    }
}

fn path_of(alloc: Global, directory: &str, name: &str) -> Result<String, AllocError>
    ensures { IfOk result (λ path. string_bytes path ≡ path_in directory.now name.now) }
{
    let mut path = String::from_str(alloc, directory)?;
    path.push_str("/")?;
    path.push_str(name)?;
    Ok(path)
}

// Adds the log file of a name in a directory, if its queue is this one.
fn push_file(
    found: &mut Vec<LogFile>,
    alloc: Global,
    directory: &str,
    queue: LogQueue,
    name: &str,
) -> Result<(), AllocError>
    ensures { OnOk result (map found_of found.new.items ≡ map found_of found.old.items ++ log_files queue directory.now (name.now ∷ [])) }
{
    match id_named(queue, name) {
        Some(id) => {
            let path = path_of(alloc, directory, name)?;
            found.push(LogFile { id, path })?;
            Ok(())
        }
        None => Ok(()),
    }
}

// The log files of a queue among these names of a directory.
fn files_named(
    alloc: Global,
    directory: &str,
    queue: LogQueue,
    names: &[String],
) -> Result<Vec<LogFile>, AllocError>
    ensures { IfOk result (λ v. map found_of v.items ≡ log_files queue directory.now (map string_bytes names.now)) }
{
    let mut found = Vec::new(alloc);
    for name in names {
        push_file(&mut found, alloc, directory, queue, name.as_str())?;
    }
    Ok(found)
}

/// The log files of a queue in a directory, by rising numbers (own). The only error is want of
/// memory.
pub fn files_of_queue<F: FileSystem>(
    files: &F,
    alloc: Global,
    directory: &str,
    queue: LogQueue,
) -> Result<Vec<LogFile>, Error>
    ensures ok { IfOk result (λ v. IsQueue (F.disk files.now) directory.now queue (map found_of v.items)) }
    ensures err { IfErr result (λ e. e ≡ Memory) }
{
    let names = files.list(alloc, directory)?;
    let mut found = files_named(alloc, directory, queue, &names)?;
    found.sort_by_key(|file| file.id.seq)?;
    Ok(found)
}
