//! The items of log files, checks of directories, and copies of files.

ghost use Rattle.raft_log_items.specs.Items.{IsReading};

use crate::bench::counted;
use raft_log_files::{Config, Error, FileSystem, MemoryFileSystem};
use raft_log_items::LogItemReader;
use raft_log_records::LogItem;
use raft_log_tools::{CopyDetails, ForkError, consistency_check, dump, fork};
use raft_rows::Answer;
use std::alloc::{AllocError, Global};

/// What each call of a reader told.
type Told = Vec<Result<LogItem, Error>>;

/// What each call of `next` answered, up to the end.
fn all<F: FileSystem>(
    files: &mut F,
    alloc: Global,
    reader: &mut LogItemReader,
) -> Result<Told, AllocError>
    requires { IsReading reader.old (F.disk files.old) }
{
    let mut told = Vec::new(alloc);
    for _ in 0..1000 {
        match reader.next(files, alloc) {
            Ok(Some(item)) => told.push(Ok(item))?,
            Ok(None) => break,
            Err(error) => told.push(Err(error))?,
        }
    }
    Ok(told)
}

/// The items of a file.
fn of_file(files: &mut MemoryFileSystem, alloc: Global, path: &str) -> Result<Told, Error> {
    let mut reader = LogItemReader::new_file_reader(files, alloc, path)?;
    Ok(all(files, alloc, &mut reader)?)
}

/// The items of a directory's log files.
fn of_directory(files: &mut MemoryFileSystem, alloc: Global, path: &str) -> Result<Told, Error> {
    let mut reader = LogItemReader::new_directory_reader(files, alloc, path)?;
    Ok(all(files, alloc, &mut reader)?)
}

/// The items of a path's log files.
fn dumped(files: &mut MemoryFileSystem, alloc: Global, path: &str) -> Result<Told, Error> {
    let mut reader = dump(files, alloc, path)?;
    Ok(all(files, alloc, &mut reader)?)
}

/// The answer to a row that reads items.
pub fn listed(files: &mut MemoryFileSystem, alloc: Global, words: &[&str]) -> Option<Answer> {
    let told = match *words {
        ["file", path] => of_file(files, alloc, path),
        ["files", path] => of_directory(files, alloc, path),
        ["dump", path] => dumped(files, alloc, path),
        _ => return counted(files, alloc, words),
    };
    Some(Answer::shown(alloc, &told))
}

// ---- checks and copies

fn check(
    files: &mut MemoryFileSystem,
    alloc: Global,
    path: &str,
) -> Result<Vec<(u64, u64)>, Error> {
    consistency_check(files, alloc, path)
}

fn copied(
    files: &mut MemoryFileSystem,
    alloc: Global,
    config: &Config,
    target: &str,
) -> Result<CopyDetails, ForkError> {
    fork(files, alloc, config, target)
}

/// The answer to a row about holes in files, or about copies of the files that the settings name.
pub fn checked(
    files: &mut MemoryFileSystem,
    config: &Config,
    alloc: Global,
    words: &[&str],
) -> Option<Answer> {
    Some(match *words {
        ["check", path] => Answer::shown(alloc, &check(files, alloc, path)),
        ["fork", target] => Answer::shown(alloc, &copied(files, alloc, config, target)),
        _ => return None,
    })
}
