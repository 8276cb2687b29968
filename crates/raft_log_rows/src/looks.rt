//! What files in memory show.

use crate::crashes::crashed;
use raft_disk_uses::load;
use raft_log_files::{Error, Fd, FileSystem, IoFault, MemoryFileSystem, Permission, open_listed};
use raft_rows::{Answer, number};
use std::alloc::Global;

fn size(files: &MemoryFileSystem, fd: u64) -> Result<u64, IoFault> {
    files.file_size(Fd(fd))
}

fn part(
    files: &MemoryFileSystem,
    alloc: Global,
    fd: u64,
    at: u64,
    len: u64,
) -> Result<Vec<u8>, IoFault> {
    files.read_at(alloc, Fd(fd), at, len)
}

/// All bytes of a file.
fn whole(files: &MemoryFileSystem, alloc: Global, fd: u64) -> Result<Vec<u8>, IoFault> {
    let end = size(files, fd)?;
    part(files, alloc, fd, 0, end)
}

/// The names in a directory, a space behind each.
fn names(files: &MemoryFileSystem, alloc: Global, directory: &str) -> Result<Vec<u8>, IoFault> {
    let mut names = Vec::new(alloc);
    for name in &files.list(alloc, directory)? {
        names.extend_from_slice(name.as_bytes())?;
        names.push(b' ')?;
    }
    Ok(names)
}

fn room(files: &MemoryFileSystem, directory: &str) -> u64 {
    files.available(directory)
}

fn loaded(
    files: &mut MemoryFileSystem,
    alloc: Global,
    path: &str,
) -> Result<Option<Vec<u8>>, IoFault> {
    load(files, alloc, path)
}

/// Opens a file that is known to be there. None where it isn't.
fn opened(files: &mut MemoryFileSystem, path: &str) -> Option<Result<Fd, Error>> {
    if files.is_file(path) {
        Some(open_listed(files, path, Permission::ReadOnly))
    } else {
        None
    }
}

/// Bytes that were read. A read that found no memory is made once more.
fn answer_of(alloc: Global, told: Result<Vec<u8>, IoFault>) -> Answer {
    match told {
        Err(IoFault::Memory) => Answer::NoMemory,
        told => Answer::bytes(alloc, told),
    }
}

/// The answer to a question about files.
pub fn looked(files: &mut MemoryFileSystem, alloc: Global, words: &[&str]) -> Option<Answer> {
    let told = match *words {
        ["size", fd] => return Some(Answer::shown(alloc, &size(files, number(fd)))),
        ["open-listed", path] => return Some(Answer::shown(alloc, &opened(files, path))),
        ["room", directory] => return Some(Answer::shown(alloc, &room(files, directory))),
        ["load", path] => return Some(Answer::found(alloc, loaded(files, alloc, path))),
        ["read", fd] => whole(files, alloc, number(fd)),
        ["read", fd, at, len] => part(files, alloc, number(fd), number(at), number(len)),
        ["list", directory] => names(files, alloc, directory),
        _ => return crashed(files, alloc, words),
    };
    Some(answer_of(alloc, told))
}
