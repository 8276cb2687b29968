//! Changes of files in memory, each behind a function without clauses: a proof that carries the
//! clauses of several calls takes long.

use crate::looks::looked;
use raft_disk_uses::{append, store};
use raft_log_disk::{CrashFiles, Fd, FileSystem, IoFault, MemoryFileSystem, Permission};
use raft_rows::{Answer, bytes, number};
use std::alloc::Global;

/// The one path that `store` writes, and its draft.
const NOTES: &str = "raft/notes";

const DRAFT: &str = "raft/draft";

/// What a call told. One that found no memory left the files as they were, and is made once more.
fn answer_of(alloc: Global, told: Result<(), IoFault>) -> Answer {
    match told {
        Err(IoFault::Memory) => Answer::NoMemory,
        told => Answer::shown(alloc, &told),
    }
}

fn directory_made(files: &mut MemoryFileSystem, path: &str) -> Result<(), IoFault> {
    files.make_dir(path)
}

/// Opens a file, or makes it.
pub fn made(files: &mut MemoryFileSystem, path: &str) -> Result<Fd, IoFault> {
    match files.open(path, Permission::ReadWrite) {
        Err(IoFault::NotFound) => files.create(path),
        opened => opened,
    }
}

/// Writes from a place on, or behind the end if that comes first.
fn written(
    files: &mut MemoryFileSystem,
    alloc: Global,
    fd: u64,
    at: u64,
    word: &str,
) -> Result<(), IoFault> {
    let bytes = bytes(alloc, word)?;
    let end = files.file_size(Fd(fd))?;
    files.write_at(Fd(fd), at.min(end), &bytes)
}

fn truncated(files: &mut MemoryFileSystem, fd: u64, len: u64) -> Result<(), IoFault> {
    files.truncate(Fd(fd), len)
}

/// Makes room from a place on, or behind the end if that comes first.
fn allocated(files: &mut MemoryFileSystem, fd: u64, at: u64, len: u64) -> Result<(), IoFault> {
    let end = files.file_size(Fd(fd))?;
    files.allocate(Fd(fd), at.min(end), len)
}

fn synced(files: &mut MemoryFileSystem, fd: u64) -> Result<(), IoFault> {
    files.sync(Fd(fd))
}

fn appended(
    files: &mut MemoryFileSystem,
    alloc: Global,
    fd: u64,
    word: &str,
) -> Result<(), IoFault> {
    append(files, Fd(fd), &bytes(alloc, word)?)
}

/// The answer to a change of a file by its number.
pub fn changed(files: &mut MemoryFileSystem, alloc: Global, words: &[&str]) -> Option<Answer> {
    let told = match *words {
        ["write", fd, at, text] => written(files, alloc, number(fd), number(at), text),
        ["truncate", fd, len] => truncated(files, number(fd), number(len)),
        ["allocate", fd, at, len] => allocated(files, number(fd), number(at), number(len)),
        ["sync", fd] => synced(files, number(fd)),
        ["append", fd, text] => appended(files, alloc, number(fd), text),
        _ => return named(files, alloc, words),
    };
    Some(answer_of(alloc, told))
}

// ---- names

/// Gives a file a path that no file has: two changing calls.
fn renamed(files: &mut MemoryFileSystem, from: &str, to: &str) -> Result<(), IoFault> {
    match files.open(to, Permission::ReadOnly) {
        Err(IoFault::NotFound) => files.rename(from, to),
        Err(fault) => Err(fault),
        Ok(_) => Ok(()),
    }
}

fn deleted(files: &mut MemoryFileSystem, path: &str) -> Result<(), IoFault> {
    files.delete(path)
}

/// Stores the notes where there are none, by way of a draft: two calls ask for the paths, four
/// store.
fn stored(files: &mut MemoryFileSystem, alloc: Global, word: &str) -> Result<(), IoFault> {
    let bytes = bytes(alloc, word)?;
    if files.open(DRAFT, Permission::ReadOnly) != Err(IoFault::NotFound) {
        return Err(IoFault::Refused);
    }
    if files.open(NOTES, Permission::ReadOnly) != Err(IoFault::NotFound) {
        return Err(IoFault::Refused);
    }
    store(files, DRAFT, NOTES, &bytes)
}

/// The answer to a row that opens a file, or makes it.
fn found(files: &mut MemoryFileSystem, alloc: Global, path: &str) -> Answer {
    match made(files, path) {
        Err(IoFault::Memory) => Answer::NoMemory,
        told => Answer::shown(alloc, &told),
    }
}

/// The answer to a change of the names of files.
fn named(files: &mut MemoryFileSystem, alloc: Global, words: &[&str]) -> Option<Answer> {
    let told = match *words {
        ["make", path] => return Some(found(files, alloc, path)),
        ["directory", path] => directory_made(files, path),
        ["rename", from, to] => renamed(files, from, to),
        ["delete", path] => deleted(files, path),
        ["store", text] => stored(files, alloc, text),
        _ => return limited(files, alloc, words),
    };
    Some(answer_of(alloc, told))
}

// ---- what is to be refused

fn bounded(files: &mut MemoryFileSystem, directory: &str, bytes: u64) -> Result<(), IoFault> {
    files.set_space(directory, bytes)?;
    Ok(())
}

fn fused(files: &mut MemoryFileSystem, first_refused: Option<u64>) -> Result<(), IoFault> {
    files.fuse(first_refused);
    Ok(())
}

fn reads_refused(files: &mut MemoryFileSystem, alloc: Global, path: &str) -> Result<(), IoFault> {
    let mut paths = Vec::new(alloc);
    paths.push(String::from_str(alloc, path)?)?;
    files.refuse_reads(paths);
    Ok(())
}

/// The answer to what is to be refused from then on.
fn limited(files: &mut MemoryFileSystem, alloc: Global, words: &[&str]) -> Option<Answer> {
    let told = match *words {
        ["space", directory, bytes] => bounded(files, directory, number(bytes)),
        ["fuse", "none"] => fused(files, None),
        ["fuse", first_refused] => fused(files, Some(number(first_refused))),
        ["refuse-reads", path] => reads_refused(files, alloc, path),
        _ => return looked(files, alloc, words),
    };
    Some(answer_of(alloc, told))
}
