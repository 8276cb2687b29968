//! Crashes, and what they may leave.

use crate::writing::logged;
use raft_disk_uses::restart;
use raft_log_disk::{CrashChoice, CrashFiles, CrashRefusal, FileBytes, MemoryFileSystem};
use raft_rows::{Answer, bytes};
use std::alloc::{AllocError, Global};

/// The bytes of a file, as in `raft/notes="abc"`.
fn file_bytes(alloc: Global, word: &str) -> Result<FileBytes, AllocError> {
    let (path, text) = word.split_once('=').unwrap_or((word, ""));
    let path = String::from_str(alloc, path)?;
    let bytes = bytes(alloc, text)?;
    Ok(FileBytes { path, bytes })
}

/// What a crash is to leave: `least`, `most`, or the bytes of each file.
fn choice(alloc: Global, words: &[&str]) -> Result<CrashChoice, AllocError> {
    match *words {
        ["least"] => return Ok(CrashChoice::Least),
        ["most"] => return Ok(CrashChoice::Most),
        _ => {}
    }
    let mut all = Vec::new(alloc);
    for word in words {
        all.push(file_bytes(alloc, word)?)?;
    }
    Ok(CrashChoice::Bytes(all))
}

/// What a crash told. One that found no memory is asked for once more.
fn answer_of(alloc: Global, told: Result<(), CrashRefusal>) -> Answer {
    match told {
        Err(CrashRefusal::Memory) => Answer::NoMemory,
        told => Answer::shown(alloc, &told),
    }
}

fn crash(files: &mut MemoryFileSystem, alloc: Global, words: &[&str]) -> Result<(), CrashRefusal> {
    match choice(alloc, words) {
        Ok(choice) => files.crash(&choice),
        Err(_) => Err(CrashRefusal::Memory),
    }
}

fn may_crash(files: &MemoryFileSystem, alloc: Global, words: &[&str]) -> Result<(), CrashRefusal> {
    match choice(alloc, words) {
        Ok(choice) => files.may_crash(&choice),
        Err(_) => Err(CrashRefusal::Memory),
    }
}

/// Crashes, and answers what is found under a path.
fn restarted(files: &mut MemoryFileSystem, alloc: Global, path: &str, words: &[&str]) -> Answer {
    match choice(alloc, words) {
        Ok(choice) => Answer::found(alloc, restart(files, alloc, path, &choice)),
        Err(_) => Answer::NoMemory,
    }
}

/// The answer to a crash, or to a question about one.
pub fn crashed(files: &mut MemoryFileSystem, alloc: Global, words: &[&str]) -> Option<Answer> {
    Some(match words {
        ["crash", choice @ ..] => answer_of(alloc, crash(files, alloc, choice)),
        ["may-crash", choice @ ..] => answer_of(alloc, may_crash(files, alloc, choice)),
        ["restart", path, choice @ ..] => restarted(files, alloc, path, choice),
        _ => return logged(files, alloc, words),
    })
}
