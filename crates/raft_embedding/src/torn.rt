//! What a machine that stops may leave of a node's files: the bytes that they had, and a part of those
//! that were written since then.

use crate::node::Home;
use raft_log_engine::LogFiles;
use raft_log_files::{
    CrashChoice, CrashFiles, FileBytes, FileSystem, IoFault, MemoryFileSystem, Permission,
};
use std::alloc::Global;

/// What was written since then has so many parts.
const PARTS: usize = 4;

// The paths of the files.
fn paths(alloc: Global, files: &LogFiles) -> Result<Vec<String>, IoFault> {
    let directory = files.settings.dir.as_str();
    let mut paths = Vec::new(alloc);
    for name in &files.files.list(alloc, directory)? {
        let path = format!(in alloc; "{directory}/{name}")?;
        paths.push(path)?;
    }
    Ok(paths)
}

// All bytes of a file, as reads see them.
fn read(alloc: Global, files: &mut MemoryFileSystem, path: &str) -> Result<Vec<u8>, IoFault> {
    let fd = files.open(path, Permission::ReadOnly)?;
    let len = files.file_size(fd)?;
    files.read_at(alloc, fd, 0, len)
}

// The bytes of all files, as reads see them.
fn seen(alloc: Global, files: &mut LogFiles) -> Result<Vec<FileBytes>, IoFault> {
    let mut all = Vec::new(alloc);
    for path in paths(alloc, files)? {
        let bytes = read(alloc, &mut files.files, path.as_str())?;
        all.push(FileBytes { path, bytes })?;
    }
    Ok(all)
}

// How many bytes files have together.
fn len_of(files: &[FileBytes]) -> usize {
    let mut len: usize = 0;
    for file in files {
        len = len.saturating_add(file.bytes.len());
    }
    len
}

// The bytes that a file had, none where it wasn't there.
fn bytes_before<'a>(before: &'a [FileBytes], path: &str) -> &'a [u8] {
    match before.iter().find(|file| file.path.as_str() == path) {
        Some(file) => file.bytes.as_slice(),
        None => &[],
    }
}

// The byte that stood there, 0 behind the end: room that is made has such bytes.
fn byte_before(before: &[u8], at: usize) -> u8 {
    before.get(at).copied().unwrap_or(0)
}

// From which byte on a file was written since then, and up to which.
fn written(before: &[u8], bytes: &[u8]) -> (usize, usize) {
    let mut span = (bytes.len(), 0);
    for (at, byte) in bytes.iter().enumerate() {
        if *byte != byte_before(before, at) {
            span = (span.0.min(at), at.saturating_add(1));
        }
    }
    span
}

// Of what was written since then only some of the parts are kept; behind them stands what stood there.
fn tear(before: &[u8], bytes: &mut [u8], parts: usize) {
    let (from, to) = written(before, bytes);
    let kept = from.saturating_add(to.saturating_sub(from) / PARTS * parts.min(PARTS));
    for (at, byte) in bytes.iter_mut().enumerate() {
        if at >= kept {
            *byte = byte_before(before, at);
        }
    }
}

impl Home {
    /// The bytes of the files are noted, as reads see them: so many files and bytes.
    pub fn note(&mut self) -> Result<(usize, usize), IoFault> {
        let alloc = self.alloc;
        let Some(files) = &mut self.files else {
            return Ok((0, 0));
        };
        let before = seen(alloc, files)?;
        let (count, len) = (before.len(), len_of(&before));
        self.before = before;
        Ok((count, len))
    }

    /// A crash leaves of each file the bytes that were noted, and of those written since then so many
    /// quarters, from the first one on. No fuse is left.
    pub fn tear(&mut self, parts: usize) -> Result<&'static str, IoFault> {
        let alloc = self.alloc;
        let Some(files) = &mut self.files else {
            return Ok("nothing");
        };
        files.fuse(None);
        let mut left = seen(alloc, files)?;
        for file in &mut left {
            let before = bytes_before(&self.before, file.path.as_str());
            tear(before, &mut file.bytes, parts);
        }
        match files.crash(&CrashChoice::Bytes(left)) {
            Ok(()) => Ok("left"),
            Err(_) => Ok("can't be left so"),
        }
    }
}
