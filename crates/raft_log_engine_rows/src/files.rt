//! Calls on the files of an engine that isn't open.

use crate::session::Desk;
use crate::told::of_files;
use raft_log_engine::{Engine, EngineFault};
use raft_log_files::{Config, CrashFiles, FileSystem, IoFault, MemoryFileSystem, Permission};
use std::alloc::Global;

/// Cuts a file, or fills it up with zeros.
fn cut(files: &mut MemoryFileSystem, path: &str, len: u64) -> Result<(), IoFault> {
    let fd = files.open(path, Permission::ReadWrite)?;
    files.truncate(fd, len)?;
    files.sync(fd)
}

/// Turns bits of a byte, if it is there.
fn turn(
    files: &mut MemoryFileSystem,
    alloc: Global,
    path: &str,
    at: u64,
    bits: u8,
) -> Result<(), IoFault> {
    let fd = files.open(path, Permission::ReadWrite)?;
    let mut read = files.read_at(alloc, fd, at, 1)?;
    for byte in &mut read {
        *byte ^= bits;
    }
    if at < files.file_size(fd)? {
        files.write_at(fd, at, &read)?;
    }
    files.sync(fd)
}

/// Makes a file, if it isn't there.
fn create(files: &mut MemoryFileSystem, path: &str) -> Result<(), IoFault> {
    if files.is_file(path) {
        return Ok(());
    }
    match files.create(path) {
        Ok(_) => Ok(()),
        Err(fault) => Err(fault),
    }
}

/// Makes a directory of so many bytes.
fn bound(files: &mut MemoryFileSystem, path: &str, bytes: u64) -> Result<(), IoFault> {
    files.make_dir(path)?;
    files.set_space(path, bytes)?;
    Ok(())
}

/// Refuses reads of the file of this path, and of no other one.
fn refuse_reads(files: &mut MemoryFileSystem, alloc: Global, path: &str) -> Result<(), IoFault> {
    let path = String::from_str(alloc, path)?;
    files.refuse_reads(vec![in alloc; path]?);
    Ok(())
}

/// Puts the bytes of a file behind others.
fn read_file(files: &mut MemoryFileSystem, path: &str, bytes: &mut Vec<u8>) -> Result<(), IoFault> {
    let alloc = *bytes.allocator();
    let fd = files.open(path, Permission::ReadOnly)?;
    let len = files.file_size(fd)?;
    match files.read_at(alloc, fd, 0, len) {
        Ok(read) => Ok(bytes.extend_from_slice(&read)?),
        Err(fault) => Err(fault),
    }
}

/// The same for a name in a directory, and whether it could be read.
fn read_named(
    files: &mut MemoryFileSystem,
    directory: &str,
    name: &str,
    bytes: &mut Vec<u8>,
) -> bool {
    match format!(in *bytes.allocator(); "{directory}/{name}") {
        Ok(path) => read_file(files, path.as_str(), bytes).is_ok(),
        Err(_) => false,
    }
}

/// Puts the bytes of the files of a directory with this ending behind others, and tells whether all
/// could be read.
fn read_all(
    files: &mut MemoryFileSystem,
    directory: &str,
    ending: &str,
    bytes: &mut Vec<u8>,
) -> bool {
    let Ok(names) = files.list(*bytes.allocator(), directory) else {
        return false;
    };
    for name in &names {
        let name = name.as_str();
        if name.ends_with(ending) && !read_named(files, directory, name, bytes) {
            return false;
        }
    }
    true
}

/// Whether the files of a directory have the bytes that they had at this step of the round before,
/// if there was one.
fn compare(files: &mut MemoryFileSystem, desk: &mut Desk, directory: &str) -> bool {
    let mut bytes = Vec::new(desk.alloc);
    if !read_all(files, directory, "", &mut bytes) {
        return desk.told.lack_memory();
    }
    let is_same = desk.round == 0 || desk.bytes == bytes;
    desk.bytes = bytes;
    desk.told.show("Same", &is_same)
}

/// How many bytes the files of a directory with this ending have.
fn size(files: &mut MemoryFileSystem, desk: &mut Desk, directory: &str, ending: &str) -> bool {
    desk.bytes.clear();
    if !read_all(files, directory, ending, &mut desk.bytes) {
        return desk.told.lack_memory();
    }
    desk.told.show("Bytes", &desk.bytes.len())
}

/// Copies the files into another directory: the paths there.
fn fork(files: &mut MemoryFileSystem, desk: &mut Desk, config: &Config, directory: &str) -> bool {
    match Engine::fork(files, desk.alloc, config, directory) {
        Ok(details) => desk.told.show("Forked", &details.copied),
        Err(error) => desk.told.show("Refused", &error),
    }
}

/// What a change of the files told.
fn told(desk: &mut Desk, told: Result<(), IoFault>) -> bool {
    desk.told.done("", of_files(told))
}

/// Changes a file by its path: `cut:PATH:LEN`, `turn:PATH:AT:BITS`, `create:PATH`, `make_dir:PATH`
/// or `bound:PATH:BYTES` for a directory of so many bytes, `unread:PATH`, where reads of no other
/// are refused.
fn change(files: &mut MemoryFileSystem, desk: &mut Desk, parts: &[&str]) -> bool {
    let alloc = desk.alloc;
    match parts {
        ["cut", path, len] => told(desk, cut(files, path, desk.number(len))),
        ["turn", path, at, bits] => {
            let (at, bits) = (desk.number(at), (desk.number(bits) & 0xff) as u8);
            told(desk, turn(files, alloc, path, at, bits))
        }
        ["create", path] => told(desk, create(files, path)),
        ["make_dir", path] => told(desk, files.make_dir(path)),
        ["bound", path, bytes] => told(desk, bound(files, path, desk.number(bytes))),
        ["unread", path] => told(desk, refuse_reads(files, alloc, path)),
        _ => false,
    }
}

/// Takes a step on files: a change, `fuse:CALL`, from which call on they refuse, `names:DIRECTORY`,
/// `same:DIRECTORY`, `size:DIRECTORY:ENDING`, or `fork:DIRECTORY`.
pub fn change_files(
    files: &mut MemoryFileSystem,
    desk: &mut Desk,
    config: &Config,
    parts: &[&str],
) -> bool {
    match parts {
        ["fuse", call] => {
            files.fuse(Some(desk.number(call)));
            true
        }
        ["names", directory] => tell_names(files, desk, directory),
        ["same", directory] => compare(files, desk, directory),
        ["size", directory, ending] => size(files, desk, directory, ending),
        ["fork", directory] => fork(files, desk, config, directory),
        _ => change(files, desk, parts) || desk.told.word("Closed"),
    }
}

/// The names of the files in a directory.
pub fn tell_names(files: &MemoryFileSystem, desk: &mut Desk, directory: &str) -> bool {
    let names: Result<Vec<String>, EngineFault> = of_files(files.list(desk.alloc, directory));
    desk.told.value("Names", names)
}
