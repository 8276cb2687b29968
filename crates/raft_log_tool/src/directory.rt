//! A directory of the disk, read into memory. Its files are opened for reading alone.
use crate::failure::Failure;
use raft_log_files::{Error, FileNameExt, FileSystem, IoFault, MemoryFileSystem};
use raft_log_records::FileId;
use std::fs::TryLockError;
use std::io::ErrorKind;
use std::{fs, io};

// A lock on the directory that other readers may share, and no node. Without the file `LOCK` no
// node has opened it.
fn share_lock(rt: &HostRuntime, directory: &str) -> Result<Option<fs::File>, Failure> {
    let path = format!(in rt.alloc(); "{directory}/LOCK")?;
    let file = match fs::File::open(rt, path.as_str()) {
        Ok(file) => file,
        Err(why) if why.kind() == ErrorKind::NotFound => return Ok(None),
        Err(why) => return Err(Failure::of_reading(why)),
    };
    match file.try_lock_shared() {
        Ok(()) => Ok(Some(file)),
        Err(TryLockError::WouldBlock) => Err(Failure::InUse),
        Err(TryLockError::Error(why)) => Err(Failure::of_reading(why)),
    }
}

// The names of the log files in the directory. Others are passed over.
fn log_names(rt: &HostRuntime, directory: &str) -> io::Result<Vec<String>> {
    let mut names = Vec::new(rt.alloc());
    for entry in fs::read_dir(rt, directory)? {
        match entry {
            Ok(entry) => {
                if FileId::parse_file_name(entry.file_name()).is_some() {
                    names.push(String::from_str(rt.alloc(), entry.file_name())?)?;
                }
            }
            Err(why) if why.kind() == ErrorKind::InvalidFilename => {}
            Err(why) => return Err(why),
        }
    }
    Ok(names)
}

/// Makes a file with these bytes, where none has its path.
fn put_file<F: FileSystem>(files: &mut F, path: &str, bytes: &[u8]) -> Result<(), IoFault> {
    if files.is_file(path) {
        return Err(IoFault::Refused);
    }
    let fd = files.create(path)?;
    files.write_at(fd, 0, bytes)?;
    Ok(())
}

// The files of these names come into memory.
fn load_all(
    rt: &HostRuntime,
    files: &mut MemoryFileSystem,
    directory: &str,
    names: &[String],
) -> Result<(), Failure> {
    for name in names {
        let path = format!(in rt.alloc(); "{directory}/{name}")?;
        let bytes = fs::read(rt, path.as_str()).map_err(Failure::of_reading)?;
        put_file(files, path.as_str(), bytes.as_slice()).map_err(Error::from)?;
    }
    Ok(())
}

/// The log files of a directory, in memory (own). While they are read no node can open it.
pub fn read_directory(rt: &HostRuntime, directory: &str) -> Result<MemoryFileSystem, Failure> {
    let lock = share_lock(rt, directory)?;
    let names = log_names(rt, directory).map_err(Failure::of_reading)?;
    let mut files = MemoryFileSystem::new(rt.alloc());
    files.make_dir(directory).map_err(Error::from)?;
    load_all(rt, &mut files, directory, names.as_slice())?;
    drop(lock);
    Ok(files)
}
