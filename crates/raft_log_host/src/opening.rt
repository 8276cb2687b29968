//! A directory is opened: it is locked, and its log files and those kept for reuse are loaded.
ghost use Rattle.std.specs.Prelude.{◌≡◌, ◌≢◌, ℕ, IfOk, IsNone, false};
ghost use Rattle.raft_log_files.specs.FileName.{IsFileSeq, log_file_name, reserved_name};
ghost use Rattle.raft_log_records.specs.declared.file_id.FileId.{FileId};
ghost use Rattle.raft_log_host.specs.Loading.{HasOnlyLoaded};
ghost use Rattle.raft_log_host.specs.Mirror.{Replays, host_disk};

use crate::files::HostFileSystem;
use crate::folder::folder_of;
use crate::host::Host;
use raft_log_disk::{FileSystem, IoFault, MemoryFileSystem};
use raft_log_files::{FileNameExt, parse_reserved_file_name};
use raft_log_records::{FileId, LogQueue};
use std::alloc::{AllocError, Global};
use std::fs::{OpenOptions, TryLockError};
use std::io::{ErrorKind, Read};
use std::os::unix::fs::FileExt;
use std::{fs, io};
use thiserror::Error;

/// Why a directory isn't opened (own).
#[derive(Debug, Drop, Error)]
pub enum OpenError {
    /// The system refused a call.
    #[error("{0}")]
    Io(io::Error),
    /// Another process has it open.
    #[error("another process has the directory open")]
    InUse,
    /// It belongs to a node of another id.
    #[error("the directory belongs to another node")]
    OtherOwner,
    #[error("out of memory")]
    Memory,
}

impl From<io::Error> for OpenError {
    fn from(error: io::Error) -> OpenError {
        OpenError::Io(error)
    }
}

impl From<AllocError> for OpenError {
    fn from(_: AllocError) -> OpenError {
        OpenError::Memory
    }
}

// The directory, if it is not there. What holds it has to be.
fn make_directory(rt: &HostRuntime, directory: &str) -> io::Result<()> {
    match fs::create_dir(rt, directory) {
        Ok(()) => fs::File::open(rt, folder_of(directory))?.sync_all(),
        Err(error) if error.kind() == ErrorKind::AlreadyExists => Ok(()),
        Err(error) => Err(error),
    }
}

// The file `LOCK` of the directory. No other process gets it as long as it is open.
fn lock(rt: &HostRuntime, directory: &str) -> Result<fs::File, OpenError> {
    let path = format!(in rt.alloc(); "{directory}/LOCK")?;
    let file = OpenOptions::new()
        .read(true)
        .write(true)
        .create(true)
        .open(rt, path.as_str())?;
    match file.try_lock() {
        Ok(()) => Ok(file),
        Err(TryLockError::WouldBlock) => Err(OpenError::InUse),
        Err(TryLockError::Error(error)) => Err(OpenError::Io(error)),
    }
}

// The directory belongs to this node from now on, and to no other before.
fn claim(rt: &HostRuntime, directory: &str, file: &fs::File, owner: u64) -> Result<(), OpenError> {
    let mut known = String::new(rt.alloc());
    let mut reader = file;
    reader.read_to_string(&mut known)?;
    let name = format!(in rt.alloc(); "{owner}\n")?;
    if known.ends_with('\n') {
        return if known.as_str() == name.as_str() {
            Ok(())
        } else {
            Err(OpenError::OtherOwner)
        };
    }
    // A line that isn't whole was cut off before anything else was written.
    file.write_all_at(name.as_bytes(), 0)?;
    file.sync_all()?;
    fs::File::open(rt, directory)?.sync_all()?;
    Ok(())
}

// The file of a name: a log file, or one that is kept for reuse. Such a file is loaded by the pieces
// of an append file of its number. Which pieces these are doesn't matter: no bytes of it are read as
// records. With a log file's name it gets a header under which they have a foreign signature.
fn file_of(name: &str) -> Option<FileId>
    ensures logs { IsNone result → (id : FileId) → IsFileSeq id.seq → log_file_name id ≢ name.now }
    ensures reserved { IsNone result → (n : ℕ) → IsFileSeq n → reserved_name n ≢ name.now }
{
    if let Some(id) = FileId::parse_file_name(name) {
        return Some(id);
    }
    let seq = parse_reserved_file_name(name)?;
    Some(FileId::new(LogQueue::Append, seq))
}

// The names of the log files in the directory and of those kept for reuse, rising. Others are
// passed over.
fn log_names(rt: &HostRuntime, directory: &str) -> io::Result<Vec<String>> {
    let mut names = Vec::new(rt.alloc());
    for entry in fs::read_dir(rt, directory)? {
        match entry {
            Ok(entry) => {
                if file_of(entry.file_name()).is_some() {
                    names.push(String::from_str(rt.alloc(), entry.file_name())?)?;
                }
            }
            Err(error) if error.kind() == ErrorKind::InvalidFilename => {}
            Err(error) => return Err(error),
        }
    }
    names.sort()?;
    Ok(names)
}

impl HostFileSystem {
    // The directory comes into memory, with its log files and those kept for reuse.
    fn load_all(&mut self, alloc: Global, directory: &str, names: &[String]) -> Result<(), IoFault>
        ensures loads { HasOnlyLoaded self.old.events → HasOnlyLoaded self.new.events }
    {
        self.make_dir(directory)?;
        for name in names {
            if let Some(id) = file_of(name.as_str()) {
                let path = format!(in alloc; "{directory}/{name}")?;
                self.load(alloc, path.as_str(), id)?;
            }
        }
        Ok(())
    }

    /// The files of a directory, which belongs to this node alone and is locked (own). It is made, if
    /// it is not there. Log files are loaded, and files that are kept for reuse. Each is synced before
    /// it is read, so that what reads see is on the disk. No file that is there is changed, and those
    /// of other names are passed over.
    pub fn open(rt: HostRuntime, directory: &str, owner: u64) -> Result<HostFileSystem, OpenError>
        ensures sound { IfOk result (λ f. f.has_failed ≡ false) }
        ensures mirror { IfOk result (λ f. Replays f.events (host_disk f)) }
        ensures loads { IfOk result (λ f. HasOnlyLoaded f.events) }
    {
        make_directory(&rt, directory)?;
        let file = lock(&rt, directory)?;
        claim(&rt, directory, &file, owner)?;
        let names = log_names(&rt, directory)?;
        let mut files = HostFileSystem {
            memory: MemoryFileSystem::new(rt.alloc()),
            host: Host::new(rt, file),
            refusals: 0,
            cause: None,
        };
        match files.load_all(rt.alloc(), directory, names.as_slice()) {
            Ok(()) => files.if_going(),
            Err(_) => Err(files.into_cause()),
        }
    }

    // The files, unless the system refused a call.
    fn if_going(self) -> Result<HostFileSystem, OpenError>
        ensures same { IfOk result (λ f. f ≡ self) }
        ensures sound { IfOk result (λ f. f.has_failed ≡ false) }
        ensures mirror { IfOk result (λ f. Replays f.events (host_disk f)) }
    {
        if self.cause.is_some() {
            return Err(self.into_cause());
        }
        Ok(self)
    }

    // Why the files aren't loaded.
    fn into_cause(self) -> OpenError {
        match self.cause {
            Some(cause) => OpenError::Io(cause),
            None => OpenError::Memory,
        }
    }
}
