//! Files of the directory are loaded into memory.
ghost use Rattle.std.specs.Prelude.{◌≡◌};
ghost use Rattle.raft_log_host.specs.Loading.{HasOnlyLoaded};

use crate::files::{HostFileSystem, fault_of, refuse};
use crate::pieces::piece_len;
use raft_log_disk::{Fd, FileSystem, IoFault};
use raft_log_records::FileId;
use std::alloc::Global;
use std::io;

impl HostFileSystem {
    // The file of a path, which the system has, gets the next number. It has no bytes in memory yet.
    fn adopt(&mut self, path: &str) -> Result<Fd, IoFault>
        ensures loads { HasOnlyLoaded self.old.events → HasOnlyLoaded self.new.events }
    {
        if self.cause.is_some() || self.memory.is_file(path) {
            return Err(refuse(&mut self.refusals));
        }
        let fd = match self.memory.create(path) {
            Ok(fd) => fd,
            Err(fault) => return Err(fault_of(&mut self.cause, &mut self.refusals, fault)),
        };
        if let Err(cause) = self.host.take(path, fd.0) {
            self.cause = Some(cause);
            return Err(refuse(&mut self.refusals));
        }
        Ok(fd)
    }

    // The next bytes that the system has of the file come behind those in memory.
    fn adopt_next(&mut self, fd: Fd, len: usize) -> Result<(), IoFault>
        ensures loads { HasOnlyLoaded self.old.events → HasOnlyLoaded self.new.events }
    {
        if self.cause.is_some() {
            return Err(refuse(&mut self.refusals));
        }
        let at = match self.memory.file_size(fd) {
            Ok(at) => at,
            Err(fault) => return Err(fault_of(&mut self.cause, &mut self.refusals, fault)),
        };
        let bytes = match self.host.read_at(fd.0, at, len) {
            Ok(bytes) => bytes,
            Err(cause) => {
                self.cause = Some(cause);
                return Err(refuse(&mut self.refusals));
            }
        };
        if let Err(fault) = self.memory.write_at(fd, at, bytes.as_slice()) {
            let fault = fault_of(&mut self.cause, &mut self.refusals, fault);
            self.cause = Some(io::ErrorKind::OutOfMemory.into());
            return Err(fault);
        }
        Ok(())
    }

    // The bytes that the system has of a file, to find its records.
    fn peek(&mut self, fd: Fd) -> Result<Vec<u8>, IoFault>
        ensures same { self.new.events ≡ self.old.events }
    {
        let found = match self.host.len(fd.0) {
            Ok(len) => self.host.peek(fd.0, len as usize),
            Err(cause) => Err(cause),
        };
        match found {
            Ok(bytes) => Ok(bytes),
            Err(cause) => {
                self.cause = Some(cause);
                Err(refuse(&mut self.refusals))
            }
        }
    }

    // Each piece of the file comes into memory by a call of its own.
    fn adopt_all(&mut self, alloc: Global, fd: Fd, id: FileId, bytes: &[u8]) -> Result<(), IoFault>
        ensures loads { HasOnlyLoaded self.old.events → HasOnlyLoaded self.new.events }
    {
        let mut at = 0;
        while at < bytes.len() {
            let len = piece_len(alloc, id, bytes, at)?;
            self.adopt_next(fd, len)?;
            at += len;
        }
        Ok(())
    }

    /// The log file of a path is loaded, and synced.
    pub(crate) fn load(&mut self, alloc: Global, path: &str, id: FileId) -> Result<(), IoFault>
        ensures loads { HasOnlyLoaded self.old.events → HasOnlyLoaded self.new.events }
    {
        let fd = self.adopt(path)?;
        let bytes = self.peek(fd)?;
        self.adopt_all(alloc, fd, id, bytes.as_slice())?;
        self.sync(fd)
    }
}
