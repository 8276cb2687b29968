//! Files that are both in memory and on the disk.
ghost use Rattle.std.specs.Prelude.{⊤, ◌≡◌, ◌⊎◌, ◌+◌, ◌-◌, ◌^◌, min, true, false, is_some, Err, OnErr, OnOk};
ghost use Rattle.raft_log_disk.specs.Cause.{HasCause, IsOneCall, UnlessRefused, counted};
ghost use Rattle.raft_log_disk.specs.Disk.{IsFile, IsIn, IsNoFile, after_make_dir, after_sync, with_file};
ghost use Rattle.raft_log_disk.specs.MemorySystem.{is_bounded_in};
ghost use Rattle.raft_log_disk.specs.declared.fault.IoFault.TheVariants.{Refused};
ghost use Rattle.raft_log_host.specs.Loading.{HasOnlyLoaded};
ghost use Rattle.raft_log_host.specs.Mirror.{host_disk, host_meter};

use crate::host::Host;
use raft_log_disk::{Fd, FileSystem, IoFault, MemoryFileSystem, Permission};
use std::alloc::Global;
use std::io;
use std::marker::Model;

/// The files of one directory of the operating system (own). Reads are answered from memory; each
/// change is made in memory and then on the disk, but a sync on the disk first. After a call that the
/// system refused no further change is taken: the directory is to be opened anew.
#[derive(Drop)]
pub struct HostFileSystem {
    pub(crate) memory: MemoryFileSystem,
    pub(crate) host: Host,
    pub(crate) refusals: u64,
    /// Why the system refused a call.
    pub(crate) cause: Option<io::Error>,
}

impl Model for HostFileSystem {
    ghost use Rattle.std.specs.Prelude.{is_some};
    ghost use Rattle.std.specs.Coded.{codes};
    ghost use Rattle.raft_log_disk.specs.MemorySystem.{disk_in};
    ghost use Rattle.raft_log_disk.specs.contracts.memory.MemoryFileSystem as files;
    ghost use Rattle.raft_log_host.specs.Mirror.{IsMirror, OnHost};

    ghost Value = { OnHost };

    ghost coded = { Prim.hlevel (codes, files.the_row.coded) };

    ghost view = { λ f. record { memory = f.memory; events = f.host.record.events; refusals = f.refusals; has_failed = is_some f.cause } };

    ghost invariant = { λ f. IsMirror (is_some f.cause) f.host.record.events (disk_in f.memory) };
}

// One refusal more.
pub(crate) fn refuse(refusals: &mut u64) -> IoFault
    ensures refused { result ≡ Refused }
    ensures counted { refusals.new ≡ min (refusals.old + 1) (2 ^ 64 - 1) }
{
    *refusals = refusals.saturating_add(1);
    IoFault::Refused
}

// A call that memory didn't take. A refusal is counted, and ends the changes: what it left in memory
// isn't on the disk.
pub(crate) fn fault_of(cause: &mut Option<io::Error>, refusals: &mut u64, fault: IoFault) -> IoFault
    ensures fault { result ≡ fault }
    ensures counted { refusals.new ≡ counted {T = ⊤} (Err fault) refusals.old }
    ensures stopped { fault ≡ Refused → is_some cause.new ≡ true }
    ensures going { (fault ≡ Refused → ⊥) → cause.new ≡ cause.old }
{
    match fault {
        IoFault::Refused => {
            *cause = Some(io::ErrorKind::InvalidInput.into());
            *refusals = refusals.saturating_add(1);
        }
        IoFault::NoSpace => *refusals = refusals.saturating_add(1),
        IoFault::NotFound | IoFault::Memory => {}
    }
    fault
}

impl HostFileSystem {
    /// Why the system refused a call, if it did (own).
    pub fn cause(&self) -> Option<&io::Error>
        ensures { is_some result ≡ self.now.has_failed }
    {
        self.cause.as_ref()
    }
}

impl FileSystem for HostFileSystem {
    ghost use Rattle.raft_log_disk.specs.MemorySystem.{room_in, is_bounded_in, memory_has_room, memory_is_named};
    ghost use Rattle.raft_log_disk.specs.MemoryImages.{memory_images};
    ghost use Rattle.raft_log_host.specs.Mirror.{host_disk, host_meter};

    ghost disk = { host_disk };

    ghost meter = { host_meter };

    ghost room = { λ f. room_in f.memory };

    ghost has_metadata = { λ _ _. ⊥ };

    ghost is_bounded = { λ f. is_bounded_in f.memory };

    ghost is_named = { λ f. memory_is_named f.memory };

    ghost has_room = { λ f. memory_has_room f.memory };

    ghost has_images = { λ f. memory_images f.memory };

    fn create(&mut self, path: &str) -> Result<Fd, IoFault> {
        if self.cause.is_some() {
            return Err(refuse(&mut self.refusals));
        }
        let fd = match self.memory.create(path) {
            Ok(fd) => fd,
            Err(fault) => return Err(fault_of(&mut self.cause, &mut self.refusals, fault)),
        };
        if let Err(cause) = self.host.create(path, fd.0) {
            self.cause = Some(cause);
            return Err(refuse(&mut self.refusals));
        }
        Ok(fd)
    }

    fn open(&mut self, path: &str, permission: Permission) -> Result<Fd, IoFault> {
        if self.cause.is_some() {
            return Err(refuse(&mut self.refusals));
        }
        match self.memory.open(path, permission) {
            Ok(fd) => Ok(fd),
            Err(fault) => Err(fault_of(&mut self.cause, &mut self.refusals, fault)),
        }
    }

    fn delete(&mut self, path: &str) -> Result<(), IoFault> {
        if self.cause.is_some() {
            return Err(refuse(&mut self.refusals));
        }
        if let Err(fault) = self.memory.delete(path) {
            return Err(fault_of(&mut self.cause, &mut self.refusals, fault));
        }
        if let Err(cause) = self.host.delete(path) {
            self.cause = Some(cause);
            return Err(refuse(&mut self.refusals));
        }
        Ok(())
    }

    fn rename(&mut self, from: &str, to: &str) -> Result<(), IoFault> {
        if self.cause.is_some() {
            return Err(refuse(&mut self.refusals));
        }
        if let Err(fault) = self.memory.rename(from, to) {
            return Err(fault_of(&mut self.cause, &mut self.refusals, fault));
        }
        if let Err(cause) = self.host.rename(from, to) {
            self.cause = Some(cause);
            return Err(refuse(&mut self.refusals));
        }
        Ok(())
    }

    fn make_dir(&mut self, path: &str) -> Result<(), IoFault>
        ensures ok { OnOk result (IsIn path.now (host_disk self.new).directories) }
        ensures dirs { (host_disk self.new ≡ host_disk self.old)
            ⊎ ((IsIn path.now (host_disk self.old).directories → ⊥) × (host_disk self.new ≡ after_make_dir (host_disk self.old) path.now)) }
        ensures unchanged { UnlessRefused result (OnErr result (host_disk self.new ≡ host_disk self.old)) }
        ensures cause { HasCause ⊥ ⊥ (host_meter self.old) (host_meter self.new) result }
        ensures call { IsOneCall (IsFile (host_disk self.old) path.now) (host_meter self.old) (host_meter self.new) result }
        ensures bound { is_bounded_in self.new.memory → is_bounded_in self.old.memory }
        ensures loads { HasOnlyLoaded self.old.events → HasOnlyLoaded self.new.events }
    {
        if self.cause.is_some() {
            return Err(refuse(&mut self.refusals));
        }
        if let Err(fault) = self.memory.make_dir(path) {
            return Err(fault_of(&mut self.cause, &mut self.refusals, fault));
        }
        if let Err(cause) = self.host.make_dir(path) {
            self.cause = Some(cause);
            return Err(refuse(&mut self.refusals));
        }
        Ok(())
    }

    fn write_at(&mut self, fd: Fd, at: u64, bytes: &[u8]) -> Result<(), IoFault> {
        if self.cause.is_some() {
            return Err(refuse(&mut self.refusals));
        }
        if let Err(fault) = self.memory.write_at(fd, at, bytes) {
            return Err(fault_of(&mut self.cause, &mut self.refusals, fault));
        }
        if let Err(cause) = self.host.write_at(fd.0, at, bytes) {
            self.cause = Some(cause);
            return Err(refuse(&mut self.refusals));
        }
        Ok(())
    }

    fn truncate(&mut self, fd: Fd, len: u64) -> Result<(), IoFault> {
        if self.cause.is_some() {
            return Err(refuse(&mut self.refusals));
        }
        if let Err(fault) = self.memory.truncate(fd, len) {
            return Err(fault_of(&mut self.cause, &mut self.refusals, fault));
        }
        if let Err(cause) = self.host.truncate(fd.0, len) {
            self.cause = Some(cause);
            return Err(refuse(&mut self.refusals));
        }
        Ok(())
    }

    fn allocate(&mut self, fd: Fd, at: u64, len: u64) -> Result<(), IoFault> {
        if self.cause.is_some() {
            return Err(refuse(&mut self.refusals));
        }
        if let Err(fault) = self.memory.allocate(fd, at, len) {
            return Err(fault_of(&mut self.cause, &mut self.refusals, fault));
        }
        if let Err(cause) = self.host.fill(fd.0, at, len) {
            self.cause = Some(cause);
            return Err(refuse(&mut self.refusals));
        }
        Ok(())
    }

    fn sync(&mut self, fd: Fd) -> Result<(), IoFault>
        ensures ok { OnOk result (host_disk self.new ≡ with_file (host_disk self.old) fd.0 (after_sync ((host_disk self.old).file fd.0))) }
        ensures err { OnErr result (host_disk self.new ≡ host_disk self.old) }
        ensures cause { HasCause (IsNoFile (host_disk self.old) fd.0) ⊥ (host_meter self.old) (host_meter self.new) result }
        ensures call { IsOneCall ⊥ (host_meter self.old) (host_meter self.new) result }
        ensures bound { is_bounded_in self.new.memory → is_bounded_in self.old.memory }
        ensures loads { HasOnlyLoaded self.old.events → HasOnlyLoaded self.new.events }
    {
        if self.cause.is_some() {
            return Err(refuse(&mut self.refusals));
        }
        if let Err(cause) = self.host.sync(fd.0) {
            self.cause = Some(cause);
            return Err(refuse(&mut self.refusals));
        }
        if let Err(fault) = self.memory.sync(fd) {
            let fault = fault_of(&mut self.cause, &mut self.refusals, fault);
            self.cause = Some(io::ErrorKind::OutOfMemory.into());
            return Err(fault);
        }
        Ok(())
    }

    fn list(&self, alloc: Global, directory: &str) -> Result<Vec<String>, IoFault> {
        self.memory.list(alloc, directory)
    }

    fn is_dir(&self, path: &str) -> bool {
        self.memory.is_dir(path)
    }

    fn is_file(&self, path: &str) -> bool {
        self.memory.is_file(path)
    }

    fn available(&self, directory: &str) -> u64 {
        self.memory.available(directory)
    }

    fn read_at(&self, alloc: Global, fd: Fd, at: u64, len: u64) -> Result<Vec<u8>, IoFault> {
        self.memory.read_at(alloc, fd, at, len)
    }

    fn file_size(&self, fd: Fd) -> Result<u64, IoFault> {
        self.memory.file_size(fd)
    }
}
