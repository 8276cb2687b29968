//! The calls of files behind a gate: those of the files, but that the first write comes to the gate,
//! and that reads of one of them may wait.

use crate::files::GateFiles;
use raft_log_disk::{Fd, FileSystem, IoFault, Permission};
use std::alloc::Global;

impl FileSystem for GateFiles {
    ghost use Rattle.std.specs.Prelude.{◌≡◌};
    ghost use Rattle.raft_log_disk.specs.Cause.{HasCause, IsOneCall};
    ghost use Rattle.raft_log_disk.specs.MemorySystem.{memory_has_room, memory_is_named};
    ghost use Rattle.raft_log_disk.specs.MemoryImages.{memory_images};
    ghost use Rattle.raft_gate_files.specs.Files.{disk_in, is_bounded_in, meter_in, room_in};

    ghost disk = { disk_in };

    ghost meter = { meter_in };

    ghost room = { room_in };

    ghost has_metadata = { λ _ _. ⊥ };

    ghost is_bounded = { is_bounded_in };

    ghost is_named = { λ f. memory_is_named f.files };

    ghost has_room = { λ f. memory_has_room f.files };

    ghost has_images = { λ f. memory_images f.files };

    fn create(&mut self, path: &str) -> Result<Fd, IoFault> {
        self.files.create(path)
    }

    fn open(&mut self, path: &str, permission: Permission) -> Result<Fd, IoFault> {
        self.files.open(path, permission)
    }

    fn delete(&mut self, path: &str) -> Result<(), IoFault> {
        self.files.delete(path)
    }

    fn rename(&mut self, from: &str, to: &str) -> Result<(), IoFault> {
        self.files.rename(from, to)
    }

    fn reuse(&mut self, from: &str, to: &str) -> Result<(), IoFault> {
        self.files.reuse(from, to)
    }

    fn reuse_and_open(&mut self, from: &str, to: &str) -> Result<Fd, IoFault> {
        self.files.reuse_and_open(from, to)
    }

    fn delete_metadata(&mut self, path: &str) -> Result<(), IoFault> {
        self.files.delete_metadata(path)
    }

    fn make_dir(&mut self, path: &str) -> Result<(), IoFault> {
        self.files.make_dir(path)
    }

    /// Comes to the gate before.
    fn write_at(&mut self, fd: Fd, at: u64, bytes: &[u8]) -> Result<(), IoFault> {
        self.come();
        self.files.write_at(fd, at, bytes)
    }

    fn truncate(&mut self, fd: Fd, len: u64) -> Result<(), IoFault> {
        self.files.truncate(fd, len)
    }

    fn allocate(&mut self, fd: Fd, at: u64, len: u64) -> Result<(), IoFault> {
        self.files.allocate(fd, at, len)
    }

    fn sync(&mut self, fd: Fd) -> Result<(), IoFault> {
        self.files.sync(fd)
    }

    fn exists_metadata(&self, path: &str) -> bool {
        self.files.exists_metadata(path)
    }

    fn list(&self, alloc: Global, directory: &str) -> Result<Vec<String>, IoFault> {
        self.files.list(alloc, directory)
    }

    fn is_dir(&self, path: &str) -> bool {
        self.files.is_dir(path)
    }

    fn is_file(&self, path: &str) -> bool {
        self.files.is_file(path)
    }

    fn available(&self, directory: &str) -> u64 {
        self.files.available(directory)
    }

    /// Waits before, where it is to be late.
    fn read_at(&self, alloc: Global, fd: Fd, at: u64, len: u64) -> Result<Vec<u8>, IoFault> {
        self.wait(fd);
        let read = self.files.read_at(alloc, fd, at, len);
        self.note(fd);
        read
    }

    fn file_size(&self, fd: Fd) -> Result<u64, IoFault> {
        self.files.file_size(fd)
    }
}
