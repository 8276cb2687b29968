//! Files in memory with something kept beside files, as a file system may keep its own notes of them.

use raft_log_disk::{Fd, FileSystem, IoFault, MemoryFileSystem, Permission};
use std::alloc::{AllocError, Global};

/// What is kept beside the file of a path.
#[derive(Drop)]
struct Kept {
    path: String,
    /// Which of all that was deleted this was, from 0 on, if it was.
    deleted: Option<u64>,
}

/// Files in memory, which keep something beside the files of some paths, those that are gone too.
#[derive(Drop)]
pub struct BesideFiles {
    pub(crate) files: MemoryFileSystem,
    kept: Vec<Kept>,
    deleted: u64,
}

impl BesideFiles {
    ghost use Rattle.std.specs.Prelude.{◌≡◌, IfOk};

    /// These files, with something beside those of the paths.
    pub fn new(
        alloc: Global,
        files: MemoryFileSystem,
        paths: &[&str],
    ) -> Result<BesideFiles, AllocError>
        ensures { IfOk result (λ f. f.files ≡ files) }
    {
        let mut kept = Vec::new(alloc);
        for path in paths {
            let path = String::from_str(alloc, path)?;
            kept.push(Kept {
                path,
                deleted: None,
            })?;
        }
        Ok(BesideFiles {
            files,
            kept,
            deleted: 0,
        })
    }

    /// Of each that was kept, which of all that was deleted it was.
    pub fn deleted(&self, alloc: Global) -> Result<Vec<Option<u64>>, AllocError> {
        let mut all = Vec::new(alloc);
        for kept in &self.kept {
            all.push(kept.deleted)?;
        }
        Ok(all)
    }

    // What is kept beside the path is deleted.
    fn forget(&mut self, path: &str)
        ensures { self.new.files ≡ self.old.files }
    {
        for kept in self.kept.iter_mut() {
            if kept.path.as_str() == path {
                kept.deleted = Some(self.deleted);
            }
        }
        self.deleted = self.deleted.saturating_add(1);
    }
}

impl FileSystem for BesideFiles {
    ghost use Rattle.raft_log_disk.specs.MemorySystem.{memory_has_room, memory_is_named};
    ghost use Rattle.raft_log_disk.specs.MemoryImages.{memory_images};
    ghost use Rattle.raft_disk_uses.specs.Beside.{disk_in, is_bounded_in, meter_in, room_in};

    ghost disk = { disk_in };

    ghost meter = { meter_in };

    ghost room = { room_in };

    ghost has_metadata = { λ _ _. Unit {0} };

    ghost is_bounded = { is_bounded_in };

    ghost is_named = { λ f. memory_is_named f.files };

    ghost has_room = { λ f. memory_has_room f.files };

    ghost has_images = { λ f. memory_images f.files };

    fn create(&mut self, path: &str) -> Result<Fd, IoFault> {
        self.files.create(path)
    }

    fn open(&mut self, path: &str, permission: Permission) -> Result<Fd, IoFault> {
        self.files.open(path, permission)
    }

    fn delete(&mut self, path: &str) -> Result<(), IoFault> {
        self.files.delete(path)
    }

    fn rename(&mut self, from: &str, to: &str) -> Result<(), IoFault> {
        self.files.rename(from, to)
    }

    fn reuse(&mut self, from: &str, to: &str) -> Result<(), IoFault> {
        self.files.reuse(from, to)
    }

    fn reuse_and_open(&mut self, from: &str, to: &str) -> Result<Fd, IoFault> {
        self.files.reuse_and_open(from, to)
    }

    fn delete_metadata(&mut self, path: &str) -> Result<(), IoFault> {
        self.files.delete_metadata(path)?;
        self.forget(path);
        Ok(())
    }

    fn make_dir(&mut self, path: &str) -> Result<(), IoFault> {
        self.files.make_dir(path)
    }

    fn write_at(&mut self, fd: Fd, at: u64, bytes: &[u8]) -> Result<(), IoFault> {
        self.files.write_at(fd, at, bytes)
    }

    fn truncate(&mut self, fd: Fd, len: u64) -> Result<(), IoFault> {
        self.files.truncate(fd, len)
    }

    fn allocate(&mut self, fd: Fd, at: u64, len: u64) -> Result<(), IoFault> {
        self.files.allocate(fd, at, len)
    }

    fn sync(&mut self, fd: Fd) -> Result<(), IoFault> {
        self.files.sync(fd)
    }

    fn exists_metadata(&self, path: &str) -> bool {
        self.kept.iter().any(|kept| kept.deleted.is_none() && kept.path.as_str() == path)
    }

    fn list(&self, alloc: Global, directory: &str) -> Result<Vec<String>, IoFault> {
        self.files.list(alloc, directory)
    }

    fn is_dir(&self, path: &str) -> bool {
        self.files.is_dir(path)
    }

    fn is_file(&self, path: &str) -> bool {
        self.files.is_file(path)
    }

    fn available(&self, directory: &str) -> u64 {
        self.files.available(directory)
    }

    fn read_at(&self, alloc: Global, fd: Fd, at: u64, len: u64) -> Result<Vec<u8>, IoFault> {
        self.files.read_at(alloc, fd, at, len)
    }

    fn file_size(&self, fd: Fd) -> Result<u64, IoFault> {
        self.files.file_size(fd)
    }
}
