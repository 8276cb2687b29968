//! The calls of a file system in memory.

use crate::lookup::{has_directory, has_text, push_name, slice_of};
use crate::memory::{MemoryFileSystem, room};
use crate::memory_file::MemoryFile;
use crate::{Fd, FileSystem, IoFault, Permission};
use std::alloc::Global;

impl FileSystem for MemoryFileSystem {
    ghost use Rattle.std.specs.Prelude.{◌≡◌};
    ghost use Rattle.raft_log_disk.specs.Cause.{HasCause, IsOneCall};
    ghost use Rattle.raft_log_disk.specs.MemorySystem.{disk_in, meter_in, room_in, is_bounded_in, memory_has_room, memory_is_named};
    ghost use Rattle.raft_log_disk.specs.MemoryImages.{memory_images};

    ghost disk = { disk_in };

    ghost meter = { meter_in };

    ghost room = { room_in };

    ghost has_metadata = { λ _ _. ⊥ };

    ghost is_bounded = { is_bounded_in };

    ghost is_named = { memory_is_named };

    ghost has_room = { memory_has_room };

    ghost has_images = { memory_images };

    fn create(&mut self, path: &str) -> Result<Fd, IoFault> {
        if self.fuse.spend() {
            return Err(self.fuse.refuse());
        }
        if self.next == u64::MAX || has_text(&self.directories, path) {
            return Err(self.fuse.refuse());
        }
        if !has_directory(&self.directories, path) {
            return Err(IoFault::NotFound);
        }
        let path = String::from_str(self.alloc, path)?;
        let number = self.next;
        self.files.push(MemoryFile::new(self.alloc, path, number))?;
        self.next = number + 1;
        Ok(Fd(number))
    }

    fn open(&mut self, path: &str, permission: Permission) -> Result<Fd, IoFault> {
        let _ = permission;
        if self.fuse.spend() {
            return Err(self.fuse.refuse());
        }
        match self.find_path(path) {
            Some(i) => Ok(Fd(self.files[i].number)),
            None => Err(IoFault::NotFound),
        }
    }

    fn delete(&mut self, path: &str) -> Result<(), IoFault> {
        if self.fuse.spend() {
            return Err(self.fuse.refuse());
        }
        let Some(i) = self.find_path(path) else {
            return Err(IoFault::NotFound);
        };
        let _ = self.files.remove(i);
        Ok(())
    }

    fn rename(&mut self, from: &str, to: &str) -> Result<(), IoFault> {
        if self.fuse.spend() {
            return Err(self.fuse.refuse());
        }
        if has_text(&self.directories, to) {
            return Err(self.fuse.refuse());
        }
        let Some(i) = self.find_path(from) else {
            return Err(IoFault::NotFound);
        };
        if !has_directory(&self.directories, to) {
            return Err(IoFault::NotFound);
        }
        let to = String::from_str(self.alloc, to)?;
        let front = self.files[i].front(self.alloc)?;
        self.files[i].rename(to, front);
        Ok(())
    }

    /// Nothing is kept beside a file, and yet the fuse counts the call.
    fn delete_metadata(&mut self, path: &str) -> Result<(), IoFault>
        ensures kept { disk_in self.new ≡ disk_in self.old }
        ensures cause { HasCause ⊥ ⊥ (meter_in self.old) (meter_in self.new) result }
        ensures call { IsOneCall ⊥ (meter_in self.old) (meter_in self.new) result }
        ensures bound { is_bounded_in self.new → is_bounded_in self.old }
    {
        let _ = path;
        if self.fuse.spend() {
            return Err(self.fuse.refuse());
        }
        Ok(())
    }

    fn make_dir(&mut self, path: &str) -> Result<(), IoFault> {
        if self.fuse.spend() {
            return Err(self.fuse.refuse());
        }
        if self.has_file(path) {
            return Err(self.fuse.refuse());
        }
        if has_text(&self.directories, path) {
            return Ok(());
        }
        let path = String::from_str(self.alloc, path)?;
        self.directories.push(path)?;
        Ok(())
    }

    fn write_at(&mut self, fd: Fd, at: u64, bytes: &[u8]) -> Result<(), IoFault> {
        let is_refused = self.fuse.spend();
        let Some(i) = self.find(fd.0) else {
            return Err(self.fuse.missing(is_refused));
        };
        let at = at as usize;
        if bytes.len() > usize::MAX - at {
            return Err(self.fuse.refuse());
        }
        if is_refused {
            // Without memory for its note the call took no effect.
            let _ = self.files[i].refuse_write(self.alloc, at, bytes);
            return Err(self.fuse.refuse());
        }
        let growth = (at + bytes.len()).saturating_sub(self.files[i].bytes.len());
        if self.is_cramped(i, growth as u64) {
            return Err(self.fuse.lack_space());
        }
        self.files[i].write(self.alloc, at, bytes)?;
        Ok(())
    }

    fn truncate(&mut self, fd: Fd, len: u64) -> Result<(), IoFault> {
        let is_refused = self.fuse.spend();
        let Some(i) = self.find(fd.0) else {
            return Err(self.fuse.missing(is_refused));
        };
        let len = len as usize;
        if is_refused {
            // Without memory for its note the call took no effect.
            let _ = self.files[i].refuse_truncate(self.alloc, len);
            return Err(self.fuse.refuse());
        }
        let growth = len.saturating_sub(self.files[i].bytes.len());
        if self.is_cramped(i, growth as u64) {
            return Err(self.fuse.lack_room());
        }
        self.files[i].truncate(self.alloc, len)?;
        Ok(())
    }

    fn allocate(&mut self, fd: Fd, at: u64, len: u64) -> Result<(), IoFault> {
        let is_refused = self.fuse.spend();
        let Some(i) = self.find(fd.0) else {
            return Err(self.fuse.missing(is_refused));
        };
        let (at, len) = (at as usize, len as usize);
        if len > usize::MAX - at {
            return Err(self.fuse.refuse());
        }
        if is_refused {
            // Without memory for its note the call took no effect.
            let _ = self.files[i].refuse_allocate(self.alloc, at, len);
            return Err(self.fuse.refuse());
        }
        let growth = (at + len).saturating_sub(self.files[i].bytes.len());
        if self.is_cramped(i, growth as u64) {
            return Err(self.fuse.lack_room());
        }
        self.files[i].allocate(self.alloc, at, len)?;
        Ok(())
    }

    fn sync(&mut self, fd: Fd) -> Result<(), IoFault> {
        let is_refused = self.fuse.spend();
        let Some(i) = self.find(fd.0) else {
            return Err(self.fuse.missing(is_refused));
        };
        if is_refused {
            return Err(self.fuse.refuse());
        }
        self.files[i].sync()?;
        Ok(())
    }

    fn list(&self, alloc: Global, directory: &str) -> Result<Vec<String>, IoFault> {
        let mut names = Vec::new(alloc);
        for file in &self.files {
            push_name(&mut names, alloc, directory, file.path.as_str())?;
        }
        names.sort()?;
        Ok(names)
    }

    fn is_dir(&self, path: &str) -> bool {
        has_text(&self.directories, path)
    }

    fn is_file(&self, path: &str) -> bool {
        self.has_file(path)
    }

    fn available(&self, directory: &str) -> u64 {
        room(&self.spaces, &self.files, directory)
    }

    fn read_at(&self, alloc: Global, fd: Fd, at: u64, len: u64) -> Result<Vec<u8>, IoFault> {
        let Some(i) = self.find(fd.0) else {
            return Err(IoFault::NotFound);
        };
        let file = &self.files[i];
        if has_text(&self.fuse.unreadable, file.path.as_str()) {
            return Err(IoFault::Refused);
        }
        match slice_of(alloc, &file.bytes, at as usize, len as usize) {
            Ok(bytes) => Ok(bytes),
            Err(_) => Err(IoFault::Memory),
        }
    }

    fn file_size(&self, fd: Fd) -> Result<u64, IoFault> {
        match self.find(fd.0) {
            Some(i) => Ok(self.files[i].bytes.len() as u64),
            None => Err(IoFault::NotFound),
        }
    }
}
