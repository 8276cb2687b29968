//! A file system in memory that can be made to refuse calls.

ghost use Rattle.std.specs.Prelude.{◌≡◌, ◌-◌, ◌^◌, List, ℕ, ◌<◌, IsTrue, OnOk, OnErr, MatchOption, None, length, false, is_some};
ghost use Rattle.raft_log_disk.specs.Text.{same_text};
ghost use Rattle.raft_log_disk.specs.Disk.{are_named, fd_of, IsNoFile, LacksRoom};
ghost use Rattle.raft_log_disk.specs.Memory.{are_rising, names_of, room_of};
ghost use Rattle.raft_log_disk.specs.Place.{IsPlace, IsPathPlace};

use crate::fuse::Fuse;
use crate::lookup::{find_number, find_path, has_path, name_of};
use crate::memory_file::MemoryFile;
use crate::space::{Space, left_of};
use std::alloc::{AllocError, Global};

/// Files in memory, with all that a crash may leave of them.
#[derive(Drop)]
pub struct MemoryFileSystem {
    pub(crate) alloc: Global,
    pub(crate) directories: Vec<String>,
    /// The oldest first.
    pub(crate) files: Vec<MemoryFile>,
    /// The number of the next new file.
    pub(crate) next: u64,
    /// Bounds on directories, the newest first.
    pub(crate) spaces: Vec<Space>,
    pub(crate) fuse: Fuse,
    ghost named: { IsTrue (are_named (names_of files.items) next) },
    ghost rising: { IsTrue (are_rising (names_of files.items)) },
}

impl MemoryFileSystem {
    ghost use Rattle.raft_log_disk.specs.Cause.{NothingRefuses};
    ghost use Rattle.raft_log_disk.specs.MemorySystem.{disk_in, meter_in, room_in, is_bounded_in, used_in, empty_disk, full_meter};

    /// No directories and no files, without bounds. No call is refused.
    pub fn new(alloc: Global) -> MemoryFileSystem
        ensures disk { disk_in result ≡ empty_disk }
        ensures meter { meter_in result ≡ full_meter }
        ensures room { (directory : List ℕ) → room_in result directory ≡ 2 ^ 64 - 1 }
        ensures free { NothingRefuses (is_bounded_in result) (meter_in result) }
    {
        MemoryFileSystem {
            alloc,
            directories: Vec::new(alloc),
            files: Vec::new(alloc),
            next: 1,
            spaces: Vec::new(alloc),
            fuse: Fuse {
                calls_left: None,
                refusals: 0,
                lacks: 0,
                unreadable: Vec::new(alloc),
            },
        }
    }

    /// Bounds the bytes that the files of a directory may have together. A call that would pass it
    /// answers `NoSpace` and leaves the files as they are.
    pub fn set_space(&mut self, directory: &str, bytes: u64) -> Result<(), AllocError>
        ensures disk { disk_in self.new ≡ disk_in self.old }
        ensures meter { meter_in self.new ≡ meter_in self.old }
        ensures bound { OnOk result (room_in self.new directory.now ≡ bytes - used_in self.old directory.now) }
        ensures others { OnOk result ((other : List ℕ) → same_text directory.now other ≡ false → room_in self.new other ≡ room_in self.old other) }
        ensures err { OnErr result ((other : List ℕ) → room_in self.new other ≡ room_in self.old other) }
    {
        let space = Space {
            directory: String::from_str(self.alloc, directory)?,
            bytes,
        };
        self.spaces.insert(0, space)?;
        Ok(())
    }

    /// The place of the file of a number.
    pub(crate) fn find(&self, number: u64) -> Option<usize>
        ensures { MatchOption result (IsNoFile (disk_in self.now) number) (IsPlace self.now.files.items number) }
    {
        find_number(&self.files, number)
    }

    /// The place of the file of a path.
    pub(crate) fn find_path(&self, path: &str) -> Option<usize>
        ensures { MatchOption result (fd_of (disk_in self.now).names path.now ≡ None) (IsPathPlace self.now.files.items path.now) }
    {
        find_path(&self.files, path)
    }

    /// Whether a file has this path.
    pub(crate) fn has_file(&self, path: &str) -> bool
        ensures { result ≡ is_some (fd_of (disk_in self.now).names path.now) }
    {
        has_path(&self.files, path)
    }

    /// Whether the file at a place is in a directory that has less room than this.
    pub(crate) fn is_cramped(&self, i: usize, bytes: u64) -> bool
        requires { i < length self.now.files.items }
        ensures yes { IsTrue result → (number : ℕ) → IsPlace self.now.files.items number i → LacksRoom (room_in self.now) (disk_in self.now) number bytes }
        ensures no { (number : ℕ) → IsPlace self.now.files.items number i → LacksRoom (room_in self.now) (disk_in self.now) number bytes → IsTrue result }
    {
        let path = self.files[i].path.as_str();
        for space in &self.spaces {
            let directory = space.directory.as_str();
            if name_of(directory, path).is_some()
                && room(&self.spaces, &self.files, directory) < bytes
            {
                return true;
            }
        }
        false
    }
}

/// The free bytes of a directory.
pub fn room(spaces: &[Space], files: &[MemoryFile], directory: &str) -> u64
    ensures { result ≡ room_of spaces.now files.now directory.now }
{
    match spaces {
        [] => u64::MAX,
        [space, rest @ ..] => {
            if space.directory.as_str() == directory {
                left_of(space.bytes, files, directory)
            } else {
                room(rest, files, directory)
            }
        }
    }
}
