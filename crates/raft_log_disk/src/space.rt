//! Bounds on directories.

ghost use Rattle.std.specs.Prelude.{◌≡◌, ◌-◌, ◌<◌, IsTrue};
ghost use Rattle.raft_log_disk.specs.Memory.{used_of};

use crate::lookup::name_of;
use crate::memory_file::MemoryFile;

/// How many bytes the files of a directory may have together.
#[derive(Drop)]
pub struct Space {
    pub directory: String,
    pub bytes: u64,
}

/// What is left of so many bytes beside the files of a directory.
pub fn left_of(bytes: u64, files: &[MemoryFile], directory: &str) -> u64
    ensures { result ≡ bytes - used_of files.now directory.now }
{
    let mut left = bytes;
    for file in files {
        if name_of(directory, file.path.as_str()).is_some() {
            left = left.saturating_sub(file.bytes.len() as u64);
        }
    }
    left
}
