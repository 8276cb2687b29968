//! The disk under the log: what a file system is, what a crash may leave of it, the headers and names
//! that a crash is judged by, and a file system in memory that can be made to refuse calls and to crash.
#![tactic(auto)]

mod crash;
mod crashing;
mod fault;
mod format;
mod fuse;
mod image;
mod laws;
mod lookup;
mod memory;
mod memory_calls;
mod memory_crash;
mod memory_file;
mod name;
pub mod number;
mod space;
mod system;

pub use crash::{CrashChoice, CrashFiles, CrashRefusal, FileBytes};
pub use fault::{Fd, IoFault, Permission};
pub use format::{HeaderFault, LogFileFormat};
pub use laws::{
    headers_are_read_as_written, least_and_most_are_images, listed_files_are_there,
    synced_file_is_left_as_read, writes_are_taken,
};
pub use memory::MemoryFileSystem;
pub use system::FileSystem;
