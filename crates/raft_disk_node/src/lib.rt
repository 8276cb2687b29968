//! The usual node: one on the files of a directory of a disk. Its types, and one call that opens it.
#![tactic(auto)]

mod fault;
mod node;

pub use fault::{DiskFault, NotOpenedDisk, SystemCause};
pub use node::{DiskNode, DiskStore, MemoryNode, MemoryStore, open_disk_node};
