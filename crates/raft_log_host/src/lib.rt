//! The files of a log on a real disk: a file system over one directory of the operating system. Reads
//! are answered from a copy in memory.
#![tactic(auto)]

mod files;
mod folder;
mod host;
mod loading;
mod opening;
mod pieces;
mod record;

pub use files::HostFileSystem;
pub use opening::OpenError;
