//! Small clients of a file system that stops and crashes. They stand on the public contracts
//! alone, for every file system. And files in memory that keep something beside files, for tests.
#![tactic(auto)]

mod appending;
mod beside;
mod restarting;
mod storing;

pub use appending::append;
pub use beside::BesideFiles;
pub use restarting::{RestartFault, restart};
pub use storing::{load, store};
