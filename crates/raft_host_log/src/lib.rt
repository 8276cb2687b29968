//! A log of batches over the files of one directory on a real disk.
#![tactic(auto)]

mod cleaning;
mod log;

pub use log::{HostFiles, HostLog};
