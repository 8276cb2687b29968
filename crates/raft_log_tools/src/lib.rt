//! Tools for people who look after log files: what stands in a file or a directory, holes in the
//! entries of groups, and copies of an engine's files.
#![tactic(auto)]

mod checking;
mod copying;
mod directories;
mod dumping;
mod error;
mod forking;
mod found;
mod telling;

pub use checking::consistency_check;
pub use dumping::dump;
pub use error::ForkError;
pub use forking::{CopyDetails, fork};
