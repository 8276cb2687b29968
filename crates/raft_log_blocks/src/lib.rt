//! Reads of entries by the handles of their blocks, out of either queue of log files.
#![tactic(auto)]

mod blocks;
mod last;

pub use blocks::{copy_in, read_block};
pub use last::LastBlock;
