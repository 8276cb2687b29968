//! What the log files of a node are like.

use raft_log_files::Config;
use raft_log_records::ReadableSize;
use std::alloc::{AllocError, Global};

/// Settings for a log of small files, of these sizes in kilobytes, in this directory (own).
pub fn log_settings(
    alloc: Global,
    directory: &str,
    target_file_size: u32,
    purge_threshold: u32,
) -> Result<Config, AllocError> {
    let mut config = Config::default(alloc);
    config.dir = String::from_str(alloc, directory)?;
    config.target_file_size = ReadableSize(target_file_size as u64 * 1024);
    config.purge_threshold = ReadableSize(purge_threshold as u64 * 1024);
    Ok(config)
}
