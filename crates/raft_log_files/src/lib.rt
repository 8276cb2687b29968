//! The files of the log: their names, the settings of the log engine, and why its calls are refused.
#![tactic(auto)]

mod config;
mod error;
mod file_name;
mod number;
mod opening;
mod reading;
mod recovery;
mod size_text;
mod writing;

pub use config::Config;
pub use error::{ArgumentFault, CorruptionFault, DiskRefusal, Error, OtherFault};
pub use file_name::{
    DEFAULT_FIRST_FILE_SEQ, DEFAULT_PATH_ID, FileNameExt, PathId, build_reserved_file_name,
    is_file_seq, parse_reserved_file_name,
};
pub use opening::{io_is_counted, open_listed};
pub use raft_log_disk::{
    CrashChoice, CrashFiles, CrashRefusal, Fd, FileBytes, FileSystem, HeaderFault, IoFault,
    LogFileFormat, MemoryFileSystem, Permission,
};
pub use recovery::{RecoveryConfig, RecoveryMode};
