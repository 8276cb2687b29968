//! What a store of groups asks of a log, over its content, and a log that keeps this in memory.
#![tactic(auto)]

pub mod clean;
pub mod content_log;
pub mod crash;
pub mod plain_log;
pub mod uses;

pub use clean::CleanLog;
pub use content_log::ContentLog;
pub use crash::CrashLog;
pub use plain_log::{PlainFault, PlainLog};
