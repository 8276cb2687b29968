//! What stands in log files: the files of a queue by their names, the items of each, and where and why
//! its reading ended, also as texts.
#![tactic(auto)]

mod content;
mod ending;
mod log_files;
mod numbers;

pub use content::{Ending, ItemList, LogContent, read_content};
pub use ending::{push_cut, push_ending, push_file, queue_name};
pub use log_files::{LogFile, files_of_queue};
pub use numbers::{push_named, push_number};
