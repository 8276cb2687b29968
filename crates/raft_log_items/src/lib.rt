//! The items of log files, read one after the other, and the groups whose entries have a hole.
#![tactic(auto)]

mod checker;
mod found;
mod reader;

pub use checker::ConsistencyChecker;
pub use reader::LogItemReader;
