//! The batches of a queue's log files, replayed into memtables.
#![tactic(auto)]

mod tables;

pub use tables::ReplayedTables;
