//! The rewrite queue of the log written anew: each group that is there goes behind the old records,
//! whole, and then the old files go.
#![tactic(auto)]

mod due;
mod group;
mod manager;
mod names;
mod writer;

pub use due::{has_many_rewritten, is_due};
pub use manager::must_rewrite_rewrite_queue;
