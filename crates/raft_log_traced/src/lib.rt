//! Memtables with what is kept of each group for cleaning: over writes, as cleaning writes groups anew,
//! and as an opening makes them.
#![tactic(auto)]

mod marked;
mod opened;
mod places;
mod traced;
mod written;

pub use traced::{TracedReplay, TracedTables};
