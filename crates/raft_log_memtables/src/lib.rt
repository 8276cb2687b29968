//! Memtables: what the log engine has of each group, with the places of its entries, and how the
//! records of log files are replayed into them.
#![tactic(auto)]

mod entries;
mod fetch;
mod keys;
mod laws;
mod memtable;
mod memtables;
mod moved;
mod replay;
mod taken;

pub use fetch::FetchError;
pub use laws::{
    atomic_groups_count_together, batches_that_are_taken_make_no_hole, content_follows_its_entries,
};
pub use memtable::MemTable;
pub use memtables::MemTables;
pub use moved::entries_may_move;
pub use replay::{MemTableRecoverContext, PlacedBatch, replay_all};
