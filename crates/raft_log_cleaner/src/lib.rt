//! Cleaning of the log: what still counts in old files is written anew to the rewrite queue, and then
//! the old files go.
#![tactic(auto)]

mod entries;
mod facts;
mod fault;
mod live;
mod manager;
mod plan;
mod writer;

pub use entries::copies;
pub use fault::of_record;
pub use live::{live_of, rewritten_of};
pub use manager::{PurgeManager, RewriteStep};
pub use writer::{MOST_BATCH_BYTES, MOST_UNSYNCED_BYTES, place_of};
