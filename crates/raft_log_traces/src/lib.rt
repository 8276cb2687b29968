//! What the log engine keeps of each group for cleaning: the append files in which its entries and
//! keys stand, and what was removed since its last marks.
#![tactic(auto)]

mod before;
mod files;
mod group_trace;
mod group_traces;
mod laws;
mod opened;
mod rewritten;
mod runs;

pub use group_trace::GroupTrace;
pub use group_traces::GroupTraces;
pub use laws::{traces_rest_on_no_entry, traces_that_say_the_same_keep_queues};
