//! Which queues of a log are due to be cleaned, and what a cleaning is asked for: all of the append
//! queue, what is due of both queues, or the rewrite queue written anew.
#![tactic(auto)]

mod cleaning;
mod due;
mod expired;
mod told;

pub use cleaning::{Cleaned, Extent, clean, may_clean};
pub use due::{Due, due_of};
