//! One queue of log files: batches are appended to the last one, and read by their handles.
#![tactic(auto)]

mod append;
mod file;
mod laws;
mod opening;
mod pipe;
mod prefilling;
mod purging;
mod reading;
mod reserved;
mod rotate;

pub use file::{File, Paths, ReservedFile};
pub use laws::{pipes_are_torn_at_end, pipes_leave_a_front};
pub use pipe::SinglePipe;
