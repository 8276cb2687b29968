//! The log engine over two queues of log files: one for what is written, one for what is rewritten.
#![tactic(auto)]

mod appending;
mod block_cache;
mod blocks;
mod calls;
mod cleaning;
mod compaction;
mod crashing;
mod engine;
mod fault;
mod hearing;
mod listening;
mod memory;
mod opening;
mod reads;
mod scans;
mod stale;
mod tools;
mod ways;
mod writing;

pub use engine::Engine;
pub use fault::EngineFault;
pub use memory::{LogFiles, MemoryLog};
pub use opening::{NotClosed, NotOpened};
