//! Both queues of log files over one file system: the append queue and the rewrite queue.
#![tactic(auto)]

mod calls;
mod pipes;

pub use pipes::DualPipes;
