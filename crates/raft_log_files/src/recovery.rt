//! How log files are read at an opening.

use raft_log_records::LogQueue;

/// What a fault in a log file does to an opening (raft-engine's `RecoveryMode`).
#[derive(Clone, Copy, Debug, PartialEq, Eq)]
pub enum RecoveryMode {
    /// Any fault refuses the opening.
    AbsoluteConsistency,
    /// The last file of each queue is cut where its whole records end; any other fault refuses the
    /// opening.
    TolerateTailCorruption,
    /// Each file is cut where its whole records end.
    TolerateAnyCorruption,
}

/// How one queue is recovered (raft-engine's `RecoveryConfig`).
#[derive(Clone, Copy, PartialEq, Eq)]
pub struct RecoveryConfig {
    pub queue: LogQueue,
    pub mode: RecoveryMode,
    /// Workers that read at once; 0 counts as 1.
    pub concurrency: usize,
    /// Bytes that a read asks for at least.
    pub read_block_size: u64,
}
