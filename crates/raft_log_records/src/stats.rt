//! How many entries and keys the log engine has, for the choice when to clean.

ghost use Rattle.std.specs.Prelude.{◌≡◌};
ghost use Rattle.raft_log_records.specs.Stats.{counts_in, no_counts, after_add, after_delete};
ghost use Rattle.raft_log_records.specs.Stats.{live_in, without_deleted};

use crate::file_id::LogQueue;

/// Counts of entries and keys in the two queues (raft-engine's `GlobalStats`). A count stays at
/// 2^64 - 1.
#[derive(Clone, Copy, PartialEq, Eq)]
pub struct GlobalStats {
    /// Those of the append queue that are needed.
    appended: u64,
    /// Those written to the rewrite queue, without the ones that a reset has taken off.
    rewritten: u64,
    /// Those of them that are no longer needed.
    deleted: u64,
}

impl GlobalStats {
    /// Nothing is counted yet.
    #[tactic(auto, unfolding(crate::specs::Stats::counts_in))]
    pub fn new() -> GlobalStats
        ensures { counts_in result ≡ no_counts }
    {
        GlobalStats {
            appended: 0,
            rewritten: 0,
            deleted: 0,
        }
    }

    /// Entries and keys that a queue has gained.
    #[tactic(auto, unfolding(crate::specs::Stats::counts_in))]
    pub fn add(&mut self, queue: LogQueue, count: u64)
        ensures { counts_in self.new ≡ after_add queue count (counts_in self.old) }
    {
        match queue {
            LogQueue::Append => {
                self.appended = self.appended.saturating_add(count);
            }
            LogQueue::Rewrite => {
                self.rewritten = self.rewritten.saturating_add(count);
            }
        }
    }

    /// Entries and keys of a queue that are no longer needed.
    #[tactic(auto, unfolding(crate::specs::Stats::counts_in))]
    pub fn delete(&mut self, queue: LogQueue, count: u64)
        ensures { counts_in self.new ≡ after_delete queue count (counts_in self.old) }
    {
        match queue {
            LogQueue::Append => {
                self.appended = self.appended.saturating_sub(count);
            }
            LogQueue::Rewrite => {
                self.deleted = self.deleted.saturating_add(count);
            }
        }
    }

    /// Entries and keys of a queue that are needed.
    #[tactic(auto, unfolding(crate::specs::Stats::counts_in))]
    pub fn live_entries(&self, queue: LogQueue) -> u64
        ensures { result ≡ live_in queue (counts_in self.now) }
    {
        match queue {
            LogQueue::Append => self.appended,
            LogQueue::Rewrite => self.rewritten.saturating_sub(self.deleted),
        }
    }

    /// Entries and keys written to the rewrite queue, without the ones that a reset has taken off.
    #[tactic(auto, unfolding(crate::specs::Stats::counts_in))]
    pub fn rewrite_entries(&self) -> u64
        ensures { result ≡ (counts_in self.now).rewritten }
    {
        self.rewritten
    }

    /// Those of them that are no longer needed.
    #[tactic(auto, unfolding(crate::specs::Stats::counts_in))]
    pub fn deleted_rewrite_entries(&self) -> u64
        ensures { result ≡ (counts_in self.now).deleted }
    {
        self.deleted
    }

    /// The rewrite queue's entries and keys that are no longer needed count no more, neither as
    /// written nor as deleted. Those that are needed stay counted.
    #[tactic(auto, unfolding(crate::specs::Stats::counts_in))]
    pub fn reset_rewrite_counters(&mut self)
        ensures { counts_in self.new ≡ without_deleted (counts_in self.old) }
    {
        self.rewritten = self.rewritten.saturating_sub(self.deleted);
        self.deleted = 0;
    }
}
