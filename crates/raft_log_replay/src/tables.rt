//! Memtables of the batches that were read.

ghost use Rattle.std.specs.Prelude.{◌≡◌, List, None};
ghost use Rattle.raft_log_memtables.specs.Content.{nothing};
ghost use Rattle.raft_log_memtables.specs.MemTables.{content_in, reach_in};
ghost use Rattle.raft_log_recovery.specs.Replay.{Placed};
ghost use Rattle.raft_log_replay.specs.Batches.{HasReplayed, content_over, reach_over};

use raft_log_files::Error;
use raft_log_memtables::{MemTableRecoverContext, MemTables};
use raft_log_records::{FileBlockHandle, LogItemBatch};
use raft_log_recovery::{NewMachine, ReplayMachine};
use std::alloc::Global;

/// Memtables into which the batches of log files are replayed as they are read (raft-engine's
/// `MemTableRecoverContext` as a machine). Of a batch it keeps what the tables have of it, but for
/// those of an atomic group, which it keeps until the last one comes.
#[derive(Drop)]
pub struct ReplayedTables {
    pub(crate) context: MemTableRecoverContext,
}

impl ReplayMachine for ReplayedTables {
    ghost use Rattle.raft_log_replay.specs.Batches.{HasReplayed};

    ghost has_replayed = { HasReplayed };

    fn replay(&mut self, batch: LogItemBatch, handle: FileBlockHandle) -> Result<(), Error> {
        self.context.replay(batch, handle)?;
        Ok(())
    }
}

impl NewMachine for ReplayedTables {
    fn new_machine(alloc: Global) -> ReplayedTables {
        let tables = MemTables::new(alloc);
        ReplayedTables {
            context: MemTableRecoverContext::new(alloc, tables),
        }
    }
}

impl ReplayedTables {
    /// The tables of the batches that were replayed. The records of an atomic group count together
    /// or not at all, also where the group began in one file and ended in another.
    pub fn finish(self) -> MemTables
        ensures content { (placed : List Placed) → HasReplayed self placed → content_in result ≡ content_over nothing placed }
        ensures reach { (placed : List Placed) → HasReplayed self placed → reach_in result ≡ reach_over (λ group. None) placed }
    {
        self.context.finish()
    }
}
