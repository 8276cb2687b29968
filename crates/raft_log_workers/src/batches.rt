//! Batches that are kept as they were read.

ghost use Rattle.std.specs.Prelude.{◌≡◌, ◌++◌, List, IfErr, OnOk};
ghost use Rattle.raft_log_files.specs.declared.error.Error.TheVariants.{Memory};
ghost use Rattle.raft_log_recovery.specs.Replay.{Placed};
ghost use Rattle.raft_log_workers.specs.Batches.{HasBatches};

use raft_log_files::Error;
use raft_log_records::{FileBlockHandle, LogItemBatch};
use raft_log_recovery::{MergeMachine, NewMachine, ReplayMachine};
use std::alloc::Global;

/// A batch, and the block of its entries.
#[derive(Drop)]
pub struct ReplayedBatch {
    pub batch: LogItemBatch,
    pub handle: FileBlockHandle,
}

/// Keeps the batches of log files in their order (own). So several workers can read them for a machine
/// whose parts can't be merged, which then replays all.
#[derive(Drop)]
pub struct ReplayedBatches {
    pub(crate) batches: Vec<ReplayedBatch>,
}

impl ReplayMachine for ReplayedBatches {
    ghost use Rattle.raft_log_workers.specs.Batches.{HasBatches};

    ghost has_replayed = { HasBatches };

    fn replay(&mut self, batch: LogItemBatch, handle: FileBlockHandle) -> Result<(), Error> {
        self.batches.push(ReplayedBatch { batch, handle })?;
        Ok(())
    }
}

impl MergeMachine for ReplayedBatches {
    fn merge(&mut self, behind: ReplayedBatches) -> Result<(), Error> {
        let mut batches = behind.batches;
        self.batches.append(&mut batches)?;
        Ok(())
    }
}

impl NewMachine for ReplayedBatches {
    fn new_machine(alloc: Global) -> ReplayedBatches {
        ReplayedBatches {
            batches: Vec::new(alloc),
        }
    }
}

impl ReplayedBatches {
    /// Replays all into another machine, behind what it has replayed. After an `Err` that machine is
    /// given up. The only error is want of memory.
    pub fn replay_into<M: ReplayMachine>(self, machine: &mut M) -> Result<(), Error>
        ensures replayed { OnOk result ((placed : List Placed) (more : List Placed) → M.has_replayed machine.old placed → HasBatches self more → M.has_replayed machine.new (placed ++ more)) }
        ensures err { IfErr result (λ e. e ≡ Memory) }
    {
        for next in self.batches {
            machine.replay(next.batch, next.handle)?;
        }
        Ok(())
    }
}
