//! A log in memory with a fuse, as a node's.
ghost use Rattle.std.specs.Prelude.{◌≡◌};
ghost use Rattle.raft_plain_nodes.specs.Causes.{cause_of_fault};

use crate::fused_log::{FusedChoice, FusedFault, FusedLog};
use raft_cluster_events::{CrashChoice, CrashRefusal, StopCause};
use raft_content_log::{ContentLog, PlainFault};
use raft_node_logs::{NodeLog, Unopened, quiet_stop};
use std::alloc::{AllocError, Global};
use std::thread::Threads;

// Why a node stops at a fault of its log: a write that its fuse refused is told as a refused call of
// files is.
fn cause_of_fault(fault: FusedFault) -> StopCause
    ensures { result ≡ cause_of_fault fault }
{
    match fault {
        FusedFault::Refused => StopCause::Io,
        FusedFault::Plain(PlainFault::Memory | PlainFault::Lost) => StopCause::Memory,
        FusedFault::Plain(PlainFault::NotTaken | PlainFault::NotThere) => StopCause::Other,
    }
}

impl NodeLog for FusedLog {
    /// While its node is down the log itself is there.
    type Files = FusedLog;

    type Settings = ();

    ghost use Rattle.std.specs.Prelude.{◌≡◌, None, false, true};
    ghost use Rattle.raft_cluster_events.specs.declared.outcome.StopCause.TheVariants.{Memory};
    ghost use Rattle.std.proofs.Common.{subst};
    ghost use Rattle.raft_plain_nodes.specs.Causes.{ChoosesSo, cause_of_fault};
    ghost use Rattle.raft_plain_nodes.specs.Fuse.{left_until};
    ghost use Rattle.raft_plain_nodes.specs.declared.fused_log.FusedLog.{FusedLog};

    ghost found = { λ files content. (files.is_lost ≡ false) × ⟦<FusedLog as ContentLog>⟧.leaves files content };

    ghost finds = { λ log content. (log.is_lost ≡ false) × ⟦<FusedLog as ContentLog>⟧.leaves log content };

    ghost unopened = { λ old cause new. (old.is_lost ≡ true) × (cause ≡ Memory) };

    ghost opens = { λ files log. log ≡ files };

    ghost fresh = { λ files. files.writes_left ≡ None };

    ghost hands_back = { λ log files. files ≡ log };

    ghost fused_files = { λ old first new. new ≡ record old { writes_left = left_until first } };

    ghost cause = { cause_of_fault };

    ghost chooses = { λ asked chosen. ChoosesSo asked chosen };

    ghost refusal = { λ why. why };

    ghost crashed_left = { λ old new choice content same found. subst (λ (x : FusedLog). ⟦<FusedLog as ContentLog>⟧.leaves x content) same.1 found.1 };

    fn new_files(alloc: Global, _settings: &()) -> Result<FusedLog, AllocError> {
        Ok(FusedLog::new(alloc))
    }

    fn no_files(alloc: Global) -> FusedLog {
        FusedLog::new(alloc)
    }

    /// One that was lost isn't opened. There is nothing to read, so no thread is made.
    fn open<R: Threads + Sync>(
        _rt: &R,
        alloc: Global,
        files: FusedLog,
        _workers: u64,
    ) -> Result<FusedLog, Unopened<FusedLog>> {
        if files.is_lost() {
            return Err(Unopened {
                stop: quiet_stop(alloc, StopCause::Memory),
                files,
            });
        }
        Ok(files)
    }

    fn into_files(self) -> FusedLog {
        self
    }

    fn fuse_files(files: &mut FusedLog, first_refused: Option<u64>) {
        files.set_fuse(first_refused);
    }

    fn cause_of(fault: FusedFault) -> StopCause {
        cause_of_fault(fault)
    }

    fn choice_of(_alloc: Global, asked: &CrashChoice) -> Result<FusedChoice, AllocError> {
        match asked {
            CrashChoice::Least | CrashChoice::Most => Ok(FusedChoice::Stored),
            CrashChoice::Bytes(_) => Ok(FusedChoice::Bytes),
        }
    }

    fn refusal_of(why: CrashRefusal) -> CrashRefusal {
        why
    }
}
