//! A log in memory, whose writes can be made to be refused.
ghost use Rattle.std.specs.Prelude.{◌≡◌, None, false};
ghost use Rattle.raft_log_memtables.specs.Content.{nothing};
ghost use Rattle.raft_plain_nodes.specs.Fuse.{left_behind, left_until};
ghost use Rattle.raft_plain_nodes.specs.declared.fused_log.FusedFault.TheVariants.{Plain};
ghost use Rattle.raft_content_log.specs.declared.plain_log.PlainFault.TheVariants.{Memory};

use raft_cluster_events::CrashRefusal;
use raft_content_log::{CleanLog, ContentLog, CrashLog, PlainFault, PlainLog};
use raft_log_records::LogBatch;
use std::alloc::{AllocError, Global};
use thiserror::Error;

/// Why a log in memory with a fuse fails (own).
#[derive(Clone, Copy, Debug, PartialEq, Eq, Error)]
pub enum FusedFault {
    /// The log in it fails.
    #[error("{0}")]
    Plain(PlainFault),
    /// The write came behind its fuse.
    #[error("the write is refused")]
    Refused,
}

impl From<AllocError> for FusedFault {
    ghost from_gives = { λ _ e. e ≡ Plain Memory };

    fn from(_e: AllocError) -> FusedFault {
        FusedFault::Plain(PlainFault::Memory)
    }
}

/// What a crash may leave of a log in memory (own).
#[derive(Clone, Copy, Debug, PartialEq, Eq)]
pub enum FusedChoice {
    /// What is stored.
    Stored,
    /// Bytes of files, of which it has none.
    Bytes,
}

/// A log in memory (own). A crash keeps what it has. A write is its only changing call: behind a fuse
/// each is refused, with nothing done. Where another call fails, as for want of memory, the log is lost:
/// it is never opened again.
#[derive(Drop)]
pub struct FusedLog {
    log: PlainLog,
    // How many writes go on before one is refused; with none no write is refused.
    writes_left: Option<u64>,
    is_lost: bool,
    ghost going: { is_lost ≡ false → log.is_lost ≡ false },
}

// How many writes go on behind the next one; none where that is refused.
fn writes_behind(writes_left: Option<u64>) -> Option<Option<u64>>
    ensures { result ≡ left_behind writes_left }
{
    match writes_left {
        None => Some(None),
        Some(0) => None,
        Some(left) => Some(Some(left - 1)),
    }
}

impl FusedLog {
    /// Nothing, without a fuse. Takes no memory (own).
    pub fn new(alloc: Global) -> FusedLog
        ensures kept { result.is_lost ≡ false }
        ensures content { ⟦<PlainLog as ContentLog>⟧.answers result.log ≡ nothing }
        ensures unfused { result.writes_left ≡ None }
    {
        FusedLog {
            log: PlainLog::new(alloc),
            writes_left: None,
            is_lost: false,
        }
    }

    /// Whether a call failed, which lost what the log had (own).
    pub fn is_lost(&self) -> bool
        ensures { result ≡ self.now.is_lost }
    {
        self.is_lost
    }

    /// Refuses each write from this one on, the first one counted as 1; with none it refuses none any
    /// more (own). Nothing else changes.
    pub fn set_fuse(&mut self, first_refused: Option<u64>)
        ensures { self.new ≡ record self.old { writes_left = left_until first_refused } }
    {
        self.writes_left = match first_refused {
            Some(first) => Some(first.saturating_sub(1)),
            None => None,
        };
    }
}

impl ContentLog for FusedLog {
    type Fault = FusedFault;

    ghost use Rattle.std.specs.Prelude.{◌≡◌, false};
    ghost use Rattle.raft_plain_nodes.specs.Met.{Meets, meets_later, meets_none};

    ghost is_sound = { λ x. x.is_lost ≡ false };

    ghost answers = { λ x. ⟦<PlainLog as ContentLog>⟧.answers x.log };

    ghost leaves = { λ x content. ⟦<PlainLog as ContentLog>⟧.leaves x.log content };

    ghost meets = { λ old new met. Meets old.writes_left new.writes_left met };

    // Why the plain log below it refuses isn't promised.
    ghost is_misuse = { λ fault. ⊥ };

    ghost meets_none = { λ x. meets_none x.writes_left };

    ghost meets_later = { λ x y z met first second. meets_later x.writes_left y.writes_left z.writes_left met first second };

    fn write(&mut self, batch: &mut LogBatch) -> Result<(), FusedFault> {
        let Some(left) = writes_behind(self.writes_left) else {
            return Err(FusedFault::Refused);
        };
        self.writes_left = left;
        match self.log.write(batch) {
            Ok(()) => Ok(()),
            Err(fault) => {
                self.is_lost = true;
                Err(FusedFault::Plain(fault))
            }
        }
    }

    fn get(&mut self, group: u64, key: &[u8]) -> Result<Option<Vec<u8>>, FusedFault> {
        match self.log.get(group, key) {
            Ok(found) => Ok(found),
            Err(fault) => {
                self.is_lost = true;
                Err(FusedFault::Plain(fault))
            }
        }
    }

    fn fetch_entries_to(
        &mut self,
        group: u64,
        begin: u64,
        end: u64,
    ) -> Result<Vec<Vec<u8>>, FusedFault> {
        match self.log.fetch_entries_to(group, begin, end) {
            Ok(found) => Ok(found),
            Err(fault) => {
                self.is_lost = true;
                Err(FusedFault::Plain(fault))
            }
        }
    }

    fn groups(&mut self) -> Result<Vec<u64>, FusedFault> {
        match self.log.groups() {
            Ok(groups) => Ok(groups),
            Err(fault) => {
                self.is_lost = true;
                Err(FusedFault::Plain(fault))
            }
        }
    }

    fn is_there(&mut self, group: u64) -> Result<bool, FusedFault> {
        match self.log.is_there(group) {
            Ok(there) => Ok(there),
            Err(fault) => {
                self.is_lost = true;
                Err(FusedFault::Plain(fault))
            }
        }
    }
}

impl CleanLog for FusedLog {
    fn clean(&mut self) -> Result<Vec<u64>, FusedFault> {
        match self.log.clean() {
            Ok(groups) => Ok(groups),
            Err(fault) => {
                self.is_lost = true;
                Err(FusedFault::Plain(fault))
            }
        }
    }
}

impl CrashLog for FusedLog {
    /// A crash keeps what is stored, or is refused.
    type Choice = FusedChoice;

    /// `NotAnImage` alone, for bytes of files.
    type Refusal = CrashRefusal;

    ghost use Rattle.std.specs.Prelude.{◌≡◌};
    ghost use Rattle.raft_cluster_events.specs.declared.outcome.CrashRefusal.TheVariants.{NotAnImage};
    ghost use Rattle.raft_plain_nodes.specs.Fuse.{left_until};
    ghost use Rattle.raft_plain_nodes.specs.declared.fused_log.FusedChoice.TheVariants.{Bytes, Stored};

    ghost crashed = { λ old choice new. (choice ≡ Stored) × (new ≡ old) };

    ghost refuses = { λ log choice why. (choice ≡ Bytes) × (why ≡ NotAnImage) };

    ghost fused = { λ old first new. new ≡ record old { writes_left = left_until first } };

    fn crash(&mut self, choice: &FusedChoice) -> Result<(), CrashRefusal> {
        match choice {
            FusedChoice::Stored => Ok(()),
            FusedChoice::Bytes => Err(CrashRefusal::NotAnImage),
        }
    }

    fn fuse(&mut self, first_refused: Option<u64>) {
        self.set_fuse(first_refused);
    }
}
