//! Why a store's calls fail.
ghost use Rattle.raft_store.specs.declared.fault.StoreRefusal.TheVariants as refusal;
ghost use Rattle.raft_store.specs.declared.fault.StoreFault.TheVariants.{Refused};
ghost use Rattle.raft_store.specs.Faults.{noted_after, refusal_of, refusal_of_record};
ghost use Rattle.std.specs.Prelude.{◌≡◌};
ghost use Rattle.std.specs.Result.{result_err};

use raft_log_records::RecordError;
use raft_wire::{FrameError, FrameFault};
use std::alloc::{AllocError, AllocFailed};
use std::fmt;
use thiserror::Error;

/// Why the store itself refuses a call (own). Nothing was written then.
#[derive(Clone, Copy, Debug, PartialEq, Eq, Error)]
pub enum StoreRefusal {
    #[error("out of memory")]
    Memory,
    /// Entries that would begin past the log's end, or below its first place.
    #[error("the entries don't fit the log")]
    Gap,
    /// A purge point below the one that is stored.
    #[error("the log is purged further than that")]
    BelowPurge,
    /// A place that has none behind it.
    #[error("there is no place behind the greatest one")]
    NoPlace,
    /// A batch longer than a record may be.
    #[error("the batch is longer than it may be")]
    TooLong,
    /// A value that is past a limit, or stored bytes that aren't one, by their fault.
    #[error("a value isn't written or read: {0}")]
    Value(FrameFault),
    /// A stored end below the log's first place.
    #[error("the stored end lies below the log's first place")]
    BadEnd,
}

impl From<AllocError> for StoreRefusal {
    ghost from_gives = { λ _ e. e ≡ refusal.Memory };

    ghost use Rattle.std.specs.Prelude.{◌≡◌};

    fn from(_e: AllocError) -> StoreRefusal {
        StoreRefusal::Memory
    }
}

impl<T: Drop> From<AllocFailed<T>> for StoreRefusal {
    ghost from_gives = { λ _ e. e ≡ refusal.Memory };

    ghost use Rattle.std.specs.Prelude.{◌≡◌};

    fn from(_e: AllocFailed<T>) -> StoreRefusal {
        StoreRefusal::Memory
    }
}

impl From<RecordError> for StoreRefusal {
    ghost from_gives = { λ error e. e ≡ refusal_of_record error };

    ghost use Rattle.std.specs.Prelude.{◌≡◌};

    fn from(error: RecordError) -> StoreRefusal {
        match error {
            RecordError::Memory => StoreRefusal::Memory,
            RecordError::TooLong | RecordError::Corruption(_) => StoreRefusal::TooLong,
        }
    }
}

impl From<FrameError> for StoreRefusal {
    ghost from_gives = { λ error e. e ≡ refusal_of error };

    ghost use Rattle.std.specs.Prelude.{◌≡◌};

    fn from(error: FrameError) -> StoreRefusal {
        match error {
            FrameError::Fault(fault) => StoreRefusal::Value(fault),
            FrameError::Memory | FrameError::StreamFailed => StoreRefusal::Memory,
        }
    }
}

/// Why a store's call fails (own).
#[derive(Debug, Drop, Error)]
#[error_bound(F: fmt::Display)]
pub enum StoreFault<F> {
    /// The log failed, and the store with it.
    #[error("the log failed: {0}")]
    Log(F),
    /// The store refused it.
    #[error("the store refused it: {0}")]
    Refused(StoreRefusal),
}

impl<F> From<StoreRefusal> for StoreFault<F> {
    ghost from_gives = { λ refused fault. fault ≡ Refused refused };

    ghost use Rattle.std.specs.Prelude.{◌≡◌};

    fn from(refusal: StoreRefusal) -> StoreFault<F> {
        StoreFault::Refused(refusal)
    }
}

impl<F> From<AllocError> for StoreFault<F> {
    ghost from_gives = { λ _ fault. fault ≡ Refused refusal.Memory };

    ghost use Rattle.std.specs.Prelude.{◌≡◌};

    fn from(_e: AllocError) -> StoreFault<F> {
        StoreFault::Refused(StoreRefusal::Memory)
    }
}

/// What is noted behind a call: its refusal, or else what was noted before.
pub(crate) fn noted_after<T, F>(
    before: Option<StoreRefusal>,
    made: &Result<T, StoreFault<F>>,
) -> Option<StoreRefusal>
    ensures { result ≡ noted_after before (result_err made.now) }
{
    match made {
        Err(StoreFault::Refused(refusal)) => Some(*refusal),
        Ok(_) | Err(StoreFault::Log(_)) => before,
    }
}
