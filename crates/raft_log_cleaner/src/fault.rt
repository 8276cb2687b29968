//! Why a cleaning is refused.

ghost use Rattle.std.specs.Prelude.{◌≡◌};
ghost use Rattle.raft_log_cleaner.specs.Fault.{fetch_fault, mark_fault, record_fault};

use raft_log_files::{CorruptionFault, Error};
use raft_log_marks::MarkError;
use raft_log_memtables::FetchError;
use raft_log_records::RecordError;

/// A refusal of a batch.
pub fn of_record(error: RecordError) -> Error
    ensures { result ≡ record_fault error }
{
    match error {
        RecordError::Memory | RecordError::TooLong => Error::Memory,
        RecordError::Corruption(fault) => Error::Corruption(CorruptionFault::Record(fault)),
    }
}

/// A refusal of marks. A group whose `Compact` would go past the greatest index is never marked, and no
/// record has a key without bytes.
pub(crate) fn of_mark(error: MarkError) -> Error
    ensures { result ≡ mark_fault error }
{
    match error {
        MarkError::Record(error) => of_record(error),
        MarkError::EmptyKey | MarkError::PastGreatestIndex => Error::EntryNotFound,
    }
}

/// A refusal of entries.
pub(crate) fn of_fetch(error: FetchError) -> Error
    ensures { result ≡ fetch_fault error }
{
    match error {
        FetchError::Memory => Error::Memory,
        FetchError::EntryCompacted => Error::EntryCompacted,
        FetchError::EntryNotFound => Error::EntryNotFound,
    }
}
