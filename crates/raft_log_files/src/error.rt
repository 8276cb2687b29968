//! Why a call of the log engine is refused.

ghost use Rattle.std.specs.Prelude.{◌≡◌};
ghost use Rattle.raft_log_files.specs.Error.{io_error, second_append_error, number_of};
ghost use Rattle.raft_log_files.specs.declared.error.Error.TheVariants.{Memory};

use raft_log_disk::{HeaderFault, IoFault};
use raft_log_records::RecordFault;
use std::alloc::{AllocError, AllocFailed};

/// What is wrong with the bytes of a log file.
#[derive(Clone, Copy, Debug, PartialEq, Eq, thiserror::Error)]
pub enum CorruptionFault {
    #[error("no header of a log file: {0:?}")]
    Header(HeaderFault),
    #[error("no record: {0:?}")]
    Record(RecordFault),
    /// A block is asked for in a file that its queue doesn't have.
    #[error("no such file in the queue")]
    NoSuchFile,
}

/// What is wrong with an argument.
#[derive(Clone, Copy, Debug, PartialEq, Eq, thiserror::Error)]
pub enum ArgumentFault {
    #[error("the settings are not TOML")]
    NotToml,
    #[error("a setting has a value that it cannot have")]
    BadSetting,
    #[error("a setting is too large for TOML")]
    TooLargeForToml,
    #[error("not a file")]
    NotAFile,
    #[error("not a log file's name")]
    NotALogFile,
    #[error("not a directory")]
    NotADirectory,
}

/// Why a call on files is refused: the file system counts a changing call so, or a read was of a
/// name whose reads are refused.
#[derive(Clone, Copy, Debug, PartialEq, Eq, thiserror::Error)]
pub enum DiskRefusal {
    #[error("the call was refused")]
    Refused,
    #[error("no space left in the directory")]
    NoSpace,
}

/// Why settings, a path or a call under them are refused.
#[derive(Clone, Copy, Debug, PartialEq, Eq, thiserror::Error)]
pub enum OtherFault {
    #[error("purge-threshold < target-file-size")]
    PurgeBelowTarget,
    #[error("format version 1 doesn't support log recycle, use 2 or above")]
    RecycleUnderVersion1,
    #[error("prefill is not allowed when log recycle is disabled")]
    PrefillWithoutRecycle,
    #[error("target-file-size is 0")]
    NoTargetSize,
    /// A path that should be a directory is a file.
    #[error("not a directory")]
    NotADirectory,
    /// A file is gone that no call of ours deleted. A file that was listed, or that has a number,
    /// stays until then: so a file system that keeps its contract gives no cause for this.
    #[error("the file is gone")]
    FileGone,
    /// A queue has used each number that a file can have.
    #[error("no file number is left")]
    NoFileNumber,
    /// A number that no file of the queue has.
    #[error("file number out of range")]
    NumberOutOfSpan,
}

/// Why a call of the log engine is refused (raft-engine's `Error`).
#[derive(Clone, Copy, Debug, PartialEq, Eq, thiserror::Error)]
pub enum Error {
    /// A call on files was refused, or found no space where no retry is left.
    #[error("I/O error: {0}")]
    Io(DiskRefusal),
    /// Bytes of a log file are none that were written there.
    #[error("corruption: {0}")]
    Corruption(CorruptionFault),
    #[error("invalid argument: {0}")]
    InvalidArgument(ArgumentFault),
    /// Two appends of one call found no space.
    #[error("no space left: try again later")]
    TryAgain,
    #[error("out of memory")]
    Memory,
    #[error("{0}")]
    Other(OtherFault),
    /// The entry was removed by a compaction.
    #[error("the entry was compacted")]
    EntryCompacted,
    #[error("there is no such entry")]
    EntryNotFound,
}

impl Error {
    /// What a call answers whose second append met a fault. The first append that finds no space
    /// is tried once more after a rotation, whose header is part of the second append. So want of
    /// space is `TryAgain` there; any other fault is as everywhere.
    pub fn of_second_append(fault: IoFault) -> Error
        ensures { result ≡ second_append_error fault }
    {
        match fault {
            IoFault::NoSpace => Error::TryAgain,
            fault => Error::from(fault),
        }
    }

    /// The number that each kind of refusal has in scripts and logs, from 1 to 8.
    pub fn number(&self) -> u8
        ensures { result ≡ number_of self.now }
    {
        match self {
            Error::Io(_) => 1,
            Error::Corruption(_) => 2,
            Error::InvalidArgument(_) => 3,
            Error::TryAgain => 4,
            Error::Memory => 5,
            Error::Other(_) => 6,
            Error::EntryCompacted => 7,
            Error::EntryNotFound => 8,
        }
    }
}

impl From<AllocError> for Error {
    ghost from_gives = { λ _ e. e ≡ Memory };

    fn from(_e: AllocError) -> Error {
        Error::Memory
    }
}

impl<T: Drop> From<AllocFailed<T>> for Error {
    ghost from_gives = { λ _ e. e ≡ Memory };

    fn from(_e: AllocFailed<T>) -> Error {
        Error::Memory
    }
}

impl From<IoFault> for Error {
    ghost from_gives = { λ fault e. e ≡ io_error fault };

    fn from(fault: IoFault) -> Error {
        match fault {
            IoFault::Memory => Error::Memory,
            IoFault::Refused => Error::Io(DiskRefusal::Refused),
            IoFault::NoSpace => Error::Io(DiskRefusal::NoSpace),
            IoFault::NotFound => Error::Other(OtherFault::FileGone),
        }
    }
}

impl From<HeaderFault> for Error {
    ghost use Rattle.raft_log_files.specs.declared.error.Error.TheVariants.{Corruption};
    ghost use Rattle.raft_log_files.specs.declared.error.CorruptionFault.TheVariants.{Header};

    ghost from_gives = { λ fault e. e ≡ Corruption (Header fault) };

    fn from(fault: HeaderFault) -> Error {
        Error::Corruption(CorruptionFault::Header(fault))
    }
}
