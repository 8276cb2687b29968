//! Why a batch or its bytes are refused.

ghost use Rattle.std.specs.Prelude.{◌≡◌};
ghost use Rattle.raft_log_records.specs.declared.error.RecordError.TheVariants.{Memory, Corruption};
ghost use Rattle.raft_log_records.specs.declared.error.WriteError.TheVariants as write_error;
ghost use Rattle.raft_log_records.specs.Refusal.{number_of, record_error};

use std::alloc::{AllocError, AllocFailed};
use thiserror::Error;

/// What is wrong with the bytes of a record: the first fault that is met.
#[derive(Clone, Copy, Debug, PartialEq, Eq, Error)]
pub enum RecordFault {
    /// The bytes end before the record that they begin, or before the checksum of a block of
    /// entries: with more bytes it may be one.
    #[error("the bytes end before the record does")]
    CutShort,
    /// The items of the record end before a field that they must have: no further bytes help.
    #[error("the items end before a field that they must have")]
    ItemsCutShort,
    /// The length is one that no record has.
    #[error("no record has such a length")]
    BadLength,
    /// The items cannot begin where the header says.
    #[error("the items can't begin where the header says")]
    BadOffset,
    /// The checksum of the items is another one, or is signed for another file.
    #[error("the items have another checksum, or were signed for another file")]
    ItemsChecksum,
    /// A kind of item or of atomic mark that is none.
    #[error("a kind of item or of atomic mark that is none")]
    BadTag,
    /// Entries of an item whose indexes do not follow one another, or none at all.
    #[error("the indexes of an item's entries don't follow one another")]
    NotConsecutive,
    /// A key of no bytes.
    #[error("a key of no bytes")]
    EmptyKey,
    /// Bytes stand between the last item and the checksum.
    #[error("bytes stand between the last item and the checksum")]
    TrailingBytes,
    /// The block of entries does not have the length that its entries have together.
    #[error("the block of entries isn't as long as its entries are together")]
    EntriesLength,
    /// The checksum of the entries is another one.
    #[error("the entries have another checksum")]
    EntriesChecksum,
}

/// Why a batch is not changed, or its bytes are not read.
#[derive(Clone, Copy, Debug, PartialEq, Eq, Error)]
pub enum RecordError {
    #[error("out of memory")]
    Memory,
    /// The batch would have a record of more than 33,554,432 bytes, or a message is past a limit of
    /// its type.
    #[error("batch or message is longer than it may be")]
    TooLong,
    #[error("corrupt record: {0:?}")]
    Corruption(RecordFault),
}

impl RecordError {
    /// The number that each kind of refusal has, from 1 to 3.
    pub fn number(&self) -> u8
        ensures { result ≡ number_of self.now }
    {
        match self {
            RecordError::Memory => 1,
            RecordError::TooLong => 2,
            RecordError::Corruption(_) => 3,
        }
    }
}

impl From<RecordFault> for RecordError {
    ghost from_gives = { λ f e. e ≡ Corruption f };

    fn from(fault: RecordFault) -> RecordError {
        RecordError::Corruption(fault)
    }
}

impl From<AllocError> for RecordError {
    ghost from_gives = { λ _ e. e ≡ Memory };

    fn from(_e: AllocError) -> RecordError {
        RecordError::Memory
    }
}

impl<T: Drop> From<AllocFailed<T>> for RecordError {
    ghost from_gives = { λ _ e. e ≡ Memory };

    fn from(_e: AllocFailed<T>) -> RecordError {
        RecordError::Memory
    }
}

/// Why a message is not written (own).
#[derive(Clone, Copy, Debug, PartialEq, Eq, Error)]
pub enum WriteError {
    #[error("out of memory")]
    Memory,
    /// The message is past a limit of its type, so that no bytes stand for it.
    #[error("message is past a limit of its type")]
    TooLong,
}

impl From<AllocError> for WriteError {
    ghost from_gives = { λ _ e. e ≡ write_error.Memory };

    fn from(_e: AllocError) -> WriteError {
        WriteError::Memory
    }
}

impl<T: Drop> From<AllocFailed<T>> for WriteError {
    ghost from_gives = { λ _ e. e ≡ write_error.Memory };

    fn from(_e: AllocFailed<T>) -> WriteError {
        WriteError::Memory
    }
}

impl From<WriteError> for RecordError {
    ghost from_gives = { λ w e. e ≡ record_error w };

    fn from(error: WriteError) -> RecordError {
        match error {
            WriteError::Memory => RecordError::Memory,
            WriteError::TooLong => RecordError::TooLong,
        }
    }
}
