//! Why bytes aren't read, or a value isn't written.
ghost use Rattle.std.specs.Prelude.{◌≡◌};
ghost use Rattle.raft_wire.specs.Numbers.{number_of, name_of};
ghost use Rattle.raft_wire.specs.declared.error.FrameError.TheVariants.{Memory};

use std::alloc::{AllocError, AllocFailed};
use thiserror::Error;

/// What is wrong with the bytes: the first fault from left to right (own).
#[derive(Clone, Copy, Debug, PartialEq, Eq, Error)]
pub enum FrameFault {
    /// A count or length is above its limit.
    #[error("a count or length is above its limit")]
    TooLong,
    /// The kind of a frame isn't one of 1 to 6.
    #[error("there is no frame of this kind")]
    BadKind,
    /// A tag, or a byte that is 0 or 1, has another value.
    #[error("a tag has a value that it can't have")]
    BadTag,
    /// An id isn't above the one before it, or a place doesn't follow the one before it.
    #[error("an id or a place is out of order")]
    NotRising,
    /// An address isn't UTF-8.
    #[error("an address isn't UTF-8")]
    NotUtf8,
    /// Bytes stand behind the value.
    #[error("bytes stand behind the value")]
    TrailingBytes,
    /// A field runs past the end.
    #[error("a field runs past the end")]
    CutShort,
}

/// A refusal of this crate, by number and name (own).
#[derive(Clone, Copy, Debug, PartialEq, Eq, Error)]
pub enum FrameError {
    /// 1 to 6 and 9: what is wrong with the bytes or the value.
    #[error(transparent)]
    Fault(FrameFault),
    /// 7: the stream failed before, and wasn't reset.
    #[error("the stream failed")]
    StreamFailed,
    /// 8: out of memory. Nothing is changed.
    #[error("out of memory")]
    Memory,
}

impl FrameError {
    /// The number that stays with this refusal.
    pub fn number(&self) -> u64
        ensures { result ≡ number_of self.now }
    {
        match self {
            FrameError::Fault(FrameFault::TooLong) => 1,
            FrameError::Fault(FrameFault::BadKind) => 2,
            FrameError::Fault(FrameFault::BadTag) => 3,
            FrameError::Fault(FrameFault::NotRising) => 4,
            FrameError::Fault(FrameFault::NotUtf8) => 5,
            FrameError::Fault(FrameFault::TrailingBytes) => 6,
            FrameError::StreamFailed => 7,
            FrameError::Memory => 8,
            FrameError::Fault(FrameFault::CutShort) => 9,
        }
    }

    /// The name that stays with this refusal.
    pub fn name(&self) -> &'static str
        ensures { result.now ≡ name_of self.now }
    {
        match self {
            FrameError::Fault(FrameFault::TooLong) => "TooLong",
            FrameError::Fault(FrameFault::BadKind) => "BadKind",
            FrameError::Fault(FrameFault::BadTag) => "BadTag",
            FrameError::Fault(FrameFault::NotRising) => "NotRising",
            FrameError::Fault(FrameFault::NotUtf8) => "NotUtf8",
            FrameError::Fault(FrameFault::TrailingBytes) => "TrailingBytes",
            FrameError::StreamFailed => "StreamFailed",
            FrameError::Memory => "Memory",
            FrameError::Fault(FrameFault::CutShort) => "CutShort",
        }
    }
}

impl From<AllocError> for FrameError {
    ghost from_gives = { λ _ e. e ≡ Memory };

    fn from(_e: AllocError) -> FrameError {
        FrameError::Memory
    }
}

impl<T: Drop> From<AllocFailed<T>> for FrameError {
    ghost from_gives = { λ _ e. e ≡ Memory };

    fn from(_e: AllocFailed<T>) -> FrameError {
        FrameError::Memory
    }
}
