//! Why a line is no event.
ghost use Rattle.std.specs.Prelude.{◌≡◌};

use std::alloc::AllocError;
use thiserror::Error;

/// Why a line is no event (own). Of several reasons the first of this list is told.
#[derive(Clone, Copy, Debug, PartialEq, Eq, Error)]
pub enum NoEvent {
    /// It has more than 65,536 bytes.
    #[error("too long")]
    TooLong,
    /// It is no UTF-8.
    #[error("not UTF-8")]
    NotUtf8,
    /// A space before the first word or after the last, or two spaces side by side.
    #[error("a space too many")]
    SpareSpace,
    /// No event begins with its first word, nor with the one that follows `fuse K`.
    #[error("unknown word")]
    UnknownWord,
    /// Words are missing, or there are too many.
    #[error("wrong count")]
    WrongCount,
    /// A word that has to be a number isn't one: decimal digits, below 2^64.
    #[error("not a number")]
    NotANumber,
    /// `nodes` and `kv` want 1 to 9, and `fuse` at least 1. A key has at most 255 bytes, a value at
    /// most 199, and a value isn't `-`.
    #[error("out of range")]
    OutOfRange,
    /// A list has an id twice.
    #[error("an id twice")]
    IdTwice,
    /// What a crash leaves is neither `least` nor `most`.
    #[error("unknown choice")]
    UnknownChoice,
}

/// Why a line wasn't read (own).
#[derive(Clone, Copy, Debug, PartialEq, Eq, Error)]
pub enum ReadLineError {
    /// It is no event.
    #[error("no event: {0}")]
    NoEvent(NoEvent),
    /// Memory was refused.
    #[error("no memory")]
    Memory,
}

impl From<NoEvent> for ReadLineError {
    ghost use Rattle.raft_script_lines.specs.declared.no_event.ReadLineError.TheVariants.{NoEvent as Why};

    ghost from_gives = { λ why error. error ≡ Why why };

    fn from(why: NoEvent) -> ReadLineError {
        ReadLineError::NoEvent(why)
    }
}

impl From<AllocError> for ReadLineError {
    ghost use Rattle.raft_script_lines.specs.declared.no_event.ReadLineError.TheVariants.{Memory};

    ghost from_gives = { λ _ error. error ≡ Memory };

    fn from(_: AllocError) -> ReadLineError {
        ReadLineError::Memory
    }
}
