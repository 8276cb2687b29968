//! Why a call of the engine is refused.
ghost use Rattle.std.specs.Prelude.{◌≡◌};
ghost use Rattle.raft_log_engine.specs.declared.fault.EngineFault.TheVariants.{Log};
ghost use Rattle.raft_log_engine.specs.Reads.{number_of};
ghost use Rattle.raft_log_files.specs.declared.error.Error.TheVariants.{Memory};

use raft_log_files::Error;
use std::alloc::{AllocError, AllocFailed};
use thiserror::Error as ThisError;

/// Why a call of the engine is refused (own). Want of memory is `Log` of it.
#[derive(Clone, Copy, Debug, PartialEq, Eq, ThisError)]
pub enum EngineFault {
    /// A refusal of raft-engine's.
    #[error("{0}")]
    Log(Error),
    /// A batch's entries begin past the end of their group's list, or before it.
    #[error("the entries don't fit the group's list")]
    NotTaken,
    /// A batch is marked as a part of an atomic group, of which only cleaning makes any: one that is
    /// to be written, or one of the append queue where the log is to be cleaned.
    #[error("the batch belongs to an atomic group")]
    Marked,
    /// A value is no message of the type that is asked for.
    #[error("the value is no such message")]
    NotAMessage,
    /// A write failed before: the files are to be opened again.
    #[error("a write failed before")]
    Stopped,
}

impl EngineFault {
    /// The number that each kind of refusal has in scripts and logs (that of raft-engine's `Error`):
    /// a batch that isn't taken is an invalid argument, 3, a value that is no message is corrupt, 2,
    /// and a stopped engine answers as for other causes, 6.
    pub fn number(&self) -> u8
        ensures { result ≡ number_of self.now }
    {
        match self {
            EngineFault::Log(error) => error.number(),
            EngineFault::NotAMessage => 2,
            EngineFault::NotTaken | EngineFault::Marked => 3,
            EngineFault::Stopped => 6,
        }
    }
}

impl From<AllocError> for EngineFault {
    ghost from_gives = { λ _ e. e ≡ Log Memory };

    fn from(_e: AllocError) -> EngineFault {
        EngineFault::Log(Error::Memory)
    }
}

impl<T: Drop> From<AllocFailed<T>> for EngineFault {
    ghost from_gives = { λ _ e. e ≡ Log Memory };

    fn from(_e: AllocFailed<T>) -> EngineFault {
        EngineFault::Log(Error::Memory)
    }
}

impl From<Error> for EngineFault {
    ghost from_gives = { λ error e. e ≡ Log error };

    fn from(error: Error) -> EngineFault {
        EngineFault::Log(error)
    }
}
