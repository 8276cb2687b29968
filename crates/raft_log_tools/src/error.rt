//! Why a fork is refused.

ghost use Rattle.std.specs.Prelude.{◌≡◌};
ghost use Rattle.raft_log_files.specs.Error.{io_error};
ghost use Rattle.raft_log_files.specs.declared.error.Error.TheVariants.{Memory};
ghost use Rattle.raft_log_tools.specs.declared.error.ForkError.TheVariants.{Log};

use raft_log_files::{Error, IoFault};
use std::alloc::{AllocError, AllocFailed};

/// Why a fork is refused.
#[derive(Clone, Copy, Debug, PartialEq, Eq, thiserror::Error)]
pub enum ForkError {
    /// Files that are let go would be kept for reuse.
    #[error("enable_log_recycle should be false")]
    RecyclesFiles,
    /// An opening would cut away what may be whole in the source.
    #[error("recovery_mode shouldn't be TolerateAnyCorruption")]
    ToleratesAnyCorruption,
    /// The target has files already.
    #[error("the target has files")]
    TargetHasFiles,
    /// The settings are refused, memory is missing, or a call on files was refused.
    #[error("{0}")]
    Log(Error),
}

impl From<Error> for ForkError {
    ghost from_gives = { λ error e. e ≡ Log error };

    fn from(error: Error) -> ForkError {
        ForkError::Log(error)
    }
}

impl From<IoFault> for ForkError {
    ghost from_gives = { λ fault e. e ≡ Log (io_error fault) };

    fn from(fault: IoFault) -> ForkError {
        ForkError::Log(Error::from(fault))
    }
}

impl From<AllocError> for ForkError {
    ghost from_gives = { λ _ e. e ≡ Log Memory };

    fn from(_e: AllocError) -> ForkError {
        ForkError::Log(Error::Memory)
    }
}

impl<T: Drop> From<AllocFailed<T>> for ForkError {
    ghost from_gives = { λ _ e. e ≡ Log Memory };

    fn from(_e: AllocFailed<T>) -> ForkError {
        ForkError::Log(Error::Memory)
    }
}
