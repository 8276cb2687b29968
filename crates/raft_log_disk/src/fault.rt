//! Files by number, and why a call on them is refused.

ghost use Rattle.std.specs.Prelude.{◌≡◌};
ghost use Rattle.raft_log_disk.specs.declared.fault.IoFault.TheVariants.{Memory};

use std::alloc::{AllocError, AllocFailed};
use thiserror::Error;

/// The number of a file. It names the file until that is deleted, through renames too.
#[derive(Clone, Copy, Debug, PartialEq, Eq)]
pub struct Fd(pub u64);

/// What an opened file may be used for (raft-engine's `Permission`).
#[derive(Clone, Copy, Debug, PartialEq, Eq)]
pub enum Permission {
    ReadOnly,
    ReadWrite,
}

/// Why a call on files is refused.
#[derive(Clone, Copy, Debug, PartialEq, Eq, Error)]
pub enum IoFault {
    #[error("no such file or directory")]
    NotFound,
    #[error("no space left in the directory")]
    NoSpace,
    #[error("the call was refused")]
    Refused,
    #[error("out of memory")]
    Memory,
}

impl From<AllocError> for IoFault {
    ghost from_gives = { λ _ e. e ≡ Memory };

    fn from(_e: AllocError) -> IoFault {
        IoFault::Memory
    }
}

impl<T: Drop> From<AllocFailed<T>> for IoFault {
    ghost from_gives = { λ _ e. e ≡ Memory };

    fn from(_e: AllocFailed<T>) -> IoFault {
        IoFault::Memory
    }
}
