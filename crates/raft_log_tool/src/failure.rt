//! How the program ends.
ghost use Rattle.std.specs.Prelude.{◌≡◌, ◌⊎◌, ◌↔◌, IsTrue};
ghost use Rattle.raft_log_files.specs.declared.error.CorruptionFault.{CorruptionFault};
ghost use Rattle.raft_log_files.specs.declared.error.Error.TheVariants.{Corruption};
ghost use Rattle.raft_log_tool.specs.Status.{status_of, status_of_end};

use raft_log_files::{CorruptionFault, Error};
use raft_log_tools::ForkError;
use std::alloc::{AllocError, AllocFailed};
use std::io::{self, ErrorKind};

/// How the program ended where it did what it was asked for (own).
#[derive(Clone, Copy)]
pub enum End {
    Done,
    /// The check found a hole or a fault.
    Found,
}

/// Why it didn't (own).
#[derive(Debug, Drop, thiserror::Error)]
pub enum Failure {
    #[error("out of memory")]
    Memory,
    /// The system refused to read the directory or a file of it.
    #[error("can't be read: {0}")]
    Unreadable(io::Error),
    /// A call of the log was refused.
    #[error("can't be read: {0}")]
    Log(Error),
    /// Another process has it open.
    #[error("a node has the directory open")]
    InUse,
    #[error("the target isn't empty")]
    TargetNotEmpty,
    /// A copy would change the directory.
    #[error("the target lies in the directory")]
    TargetWithin,
    /// The system refused to make or to write the target.
    #[error("can't be written: {0}")]
    Unwritten(io::Error),
    /// A file of the copy would be cut where the mode doesn't say so.
    #[error("the mode refuses the fault of a file: {0}")]
    Refused(CorruptionFault),
    /// The system refused the output.
    #[error("the output can't be written: {0}")]
    Output(io::Error),
}

impl End {
    /// The exit status of the program.
    pub fn status(&self) -> u8
        ensures { result ≡ status_of_end self.now }
    {
        match self {
            End::Done => 0,
            End::Found => 1,
        }
    }
}

impl Failure {
    /// The exit status where the arguments are others.
    pub const ARGUMENTS: u8 = 4;

    /// The exit status of the program.
    pub fn status(&self) -> u8
        ensures { result ≡ status_of self.now }
    {
        match self {
            Failure::Memory => 2,
            Failure::Unreadable(_) | Failure::Log(_) => 3,
            Failure::TargetNotEmpty | Failure::TargetWithin | Failure::Unwritten(_) => 5,
            Failure::InUse => 6,
            Failure::Output(_) => 7,
            Failure::Refused(_) => 8,
        }
    }

    /// Whether it is about the target of a copy.
    pub fn is_of_target(&self) -> bool
        ensures { IsTrue result ↔ (status_of self.now ≡ 5) }
    {
        matches!(
            self,
            Failure::TargetNotEmpty | Failure::TargetWithin | Failure::Unwritten(_)
        )
    }

    /// Why a copy isn't repaired.
    pub fn of_repairing(why: Error) -> Failure
        ensures refused { (fault : CorruptionFault) → why ≡ Corruption fault → result ≡ Failure.Refused fault }
        ensures other { (result ≡ Failure.Memory) ⊎ (result ≡ Failure.Log why) ⊎ ((fault : CorruptionFault) × (why ≡ Corruption fault)) }
    {
        match why {
            Error::Corruption(fault) => Failure::Refused(fault),
            Error::Memory => Failure::Memory,
            other => Failure::Log(other),
        }
    }

    /// Why a directory isn't read.
    pub fn of_reading(why: io::Error) -> Failure
        ensures { (result ≡ Failure.Memory) ⊎ (result ≡ Failure.Unreadable why) }
    {
        if why.kind() == ErrorKind::OutOfMemory {
            Failure::Memory
        } else {
            Failure::Unreadable(why)
        }
    }

    /// Why a target isn't written.
    pub fn of_writing(why: io::Error) -> Failure
        ensures { (result ≡ Failure.Memory) ⊎ (result ≡ Failure.Unwritten why) }
    {
        if why.kind() == ErrorKind::OutOfMemory {
            Failure::Memory
        } else {
            Failure::Unwritten(why)
        }
    }
}

impl From<AllocError> for Failure {
    fn from(_: AllocError) -> Failure {
        Failure::Memory
    }
}

impl<T: Drop> From<AllocFailed<T>> for Failure {
    fn from(_: AllocFailed<T>) -> Failure {
        Failure::Memory
    }
}

impl From<Error> for Failure {
    fn from(why: Error) -> Failure {
        match why {
            Error::Memory => Failure::Memory,
            other => Failure::Log(other),
        }
    }
}

impl From<ForkError> for Failure {
    fn from(why: ForkError) -> Failure {
        match why {
            ForkError::Log(fault) => Failure::from(fault),
            // The settings of a fork are the defaults here, which refuse none.
            _ => Failure::TargetNotEmpty,
        }
    }
}
