//! Why a node on a directory isn't opened.

use raft_log_engine::EngineFault;
use raft_log_host::OpenError;
use raft_node::Fault;
use raft_store::StoreFault;
use std::alloc::AllocError;
use std::fmt::{self, Display};
use std::io;
use thiserror::Error;

/// Why a call of a node on a directory isn't done: of a node over files in memory, too.
pub type DiskFault = Fault<StoreFault<EngineFault>>;

/// Why the system refused a call of the files, if it did (own). Its text stands behind another one.
#[derive(Clone, Copy, Debug)]
pub struct SystemCause(pub Option<io::Error>);

impl Display for SystemCause {
    fn fmt<W: fmt::Write>(&self, f: &mut fmt::Formatter<W>) -> fmt::Result {
        match &self.0 {
            Some(why) => write!(f, ": {why}"),
            None => Ok(()),
        }
    }
}

/// Why a node on a directory isn't opened, by the layer that refused it (own).
#[derive(Debug, Drop, Error)]
pub enum NotOpenedDisk {
    /// The directory isn't opened, or there is no memory for its name.
    #[error("the directory isn't opened: {0}")]
    Directory(OpenError),
    /// The directory's log isn't opened.
    #[error("the log isn't opened: {fault}{cause}")]
    Log {
        /// Why.
        fault: EngineFault,
        /// Why the system refused a call, if it did.
        cause: SystemCause,
    },
    /// The log's groups aren't opened.
    #[error("a group isn't opened: {fault}{cause}")]
    Node {
        /// Why: `Stopped` (16).
        fault: DiskFault,
        /// Why the system refused a call, if it did.
        cause: SystemCause,
    },
}

impl From<AllocError> for NotOpenedDisk {
    ghost use Rattle.std.specs.Prelude.{◌≡◌};
    ghost use Rattle.raft_disk_node.specs.declared.fault.NotOpenedDisk.TheVariants.{Directory};
    ghost use Rattle.raft_log_host.specs.declared.opening.OpenError.TheVariants.{Memory};

    ghost from_gives = { λ _ e. e ≡ Directory Memory };

    fn from(_e: AllocError) -> NotOpenedDisk {
        NotOpenedDisk::Directory(OpenError::Memory)
    }
}

impl From<OpenError> for NotOpenedDisk {
    ghost use Rattle.std.specs.Prelude.{◌≡◌};
    ghost use Rattle.raft_disk_node.specs.declared.fault.NotOpenedDisk.TheVariants.{Directory};

    ghost from_gives = { λ error e. e ≡ Directory error };

    fn from(error: OpenError) -> NotOpenedDisk {
        NotOpenedDisk::Directory(error)
    }
}
