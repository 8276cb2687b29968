//! Why a line has no answer.
use std::alloc::{AllocError, AllocFailed};
use std::io;

/// Why a line has no answer.
#[derive(Debug, Drop)]
pub enum Fault {
    /// It isn't understood.
    Line,
    /// Memory is wanting: where an event was to be run, its node is down now.
    Memory,
    /// An event found no memory, and something else than its node has changed.
    Changed,
    /// An event that is asked for once more isn't run.
    Stuck,
    /// The input can't be read, or the output can't be written.
    Io,
}

impl From<AllocError> for Fault {
    fn from(_e: AllocError) -> Fault {
        Fault::Memory
    }
}

impl<T: Drop> From<AllocFailed<T>> for Fault {
    fn from(_e: AllocFailed<T>) -> Fault {
        Fault::Memory
    }
}

impl From<io::Error> for Fault {
    fn from(_e: io::Error) -> Fault {
        Fault::Io
    }
}
