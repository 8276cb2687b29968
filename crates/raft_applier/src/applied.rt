//! How far a node has come with a group, and what an event brought.
ghost use Rattle.std.specs.Prelude.{◌≡◌, []};

use raft_machines::{Told, Untold};
use raft_state::{KeptVec, LogId, Vote};
use std::alloc::Global;

/// How far a node has come with a group, and who waits to be told (own).
#[derive(Drop)]
pub struct Applied {
    /// The log id of the last entry that the machine has run, if it has run one.
    pub last: Option<LogId<u64>>,
    /// The vote under which the node led when it was here last, if it did.
    pub lead: Option<Vote<u64>>,
    /// The tokens that wait, by rising place. Those that are told go from its front, and no others move.
    pub waiting: KeptVec<Untold>,
}

/// What became of tokens in an event (own).
#[derive(Drop)]
pub struct Progress {
    /// The tokens that are told, by rising place.
    pub told: Vec<Told>,
    /// The tokens that stay unknown, since the node's lead has ended.
    pub unknown: Vec<u64>,
}

impl Progress {
    // Nobody is told, and no token is unknown.
    pub(crate) fn none(alloc: Global) -> Progress
        ensures told { result.told.items ≡ [] }
        ensures unknown { result.unknown.items ≡ [] }
    {
        Progress {
            told: Vec::new(alloc),
            unknown: Vec::new(alloc),
        }
    }
}
