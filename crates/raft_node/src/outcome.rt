//! What comes of a node's events.
ghost use Rattle.std.specs.Prelude.{◌≡◌, []};

use raft_framed_groups::GroupFrame;
use raft_machines::Told;
use raft_node_faults::Fault;
use std::alloc::Global;

/// What an event of a group at a node did (own): all that it stored is on the disk.
#[derive(Drop)]
pub struct Outcome {
    /// The group.
    pub group: u64,
    /// The frames that leave, in order.
    pub frames: Vec<GroupFrame>,
    /// The tokens that are told, by rising place, with the machine's answers.
    pub told: Vec<Told>,
    /// The tokens of which it stays unknown what becomes of their commands.
    pub unknown: Vec<u64>,
}

/// What a piece of a peer's stream did (own).
#[derive(Drop)]
pub struct Fed<F> {
    /// What each frame that got whole did, in order.
    pub outcomes: Vec<Outcome>,
    /// Why the rest of the piece isn't taken, if it isn't.
    pub fault: Option<Fault<F>>,
    /// How many bytes of the piece were taken, those of the frame that was refused among them.
    pub used: usize,
}

impl Outcome {
    // Nothing left, and nobody was told.
    pub(crate) fn nothing(alloc: Global, group: u64) -> Outcome
        ensures group { result.group ≡ group }
        ensures frames { result.frames.items ≡ [] }
        ensures told { result.told.items ≡ [] }
        ensures unknown { result.unknown.items ≡ [] }
    {
        Outcome {
            group,
            frames: Vec::new(alloc),
            told: Vec::new(alloc),
            unknown: Vec::new(alloc),
        }
    }
}
