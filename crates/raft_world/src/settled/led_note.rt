//! What is noted of a node that led.
ghost use Rattle.std.specs.Prelude.{◌≡◌, IfOk};
ghost use Rattle.raft_group_step.specs.StoredGroup.{held};
ghost use Rattle.raft_world.specs.Settled.{led_of};

use raft_messages::GroupEntry;
use raft_state::Vote;
use raft_stored_group::StoredGroup;
use std::alloc::AllocError;

// A note of a node that led at the end of an event: the node, its vote, and the list that it held.
#[derive(Drop)]
pub(crate) struct LedNote {
    pub(crate) node: u64,
    pub(crate) vote: Vote<u64>,
    pub(crate) list: Vec<GroupEntry>,
}

// The note of what the node has stored. It fails for want of memory alone.
pub(crate) fn note(node: u64, stored: &StoredGroup) -> Result<LedNote, AllocError>
    ensures { IfOk result (λ made. led_of made ≡ record { node = node; vote = stored.now.vote; list = held stored.now }) }
{
    Ok(LedNote {
        node,
        vote: stored.vote(),
        list: stored.held()?,
    })
}
