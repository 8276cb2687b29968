//! Copies of the first entries.
ghost use Rattle.std.specs.Prelude.{◌≡◌, ◌+◌, ◌-◌, ◌++◌, OnOk, length, take};

use crate::places::room_up_to;
use raft_messages::{GroupEntry, push_copies};
use std::alloc::AllocError;

// Copies of the entries behind the others, until the list goes up to the place.
pub(crate) fn push_up_to(
    to: &mut Vec<GroupEntry>,
    entries: &[GroupEntry],
    place: u64,
) -> Result<(), AllocError>
    ensures { OnOk result (to.new.items ≡ to.old.items ++ take (place + 1 - length to.old.items) entries.now) }
{
    let room = room_up_to(to.len(), place) as usize;
    push_copies(to, &entries[..room.min(entries.len())])
}
