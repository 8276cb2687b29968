//! The ids of a membership's nodes.
ghost use Rattle.std.specs.Prelude.{◌≡◌, IfOk};
ghost use Rattle.raft_group_step.specs.Values.{member_ids, voter_ids};
ghost use Rattle.raft_known_state.specs.KnownState.{others};

use raft_state::{BasicNode, Membership};
use std::alloc::{AllocError, Global};

// The ids of all nodes but the own one, by rising id.
pub(crate) fn ids_of_others(
    alloc: Global,
    membership: &Membership<u64, BasicNode>,
    own: u64,
) -> Result<Vec<u64>, AllocError>
    ensures { IfOk result (λ ids. ids.items ≡ others own (member_ids membership.now)) }
{
    let mut ids = Vec::new(alloc);
    for (id, _) in membership.nodes() {
        if *id != own {
            ids.push(*id)?;
        }
    }
    Ok(ids)
}

// The ids of all voters but the own one, by rising id.
pub(crate) fn voters_of_others(
    alloc: Global,
    membership: &Membership<u64, BasicNode>,
    own: u64,
) -> Result<Vec<u64>, AllocError>
    ensures { IfOk result (λ ids. ids.items ≡ others own (voter_ids membership.now)) }
{
    let mut ids = Vec::new(alloc);
    for (id, _) in membership.nodes() {
        if *id != own && membership.is_voter(id) {
            ids.push(*id)?;
        }
    }
    Ok(ids)
}
