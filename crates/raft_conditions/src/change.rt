//! What a change makes of a membership.
ghost use Rattle.std.specs.Prelude.{◌≡◌, ◌∷◌, [], IfOk, false, MatchOption, nat_eq, not};
ghost use Rattle.std.specs.Ordering.{nat_cmp};
ghost use Rattle.raft_quorums.specs.Nodes.{has_id};
ghost use Rattle.raft_quorums.specs.Rising.{IsRisingByFirst};
ghost use Rattle.raft_group_step.specs.Values.{after_change, is_valid};

use raft_state::{
    BasicNode, ChangeMembers, ChangeMembershipError, HasId, IdSet, Membership, NodeMap, VoterGroups,
};
use std::alloc::{AllocError, Global};

type Change = ChangeMembers<u64, BasicNode>;

// The ids that aren't in the set.
#[derive(Drop)]
struct Others<'a> {
    ids: &'a IdSet<u64>,
}

impl<'a> HasId<u64> for Others<'a> {
    ghost has = { λ s id. not (has_id nat_eq s.ids.now id) };

    fn has_id(&self, id: &u64) -> bool {
        !self.ids.contains(id)
    }
}

// The same nodes.
fn copied_nodes(
    alloc: Global,
    nodes: &[(u64, BasicNode)],
) -> Result<Vec<(u64, BasicNode)>, AllocError>
    ensures { IfOk result (λ copies. copies.items ≡ nodes.now) }
{
    let mut copies = Vec::new(alloc);
    for (id, node) in nodes {
        copies.push((*id, node.clone()?))?;
    }
    Ok(copies)
}

// The nodes of a membership that has no voter groups. All of them are learners, whose ids rise.
fn learners_of(
    alloc: Global,
    old: &Membership<u64, BasicNode>,
) -> Result<NodeMap<u64, BasicNode>, AllocError>
    requires { old.now.configs ≡ [] }
    ensures { IfOk result (λ nodes. nodes ≡ old.now.nodes) }
{
    let ids = old.learner_ids()?;
    let _rising = ids.as_slice();
    let nodes = copied_nodes(alloc, old.nodes())?;
    Ok(NodeMap::from_rising(nodes))
}

// The membership with this voter group alone.
fn with_one_group(
    alloc: Global,
    group: IdSet<u64>,
    nodes: NodeMap<u64, BasicNode>,
) -> Result<Membership<u64, BasicNode>, AllocError>
    ensures { IfOk result (λ m. m ≡ record { configs = group ∷ []; nodes = nodes }) }
{
    let mut groups = VoterGroups::new(alloc);
    groups.push(group)?;
    Ok(Membership::from_parts(groups, nodes))
}

// What a change makes of a membership that has no voter groups.
fn changed_without_groups(
    alloc: Global,
    nodes: NodeMap<u64, BasicNode>,
    change: &Change,
) -> Result<Membership<u64, BasicNode>, AllocError>
    ensures { IfOk result (λ new. new ≡ after_change (record { configs = []; nodes = nodes }) change.now) }
{
    let nobody = IdSet::new(alloc);
    let nodes = match change {
        ChangeMembers::AddVoterIds(ids) => {
            return with_one_group(alloc, nobody.with(ids.as_slice())?, nodes);
        }
        ChangeMembers::AddVoters(voters) => {
            let group = nobody.with(voters.ids()?.as_slice())?;
            return with_one_group(alloc, group, nodes.with_new_nodes(voters.as_slice())?);
        }
        ChangeMembers::RemoveVoters(_) => return with_one_group(alloc, nobody, nodes),
        ChangeMembers::ReplaceAllVoters(ids) => return with_one_group(alloc, ids.clone()?, nodes),
        ChangeMembers::AddNodes(more) => nodes.with_new_nodes(more.as_slice())?,
        ChangeMembers::SetNodes(more) => nodes.with_nodes(more.as_slice())?,
        ChangeMembers::RemoveNodes(ids) => nodes.filtered(&Others { ids })?,
        ChangeMembers::ReplaceAllNodes(others) => others.clone()?,
    };
    Ok(Membership::from_parts(VoterGroups::new(alloc), nodes))
}

// The same change.
fn copied_change(change: &Change) -> Result<Change, AllocError>
    ensures { IfOk result (λ copy. copy ≡ change.now) }
{
    Ok(match change {
        ChangeMembers::AddVoterIds(ids) => ChangeMembers::AddVoterIds(ids.clone()?),
        ChangeMembers::AddVoters(nodes) => ChangeMembers::AddVoters(nodes.clone()?),
        ChangeMembers::RemoveVoters(ids) => ChangeMembers::RemoveVoters(ids.clone()?),
        ChangeMembers::ReplaceAllVoters(ids) => ChangeMembers::ReplaceAllVoters(ids.clone()?),
        ChangeMembers::AddNodes(nodes) => ChangeMembers::AddNodes(nodes.clone()?),
        ChangeMembers::SetNodes(nodes) => ChangeMembers::SetNodes(nodes.clone()?),
        ChangeMembers::RemoveNodes(ids) => ChangeMembers::RemoveNodes(ids.clone()?),
        ChangeMembers::ReplaceAllNodes(nodes) => ChangeMembers::ReplaceAllNodes(nodes.clone()?),
    })
}

/// What the change makes of the membership (own): nothing where that wouldn't be valid. An error is
/// want of memory.
pub fn changed_membership(
    alloc: Global,
    old: &Membership<u64, BasicNode>,
    change: &Change,
) -> Result<Option<Membership<u64, BasicNode>>, AllocError>
    ensures { IfOk result (λ changed. MatchOption changed (is_valid (after_change old.now change.now) ≡ false) (λ new. new ≡ after_change old.now change.now)) }
{
    if old.get_joint_config().is_empty() {
        let new = changed_without_groups(alloc, learners_of(alloc, old)?, change)?;
        return Ok(Some(new));
    }
    match old.change(copied_change(change)?, true) {
        Ok(new) => Ok(Some(new)),
        Err(ChangeMembershipError::Memory(refused)) => Err(refused),
        Err(_) => Ok(None),
    }
}
