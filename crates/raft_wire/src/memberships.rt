//! Memberships, read from the front of bytes and written behind others.
ghost use Rattle.std.specs.Prelude.{◌≡◌, ◌++◌, ◌≤◌, ◌<◌, ◌^◌, ℕ, List, None, true, length, OnOk, All};
ghost use Rattle.raft_group_step.specs.Limits.{address_limit, node_limit, voter_group_limit, voter_limit};
ghost use Rattle.raft_group_step.specs.Values.{is_within_limits};
ghost use Rattle.raft_wire.specs.Reader.{Gives, many_at, counted_at};
ghost use Rattle.raft_wire.specs.Memberships.{id_above, that_id, ids_at, nothing_left, is_above, address_at};
ghost use Rattle.raft_wire.specs.Memberships.{node_above, that_node, membership_at};
ghost use Rattle.raft_wire.specs.Memberships.{spelled_list, spelled_ids, spelled_node, spelled_membership};
ghost use Rattle.raft_wire.specs.Memberships.{Chained, FitsIds, nothing_left, FitsAddress, FitsNode, FitsMembership};
ghost use Rattle.std.specs.Ordering.{nat_cmp};
ghost use Rattle.raft_quorums.specs.Rising.{IsRising, IsRisingByFirst};

use crate::error::{FrameError, FrameFault};
use crate::fields::{byte_of, count_of, piece_of, put_count, put_u64, u64_at};
use raft_messages::{MAX_NODES, MAX_VOTER_GROUPS, MAX_VOTERS};
use raft_state::{BasicNode, IdSet, Membership, NodeMap, VoterGroups};
use std::alloc::{AllocError, Global};

// Whether the id is above the one before it.
fn is_above(last: Option<u64>, id: u64) -> bool
    ensures { result ≡ is_above last id }
{
    match last {
        None => true,
        Some(last) => last < id,
    }
}

#[tactic(auto, unfolding(crate::specs::Memberships::id_above))]
fn id_of(last: Option<u64>, bytes: &[u8]) -> Result<(u64, &[u8]), FrameError>
    ensures { Gives (λ x. (x.0, x.1.now)) result (id_above last bytes.now) }
{
    let (id, rest) = u64_at(bytes)?;
    if !is_above(last, id) {
        return Err(FrameError::Fault(FrameFault::NotRising));
    }
    Ok((id, rest))
}

fn ids_behind(alloc: Global, count: u32, bytes: &[u8]) -> Result<(Vec<u64>, &[u8]), FrameError>
    ensures { Gives (λ x. (x.0.items, x.1.now)) result (many_at id_above that_id count None bytes.now) }
{
    let mut ids = Vec::new(alloc);
    let mut rest = bytes;
    let mut last = None;
    for _ in 0..count {
        let (id, after) = id_of(last, rest)?;
        ids.push(id)?;
        last = Some(id);
        rest = after;
    }
    Ok((ids, rest))
}

// A voter group: a count, and ids that rise.
#[tactic(auto, unfolding(crate::specs::Memberships::ids_at, crate::specs::Reader::counted_at))]
fn group_of(alloc: Global, bytes: &[u8]) -> Result<(IdSet<u64>, &[u8]), FrameError>
    ensures { Gives (λ x. (x.0, x.1.now)) result (ids_at bytes.now) }
{
    let (count, rest) = count_of(MAX_VOTERS, bytes)?;
    let (ids, rest) = ids_behind(alloc, count, rest)?;
    Ok((IdSet::from_rising(ids), rest))
}

fn groups_behind(
    alloc: Global,
    count: u32,
    bytes: &[u8],
) -> Result<(Vec<IdSet<u64>>, &[u8]), FrameError>
    ensures { Gives (λ x. (x.0.items, x.1.now)) result (many_at (λ _. ids_at) nothing_left count None bytes.now) }
{
    let mut groups = Vec::new(alloc);
    let mut rest = bytes;
    for _ in 0..count {
        let (group, after) = group_of(alloc, rest)?;
        groups.push(group)?;
        rest = after;
    }
    Ok((groups, rest))
}

#[tactic(auto, unfolding(crate::specs::Memberships::address_at))]
fn address_of(alloc: Global, bytes: &[u8]) -> Result<(BasicNode, &[u8]), FrameError>
    ensures { Gives (λ x. (x.0, x.1.now)) result (address_at bytes.now) }
{
    let (len, rest) = byte_of(bytes)?;
    let (address, rest) = piece_of(len as usize, rest)?;
    match str::from_utf8(address) {
        Ok(address) => Ok((BasicNode::new(alloc, address)?, rest)),
        Err(_) => Err(FrameError::Fault(FrameFault::NotUtf8)),
    }
}

#[tactic(auto, unfolding(crate::specs::Memberships::node_above))]
fn node_of(
    alloc: Global,
    last: Option<u64>,
    bytes: &[u8],
) -> Result<(u64, BasicNode, &[u8]), FrameError>
    ensures { Gives (λ x. ((x.0, x.1), x.2.now)) result (node_above last bytes.now) }
{
    let (id, rest) = id_of(last, bytes)?;
    let (node, rest) = address_of(alloc, rest)?;
    Ok((id, node, rest))
}

fn nodes_behind(
    alloc: Global,
    count: u32,
    bytes: &[u8],
) -> Result<(Vec<(u64, BasicNode)>, &[u8]), FrameError>
    ensures { Gives (λ x. (x.0.items, x.1.now)) result (many_at node_above that_node count None bytes.now) }
{
    let mut nodes = Vec::new(alloc);
    let mut rest = bytes;
    let mut last = None;
    for _ in 0..count {
        let (id, node, after) = node_of(alloc, last, rest)?;
        nodes.push((id, node))?;
        last = Some(id);
        rest = after;
    }
    Ok((nodes, rest))
}

#[tactic(auto, unfolding(crate::specs::Memberships::membership_at, crate::specs::Reader::counted_at))]
pub(crate) fn membership_of(
    alloc: Global,
    bytes: &[u8],
) -> Result<(Membership<u64, BasicNode>, &[u8]), FrameError>
    ensures { Gives (λ x. (x.0, x.1.now)) result (membership_at bytes.now) }
{
    let (count, rest) = count_of(MAX_VOTER_GROUPS, bytes)?;
    let (groups, rest) = groups_behind(alloc, count, rest)?;
    let (count, rest) = count_of(MAX_NODES, rest)?;
    let (nodes, rest) = nodes_behind(alloc, count, rest)?;
    let groups = VoterGroups::from(groups);
    let nodes = NodeMap::from_rising(nodes);
    Ok((Membership::from_parts(groups, nodes), rest))
}

// ---- writing

fn put_ids(out: &mut Vec<u8>, ids: &[u64]) -> Result<(), AllocError>
    requires count { length ids.now ≤ voter_limit }
    requires rising { IsRising nat_cmp ids.now }
    ensures items { OnOk result (out.new.items ≡ out.old.items ++ spelled_ids ids.now) }
    ensures fits { OnOk result (FitsIds ids.now) }
{
    put_count(out, ids.len())?;
    for id in ids {
        put_u64(out, *id)?;
    }
    Ok(())
}

fn put_groups(out: &mut Vec<u8>, groups: &[IdSet<u64>]) -> Result<(), AllocError>
    requires count { length groups.now ≤ voter_group_limit }
    requires each { All (λ group. length group ≤ voter_limit) groups.now }
    ensures items { OnOk result (out.new.items ≡ out.old.items ++ spelled_list spelled_ids groups.now) }
    ensures fits { OnOk result (Chained (λ _ ids. FitsIds ids) nothing_left None groups.now) }
{
    put_count(out, groups.len())?;
    for group in groups {
        put_ids(out, group.as_slice())?;
    }
    Ok(())
}

fn put_node(out: &mut Vec<u8>, id: u64, node: &BasicNode) -> Result<(), AllocError>
    requires { length node.now ≤ address_limit }
    ensures items { OnOk result (out.new.items ≡ out.old.items ++ spelled_node (id, node.now)) }
    ensures fits { OnOk result ((id < 2 ^ 64) × FitsAddress node.now) }
{
    let address = node.addr.as_str().as_bytes();
    put_u64(out, id)?;
    out.push(address.len() as u8)?;
    out.extend_from_slice(address)
}

fn put_nodes(out: &mut Vec<u8>, nodes: &[(u64, BasicNode)]) -> Result<(), AllocError>
    requires count { length nodes.now ≤ node_limit }
    requires each { All (λ (node : ℕ × List ℕ). length node.1 ≤ address_limit) nodes.now }
    requires rising { IsRisingByFirst nat_cmp nodes.now }
    ensures items { OnOk result (out.new.items ≡ out.old.items ++ spelled_list spelled_node nodes.now) }
    ensures fits { OnOk result (Chained FitsNode that_node None nodes.now) }
{
    put_count(out, nodes.len())?;
    for (id, node) in nodes {
        put_node(out, *id, node)?;
    }
    Ok(())
}

pub(crate) fn put_membership(
    out: &mut Vec<u8>,
    membership: &Membership<u64, BasicNode>,
) -> Result<(), AllocError>
    requires { is_within_limits membership.now ≡ true }
    ensures items { OnOk result (out.new.items ≡ out.old.items ++ spelled_membership membership.now) }
    ensures fits { OnOk result (FitsMembership membership.now) }
{
    put_groups(out, membership.get_joint_config())?;
    put_nodes(out, membership.nodes())
}
