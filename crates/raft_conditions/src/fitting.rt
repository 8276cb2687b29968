//! Whether voter groups and nodes are valid and within the limits, told without making them.
ghost use Rattle.std.specs.Prelude.{◌≡◌, ◌+◌, ◌&&◌, ◌||◌, ◌==◌, count_by, length, nat_eq, not};
ghost use Rattle.std.specs.List.{list_all};
ghost use Rattle.std.specs.Ordering.{nat_cmp};
ghost use Rattle.raft_quorums.specs.Nodes.{has_id, has_node, with_new_nodes, with_nodes};
ghost use Rattle.raft_quorums.specs.Quorum.{last_config};
ghost use Rattle.raft_quorums.specs.Rising.{IsRising};
ghost use Rattle.raft_membership.specs.MembershipChange.{without_nodes};
ghost use Rattle.raft_group_step.specs.Limits.{are_few_nodes, is_short_address};
ghost use Rattle.raft_conditions.specs.Fitting.{are_fit_groups, are_fit_nodes, is_fit_group, is_last_fit};

use crate::goal::are_ids_in;
use raft_messages::{
    are_addresses_short, are_few_groups, are_few_nodes, are_few_voters, is_short_address,
};
use raft_state::{BasicNode, HasId, IdSet, Membership, NodeMap};

// The ids of the membership's nodes.
#[derive(Drop)]
pub(crate) struct Those<'a> {
    pub(crate) old: &'a Membership<u64, BasicNode>,
}

impl<'a> HasId<u64> for Those<'a> {
    ghost has = { λ s id. has_node nat_eq s.old.now.nodes id };

    fn has_id(&self, id: &u64) -> bool {
        has_node(self.old.nodes(), id)
    }
}

// The ids of the membership's nodes and of more.
#[derive(Drop)]
pub(crate) struct Either<'a> {
    pub(crate) old: &'a Membership<u64, BasicNode>,
    pub(crate) more: &'a NodeMap<u64, BasicNode>,
}

impl<'a> HasId<u64> for Either<'a> {
    ghost has = { λ s id. has_node nat_eq s.old.now.nodes id || has_node nat_eq s.more.now id };

    fn has_id(&self, id: &u64) -> bool {
        has_node(self.old.nodes(), id) || self.more.contains(id)
    }
}

// The ids of the membership's nodes that aren't in the set.
#[derive(Drop)]
pub(crate) struct But<'a> {
    pub(crate) old: &'a Membership<u64, BasicNode>,
    pub(crate) ids: &'a IdSet<u64>,
}

impl<'a> HasId<u64> for But<'a> {
    ghost has = { λ s id. has_node nat_eq s.old.now.nodes id && not (has_id nat_eq s.ids.now id) };

    fn has_id(&self, id: &u64) -> bool {
        has_node(self.old.nodes(), id) && !self.ids.contains(id)
    }
}

// Whether one of the nodes has the id.
fn has_node(nodes: &[(u64, BasicNode)], id: &u64) -> bool
    ensures { result ≡ has_node nat_eq nodes.now id.now }
{
    nodes.iter().any(|node| node.0 == *id)
}

// ---- voter groups

// Whether it can be a voter group where the nodes are these.
pub(crate) fn is_fit_group<S: HasId<u64>>(group: &[u64], nodes: &S) -> bool
    ensures { result ≡ is_fit_group (S.has nodes.now) group.now }
{
    !group.is_empty() && are_few_voters(group.len()) && are_ids_in(group, nodes)
}

// Whether each can be a voter group where the nodes are these.
fn is_each_fit<S: HasId<u64>>(groups: &[IdSet<u64>], nodes: &S) -> bool
    ensures { result ≡ list_all (is_fit_group (S.has nodes.now)) groups.now }
{
    groups
        .iter()
        .all(|group| is_fit_group(group.as_slice(), nodes))
}

// Whether these can be the voter groups where the nodes are these.
pub(crate) fn are_fit_groups<S: HasId<u64>>(groups: &[IdSet<u64>], nodes: &S) -> bool
    ensures { result ≡ are_fit_groups (S.has nodes.now) groups.now }
{
    are_few_groups(groups) && is_each_fit(groups, nodes)
}

// The ids of the last voter group; none where there is no group.
pub(crate) fn last_group(groups: &[IdSet<u64>]) -> &[u64]
    ensures is { result.now ≡ last_config groups.now }
    ensures rising { IsRising nat_cmp (last_config groups.now) }
{
    if groups.is_empty() {
        return &[];
    }
    groups[groups.len() - 1].as_slice()
}

// Whether the last voter group, if there is one, can be one where the nodes are these.
pub(crate) fn is_last_fit<S: HasId<u64>>(groups: &[IdSet<u64>], nodes: &S) -> bool
    ensures { result ≡ is_last_fit (S.has nodes.now) groups.now }
{
    groups.is_empty() || is_fit_group(last_group(groups), nodes)
}

// ---- nodes

// Whether all addresses are short but for those of nodes that are among the others.
fn are_short_or_among(nodes: &[(u64, BasicNode)], others: &[(u64, BasicNode)]) -> bool
    ensures { result ≡ list_all (λ x. has_node nat_eq others.now x.0 || is_short_address x.1) nodes.now }
{
    nodes.iter().all(|node| has_node(others, &node.0) || is_short_address(&node.1))
}

// Whether all addresses are short but for those of nodes with these ids.
fn are_short_or_gone(nodes: &[(u64, BasicNode)], ids: &IdSet<u64>) -> bool
    ensures { result ≡ list_all (λ x. has_id nat_eq ids.now x.0 || is_short_address x.1) nodes.now }
{
    nodes
        .iter()
        .all(|node| ids.contains(&node.0) || is_short_address(&node.1))
}

// How many of the others have ids that the nodes don't have.
fn count_new(nodes: &[(u64, BasicNode)], others: &[(u64, BasicNode)]) -> usize
    ensures { result ≡ count_by (λ x. not (has_node nat_eq nodes.now x.0)) others.now }
{
    others
        .iter()
        .filter(|other| !has_node(nodes, &other.0))
        .count()
}

// How many of the nodes have none of the ids.
fn count_left(nodes: &[(u64, BasicNode)], ids: &IdSet<u64>) -> usize
    ensures { result ≡ count_by (λ x. not (has_id nat_eq ids.now x.0)) nodes.now }
{
    nodes.iter().filter(|node| !ids.contains(&node.0)).count()
}

// Whether both together are few enough.
fn are_few(nodes: &[(u64, BasicNode)], others: &[(u64, BasicNode)]) -> bool
    ensures { result ≡ are_few_nodes (length nodes.now + count_by (λ x. not (has_node nat_eq nodes.now x.0)) others.now) }
{
    are_few_nodes(nodes.len().saturating_add(count_new(nodes, others)))
}

// Whether these nodes are within the limits.
pub(crate) fn are_fit_nodes(nodes: &[(u64, BasicNode)]) -> bool
    ensures { result ≡ are_fit_nodes nodes.now }
{
    are_few_nodes(nodes.len()) && are_addresses_short(nodes)
}

// Whether nodes are within the limits that have these and the new ones of the others.
fn are_few_and_short(nodes: &[(u64, BasicNode)], others: &[(u64, BasicNode)]) -> bool
    ensures { result ≡ (are_few_nodes (length nodes.now + count_by (λ x. not (has_node nat_eq nodes.now x.0)) others.now)
        && (list_all (λ x. is_short_address x.1) nodes.now && list_all (λ x. has_node nat_eq nodes.now x.0 || is_short_address x.1) others.now)) }
{
    are_few(nodes, others) && (are_addresses_short(nodes) && are_short_or_among(others, nodes))
}

// The same where the others take the place of those with their ids.
fn are_few_and_short_with(nodes: &[(u64, BasicNode)], others: &[(u64, BasicNode)]) -> bool
    ensures { result ≡ (are_few_nodes (length nodes.now + count_by (λ x. not (has_node nat_eq nodes.now x.0)) others.now)
        && (list_all (λ x. has_node nat_eq others.now x.0 || is_short_address x.1) nodes.now && list_all (λ x. is_short_address x.1) others.now)) }
{
    are_few(nodes, others) && (are_short_or_among(nodes, others) && are_addresses_short(others))
}

// Whether those that are left are few enough, and short.
fn are_left_short(nodes: &[(u64, BasicNode)], ids: &IdSet<u64>) -> bool
    ensures { result ≡ (are_few_nodes (count_by (λ x. not (has_id nat_eq ids.now x.0)) nodes.now)
        && list_all (λ x. has_id nat_eq ids.now x.0 || is_short_address x.1) nodes.now) }
{
    are_few_nodes(count_left(nodes, ids)) && are_short_or_gone(nodes, ids)
}

// Whether the membership's nodes are within the limits.
pub(crate) fn are_fit_now(old: &Membership<u64, BasicNode>) -> bool
    ensures { result ≡ are_fit_nodes old.now.nodes }
{
    are_fit_nodes(old.nodes())
}

// Whether its nodes are within the limits where more come in whose ids are new.
pub(crate) fn are_fit_with_new(
    old: &Membership<u64, BasicNode>,
    more: &NodeMap<u64, BasicNode>,
) -> bool
    ensures { result ≡ are_fit_nodes (with_new_nodes nat_eq nat_cmp old.now.nodes more.now) }
{
    are_few_and_short(old.nodes(), more.as_slice())
}

// Whether its nodes are within the limits where more come in, in place of those with their ids.
pub(crate) fn are_fit_with(old: &Membership<u64, BasicNode>, more: &NodeMap<u64, BasicNode>) -> bool
    ensures { result ≡ are_fit_nodes (with_nodes nat_cmp old.now.nodes more.now) }
{
    are_few_and_short_with(old.nodes(), more.as_slice())
}

// Whether its nodes are within the limits where those with these ids leave.
pub(crate) fn are_fit_without(old: &Membership<u64, BasicNode>, ids: &IdSet<u64>) -> bool
    ensures { result ≡ are_fit_nodes (without_nodes nat_eq old.now.nodes ids.now) }
{
    are_left_short(old.nodes(), ids)
}
