//! The voter group that a change asks for, seen without being made.
ghost use Rattle.std.specs.Prelude.{◌≡◌, count_by, length, map, nat_eq, not};
ghost use Rattle.std.specs.Ordering.{nat_cmp};
ghost use Rattle.std.specs.Cmp.Lexicographic.{pointwise};
ghost use Rattle.std.specs.List.{list_all};
ghost use Rattle.raft_quorums.specs.Nodes.{has_id};
ghost use Rattle.raft_quorums.specs.Rising.{IsRising};
ghost use Rattle.raft_membership.specs.MembershipChange.{without_ids};
ghost use Rattle.raft_conditions.specs.Fitting.{goal_of, ids_of};

use raft_membership::{are_ids_of, are_stayers};
use raft_state::{BasicNode, HasId, IdSet, NodeMap};

// Who is to come into a voter group.
#[derive(Clone, Copy)]
pub(crate) enum Newcomers<'a> {
    Ids(&'a IdSet<u64>),
    Nodes(&'a NodeMap<u64, BasicNode>),
}

// The voter group that a change asks for: just these, or those of a group who aren't among the
// leavers.
#[derive(Clone, Copy)]
pub(crate) enum Goal<'a> {
    Just(Newcomers<'a>),
    Stayers(&'a [u64], &'a IdSet<u64>),
}

// Whether the set has all the ids.
pub(crate) fn are_ids_in<S: HasId<u64>>(ids: &[u64], set: &S) -> bool
    ensures { result ≡ list_all (S.has set.now) ids.now }
{
    ids.iter().all(|id| set.has_id(id))
}

// Whether the set has the ids of all nodes.
fn are_nodes_in<S: HasId<u64>>(nodes: &[(u64, BasicNode)], set: &S) -> bool
    ensures { result ≡ list_all (S.has set.now) (map (λ x. x.0) nodes.now) }
{
    nodes.iter().map(|node| node.0).all(|id| set.has_id(&id))
}

// Whether the set has all who stay.
fn are_stayers_in<S: HasId<u64>>(group: &[u64], leavers: &IdSet<u64>, set: &S) -> bool
    ensures { result ≡ list_all (S.has set.now) (without_ids nat_eq group.now leavers.now) }
{
    group
        .iter()
        .copied()
        .filter(|id| !leavers.contains(id))
        .all(|id| set.has_id(&id))
}

// How many stay.
fn count_stayers(group: &[u64], leavers: &IdSet<u64>) -> usize
    ensures { result ≡ length (without_ids nat_eq group.now leavers.now) }
{
    group
        .iter()
        .copied()
        .filter(|id| !leavers.contains(id))
        .count()
}

// How many of the ids aren't in the group.
fn count_new_ids(ids: &[u64], group: &[u64]) -> usize
    ensures { result ≡ count_by (λ id. not (has_id nat_eq group.now id)) ids.now }
{
    ids.iter().filter(|id| !group.contains(*id)).count()
}

// How many of the nodes' ids aren't in the group.
fn count_new_nodes(nodes: &[(u64, BasicNode)], group: &[u64]) -> usize
    ensures { result ≡ count_by (λ x. not (has_id nat_eq group.now x.0)) nodes.now }
{
    nodes.iter().filter(|node| !group.contains(&node.0)).count()
}

impl<'a> Newcomers<'a> {
    // How many there are.
    fn len(&self) -> usize
        ensures { result ≡ length (ids_of self.now) }
    {
        match self {
            Newcomers::Ids(ids) => ids.len(),
            Newcomers::Nodes(nodes) => nodes.len(),
        }
    }

    // Their ids rise. The sets tell so by themselves: nothing is read.
    pub(crate) fn show_rising(&self)
        ensures { IsRising nat_cmp (ids_of self.now) }
    {
        match self {
            Newcomers::Ids(ids) => {
                let _ = ids.as_slice();
            }
            Newcomers::Nodes(nodes) => {
                let _ = nodes.as_slice();
            }
        }
    }

    // Whether the set has all of them.
    pub(crate) fn are_in<S: HasId<u64>>(&self, set: &S) -> bool
        ensures { result ≡ list_all (S.has set.now) (ids_of self.now) }
    {
        match self {
            Newcomers::Ids(ids) => are_ids_in(ids.as_slice(), set),
            Newcomers::Nodes(nodes) => are_nodes_in(nodes.as_slice(), set),
        }
    }

    // How many of them aren't in the group.
    pub(crate) fn count_new(&self, group: &[u64]) -> usize
        ensures { result ≡ count_by (λ id. not (has_id nat_eq group.now id)) (ids_of self.now) }
    {
        match self {
            Newcomers::Ids(ids) => count_new_ids(ids.as_slice(), group),
            Newcomers::Nodes(nodes) => count_new_nodes(nodes.as_slice(), group),
        }
    }

    // Whether the group has just their ids.
    fn are_group(&self, group: &[u64]) -> bool
        ensures { result ≡ pointwise nat_eq group.now (ids_of self.now) }
    {
        match self {
            Newcomers::Ids(ids) => group == ids.as_slice(),
            Newcomers::Nodes(nodes) => are_ids_of(group, nodes.as_slice()),
        }
    }
}

impl<'a> Goal<'a> {
    // How many voters it has.
    pub(crate) fn len(&self) -> usize
        ensures { result ≡ length (goal_of self.now) }
    {
        match self {
            Goal::Just(newcomers) => newcomers.len(),
            Goal::Stayers(group, leavers) => count_stayers(group, leavers),
        }
    }

    // Whether all of them are known.
    pub(crate) fn are_known<S: HasId<u64>>(&self, nodes: &S) -> bool
        ensures { result ≡ list_all (S.has nodes.now) (goal_of self.now) }
    {
        match self {
            Goal::Just(newcomers) => newcomers.are_in(nodes),
            Goal::Stayers(group, leavers) => are_stayers_in(group, leavers, nodes),
        }
    }

    // Whether the group has just its ids.
    pub(crate) fn is_group(&self, group: &[u64]) -> bool
        ensures { result ≡ pointwise nat_eq group.now (goal_of self.now) }
    {
        match self {
            Goal::Just(newcomers) => newcomers.are_group(group),
            Goal::Stayers(all, leavers) => are_stayers(group, all, leavers),
        }
    }
}
