//! Voter groups.
ghost use Rattle.std.specs.Prelude.{◌≡◌, ◌++◌, ◌∷◌, ◌<◌, [], length, OnOk, OnErr, IfErr, IfOk};
ghost use Rattle.raft_quorums.specs.Quorum.{joint_ids, last_config, next_configs};
ghost use Rattle.std.specs.Cmp.Lexicographic.{pointwise, lists_per, lists_equiv};

use crate::coherent::next_children;
use crate::id_set::IdSet;
use crate::joint::insert_all;
use raft_values::node::NodeId;
use std::alloc::{AllocError, AllocFailed, Global};
use std::marker::Model;

/// The voter groups of a membership. Contracts see a list of groups, each the list of its ids.
#[derive(Debug, Drop)]
pub struct VoterGroups<NID: NodeId> {
    groups: Vec<IdSet<NID>>,
}

impl<NID: NodeId> Model for VoterGroups<NID> {
    ghost use Rattle.std.specs.Prelude.{List};

    ghost Value = { List (List NID) };

    ghost view = { λ s. s.groups.items };
}

// The ids of all these groups.
fn all_ids<NID: NodeId>(alloc: Global, groups: &[IdSet<NID>]) -> Result<IdSet<NID>, AllocError>
    ensures { IfOk result (λ ids. ids ≡ joint_ids NID.cmp (λ group. group) groups.now) }
{
    let mut ids = IdSet::new(alloc);
    for group in groups {
        insert_all(&mut ids, group.as_slice())?;
    }
    Ok(ids)
}

impl<NID: NodeId> VoterGroups<NID> {
    /// No groups.
    pub fn new(alloc: Global) -> VoterGroups<NID>
        ensures { result ≡ [] }
    {
        VoterGroups {
            groups: Vec::new(alloc),
        }
    }

    /// How many groups there are.
    pub fn len(&self) -> usize
        ensures { result ≡ length self.now }
    {
        self.groups.len()
    }

    /// The groups in their order.
    pub fn as_slice(&self) -> &[IdSet<NID>]
        ensures { result.now ≡ self.now }
    {
        self.groups.as_slice()
    }

    // What the groups take their memory from.
    fn allocator(&self) -> Global {
        *self.groups.allocator()
    }

    /// The last group (own).
    pub fn last(&self) -> &IdSet<NID>
        requires { 0 < length self.now }
        ensures { result.now ≡ last_config self.now }
    {
        let groups = self.as_slice();
        &groups[groups.len() - 1]
    }

    /// The ids of all groups, each once, rising (own).
    pub fn ids(&self) -> Result<IdSet<NID>, AllocError>
        ensures { IfOk result (λ ids. ids ≡ joint_ids NID.cmp (λ group. group) self.now) }
    {
        all_ids(self.allocator(), self.as_slice())
    }

    /// The groups one coherent step nearer to the goal: the goal alone where it is a group already, else beside the
    /// last one (own).
    pub fn next_towards(&self, goal: IdSet<NID>) -> Result<VoterGroups<NID>, AllocError>
        requires { 0 < length self.now }
        ensures { IfOk result (λ next. next ≡ next_configs (pointwise NID.eq) self.now goal) }
    {
        let groups = next_children(self.allocator(), self.as_slice(), goal)?;
        Ok(VoterGroups { groups })
    }

    /// Adds a group behind the others. Without memory the groups stay, and it comes back.
    pub fn push(&mut self, group: IdSet<NID>) -> Result<(), AllocFailed<IdSet<NID>>>
        ensures ok { OnOk result (self.new ≡ self.old ++ group ∷ []) }
        ensures err { OnErr result (self.new ≡ self.old) }
        ensures value_returned { IfErr result (λ e. e.value ≡ group) }
    {
        self.groups.push(group)
    }
}

#[tactic(auto, using(std::proofs::lemmas::Grind::common_steps))]
fn copy_groups<NID: NodeId>(
    alloc: Global,
    groups: &[IdSet<NID>],
) -> Result<Vec<IdSet<NID>>, AllocError>
    ensures { IfOk result (λ copies. copies.items ≡ groups.now) }
{
    let mut copies = Vec::new(alloc);
    for group in groups {
        copies.push(group.clone()?)?;
    }
    Ok(copies)
}

impl<NID: NodeId> Clone for VoterGroups<NID> {
    ghost is_clone = { λ x y. y ≡ x };

    fn clone(&self) -> Result<VoterGroups<NID>, AllocError> {
        Ok(VoterGroups {
            groups: copy_groups(*self.groups.allocator(), self.groups.as_slice())?,
        })
    }
}

impl<NID: NodeId> PartialEq for VoterGroups<NID> {
    ghost eq = { pointwise (pointwise NID.eq) };

    ghost laws = { lists_per (lists_per NID.PartialEq.laws) };

    fn eq(&self, other: &VoterGroups<NID>) -> bool {
        self.groups == other.groups
    }
}

impl<NID: NodeId> Eq for VoterGroups<NID> {
    ghost laws = { lists_equiv (lists_equiv NID.Eq.laws) };
}

impl<NID: NodeId> From<Vec<IdSet<NID>>> for VoterGroups<NID> {
    ghost from_gives = { λ groups made. made ≡ groups.items };

    fn from(groups: Vec<IdSet<NID>>) -> VoterGroups<NID> {
        VoterGroups { groups }
    }
}
