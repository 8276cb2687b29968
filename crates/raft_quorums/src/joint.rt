//! Joint quorum sets: a quorum of each child at once.
ghost use Rattle.std.specs.Prelude.{◌≡◌, ◌<◌, Bool, List, [], length, true, IfOk, OnOk};
ghost use Rattle.std.specs.List.{list_all, list_any, fold};
ghost use Rattle.std.specs.BTreeSet.{insert_key};
ghost use Rattle.raft_quorums.specs.Quorum.{joint_ids, next_configs};
ghost use Rattle.raft_quorums.specs.QuorumLaws.{IsWithin, wider_joint};
ghost use Rattle.raft_quorums.specs.RisingLaws.{joint_ids_rise};

use crate::has_id::HasId;
use crate::id_set::IdSet;
use crate::quorum_set::QuorumSet;
use raft_values::node::NodeId;
use std::alloc::{AllocError, Global};
use std::marker::PhantomData;

/// Quorum sets of which each has to be met (openraft).
#[derive(Drop)]
pub struct Joint<ID, QS, D> {
    data: D,
    of: PhantomData<(ID, QS)>,
}

impl<ID, QS, D> Joint<ID, QS, D> {
    /// The joint of these quorum sets.
    pub fn new(children: D) -> Joint<ID, QS, D>
        ensures { result.data ≡ children }
    {
        Joint {
            data: children,
            of: PhantomData,
        }
    }

    /// The quorum sets.
    pub fn children(&self) -> &D
        ensures { result.now ≡ self.now.data }
    {
        &self.data
    }
}

impl<ID, QS> From<Vec<QS>> for Joint<ID, QS, Vec<QS>> {
    ghost from_gives = { λ children j. j.data ≡ children };

    fn from(children: Vec<QS>) -> Joint<ID, QS, Vec<QS>> {
        Joint::new(children)
    }
}

/// Whether the set is a quorum of each child (own).
pub fn all_accept<ID: NodeId, QS: QuorumSet<ID>, S: HasId<ID>>(children: &[QS], nodes: &S) -> bool
    ensures { result ≡ list_all (λ q. QS.accepts q (S.has nodes.now)) children.now }
{
    children.iter().all(|child| child.is_quorum(nodes))
}

// Takes all these ids in.
pub(crate) fn insert_all<ID: NodeId>(set: &mut IdSet<ID>, ids: &[ID]) -> Result<(), AllocError>
    ensures { OnOk result (set.new ≡ fold (insert_key ID.cmp) set.old ids.now) }
{
    for id in ids {
        set.insert(*id)?;
    }
    Ok(())
}

// The ids of all children.
fn all_ids<ID: NodeId, QS: QuorumSet<ID>>(
    alloc: Global,
    children: &[QS],
) -> Result<IdSet<ID>, AllocError>
    ensures { IfOk result (λ ids. ids ≡ joint_ids ID.cmp QS.members children.now) }
{
    let mut set = IdSet::new(alloc);
    for child in children {
        let ids = child.ids(alloc)?;
        insert_all(&mut set, ids.as_slice())?;
    }
    Ok(set)
}

impl<ID: NodeId, QS: QuorumSet<ID>> QuorumSet<ID> for Joint<ID, QS, Vec<QS>> {
    ghost accepts = { λ j p. list_all (λ q. QS.accepts q p) j.data.items };

    ghost members = { λ j. joint_ids ID.cmp QS.members j.data.items };

    fn is_quorum<S: HasId<ID>>(&self, nodes: &S) -> bool {
        all_accept(self.data.as_slice(), nodes)
    }

    fn ids(&self, alloc: Global) -> Result<IdSet<ID>, AllocError> {
        all_ids(alloc, self.data.as_slice())
    }

    ghost superset = { λ j p r wider h. wider_joint QS.accepts p r (λ q. QS.superset q p r wider) j.data.items h };

    ghost members_rise = { λ j. joint_ids_rise ID.total QS.members j.data.items };
}

impl<ID: NodeId, QS: QuorumSet<ID>> QuorumSet<ID> for Joint<ID, QS, &[QS]> {
    ghost accepts = { λ j p. list_all (λ q. QS.accepts q p) j.data.now };

    ghost members = { λ j. joint_ids ID.cmp QS.members j.data.now };

    fn is_quorum<S: HasId<ID>>(&self, nodes: &S) -> bool {
        all_accept(self.data, nodes)
    }

    fn ids(&self, alloc: Global) -> Result<IdSet<ID>, AllocError> {
        all_ids(alloc, self.data)
    }

    ghost superset = { λ j p r wider h. wider_joint QS.accepts p r (λ q. QS.superset q p r wider) j.data.now h };

    ghost members_rise = { λ j. joint_ids_rise ID.total QS.members j.data.now };
}

/// What stands for a list of quorum sets (openraft).
pub trait AsJoint<'d, ID, QS, D> {
    // Whether these are its quorum sets.
    ghost has_children: { Self → D → Type 0 };

    /// The joint of its quorum sets.
    fn as_joint(&'d self) -> Joint<ID, QS, D>
        ensures { has_children self.now result.data };
}

impl<'d, ID, QS> AsJoint<'d, ID, QS, &'d [QS]> for Vec<QS> {
    ghost has_children = { λ children shown. shown.now ≡ children.items };

    fn as_joint(&'d self) -> Joint<ID, QS, &'d [QS]> {
        Joint::new(self.as_slice())
    }
}
