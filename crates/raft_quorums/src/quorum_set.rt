//! Quorum sets: which sets of nodes are enough.
ghost use Rattle.std.specs.Prelude.{◌≡◌, Bool, List, true, IfOk};
ghost use Rattle.std.specs.List.{fold};
ghost use Rattle.std.specs.BTreeSet.{insert_key};
ghost use Rattle.raft_quorums.specs.Quorum.{is_majority, each_once, rising_ids};
ghost use Rattle.raft_quorums.specs.QuorumLaws.{IsWithin, wider_majority};
ghost use Rattle.raft_quorums.specs.Rising.{IsRising};
ghost use Rattle.raft_quorums.specs.RisingLaws.{rising_ids_rise};

use crate::has_id::HasId;
use crate::id_set::IdSet;
use raft_values::node::NodeId;
use std::alloc::{AllocError, Global};

/// Which sets of nodes are quorums (openraft; here a set is whatever answers for each id).
pub trait QuorumSet<ID: NodeId> {
    // Whether those who pass the test are a quorum.
    ghost accepts: { Self → (ID → Bool) → Bool };
    // All ids that count, rising.
    ghost members: { Self → List ID };

    /// Whether the nodes of the set are a quorum.
    fn is_quorum<S: HasId<ID>>(&self, nodes: &S) -> bool
        ensures { result ≡ accepts self.now (S.has nodes.now) };

    /// All ids that count.
    fn ids(&self, alloc: Global) -> Result<IdSet<ID>, AllocError>
        ensures { IfOk result (λ ids. ids ≡ members self.now) };

    // A superset of a quorum is a quorum.
    ghost superset: { (q : Self) (p r : ID → Bool) → IsWithin p r → accepts q p ≡ true → accepts q r ≡ true };
    // The ids rise, so each is there once.
    ghost members_rise: { (q : Self) → IsRising ID.cmp (members q) };
}

// Whether more than half of the group are in the set.
fn is_majority<ID: NodeId, S: HasId<ID>>(group: &[ID], nodes: &S) -> bool
    ensures { result ≡ is_majority (S.has nodes.now) group.now }
{
    let mut count = 0;
    for id in group {
        if nodes.has_id(id) {
            count += 1;
        }
    }
    group.len() - count < count
}

// Whether more than half of the ids are in the set, where an id that stands twice counts once.
fn is_majority_of_ids<ID: NodeId, S: HasId<ID>>(ids: &[ID], nodes: &S) -> bool
    ensures { result ≡ is_majority (S.has nodes.now) (each_once ID.eq ids.now) }
{
    let mut total = 0usize;
    let mut count = 0usize;
    for at in 0..ids.len() {
        let id = &ids[at];
        if ids[at + 1..].contains(id) {
            continue;
        }
        total += 1;
        if nodes.has_id(id) {
            count += 1;
        }
    }
    total - count < count
}

#[tactic(auto, using(crate::specs::RisingLaws::rising_ids_same))]
impl<ID: NodeId> QuorumSet<ID> for IdSet<ID> {
    ghost accepts = { λ ids p. is_majority p ids };

    ghost members = { rising_ids ID.cmp };

    fn is_quorum<S: HasId<ID>>(&self, nodes: &S) -> bool {
        is_majority(self.as_slice(), nodes)
    }

    fn ids(&self, _alloc: Global) -> Result<IdSet<ID>, AllocError> {
        self.clone()
    }

    ghost superset = { λ q p r wider h. wider_majority p r wider q h };

    ghost members_rise = { rising_ids_rise ID.total };
}

impl<ID: NodeId> QuorumSet<ID> for Vec<ID> {
    ghost accepts = { λ ids p. is_majority p (each_once ID.eq ids.items) };

    ghost members = { λ ids. rising_ids ID.cmp ids.items };

    fn is_quorum<S: HasId<ID>>(&self, nodes: &S) -> bool {
        is_majority_of_ids(self.as_slice(), nodes)
    }

    fn ids(&self, alloc: Global) -> Result<IdSet<ID>, AllocError> {
        IdSet::from_slice(alloc, self.as_slice())
    }

    ghost superset = { λ q p r wider h. wider_majority p r wider (each_once ID.eq q.items) h };

    ghost members_rise = { λ q. rising_ids_rise ID.total q.items };
}

impl<ID: NodeId> QuorumSet<ID> for &[ID] {
    ghost accepts = { λ ids p. is_majority p (each_once ID.eq ids.now) };

    ghost members = { λ ids. rising_ids ID.cmp ids.now };

    fn is_quorum<S: HasId<ID>>(&self, nodes: &S) -> bool {
        is_majority_of_ids(*self, nodes)
    }

    fn ids(&self, alloc: Global) -> Result<IdSet<ID>, AllocError> {
        IdSet::from_slice(alloc, *self)
    }

    ghost superset = { λ q p r wider h. wider_majority p r wider (each_once ID.eq q.now) h };

    ghost members_rise = { λ q. rising_ids_rise ID.total q.now };
}
