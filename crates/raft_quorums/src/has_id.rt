//! Sets of ids, asked id by id.
ghost use Rattle.std.specs.Prelude.{◌≡◌, Bool};
ghost use Rattle.raft_quorums.specs.Nodes.{has_id};

use crate::id_set::IdSet;
use raft_values::node::NodeId;

/// A set of ids, asked id by id (own).
pub trait HasId<ID> {
    // Whether the set has the id.
    ghost has: { Self → ID → Bool };

    /// Whether the set has the id.
    fn has_id(&self, id: &ID) -> bool
        ensures { result ≡ has self.now id.now };
}

impl<ID: NodeId> HasId<ID> for IdSet<ID> {
    ghost has = { has_id ID.eq };

    fn has_id(&self, id: &ID) -> bool {
        self.contains(id)
    }
}

impl<ID: NodeId> HasId<ID> for Vec<ID> {
    ghost has = { λ ids. has_id ID.eq ids.items };

    fn has_id(&self, id: &ID) -> bool {
        self.contains(id)
    }
}

impl<ID: NodeId> HasId<ID> for &[ID] {
    ghost has = { λ ids. has_id ID.eq ids.now };

    fn has_id(&self, id: &ID) -> bool {
        self.contains(id)
    }
}
