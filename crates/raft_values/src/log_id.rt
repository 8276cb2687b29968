//! Log ids: the leader that wrote an entry, and the entry's place.
ghost use Rattle.std.specs.Prelude.{◌≡◌};
ghost use Rattle.raft_values.specs.LogId.{log_id_cmp};

use crate::node::NodeId;
use crate::vote::CommittedLeaderId;
use std::cmp::Ordering;
use std::fmt::{self, Display};

/// The leader that wrote an entry, and the entry's place in the log (openraft).
/// Log ids are in the order of their leaders, then of their places.
#[derive(Clone, Copy, Debug, Default, PartialEq, Eq, PartialOrd, Ord)]
pub struct LogId<NID> {
    pub leader_id: CommittedLeaderId<NID>,
    pub index: u64,
}

impl<NID: NodeId> LogId<NID> {
    /// The log id of this leader at this place.
    pub fn new(leader_id: CommittedLeaderId<NID>, index: u64) -> LogId<NID>
        ensures { result ≡ record { leader_id = leader_id; index = index } }
    {
        LogId { leader_id, index }
    }

    /// The leader that wrote the entry.
    pub fn committed_leader_id(&self) -> &CommittedLeaderId<NID>
        ensures { result.now ≡ self.now.leader_id }
    {
        &self.leader_id
    }
}

impl<NID: NodeId> Display for LogId<NID> {
    fn fmt<W: fmt::Write>(&self, f: &mut fmt::Formatter<W>) -> fmt::Result {
        let leader_id = &self.leader_id;
        let index = self.index;
        write!(f, "{leader_id}-{index}")
    }
}

/// Log ids are ordered by their leaders, then by index.
pub fn log_ids_by_leader_and_index<NID: NodeId>(a: &LogId<NID>, b: &LogId<NID>) -> Ordering
    ensures order { ⟦<LogId<NID> as Ord>⟧.cmp a.now b.now ≡ log_id_cmp NID.cmp a.now b.now }
    ensures value { result ≡ log_id_cmp NID.cmp a.now b.now }
{
    a.cmp(b)
}
