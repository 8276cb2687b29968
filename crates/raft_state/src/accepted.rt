//! What a node has accepted of a leader's log.
ghost use Rattle.std.specs.Prelude.{◌≡◌, None};
ghost use Rattle.std.specs.Option.{option_copied};
ghost use Rattle.raft_state.specs.State.{accepted_under};

use raft_values::log_id::LogId;
use raft_values::node::{NodeId, default_id};
use raft_values::vote::LeaderId;

/// The last log id that a node has accepted of a leader (openraft): the log up to it is known to be
/// the leader's, so it may be committed with the leader's commits.
#[derive(Clone, Copy, PartialEq, Eq)]
pub struct Accepted<NID> {
    leader_id: LeaderId<NID>,
    log_id: Option<LogId<NID>>,
}

impl<NID: NodeId> Accepted<NID> {
    /// This log id, accepted of this leader.
    pub fn new(leader_id: LeaderId<NID>, log_id: Option<LogId<NID>>) -> Accepted<NID>
        ensures { result ≡ record { leader_id = leader_id; log_id = log_id } }
    {
        Accepted { leader_id, log_id }
    }

    /// Nothing, accepted of the default leader.
    pub fn none() -> Accepted<NID>
        ensures { result ≡ record { leader_id = record { term = 0; node_id = NID.default_id }; log_id = None } }
    {
        Accepted::new(LeaderId::new(0, default_id()), None)
    }

    /// The last log id accepted of this leader; none of another one.
    pub fn last_accepted_log_id(&self, leader_id: &LeaderId<NID>) -> Option<&LogId<NID>>
        ensures { option_copied result ≡ accepted_under NID.eq self.now leader_id.now }
    {
        if self.leader_id == *leader_id {
            self.log_id.as_ref()
        } else {
            None
        }
    }
}
