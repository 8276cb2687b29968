//! What has really been written and applied.
ghost use Rattle.std.specs.Prelude.{◌≡◌, false};
ghost use Rattle.std.specs.Option.{option_copied};

use crate::log_id::LogId;
use crate::node::NodeId;
use crate::vote::{CommittedLeaderId, Vote};
use std::fmt::{self, Display};

/// How far the log of one leader is written (openraft).
#[derive(Clone, Copy, Debug, Default, PartialEq, Eq)]
pub struct LogIOId<NID> {
    pub committed_leader_id: CommittedLeaderId<NID>,
    pub log_id: Option<LogId<NID>>,
}

impl<NID: NodeId> LogIOId<NID> {
    /// The log of this leader, written up to this log id.
    pub fn new(
        committed_leader_id: CommittedLeaderId<NID>,
        log_id: Option<LogId<NID>>,
    ) -> LogIOId<NID>
        ensures { result ≡ record { committed_leader_id = committed_leader_id; log_id = log_id } }
    {
        LogIOId {
            committed_leader_id,
            log_id,
        }
    }
}

impl<NID: NodeId> Display for LogIOId<NID> {
    fn fmt<W: fmt::Write>(&self, f: &mut fmt::Formatter<W>) -> fmt::Result {
        let leader = &self.committed_leader_id;
        match self.log_id {
            None => write!(f, "by:{leader}, None"),
            Some(log_id) => write!(f, "by:{leader}, {log_id}"),
        }
    }
}

/// What has really been written, applied and purged, where `RaftState` tells what was asked for
/// (openraft).
#[derive(Clone, Copy, Debug, Default, PartialEq, Eq)]
pub struct IOState<NID> {
    pub building_snapshot: bool,
    pub vote: Vote<NID>,
    pub flushed: LogIOId<NID>,
    pub applied: Option<LogId<NID>>,
    pub snapshot: Option<LogId<NID>>,
    pub purged: Option<LogId<NID>>,
}

impl<NID: NodeId> IOState<NID> {
    /// The state after a start, while no snapshot is built.
    pub fn new(
        vote: Vote<NID>,
        flushed: LogIOId<NID>,
        applied: Option<LogId<NID>>,
        snapshot: Option<LogId<NID>>,
        purged: Option<LogId<NID>>,
    ) -> IOState<NID>
        ensures building { result.building_snapshot ≡ false }
        ensures vote { result.vote ≡ vote }
        ensures flushed { result.flushed ≡ flushed }
        ensures applied { result.applied ≡ applied }
        ensures snapshot { result.snapshot ≡ snapshot }
        ensures purged { result.purged ≡ purged }
    {
        IOState {
            building_snapshot: false,
            vote,
            flushed,
            applied,
            snapshot,
            purged,
        }
    }

    /// Notes the vote that was written.
    pub fn update_vote(&mut self, vote: Vote<NID>)
        ensures { self.new ≡ record self.old { vote = vote } }
    {
        self.vote = vote;
    }

    /// Notes how far the log is written.
    pub fn update_flushed(&mut self, flushed: LogIOId<NID>)
        ensures { self.new ≡ record self.old { flushed = flushed } }
    {
        self.flushed = flushed;
    }

    /// Notes the last log id that was applied.
    pub fn update_applied(&mut self, log_id: Option<LogId<NID>>)
        ensures { self.new ≡ record self.old { applied = log_id } }
    {
        self.applied = log_id;
    }

    /// The last log id that was applied.
    pub fn applied(&self) -> Option<&LogId<NID>>
        ensures { option_copied result ≡ self.now.applied }
    {
        self.applied.as_ref()
    }

    /// Notes the last log id of the snapshot that was written.
    pub fn update_snapshot(&mut self, log_id: Option<LogId<NID>>)
        ensures { self.new ≡ record self.old { snapshot = log_id } }
    {
        self.snapshot = log_id;
    }

    /// The last log id of the snapshot that was written.
    pub fn snapshot(&self) -> Option<&LogId<NID>>
        ensures { option_copied result ≡ self.now.snapshot }
    {
        self.snapshot.as_ref()
    }

    /// Notes whether a snapshot is being built.
    pub fn set_building_snapshot(&mut self, building: bool)
        ensures { self.new ≡ record self.old { building_snapshot = building } }
    {
        self.building_snapshot = building;
    }

    /// Whether a snapshot is being built.
    pub fn building_snapshot(&self) -> bool
        ensures { result ≡ self.now.building_snapshot }
    {
        self.building_snapshot
    }

    /// Notes the last log id that was purged.
    pub fn update_purged(&mut self, log_id: Option<LogId<NID>>)
        ensures { self.new ≡ record self.old { purged = log_id } }
    {
        self.purged = log_id;
    }

    /// The last log id that was purged.
    pub fn purged(&self) -> Option<&LogId<NID>>
        ensures { option_copied result ≡ self.now.purged }
    {
        self.purged.as_ref()
    }
}
