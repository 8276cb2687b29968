//! What is on its way to a peer.
ghost use Rattle.std.specs.Prelude.{◌≡◌, true, false, is_none, is_some};
ghost use Rattle.std.specs.Ordering.{is_lt};
ghost use Rattle.std.specs.Option.{option_cmp};
ghost use Rattle.raft_progress.specs.Faults.{inflight_fault};
ghost use Rattle.raft_progress.specs.Inflight.{has_request_id, is_snapshot, is_logs, request_id, rest_behind, under_id};

use raft_values::{Invalid, LogId, LogIdRange, NodeId, Validate};
use std::fmt::{self, Display};

/// What a leader has sent to a peer, until the peer answers (openraft).
#[derive(Clone, Copy, PartialEq, Eq)]
pub enum Inflight<NID> {
    /// Nothing.
    None,
    /// A request with the log ids of a range.
    Logs {
        /// The request's id.
        id: u64,
        /// The log ids that it brings.
        log_id_range: LogIdRange<NID>,
    },
    /// A request with a snapshot.
    Snapshot {
        /// The request's id.
        id: u64,
        /// The last log id in the snapshot.
        last_log_id: Option<LogId<NID>>,
    },
}

impl<NID: NodeId> Inflight<NID> {
    /// The log ids behind `prev` up to `last`, under the id 0; nothing where there are none
    /// (openraft).
    pub fn logs(prev: Option<LogId<NID>>, last: Option<LogId<NID>>) -> Inflight<NID>
        ensures some { is_lt (option_cmp ⟦<LogId<NID> as Ord>⟧.cmp prev last) ≡ true → result ≡ Inflight.Logs 0 (record { prev = prev; last = last }) }
        ensures none { is_lt (option_cmp ⟦<LogId<NID> as Ord>⟧.cmp prev last) ≡ false → result ≡ Inflight.None }
    {
        if prev < last {
            Inflight::Logs {
                id: 0,
                log_id_range: LogIdRange::new(prev, last),
            }
        } else {
            Inflight::None
        }
    }

    /// A snapshot up to this log id, under the id 0 (openraft).
    pub fn snapshot(snapshot_last_log_id: Option<LogId<NID>>) -> Inflight<NID>
        ensures { result ≡ Inflight.Snapshot 0 snapshot_last_log_id }
    {
        Inflight::Snapshot {
            id: 0,
            last_log_id: snapshot_last_log_id,
        }
    }

    /// The same under this id; nothing stays nothing (openraft).
    pub fn with_id(self, id: u64) -> Inflight<NID>
        ensures { result ≡ under_id self id }
    {
        match self {
            Inflight::None => Inflight::None,
            Inflight::Logs { log_id_range, .. } => Inflight::Logs { id, log_id_range },
            Inflight::Snapshot { last_log_id, .. } => Inflight::Snapshot { id, last_log_id },
        }
    }

    /// The request's id, if something is on its way (openraft).
    pub fn get_id(&self) -> Option<u64>
        ensures { result ≡ request_id self.now }
    {
        match self {
            Inflight::None => None,
            Inflight::Logs { id, .. } => Some(*id),
            Inflight::Snapshot { id, .. } => Some(*id),
        }
    }

    /// Whether something is on its way under this id (openraft).
    pub fn is_my_id(&self, request_id: u64) -> bool
        ensures { result ≡ has_request_id self.now request_id }
    {
        self.get_id() == Some(request_id)
    }

    /// Whether nothing is on its way (openraft).
    pub fn is_none(&self) -> bool
        ensures { result ≡ is_none (request_id self.now) }
    {
        self.get_id().is_none()
    }

    /// Whether log ids are on their way (openraft).
    pub fn is_sending_log(&self) -> bool
        ensures { result ≡ is_logs self.now }
    {
        matches!(self, Inflight::Logs { .. })
    }

    /// Whether a snapshot is on its way (openraft).
    pub fn is_sending_snapshot(&self) -> bool
        ensures { result ≡ is_snapshot self.now }
    {
        matches!(self, Inflight::Snapshot { .. })
    }

    // What is still on its way once the log ids up to this one have come.
    fn rest_behind(&self, upto: Option<LogId<NID>>) -> Inflight<NID>
        ensures { result ≡ rest_behind ⟦<LogId<NID> as Ord>⟧.cmp self.now upto }
    {
        match self {
            Inflight::Logs { id, log_id_range } => {
                Inflight::logs(upto, log_id_range.last).with_id(*id)
            }
            Inflight::None | Inflight::Snapshot { .. } => Inflight::None,
        }
    }

    /// The peer has accepted all up to this log id: what lies behind it in the request is still on
    /// its way. An answer to another request changes nothing (openraft).
    pub fn ack(&mut self, request_id: u64, upto: Option<LogId<NID>>)
        ensures mine { has_request_id self.old request_id ≡ true → self.new ≡ rest_behind ⟦<LogId<NID> as Ord>⟧.cmp self.old upto }
        ensures other { has_request_id self.old request_id ≡ false → self.new ≡ self.old }
    {
        if self.is_my_id(request_id) {
            *self = self.rest_behind(upto);
        }
    }

    /// The request is refused or lost: nothing is on its way any longer. An answer to another
    /// request changes nothing (openraft, which wants the place of the conflict too).
    pub fn conflict(&mut self, request_id: u64)
        ensures mine { has_request_id self.old request_id ≡ true → self.new ≡ Inflight.None }
        ensures other { has_request_id self.old request_id ≡ false → self.new ≡ self.old }
    {
        if self.is_my_id(request_id) {
            *self = Inflight::None;
        }
    }
}

/// Log ids that are on their way are a range in order.
impl<NID: NodeId> Validate<Invalid> for Inflight<NID> {
    ghost fault = { inflight_fault NID.cmp };

    fn validate(&self) -> Result<(), Invalid> {
        match self {
            Inflight::None | Inflight::Snapshot { .. } => Ok(()),
            Inflight::Logs { log_id_range, .. } => log_id_range.validate(),
        }
    }
}

impl<NID: NodeId> Display for Inflight<NID> {
    fn fmt<W: fmt::Write>(&self, f: &mut fmt::Formatter<W>) -> fmt::Result {
        match self {
            Inflight::None => write!(f, "None"),
            Inflight::Logs { id, log_id_range } => write!(f, "Logs(id={id}, {log_id_range})"),
            Inflight::Snapshot { id, last_log_id } => match last_log_id {
                None => write!(f, "Snapshot(id={id}, last=None)"),
                Some(last) => write!(f, "Snapshot(id={id}, last={last})"),
            },
        }
    }
}
