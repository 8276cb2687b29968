//! What a peer is sent.
ghost use Rattle.std.specs.Prelude.{◌≡◌};
ghost use Rattle.raft_commands.specs.declared.replicate.Data.TheVariants.{Heartbeat, Logs, Snapshot};
ghost use Rattle.raft_commands.specs.declared.replicate.Replicate.TheVariants.{Data as Sent};
ghost use Rattle.raft_commands.specs.Replicate.{has_payload, request_of};

use crate::shown::Shown;
use crate::type_config::RaftTypeConfig;
use raft_group_step::RequestId;
use raft_state::{LogId, LogIdRange};
use std::fmt::{self, Display};

/// Something under the number of a request (openraft).
#[derive(Clone, Copy, PartialEq, Eq)]
pub struct DataWithId<T> {
    /// The request.
    pub request_id: RequestId,
    /// What is in it.
    pub payload: T,
}

impl<T> DataWithId<T> {
    /// This under the number of this request.
    pub fn new(request_id: RequestId, content: T) -> DataWithId<T>
        ensures { result ≡ record { request_id = request_id; payload = content } }
    {
        DataWithId {
            request_id,
            payload: content,
        }
    }

    /// The request.
    pub fn request_id(&self) -> RequestId
        ensures { result ≡ self.now.request_id }
    {
        self.request_id
    }

    /// What is in it, lent.
    pub fn data(&self) -> &T
        ensures { result.now ≡ self.now.payload }
    {
        &self.payload
    }
}

/// What a request to a peer brings (openraft).
#[derive(Drop)]
pub enum Data<C: RaftTypeConfig> {
    /// Nothing.
    Heartbeat,
    /// The entries with these log ids.
    Logs(DataWithId<LogIdRange<C::NodeId>>),
    /// The snapshot up to this log id, which the runtime has (here in the place of a channel that
    /// brings it).
    Snapshot(DataWithId<Option<LogId<C::NodeId>>>),
}

impl<C: RaftTypeConfig> Data<C> {
    /// Nothing.
    pub fn new_heartbeat() -> Data<C>
        ensures { result ≡ Heartbeat }
    {
        Data::Heartbeat
    }

    /// The entries with these log ids, by this request.
    pub fn new_logs(request_id: RequestId, log_id_range: LogIdRange<C::NodeId>) -> Data<C>
        ensures { result ≡ Logs (record { request_id = request_id; payload = log_id_range }) }
    {
        Data::Logs(DataWithId::new(request_id, log_id_range))
    }

    /// The snapshot up to this log id, by this request.
    pub fn new_snapshot(request_id: RequestId, last_log_id: Option<LogId<C::NodeId>>) -> Data<C>
        ensures { result ≡ Snapshot (record { request_id = request_id; payload = last_log_id }) }
    {
        Data::Snapshot(DataWithId::new(request_id, last_log_id))
    }

    /// The request that brings it.
    pub fn request_id(&self) -> RequestId
        ensures { result ≡ request_of self.now }
    {
        match self {
            Data::Heartbeat => RequestId::HeartBeat,
            Data::Logs(logs) => logs.request_id(),
            Data::Snapshot(snapshot) => snapshot.request_id(),
        }
    }

    /// Whether it is more than a heartbeat.
    pub fn has_payload(&self) -> bool
        ensures { result ≡ has_payload self.now }
    {
        match self {
            Data::Heartbeat => false,
            Data::Logs(_) | Data::Snapshot(_) => true,
        }
    }
}

impl<C: RaftTypeConfig> Display for Data<C> {
    fn fmt<W: fmt::Write>(&self, f: &mut fmt::Formatter<W>) -> fmt::Result {
        match self {
            Data::Heartbeat => write!(f, "Heartbeat"),
            Data::Logs(logs) => {
                let id = logs.request_id;
                let range = logs.payload;
                write!(f, "Logs{{request_id: {id}, log_id_range: {range}}}")
            }
            Data::Snapshot(snapshot) => {
                let id = snapshot.request_id;
                write!(f, "Snapshot{{request_id: {id}}}")
            }
        }
    }
}

/// What the sender of a peer's requests is told (openraft).
#[derive(Drop)]
pub enum Replicate<C: RaftTypeConfig> {
    /// The peer is told how far is committed.
    Committed(Option<LogId<C::NodeId>>),
    /// The peer is sent a heartbeat.
    Heartbeat,
    /// The peer is sent this.
    Data(Data<C>),
}

impl<C: RaftTypeConfig> Replicate<C> {
    /// The peer is sent the entries with these log ids, by this request.
    pub fn logs(id: RequestId, log_id_range: LogIdRange<C::NodeId>) -> Replicate<C>
        ensures { result ≡ Sent (Logs (record { request_id = id; payload = log_id_range })) }
    {
        Replicate::Data(Data::new_logs(id, log_id_range))
    }

    /// The peer is sent the snapshot up to this log id, by this request.
    pub fn snapshot(id: RequestId, last_log_id: Option<LogId<C::NodeId>>) -> Replicate<C>
        ensures { result ≡ Sent (Snapshot (record { request_id = id; payload = last_log_id })) }
    {
        Replicate::Data(Data::new_snapshot(id, last_log_id))
    }

    /// The peer is sent this.
    pub fn new_data(content: Data<C>) -> Replicate<C>
        ensures { result ≡ Sent content }
    {
        Replicate::Data(content)
    }
}

impl<C: RaftTypeConfig> Display for Replicate<C> {
    fn fmt<W: fmt::Write>(&self, f: &mut fmt::Formatter<W>) -> fmt::Result {
        match self {
            Replicate::Committed(committed) => {
                let committed = Shown(*committed);
                write!(f, "Replicate::Committed: {committed}")
            }
            Replicate::Heartbeat => write!(f, "Replicate::Heartbeat"),
            Replicate::Data(data) => write!(f, "Replicate::Data({data})"),
        }
    }
}
