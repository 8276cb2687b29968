//! What tells the requests of a leader apart.
use std::fmt::{self, Display};

/// Which request a message or its reply is about (openraft). Numbers rise by one for each peer
/// from 1.
#[derive(Clone, Copy, PartialEq, Eq)]
pub enum RequestId {
    /// A notice or heartbeat: the leader doesn't wait for its reply.
    HeartBeat,
    /// An append request that the leader waits for.
    AppendEntries {
        /// The number of the request.
        id: u64,
    },
    /// A snapshot that the leader waits for.
    Snapshot {
        /// The number of the request.
        id: u64,
    },
}

impl Display for RequestId {
    fn fmt<W: fmt::Write>(&self, f: &mut fmt::Formatter<W>) -> fmt::Result {
        match self {
            RequestId::HeartBeat => write!(f, "HeartBeat"),
            RequestId::AppendEntries { id } => write!(f, "AppendEntries({id})"),
            RequestId::Snapshot { id } => write!(f, "Snapshot({id})"),
        }
    }
}
