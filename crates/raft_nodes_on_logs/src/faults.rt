//! What a node refuses, as a cluster keeps it.
ghost use Rattle.std.specs.Prelude.{◌≡◌};
ghost use Rattle.raft_nodes_on_logs.specs.Answering.{cause_of, cause_of_store, error_of, stop_in, stop_of};

use raft_cluster_events::{NodeError, NodeRefusal, Sequence, Stop, StopCause};
use raft_machines::UnknownTokens;
use raft_node::{Cause, Fault};
use raft_node_logs::{NodeLog, quiet_stop};
use raft_store::{StoreFault, StoreRefusal};
use raft_wire::{FrameError, FrameFault};
use std::alloc::Global;

/// Why a node isn't done with a call, over a log that fails so.
pub type NodeFault<F> = Fault<StoreFault<F>>;

// Why its store stopped.
fn cause_of_store<L: NodeLog>(fault: StoreFault<L::Fault>) -> StopCause
    ensures { result ≡ cause_of_store L.cause fault }
{
    match fault {
        StoreFault::Log(fault) => L::cause_of(fault),
        StoreFault::Refused(StoreRefusal::Memory) => StopCause::Memory,
        StoreFault::Refused(StoreRefusal::TooLong) => StopCause::TooLong,
        // A machine's snapshot past the limit.
        StoreFault::Refused(StoreRefusal::Value(FrameFault::TooLong)) => StopCause::TooLong,
        StoreFault::Refused(_) => StopCause::Other,
    }
}

// Why it stopped.
fn cause_of<L: NodeLog>(cause: Cause<StoreFault<L::Fault>>) -> StopCause
    ensures { result ≡ cause_of L.cause cause }
{
    match cause {
        Cause::Memory | Cause::Unjudged | Cause::Frame(FrameError::Memory) => StopCause::Memory,
        Cause::Storage(fault) => cause_of_store::<L>(fault),
        Cause::Frame(_) => StopCause::TooLong,
    }
}

// A stop, with the tokens that waited, which are handed over.
fn stop_of<L: NodeLog>(cause: Cause<StoreFault<L::Fault>>, unknown: Vec<UnknownTokens>) -> Stop
    ensures { result ≡ stop_of L.cause cause unknown.items }
{
    Stop {
        cause: cause_of::<L>(cause),
        unsaid: None,
        unknown: Sequence::from_vec(unknown),
    }
}

/// Why a call isn't done.
pub fn error_of<L: NodeLog>(fault: NodeFault<L::Fault>) -> NodeError
    ensures { result ≡ error_of L.cause fault }
{
    NodeError::Refused(match fault {
        Fault::NotLeader { leader } => NodeRefusal::NotLeader { leader },
        Fault::UnknownGroup => NodeRefusal::UnknownGroup,
        Fault::GroupExists => NodeRefusal::GroupExists,
        Fault::NotAllowed => NodeRefusal::NotAllowed,
        Fault::NotVoter => NodeRefusal::NotVoter,
        Fault::Membership { why } => NodeRefusal::Membership { why },
        Fault::VoterChange => NodeRefusal::VoterChange,
        Fault::InProgress => NodeRefusal::InProgress,
        Fault::CommandTooLong => NodeRefusal::CommandTooLong,
        Fault::NumberAtEnd => NodeRefusal::NumberAtEnd,
        Fault::Failed => NodeRefusal::Failed,
        Fault::WrongParty => NodeRefusal::WrongParty,
        Fault::TooMuchForBatch => NodeRefusal::TooMuchForBatch,
        Fault::BreaksCondition => NodeRefusal::BreaksCondition,
        Fault::Frame(_) => NodeRefusal::Frame,
        Fault::Stopped { cause, unknown } => {
            return NodeError::Stopped(stop_of::<L>(cause, unknown));
        }
    })
}

/// The stop that a fault is; one that is none is a stop of another cause.
pub fn as_stop<L: NodeLog>(alloc: Global, fault: NodeFault<L::Fault>) -> Stop
    ensures { result ≡ stop_in L.cause fault }
{
    match fault {
        Fault::Stopped { cause, unknown } => stop_of::<L>(cause, unknown),
        _ => quiet_stop(alloc, StopCause::Other),
    }
}
