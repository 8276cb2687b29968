//! Why a node, its groups and its cluster don't do what they are asked for.

use crate::texts::print_texts;
use raft_cluster_events::{CrashRefusal, NodeError, NodeRefusal, Sequence, Stop, StopCause};
use raft_framed_groups::AnswerError;
use raft_groups::GroupsFault;
use raft_log_engine::EngineFault;
use raft_machines::MembershipFault;
use raft_member::Broken;
use raft_node_faults::{Cause, Fault};
use raft_store::{StoreFault, StoreRefusal};
use raft_wire::{FrameError, FrameFault};
use std::alloc::{AllocError, Global};
use std::io;

// Why the storage of a node on files fails.
type Storage = StoreFault<EngineFault>;

const LOG_STOPPED: Storage = StoreFault::Log(EngineFault::Stopped);

fn print_groups(rt: &impl Print) -> io::Result<()> {
    print_texts(
        rt,
        "StoreFault",
        &[LOG_STOPPED, StoreFault::Refused(StoreRefusal::Gap)],
    )?;
    print_texts(
        rt,
        "Broken",
        &[Broken::Unjudged(AllocError), Broken::Begun(LOG_STOPPED)],
    )?;
    print_texts(
        rt,
        "GroupsFault",
        &[
            GroupsFault::Failed,
            GroupsFault::UnknownGroup,
            GroupsFault::GroupExists,
            GroupsFault::Stopped(Broken::Begun(LOG_STOPPED)),
        ],
    )?;
    print_texts(
        rt,
        "AnswerError",
        &[
            AnswerError::Stream(FrameError::Fault(FrameFault::BadKind)),
            AnswerError::WrongParty,
            AnswerError::Groups(GroupsFault::Stopped(Broken::Begun(LOG_STOPPED))),
            AnswerError::Unsent(FrameError::Fault(FrameFault::TooLong)),
        ],
    )
}

fn print_causes(rt: &impl Print) -> io::Result<()> {
    print_texts(
        rt,
        "Cause",
        &[
            Cause::Memory,
            Cause::Unjudged,
            Cause::Storage(LOG_STOPPED),
            Cause::Frame(FrameError::Fault(FrameFault::TooLong)),
        ],
    )
}

fn print_faults(rt: &impl Print, alloc: Global) -> io::Result<()> {
    let faults: [Fault<Storage>; 16] = [
        Fault::NotLeader { leader: Some(3) },
        Fault::UnknownGroup,
        Fault::GroupExists,
        Fault::NotAllowed,
        Fault::NotVoter,
        Fault::Membership {
            why: Some(MembershipFault::NoGroup),
        },
        Fault::VoterChange,
        Fault::InProgress,
        Fault::CommandTooLong,
        Fault::NumberAtEnd,
        Fault::Failed,
        Fault::WrongParty,
        Fault::TooMuchForBatch,
        Fault::BreaksCondition,
        Fault::Frame(FrameError::Fault(FrameFault::CutShort)),
        Fault::Stopped {
            cause: Cause::Storage(LOG_STOPPED),
            unknown: Vec::new(alloc),
        },
    ];
    print_texts(rt, "Fault", &faults)
}

fn print_refusals(rt: &impl Print) -> io::Result<()> {
    print_texts(
        rt,
        "NodeRefusal",
        &[
            NodeRefusal::NotLeader { leader: None },
            NodeRefusal::UnknownGroup,
            NodeRefusal::GroupExists,
            NodeRefusal::NotAllowed,
            NodeRefusal::NotVoter,
            NodeRefusal::Membership { why: None },
            NodeRefusal::VoterChange,
            NodeRefusal::InProgress,
            NodeRefusal::CommandTooLong,
            NodeRefusal::NumberAtEnd,
            NodeRefusal::Failed,
            NodeRefusal::WrongParty,
            NodeRefusal::TooMuchForBatch,
            NodeRefusal::BreaksCondition,
            NodeRefusal::Frame,
        ],
    )?;
    print_texts(
        rt,
        "CrashRefusal",
        &[
            CrashRefusal::NotAnImage,
            CrashRefusal::ByChance,
            CrashRefusal::Memory,
        ],
    )
}

fn print_stops(rt: &impl Print, alloc: Global) -> io::Result<()> {
    print_texts(
        rt,
        "StopCause",
        &[
            StopCause::Io,
            StopCause::TryAgain,
            StopCause::Memory,
            StopCause::TooLong,
            StopCause::Other,
        ],
    )?;
    let stop = Stop {
        cause: StopCause::TryAgain,
        unsaid: None,
        unknown: Sequence::new(alloc),
    };
    print_texts(
        rt,
        "NodeError",
        &[
            NodeError::Refused(NodeRefusal::Failed),
            NodeError::Stopped(stop),
        ],
    )
}

pub fn print(rt: &impl Print, alloc: Global) -> io::Result<()> {
    print_groups(rt)?;
    print_causes(rt)?;
    print_faults(rt, alloc)?;
    print_refusals(rt)?;
    print_stops(rt, alloc)
}
