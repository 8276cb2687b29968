//! What is wrong with a group's values, its membership and what is known of its peers.

use crate::texts::print_texts;
use raft_engine::CallError;
use raft_progress::{InvalidProgress, ReplayError};
use raft_state::{
    BasicNode, ChangeMembershipError, EmptyMembership, ForwardToLeader, InProgress, Invalid,
    LackEntry, LearnerNotFound, NotAllowed, Vote,
};
use std::alloc::AllocError;
use std::io;

const IN_PROGRESS: InProgress<u64> = InProgress {
    committed: None,
    membership_log_id: None,
};

fn print_values(rt: &impl Print) -> io::Result<()> {
    print_texts(
        rt,
        "Invalid",
        &[
            Invalid::FirstLogId,
            Invalid::PurgedPastGoal,
            Invalid::PurgePastSnapshot,
            Invalid::PurgePastCommitted,
            Invalid::SnapshotPastCommitted,
            Invalid::CommittedPastLog,
            Invalid::CommittedMembership,
            Invalid::Range,
        ],
    )
}

fn print_memberships(rt: &impl Print) -> io::Result<()> {
    print_texts(
        rt,
        "ChangeMembershipError",
        &[
            ChangeMembershipError::InProgress(IN_PROGRESS),
            ChangeMembershipError::EmptyMembership(EmptyMembership {}),
            ChangeMembershipError::LearnerNotFound(LearnerNotFound { node_id: 4 }),
            ChangeMembershipError::Memory(AllocError),
        ],
    )
}

// The errors that are structs.
fn print_lone_errors(rt: &impl Print) -> io::Result<()> {
    let not_allowed = NotAllowed {
        last_log_id: None,
        vote: Vote::new(1, 2u64),
    };
    let lack_entry = LackEntry::<u64> {
        index: Some(3),
        last_purged_log_id: None,
    };
    print_texts(rt, "NotAllowed", &[not_allowed])?;
    print_texts(rt, "LackEntry", &[lack_entry])?;
    print_texts(
        rt,
        "ForwardToLeader",
        &[ForwardToLeader::<u64, BasicNode>::empty()],
    )
}

fn print_progress(rt: &impl Print) -> io::Result<()> {
    print_texts(
        rt,
        "InvalidProgress",
        &[
            InvalidProgress::MatchingPastSearch,
            InvalidProgress::Inflight(Invalid::Range),
            InvalidProgress::MatchingPastRequest,
            InvalidProgress::RequestPastSearch,
            InvalidProgress::SnapshotNotPastMatching,
        ],
    )?;
    print_texts(
        rt,
        "ReplayError",
        &[ReplayError::Lowers, ReplayError::Memory],
    )
}

fn print_engine(rt: &impl Print) -> io::Result<()> {
    print_texts(
        rt,
        "CallError",
        &[
            CallError::GapInEntries,
            CallError::LacksEntry,
            CallError::CutsCommitted,
            CallError::NotStanding,
            CallError::NotBuilding,
            CallError::OtherConfig,
        ],
    )
}

pub fn print(rt: &impl Print) -> io::Result<()> {
    print_values(rt)?;
    print_memberships(rt)?;
    print_lone_errors(rt)?;
    print_progress(rt)?;
    print_engine(rt)
}
