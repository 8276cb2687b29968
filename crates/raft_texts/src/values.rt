//! Values of which something is missing, and what is on its way to a peer.

use crate::texts::print_texts;
use raft_leaders::Candidate;
use raft_progress::Inflight;
use raft_state::{IdSet, LeaderId, LogIOId, LogId, LogIdRange, Vote};
use std::alloc::Global;
use std::io;

fn id(index: u64) -> LogId<u64> {
    LogId::new(LeaderId::new(8, 1), index)
}

fn print_log_ids(rt: &impl Print) -> io::Result<()> {
    print_texts(rt, "LogIOId", &[LogIOId::new(LeaderId::new(7, 2u64), None)])?;
    print_texts(rt, "LogIdRange", &[LogIdRange::new(Some(id(3)), None)])
}

fn print_on_its_way(rt: &impl Print) -> io::Result<()> {
    print_texts(
        rt,
        "Inflight",
        &[
            Inflight::logs(Some(id(3)), Some(id(8))).with_id(2),
            Inflight::snapshot(None).with_id(3),
            Inflight::snapshot(Some(id(8))).with_id(4),
        ],
    )
}

// It stands at 7, and its log is empty.
fn print_candidate(rt: &impl Print, alloc: Global) -> io::Result<()> {
    let voters = IdSet::from_slice(alloc, &[1])?;
    let candidate = Candidate::new(alloc, 7, Vote::new(9, 1u64), None, voters, &[])?;
    print_texts(rt, "Candidate", &[candidate])
}

pub fn print(rt: &impl Print, alloc: Global) -> io::Result<()> {
    print_log_ids(rt)?;
    print_on_its_way(rt)?;
    print_candidate(rt, alloc)
}
