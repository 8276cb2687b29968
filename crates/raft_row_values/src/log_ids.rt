//! Log ids and votes.

use raft_rows::number;
use raft_state::{LeaderId, LogId, Vote};
use std::fmt;
use std::fmt::Display;

/// The log id of this term, node and place.
pub fn id(term: u64, node: u64, index: u64) -> LogId<u64> {
    LogId::new(LeaderId::new(term, node), index)
}

/// A word such as `8-1-3`.
pub fn log_id(word: &str) -> LogId<u64> {
    let (term, rest) = word.split_once('-').unwrap_or((word, ""));
    let (node, index) = rest.split_once('-').unwrap_or((rest, ""));
    id(number(term), number(node), number(index))
}

/// The same, or `-`.
pub fn log_id_if_any(word: &str) -> Option<LogId<u64>> {
    if word == "-" {
        None
    } else {
        Some(log_id(word))
    }
}

/// A word such as `9-1` or `9-1-committed`.
pub fn vote(word: &str) -> Vote<u64> {
    let (term, rest) = word.split_once('-').unwrap_or((word, ""));
    match rest.split_once('-') {
        Some((node, _)) => Vote::new_committed(number(term), number(node)),
        None => Vote::new(number(term), number(rest)),
    }
}

/// A log id as a row spells it, or `-`.
#[derive(Clone, Copy)]
pub struct IdText(pub Option<LogId<u64>>);

impl Display for IdText {
    fn fmt<W: fmt::Write>(&self, f: &mut fmt::Formatter<W>) -> fmt::Result {
        match &self.0 {
            None => write!(f, "-"),
            Some(id) => {
                let leader = id.leader_id;
                write!(f, "{}-{}-{}", leader.term, leader.node_id, id.index)
            }
        }
    }
}

/// A vote as a row spells it.
#[derive(Clone, Copy)]
pub struct VoteText(pub Vote<u64>);

impl Display for VoteText {
    fn fmt<W: fmt::Write>(&self, f: &mut fmt::Formatter<W>) -> fmt::Result {
        let leader = self.0.leader_id;
        let mark = if self.0.committed { "-committed" } else { "" };
        write!(f, "{}-{}{mark}", leader.term, leader.node_id)
    }
}
