//! Texts of votes, log ids and places. Where there is none, a dash stands.
use raft_state::{LogId, Vote};
use std::fmt;
use std::fmt::Display;

/// A place or another number.
#[derive(Clone, Copy)]
pub struct NumberText(pub Option<u64>);

impl Display for NumberText {
    fn fmt<W: fmt::Write>(&self, f: &mut fmt::Formatter<W>) -> fmt::Result {
        match self.0 {
            None => f.write_str("-"),
            Some(number) => write!(f, "{number}"),
        }
    }
}

/// Term, node and place.
#[derive(Clone, Copy)]
pub struct IdText(pub Option<LogId<u64>>);

impl Display for IdText {
    fn fmt<W: fmt::Write>(&self, f: &mut fmt::Formatter<W>) -> fmt::Result {
        match self.0 {
            None => f.write_str("-"),
            Some(id) => {
                let leader = id.leader_id;
                write!(f, "{}.{}.{}", leader.term, leader.node_id, id.index)
            }
        }
    }
}

/// Term and node, and a plus behind a granted vote.
#[derive(Clone, Copy)]
pub struct VoteText(pub Vote<u64>);

impl Display for VoteText {
    fn fmt<W: fmt::Write>(&self, f: &mut fmt::Formatter<W>) -> fmt::Result {
        let leader = self.0.leader_id;
        let plus = if self.0.committed { "+" } else { "" };
        write!(f, "{}.{}{plus}", leader.term, leader.node_id)
    }
}
