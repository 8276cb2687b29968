//! Texts of nodes, and of what became of events.
use crate::entry_texts::{EntriesText, SnapshotText};
use crate::values::{IdText, NumberText, VoteText};
use raft_conditions::Refusal;
use raft_state::LogIdOptionExt;
use raft_stored_group::StoredGroup;
use raft_world::{Mark, Member};
use std::fmt;
use std::fmt::Display;

// ---- marks

// The word for a reason.
fn reason_of(why: Refusal<u64>) -> &'static str {
    match why {
        Refusal::NotLeader(_) => "not-leader",
        Refusal::UnknownGroup => "unknown-group",
        Refusal::GroupExists => "group-exists",
        Refusal::NotAllowed => "not-allowed",
        Refusal::NotVoter => "not-voter",
        Refusal::MembershipRefused => "membership-refused",
        Refusal::VoterChange => "voter-change",
        Refusal::InProgress => "in-progress",
        Refusal::CommandTooLong => "command-too-long",
        Refusal::NumberAtEnd => "number-at-end",
        Refusal::WrongParty => "wrong-party",
        Refusal::BreaksCondition => "breaks-condition",
    }
}

/// What became of an event.
#[derive(Clone, Copy)]
pub struct MarkText(pub Mark);

impl Display for MarkText {
    fn fmt<W: fmt::Write>(&self, f: &mut fmt::Formatter<W>) -> fmt::Result {
        match self.0 {
            Mark::Done => f.write_str("done"),
            Mark::Stopped => f.write_str("stopped"),
            Mark::Skipped => f.write_str("skipped"),
            Mark::Refused(Refusal::NotLeader(leader)) => {
                write!(f, "refused not-leader {}", NumberText(leader))
            }
            Mark::Refused(why) => write!(f, "refused {}", reason_of(why)),
        }
    }
}

// ---- nodes

// The part that a node plays.
fn role_of(member: &Member) -> &'static str {
    match member.engine() {
        None => { if member.is_up() { "up" } else { "down" } }
        Some(engine) => match (engine.leader.is_some(), engine.candidate_ref().is_some()) {
            (true, true) => "leads and stands",
            (true, false) => "leads",
            (false, true) => "stands",
            (false, false) => "follows",
        },
    }
}

// Up to where the node knows the list to be committed, and has applied it.
fn committed_of(member: &Member) -> NumberText {
    NumberText(match member.engine() {
        None => None,
        Some(engine) => engine.state.state.committed.index(),
    })
}

// What is stored.
#[derive(Clone, Copy)]
struct StoredText<'a>(&'a StoredGroup);

impl Display for StoredText<'_> {
    fn fmt<W: fmt::Write>(&self, f: &mut fmt::Formatter<W>) -> fmt::Result {
        let group = if self.0.is_present() { "group" } else { "none" };
        let vote = VoteText(self.0.vote());
        let purged = IdText(self.0.purged());
        let snapshot = SnapshotText(self.0.snapshot());
        let log = EntriesText(self.0.log());
        write!(
            f,
            "{group} vote {vote} purged {purged} snapshot {snapshot} log {log}"
        )
    }
}

/// A node with all that it has stored, on a line.
#[derive(Clone, Copy)]
pub struct MemberText<'a>(pub &'a Member);

impl Display for MemberText<'_> {
    fn fmt<W: fmt::Write>(&self, f: &mut fmt::Formatter<W>) -> fmt::Result {
        let role = role_of(self.0);
        let committed = committed_of(self.0);
        let stored = StoredText(self.0.stored());
        writeln!(
            f,
            "{} {role} committed {committed} {stored}",
            self.0.replica.id
        )
    }
}
