//! How values and faults are told.

use crate::engines::text;
use raft_conditions::{GroupFacts, Refusal};
use raft_group_step::GroupCall;
use raft_machines::{Fault, MembershipFault};
use raft_row_values::{entry, id, membership};
use raft_rows::{Answer, number};
use raft_state::{
    BasicNode, Bytes, ChangeMembershipError, EmptyMembership, EmptyNode, Entry, EntryPayload,
    InitializeError, LeaderId, LogIOId, LogIdRange, MembershipState, MessageSummary, NotInMembers,
    StoredMembership, UTime, Vote,
};
use std::alloc::{AllocError, Global};
use std::fmt;
use std::fmt::Display;

#[derive(Drop)]
struct Parted<'a, T>(&'a [T]);

impl<'a, T: Display> Display for Parted<'a, T> {
    fn fmt<W: fmt::Write>(&self, f: &mut fmt::Formatter<W>) -> fmt::Result {
        for (at, value) in self.0.iter().enumerate() {
            let between = if at == 0 { "" } else { " | " };
            write!(f, "{between}{value}")?;
        }
        Ok(())
    }
}

/// The values, with bars between them.
pub fn each<T: Display>(alloc: Global, values: &[T]) -> Answer {
    Answer::told(alloc, &Parted(values))
}

// ---- values

fn of_log_ids(alloc: Global, name: &str) -> Option<Answer> {
    let (third, eighth) = (Some(id(8, 1, 3)), Some(id(8, 1, 8)));
    Some(match name {
        "log-id" => Answer::told(alloc, &id(7, 1, 3)),
        "ranges" => {
            each(
                alloc,
                &[
                    LogIdRange::new(third, eighth),
                    LogIdRange::new(None, eighth),
                ],
            )
        }
        "flushed" => Answer::told(alloc, &LogIOId::new(LeaderId::new(7, 2), Some(id(7, 2, 4)))),
        "moments" => {
            each(
                alloc,
                &[
                    UTime::<u64, u64>::without_utime(3),
                    UTime::<u64, u64>::new(20, 4),
                ],
            )
        }
        "vote" => text(Vote::new_committed(6, 7u64).summary(alloc)),
        _ => return None,
    })
}

// A copy of an entry whose command is a number.
fn copy() -> Result<Entry<u64, EmptyNode, u64>, AllocError> {
    let entry = Entry {
        log_id: id(8, 1, 6),
        payload: EntryPayload::Normal(5),
    };
    entry.clone()
}

// Node 7 is no voter of a membership of nobody.
fn stranger(alloc: Global) -> Result<InitializeError<u64, BasicNode>, AllocError> {
    Ok(InitializeError::NotInMembers(NotInMembers {
        node_id: 7,
        membership: membership(alloc, "none/-")?,
    }))
}

fn stored(alloc: Global) -> Result<StoredMembership<u64, BasicNode>, AllocError> {
    Ok(StoredMembership::new(Some(id(1, 1, 2)), membership(alloc, "none/-")?))
}

fn of_members(alloc: Global, name: &str) -> Option<Answer> {
    Some(match name {
        "copy" => Answer::told(alloc, &copy().ok()?),
        "node" => Answer::told(alloc, &BasicNode::new(alloc, "a:1").ok()?),
        "empty-node" => Answer::told(alloc, &EmptyNode::new()),
        "not-in-members" => Answer::told(alloc, &stranger(alloc).ok()?),
        "stored" => Answer::told(alloc, &stored(alloc).ok()?),
        "known" => text(MembershipState::<u64, BasicNode>::default(alloc).summary(alloc)),
        _ => return None,
    })
}

// ---- faults

const FAULTS: [Fault; 9] = [
    Fault::Membership(MembershipFault::PastLimit),
    Fault::Membership(MembershipFault::NoGroup),
    Fault::Membership(MembershipFault::Invalid(ChangeMembershipError::EmptyMembership(
        EmptyMembership {},
    ))),
    Fault::NotLeader { leader: Some(3) },
    Fault::UnknownGroup,
    Fault::GroupExists,
    Fault::NotAllowed,
    Fault::NotVoter,
    Fault::CommandTooLong,
];

const REFUSALS: [Refusal<u64>; 12] = [
    Refusal::NotLeader(Some(3)),
    Refusal::UnknownGroup,
    Refusal::GroupExists,
    Refusal::NotAllowed,
    Refusal::NotVoter,
    Refusal::MembershipRefused,
    Refusal::VoterChange,
    Refusal::InProgress,
    Refusal::CommandTooLong,
    Refusal::NumberAtEnd,
    Refusal::WrongParty,
    Refusal::BreaksCondition,
];

/// The answer to a row about a text.
pub fn told_of(alloc: Global, name: &str) -> Option<Answer> {
    Some(match name {
        "faults" => each(alloc, &FAULTS),
        "refusals" => each(alloc, &REFUSALS),
        _ => match of_log_ids(alloc, name) {
            Some(answer) => answer,
            None => of_members(alloc, name)?,
        },
    })
}

/// How an entry is told.
pub fn told_of_entry(alloc: Global, word: &str) -> Option<Answer> {
    Some(Answer::told(alloc, &entry(alloc, word).ok()?))
}

// ---- commands that are taken

// Node 2 leads the group under term 1.
fn leader() -> GroupFacts<'static> {
    GroupFacts {
        own: 2,
        present: true,
        vote: Vote::new_committed(1, 2),
        membership: None,
        is_new: false,
        is_leader: true,
        is_candidate: false,
        end: 1,
        committed: None,
        greatest_next_id: 0,
    }
}

fn refusal(alloc: Global, count: u64) -> Result<Option<Refusal<u64>>, AllocError> {
    let zeros = vec![in alloc; 0; count as usize]?;
    let command = Bytes::from_slice(alloc, zeros.as_slice())?;
    leader().call_refusal(alloc, &GroupCall::Propose { command, token: 1 }, 0)
}

/// The answer to a row about a command of so many bytes.
pub fn judged(alloc: Global, count: &str) -> Option<Answer> {
    Some(match refusal(alloc, number(count)).ok()? {
        None => Answer::Word("taken"),
        Some(why) => Answer::told(alloc, &why),
    })
}
