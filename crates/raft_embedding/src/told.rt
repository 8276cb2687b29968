//! What a node answers and tells, in words.

use crate::node::{CountersNode, Refused};
use raft_machines::Told;
use raft_node::{Cause, Fault, Outcome, UnknownTokens};
use raft_rows::number;
use raft_store::StoreFault;
use std::alloc::AllocError;
use std::fmt::{self, Display};

// ---- outcomes and refusals

// A value that may be missing.
#[derive(Clone, Copy)]
struct Shown<T>(Option<T>);

impl<T: Display> Display for Shown<T> {
    fn fmt<W: fmt::Write>(&self, f: &mut fmt::Formatter<W>) -> fmt::Result {
        match &self.0 {
            Some(value) => write!(f, "{value}"),
            None => write!(f, "-"),
        }
    }
}

fn write_told<W: fmt::Write>(f: &mut fmt::Formatter<W>, told: &[Told]) -> fmt::Result {
    for one in told {
        let answer = one.answer.as_slice().escape_ascii();
        write!(f, " told {}@{}=\"{answer}\"", one.token, one.place)?;
    }
    Ok(())
}

/// What an event did: to whom frames go, which tokens are told with which answer, and which ones
/// stay unknown.
#[derive(Clone, Copy)]
pub struct Done<'a>(pub &'a Outcome);

impl Display for Done<'_> {
    fn fmt<W: fmt::Write>(&self, f: &mut fmt::Formatter<W>) -> fmt::Result {
        write!(f, "done in {}", self.0.group)?;
        for frame in self.0.frames.as_slice() {
            write!(f, " >{}", frame.addressee)?;
        }
        write_told(f, self.0.told.as_slice())?;
        for token in self.0.unknown.as_slice() {
            write!(f, " unknown {token}")?;
        }
        Ok(())
    }
}

// The tokens that waited.
fn write_waited<W: fmt::Write>(f: &mut fmt::Formatter<W>, waited: &[UnknownTokens]) -> fmt::Result {
    for group in waited {
        for one in group.tokens.as_slice() {
            write!(f, " unknown {} in {}", one.token, group.group)?;
        }
    }
    Ok(())
}

/// Why a call isn't done, by number and name. Behind 1 stands the leader, behind 16 what the store
/// refused, if it did, and the tokens that waited.
#[derive(Clone, Copy)]
pub struct Why<'a>(pub &'a Refused);

impl Display for Why<'_> {
    fn fmt<W: fmt::Write>(&self, f: &mut fmt::Formatter<W>) -> fmt::Result {
        write!(f, "refused {} {}", self.0.number(), self.0.name())?;
        match self.0 {
            Fault::NotLeader { leader } => write!(f, ", led by {}", Shown(*leader)),
            Fault::Stopped { cause, unknown } => {
                if let Cause::Storage(StoreFault::Refused(why)) = cause {
                    write!(f, ": {why}")?;
                }
                write_waited(f, unknown.as_slice())
            }
            _ => Ok(()),
        }
    }
}

// ---- what a node tells

fn seen(node: &CountersNode, group: u64, text: &mut String) -> Result<(), AllocError> {
    let role = node.role(group);
    let leader = Shown(node.leader(group));
    let last = Shown(node.last_log_id(group));
    let next = Shown(node.next_log_id(group));
    let applied = Shown(node.applied(group));
    write!(
        text,
        "{role:?}, led by {leader}, last {last}, next {next}, applied {applied}"
    )
}

// A peer's address, the moment of the vote, the ends of snapshot and purge, and whether the node
// waits for the peer.
fn known(node: &CountersNode, group: u64, peer: u64, text: &mut String) -> Result<(), AllocError> {
    let known = node
        .membership(group)
        .and_then(|known| known.get_node(&peer));
    let address = Shown(known.map(|node| node.addr.as_str()));
    let renewed = Shown(node.renewed(group));
    let snapshot = Shown(node.snapshot_last(group));
    let purged = Shown(node.last_purged_log_id(group));
    let waits = node.is_waiting_for(group, peer);
    write!(
        text,
        "{peer} at {address}, renewed {renewed}, snapshot {snapshot}, purged {purged}, waits {waits}"
    )
}

fn groups(node: &CountersNode, text: &mut String) -> Result<(), AllocError> {
    let groups = node.groups()?;
    write!(text, "groups {groups:?}")
}

// The count of the key by the group's counters, as a byte.
fn count(node: &CountersNode, group: u64, key: &str, text: &mut String) -> Result<(), AllocError> {
    let count = match (node.machine(group), key.as_bytes()) {
        (Some(counters), [key]) => counters.get(*key),
        _ => None,
    };
    match count {
        Some(count) => write!(text, "\"{}\"", [count].escape_ascii()),
        None => write!(text, "-"),
    }
}

/// What the words ask the node to tell, if they ask for something.
pub fn look(
    node: &CountersNode,
    words: &[&str],
    text: &mut String,
) -> Option<Result<(), AllocError>> {
    Some(match *words {
        ["is"] => write!(text, "node {}, failed {}", node.id(), node.has_failed()),
        ["has"] => groups(node, text),
        ["may", group] => write!(
            text,
            "from {} on",
            Shown(node.may_elect_from(number(group)))
        ),
        ["sees", group] => seen(node, number(group), text),
        ["knows", group, peer] => known(node, number(group), number(peer), text),
        ["gets", group, key] => count(node, number(group), key, text),
        _ => return None,
    })
}
