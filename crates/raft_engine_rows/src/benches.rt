//! Counted work: a leader takes so many commands that the instructions and allocations of one can be
//! counted.

use crate::engines::text;
use crate::nodes::{GroupNode, Mail};
use crate::setup::{Task, purge_each};
use raft_executor::GroupMessage;
use raft_rows::Answer;
use std::alloc::{AllocError, Global};
use std::collections::VecDeque;

fn deliver(
    alloc: Global,
    nodes: &mut [GroupNode],
    message: GroupMessage,
    mail: &mut Mail,
) -> Result<(), AllocError> {
    let at = message.addressee.saturating_sub(1) as usize;
    match nodes.get_mut(at) {
        None => Ok(()),
        Some(node) => node.receive(alloc, message, mail),
    }
}

// So many of the messages that are on their way come, one after the other, and so do those that they
// call for, while there are any.
fn deliver_some(
    alloc: Global,
    nodes: &mut [GroupNode],
    mail: &mut Mail,
    count: u64,
) -> Result<(), AllocError> {
    for _ in 0..count {
        let Some(message) = mail.waiting.pop_front() else {
            return Ok(());
        };
        deliver(alloc, nodes, message, mail)?;
    }
    Ok(())
}

// The first node leads, once the questions and the answers have come.
fn grant(alloc: Global, nodes: &mut [GroupNode], mail: &mut Mail) -> Result<(), AllocError> {
    if let Some(node) = nodes.get_mut(0) {
        node.elect(alloc, mail)?;
    }
    let questions = mail.waiting.len() as u64;
    deliver_some(alloc, nodes, mail, questions)?;
    let answers = mail.waiting.len() as u64;
    deliver_some(alloc, nodes, mail, answers)
}

// The first node is elected, first in vain, since what it sends then is lost; it sends heartbeats, and
// then all others get what they lack.
fn elect(
    alloc: Global,
    nodes: &mut [GroupNode],
    mail: &mut Mail,
    task: &Task,
) -> Result<(), AllocError> {
    for _ in 0..task.elections {
        grant(alloc, nodes, mail)?;
        mail.waiting = VecDeque::new(alloc);
    }
    grant(alloc, nodes, mail)?;
    for _ in 0..task.beats {
        if let Some(node) = nodes.get_mut(0) {
            node.beat(alloc, mail)?;
        }
    }
    deliver_some(alloc, nodes, mail, u64::MAX)
}

// The first node takes a command, and all messages come.
fn propose(alloc: Global, nodes: &mut [GroupNode], mail: &mut Mail) -> Result<(), AllocError> {
    if let Some(node) = nodes.get_mut(0) {
        node.propose(alloc, mail)?;
    }
    deliver_some(alloc, nodes, mail, u64::MAX)
}

// The nodes of a group, by rising id from 1 on.
fn nodes(alloc: Global, task: &Task) -> Result<Vec<GroupNode>, AllocError> {
    let mut nodes = Vec::new(alloc);
    for at in 0..task.members() {
        if let Some(node) = GroupNode::new(alloc, at + 1, task)? {
            nodes.push(node)?;
        }
    }
    Ok(nodes)
}

fn run(
    alloc: Global,
    nodes: &mut [GroupNode],
    mail: &mut Mail,
    task: &Task,
) -> Result<(), AllocError> {
    elect(alloc, nodes, mail, task)?;
    for _ in 0..task.commands {
        propose(alloc, nodes, mail)?;
    }
    Ok(())
}

// How many entries are committed, as far as the first node knows, how many messages were sent, and how
// many places of another log were purged.
fn counts(alloc: Global, task: &Task) -> Result<(u64, u64, u64), AllocError> {
    let purged = match task.purges {
        0 => 0,
        _ => purge_each(alloc, task)?,
    };
    let mut nodes = nodes(alloc, task)?;
    let mut mail = Mail {
        waiting: VecDeque::new(alloc),
        sent: 0,
    };
    run(alloc, &mut nodes, &mut mail, task)?;
    let committed = nodes.get(0).map_or(0, |node| node.count_committed());
    Ok((committed, mail.sent, purged))
}

/// The answer to a row that counts.
pub fn counted(alloc: Global, words: &[&str]) -> Answer {
    let Ok((committed, sent, purged)) = counts(alloc, &Task::of(words)) else {
        return Answer::NoMemory;
    };
    text(format!(in alloc; "committed={committed} sent={sent} purged={purged}"))
}
