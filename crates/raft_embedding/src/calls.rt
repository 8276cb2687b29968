//! The calls of a node. Each stands in a function of its own: a caller's proof then carries the clauses
//! of none.

use crate::node::{Answered, CountersNode, Piece, Refused};
use raft_rows::{bytes, number};
use raft_state::{BasicNode, Bytes, ChangeMembers, Membership, NodeMap};
use std::alloc::{AllocError, Global};

// The addresses of the nodes.
const NODES: [(u64, &str); 3] = [(1, "a"), (2, "b"), (3, "c")];

// ---- calls of words and numbers

fn add(node: &mut CountersNode, group: u64) -> Answered {
    node.add_group(group)
}

/// The node stands for election.
pub fn elect(node: &mut CountersNode, group: u64, now: u64) -> Answered {
    node.elect(group, now)
}

/// The node tells its peers that it leads.
pub fn heartbeat(node: &mut CountersNode, group: u64, now: u64) -> Answered {
    node.heartbeat(group, now)
}

/// A snapshot of what is applied is stored.
pub fn snapshot(node: &mut CountersNode, group: u64, now: u64) -> Answered {
    node.trigger_snapshot(group, now)
}

/// The peer's answer won't come.
pub fn lost(node: &mut CountersNode, group: u64, peer: u64, now: u64) -> Answered {
    node.lost(group, peer, now)
}

/// The log goes up to the place.
pub fn purge(node: &mut CountersNode, group: u64, place: u64, now: u64) -> Answered {
    node.trigger_purge_log(group, place, now)
}

// A call of the group at this moment.
fn plain_call(node: &mut CountersNode, verb: &str, group: u64, now: u64) -> Option<Answered> {
    match verb {
        "elect" => Some(elect(node, group, now)),
        "heartbeat" => Some(heartbeat(node, group, now)),
        "snapshot" => Some(snapshot(node, group, now)),
        _ => None,
    }
}

// ---- calls with values

// The first nodes, so many, are to be the group's voters.
fn initialize(
    alloc: Global,
    node: &mut CountersNode,
    group: u64,
    count: u64,
    now: u64,
) -> Option<Answered> {
    let voters = NODES.get(..count as usize)?;
    let membership = Membership::of_one_group(alloc, voters, &[]).ok()?;
    Some(node.initialize(group, membership, now))
}

// A call with one number more.
fn call_with(
    alloc: Global,
    node: &mut CountersNode,
    verb: &str,
    group: u64,
    number: u64,
    now: u64,
) -> Option<Answered> {
    match verb {
        "initialize" => initialize(alloc, node, group, number, now),
        "lost" => Some(lost(node, group, number, now)),
        "purge" => Some(purge(node, group, number, now)),
        _ => None,
    }
}

// The command of a key and an amount, or of one word.
fn command(alloc: Global, words: &[&str]) -> Result<Bytes, AllocError> {
    let mut command = Vec::new(alloc);
    for word in words {
        command.extend_from_slice(bytes(alloc, word)?.as_slice())?;
    }
    Bytes::from_slice(alloc, command.as_slice())
}

fn propose(
    alloc: Global,
    node: &mut CountersNode,
    group: u64,
    words: &[&str],
    token: u64,
    now: u64,
) -> Option<Answered> {
    let command = command(alloc, words).ok()?;
    Some(node.propose(group, command, token, now))
}

// The node of this id at this address.
fn one_node(alloc: Global, id: u64, address: &str) -> Result<NodeMap<u64, BasicNode>, AllocError> {
    let node = BasicNode::new(alloc, address)?;
    let mut nodes = NodeMap::new(alloc);
    nodes.insert(id, node)?;
    Ok(nodes)
}

// These nodes are to be learners of the group.
fn add_learners(
    node: &mut CountersNode,
    group: u64,
    learners: NodeMap<u64, BasicNode>,
    token: u64,
    now: u64,
) -> Answered {
    node.change_membership(group, ChangeMembers::AddNodes(learners), token, now)
}

/// The call that the words name, if they name one.
pub fn call(alloc: Global, node: &mut CountersNode, words: &[&str]) -> Option<Answered> {
    match *words {
        ["add", group] => Some(add(node, number(group))),
        ["propose", group, ref words @ .., token, now] => {
            propose(
                alloc,
                node,
                number(group),
                words,
                number(token),
                number(now),
            )
        }
        ["learner", group, id, address, token, now] => {
            let learners = one_node(alloc, number(id), address).ok()?;
            Some(add_learners(node, number(group), learners, number(token), number(now)))
        }
        [verb, group, now] => plain_call(node, verb, number(group), number(now)),
        [verb, group, other, now] => {
            call_with(alloc, node, verb, number(group), number(other), number(now))
        }
        _ => None,
    }
}

/// A piece of the peer's stream comes.
pub fn feed(node: &mut CountersNode, peer: u64, piece: &[u8], now: u64) -> Piece {
    node.feed(peer, piece, now)
}

/// The peer's stream begins anew.
pub fn reset(node: &mut CountersNode, peer: u64) -> Result<(), Refused> {
    node.reset_peer(peer)
}

/// The node stops.
pub fn fail(node: &mut CountersNode) -> Refused {
    node.fail()
}
