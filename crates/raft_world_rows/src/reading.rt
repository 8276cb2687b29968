//! Lines that are events.
use crate::fault::Fault;
use raft_group_step::GroupCall;
use raft_laws::WorldEvent;
use raft_state::{BasicNode, Bytes, ChangeMembers, IdSet, Membership, NodeMap, VoterGroups};
use raft_world::PlannedEvent;
use std::alloc::Global;
use std::str::SplitWhitespace;

type Nodes = NodeMap<u64, BasicNode>;

type Change = ChangeMembers<u64, BasicNode>;

type Call = GroupCall<u64, BasicNode, Bytes>;

/// The words of a line that aren't read yet.
pub type Words<'a> = SplitWhitespace<'a>;

// ---- words

/// The next word.
pub fn word<'a>(words: &mut Words<'a>) -> Result<&'a str, Fault> {
    words.next().ok_or(Fault::Line)
}

/// The number that a word is.
pub fn number_in(word: &str) -> Result<u64, Fault> {
    word.parse().map_err(|_| Fault::Line)
}

/// The number that the next word is.
pub fn number(words: &mut Words) -> Result<u64, Fault> {
    number_in(word(words)?)
}

/// After how many storing commands the event stops, if it does.
pub fn stop_in(word: &str) -> Result<Option<u64>, Fault> {
    match word {
        "-" => Ok(None),
        word => Ok(Some(number_in(word)?)),
    }
}

// ---- commands

fn digit(byte: u8) -> Result<u8, Fault> {
    match byte {
        b'0'..=b'9' => Ok(byte - b'0'),
        b'a'..=b'f' => Ok(byte - b'a' + 10),
        _ => Err(Fault::Line),
    }
}

fn byte_in(pair: &[u8]) -> Result<u8, Fault> {
    match pair {
        [high, low] => Ok((digit(*high)? << 4) | digit(*low)?),
        _ => Err(Fault::Line),
    }
}

/// The bytes of which a text has two digits each.
pub fn bytes_in(alloc: Global, text: &str) -> Result<Vec<u8>, Fault> {
    let mut bytes = Vec::new(alloc);
    for pair in text.as_bytes().chunks(2) {
        bytes.push(byte_in(pair)?)?;
    }
    Ok(bytes)
}

// The bytes of a command: two digits each, or one byte and how often it stands, or a dash for none.
fn command_in(alloc: Global, text: &str) -> Result<Vec<u8>, Fault> {
    match text.split_once('*') {
        Some((byte, count)) => {
            let byte = byte_in(byte.as_bytes())?;
            Ok(Vec::from_elem(alloc, byte, number_in(count)? as usize)?)
        }
        None => bytes_in(alloc, text.strip_prefix("-").unwrap_or(text)),
    }
}

// ---- memberships

/// Ids with commas between them.
fn ids_in(alloc: Global, text: &str) -> Result<IdSet<u64>, Fault> {
    let mut ids = IdSet::new(alloc);
    for word in text.split(',') {
        ids.insert(number_in(word)?)?;
    }
    Ok(ids)
}

fn put_node(alloc: Global, nodes: &mut Nodes, text: &str) -> Result<(), Fault> {
    let (id, address) = text.split_once('@').ok_or(Fault::Line)?;
    nodes.insert(number_in(id)?, BasicNode::new(alloc, address)?)?;
    Ok(())
}

fn nodes_in(alloc: Global, text: &str) -> Result<Nodes, Fault> {
    let mut nodes = NodeMap::new(alloc);
    for part in text.split(',') {
        put_node(alloc, &mut nodes, part)?;
    }
    Ok(nodes)
}

fn groups_in(alloc: Global, text: &str) -> Result<VoterGroups<u64>, Fault> {
    let mut groups = VoterGroups::new(alloc);
    for part in text.split('/') {
        groups.push(ids_in(alloc, part)?)?;
    }
    Ok(groups)
}

/// A membership: voter groups, then nodes.
pub fn membership_in(alloc: Global, text: &str) -> Result<Membership<u64, BasicNode>, Fault> {
    let (groups, nodes) = text.split_once(';').ok_or(Fault::Line)?;
    let groups = groups_in(alloc, groups)?;
    Ok(Membership::from_parts(groups, nodes_in(alloc, nodes)?))
}

fn change_in(alloc: Global, kind: &str, named: &str) -> Result<Change, Fault> {
    Ok(match kind {
        "add-voter-ids" => ChangeMembers::AddVoterIds(ids_in(alloc, named)?),
        "add-voters" => ChangeMembers::AddVoters(nodes_in(alloc, named)?),
        "remove-voters" => ChangeMembers::RemoveVoters(ids_in(alloc, named)?),
        "replace-voters" => ChangeMembers::ReplaceAllVoters(ids_in(alloc, named)?),
        "add-nodes" => ChangeMembers::AddNodes(nodes_in(alloc, named)?),
        "set-nodes" => ChangeMembers::SetNodes(nodes_in(alloc, named)?),
        "remove-nodes" => ChangeMembers::RemoveNodes(ids_in(alloc, named)?),
        "replace-nodes" => ChangeMembers::ReplaceAllNodes(nodes_in(alloc, named)?),
        _ => return Err(Fault::Line),
    })
}

// ---- events

fn propose_in(alloc: Global, text: &str, token: u64) -> Result<Call, Fault> {
    let command = Bytes::from_slice(alloc, &command_in(alloc, text)?)?;
    Ok(GroupCall::Propose { command, token })
}

fn change_call(alloc: Global, words: &mut Words, token: u64) -> Result<Call, Fault> {
    let kind = word(words)?;
    let change = change_in(alloc, kind, word(words)?)?;
    Ok(GroupCall::ChangeMembership { change, token })
}

fn setup_call(alloc: Global, words: &mut Words) -> Result<Call, Fault> {
    let membership = membership_in(alloc, word(words)?)?;
    Ok(GroupCall::Initialize { membership })
}

fn call_in(alloc: Global, verb: &str, words: &mut Words, token: u64) -> Result<Call, Fault> {
    match verb {
        "setup" => setup_call(alloc, words),
        "propose" => propose_in(alloc, word(words)?, token),
        "change" => change_call(alloc, words, token),
        "elect" | "lead" => Ok(GroupCall::Elect),
        "beat" => Ok(GroupCall::Heartbeat),
        "snapshot" => Ok(GroupCall::TriggerSnapshot),
        "lost" => Ok(GroupCall::Lost {
            peer: number(words)?,
        }),
        "purge" => Ok(GroupCall::TriggerPurge {
            place: number(words)?,
        }),
        _ => Err(Fault::Line),
    }
}

// The verb's event at a node, or with the message of a number.
fn event_in(
    alloc: Global,
    verb: &str,
    words: &mut Words,
    next: u64,
    token: u64,
) -> Result<PlannedEvent, Fault> {
    let target = number(words)?;
    let now = number(words)?;
    let stop = stop_in(word(words)?)?;
    let event = match verb {
        "add" => WorldEvent::Add { node: target },
        "deliver" => WorldEvent::Deliver {
            number: target,
            now,
        },
        "next" => WorldEvent::Deliver { number: next, now },
        "crash" => WorldEvent::Crash { node: target },
        "halt" => WorldEvent::Halt { node: target },
        "restart" => WorldEvent::Restart { node: target },
        verb => WorldEvent::Ask {
            node: target,
            call: call_in(alloc, verb, words, token)?,
            now,
        },
    };
    Ok(PlannedEvent { event, stop })
}

/// The event on a line, with the number of the next message and this token where it needs one.
pub fn read_event(alloc: Global, line: &str, next: u64, token: u64) -> Result<PlannedEvent, Fault> {
    let mut words = line.split_whitespace();
    let verb = word(&mut words)?;
    event_in(alloc, verb, &mut words, next, token)
}

/// The node that the event on a line comes to.
pub fn read_target(line: &str) -> Result<u64, Fault> {
    let mut words = line.split_whitespace();
    let _verb = word(&mut words)?;
    number(&mut words)
}

/// The node ids on a line, behind its verb.
pub fn read_ids(alloc: Global, line: &str) -> Result<Vec<u64>, Fault> {
    let mut ids = Vec::new(alloc);
    let mut words = line.split_whitespace();
    let _verb = word(&mut words)?;
    for word in words {
        ids.push(number_in(word)?)?;
    }
    Ok(ids)
}
