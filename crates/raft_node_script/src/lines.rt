//! The lines of a node's script: those of a cluster's script without the node, `feed`, `status` and
//! `tick`.

use raft_cluster_events::{ClusterEvent, GroupCommand};
use raft_cluster_script::{event_of, tokens_after};
use raft_script_lines::{
    NoEvent, ReadLineError, ScriptEvent, ScriptLine, first_word, number_of, read_line,
};
use raft_script_machines::ScriptMachine;
use std::alloc::{AllocError, Global};
use std::str;
use thiserror::Error;

/// What a line of a node's script says (own).
#[derive(Drop)]
pub enum NodeLine {
    /// An empty line, or a comment.
    Skipped,
    /// `now T`
    Now { tick: u64 },
    /// `tick`: the moment rises by one, and all that is due then is asked of the node.
    Tick,
    /// `total G`, where the machine adds up.
    Total { group: u64 },
    /// `status G`: what the node knows of the group.
    Status { group: u64 },
    /// `add G`
    Add { group: u64 },
    /// A call of a group.
    Ask { group: u64, call: GroupCommand },
    /// `feed PEER HEX`: these bytes are the next of the peer's stream.
    Feed { peer: u64, piece: Vec<u8> },
    /// `clean`: the node's log is cleaned, where it is time for that.
    Clean,
    /// `reopen WORKERS`: the node is closed, and opened with what is stored.
    Reopen,
}

/// A line, and how many tokens were taken behind it.
#[derive(Drop)]
pub struct ReadNodeLine {
    pub line: NodeLine,
    pub tokens: u64,
}

/// Why a line is none of a node's script (own).
#[derive(Clone, Copy, Debug, PartialEq, Eq, Error)]
pub enum NodeLineError {
    /// It is no event of a node.
    #[error("{0}")]
    NoEvent(NoEvent),
    /// What follows the peer of `feed` isn't pairs of hexadecimal digits.
    #[error("not hexadecimal")]
    NotHexadecimal,
    /// Want of memory.
    #[error("out of memory")]
    Memory,
}

impl From<AllocError> for NodeLineError {
    fn from(_e: AllocError) -> NodeLineError {
        NodeLineError::Memory
    }
}

impl From<ReadLineError> for NodeLineError {
    fn from(error: ReadLineError) -> NodeLineError {
        match error {
            ReadLineError::NoEvent(why) => NodeLineError::NoEvent(why),
            ReadLineError::Memory => NodeLineError::Memory,
        }
    }
}

// A word that begins no line here.
const FOREIGN: NodeLineError = NodeLineError::NoEvent(NoEvent::UnknownWord);

// Whether a line that begins with this word names no node in a cluster's script.
fn is_of_all(word: &str) -> bool {
    matches!(word, "" | "now") || word.starts_with('#')
}

// Whether no line of a node's script begins with this word.
fn is_foreign(word: &str) -> bool {
    matches!(word, "nodes" | "kv" | "deliver" | "crash" | "fuse")
}

// The line with the node behind its first word.
fn with_node(alloc: Global, node: u64, line: &str) -> Result<String, AllocError> {
    match first_word(line) {
        (word, Some(rest)) => format!(in alloc; "{word} {node} {rest}"),
        (word, None) => format!(in alloc; "{word} {node}"),
    }
}

// `PEER HEX`
fn feed_in(alloc: Global, words: &str) -> Result<NodeLine, NodeLineError> {
    let (peer, Some(digits)) = first_word(words) else {
        return Err(NodeLineError::NoEvent(NoEvent::WrongCount));
    };
    let Some(peer) = number_of(peer) else {
        return Err(NodeLineError::NoEvent(NoEvent::NotANumber));
    };
    match hex::decode(alloc, digits) {
        Ok(piece) => Ok(NodeLine::Feed { peer, piece }),
        Err(hex::FromHexError::OutOfMemory) => Err(NodeLineError::Memory),
        Err(_) => Err(NodeLineError::NotHexadecimal),
    }
}

// `G`
fn group_in(words: Option<&str>) -> Result<u64, NodeLineError> {
    let Some(words) = words else {
        return Err(NodeLineError::NoEvent(NoEvent::WrongCount));
    };
    let (word, None) = first_word(words) else {
        return Err(NodeLineError::NoEvent(NoEvent::WrongCount));
    };
    match number_of(word) {
        Some(group) => Ok(group),
        None => Err(NodeLineError::NoEvent(NoEvent::NotANumber)),
    }
}

// The event of a cluster as one of its node.
fn of_node(event: ClusterEvent) -> Option<NodeLine> {
    match event {
        ClusterEvent::AddGroup { node: _, group } => Some(NodeLine::Add { group }),
        ClusterEvent::Ask {
            node: _,
            group,
            call,
            now: _,
        } => Some(NodeLine::Ask { group, call }),
        ClusterEvent::Clean { .. } => Some(NodeLine::Clean),
        ClusterEvent::Reopen { .. } => Some(NodeLine::Reopen),
        _ => None,
    }
}

// An event of a line.
fn event_line<M: ScriptMachine>(
    alloc: Global,
    tick: u64,
    tokens: u64,
    event: ScriptEvent,
) -> Result<ReadNodeLine, NodeLineError> {
    let tokens = tokens_after(tokens, &event);
    let Some(event) = event_of::<M>(alloc, tick, tokens, event)? else {
        return Err(FOREIGN);
    };
    match of_node(event) {
        Some(line) => Ok(ReadNodeLine { line, tokens }),
        None => Err(FOREIGN),
    }
}

// What a line of a cluster's script says of this node.
fn line_in<M: ScriptMachine>(
    alloc: Global,
    tick: u64,
    tokens: u64,
    bytes: &[u8],
) -> Result<ReadNodeLine, NodeLineError> {
    let line = read_line(alloc, bytes)?;
    if !M::takes_line(&line) {
        return Err(FOREIGN);
    }
    let line = match line {
        ScriptLine::Skipped => NodeLine::Skipped,
        ScriptLine::Now { tick } => NodeLine::Now { tick },
        ScriptLine::Total { node: _, group } => NodeLine::Total { group },
        ScriptLine::Happens(event) => return event_line::<M>(alloc, tick, tokens, event),
        ScriptLine::Nodes { .. } | ScriptLine::Kv { .. } => return Err(FOREIGN),
        ScriptLine::Fuse {
            calls: _,
            event: _event,
        } => return Err(FOREIGN),
    };
    Ok(ReadNodeLine { line, tokens })
}

/// What the bytes of a line say at this tick, behind so many tokens, where nodes have this machine
/// (own). They come without their newline. An `Err` says why they are no event of a node, or that
/// memory is missing.
pub fn read_node_line<M: ScriptMachine>(
    alloc: Global,
    node: u64,
    tick: u64,
    tokens: u64,
    bytes: &[u8],
) -> Result<ReadNodeLine, NodeLineError> {
    let Ok(text) = str::from_utf8(bytes) else {
        return Err(NodeLineError::NoEvent(NoEvent::NotUtf8));
    };
    let (word, rest) = first_word(text);
    if is_foreign(word) {
        return Err(FOREIGN);
    }
    if is_of_all(word) {
        return line_in::<M>(alloc, tick, tokens, bytes);
    }
    match (word, rest) {
        ("feed", Some(words)) => {
            let line = feed_in(alloc, words)?;
            Ok(ReadNodeLine { line, tokens })
        }
        ("tick", None) => Ok(ReadNodeLine {
            line: NodeLine::Tick,
            tokens,
        }),
        ("tick", Some(_)) => Err(NodeLineError::NoEvent(NoEvent::WrongCount)),
        ("status", words) => {
            let group = group_in(words)?;
            let line = NodeLine::Status { group };
            Ok(ReadNodeLine { line, tokens })
        }
        _ => {
            let whole = with_node(alloc, node, text)?;
            line_in::<M>(alloc, tick, tokens, whole.as_bytes())
        }
    }
}
