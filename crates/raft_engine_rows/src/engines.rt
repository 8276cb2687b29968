//! The engine of a group at a node, what it begins with, and what is seen of it.

use crate::setup::known;
use raft_commands::{CommandKind, RaftTypeConfig};
use raft_engine::{Engine, KnownState};
use raft_row_values::{IdText, VoteText, entry, vote};
use raft_rows::{Answer, number};
use raft_state::{BasicNode, Bytes, KeptVec, RaftState, ServerState, Vote};
use std::alloc::{AllocError, Global};

/// A group with numbered nodes, whose data are bytes.
#[derive(Clone, Copy, Debug)]
pub struct Numbered;

impl RaftTypeConfig for Numbered {
    type D = Bytes;

    type R = Bytes;

    type NodeId = u64;

    type Node = BasicNode;
}

/// An engine of that group.
pub type NumberedEngine = Engine<Numbered>;

/// The engine of node 1 that knows nothing of its group.
pub fn new_engine(alloc: Global) -> NumberedEngine {
    let known = KnownState {
        state: RaftState::default(alloc),
        memberships: KeptVec::new(alloc),
        wish: None,
        highest_term: 0,
    };
    Engine::of_node(alloc, known, 1)
}

// What a node knows of this vote and these entries, where they are a log.
fn known_of(
    alloc: Global,
    vote: Vote<u64>,
    words: &[&str],
) -> Result<Option<KnownState<u64, BasicNode>>, AllocError> {
    let mut log = Vec::new(alloc);
    for word in words {
        log.push(entry(alloc, word)?)?;
    }
    known(alloc, vote, &log)
}

/// Another engine takes its place, of the node with this id, vote and log.
pub fn begin(engine: &mut NumberedEngine, alloc: Global, words: &[&str]) -> Option<Answer> {
    let [id, word, ref log @ ..] = *words else {
        return None;
    };
    let known = known_of(alloc, vote(word), log).ok()??;
    *engine = Engine::of_node(alloc, known, number(id));
    Some(Answer::Word("()"))
}

fn part(engine: &mut NumberedEngine) -> ServerState {
    engine.server_state_handler().calc_server_state()
}

// The part that the node plays, its vote, the first place and the last log id of its log, the last
// committed log id, and the log ids of the last committed membership and of what is to be purged.
fn summary(engine: &mut NumberedEngine, alloc: Global) -> Result<String, AllocError> {
    let part = part(engine);
    let known = &engine.state;
    let vote = VoteText(*known.state.vote_ref());
    let first = known.first_place();
    let last = IdText(known.last_log_id());
    let committed = IdText(known.state.committed);
    let members = IdText(*known.committed_membership().log_id());
    let goal = IdText(known.state.purge_upto);
    format!(in alloc;
        "{part:?} vote {vote} log {first}..{last} committed {committed} members {members} goal {goal}"
    )
}

// What kinds of commands wait, in their order.
fn kinds(engine: &NumberedEngine, alloc: Global) -> Result<Vec<CommandKind>, AllocError> {
    let mut kinds = Vec::new(alloc);
    for command in engine.output.iter_commands() {
        kinds.push(command.kind())?;
    }
    Ok(kinds)
}

/// A text that there may have been no memory for.
pub fn text(told: Result<String, AllocError>) -> Answer {
    match told {
        Ok(text) => Answer::Text(text),
        Err(_) => Answer::NoMemory,
    }
}

/// The answer to a row that asks about an engine.
pub fn seen(engine: &mut NumberedEngine, alloc: Global, words: &[&str]) -> Option<Answer> {
    Some(match *words {
        ["state"] => text(summary(engine, alloc)),
        ["queue"] => Answer::shown(alloc, &kinds(engine, alloc).ok()?),
        ["candidate"] => Answer::told(alloc, engine.candidate_ref()?),
        ["leader"] => Answer::told(alloc, engine.leader.as_ref()?),
        ["greater-log"] => Answer::truth(engine.is_there_greater_log()),
        ["fault"] => Answer::shown(alloc, &engine.validate().err()),
        _ => return None,
    })
}
