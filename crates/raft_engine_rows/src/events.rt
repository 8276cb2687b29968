//! Events of an engine.
ghost use Rattle.std.specs.Prelude.{◌≡◌, Some};

use crate::engines::NumberedEngine;
use raft_commands::Command;
use raft_engine::{
    AppendEntriesRequest, AppendEntriesResponse, CallError, Caller, Entries, RequestId,
    VoteRequest, VoteResponse,
};
use raft_messages::last_sent;
use raft_row_values::{entry, log_id, log_id_if_any, membership, vote};
use raft_rows::{Answer, bytes, number};
use raft_state::{BasicNode, Bytes, LogId, Membership, SnapshotMeta, StoredMembership, Vote};
use std::alloc::{AllocError, Global};
use std::fmt::Display;

type Members = Membership<u64, BasicNode>;

type Request = AppendEntriesRequest<u64, BasicNode, Bytes>;

// ---- what calls answer

/// Whether there was memory for the call, and why it was refused, if it was.
pub fn told<E: Display + Drop>(alloc: Global, told: Result<Result<(), E>, AllocError>) -> Answer {
    match told {
        Err(_) => Answer::NoMemory,
        Ok(Ok(())) => Answer::Word("ok"),
        Ok(Err(error)) => Answer::told(alloc, &error),
    }
}

/// Whether there was memory for the call.
pub fn done(told: Result<(), AllocError>) -> Answer {
    match told {
        Err(_) => Answer::NoMemory,
        Ok(()) => Answer::Word("ok"),
    }
}

/// Whether it is so, if there was memory to tell.
pub fn so(told: Result<bool, AllocError>) -> Answer {
    match told {
        Err(_) => Answer::NoMemory,
        Ok(is_so) => Answer::truth(is_so),
    }
}

// ---- calls without words

fn starts(engine: &mut NumberedEngine) -> Result<(), AllocError> {
    engine.startup()
}

fn stands(engine: &mut NumberedEngine) -> Result<(), AllocError> {
    engine.elect(9)
}

fn tries_to_purge(engine: &mut NumberedEngine) -> Result<(), AllocError> {
    engine.try_purge_log()
}

fn steps_down(engine: &mut NumberedEngine) -> Result<(), AllocError> {
    engine.leader_step_down()
}

fn asks_for_snapshot(engine: &mut NumberedEngine) -> Result<bool, AllocError> {
    engine.trigger_snapshot()
}

// The event ends, and nothing is left to do.
fn ends(engine: &mut NumberedEngine) -> Answer {
    engine.end_event();
    Answer::Word("ok")
}

// The node leads no longer, before all else that is to be done.
fn postpones(engine: &mut NumberedEngine) -> Result<(), AllocError> {
    engine.output.postpone_command(Command::QuitLeader)
}

// ---- calls of a group

fn sets_up(engine: &mut NumberedEngine, alloc: Global, members: Members) -> Answer {
    told(alloc, engine.initialize(members, 5))
}

fn proposes(engine: &mut NumberedEngine, alloc: Global, command: Bytes) -> Answer {
    if !engine.has_room() {
        return Answer::Word("no room");
    }
    told(alloc, engine.propose(command))
}

fn changes(engine: &mut NumberedEngine, alloc: Global, members: Members) -> Answer {
    if !engine.has_room() {
        return Answer::Word("no room");
    }
    told(alloc, engine.change_membership(members))
}

fn command(alloc: Global, word: &str) -> Result<Bytes, AllocError> {
    Bytes::from_slice(alloc, &bytes(alloc, word)?)
}

fn called(engine: &mut NumberedEngine, alloc: Global, words: &[&str]) -> Option<Answer> {
    Some(match *words {
        ["set-up", word] => sets_up(engine, alloc, membership(alloc, word).ok()?),
        ["propose", word] => proposes(engine, alloc, command(alloc, word).ok()?),
        ["change", word] => changes(engine, alloc, membership(alloc, word).ok()?),
        ["purge-to", place] => done(engine.trigger_purge_log(number(place))),
        _ => return None,
    })
}

// ---- votes

fn is_asked(engine: &mut NumberedEngine, peer: u64, asked: Vote<u64>, last: &str) -> Answer {
    let req = VoteRequest::new(asked, log_id_if_any(last));
    done(engine.handle_vote_req(&req, Caller::new(peer, asked), 5))
}

fn is_answered(engine: &mut NumberedEngine, peer: u64, resp: &VoteResponse<u64>) -> Answer {
    done(engine.handle_vote_resp(peer, resp, 6))
}

fn voted(engine: &mut NumberedEngine, words: &[&str]) -> Option<Answer> {
    let [name, peer, word, last] = *words else {
        return None;
    };
    let (peer, of) = (number(peer), vote(word));
    Some(match name {
        "asked" => is_asked(engine, peer, of, last),
        "granted" => {
            is_answered(
                engine,
                peer,
                &VoteResponse::new(&of, log_id_if_any(last), true),
            )
        }
        "refused" => {
            is_answered(
                engine,
                peer,
                &VoteResponse::new(&of, log_id_if_any(last), false),
            )
        }
        _ => return None,
    })
}

// ---- entries

/// Entries, one for each word such as `1-1-2:blank`.
pub fn entries(
    alloc: Global,
    words: &[&str],
) -> Result<Entries<u64, BasicNode, Bytes>, AllocError> {
    let mut entries = Entries::new(alloc);
    for word in words {
        entries.push(entry(alloc, word)?)?;
    }
    Ok(entries)
}

/// The request of the leader of this vote with its first number: behind this log id, with what is
/// committed.
pub fn request(
    alloc: Global,
    vote: Vote<u64>,
    ends: [&str; 2],
    words: &[&str],
) -> Result<Request, AllocError> {
    Ok(AppendEntriesRequest {
        vote,
        prev_log_id: log_id_if_any(ends[0]),
        entries: entries(alloc, words)?,
        leader_commit: log_id_if_any(ends[1]),
    })
}

// Who has sent it.
fn caller(peer: u64, vote: Vote<u64>, ends: [Option<LogId<u64>>; 2]) -> Caller<u64> {
    Caller {
        peer,
        vote,
        id: RequestId::AppendEntries { id: 1 },
        previous: ends[0],
        last: ends[1],
    }
}

fn follows(engine: &mut NumberedEngine, alloc: Global, req: Request) -> Answer {
    let last = last_sent(req.prev_log_id, req.entries.as_slice());
    let from = caller(
        req.vote.leader_id.node_id,
        req.vote,
        [req.prev_log_id, last],
    );
    told(alloc, engine.handle_append_entries(req, from, 6))
}

/// What an answer says of a request: `success`, `conflict`, `up-to-8-1-3`, or the vote in force.
pub fn outcome(word: &str) -> AppendEntriesResponse<u64> {
    match word {
        "success" => AppendEntriesResponse::Success,
        "conflict" => AppendEntriesResponse::Conflict,
        _ => match word.strip_prefix("up-to-") {
            Some(id) => AppendEntriesResponse::PartialSuccess(log_id_if_any(id)),
            None => AppendEntriesResponse::HigherVote(vote(word)),
        },
    }
}

fn is_told(engine: &mut NumberedEngine, from: &Caller<u64>, word: &str) -> Answer {
    let sent = Some(6);
    done(engine.handle_replication_resp(from.peer, from, &outcome(word), sent, 7))
}

/// Who has answered the first request of a leader in this vote, which had no entry before it.
pub fn answerer(peer: &str, word: &str, last: &str) -> Caller<u64> {
    caller(number(peer), vote(word), [None, log_id_if_any(last)])
}

fn appended(engine: &mut NumberedEngine, alloc: Global, words: &[&str]) -> Option<Answer> {
    Some(match *words {
        ["append", word, previous, committed, ref words @ ..] => {
            let req = request(alloc, vote(word), [previous, committed], words).ok()?;
            follows(engine, alloc, req)
        }
        ["reply", peer, word, last, outcome] => {
            is_told(engine, &answerer(peer, word, last), outcome)
        }
        _ => return None,
    })
}

// ---- snapshots

/// The snapshot of a group up to there, with a membership of the first entry.
pub fn snapshot_meta(last: LogId<u64>, members: Members) -> SnapshotMeta<u64, BasicNode>
    ensures { result.last_log_id ≡ Some last }
{
    SnapshotMeta {
        last_log_id: Some(last),
        last_membership: StoredMembership::new(Some(log_id("0-0-0")), members),
    }
}

fn builds(
    engine: &mut NumberedEngine,
    last: LogId<u64>,
    members: Members,
) -> Result<Result<(), CallError>, AllocError> {
    engine.finish_building_snapshot(snapshot_meta(last, members))
}

fn installs(
    engine: &mut NumberedEngine,
    vote: Vote<u64>,
    last: LogId<u64>,
    members: Members,
) -> Answer {
    if last.index >= 1000 {
        return Answer::Word("too far");
    }
    let from = caller(vote.leader_id.node_id, vote, [None, Some(last)]);
    let meta = snapshot_meta(last, members);
    done(engine.handle_install_full_snapshot(vote, meta, from, 7))
}

fn snapped(engine: &mut NumberedEngine, alloc: Global, words: &[&str]) -> Option<Answer> {
    Some(match *words {
        ["built", last, word] => {
            told(
                alloc,
                builds(engine, log_id(last), membership(alloc, word).ok()?),
            )
        }
        ["install", of, last, word] => {
            installs(
                engine,
                vote(of),
                log_id(last),
                membership(alloc, word).ok()?,
            )
        }
        _ => return None,
    })
}

// ---- rows

// The answer to a row of one word.
fn happened_alone(engine: &mut NumberedEngine, word: &str) -> Option<Answer> {
    Some(match word {
        "start" => done(starts(engine)),
        "elect" => done(stands(engine)),
        "try-purge" => done(tries_to_purge(engine)),
        "step-down" => done(steps_down(engine)),
        "ask-snapshot" => so(asks_for_snapshot(engine)),
        "postpone" => done(postpones(engine)),
        "end" => ends(engine),
        _ => return None,
    })
}

/// The answer to a row about an event.
pub fn happened(engine: &mut NumberedEngine, alloc: Global, words: &[&str]) -> Option<Answer> {
    if let [word] = *words {
        return happened_alone(engine, word);
    }
    if let Some(answer) = called(engine, alloc, words) {
        return Some(answer);
    }
    if let Some(answer) = voted(engine, words) {
        return Some(answer);
    }
    if let Some(answer) = appended(engine, alloc, words) {
        return Some(answer);
    }
    snapped(engine, alloc, words)
}
