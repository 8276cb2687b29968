//! Calls of an engine's handlers.

use crate::engines::{Numbered, NumberedEngine, text};
use crate::events::{answerer, done, entries, outcome, snapshot_meta, so, told};
use raft_engine::{CallError, Caller, Entries, LeaderHandler, Rejected};
use raft_messages::GroupEntry;
use raft_row_values::{IdText, entries as blanks, id, log_id, membership, payload, vote};
use raft_rows::{Answer, number};
use raft_state::{BasicNode, Bytes, EntryPayload, LogId, Membership, Vote};
use std::alloc::{AllocError, Global};

type Members = Membership<u64, BasicNode>;

// ---- votes and snapshots

fn updates(engine: &mut NumberedEngine, vote: Vote<u64>) -> Result<bool, AllocError> {
    engine.vote_handler().update_vote(vote, 5)
}

fn hears_of(engine: &mut NumberedEngine, vote: Vote<u64>) -> Result<(), AllocError> {
    engine.vote_handler().update_greater_vote(vote, 6)
}

fn keeps(
    engine: &mut NumberedEngine,
    last: LogId<u64>,
    members: Members,
) -> Result<bool, AllocError> {
    engine
        .snapshot_handler()
        .update_snapshot(snapshot_meta(last, members))
}

fn noted(engine: &mut NumberedEngine, alloc: Global, words: &[&str]) -> Option<Answer> {
    Some(match *words {
        ["update-vote", word] => so(updates(engine, vote(word))),
        ["hear-of", word] => done(hears_of(engine, vote(word))),
        ["update-snapshot", last, word] => {
            so(keeps(engine, log_id(last), membership(alloc, word).ok()?))
        }
        _ => return None,
    })
}

// ---- followers

type Told = Option<Result<Result<(), CallError>, AllocError>>;

fn appends(engine: &mut NumberedEngine, entries: Entries<u64, BasicNode, Bytes>) -> Told {
    if engine.leader.is_some() {
        return None;
    }
    Some(engine.following_handler().append_entries(entries))
}

fn commits_to(engine: &mut NumberedEngine, place: u64) -> Told {
    if engine.leader.is_some() {
        return None;
    }
    Some(engine.following_handler().commit_entries(Some(place)))
}

fn cuts(engine: &mut NumberedEngine, since: u64) -> Told {
    if engine.leader.is_some() {
        return None;
    }
    Some(engine.following_handler().truncate_logs(since))
}

fn followed(engine: &mut NumberedEngine, alloc: Global, words: &[&str]) -> Option<Answer> {
    let outcome = match *words {
        ["commit-to", place] => commits_to(engine, number(place)),
        ["cut-from", place] => cuts(engine, number(place)),
        ["follow", ref words @ ..] => appends(engine, entries(alloc, words).ok()?),
        _ => return None,
    };
    Some(told(alloc, outcome?))
}

// ---- leaders

fn establishes(engine: &mut NumberedEngine) -> Result<Result<(), CallError>, AllocError> {
    if !engine.has_room() {
        return Err(AllocError);
    }
    engine.establish_handler().establish(6)
}

fn writes(
    engine: &mut NumberedEngine,
    payload: EntryPayload<u64, BasicNode, Bytes>,
) -> Result<(), AllocError> {
    if !engine.has_room() || engine.leader.is_none() {
        return Err(AllocError);
    }
    engine.leader_handler().leader_append_entry(payload)
}

fn is_accepted(
    engine: &mut NumberedEngine,
    from: &Caller<u64>,
    word: &str,
) -> Result<(), AllocError> {
    if engine.leader.is_none() {
        return Err(AllocError);
    }
    engine
        .replication_handler()
        .update_progress(from.peer, from, &outcome(word), 7)
}

fn commits(engine: &mut NumberedEngine) -> Result<(), AllocError> {
    if engine.leader.is_none() || !engine.has_room() {
        return Err(AllocError);
    }
    engine.replication_handler().try_commit_quorum_accepted()
}

fn replicates(engine: &mut NumberedEngine) -> Result<(), AllocError> {
    if engine.leader.is_none() {
        return Err(AllocError);
    }
    engine.replication_handler().initiate_replication(None)
}

fn purges(engine: &mut NumberedEngine) -> Result<(), AllocError> {
    if engine.leader.is_none() {
        return Err(AllocError);
    }
    engine.replication_handler().try_purge_log()
}

fn beats(mut handler: LeaderHandler<'_, Numbered>) -> Answer {
    done(handler.send_heartbeat())
}

// The leader speaks, or the node names who is to be asked.
fn speaks_or_forwards(engine: &mut NumberedEngine, alloc: Global) -> Answer {
    match engine.get_leader_handler_or_reject(7u8) {
        Ok((handler, _token)) => beats(handler),
        Err(Rejected { forward, .. }) => match forward {
            Ok(forward) => Answer::shown(alloc, &forward),
            Err(_) => Answer::NoMemory,
        },
    }
}

fn led(engine: &mut NumberedEngine, alloc: Global, words: &[&str]) -> Option<Answer> {
    Some(match *words {
        ["establish"] => told(alloc, establishes(engine)),
        ["write", word] => done(writes(engine, payload(alloc, word).ok()?)),
        ["accepted", peer, of, last, word] => {
            done(is_accepted(engine, &answerer(peer, of, last), word))
        }
        ["commit"] => done(commits(engine)),
        ["replicate"] => done(replicates(engine)),
        ["purge"] => done(purges(engine)),
        ["speak-or-forward"] => speaks_or_forwards(engine, alloc),
        _ => return None,
    })
}

// ---- log ids that a leader gives

// Whether three entries get the log ids behind the leader's last one.
fn gives(engine: &mut NumberedEngine, entries: &mut [GroupEntry]) -> bool {
    let Some(leader) = &mut engine.leader else {
        return false;
    };
    match leader.last_log_id() {
        Some(last) if last.index < 1000 && entries.len() == 3 => {
            leader.assign_log_ids(entries);
            true
        }
        _ => false,
    }
}

fn given(engine: &mut NumberedEngine, alloc: Global) -> Result<String, AllocError> {
    let mut entries = blanks(alloc, id(0, 0, 0), &["blank", "blank", "blank"])?;
    let are_given = gives(engine, entries.as_mut_slice());
    match entries.as_slice() {
        [a, b, c] if are_given => {
            let (a, b, c) = (
                IdText(Some(a.log_id)),
                IdText(Some(b.log_id)),
                IdText(Some(c.log_id)),
            );
            format!(in alloc; "{a} {b} {c}")
        }
        _ => Ok(String::new(alloc)),
    }
}

/// The answer to a row about a handler.
pub fn handled(engine: &mut NumberedEngine, alloc: Global, words: &[&str]) -> Option<Answer> {
    if let ["give-three"] = *words {
        return Some(text(given(engine, alloc)));
    }
    if let Some(answer) = noted(engine, alloc, words) {
        return Some(answer);
    }
    if let Some(answer) = followed(engine, alloc, words) {
        return Some(answer);
    }
    led(engine, alloc, words)
}
