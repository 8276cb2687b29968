//! Lists of log ids, and the state of a node's log.

use crate::events::so;
use crate::texts::each;
use raft_row_values::{IdText, log_id, membership};
use raft_rows::{Answer, number};
use raft_state::{
    BasicNode, EffectiveMembership, LeaderId, LogId, LogIdList, LogStateReader, Membership,
    RaftState, are_keys,
};
use std::alloc::{AllocError, Global};

// ---- lists

fn shown(alloc: Global, ids: &[LogId<u64>]) -> Option<Answer> {
    let mut texts = Vec::new(alloc);
    for id in ids {
        texts.push(IdText(Some(*id))).ok()?;
    }
    Some(each(alloc, &texts))
}

// Log ids with these keys, if they may be keys.
fn list_of(alloc: Global, words: &[&str]) -> Result<LogIdList<u64>, AllocError> {
    let mut keys = Vec::new(alloc);
    for word in words {
        keys.push(log_id(word))?;
    }
    if are_keys(&keys) {
        LogIdList::new(alloc, &keys)
    } else {
        Ok(LogIdList::default(alloc))
    }
}

/// The answer to a row about a list of log ids: its keys, or the log id at a place.
pub fn listed(list: &mut LogIdList<u64>, alloc: Global, words: &[&str]) -> Option<Answer> {
    match *words {
        ["get", place] => return Some(Answer::told(alloc, &IdText(list.get(number(place))))),
        ["last-leader"] => return shown(alloc, list.by_last_leader()),
        ["truncate", place] => list.truncate(number(place)),
        ["purge", word] => list.purge(&log_id(word)).ok()?,
        ["of", ref words @ ..] => *list = list_of(alloc, words).ok()?,
        _ => return None,
    }
    shown(alloc, list.key_log_ids())
}

// ---- states

/// What a node knows of its log.
pub type State = RaftState<u64, BasicNode, u64>;

fn commits(state: &mut State, upto: LogId<u64>) -> Result<bool, AllocError> {
    state.update_committed(&Some(upto))
}

// Whether the committed membership of this log id comes in force.
fn takes(
    state: &mut State,
    log_id: LogId<u64>,
    members: Membership<u64, BasicNode>,
) -> Result<bool, AllocError> {
    let taken = EffectiveMembership::new(Some(log_id), members);
    state.membership_state.update_committed(taken)
}

// A log of one leader, by the first and the last log id.
fn extends(alloc: Global) -> Result<Option<LogId<u64>>, AllocError> {
    let mut state: State = RaftState::default(alloc);
    // (that they go on is for the prover to see, so they are spelled here)
    let leader_id = LeaderId::new(1, 1);
    let log_ids = [LogId::new(leader_id, 0), LogId::new(leader_id, 1)];
    state.extend_log_ids_from_same_leader(&log_ids)?;
    Ok(state.last_log_id().copied())
}

// The last log id of a copy.
fn copied(state: &State) -> Result<Option<LogId<u64>>, AllocError> {
    Ok(state.clone()?.last_log_id().copied())
}

// The log id at a place, by the bound alone.
fn id_at<S: LogStateReader<u64>>(state: &S, place: u64) -> Option<LogId<u64>> {
    state.get_log_id(place)
}

/// The answer to a row about what a node knows of its log.
pub fn stated(state: &mut State, alloc: Global, words: &[&str]) -> Option<Answer> {
    Some(match *words {
        ["commit-to", word] => so(commits(state, log_id(word))),
        ["take", at, word] => so(takes(state, log_id(at), membership(alloc, word).ok()?)),
        ["one-leader"] => Answer::told(alloc, &IdText(extends(alloc).ok()?)),
        ["copy"] => Answer::told(alloc, &IdText(copied(state).ok()?)),
        ["get", place] => Answer::told(alloc, &IdText(id_at(state, number(place)))),
        _ => return None,
    })
}
