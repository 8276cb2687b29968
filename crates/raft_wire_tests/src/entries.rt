//! Stored entries that are read and written.

use crate::calls::{are, entry_of, written_entry};
use raft_messages::is_within_limits;
use raft_rows::Answer;
use raft_state::{BasicNode, EntryPayload, Membership};
use std::alloc::Global;

fn is_short(membership: &Membership<u64, BasicNode>) -> bool {
    is_within_limits(membership)
}

/// Whether the membership of an entry is within the limits.
fn has_short_membership(alloc: Global, bytes: &[u8]) -> Answer {
    match entry_of(alloc, bytes) {
        Ok(entry) => match &entry.payload {
            EntryPayload::Membership(membership) => Answer::shown(alloc, &is_short(membership)),
            _ => Answer::Word("no membership"),
        },
        Err(error) => Answer::shown(alloc, &error),
    }
}

/// The bytes that the entry of some bytes is written as.
fn written_again(alloc: Global, bytes: &[u8]) -> Answer {
    match entry_of(alloc, bytes) {
        Ok(entry) => Answer::bytes(alloc, written_entry(alloc, &entry)),
        Err(error) => Answer::shown(alloc, &error),
    }
}

/// The log id of the entry that the bytes are.
fn shown(alloc: Global, bytes: &[u8]) -> Answer {
    Answer::shown(alloc, &entry_of(alloc, bytes).map(|it| it.log_id))
}

/// What is found in bytes that are to be an entry, by name. An entry is written as its bytes.
pub fn found_entry(alloc: Global, bytes: &[u8]) -> &'static str {
    match entry_of(alloc, bytes) {
        Ok(entry) if are(written_entry(alloc, &entry), bytes) => "entry",
        Ok(_) => "another entry",
        Err(error) => error.name(),
    }
}

/// The answer to a row about the entry that the bytes are.
pub fn stored(bytes: &[u8], alloc: Global, words: &[&str]) -> Option<Answer> {
    Some(match *words {
        ["entry"] => shown(alloc, bytes),
        ["entry-again"] => written_again(alloc, bytes),
        ["entry-membership-is-short"] => has_short_membership(alloc, bytes),
        _ => return None,
    })
}
