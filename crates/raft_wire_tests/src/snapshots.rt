//! Stored bodies of snapshots that are read and written.

use crate::calls::{are, snapshot_of, written_snapshot};
use raft_rows::Answer;
use std::alloc::Global;

/// The last log id that the body of some bytes covers, and the machine's bytes.
fn shown(alloc: Global, bytes: &[u8]) -> Answer {
    let parts = snapshot_of(alloc, bytes).map(|it| (it.meta.last_log_id, it.bytes));
    Answer::shown(alloc, &parts)
}

/// The bytes that the body of some bytes is written as.
fn written_again(alloc: Global, bytes: &[u8]) -> Answer {
    match snapshot_of(alloc, bytes) {
        Ok(snapshot) => Answer::bytes(alloc, written_snapshot(alloc, &snapshot)),
        Err(error) => Answer::shown(alloc, &error),
    }
}

/// What is found in bytes that are to be a body, by name. A body is written as its bytes.
pub fn found_snapshot(alloc: Global, bytes: &[u8]) -> &'static str {
    match snapshot_of(alloc, bytes) {
        Ok(snapshot) if are(written_snapshot(alloc, &snapshot), bytes) => "snapshot",
        Ok(_) => "another snapshot",
        Err(error) => error.name(),
    }
}

/// The answer to a row about the body that the bytes are.
pub fn kept(bytes: &[u8], alloc: Global, words: &[&str]) -> Option<Answer> {
    Some(match *words {
        ["snapshot-body"] => shown(alloc, bytes),
        ["snapshot-body-again"] => written_again(alloc, bytes),
        _ => return None,
    })
}
