//! Votes, log ids and places that are stored alone.

use raft_rows::Answer;
use raft_state::{LogId, Vote};
use raft_wire::{
    FrameError, read_log_id, read_place, read_vote, write_log_id, write_place, write_vote,
};
use std::alloc::Global;

fn vote_of(bytes: &[u8]) -> Result<Vote<u64>, FrameError> {
    read_vote(bytes)
}

fn log_id_of(bytes: &[u8]) -> Result<LogId<u64>, FrameError> {
    read_log_id(bytes)
}

fn place_of(bytes: &[u8]) -> Result<u64, FrameError> {
    read_place(bytes)
}

/// The bytes that the vote of some bytes is written as.
fn vote_again(alloc: Global, bytes: &[u8]) -> Result<Vec<u8>, FrameError> {
    Ok(write_vote(alloc, &vote_of(bytes)?)?)
}

fn log_id_again(alloc: Global, bytes: &[u8]) -> Result<Vec<u8>, FrameError> {
    Ok(write_log_id(alloc, &log_id_of(bytes)?)?)
}

fn place_again(alloc: Global, bytes: &[u8]) -> Result<Vec<u8>, FrameError> {
    Ok(write_place(alloc, place_of(bytes)?)?)
}

/// The answer to a row about the vote, log id or place that the bytes are.
pub fn alone(bytes: &[u8], alloc: Global, words: &[&str]) -> Option<Answer> {
    Some(match *words {
        ["vote"] => Answer::shown(alloc, &vote_of(bytes)),
        ["vote-again"] => Answer::bytes(alloc, vote_again(alloc, bytes)),
        ["log-id"] => Answer::shown(alloc, &log_id_of(bytes)),
        ["log-id-again"] => Answer::bytes(alloc, log_id_again(alloc, bytes)),
        ["place"] => Answer::shown(alloc, &place_of(bytes)),
        ["place-again"] => Answer::bytes(alloc, place_again(alloc, bytes)),
        _ => return None,
    })
}
