//! Large frames, and for how many bytes a feeder has memory meanwhile.

use crate::calls::{feed, new_feeder, room_of};
use raft_rows::{Answer, number};
use raft_wire::{Feeder, MAX_IDLE_ROOM};
use std::alloc::{AllocError, Global};

/// A length below 2^32 as four bytes.
fn length_bytes(len: usize) -> [u8; 4] {
    ((len % 4_294_967_296) as u32).to_be_bytes()
}

/// A snapshot's frame with so many bytes of the machine in place of its 8, of another kind.
fn lengthened(alloc: Global, frame: &[u8], kind: u8, len: usize) -> Result<Vec<u8>, AllocError> {
    let covered = frame.get(5..frame.len().saturating_sub(12)).unwrap_or(&[]);
    let behind = covered.len().saturating_add(5).saturating_add(len);
    let mut bytes = Vec::new(alloc);
    bytes.extend_from_slice(&length_bytes(behind))?;
    bytes.push(kind)?;
    bytes.extend_from_slice(covered)?;
    bytes.extend_from_slice(&length_bytes(len))?;
    bytes.extend_from_slice(&Vec::from_elem(alloc, 7u8, len)?)?;
    Ok(bytes)
}

/// Whether memory for so many bytes follows what has come of a frame of this length.
fn is_small(room: usize, come: usize, len: usize) -> bool {
    room <= MAX_IDLE_ROOM || room <= len.min(come.saturating_mul(4))
}

/// Whether the whole block before and the one after, which may both stand while bytes are moved, are
/// together at most a quarter more than the frame and what an idle feeder has.
fn is_small_step(before: usize, after: usize, len: usize) -> bool {
    let limit = len.saturating_add(len / 4).saturating_add(MAX_IDLE_ROOM);
    after == before || before.saturating_add(after) <= limit
}

/// How many bytes are taken of a frame in pieces, whether the feeder always had little memory, and
/// whether it gave that back in the end.
fn rooms(feeder: &mut Feeder, frame: &[u8], size: usize) -> (usize, bool, bool) {
    let mut taken: usize = 0;
    let mut small = room_of(feeder) <= MAX_IDLE_ROOM;
    for piece in frame.chunks(size.max(1)) {
        let before = room_of(feeder);
        taken = taken.saturating_add(feed(feeder, piece).used);
        let after = room_of(feeder);
        small = small && is_small(after, taken, frame.len());
        small = small && is_small_step(before, after, frame.len());
    }
    (taken, small, room_of(feeder) <= MAX_IDLE_ROOM)
}

/// The same of two frames, one behind the other.
fn rooms_of_two(
    alloc: Global,
    first: &[u8],
    second: &[u8],
    size: usize,
) -> ((usize, bool, bool), (usize, bool, bool)) {
    let mut feeder = new_feeder(alloc);
    let before = rooms(&mut feeder, first, size);
    (before, rooms(&mut feeder, second, size))
}

// The answer to a row about one frame of this kind and length, in pieces of this size.
fn of_one(bytes: &[u8], alloc: Global, kind: u64, len: u64, size: u64) -> Option<Answer> {
    let frame = lengthened(alloc, bytes, (kind % 256) as u8, len as usize).ok()?;
    let mut feeder = new_feeder(alloc);
    let found = rooms(&mut feeder, &frame, size as usize);
    Some(Answer::shown(alloc, &found))
}

// The answer to a row about two frames of these lengths.
fn of_two(bytes: &[u8], alloc: Global, first: u64, second: u64, size: u64) -> Option<Answer> {
    let first = lengthened(alloc, bytes, 5, first as usize).ok()?;
    let second = lengthened(alloc, bytes, 5, second as usize).ok()?;
    let found = rooms_of_two(alloc, &first, &second, size as usize);
    Some(Answer::shown(alloc, &found))
}

/// The answer to a row about a large frame that is made of the frame that the bytes are.
pub fn roomy(bytes: &[u8], alloc: Global, words: &[&str]) -> Option<Answer> {
    match *words {
        ["large-frame", kind, len, size] => {
            of_one(bytes, alloc, number(kind), number(len), number(size))
        }
        ["two-frames", first, second, size] => {
            of_two(bytes, alloc, number(first), number(second), number(size))
        }
        _ => None,
    }
}
