//! Bytes that are changed and cut short, and what is found in them then.

use crate::calls::{are, fed_at_once, written};
use crate::entries::found_entry;
use crate::snapshots::found_snapshot;
use raft_rows::{Answer, number};
use raft_wire::Fed;
use std::alloc::{AllocError, Global};

/// What bytes are to be.
#[derive(Clone, Copy)]
enum Kind {
    Frame,
    Entry,
    Snapshot,
}

/// What a feeder found at the front of a stream, and how many bytes a frame has. A frame is written
/// as its bytes.
fn found_frame(alloc: Global, stream: &[u8]) -> (&'static str, usize) {
    let Fed { used, frame } = fed_at_once(alloc, stream);
    match frame {
        Ok(None) => ("more", 0),
        Err(error) => (error.name(), 0),
        Ok(Some(frame)) => {
            let bytes = stream.get(..used).unwrap_or(stream);
            if are(written(alloc, &frame), bytes) {
                ("frame", used)
            } else {
                ("another frame", used)
            }
        }
    }
}

fn found(alloc: Global, kind: Kind, bytes: &[u8]) -> (&'static str, usize) {
    match kind {
        Kind::Frame => found_frame(alloc, bytes),
        Kind::Entry => (found_entry(alloc, bytes), 0),
        Kind::Snapshot => (found_snapshot(alloc, bytes), 0),
    }
}

/// Puts a place and what was found there behind the others, unless it is the same as before.
fn put(
    text: &mut String,
    last: &mut (&'static str, usize),
    place: usize,
    found: (&'static str, usize),
) -> Result<(), AllocError> {
    if *last != found {
        let (word, used) = found;
        write!(text, "[{place} {word} {used}]")?;
        *last = found;
    }
    Ok(())
}

/// What is found with each value of the byte at a place: from which value on.
fn each_value(alloc: Global, kind: Kind, bytes: &[u8], at: usize) -> Result<String, AllocError> {
    let mut changed = Vec::from_slice(alloc, bytes)?;
    let mut text = String::new(alloc);
    let mut last = ("", 0);
    for value in 0..=255u8 {
        if let Some(byte) = changed.get_mut(at) {
            *byte = value;
        }
        put(
            &mut text,
            &mut last,
            usize::from(value),
            found(alloc, kind, &changed),
        )?;
    }
    Ok(text)
}

/// What is found in the first bytes of a frame under their own length, with each behind it in turn
/// as 255, which are often two faults: from which place on.
fn cut(alloc: Global, frame: &[u8], len: usize) -> Result<String, AllocError> {
    let mut text = String::new(alloc);
    let mut last = ("", 0);
    for at in 4..len {
        let mut bytes = Vec::from_slice(alloc, frame.get(..len).unwrap_or(frame))?;
        if let Some(byte) = bytes.get_mut(3) {
            *byte = (len.wrapping_sub(4) % 256) as u8;
        }
        if let Some(byte) = bytes.get_mut(at) {
            *byte = 255;
        }
        put(&mut text, &mut last, at, found_frame(alloc, &bytes))?;
    }
    Ok(text)
}

/// What is found in each front of the bytes: from which length on.
fn each_front(alloc: Global, kind: Kind, bytes: &[u8]) -> Result<String, AllocError> {
    let mut text = String::new(alloc);
    let mut last = ("", 0);
    for len in 0..bytes.len() {
        let front = found(alloc, kind, &bytes[..len]);
        put(&mut text, &mut last, len, front)?;
    }
    Ok(text)
}

/// The answer to a row that changes or cuts the bytes.
pub fn changed(bytes: &[u8], alloc: Global, words: &[&str]) -> Option<Answer> {
    let text = match *words {
        ["frame-with", at] => each_value(alloc, Kind::Frame, bytes, number(at) as usize),
        ["frame-cut", len] => cut(alloc, bytes, number(len) as usize),
        ["entry-with", at] => each_value(alloc, Kind::Entry, bytes, number(at) as usize),
        ["entry-fronts"] => each_front(alloc, Kind::Entry, bytes),
        ["snapshot-body-with", at] => {
            each_value(alloc, Kind::Snapshot, bytes, number(at) as usize)
        }
        ["snapshot-body-fronts"] => each_front(alloc, Kind::Snapshot, bytes),
        _ => return None,
    };
    Some(match text {
        Ok(text) => Answer::Text(text),
        Err(_) => Answer::Word("no memory"),
    })
}
