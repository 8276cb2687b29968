//! Frames in pieces, and with want of memory.

use crate::calls::{are, feed, has_failed, new_feeder, written};
use raft_rows::{Answer, number};
use raft_wire::{Fed, Feeder, Frame, FrameError};
use std::alloc::Global;

/// Whether all of the piece is taken, and there is neither a frame nor a fault.
fn waits_after(feeder: &mut Feeder, piece: &[u8]) -> bool {
    let begun = feed(feeder, piece);
    begun.used == piece.len() && matches!(begun.frame, Ok(None)) && !has_failed(feeder)
}

/// Whether all of the piece is taken, and there is the frame that is written as these bytes.
fn ends_after(alloc: Global, feeder: &mut Feeder, piece: &[u8], bytes: &[u8]) -> bool {
    let ended = feed(feeder, piece);
    if ended.used != piece.len() {
        return false;
    }
    match ended.frame {
        Ok(Some(frame)) => are(written(alloc, &frame), bytes),
        _ => false,
    }
}

fn is_read_in_two(alloc: Global, first: &[u8], second: &[u8], bytes: &[u8]) -> bool {
    let mut feeder = new_feeder(alloc);
    waits_after(&mut feeder, first) && ends_after(alloc, &mut feeder, second, bytes)
}

/// At how many places a frame can be cut in two, so that the first piece is waited after and the
/// second gives it.
fn cuts(alloc: Global, bytes: &[u8]) -> usize {
    let mut count: usize = 0;
    for at in 0..bytes.len() {
        let (first, second) = bytes.split_at(at);
        if is_read_in_two(alloc, first, second, bytes) {
            count = count.saturating_add(1);
        }
    }
    count
}

// ---- pieces of a size

/// How many of the expected bytes the frame is written as, 0 where there is no frame yet. Nothing
/// where it is written otherwise, or the stream is refused.
fn given(
    alloc: Global,
    expected: &[u8],
    frame: Result<Option<Frame>, FrameError>,
) -> Option<usize> {
    match frame {
        Ok(None) => Some(0),
        Err(_) => None,
        Ok(Some(frame)) => {
            let bytes = written(alloc, &frame).ok()?;
            expected.starts_with(&bytes).then_some(bytes.len())
        }
    }
}

/// Whether pieces of so many bytes at most give all frames of the stream.
fn is_read_in_pieces(alloc: Global, stream: &[u8], size: usize) -> bool {
    let mut feeder = new_feeder(alloc);
    let mut rest = stream;
    let mut expected = stream;
    for _ in 0..stream.len() {
        let Fed { used, frame } = feed(&mut feeder, rest.get(..size).unwrap_or(rest));
        let Some(len) = given(alloc, expected, frame) else {
            return false;
        };
        rest = rest.get(used..).unwrap_or(&[]);
        expected = expected.get(len..).unwrap_or(&[]);
    }
    expected.is_empty()
}

/// For how many sizes, up to the greatest, pieces of that size give all frames.
fn sizes(alloc: Global, stream: &[u8], greatest: usize) -> usize {
    let mut count: usize = 0;
    for size in 1..=greatest {
        if is_read_in_pieces(alloc, stream, size) {
            count = count.saturating_add(1);
        }
    }
    count
}

// ---- want of memory

/// Feeds the piece, and once more where memory was wanting, which changes nothing.
fn fed_at_last(feeder: &mut Feeder, piece: &[u8]) -> Result<Option<Frame>, FrameError> {
    let fed = feed(feeder, piece);
    match fed.frame {
        Err(FrameError::Memory) if fed.used == 0 && !has_failed(feeder) => {
            feed(feeder, piece).frame
        }
        frame => frame,
    }
}

/// Writes the frame, once more where memory was wanting.
fn written_at_last(alloc: Global, frame: &Frame) -> Result<Vec<u8>, FrameError> {
    match written(alloc, frame) {
        Err(FrameError::Memory) => written(alloc, frame),
        first => first,
    }
}

/// Whether the piece ends the frame of these bytes, which is written as them.
fn gives(alloc: Global, feeder: &mut Feeder, piece: &[u8], bytes: &[u8]) -> bool {
    match fed_at_last(feeder, piece) {
        Ok(Some(frame)) => are(written_at_last(alloc, &frame), bytes),
        _ => false,
    }
}

/// In two pieces, and then whole.
fn is_read_though_refused(alloc: Global, bytes: &[u8]) -> bool {
    let (first, second) = bytes.split_at(bytes.len() / 2);
    let mut feeder = new_feeder(alloc);
    matches!(fed_at_last(&mut feeder, first), Ok(None))
        && gives(alloc, &mut feeder, second, bytes)
        && gives(alloc, &mut feeder, bytes, bytes)
}

/// The answer to a row about the frame that the bytes are, or about all frames.
pub fn pieced(bytes: &[u8], all: &[u8], alloc: Global, words: &[&str]) -> Option<Answer> {
    Some(match *words {
        ["frame-in-two"] => Answer::shown(alloc, &cuts(alloc, bytes)),
        ["frames-in-pieces", greatest] => {
            Answer::shown(alloc, &sizes(alloc, all, number(greatest) as usize))
        }
        ["frame-though-refused"] => Answer::truth(is_read_though_refused(alloc, bytes)),
        _ => return None,
    })
}
