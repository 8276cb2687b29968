//! Frames that are read and written, and streams that fail.

use crate::calls::{fed_at_once, feed, has_failed, reset, written};
use raft_rows::{Answer, bytes};
use raft_wire::{Fed, Feeder, Frame, FrameError, FrameKind};
use std::alloc::Global;

fn kind_of(frame: &Frame) -> FrameKind {
    frame.kind()
}

// Who sent a frame, to whom, and its kind.
fn told_of(frame: &Frame) -> (u64, u64, FrameKind) {
    (
        frame.message.sender,
        frame.message.addressee,
        kind_of(frame),
    )
}

// How many bytes were used, and what is told of the frame behind them.
fn shown(alloc: Global, fed: Fed) -> Answer {
    match &fed.frame {
        Ok(Some(frame)) => Answer::shown(
            alloc,
            &(fed.used, Ok::<_, FrameError>(Some(told_of(frame)))),
        ),
        Ok(None) => Answer::shown(alloc, &(fed.used, Ok::<Option<u64>, FrameError>(None))),
        Err(error) => Answer::shown(alloc, &(fed.used, Err::<u64, _>(*error))),
    }
}

fn frame_at(alloc: Global, stream: &[u8]) -> Result<Option<Frame>, FrameError> {
    fed_at_once(alloc, stream).frame
}

fn kind(alloc: Global, stream: &[u8]) -> Answer {
    match frame_at(alloc, stream) {
        Ok(Some(frame)) => Answer::shown(alloc, &kind_of(&frame)),
        _ => Answer::Word("no frame"),
    }
}

/// The bytes that the frame at the front of a stream is written as.
fn written_again(alloc: Global, stream: &[u8]) -> Answer {
    match frame_at(alloc, stream) {
        Ok(Some(frame)) => Answer::bytes(alloc, written(alloc, &frame)),
        _ => Answer::Word("no frame"),
    }
}

/// The number and the name of a refusal.
fn refusal(alloc: Global, error: FrameError) -> Answer {
    Answer::shown(alloc, &(error.number(), error.name()))
}

/// The answer to a row about the stream that a feeder takes.
pub fn streamed(feeder: &mut Feeder, alloc: Global, words: &[&str]) -> Option<Answer> {
    Some(match *words {
        ["feed", piece] => match bytes(alloc, piece) {
            Ok(piece) => shown(alloc, feed(feeder, &piece)),
            Err(_) => Answer::NoMemory,
        },
        ["failed"] => Answer::shown(alloc, &has_failed(feeder)),
        ["reset"] => {
            reset(feeder);
            Answer::Word("()")
        }
        _ => return None,
    })
}

/// The answer to a row about the frame that the bytes are.
pub fn framed(stream: &[u8], alloc: Global, words: &[&str]) -> Option<Answer> {
    Some(match *words {
        ["frame"] => shown(alloc, fed_at_once(alloc, stream)),
        ["kind"] => kind(alloc, stream),
        ["frame-again"] => written_again(alloc, stream),
        ["refusal", "StreamFailed"] => refusal(alloc, FrameError::StreamFailed),
        ["refusal", "Memory"] => refusal(alloc, FrameError::Memory),
        _ => return None,
    })
}
