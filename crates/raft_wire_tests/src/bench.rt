//! Work with frames, done so often that the instructions of a byte can be counted.

use crate::calls::{feed, new_feeder, written};
use raft_group_step::Entries;
use raft_messages::{AppendFields, GroupEntry, Message, MessageBody, RequestId};
use raft_rows::{Answer, number};
use raft_state::{Bytes, EntryPayload, LeaderId, LogId, Vote};
use raft_wire::{Feeder, Frame, FrameError};
use std::alloc::{AllocError, Global};

/// What is done in each round.
#[derive(Clone, Copy)]
enum Work {
    /// The frame is written.
    Write,
    /// The frame is read from one piece.
    Read,
    /// The frame is read from two pieces, so that the first is held.
    Halves,
}

impl Work {
    fn named(word: &str) -> Option<Work> {
        match word {
            "write" => Some(Work::Write),
            "read" => Some(Work::Read),
            "halves" => Some(Work::Halves),
            _ => None,
        }
    }
}

fn entry_of(alloc: Global, index: u64, bytes: &[u8]) -> Result<GroupEntry, AllocError> {
    let leader_id = LeaderId::new(1, 1);
    Ok(GroupEntry {
        log_id: LogId { leader_id, index },
        payload: EntryPayload::Normal(Bytes::from_slice(alloc, bytes)?),
    })
}

/// An append request of so many entries, each with a command of so many bytes.
fn frame_of(alloc: Global, count: u64, len: usize) -> Result<Frame, AllocError> {
    let bytes = Vec::from_elem(alloc, 7u8, len)?;
    let mut entries = Entries::new(alloc);
    for index in 0..count {
        entries.push(entry_of(alloc, index, &bytes)?)?;
    }
    let request = AppendFields {
        vote: Vote::new_committed(1, 1),
        id: RequestId::Numbered { id: 1 },
        previous: None,
        committed: None,
        entries,
    };
    let message = Message {
        sender: 1,
        addressee: 2,
        body: MessageBody::AppendRequest(request),
    };
    Ok(Frame { group: 7, message })
}

/// How many bytes of a piece are used.
fn used_of(feeder: &mut Feeder, piece: &[u8]) -> Result<usize, FrameError> {
    let fed = feed(feeder, piece);
    fed.frame?;
    Ok(fed.used)
}

/// One round: how many bytes the frame has.
fn round(
    alloc: Global,
    work: Work,
    frame: &Frame,
    feeder: &mut Feeder,
    bytes: &[u8],
) -> Result<usize, FrameError> {
    match work {
        Work::Write => Ok(written(alloc, frame)?.len()),
        Work::Read => used_of(feeder, bytes),
        Work::Halves => {
            let (first, second) = bytes.split_at(bytes.len() / 2);
            let begun = used_of(feeder, first)?;
            Ok(begun.saturating_add(used_of(feeder, second)?))
        }
    }
}

/// The frame's length as the last round found it.
fn rounds(alloc: Global, work: Work, frame: &Frame, rounds: u64) -> Result<usize, FrameError> {
    let bytes = written(alloc, frame)?;
    let mut feeder = new_feeder(alloc);
    let mut len = bytes.len();
    for _ in 0..rounds {
        len = round(alloc, work, frame, &mut feeder, &bytes)?;
    }
    Ok(len)
}

/// The answer to a row of work, `bench WORK ENTRIES LEN ROUNDS`: the frame's length in bytes.
pub fn counted(alloc: Global, words: &[&str]) -> Option<Answer> {
    let ["bench", work, count, len, often] = *words else {
        return None;
    };
    let work = Work::named(work)?;
    let Ok(frame) = frame_of(alloc, number(count), number(len) as usize) else {
        return Some(Answer::NoMemory);
    };
    let found = rounds(alloc, work, &frame, number(often));
    Some(Answer::shown(alloc, &found))
}
