//! A batch, its record, and what is read of damaged ones.

use crate::messages::{ByLength, Text};
use raft_log_records::{
    AtomicGroupBuilder, Command, LogBatch, RecordError, RecordFault, read_record,
};
use raft_rows::{Answer, bytes, number};
use std::alloc::{AllocError, Global};

/// A key may not be empty.
fn put(
    batch: &mut LogBatch,
    alloc: Global,
    group: u64,
    key: &str,
    value: &str,
) -> Result<(), RecordError> {
    let key = bytes(alloc, key)?;
    let value = bytes(alloc, value)?;
    if key.is_empty() {
        return Err(RecordError::Corruption(RecordFault::EmptyKey));
    }
    batch.put(group, key, value)
}

fn delete(batch: &mut LogBatch, alloc: Global, group: u64, key: &str) -> Result<(), RecordError> {
    let key = bytes(alloc, key)?;
    if key.is_empty() {
        return Err(RecordError::Corruption(RecordFault::EmptyKey));
    }
    batch.delete(group, key)
}

fn entries_of(alloc: Global, words: &[&str]) -> Result<Vec<Vec<u8>>, AllocError> {
    let mut entries = Vec::new(alloc);
    for word in words {
        entries.push(bytes(alloc, word)?)?;
    }
    Ok(entries)
}

/// Adds entries by their bytes, from an index up to 2^60 on.
fn entries(
    batch: &mut LogBatch,
    alloc: Global,
    group: u64,
    first: u64,
    words: &[&str],
) -> Result<(), RecordError> {
    let entries = entries_of(alloc, words)?;
    if first > 1 << 60 {
        return Err(RecordError::TooLong);
    }
    batch.add_raw_entries(group, first, &entries)
}

fn command(batch: &mut LogBatch, group: u64, command: Command) -> Result<(), RecordError> {
    batch.add_command(group, command)
}

/// The answer to a row that sets or removes a key, or adds entries or a command.
pub fn added(batch: &mut LogBatch, alloc: Global, words: &[&str]) -> Option<Answer> {
    let told = match words {
        ["put", group, key, value] => put(batch, alloc, number(group), key, value),
        ["delete", group, key] => delete(batch, alloc, number(group), key),
        ["entries", group, first, texts @ ..] => {
            entries(batch, alloc, number(group), number(first), texts)
        }
        ["clean", group] => command(batch, number(group), Command::Clean),
        ["compact", group, index] => {
            let index = number(index);
            command(batch, number(group), Command::Compact { index })
        }
        _ => return marked(batch, alloc, words),
    };
    Some(Answer::shown(alloc, &told))
}

// ---- marks and messages

fn mark(batch: &mut LogBatch, word: &str, id: u64) -> Result<(), RecordError> {
    let group = AtomicGroupBuilder::with_id(id);
    match word {
        "begin" => group.begin(batch),
        "middle" => group.add(batch),
        _ => group.end(batch),
    }
}

fn put_message(
    batch: &mut LogBatch,
    alloc: Global,
    group: u64,
    key: &str,
    text: &str,
) -> Result<(), RecordError> {
    let key = bytes(alloc, key)?;
    let message = Text::new(bytes(alloc, text)?);
    if key.is_empty() {
        return Err(RecordError::Corruption(RecordFault::EmptyKey));
    }
    batch.put_message(group, key, &message)
}

/// Adds an entry that is a message, whose index is its length.
fn add_message(
    batch: &mut LogBatch,
    alloc: Global,
    group: u64,
    text: &str,
) -> Result<(), RecordError> {
    let entry = Text::new(bytes(alloc, text)?);
    batch.add_entries::<ByLength>(group, &[entry])
}

/// The answer to a row that adds a mark or a message.
fn marked(batch: &mut LogBatch, alloc: Global, words: &[&str]) -> Option<Answer> {
    let told = match *words {
        ["mark", word, id] => mark(batch, word, number(id)),
        ["put-message", group, key, text] => put_message(batch, alloc, number(group), key, text),
        ["message", group, text] => add_message(batch, alloc, number(group), text),
        _ => return written(batch, alloc, words),
    };
    Some(Answer::shown(alloc, &told))
}

// ---- records

fn finished(batch: &mut LogBatch) -> Result<usize, RecordError> {
    batch.finish_populate()
}

fn encoded(batch: &LogBatch, alloc: Global) -> Result<Vec<u8>, AllocError> {
    Vec::from_slice(alloc, batch.encoded_bytes())
}

/// Whether the bytes are refused as no record.
fn is_refused(alloc: Global, bytes: &[u8]) -> bool {
    matches!(
        read_record(alloc, bytes, None),
        Err(RecordError::Corruption(_))
    )
}

/// With how many of the bytes changed all are refused: each byte in turn, in one bit.
fn refused_changes(alloc: Global, bytes: &[u8]) -> Result<usize, AllocError> {
    let mut refused: usize = 0;
    for at in 0..bytes.len() {
        let mut other = Vec::from_slice(alloc, bytes)?;
        other[at] ^= 0x10;
        if is_refused(alloc, &other) {
            refused = refused.saturating_add(1);
        }
    }
    Ok(refused)
}

/// The answer to a row about the batch's record.
fn written(batch: &mut LogBatch, alloc: Global, words: &[&str]) -> Option<Answer> {
    Some(match *words {
        ["finish"] => Answer::shown(alloc, &finished(batch)),
        ["bytes"] => Answer::bytes(alloc, encoded(batch, alloc)),
        ["refused-changes"] => Answer::shown(alloc, &refused_changes(alloc, batch.encoded_bytes())),
        _ => return None,
    })
}
