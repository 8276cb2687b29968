//! Entries.

use crate::log_ids::log_id;
use crate::memberships::membership;
use raft_rows::bytes;
use raft_state::{BasicNode, Bytes, Entry, EntryPayload, LogId};
use std::alloc::{AllocError, Global};

type Payload = EntryPayload<u64, BasicNode, Bytes>;

/// A word such as `blank` or `members:1,2/1=a,2=b`; any other one is a command, `"ab\x00"`.
pub fn payload(alloc: Global, word: &str) -> Result<Payload, AllocError> {
    Ok(match word.split_once(':') {
        Some(("members", members)) => EntryPayload::Membership(membership(alloc, members)?),
        _ if word == "blank" => EntryPayload::Blank,
        _ => EntryPayload::Normal(Bytes::from_slice(alloc, &bytes(alloc, word)?)?),
    })
}

/// A word such as `8-1-3:blank`: a log id and a payload.
pub fn entry(alloc: Global, word: &str) -> Result<Entry<u64, BasicNode, Bytes>, AllocError> {
    let (at, asked) = word.split_once(':').unwrap_or((word, "blank"));
    Ok(Entry {
        log_id: log_id(at),
        payload: payload(alloc, asked)?,
    })
}

/// Entries of one leader, one for each word, the first with this log id.
pub fn entries(
    alloc: Global,
    first: LogId<u64>,
    words: &[&str],
) -> Result<Vec<Entry<u64, BasicNode, Bytes>>, AllocError> {
    let mut entries = Vec::new(alloc);
    let mut log_id = first;
    for word in words {
        entries.push(Entry {
            log_id,
            payload: payload(alloc, word)?,
        })?;
        log_id.index = log_id.index.saturating_add(1);
    }
    Ok(entries)
}
