//! The items of a batch.

use crate::command::Command;
use crate::file_id::FileBlockHandle;

/// An entry of a group: its index, and where its bytes lie (raft-engine's `EntryIndex`).
#[derive(Clone, Copy, Debug, PartialEq, Eq)]
pub struct EntryIndex {
    pub index: u64,
    /// The block of entries in a log file, once the batch stands in one.
    pub entries: Option<FileBlockHandle>,
    /// The bytes of the block before the entry's own.
    pub entry_offset: u32,
    /// The entry's length in bytes.
    pub entry_len: u32,
}

/// Which record of an atomic group a mark stands in. The records from the first to the last count
/// together or not at all.
#[derive(Clone, Copy, Debug, PartialEq, Eq)]
pub enum AtomicGroupStatus {
    Begin,
    Middle,
    End,
}

/// What an item does (raft-engine's `LogItemContent`).
#[derive(Debug, Drop)]
pub enum LogItemContent {
    /// Entries with consecutive indexes. They take the place of all from the first one on.
    EntryIndexes(Vec<EntryIndex>),
    Command(Command),
    /// Sets a key, which is not empty.
    Put { key: Vec<u8>, value: Vec<u8> },
    /// Removes a key, which is not empty.
    Delete { key: Vec<u8> },
    /// Says that the record belongs to an atomic group, and where in it.
    AtomicGroup { id: u64, status: AtomicGroupStatus },
}

/// One change of one group (raft-engine's `LogItem`).
#[derive(Debug, Drop)]
pub struct LogItem {
    pub raft_group_id: u64,
    pub content: LogItemContent,
}
