//! Where the block of entries stands in a record and in a log file.

ghost use Rattle.std.specs.Prelude.{◌≡◌, ◌<◌, ◌+◌, ◌^◌};

use crate::file_id::{FileBlockHandle, FileId};

/// Where the block of entries, with its checksum, stands in a record (own; raft-engine finds it by
/// the length of a record's header and by its footer's offset).
#[derive(Clone, Copy, Debug, PartialEq, Eq)]
pub struct EntriesBlock {
    /// The bytes of the record before it.
    pub offset: u64,
    /// Its length in bytes, with its checksum.
    pub len: u64,
}

impl EntriesBlock {
    /// The block of entries that have so many bytes together.
    pub(crate) fn holding(entries_len: u64) -> EntriesBlock
        requires { entries_len + 4 < 2 ^ 64 }
        ensures offset { result.offset ≡ 8 }
        ensures len { result.len ≡ entries_len + 4 }
    {
        EntriesBlock {
            offset: 8,
            len: entries_len + 4,
        }
    }

    /// Where the block stands in a log file in which its record begins behind `start` bytes.
    pub fn in_file(&self, id: FileId, start: u64) -> FileBlockHandle
        requires { start + self.now.offset < 2 ^ 64 }
        ensures id { result.id ≡ id }
        ensures offset { result.offset ≡ start + self.now.offset }
        ensures len { result.len ≡ self.now.len }
    {
        FileBlockHandle {
            id,
            offset: start + self.offset,
            len: self.len,
        }
    }
}
