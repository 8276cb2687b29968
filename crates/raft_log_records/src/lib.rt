//! Batches of the log engine, their bytes as records, and their checksum.
#![tactic(auto)]

mod atomic;
mod batch;
mod block;
mod checksum;
mod command;
mod entries;
mod error;
mod file_id;
mod item;
mod laws;
mod message;
mod reading;
mod record;
mod size;
mod stats;
mod version;
mod writing;

pub use atomic::AtomicGroupBuilder;
pub use batch::LogBatch;
pub use block::EntriesBlock;
pub use checksum::{Checksum, crc32, crc32_by_bytes, is_intact};
pub use command::Command;
pub use error::{RecordError, RecordFault, WriteError};
pub use file_id::{FileBlockHandle, FileId, FileSeq, LogQueue};
pub use item::{AtomicGroupStatus, EntryIndex, LogItem, LogItemContent};
pub use laws::{lengths_are_told, records_are_told_by_their_bytes, zeros_are_no_record};
pub use message::{Message, MessageExt};
pub use record::{
    LogItemBatch, MAX_RECORD_LEN, Record, read_entries_block, read_record, record_len,
};
pub use size::ReadableSize;
pub use stats::GlobalStats;
pub use version::{LogFileContext, Version};
