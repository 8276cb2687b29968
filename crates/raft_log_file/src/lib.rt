//! One file of the log: its writer, its readers, and what it reads as.
#![tactic(auto)]

mod batches;
mod laws;
mod reader;
mod writer;

pub use batches::{LogItemBatchFileReader, ReadBatch};
pub use laws::{
    synced_files_read_the_same, unsynced_batches_are_a_front, written_batches_are_read,
};
pub use reader::{LogFileReader, build_file_reader};
pub use writer::{FILE_ALLOCATE_SIZE, LogFileWriter, build_file_writer};
