//! Readers of a log file.

ghost use Rattle.raft_log_file.specs.Reader.{IsReader};

use crate::items::listed;
use crate::writing::format_of;
use raft_log_file::{LogItemBatchFileReader, ReadBatch, build_file_reader};
use raft_log_files::{Error, Fd, FileSystem, LogFileFormat, MemoryFileSystem};
use raft_log_records::{FileId, LogQueue};
use raft_rows::{Answer, number};
use std::alloc::{AllocError, Global};

/// A batch that was read: where its record begins, the record's length, where its block of entries
/// stands and that one's length, and how many items it has.
type FoundBatch = (u64, u32, u64, u64, usize);

/// All that was read of a file: its batches, what ended it, up to where it was read, and whether a
/// batch was found behind the end.
type Whole = (Vec<FoundBatch>, Result<(), Error>, u64, Result<bool, Error>);

fn found_batch(read: &ReadBatch) -> FoundBatch {
    let items = read.batch.items.len();
    (
        read.offset,
        read.len,
        read.block.offset,
        read.block.len,
        items,
    )
}

/// Reads up to the end, or up to a fault.
fn all<F: FileSystem>(
    files: &F,
    alloc: Global,
    reader: &mut LogItemBatchFileReader,
) -> Result<Whole, AllocError>
    requires { IsReader reader.old (F.disk files.now) }
{
    let mut batches = Vec::new(alloc);
    let mut end = Ok(());
    for _read in 0..u64::MAX {
        match reader.next(files, alloc) {
            Ok(Some(read)) => batches.push(found_batch(&read))?,
            Ok(None) => break,
            Err(error) => {
                end = Err(error);
                break;
            }
        }
    }
    let again = reader.next(files, alloc).map(|read| read.is_some());
    Ok((batches, end, reader.valid_offset(), again))
}

/// All that a file of the append queue reads as, of this format and number, by blocks of this size.
fn read_all(
    files: &MemoryFileSystem,
    alloc: Global,
    fd: u64,
    format: LogFileFormat,
    seq: u64,
    read_block_size: u64,
) -> Result<Whole, Error> {
    let mut reader = LogItemBatchFileReader::new(alloc, read_block_size);
    let id = FileId::new(LogQueue::Append, seq);
    reader.open(files, id, format, build_file_reader(Fd(fd)))?;
    Ok(all(files, alloc, &mut reader)?)
}

fn format(files: &MemoryFileSystem, alloc: Global, fd: u64) -> Result<LogFileFormat, Error> {
    build_file_reader(Fd(fd)).parse_format(files, alloc)
}

/// The same, of the format that the file shows.
fn shown(
    files: &MemoryFileSystem,
    alloc: Global,
    fd: u64,
    seq: u64,
    read_block_size: u64,
) -> Result<Whole, Error> {
    read_all(
        files,
        alloc,
        fd,
        format(files, alloc, fd)?,
        seq,
        read_block_size,
    )
}

/// The answer to a row that reads.
pub fn read(files: &mut MemoryFileSystem, alloc: Global, words: &[&str]) -> Option<Answer> {
    let told = match *words {
        ["format", fd] => return Some(Answer::shown(alloc, &format(files, alloc, number(fd)))),
        ["shown", fd, seq, size] => shown(files, alloc, number(fd), number(seq), number(size)),
        ["batches", fd, word, alignment, seq, size] => {
            let format = format_of(word, alignment);
            read_all(files, alloc, number(fd), format, number(seq), number(size))
        }
        _ => return listed(files, alloc, words),
    };
    Some(Answer::shown(alloc, &told))
}
