//! Work that is done so often that its instructions can be counted.

use crate::disk::made;
use raft_disk_uses::append;
use raft_log_disk::{Fd, FileSystem, IoFault, MemoryFileSystem};
use raft_log_records::{crc32, crc32_by_bytes};
use raft_rows::{Answer, number};
use std::alloc::{AllocError, Global};

fn pattern(alloc: Global, len: usize) -> Result<Vec<u8>, AllocError> {
    let mut bytes = Vec::with_capacity(alloc, len)?;
    for place in 0..len {
        bytes.push((place % 251) as u8)?;
    }
    Ok(bytes)
}

/// The last round's checksum, by sixteen bytes at a time or one by one. Each round's lowest byte goes
/// to the front, so that no round is the one before it.
fn checksum(alloc: Global, is_by_bytes: bool, len: u64, rounds: u64) -> Result<String, AllocError> {
    let mut bytes = pattern(alloc, len as usize)?;
    let mut checksum = 0;
    for _ in 0..rounds {
        if let Some(first) = bytes.first_mut() {
            *first = (checksum & 0xff) as u8;
        }
        checksum = if is_by_bytes {
            crc32_by_bytes(&bytes)
        } else {
            crc32(&bytes)
        };
    }
    format!(in alloc; "{checksum:08x}")
}

/// Makes so many other files, then one of so many bytes.
fn made_among(
    files: &mut MemoryFileSystem,
    alloc: Global,
    before: u64,
    others: u64,
) -> Result<Fd, IoFault> {
    files.make_dir("raft")?;
    for number in 0..others {
        let path = format!(in alloc; "raft/{number:016}.rewrite")?;
        let _ = made(files, path.as_str())?;
    }
    let fd = made(files, "raft/0000000000000001.raftlog")?;
    files.truncate(fd, before)?;
    files.sync(fd)?;
    Ok(fd)
}

/// The size of a file that had so many bytes, among so many others, behind appends of so many bytes,
/// each synced.
fn appended(
    files: &mut MemoryFileSystem,
    alloc: Global,
    len: u64,
    before: u64,
    rounds: u64,
    others: u64,
) -> Result<u64, IoFault> {
    *files = MemoryFileSystem::new(alloc);
    let fd = made_among(files, alloc, before, others)?;
    let bytes = Vec::from_elem(alloc, 7u8, len as usize)?;
    for _ in 0..rounds {
        append(files, fd, &bytes)?;
    }
    files.file_size(fd)
}

/// The answer to a row of work: `bench blocks LEN ROUNDS`, `bench bytes LEN ROUNDS`, or
/// `bench append LEN BEFORE ROUNDS OTHERS`.
pub fn counted(files: &mut MemoryFileSystem, alloc: Global, words: &[&str]) -> Option<Answer> {
    Some(match *words {
        ["bench", "append", len, before, rounds, others] => {
            let (len, before) = (number(len), number(before));
            let told = appended(files, alloc, len, before, number(rounds), number(others));
            Answer::shown(alloc, &told)
        }
        ["bench", form, len, rounds] => {
            let told = checksum(alloc, form == "bytes", number(len), number(rounds));
            Answer::shown(alloc, &told)
        }
        _ => return None,
    })
}
