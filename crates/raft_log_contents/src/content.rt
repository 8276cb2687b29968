//! What stands in a log file.
ghost use Rattle.std.specs.Prelude.{◌≡◌, ◌==◌, IfOk, drop, take};
ghost use Rattle.std.specs.List.{list_all};
ghost use Rattle.raft_log_contents.specs.Content.{IsContentOf, ending_in, found_of};

use crate::log_files::LogFile;
use raft_log_files::{CorruptionFault, Error, Fd, FileSystem, Permission};
use raft_log_records::{FileBlockHandle, LogItem, LogItemBatch};
use raft_log_recovery::{ReplayMachine, replay_file};
use std::alloc::Global;

/// The bytes that a read of a file asks for at least.
const READ_BLOCK_SIZE: u64 = 16_384;

/// How the reading of a file ended (own).
#[derive(Clone, Copy)]
pub enum Ending {
    /// At the file's end.
    Whole,
    /// Only zeros stand from there on: room that was made ahead.
    Room,
    /// Other bytes stand there, which are no record.
    Fault(CorruptionFault),
}

/// What a log file has (own).
#[derive(Drop)]
pub struct LogContent {
    /// The items of its whole batches, up to the first fault.
    pub items: Vec<LogItem>,
    /// The bytes up to which it was read.
    pub to: u64,
    /// All its bytes.
    pub size: u64,
    pub ending: Ending,
}

/// Keeps the items of the batches that it replays (own).
#[derive(Drop)]
pub struct ItemList {
    pub items: Vec<LogItem>,
}

impl ReplayMachine for ItemList {
    ghost use Rattle.raft_log_contents.specs.Content.{HasItems};

    ghost has_replayed = { HasItems };

    fn replay(&mut self, batch: LogItemBatch, _handle: FileBlockHandle) -> Result<(), Error> {
        let mut items = batch.items;
        self.items.append(&mut items)?;
        Ok(())
    }
}

// Whether only zeros stand from a place on.
fn is_room<F: FileSystem>(
    files: &F,
    alloc: Global,
    fd: Fd,
    from: u64,
    size: u64,
) -> Result<bool, Error>
    ensures { IfOk result (λ zeros. zeros ≡ list_all (λ b. b == 0) (take size (drop from ((F.disk files.now).file fd.0).bytes))) }
{
    let rest = files.read_at(alloc, fd, from, size)?;
    Ok(rest.iter().all(|byte| *byte == 0))
}

// How the reading of a file with this fault ended.
fn ending_of(fault: Option<CorruptionFault>, is_room: bool) -> Ending
    ensures { result ≡ ending_in fault is_room }
{
    match fault {
        None => Ending::Whole,
        Some(fault) => {
            if is_room {
                Ending::Room
            } else {
                Ending::Fault(fault)
            }
        }
    }
}

/// What the log file has (own), read up to its first fault. It stays as it is. Errors: memory is
/// missing, or a call on the file is refused.
pub fn read_content<F: FileSystem>(
    files: &mut F,
    alloc: Global,
    file: &LogFile,
) -> Result<LogContent, Error>
    ensures ok { IfOk result (λ content. IsContentOf (F.disk files.old) (found_of file.now) content) }
    ensures kept { F.disk files.new ≡ F.disk files.old }
{
    let fd = files.open(file.path.as_str(), Permission::ReadOnly)?;
    let mut list = ItemList {
        items: Vec::new(alloc),
    };
    let read = replay_file(files, alloc, &mut list, file.id, fd, READ_BLOCK_SIZE)?;
    let size = files.file_size(fd)?;
    let is_room = is_room(files, alloc, fd, read.end.to, size)?;
    Ok(LogContent {
        items: list.items,
        to: read.end.to,
        size,
        ending: ending_of(read.end.fault, is_room),
    })
}
