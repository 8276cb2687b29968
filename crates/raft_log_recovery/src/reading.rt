//! A whole log file, read into a machine.

ghost use Rattle.std.specs.Prelude.{◌≡◌, ◌++◌, List, Option, Some, Ok, Err, IfOk, IfErr, OnOk};
ghost use Rattle.raft_log_file.specs.declared.batches.OpenFile.{OpenFile};
ghost use Rattle.raft_log_file.specs.Reader.{IsReader, held_bytes, left};
ghost use Rattle.raft_log_files.specs.declared.error.CorruptionFault.{CorruptionFault};
ghost use Rattle.raft_log_files.specs.declared.error.Error.TheVariants.{Corruption};
ghost use Rattle.raft_log_recovery.specs.Caused.{IsReplayFault};
ghost use Rattle.raft_log_recovery.specs.Repair.{batches_in, end_in, fault_in, format_in};
ghost use Rattle.raft_log_recovery.specs.Replay.{Placed, ArePlaced};

use crate::machine::ReplayMachine;
use crate::repair::FileEnd;
use raft_log_file::{LogItemBatchFileReader, build_file_reader};
use raft_log_files::{CorruptionFault, Error, Fd, FileSystem, LogFileFormat};
use raft_log_records::{FileBlockHandle, FileId, RecordFault, Version};
use std::alloc::Global;

/// What was read of a whole file (own).
#[derive(Clone, Copy, PartialEq, Eq)]
pub struct ReadFile {
    /// What the header says; version 1 where it is broken.
    pub format: LogFileFormat,
    pub end: FileEnd,
}

/// Replays the batches that a reader has left, and answers the fault behind them.
fn replay_left<F: FileSystem, M: ReplayMachine>(
    files: &F,
    alloc: Global,
    machine: &mut M,
    reader: &mut LogItemBatchFileReader,
    id: FileId,
) -> Result<Option<RecordFault>, Error>
    requires { IsReader reader.old (F.disk files.now) }
    ensures fault { IfOk result (λ fault. fault ≡ (left reader.old (F.disk files.now)).fault) }
    ensures to { OnOk result (reader.new.valid_offset ≡ (left reader.old (F.disk files.now)).to) }
    ensures replayed { OnOk result ((placed : List Placed) → M.has_replayed machine.old placed
        → (more : List Placed) × M.has_replayed machine.new (placed ++ more) × ArePlaced id (held_bytes reader.old (F.disk files.now)) (left reader.old (F.disk files.now)).batches more) }
    ensures corrupt { (f : CorruptionFault) → result ≡ Err (Corruption f) → ⊥ }
    ensures err { (file : OpenFile) → reader.old.file ≡ Some file → IfErr result (λ e. IsReplayFault (F.disk files.now) (F.meter files.now) file.fd.0 e) }
{
    'batches: loop {
        match reader.next(files, alloc) {
            Ok(Some(read)) => {
                let handle = FileBlockHandle {
                    id,
                    offset: read.block.offset,
                    len: read.block.len,
                };
                machine.replay(read.batch, handle)?;
            }
            Ok(None) => return Ok(None),
            Err(Error::Corruption(CorruptionFault::Record(fault))) => return Ok(Some(fault)),
            Err(error) => return Err(error),
        }
    }
}

/// Replays the batches of a file up to the first fault (own). The file is read by blocks of
/// `read_block_size` bytes, and stays as it is. A fault of the file is no error here.
pub fn replay_file<F: FileSystem, M: ReplayMachine>(
    files: &F,
    alloc: Global,
    machine: &mut M,
    id: FileId,
    fd: Fd,
    read_block_size: u64,
) -> Result<ReadFile, Error>
    ensures to { IfOk result (λ read. read.end.to ≡ end_in id ((F.disk files.now).file fd.0).bytes) }
    ensures fault { IfOk result (λ read. read.end.fault ≡ fault_in id ((F.disk files.now).file fd.0).bytes) }
    ensures format { IfOk result (λ read. read.format ≡ format_in ((F.disk files.now).file fd.0).bytes) }
    ensures replayed { OnOk result ((placed : List Placed) → M.has_replayed machine.old placed
        → (more : List Placed) × M.has_replayed machine.new (placed ++ more)
        × ArePlaced id ((F.disk files.now).file fd.0).bytes (batches_in id ((F.disk files.now).file fd.0).bytes) more) }
    ensures corrupt { (f : CorruptionFault) → result ≡ Err (Corruption f) → ⊥ }
    ensures err { IfErr result (λ e. IsReplayFault (F.disk files.now) (F.meter files.now) fd.0 e) }
{
    let reader = build_file_reader(fd);
    let format = match reader.parse_format(files, alloc) {
        Ok(format) => format,
        Err(Error::Corruption(CorruptionFault::Header(fault))) => {
            return Ok(ReadFile {
                format: LogFileFormat {
                    version: Version::V1,
                    alignment: 0,
                },
                end: FileEnd {
                    to: 0,
                    fault: Some(CorruptionFault::Header(fault)),
                },
            });
        }
        Err(error) => return Err(error),
    };
    let mut batches = LogItemBatchFileReader::new(alloc, read_block_size);
    batches.open(files, id, format, reader)?;
    let fault = replay_left(files, alloc, machine, &mut batches, id)?;
    let to = batches.valid_offset();
    let fault = match fault {
        Some(fault) => Some(CorruptionFault::Record(fault)),
        None => None,
    };
    Ok(ReadFile {
        format,
        end: FileEnd { to, fault },
    })
}
