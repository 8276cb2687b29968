//! A pipe, and what it tells of its files.

ghost use Rattle.std.specs.Prelude.{◌≡◌, ◌+◌, ◌-◌, ◌*◌, ◌/◌, ◌≤◌, ◌^◌, ◌++◌, [], min, length, IfErr, OnOk, OnErr};
ghost use Rattle.raft_log_disk.specs.Cause.{NothingRefuses, RefusesNoMore, Spends};
ghost use Rattle.raft_log_pipe.specs.Alone.{directories_of_pipe, main_of};
ghost use Rattle.raft_log_pipe.specs.Caused.{IsRefusalOrMemory};
ghost use Rattle.raft_log_pipe.specs.Kept.{KeepsSettings};
ghost use Rattle.raft_log_pipe.specs.Others.{KeepsOthers};
ghost use Rattle.raft_log_pipe.specs.Pipe.{IsPipe, Holds, Numbered, first_of};
ghost use Rattle.raft_log_pipe.specs.Taken.{IsOkOrMemory};

use crate::file::{File, Paths, ReservedFile};
use raft_log_file::LogFileWriter;
use raft_log_files::{Error, FileSystem, LogFileFormat};
use raft_log_records::{FileSeq, LogQueue};
use std::alloc::Global;

/// The log files of one queue, in order (raft-engine's `SinglePipe`). The file system is passed to
/// each call. After an `Err` of a changing call the files are opened again before more is written.
#[derive(Drop)]
pub struct SinglePipe {
    pub(crate) alloc: Global,
    pub(crate) queue: LogQueue,
    pub(crate) paths: Paths,
    /// The format of new files.
    pub(crate) default_format: LogFileFormat,
    /// A file that has so many bytes is written no more.
    pub(crate) target_file_size: u64,
    /// All files but the last.
    pub(crate) older: Vec<File>,
    /// The last file, which is written.
    pub(crate) active: File,
    pub(crate) writer: LogFileWriter,
    /// Files that are kept for reuse under names of their own, of rising numbers.
    pub(crate) reserved: Vec<ReservedFile>,
    /// How many files there are at most, those that are kept for reuse and all others. With none of
    /// these none is kept.
    pub(crate) capacity: u64,
}

impl SinglePipe {
    /// How many files there are.
    pub(crate) fn count(&self) -> u64
        ensures { result ≡ length self.now.older.items + 1 }
    {
        self.older.len() as u64 + 1
    }

    /// The main directory, that of new files while it has room.
    pub fn path(&self) -> &str
        ensures { result.now ≡ main_of (directories_of_pipe self.now) }
    {
        match self.paths.as_slice() {
            [main, ..] => main.as_str(),
            [] => "",
        }
    }

    /// The numbers of the first file and of the last.
    pub fn file_span(&self) -> (FileSeq, FileSeq)
        ensures first { result.0 ≡ first_of self.now }
        ensures last { result.1 ≡ self.now.active.seq }
    {
        let older = self.older.len() as u64;
        (self.active.seq.saturating_sub(older), self.active.seq)
    }

    /// The number of the file before which so many per cent of the files lie.
    pub fn file_at(&self, percent: u64) -> FileSeq
        requires { percent ≤ 100 }
        ensures { result ≡ min (first_of self.now + min ((length self.now.older.items + 1) * percent) (2 ^ 64 - 1) / 100) (2 ^ 64 - 1) }
    {
        let (first, _) = self.file_span();
        first.saturating_add(self.count().saturating_mul(percent) / 100)
    }

    /// The bytes of all files, each taken as long as the target size.
    pub fn total_size(&self) -> u64
        ensures { result ≡ min ((length self.now.older.items + 1) * self.now.target_file_size) (2 ^ 64 - 1) }
    {
        self.count().saturating_mul(self.target_file_size)
    }

    /// After it, a crash leaves what was appended.
    pub fn sync<F: FileSystem>(&mut self, files: &mut F) -> Result<(), Error>
        requires { IsPipe self.old (F.disk files.old) }
        ensures pipe { IsPipe self.new (F.disk files.new) }
        ensures same { (self.new.active ≡ self.old.active) × (self.new.older ≡ self.old.older) × (self.new.queue ≡ self.old.queue) }
        ensures paths { self.new.paths ≡ self.old.paths }
        ensures reserved { self.new.reserved ≡ self.old.reserved }
        ensures set { KeepsSettings self.old self.new }
        ensures others { KeepsOthers self.old.queue (F.disk files.old) (F.disk files.new) }
        ensures names { (F.disk files.new).names ≡ (F.disk files.old).names }
        ensures ok { OnOk result ((synced : Numbered) (unsynced : Numbered) → Holds self.old (F.disk files.old) synced unsynced → Holds self.new (F.disk files.new) (synced ++ unsynced) []) }
        ensures err { OnErr result ((synced : Numbered) (unsynced : Numbered) → Holds self.old (F.disk files.old) synced unsynced → Holds self.new (F.disk files.new) synced unsynced) }
        ensures later { RefusesNoMore (F.is_bounded files.old) (F.is_bounded files.new) (F.meter files.old) (F.meter files.new) }
        ensures taken { NothingRefuses (F.is_bounded files.old) (F.meter files.old) → IsOkOrMemory result }
        ensures cause { IfErr result (λ e. IsRefusalOrMemory (F.meter files.old) (F.meter files.new) e) }
        ensures spends { OnOk result (Spends (F.meter files.old) (F.meter files.new)) }
    {
        self.writer.sync(files)?;
        Ok(())
    }
}
