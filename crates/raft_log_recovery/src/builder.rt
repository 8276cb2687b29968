//! What an opening finds and recovers.

ghost use Rattle.std.specs.Prelude.{◌≡◌, [], map, IfErr, IsErr, OnOk, OnErr, string_bytes};
ghost use Rattle.raft_log_records.specs.declared.file_id.LogQueue.TheVariants.{Append, Rewrite};
ghost use Rattle.raft_log_disk.specs.Cause.{NothingRefuses, RefusesNoMore};
ghost use Rattle.raft_log_files.specs.Settings.{settings_of};
ghost use Rattle.raft_log_recovery.specs.declared.scan.FileKind.TheVariants.{Log, Reserved};
ghost use Rattle.raft_log_recovery.specs.Both.{wanted_in};
ghost use Rattle.raft_log_recovery.specs.Scan.{AllMade, AnyFile, AreFound, IsMadeUnless, IsScanFault, OnlyMakes, directories_of};

use crate::directories::{directories_in, make_directories};
use crate::scan::{FileKind, FileName, find_files};
use crate::stale::drop_stale;
use raft_log_files::{Config, Error, FileSystem};
use raft_log_records::LogQueue;
use std::alloc::Global;

/// Opens the log files of both queues (raft-engine's `DualPipesBuilder`): `scan` finds them, and
/// `recover_alone` reads and repairs them. The file system is passed to each call.
#[derive(Drop)]
pub struct DualPipesBuilder {
    pub(crate) alloc: Global,
    pub(crate) config: Config,
    /// The main directory, and the spill directory. Filled by `scan`, as all that follows.
    pub(crate) directories: Vec<String>,
    pub(crate) append_file_names: Vec<FileName>,
    pub(crate) rewrite_file_names: Vec<FileName>,
    pub(crate) reserved_file_names: Vec<FileName>,
}

impl DualPipesBuilder {
    /// A builder that has found nothing yet.
    pub fn new(alloc: Global, config: Config) -> DualPipesBuilder
        ensures config { result.config ≡ config }
        ensures nothing { (result.append_file_names.items ≡ []) × (result.rewrite_file_names.items ≡ []) × (result.reserved_file_names.items ≡ []) }
    {
        DualPipesBuilder {
            alloc,
            config,
            directories: Vec::new(alloc),
            append_file_names: Vec::new(alloc),
            rewrite_file_names: Vec::new(alloc),
            reserved_file_names: Vec::new(alloc),
        }
    }

    /// Makes the directories that aren't there, and finds the files of both queues and the reserved
    /// ones: of each the last run of numbers that follow one another. Other files and directories
    /// are passed over. What the file system still keeps beside files of a queue that are gone is
    /// deleted. A directory's path that is a file is `Other`. After an `Err` the builder is as it was.
    pub fn scan<F: FileSystem>(&mut self, files: &mut F) -> Result<(), Error>
        ensures directories { OnOk result (map string_bytes self.new.directories.items ≡ directories_of (settings_of self.old.config)) }
        ensures made { OnOk result (AllMade (directories_of (settings_of self.old.config)) (F.disk files.new)) }
        ensures append { OnOk result (AreFound (F.disk files.new) (Log Append) (directories_of (settings_of self.old.config)) self.new.append_file_names.items) }
        ensures rewrite { OnOk result (AreFound (F.disk files.new) (Log Rewrite) (directories_of (settings_of self.old.config)) self.new.rewrite_file_names.items) }
        ensures reserved { OnOk result (AreFound (F.disk files.new) Reserved (directories_of (settings_of self.old.config)) self.new.reserved_file_names.items) }
        ensures config { self.new.config ≡ self.old.config }
        ensures only { OnlyMakes (directories_of (settings_of self.old.config)) (F.disk files.old) (F.disk files.new) }
        ensures file { AnyFile (directories_of (settings_of self.old.config)) (F.disk files.old) → IsErr result }
        ensures err { IfErr result (λ e. IsScanFault (directories_of (settings_of self.old.config)) (F.disk files.old) (F.meter files.old) (F.meter files.new) e) }
        ensures later { RefusesNoMore (F.is_bounded files.old) (F.is_bounded files.new) (F.meter files.old) (F.meter files.new) }
        ensures taken { NothingRefuses (F.is_bounded files.old) (F.meter files.old) → IfErr result IsMadeUnless }
        ensures kept { OnErr result (self.new ≡ self.old) }
    {
        let directories = directories_in(self.alloc, &self.config)?;
        make_directories(files, &directories)?;
        let append = find_files(
            files,
            self.alloc,
            &directories,
            FileKind::Log(LogQueue::Append),
        )?;
        let rewrite = find_files(
            files,
            self.alloc,
            &directories,
            FileKind::Log(LogQueue::Rewrite),
        )?;
        let reserved = find_files(files, self.alloc, &directories, FileKind::Reserved)?;
        drop_stale(files, self.alloc, &directories, LogQueue::Append, &append)?;
        drop_stale(files, self.alloc, &directories, LogQueue::Rewrite, &rewrite)?;
        self.directories = directories;
        self.append_file_names = append;
        self.rewrite_file_names = rewrite;
        self.reserved_file_names = reserved;
        Ok(())
    }

    /// How many reserved files an opening keeps and makes: as many as the settings say are made ahead
    /// (`Config::prefill_capacity`), and no more than `Config::recycle_capacity` has room for beside
    /// the append files that `scan` found. 0 without prefill (raft-engine's `initialize_files`).
    pub fn wanted_reserved(&self) -> u64
        ensures { result ≡ wanted_in self.now }
    {
        let count = self.append_file_names.len() as u64;
        let room = self.config.recycle_capacity().saturating_sub(count);
        self.config.prefill_capacity().min(room)
    }
}
