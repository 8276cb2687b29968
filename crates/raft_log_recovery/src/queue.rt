//! All files of a queue, recovered in the order of their numbers.

ghost use Rattle.std.specs.Prelude.{◌≡◌, ◌++◌, ◌<◌, List, length, map, string_bytes, None, Err, IfErr, IfOk, IsErr, OnOk, OnErr};
ghost use Rattle.raft_log_disk.specs.Cause.{NothingRefuses, RefusesNoMore};
ghost use Rattle.raft_log_disk.specs.Disk.{fd_of};
ghost use Rattle.raft_log_files.specs.declared.error.CorruptionFault.{CorruptionFault};
ghost use Rattle.raft_log_files.specs.declared.error.Error.TheVariants.{Corruption};
ghost use Rattle.raft_log_files.specs.FileName.{IsFileSeq};
ghost use Rattle.raft_log_recovery.specs.Caused.{AreEachRefused, IsCallFault, IsRecoveryTaken};
ghost use Rattle.raft_log_recovery.specs.Both.{IsFaultInFiles};
ghost use Rattle.raft_log_recovery.specs.declared.scan.FileKind.TheVariants.{Log};
ghost use Rattle.raft_log_recovery.specs.Scan.{AreFound};
ghost use Rattle.raft_log_recovery.specs.Replay.{Placed};
ghost use Rattle.raft_log_recovery.specs.Queue.{AnyRefused, AreLeft, AreNumbered, AreReadAlike, AreRecovered, AreReplayed, IsFileOf, KeepsRefused, OnlyChanges, directories_in, names_in, path_of};

use crate::builder::DualPipesBuilder;
use crate::machine::ReplayMachine;
use crate::recover::recover_file;
use crate::scan::FileName;
use raft_log_files::{Error, Fd, FileNameExt, FileSystem, Permission, RecoveryConfig};
use raft_log_pipe::File;
use raft_log_records::{FileId, LogQueue};
use std::alloc::Global;

/// Opens a file that was found in one of these directories (own).
pub fn open_file<F: FileSystem>(
    files: &mut F,
    alloc: Global,
    directories: &[String],
    queue: LogQueue,
    name: FileName,
) -> Result<Fd, Error>
    requires seq { IsFileSeq name.seq }
    requires place { name.path_id < length directories.now }
    ensures ok { IfOk result (λ fd. IsFileOf (F.disk files.old) (map string_bytes directories.now) queue name fd.0) }
    ensures kept { F.disk files.new ≡ F.disk files.old }
    ensures corrupt { (f : CorruptionFault) → result ≡ Err (Corruption f) → ⊥ }
    ensures later { RefusesNoMore (F.is_bounded files.old) (F.is_bounded files.new) (F.meter files.old) (F.meter files.new) }
    ensures cause { IfErr result (λ e. IsCallFault (fd_of (F.disk files.old).names (path_of (map string_bytes directories.now) queue name) ≡ None)
        (F.is_bounded files.old) (F.meter files.old) (F.meter files.new) e) }
{
    let id = FileId::new(queue, name.seq);
    let path = id.build_file_path(alloc, directories[name.path_id].as_str())?;
    let fd = files.open(path.as_str(), Permission::ReadWrite)?;
    Ok(fd)
}

/// Replays the files of these names in their order, each as `recover_file` does.
fn recover_each<F: FileSystem, M: ReplayMachine>(
    files: &mut F,
    alloc: Global,
    machine: &mut M,
    config: &RecoveryConfig,
    directories: &[String],
    names: &[FileName],
) -> Result<Vec<File>, Error>
    requires { AreNumbered (length directories.now) names.now }
    ensures ok { IfOk result (λ v. AreRecovered (map string_bytes directories.now) config.now.queue (F.disk files.old) (F.disk files.new) names.now v.items) }
    ensures replayed { IfOk result (λ v. (placed : List Placed) → M.has_replayed machine.old placed
        → (more : List Placed) × M.has_replayed machine.new (placed ++ more) × AreReplayed config.now.queue (F.disk files.new) v.items more) }
    ensures only { OnlyChanges (map string_bytes directories.now) config.now.queue names.now (F.disk files.old) (F.disk files.new) }
    ensures reads { AreReadAlike (map string_bytes directories.now) config.now.queue names.now (F.disk files.old) (F.disk files.new) }
    ensures err { OnErr result (AreLeft (map string_bytes directories.now) config.now.queue names.now (F.disk files.old) (F.disk files.new)) }
    ensures refused { AnyRefused config.now.mode (map string_bytes directories.now) config.now.queue names.now (F.disk files.old) → IsErr result }
    ensures kept { OnErr result (KeepsRefused config.now.mode (map string_bytes directories.now) config.now.queue names.now (F.disk files.old) (F.disk files.new)) }
    ensures corrupt { (f : CorruptionFault) → result ≡ Err (Corruption f) → AnyRefused config.now.mode (map string_bytes directories.now) config.now.queue names.now (F.disk files.old) }
    ensures later { RefusesNoMore (F.is_bounded files.old) (F.is_bounded files.new) (F.meter files.old) (F.meter files.new) }
    ensures cause { IfErr result (λ e. AreEachRefused (F.disk files.old) (map string_bytes directories.now) config.now.queue names.now
        (F.is_bounded files.old) (F.meter files.old) (F.meter files.new) e) }
{
    let mut recovered = Vec::new(alloc);
    for name in names {
        let fd = open_file(files, alloc, directories, config.queue, *name)?;
        let id = FileId::new(config.queue, name.seq);
        let is_last = recovered.len() + 1 == names.len();
        let format = recover_file(files, alloc, machine, id, fd, config, is_last)?;
        recovered.push(File {
            seq: name.seq,
            handle: fd,
            format,
            path_id: name.path_id,
            reserved: false,
        })?;
    }
    Ok(recovered)
}

impl DualPipesBuilder {
    /// Where its calls take their memory (own).
    pub fn alloc(&self) -> Global {
        self.alloc
    }

    /// The directories in which files were found, as the `path_id` of a `FileName` counts them (own).
    pub fn directories(&self) -> &[String]
        ensures { result.now ≡ self.now.directories.items }
    {
        &self.directories
    }

    /// The files of a queue that were found (own).
    pub fn names_of(&self, queue: LogQueue) -> &[FileName]
        ensures { result.now ≡ names_in self.now queue }
    {
        match queue {
            LogQueue::Append => &self.append_file_names,
            LogQueue::Rewrite => &self.rewrite_file_names,
        }
    }

    /// Reads the files of a queue that `scan` found, in the order of their numbers, and replays
    /// their batches into a machine (raft-engine's `recover_queue`, with one worker). Each file is
    /// left with its batches and nothing else, on the disk. A fault behind them is cut away where
    /// the mode says so of that file, else it is `Corruption`, and the files from there on stay.
    pub fn recover_queue<F: FileSystem, M: ReplayMachine>(
        &self,
        files: &mut F,
        config: &RecoveryConfig,
        machine: &mut M,
    ) -> Result<Vec<File>, Error>
        requires { AreFound (F.disk files.old) (Log config.now.queue) (directories_in self.now) (names_in self.now config.now.queue) }
        ensures ok { IfOk result (λ v. AreRecovered (directories_in self.now) config.now.queue (F.disk files.old) (F.disk files.new) (names_in self.now config.now.queue) v.items) }
        ensures replayed { IfOk result (λ v. (placed : List Placed) → M.has_replayed machine.old placed
            → (more : List Placed) × M.has_replayed machine.new (placed ++ more) × AreReplayed config.now.queue (F.disk files.new) v.items more) }
        ensures only { OnlyChanges (directories_in self.now) config.now.queue (names_in self.now config.now.queue) (F.disk files.old) (F.disk files.new) }
        ensures reads { AreReadAlike (directories_in self.now) config.now.queue (names_in self.now config.now.queue) (F.disk files.old) (F.disk files.new) }
        ensures err { OnErr result (AreLeft (directories_in self.now) config.now.queue (names_in self.now config.now.queue) (F.disk files.old) (F.disk files.new)) }
        ensures refused { AnyRefused config.now.mode (directories_in self.now) config.now.queue (names_in self.now config.now.queue) (F.disk files.old) → IsErr result }
        ensures kept { OnErr result (KeepsRefused config.now.mode (directories_in self.now) config.now.queue (names_in self.now config.now.queue) (F.disk files.old) (F.disk files.new)) }
        ensures corrupt { (f : CorruptionFault) → result ≡ Err (Corruption f)
            → AnyRefused config.now.mode (directories_in self.now) config.now.queue (names_in self.now config.now.queue) (F.disk files.old) }
        ensures later { RefusesNoMore (F.is_bounded files.old) (F.is_bounded files.new) (F.meter files.old) (F.meter files.new) }
        ensures cause { IfErr result (λ e. IsFaultInFiles self.now config.now.queue (F.is_bounded files.old) (F.meter files.old) (F.meter files.new) e) }
        ensures taken { NothingRefuses (F.is_bounded files.old) (F.meter files.old) → IsRecoveryTaken ⊥ ⊥ result }
    {
        let names = self.names_of(config.queue);
        recover_each(files, self.alloc, machine, config, &self.directories, names)
    }
}
