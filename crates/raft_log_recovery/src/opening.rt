//! From recovered files to a pipe.

ghost use Rattle.std.specs.Prelude.{◌≡◌, ◌++◌, ◌==◌, List, map, string_bytes, Err, IfErr, IfOk, IsErr, OnErr};
ghost use Rattle.std.specs.List.{list_all};
ghost use Rattle.raft_log_disk.specs.Cause.{NothingRefuses, RefusesNoMore};
ghost use Rattle.raft_log_files.specs.Settings.{settings_of};
ghost use Rattle.raft_log_files.specs.declared.error.CorruptionFault.{CorruptionFault};
ghost use Rattle.raft_log_files.specs.declared.error.Error.TheVariants.{Corruption};
ghost use Rattle.raft_log_pipe.specs.Alone.{IsAlone, IsOnce, directories_of_pipe};
ghost use Rattle.raft_log_pipe.specs.Others.{KeepsOthers};
ghost use Rattle.raft_log_pipe.specs.Pipe.{IsPipe};
ghost use Rattle.raft_log_recovery.specs.declared.scan.FileKind.TheVariants.{Log};
ghost use Rattle.raft_log_recovery.specs.Scan.{AreFound, directories_of};
ghost use Rattle.raft_log_recovery.specs.Again.{FindsAsBefore};
ghost use Rattle.raft_log_recovery.specs.Both.{CantBeOpened, IsFaultOf, IsSetBy, IsTaken};
ghost use Rattle.raft_log_recovery.specs.Holes.{HolesOnlyBroken};
ghost use Rattle.raft_log_recovery.specs.Replay.{Placed};
ghost use Rattle.raft_log_recovery.specs.Queue.{AnyRefused, AreLeft, ChangesAtMost, KeepsRefused, directories_in, names_in};
ghost use Rattle.raft_log_recovery.specs.Opening.{AnyAligned, IsPipeWith};
ghost use Rattle.raft_log_recovery.specs.Ways.{IsWay, Recovers};

use crate::builder::DualPipesBuilder;
use crate::machine::ReplayMachine;
use raft_log_files::{
    CorruptionFault, Error, FileSystem, HeaderFault, LogFileFormat, RecoveryConfig,
};
use raft_log_pipe::{File, Paths, SinglePipe};
use std::alloc::{AllocError, Global};

/// The directories of a pipe.
fn paths_of(alloc: Global, directories: &[String]) -> Result<Paths, AllocError>
    ensures { IfOk result (λ v. map string_bytes v.items ≡ map string_bytes directories.now) }
{
    let mut paths = Vec::new(alloc);
    for directory in directories {
        paths.push(String::from_str(alloc, directory.as_str())?)?;
    }
    Ok(paths)
}

/// Whether the records of all files follow one another without padding.
fn are_plain(found: &[File]) -> bool
    ensures { result ≡ list_all (λ f. f.format.alignment == 0) found.now }
{
    found.iter().all(|file| file.format.alignment == 0)
}

impl DualPipesBuilder {
    /// Recovers the files of a queue one after the other.
    pub(crate) fn recover_in_turn<F: FileSystem, M: ReplayMachine>(
        &self,
        files: &mut F,
        config: &RecoveryConfig,
        machine: &mut M,
    ) -> Result<Vec<File>, Error>
        requires { AreFound (F.disk files.old) (Log config.now.queue) (directories_in self.now) (names_in self.now config.now.queue) }
        ensures { Recovers (M.has_replayed machine.old) (M.has_replayed machine.new) self.now config.now (F.disk files.old) (F.disk files.new)
            (F.is_bounded files.old) (F.is_bounded files.new) (F.meter files.old) (F.meter files.new) result }
    {
        self.recover_queue(files, config, machine)
    }

    /// Recovers them in this way.
    fn recover_in<
        F: FileSystem,
        M: ReplayMachine,
        W: Fn(&DualPipesBuilder, &mut F, &RecoveryConfig, &mut M) -> Result<Vec<File>, Error>,
    >(
        &self,
        way: &W,
        files: &mut F,
        config: &RecoveryConfig,
        machine: &mut M,
    ) -> Result<Vec<File>, Error>
        requires found { AreFound (F.disk files.old) (Log config.now.queue) (directories_in self.now) (names_in self.now config.now.queue) }
        requires way { IsWay (W.pre way.now) (W.post way.now) F.disk F.meter F.is_bounded M.has_replayed }
        ensures { Recovers (M.has_replayed machine.old) (M.has_replayed machine.new) self.now config.now (F.disk files.old) (F.disk files.new)
            (F.is_bounded files.old) (F.is_bounded files.new) (F.meter files.old) (F.meter files.new) result }
    {
        way(self, files, config, machine)
    }

    /// Recovers the files of a queue that `scan` found in this way, and opens the pipe over them.
    pub(crate) fn open_by<
        F: FileSystem,
        M: ReplayMachine,
        W: Fn(&DualPipesBuilder, &mut F, &RecoveryConfig, &mut M) -> Result<Vec<File>, Error>,
    >(
        &self,
        way: &W,
        files: &mut F,
        config: &RecoveryConfig,
        machine: &mut M,
    ) -> Result<SinglePipe, Error>
        requires way { IsWay (W.pre way.now) (W.post way.now) F.disk F.meter F.is_bounded M.has_replayed }
        requires found { AreFound (F.disk files.old) (Log config.now.queue) (directories_in self.now) (names_in self.now config.now.queue) }
        requires directories { directories_in self.now ≡ directories_of (settings_of self.now.config) }
        ensures pipe { IfOk result (λ p. IsPipe p (F.disk files.new)) }
        ensures queue { IfOk result (λ p. p.queue ≡ config.now.queue) }
        ensures paths { IfOk result (λ p. directories_of_pipe p ≡ directories_in self.now) }
        ensures settings { IfOk result (IsSetBy self.now) }
        ensures alone { IfOk result (λ p. IsOnce (F.disk files.old).names (directories_in self.now) config.now.queue → IsAlone p (F.disk files.new)) }
        ensures replayed { IfOk result (λ p. (placed : List Placed) → M.has_replayed machine.old placed
            → (more : List Placed) × M.has_replayed machine.new (placed ++ more)
            × IsPipeWith (directories_in self.now) config.now.queue (names_in self.now config.now.queue) (F.disk files.old) (F.disk files.new) p more) }
        ensures only { ChangesAtMost (directories_in self.now) config.now.queue (names_in self.now config.now.queue) (F.disk files.old) (F.disk files.new) }
        ensures again { FindsAsBefore config.now.mode (directories_in self.now) config.now.queue (F.disk files.old) (F.disk files.new) }
        ensures others { KeepsOthers config.now.queue (F.disk files.old) (F.disk files.new) }
        ensures left { AreLeft (directories_in self.now) config.now.queue (names_in self.now config.now.queue) (F.disk files.old) (F.disk files.new) }
        ensures refused { AnyRefused config.now.mode (directories_in self.now) config.now.queue (names_in self.now config.now.queue) (F.disk files.old) → IsErr result }
        ensures aligned { AnyAligned (directories_in self.now) config.now.queue (names_in self.now config.now.queue) (F.disk files.old) → IsErr result }
        ensures kept { OnErr result (KeepsRefused config.now.mode (directories_in self.now) config.now.queue (names_in self.now config.now.queue) (F.disk files.old) (F.disk files.new)) }
        ensures corrupt { (f : CorruptionFault) → result ≡ Err (Corruption f) → CantBeOpened config.now.mode self.now config.now.queue (F.disk files.old) }
        ensures holes { IfOk result (HolesOnlyBroken config.now.mode (directories_in self.now) config.now.queue (names_in self.now config.now.queue) (F.disk files.old) (F.disk files.new)) }
        ensures later { RefusesNoMore (F.is_bounded files.old) (F.is_bounded files.new) (F.meter files.old) (F.meter files.new) }
        ensures cause { IfErr result (λ e. IsFaultOf self.now config.now.queue (F.disk files.old) (F.disk files.new) (F.is_bounded files.old) (F.meter files.old) (F.meter files.new) e) }
        ensures taken { NothingRefuses (F.is_bounded files.old) (F.meter files.old) → IsTaken self.now config.now.queue (F.disk files.old) (F.disk files.new) result }
    {
        let recovered = self.recover_in(way, files, config, machine)?;
        if !are_plain(&recovered) {
            return Err(Error::Corruption(CorruptionFault::Header(HeaderFault::BadVersion)));
        }
        let paths = paths_of(self.alloc, &self.directories)?;
        let queue = config.queue;
        let format = LogFileFormat::new(self.config.format_version, 0);
        let target_size = self.config.target_file_size.0;
        if recovered.is_empty() {
            return SinglePipe::create(files, self.alloc, queue, paths, format, target_size);
        }
        SinglePipe::open(
            files,
            self.alloc,
            queue,
            paths,
            format,
            target_size,
            recovered,
        )
    }
    /// Recovers the files of a queue that `scan` found, as `recover_queue` does, and opens the pipe
    /// over them. A queue that has no files begins with its first one. A file whose header says an
    /// alignment isn't written on: it is `Corruption`, as of a version that the log doesn't write.
    /// Refused or not, an opening that follows finds no other batches than one before would have, and
    /// files of other names stay.
    pub fn open_queue<F: FileSystem, M: ReplayMachine>(
        &self,
        files: &mut F,
        config: &RecoveryConfig,
        machine: &mut M,
    ) -> Result<SinglePipe, Error>
        requires found { AreFound (F.disk files.old) (Log config.now.queue) (directories_in self.now) (names_in self.now config.now.queue) }
        requires directories { directories_in self.now ≡ directories_of (settings_of self.now.config) }
        ensures pipe { IfOk result (λ p. IsPipe p (F.disk files.new)) }
        ensures queue { IfOk result (λ p. p.queue ≡ config.now.queue) }
        ensures paths { IfOk result (λ p. directories_of_pipe p ≡ directories_in self.now) }
        ensures settings { IfOk result (IsSetBy self.now) }
        ensures alone { IfOk result (λ p. IsOnce (F.disk files.old).names (directories_in self.now) config.now.queue → IsAlone p (F.disk files.new)) }
        ensures replayed { IfOk result (λ p. (placed : List Placed) → M.has_replayed machine.old placed
            → (more : List Placed) × M.has_replayed machine.new (placed ++ more)
            × IsPipeWith (directories_in self.now) config.now.queue (names_in self.now config.now.queue) (F.disk files.old) (F.disk files.new) p more) }
        ensures only { ChangesAtMost (directories_in self.now) config.now.queue (names_in self.now config.now.queue) (F.disk files.old) (F.disk files.new) }
        ensures again { FindsAsBefore config.now.mode (directories_in self.now) config.now.queue (F.disk files.old) (F.disk files.new) }
        ensures others { KeepsOthers config.now.queue (F.disk files.old) (F.disk files.new) }
        ensures left { AreLeft (directories_in self.now) config.now.queue (names_in self.now config.now.queue) (F.disk files.old) (F.disk files.new) }
        ensures refused { AnyRefused config.now.mode (directories_in self.now) config.now.queue (names_in self.now config.now.queue) (F.disk files.old) → IsErr result }
        ensures aligned { AnyAligned (directories_in self.now) config.now.queue (names_in self.now config.now.queue) (F.disk files.old) → IsErr result }
        ensures kept { OnErr result (KeepsRefused config.now.mode (directories_in self.now) config.now.queue (names_in self.now config.now.queue) (F.disk files.old) (F.disk files.new)) }
        ensures corrupt { (f : CorruptionFault) → result ≡ Err (Corruption f) → CantBeOpened config.now.mode self.now config.now.queue (F.disk files.old) }
        ensures holes { IfOk result (HolesOnlyBroken config.now.mode (directories_in self.now) config.now.queue (names_in self.now config.now.queue) (F.disk files.old) (F.disk files.new)) }
        ensures later { RefusesNoMore (F.is_bounded files.old) (F.is_bounded files.new) (F.meter files.old) (F.meter files.new) }
        ensures cause { IfErr result (λ e. IsFaultOf self.now config.now.queue (F.disk files.old) (F.disk files.new) (F.is_bounded files.old) (F.meter files.old) (F.meter files.new) e) }
        ensures taken { NothingRefuses (F.is_bounded files.old) (F.meter files.old) → IsTaken self.now config.now.queue (F.disk files.old) (F.disk files.new) result }
    {
        self.open_by(
            &|builder: &DualPipesBuilder, files: &mut F, config: &RecoveryConfig, machine: &mut M| -> Result<
                Vec<File>,
                Error,
            >
                requires { AreFound (F.disk files.now) (Log config.now.queue) (directories_in builder.now) (names_in builder.now config.now.queue) }
                ensures { Recovers (M.has_replayed machine.entry.now) (M.has_replayed machine.exit.now) builder.entry.now config.entry.now (F.disk files.entry.now) (F.disk files.exit.now)
                    (F.is_bounded files.entry.now) (F.is_bounded files.exit.now) (F.meter files.entry.now) (F.meter files.exit.now) result }
            { builder.recover_in_turn(files, config, machine) },
            files,
            config,
            machine,
        )
    }
}
