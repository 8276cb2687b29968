//! A log of batches over an engine on files in memory.
//!
//! The calls of an engine hold for each file system. The log is over one of them: in an impl of a
//! trait no bound of a type parameter says that it crosses threads, and a file system does.
ghost use Rattle.std.specs.Prelude.{◌≡◌, ℕ, List, true, false, Err, IfOk, IfErr, IsErrAnd, MatchResult, OnOk, OnErr};
ghost use Rattle.raft_content_log.specs.Leaving.{LeavesOnly};
ghost use Rattle.raft_log_disk.specs.declared.crash.CrashRefusal.TheVariants.{ByChance, NotAnImage};
ghost use Rattle.raft_log_disk.specs.Chance.{IsGenuineImage};
ghost use Rattle.raft_log_disk.specs.Disk.{Disk};
ghost use Rattle.raft_log_disk.specs.Image.{Image, seen_image};
ghost use Rattle.raft_log_disk.specs.Cause.{NothingRefuses, RefusesNoMore};
ghost use Rattle.raft_log_disk.specs.MemorySystem.{disk_in, is_bounded_in, meter_in};
ghost use Rattle.raft_log_engine.specs.Caused.{IsSyncFault};
ghost use Rattle.raft_log_engine.specs.declared.fault.EngineFault.TheVariants as engine_fault;
ghost use Rattle.raft_log_engine.specs.Closing.{handed_back};
ghost use Rattle.raft_log_engine.specs.Left.{answers_on};
ghost use Rattle.raft_log_engine.specs.Log.{AreCrashed, AreFused, CantBeLeftSo, IsFoundBy, leaves_of_log, left_by, main_directory};
ghost use Rattle.raft_log_engine.specs.Opening.{AreSetAs, CantBeOpened, HasHolesIn, IsLeftByOpening};
ghost use Rattle.raft_log_engine.specs.Reopened.{OpensInTail};
ghost use Rattle.raft_log_engine.specs.Unopened.{IsOpeningFault, IsUnopenable};
ghost use Rattle.raft_log_files.specs.declared.error.CorruptionFault.{CorruptionFault};
ghost use Rattle.raft_log_files.specs.declared.error.Error.TheVariants.{Corruption};
ghost use Rattle.raft_log_files.specs.declared.recovery.RecoveryMode.TheVariants.{TolerateTailCorruption};
ghost use Rattle.raft_log_files.specs.Settings.{settings_fault, settings_of};
ghost use Rattle.raft_log_memtables.specs.Content.{Content, nothing};
ghost use Rattle.raft_log_pipe.specs.Alone.{IsOnce, Names};
ghost use Rattle.raft_log_records.specs.declared.file_id.LogQueue.{LogQueue};
ghost use Rattle.raft_log_recovery.specs.Crashed.{IsCrashed};
ghost use Rattle.raft_log_recovery.specs.Scan.{directories_of};
ghost use Rattle.raft_log_recovery.specs.Ways.{IsWay};
ghost use Rattle.raft_log_traced.specs.Traced.{IsReplayedTraced};

use crate::engine::Engine;
use crate::fault::EngineFault;
use crate::opening::{NotClosed, NotOpened};
use raft_content_log::ContentLog;
use raft_log_files::{
    Config, CrashChoice, CrashFiles, CrashRefusal, Error, MemoryFileSystem, RecoveryConfig,
    RecoveryMode,
};
use raft_log_pipe::File;
use raft_log_records::LogBatch;
use raft_log_recovery::DualPipesBuilder;
use raft_log_traced::TracedReplay;
use std::alloc::{AllocError, Global};
use std::marker::Model;

/// Files in memory, with the settings that a log is opened by (own).
#[derive(Drop)]
pub struct LogFiles {
    /// The settings. The files lie in their main directory: a spill directory isn't used.
    pub settings: Config,
    /// The files.
    pub files: MemoryFileSystem,
}

/// A log over an engine on files in memory, in one directory (own). Each write is synced. After one
/// that was refused, for whatever reason, the log takes none: it is to be opened again.
#[derive(Drop)]
pub struct MemoryLog {
    pub(crate) engine: Engine<MemoryFileSystem>,
    pub(crate) settings: Config,
    /// A write or a cleaning was refused.
    pub(crate) has_failed: bool,
}

impl Model for MemoryLog {
    ghost use Rattle.raft_log_engine.specs.Log.{IsLog, LogOn};
    ghost use Rattle.raft_log_memtables.specs.contracts.memtables.MemTables as tables;
    ghost use Rattle.raft_log_traces.specs.contracts.group_traces.GroupTraces as traces;
    ghost use Rattle.raft_log_disk.specs.contracts.memory.MemoryFileSystem as files;
    ghost use Rattle.raft_log_disk.specs.MemorySystem.{disk_in};
    ghost use Rattle.raft_log_disk.specs.declared.memory.MemoryFileSystem.{MemoryFileSystem};
    ghost use Rattle.std.specs.Coded.{codes};

    ghost Value = { LogOn MemoryFileSystem };

    ghost coded = { Prim.hlevel (codes, tables.the_row.coded, traces.the_row.coded, files.the_row.coded) };

    ghost view = { λ l. record { engine = l.engine; settings = l.settings; has_failed = l.has_failed } };

    ghost invariant = { λ l. IsLog disk_in l.engine l.settings l.has_failed };
}

/// A copy of the settings, with the main directory alone. A torn tail is tolerated, whatever they say:
/// a crash may leave one.
fn in_one_directory(settings: &Config) -> Result<Config, AllocError>
    ensures directories { IfOk result (λ config. directories_of (settings_of config) ≡ main_directory settings.now) }
    ensures mode { IfOk result (λ config. config.recovery_mode ≡ TolerateTailCorruption) }
    ensures sizes { IfOk result (λ config. (config.target_file_size ≡ settings.now.target_file_size) × (config.format_version ≡ settings.now.format_version)) }
    ensures fault { IfOk result (λ config. settings_fault (settings_of config) ≡ settings_fault (settings_of settings.now)) }
    ensures once { IfOk result (λ config. (names : Names) (queue : LogQueue) → IsOnce names (directories_of (settings_of config)) queue) }
{
    let mut config = settings.clone()?;
    config.spill_dir = None;
    config.recovery_mode = RecoveryMode::TolerateTailCorruption;
    Ok(config)
}

impl LogFiles {
    /// No files yet, where an opening finds nothing, and no call is refused (own).
    pub fn new(alloc: Global, settings: Config) -> LogFiles
        ensures settings { result.settings ≡ settings }
        ensures free { NothingRefuses (is_bounded_in result.files) (meter_in result.files) }
        ensures none { (content : Content (List ℕ)) → IsFoundBy result.settings (disk_in result.files) content → content ≡ nothing }
    {
        LogFiles {
            settings,
            files: MemoryFileSystem::new(alloc),
        }
    }

    /// Leaves of the files what the choice says, as where a machine stops (own). An `Err` says why they
    /// can't be left so, and changes nothing.
    pub fn crash(&mut self, choice: &CrashChoice) -> Result<(), CrashRefusal>
        ensures crashed { OnOk result (IsCrashed (disk_in self.old.files) (left_by choice.now (disk_in self.old.files)) (disk_in self.new.files)) }
        ensures chosen { OnOk result (AreCrashed disk_in meter_in self.old.files choice.now self.new.files) }
        ensures why { IfErr result (λ why. CantBeLeftSo choice.now why (disk_in self.old.files)) }
        ensures err { OnErr result (self.new ≡ self.old) }
        ensures settings { self.new.settings ≡ self.old.settings }
    {
        self.files.crash(choice)
    }

    /// Lets the files refuse each changing call from this one on, the first one counted as 1; with
    /// none they refuse no call any more (own). Nothing else changes.
    pub fn fuse(&mut self, first_refused: Option<u64>)
        ensures fused { AreFused disk_in meter_in self.old.files first_refused self.new.files }
        ensures settings { self.new.settings ≡ self.old.settings }
    {
        self.files.fuse(first_refused);
    }

    /// Refuses files that show by chance what nobody wrote (own): `ByChance` where reads of a log file
    /// see a header or a record that no call wrote there. It changes nothing.
    pub fn check_genuine(&self) -> Result<(), CrashRefusal>
        ensures genuine { OnOk result (IsGenuineImage (disk_in self.now.files) (seen_image (disk_in self.now.files))) }
        ensures by_chance { result ≡ Err ByChance → IsGenuineImage (disk_in self.now.files) (seen_image (disk_in self.now.files)) → ⊥ }
        ensures only { result ≡ Err NotAnImage → ⊥ }
    {
        self.files.may_crash(&CrashChoice::Most)
    }
}

impl MemoryLog {
    /// Opens the log as `open` does, with each queue recovered in this way (own).
    pub(crate) fn open_by<
        W: Fn(
            &DualPipesBuilder,
            &mut MemoryFileSystem,
            &RecoveryConfig,
            &mut TracedReplay,
        ) -> Result<Vec<File>, Error>,
    >(way: &W, alloc: Global, files: LogFiles) -> Result<MemoryLog, NotOpened<LogFiles>>
        requires { IsWay (W.pre way.now) (W.post way.now) disk_in meter_in is_bounded_in IsReplayedTraced }
        ensures sound { IfOk result (λ l. l.has_failed ≡ false) }
        ensures answers { IfOk result (λ l. IsFoundBy files.settings (disk_in files.files) (answers_on disk_in l.engine)) }
        ensures leaves { IfOk result (λ l. LeavesOnly (leaves_of_log disk_in l) (answers_on disk_in l.engine)) }
        ensures opens_in_tail { IfOk result (λ l. OpensInTail (main_directory l.settings) (disk_in l.engine.files) l.engine.pipes) }
        ensures settings { IfOk result (λ l. l.settings ≡ files.settings) }
        ensures set { IfOk result (λ l. AreSetAs (settings_of files.settings) l.engine.pipes) }
        ensures holes { IfOk result (λ l. HasHolesIn TolerateTailCorruption (disk_in l.engine.files) l.engine.pipes) }
        ensures refused { IfErr result (λ refused. refused.files.settings ≡ files.settings) }
        ensures err { IfErr result (λ refused. IsLeftByOpening TolerateTailCorruption (main_directory files.settings) (disk_in files.files) (disk_in refused.files.files)) }
        ensures reads { IfErr result (λ refused. (content : Content (List ℕ)) → IsFoundBy files.settings (disk_in refused.files.files) content
            → IsFoundBy files.settings (disk_in files.files) content) }
        ensures corrupt { IfErr result (λ refused. (f : CorruptionFault) → refused.fault ≡ engine_fault.Log (Corruption f)
            → (queue : LogQueue) × CantBeOpened TolerateTailCorruption (main_directory files.settings) queue (disk_in files.files)) }
        ensures later { MatchResult result (λ l. RefusesNoMore (is_bounded_in files.files) (is_bounded_in l.engine.files) (meter_in files.files) (meter_in l.engine.files))
            (λ refused. RefusesNoMore (is_bounded_in files.files) (is_bounded_in refused.files.files) (meter_in files.files) (meter_in refused.files.files)) }
        ensures cause { IfErr result (λ refused. IsOpeningFault (settings_fault (settings_of files.settings)) TolerateTailCorruption (main_directory files.settings)
            (disk_in files.files) (disk_in refused.files.files) (is_bounded_in files.files) (meter_in files.files) (meter_in refused.files.files) refused.fault) }
        ensures taken { NothingRefuses (is_bounded_in files.files) (meter_in files.files) → IfErr result (λ refused. IsUnopenable (settings_fault (settings_of files.settings))
            TolerateTailCorruption (main_directory files.settings) (disk_in files.files) (disk_in refused.files.files) refused.fault) }
    {
        let LogFiles { settings, files } = files;
        let Ok(config) = in_one_directory(&settings) else {
            return Err(NotOpened {
                fault: EngineFault::Log(Error::Memory),
                files: LogFiles { settings, files },
            });
        };
        match Engine::open_by(way, files, alloc, config) {
            Ok(engine) => Ok(MemoryLog {
                engine,
                settings,
                has_failed: false,
            }),
            Err(NotOpened { fault, files }) => Err(NotOpened {
                fault,
                files: LogFiles { settings, files },
            }),
        }
    }

    /// The engine, lent for reading (own): the span and the bytes of its queues, and its groups.
    pub fn engine(&self) -> &Engine<MemoryFileSystem>
        ensures { result.now ≡ self.now.engine }
    {
        &self.engine
    }

    /// The files, lent for reading (own).
    pub fn files(&self) -> &MemoryFileSystem
        ensures { result.now ≡ self.now.engine.files }
    {
        self.engine.files()
    }

    /// The files, handed back in any case (raft-engine's `close`): after `Ok` the last one of each queue
    /// is cut behind its last record and synced. A refusal is told; a log that has failed is `Stopped`,
    /// with no call. What an opening finds of the files, after a crash or as they are, is what the log
    /// answered, or what a failed one left; of files as they are unless they show by chance what nobody
    /// wrote.
    pub fn close(self) -> Result<LogFiles, NotClosed<LogFiles>>
        ensures settings { (handed_back result).settings ≡ self.settings }
        ensures opens { (image : Image) (d : Disk) (content : Content (List ℕ)) → self.has_failed ≡ false → IsCrashed (disk_in (handed_back result).files) image d
            → IsFoundBy (handed_back result).settings d content → content ≡ answers_on disk_in self.engine }
        ensures crashed { (image : Image) (d : Disk) (content : Content (List ℕ)) → IsCrashed (disk_in (handed_back result).files) image d → IsFoundBy (handed_back result).settings d content
            → leaves_of_log disk_in self content }
        ensures as_read { (content : Content (List ℕ)) → IsGenuineImage (disk_in (handed_back result).files) (seen_image (disk_in (handed_back result).files))
            → IsFoundBy (handed_back result).settings (disk_in (handed_back result).files) content → leaves_of_log disk_in self content }
        ensures opens_in_tail { OpensInTail (main_directory self.settings) (disk_in (handed_back result).files) self.engine.pipes }
        ensures failed { self.has_failed ≡ true → IsErrAnd result (λ refused. (refused.fault ≡ engine_fault.Stopped) × (refused.files.files ≡ self.engine.files)) }
        ensures cause { IfErr result (λ refused. self.has_failed ≡ false → IsSyncFault self.engine (meter_in self.engine.files) (meter_in refused.files.files) refused.fault) }
    {
        if self.has_failed {
            return Err(NotClosed {
                fault: EngineFault::Stopped,
                files: self.into_files(),
            });
        }
        let settings = self.settings;
        match self.engine.close() {
            Ok(files) => Ok(LogFiles { settings, files }),
            Err(refused) => Err(NotClosed {
                fault: refused.fault,
                files: LogFiles {
                    settings,
                    files: refused.files,
                },
            }),
        }
    }

    /// The files, handed back with no call on them (own: `abandon`), as where a machine stops. What an
    /// opening finds after a crash of them is left by the log, and so is what it finds of them as they
    /// are, unless they show by chance what nobody wrote.
    pub fn into_files(self) -> LogFiles
        ensures files { result.files ≡ self.engine.files }
        ensures settings { result.settings ≡ self.settings }
        ensures crashed { (image : Image) (d : Disk) (content : Content (List ℕ)) → IsCrashed (disk_in result.files) image d → IsFoundBy result.settings d content
            → leaves_of_log disk_in self content }
        ensures as_read { (content : Content (List ℕ)) → IsGenuineImage (disk_in result.files) (seen_image (disk_in result.files))
            → IsFoundBy result.settings (disk_in result.files) content → leaves_of_log disk_in self content }
        ensures opens_in_tail { OpensInTail (main_directory self.settings) (disk_in result.files) self.engine.pipes }
    {
        LogFiles {
            settings: self.settings,
            files: self.engine.abandon(),
        }
    }
}

impl ContentLog for MemoryLog {
    type Fault = EngineFault;

    ghost use Rattle.std.specs.Prelude.{◌≡◌, false};
    ghost use Rattle.raft_log_disk.specs.MemorySystem.{disk_in, is_bounded_in, meter_in};
    ghost use Rattle.raft_log_engine.specs.Left.{answers_on};
    ghost use Rattle.raft_log_engine.specs.Log.{leaves_of_log};
    ghost use Rattle.raft_log_engine.specs.Met.{IsMisuse, Meets, meets_later, meets_none};

    ghost is_sound = { λ l. l.has_failed ≡ false };

    ghost answers = { λ l. answers_on disk_in l.engine };

    ghost leaves = { λ l content. leaves_of_log disk_in l content };

    ghost meets = { λ old new met. Meets disk_in is_bounded_in meter_in old new met };

    ghost is_misuse = { λ fault. IsMisuse fault };

    ghost meets_none = { λ x. meets_none disk_in is_bounded_in meter_in x };

    ghost meets_later = { λ x y z met first second. meets_later disk_in is_bounded_in meter_in x y z met first second };

    fn write(&mut self, batch: &mut LogBatch) -> Result<(), EngineFault> {
        if self.has_failed {
            return Err(EngineFault::Stopped);
        }
        match self.engine.write(batch, true) {
            Ok(_) => Ok(()),
            Err(fault) => {
                self.has_failed = true;
                Err(fault)
            }
        }
    }

    fn get(&mut self, group: u64, key: &[u8]) -> Result<Option<Vec<u8>>, EngineFault> {
        self.engine.get(group, key)
    }

    fn fetch_entries_to(
        &mut self,
        group: u64,
        begin: u64,
        end: u64,
    ) -> Result<Vec<Vec<u8>>, EngineFault> {
        let found = self.engine.fetch_entries_to(group, begin, end, None)?;
        if found.len() as u64 != end.saturating_sub(begin) {
            return Err(EngineFault::Log(Error::EntryNotFound));
        }
        Ok(found)
    }

    fn is_there(&mut self, group: u64) -> Result<bool, EngineFault> {
        self.engine.is_there(group)
    }

    fn groups(&mut self) -> Result<Vec<u64>, EngineFault> {
        self.engine.raft_groups()
    }
}
