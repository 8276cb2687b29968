//! A log of batches over an engine on files of the operating system.
//!
//! The calls of an engine hold for each file system. The log is over one of them: in an impl of a
//! trait no bound of a type parameter says that it crosses threads, and a file system does.
ghost use Rattle.std.specs.Prelude.{◌≡◌, ℕ, List, true, false, Err, IfOk, IfErr, IsErrAnd, MatchResult, OnOk, OnErr};
ghost use Rattle.raft_content_log.specs.Leaving.{LeavesOnly};
ghost use Rattle.raft_log_disk.specs.Chance.{IsGenuineImage};
ghost use Rattle.raft_log_disk.specs.Disk.{Disk};
ghost use Rattle.raft_log_disk.specs.Image.{Image, seen_image};
ghost use Rattle.raft_log_disk.specs.Cause.{RefusesNoMore};
ghost use Rattle.raft_log_disk.specs.MemorySystem.{is_bounded_in};
ghost use Rattle.raft_log_engine.specs.Caused.{IsSyncFault};
ghost use Rattle.raft_log_engine.specs.declared.fault.EngineFault.TheVariants as engine_fault;
ghost use Rattle.raft_log_engine.specs.Closing.{handed_back};
ghost use Rattle.raft_log_engine.specs.Left.{answers_on};
ghost use Rattle.raft_log_engine.specs.Log.{IsFoundBy, leaves_of_log, main_directory};
ghost use Rattle.raft_log_engine.specs.Opening.{AreSetAs, CantBeOpened, HasHolesIn, IsLeftByOpening};
ghost use Rattle.raft_log_engine.specs.Reopened.{OpensInTail};
ghost use Rattle.raft_log_engine.specs.Unopened.{IsOpeningFault};
ghost use Rattle.raft_log_files.specs.declared.error.CorruptionFault.{CorruptionFault};
ghost use Rattle.raft_log_files.specs.declared.error.Error.TheVariants.{Corruption};
ghost use Rattle.raft_log_files.specs.declared.recovery.RecoveryMode.TheVariants.{TolerateTailCorruption};
ghost use Rattle.raft_log_files.specs.Settings.{settings_fault, settings_of};
ghost use Rattle.raft_log_host.specs.Mirror.{host_disk, host_meter};
ghost use Rattle.raft_log_memtables.specs.Content.{Content};
ghost use Rattle.raft_log_pipe.specs.Alone.{IsOnce, Names};
ghost use Rattle.raft_log_records.specs.declared.file_id.LogQueue.{LogQueue};
ghost use Rattle.raft_log_recovery.specs.Crashed.{IsCrashed};
ghost use Rattle.raft_log_recovery.specs.Scan.{directories_of};

use raft_content_log::ContentLog;
use raft_log_engine::{Engine, EngineFault, NotClosed, NotOpened};
use raft_log_files::{Config, Error, RecoveryMode};
use raft_log_host::HostFileSystem;
use raft_log_records::LogBatch;
use std::alloc::{AllocError, Global};
use std::marker::Model;
use std::thread::Threads;

/// The files of a directory on a disk, with the settings that a log is opened by (own).
#[derive(Drop)]
pub struct HostFiles {
    /// The settings. The files lie in their main directory: a spill directory isn't used.
    pub settings: Config,
    /// The files.
    pub files: HostFileSystem,
}

/// A log over an engine on the files of one directory on a disk (own). Each write is synced. After one
/// that was refused, for whatever reason, the log takes none: the directory is to be opened again.
#[derive(Drop)]
pub struct HostLog {
    pub(crate) engine: Engine<HostFileSystem>,
    settings: Config,
    /// A write or a cleaning was refused.
    pub(crate) has_failed: bool,
}

impl Model for HostLog {
    ghost use Rattle.raft_log_engine.specs.Log.{IsLog, LogOn};
    ghost use Rattle.raft_log_memtables.specs.contracts.memtables.MemTables as tables;
    ghost use Rattle.raft_log_traces.specs.contracts.group_traces.GroupTraces as traces;
    ghost use Rattle.raft_log_host.specs.contracts.files.HostFileSystem as files;
    ghost use Rattle.raft_log_host.specs.Mirror.{OnHost, host_disk};
    ghost use Rattle.std.specs.Coded.{codes};

    ghost Value = { LogOn OnHost };

    ghost coded = { Prim.hlevel (codes, tables.the_row.coded, traces.the_row.coded, files.the_row.coded) };

    ghost view = { λ l. record { engine = l.engine; settings = l.settings; has_failed = l.has_failed } };

    ghost invariant = { λ l. IsLog host_disk l.engine l.settings l.has_failed };
}

/// A copy of the settings, with the main directory alone. A torn tail is tolerated, whatever they say:
/// a crash may leave one.
fn in_one_directory(settings: &Config) -> Result<Config, AllocError>
    ensures directories { IfOk result (λ config. directories_of (settings_of config) ≡ main_directory settings.now) }
    ensures mode { IfOk result (λ config. config.recovery_mode ≡ TolerateTailCorruption) }
    ensures sizes { IfOk result (λ config. (config.target_file_size ≡ settings.now.target_file_size) × (config.format_version ≡ settings.now.format_version)) }
    ensures fault { IfOk result (λ config. settings_fault (settings_of config) ≡ settings_fault (settings_of settings.now)) }
    ensures once { IfOk result (λ config. (names : Names) (queue : LogQueue) → IsOnce names (directories_of (settings_of config)) queue) }
{
    let mut config = settings.clone()?;
    config.spill_dir = None;
    config.recovery_mode = RecoveryMode::TolerateTailCorruption;
    Ok(config)
}

impl HostLog {
    /// Opens the log with the files that are there, or makes its first one (own). What the files read
    /// as is what it answers, and what a crash leaves. Whatever mode the settings name, a torn tail is cut
    /// away, and any other fault in a file refused. A refusal hands the files back: what an opening finds
    /// of them as they are it might have found of those before.
    pub fn open(alloc: Global, files: HostFiles) -> Result<HostLog, NotOpened<HostFiles>>
        ensures sound { IfOk result (λ l. l.has_failed ≡ false) }
        ensures answers { IfOk result (λ l. IsFoundBy files.settings (host_disk files.files) (answers_on host_disk l.engine)) }
        ensures leaves { IfOk result (λ l. LeavesOnly (leaves_of_log host_disk l) (answers_on host_disk l.engine)) }
        ensures opens_in_tail { IfOk result (λ l. OpensInTail (main_directory l.settings) (host_disk l.engine.files) l.engine.pipes) }
        ensures settings { IfOk result (λ l. l.settings ≡ files.settings) }
        ensures set { IfOk result (λ l. AreSetAs (settings_of files.settings) l.engine.pipes) }
        ensures holes { IfOk result (λ l. HasHolesIn TolerateTailCorruption (host_disk l.engine.files) l.engine.pipes) }
        ensures refused { IfErr result (λ refused. refused.files.settings ≡ files.settings) }
        ensures err { IfErr result (λ refused. IsLeftByOpening TolerateTailCorruption (main_directory files.settings) (host_disk files.files) (host_disk refused.files.files)) }
        ensures reads { IfErr result (λ refused. (content : Content (List ℕ)) → IsFoundBy files.settings (host_disk refused.files.files) content
            → IsFoundBy files.settings (host_disk files.files) content) }
        ensures corrupt { IfErr result (λ refused. (f : CorruptionFault) → refused.fault ≡ engine_fault.Log (Corruption f)
            → (queue : LogQueue) × CantBeOpened TolerateTailCorruption (main_directory files.settings) queue (host_disk files.files)) }
        ensures later { MatchResult result (λ l. RefusesNoMore (is_bounded_in files.files.memory) (is_bounded_in l.engine.files.memory) (host_meter files.files) (host_meter l.engine.files))
            (λ refused. RefusesNoMore (is_bounded_in files.files.memory) (is_bounded_in refused.files.files.memory) (host_meter files.files) (host_meter refused.files.files)) }
        ensures cause { IfErr result (λ refused. IsOpeningFault (settings_fault (settings_of files.settings)) TolerateTailCorruption (main_directory files.settings)
            (host_disk files.files) (host_disk refused.files.files) (is_bounded_in files.files.memory) (host_meter files.files) (host_meter refused.files.files) refused.fault) }
    {
        let HostFiles { settings, files } = files;
        let Ok(config) = in_one_directory(&settings) else {
            return Err(NotOpened {
                fault: EngineFault::Log(Error::Memory),
                files: HostFiles { settings, files },
            });
        };
        match Engine::open_alone(files, alloc, config) {
            Ok(engine) => Ok(HostLog {
                engine,
                settings,
                has_failed: false,
            }),
            Err(NotOpened { fault, files }) => Err(NotOpened {
                fault,
                files: HostFiles { settings, files },
            }),
        }
    }

    /// Opens the log as `open` does, by as many workers as `recovery_threads` of the settings says
    /// (own): as `Engine::open_with_file_system`.
    pub fn open_by_workers<R: Threads + Sync>(
        rt: &R,
        alloc: Global,
        files: HostFiles,
    ) -> Result<HostLog, NotOpened<HostFiles>>
        ensures sound { IfOk result (λ l. l.has_failed ≡ false) }
        ensures answers { IfOk result (λ l. IsFoundBy files.settings (host_disk files.files) (answers_on host_disk l.engine)) }
        ensures leaves { IfOk result (λ l. LeavesOnly (leaves_of_log host_disk l) (answers_on host_disk l.engine)) }
        ensures opens_in_tail { IfOk result (λ l. OpensInTail (main_directory l.settings) (host_disk l.engine.files) l.engine.pipes) }
        ensures settings { IfOk result (λ l. l.settings ≡ files.settings) }
        ensures set { IfOk result (λ l. AreSetAs (settings_of files.settings) l.engine.pipes) }
        ensures holes { IfOk result (λ l. HasHolesIn TolerateTailCorruption (host_disk l.engine.files) l.engine.pipes) }
        ensures refused { IfErr result (λ refused. refused.files.settings ≡ files.settings) }
        ensures err { IfErr result (λ refused. IsLeftByOpening TolerateTailCorruption (main_directory files.settings) (host_disk files.files) (host_disk refused.files.files)) }
        ensures reads { IfErr result (λ refused. (content : Content (List ℕ)) → IsFoundBy files.settings (host_disk refused.files.files) content
            → IsFoundBy files.settings (host_disk files.files) content) }
        ensures corrupt { IfErr result (λ refused. (f : CorruptionFault) → refused.fault ≡ engine_fault.Log (Corruption f)
            → (queue : LogQueue) × CantBeOpened TolerateTailCorruption (main_directory files.settings) queue (host_disk files.files)) }
        ensures later { MatchResult result (λ l. RefusesNoMore (is_bounded_in files.files.memory) (is_bounded_in l.engine.files.memory) (host_meter files.files) (host_meter l.engine.files))
            (λ refused. RefusesNoMore (is_bounded_in files.files.memory) (is_bounded_in refused.files.files.memory) (host_meter files.files) (host_meter refused.files.files)) }
        ensures cause { IfErr result (λ refused. IsOpeningFault (settings_fault (settings_of files.settings)) TolerateTailCorruption (main_directory files.settings)
            (host_disk files.files) (host_disk refused.files.files) (is_bounded_in files.files.memory) (host_meter files.files) (host_meter refused.files.files) refused.fault) }
    {
        let HostFiles { settings, files } = files;
        let Ok(config) = in_one_directory(&settings) else {
            return Err(NotOpened {
                fault: EngineFault::Log(Error::Memory),
                files: HostFiles { settings, files },
            });
        };
        match Engine::open_with_file_system(rt, files, alloc, config) {
            Ok(engine) => Ok(HostLog {
                engine,
                settings,
                has_failed: false,
            }),
            Err(NotOpened { fault, files }) => Err(NotOpened {
                fault,
                files: HostFiles { settings, files },
            }),
        }
    }

    /// The engine, lent for reading (own): the span and the bytes of its queues, and its groups.
    pub fn engine(&self) -> &Engine<HostFileSystem>
        ensures { result.now ≡ self.now.engine }
    {
        &self.engine
    }

    /// The files, lent for reading (own).
    pub fn files(&self) -> &HostFileSystem
        ensures { result.now ≡ self.now.engine.files }
    {
        self.engine.files()
    }

    /// The files, handed back in any case (raft-engine's `close`): after `Ok` the last one of each queue
    /// is cut behind its last record and synced. A refusal is told; a log that has failed is `Stopped`,
    /// with no call. What an opening finds of the files, after a crash or as they are, is what the log
    /// answered, or what a failed one left; of files as they are unless they show by chance what nobody
    /// wrote.
    pub fn close(self) -> Result<HostFiles, NotClosed<HostFiles>>
        ensures settings { (handed_back result).settings ≡ self.settings }
        ensures opens { (image : Image) (d : Disk) (content : Content (List ℕ)) → self.has_failed ≡ false → IsCrashed (host_disk (handed_back result).files) image d
            → IsFoundBy (handed_back result).settings d content → content ≡ answers_on host_disk self.engine }
        ensures crashed { (image : Image) (d : Disk) (content : Content (List ℕ)) → IsCrashed (host_disk (handed_back result).files) image d → IsFoundBy (handed_back result).settings d content
            → leaves_of_log host_disk self content }
        ensures as_read { (content : Content (List ℕ)) → IsGenuineImage (host_disk (handed_back result).files) (seen_image (host_disk (handed_back result).files))
            → IsFoundBy (handed_back result).settings (host_disk (handed_back result).files) content → leaves_of_log host_disk self content }
        ensures opens_in_tail { OpensInTail (main_directory self.settings) (host_disk (handed_back result).files) self.engine.pipes }
        ensures failed { self.has_failed ≡ true → IsErrAnd result (λ refused. (refused.fault ≡ engine_fault.Stopped) × (refused.files.files ≡ self.engine.files)) }
        ensures cause { IfErr result (λ refused. self.has_failed ≡ false → IsSyncFault self.engine (host_meter self.engine.files) (host_meter refused.files.files) refused.fault) }
    {
        if self.has_failed {
            return Err(NotClosed {
                fault: EngineFault::Stopped,
                files: self.into_files(),
            });
        }
        let settings = self.settings;
        match self.engine.close() {
            Ok(files) => Ok(HostFiles { settings, files }),
            Err(refused) => Err(NotClosed {
                fault: refused.fault,
                files: HostFiles {
                    settings,
                    files: refused.files,
                },
            }),
        }
    }

    /// The files, handed back with no call on them (own: `abandon`), as where a machine stops. What an
    /// opening finds after a crash of them is left by the log, and so is what it finds of them as they
    /// are, unless they show by chance what nobody wrote.
    pub fn into_files(self) -> HostFiles
        ensures files { result.files ≡ self.engine.files }
        ensures settings { result.settings ≡ self.settings }
        ensures crashed { (image : Image) (d : Disk) (content : Content (List ℕ)) → IsCrashed (host_disk result.files) image d → IsFoundBy result.settings d content
            → leaves_of_log host_disk self content }
        ensures as_read { (content : Content (List ℕ)) → IsGenuineImage (host_disk result.files) (seen_image (host_disk result.files))
            → IsFoundBy result.settings (host_disk result.files) content → leaves_of_log host_disk self content }
        ensures opens_in_tail { OpensInTail (main_directory self.settings) (host_disk result.files) self.engine.pipes }
    {
        HostFiles {
            settings: self.settings,
            files: self.engine.abandon(),
        }
    }
}

impl ContentLog for HostLog {
    type Fault = EngineFault;

    ghost use Rattle.std.specs.Prelude.{◌≡◌, false};
    ghost use Rattle.raft_log_host.specs.Mirror.{host_disk};
    ghost use Rattle.raft_log_engine.specs.Left.{answers_on};
    ghost use Rattle.raft_log_engine.specs.Log.{leaves_of_log};
    ghost use Rattle.raft_log_engine.specs.Met.{IsMisuse, Meets, meets_later, meets_none};

    ghost is_sound = { λ l. l.has_failed ≡ false };

    ghost answers = { λ l. answers_on host_disk l.engine };

    ghost leaves = { λ l content. leaves_of_log host_disk l content };

    ghost meets = { λ old new met. Meets host_disk (λ f. is_bounded_in f.memory) host_meter old new met };

    ghost is_misuse = { λ fault. IsMisuse fault };

    ghost meets_none = { λ x. meets_none host_disk (λ f. is_bounded_in f.memory) host_meter x };

    ghost meets_later = { λ x y z met first second. meets_later host_disk (λ f. is_bounded_in f.memory) host_meter x y z met first second };

    fn write(&mut self, batch: &mut LogBatch) -> Result<(), EngineFault> {
        if self.has_failed {
            return Err(EngineFault::Stopped);
        }
        match self.engine.write(batch, true) {
            Ok(_) => Ok(()),
            Err(fault) => {
                self.has_failed = true;
                Err(fault)
            }
        }
    }

    fn get(&mut self, group: u64, key: &[u8]) -> Result<Option<Vec<u8>>, EngineFault> {
        self.engine.get(group, key)
    }

    fn fetch_entries_to(
        &mut self,
        group: u64,
        begin: u64,
        end: u64,
    ) -> Result<Vec<Vec<u8>>, EngineFault> {
        let found = self.engine.fetch_entries_to(group, begin, end, None)?;
        if found.len() as u64 != end.saturating_sub(begin) {
            return Err(EngineFault::Log(Error::EntryNotFound));
        }
        Ok(found)
    }

    fn is_there(&mut self, group: u64) -> Result<bool, EngineFault> {
        self.engine.is_there(group)
    }

    fn groups(&mut self) -> Result<Vec<u64>, EngineFault> {
        self.engine.raft_groups()
    }
}
