//! The ways to open: each queue is recovered by one thread, or by several workers.

ghost use Rattle.std.specs.Prelude.{◌≡◌, ℕ, false, List, [], IfOk, IfErr, IsErrAnd, MatchResult, Some};
ghost use Rattle.raft_log_disk.specs.Cause.{NothingRefuses, RefusesNoMore};
ghost use Rattle.raft_log_engine.specs.Left.{IsSound, answers_on};
ghost use Rattle.raft_log_engine.specs.declared.fault.EngineFault.TheVariants.{Log};
ghost use Rattle.raft_log_engine.specs.Opening.{AreSetAs, CantBeOpened, HasHolesIn, IsFoundAgain, IsFoundContent, IsLeftByOpening, KeepsWanted};
ghost use Rattle.raft_log_engine.specs.Reopened.{OpensAs, OpensInTail, StandsAlone, directories_of_engine};
ghost use Rattle.raft_log_engine.specs.Since.{HasWritten};
ghost use Rattle.raft_log_engine.specs.Unopened.{IsOpeningFault, IsUnopenable};
ghost use Rattle.raft_log_memtables.specs.Content.{Content, nothing};
ghost use Rattle.raft_log_pipe.specs.Alone.{IsOnce};
ghost use Rattle.raft_log_records.specs.declared.file_id.LogQueue.{LogQueue};
ghost use Rattle.raft_log_files.specs.declared.recovery.RecoveryMode.TheVariants.{TolerateTailCorruption};
ghost use Rattle.raft_log_files.specs.Settings.{sanitized, settings_fault, settings_of};
ghost use Rattle.raft_log_files.specs.declared.error.CorruptionFault.{CorruptionFault};
ghost use Rattle.raft_log_files.specs.declared.error.Error.TheVariants.{Corruption, Other};
ghost use Rattle.raft_log_files.specs.declared.error.OtherFault.{OtherFault};
ghost use Rattle.raft_log_recovery.specs.Scan.{directories_of, AreFound};
ghost use Rattle.raft_content_log.specs.Leaving.{LeavesOnly};
ghost use Rattle.raft_log_disk.specs.MemorySystem.{disk_in, is_bounded_in, meter_in};
ghost use Rattle.raft_log_engine.specs.declared.fault.EngineFault.TheVariants as engine_fault;
ghost use Rattle.raft_log_engine.specs.Log.{IsFoundBy, leaves_of_log, main_directory};
ghost use Rattle.raft_log_recovery.specs.Queue.{directories_in, names_in};
ghost use Rattle.raft_log_recovery.specs.declared.scan.FileKind.TheVariants as kind;
ghost use Rattle.raft_log_recovery.specs.Ways.{Recovers};
ghost use Rattle.raft_log_traced.specs.Traced.{IsReplayedTraced};

use crate::engine::Engine;
use crate::memory::{LogFiles, MemoryLog};
use crate::opening::NotOpened;
use raft_log_files::{Config, Error, FileSystem, MemoryFileSystem, RecoveryConfig};
use raft_log_pipe::File;
use raft_log_recovery::{DualPipesBuilder, NewMachine};
use raft_log_traced::TracedReplay;
use raft_log_workers::{ReplayedBatches, recover_queue};
use std::alloc::Global;
use std::thread::Threads;

/// Recovers the files of a queue one after the other.
fn recover_in_turn<F: FileSystem>(
    builder: &DualPipesBuilder,
    files: &mut F,
    config: &RecoveryConfig,
    machine: &mut TracedReplay,
) -> Result<Vec<File>, Error>
    requires { AreFound (F.disk files.old) (kind.Log config.now.queue) (directories_in builder.now) (names_in builder.now config.now.queue) }
    ensures { Recovers (IsReplayedTraced machine.old) (IsReplayedTraced machine.new) builder.now config.now (F.disk files.old) (F.disk files.new)
        (F.is_bounded files.old) (F.is_bounded files.new) (F.meter files.old) (F.meter files.new) result }
{
    builder.recover_queue(files, config, machine)
}

/// Recovers the files of a queue by several workers. Their batches are kept as they were read, and then
/// replayed in the order of the files: what the workers read can't be merged otherwise.
fn recover_by_workers<F: FileSystem, R: Threads + Sync>(
    rt: &R,
    builder: &DualPipesBuilder,
    files: &mut F,
    config: &RecoveryConfig,
    machine: &mut TracedReplay,
) -> Result<Vec<File>, Error>
    requires { AreFound (F.disk files.old) (kind.Log config.now.queue) (directories_in builder.now) (names_in builder.now config.now.queue) }
    ensures { Recovers (IsReplayedTraced machine.old) (IsReplayedTraced machine.new) builder.now config.now (F.disk files.old) (F.disk files.new)
        (F.is_bounded files.old) (F.is_bounded files.new) (F.meter files.old) (F.meter files.new) result }
{
    let mut batches = ReplayedBatches::new_machine(builder.alloc());
    let recovered = recover_queue(rt, builder, files, config, &mut batches)?;
    batches.replay_into(machine)?;
    Ok(recovered)
}

impl<F: FileSystem + Drop> Engine<F> {
    /// Opens the engine with the files that are there, or makes the first one of a queue that has
    /// none (raft-engine's `open`, with one worker): its content is that of the rewrite queue's
    /// batches, with those of the append queue behind them. A fault in a file is cut away or refused,
    /// as `recovery_mode` says. Unsound settings are refused as by `Config::sanitize`, with no call on
    /// the files. A refusal hands the files back, which read as before.
    pub fn open_alone(files: F, alloc: Global, config: Config) -> Result<Engine<F>, NotOpened<F>>
        ensures sound { IfOk result IsSound }
        ensures answers { IfOk result (λ e. IsFoundContent config.recovery_mode (directories_of (settings_of config)) (F.disk files) (answers_on F.disk e)) }
        ensures fresh { (F.disk files).names ≡ [] → IfOk result (λ e. answers_on F.disk e ≡ nothing) }
        ensures directories { IfOk result (λ e. directories_of_engine e ≡ directories_of (settings_of config)) }
        ensures settings { IfOk result (λ e. AreSetAs (settings_of config) e.pipes) }
        ensures threshold { IfOk result (λ e. e.purge_threshold ≡ (settings_of config).purge_threshold.0) }
        ensures reserved { IfOk result (λ e. KeepsWanted (sanitized (settings_of config)) (directories_of (settings_of config)) (F.disk files)
            (F.disk e.files) (F.meter files) (F.meter e.files) e.pipes) }
        ensures holes { IfOk result (λ e. HasHolesIn config.recovery_mode (F.disk e.files) e.pipes) }
        ensures alone { IfOk result (λ e. ((queue : LogQueue) → IsOnce (F.disk files).names (directories_of (settings_of config)) queue) → StandsAlone F.disk e) }
        ensures written { IfOk result (λ e. HasWritten F.disk e (answers_on F.disk e) []) }
        ensures opens { IfOk result (λ e. StandsAlone F.disk e → OpensAs (directories_of_engine e) (F.disk e.files) (answers_on F.disk e)) }
        ensures opens_in_tail { IfOk result (λ e. StandsAlone F.disk e → OpensInTail (directories_of_engine e) (F.disk e.files) e.pipes) }
        ensures unread { IfOk result (λ e. e.block_reads ≡ 0) }
        ensures err { IfErr result (λ refused. IsLeftByOpening config.recovery_mode (directories_of (settings_of config)) (F.disk files) (F.disk refused.files)) }
        ensures reads { IfErr result (λ refused. IsFoundAgain config.recovery_mode (directories_of (settings_of config)) (F.disk files) (F.disk refused.files)) }
        ensures corrupt { IfErr result (λ refused. (f : CorruptionFault) → refused.fault ≡ Log (Corruption f)
            → (queue : LogQueue) × CantBeOpened config.recovery_mode (directories_of (settings_of config)) queue (F.disk files)) }
        ensures refused { (f : OtherFault) → settings_fault (settings_of config) ≡ Some f → IsErrAnd result (λ refused. (refused.fault ≡ Log (Other f)) × (refused.files ≡ files)) }
        ensures later { MatchResult result (λ e. RefusesNoMore (F.is_bounded files) (F.is_bounded e.files) (F.meter files) (F.meter e.files))
            (λ refused. RefusesNoMore (F.is_bounded files) (F.is_bounded refused.files) (F.meter files) (F.meter refused.files)) }
        ensures cause { IfErr result (λ refused. IsOpeningFault (settings_fault (settings_of config)) config.recovery_mode (directories_of (settings_of config)) (F.disk files)
            (F.disk refused.files) (F.is_bounded files) (F.meter files) (F.meter refused.files) refused.fault) }
        ensures taken { NothingRefuses (F.is_bounded files) (F.meter files)
            → IfErr result (λ refused. IsUnopenable (settings_fault (settings_of config)) config.recovery_mode (directories_of (settings_of config))
            (F.disk files) (F.disk refused.files) refused.fault) }
    {
        Engine::open_by(
            &|builder: &DualPipesBuilder, files: &mut F, config: &RecoveryConfig, machine: &mut TracedReplay| -> Result<
                Vec<File>,
                Error,
            >
                requires { AreFound (F.disk files.now) (kind.Log config.now.queue) (directories_in builder.now) (names_in builder.now config.now.queue) }
                ensures { Recovers (IsReplayedTraced machine.entry.now) (IsReplayedTraced machine.exit.now) builder.entry.now config.entry.now (F.disk files.entry.now) (F.disk files.exit.now)
                    (F.is_bounded files.entry.now) (F.is_bounded files.exit.now) (F.meter files.entry.now) (F.meter files.exit.now) result }
            { recover_in_turn(builder, files, config, machine) },
            files,
            alloc,
            config,
        )
    }

    /// Opens the engine as `open_alone` does, by as many workers as `recovery_threads` of the settings
    /// says (raft-engine's `open_with_file_system`); 0 counts as 1. Each worker reads some files of a
    /// queue, on a thread of its own where one can be made. All items of a queue's batches are in
    /// memory then, with the tables made of them; `open_alone` holds those of one batch.
    pub fn open_with_file_system<R: Threads + Sync>(
        rt: &R,
        files: F,
        alloc: Global,
        config: Config,
    ) -> Result<Engine<F>, NotOpened<F>>
        ensures sound { IfOk result IsSound }
        ensures answers { IfOk result (λ e. IsFoundContent config.recovery_mode (directories_of (settings_of config)) (F.disk files) (answers_on F.disk e)) }
        ensures fresh { (F.disk files).names ≡ [] → IfOk result (λ e. answers_on F.disk e ≡ nothing) }
        ensures directories { IfOk result (λ e. directories_of_engine e ≡ directories_of (settings_of config)) }
        ensures settings { IfOk result (λ e. AreSetAs (settings_of config) e.pipes) }
        ensures threshold { IfOk result (λ e. e.purge_threshold ≡ (settings_of config).purge_threshold.0) }
        ensures reserved { IfOk result (λ e. KeepsWanted (sanitized (settings_of config)) (directories_of (settings_of config)) (F.disk files)
            (F.disk e.files) (F.meter files) (F.meter e.files) e.pipes) }
        ensures holes { IfOk result (λ e. HasHolesIn config.recovery_mode (F.disk e.files) e.pipes) }
        ensures alone { IfOk result (λ e. ((queue : LogQueue) → IsOnce (F.disk files).names (directories_of (settings_of config)) queue) → StandsAlone F.disk e) }
        ensures written { IfOk result (λ e. HasWritten F.disk e (answers_on F.disk e) []) }
        ensures opens { IfOk result (λ e. StandsAlone F.disk e → OpensAs (directories_of_engine e) (F.disk e.files) (answers_on F.disk e)) }
        ensures opens_in_tail { IfOk result (λ e. StandsAlone F.disk e → OpensInTail (directories_of_engine e) (F.disk e.files) e.pipes) }
        ensures unread { IfOk result (λ e. e.block_reads ≡ 0) }
        ensures err { IfErr result (λ refused. IsLeftByOpening config.recovery_mode (directories_of (settings_of config)) (F.disk files) (F.disk refused.files)) }
        ensures reads { IfErr result (λ refused. IsFoundAgain config.recovery_mode (directories_of (settings_of config)) (F.disk files) (F.disk refused.files)) }
        ensures corrupt { IfErr result (λ refused. (f : CorruptionFault) → refused.fault ≡ Log (Corruption f)
            → (queue : LogQueue) × CantBeOpened config.recovery_mode (directories_of (settings_of config)) queue (F.disk files)) }
        ensures refused { (f : OtherFault) → settings_fault (settings_of config) ≡ Some f → IsErrAnd result (λ refused. (refused.fault ≡ Log (Other f)) × (refused.files ≡ files)) }
        ensures later { MatchResult result (λ e. RefusesNoMore (F.is_bounded files) (F.is_bounded e.files) (F.meter files) (F.meter e.files))
            (λ refused. RefusesNoMore (F.is_bounded files) (F.is_bounded refused.files) (F.meter files) (F.meter refused.files)) }
        ensures cause { IfErr result (λ refused. IsOpeningFault (settings_fault (settings_of config)) config.recovery_mode (directories_of (settings_of config)) (F.disk files)
            (F.disk refused.files) (F.is_bounded files) (F.meter files) (F.meter refused.files) refused.fault) }
        ensures taken { NothingRefuses (F.is_bounded files) (F.meter files)
            → IfErr result (λ refused. IsUnopenable (settings_fault (settings_of config)) config.recovery_mode (directories_of (settings_of config))
            (F.disk files) (F.disk refused.files) refused.fault) }
    {
        Engine::open_by(
            &|builder: &DualPipesBuilder, files: &mut F, config: &RecoveryConfig, machine: &mut TracedReplay| -> Result<
                Vec<File>,
                Error,
            >
                requires { AreFound (F.disk files.now) (kind.Log config.now.queue) (directories_in builder.now) (names_in builder.now config.now.queue) }
                ensures { Recovers (IsReplayedTraced machine.entry.now) (IsReplayedTraced machine.exit.now) builder.entry.now config.entry.now (F.disk files.entry.now) (F.disk files.exit.now)
                    (F.is_bounded files.entry.now) (F.is_bounded files.exit.now) (F.meter files.entry.now) (F.meter files.exit.now) result }
            { recover_by_workers(rt, builder, files, config, machine) },
            files,
            alloc,
            config,
        )
    }
}

impl MemoryLog {
    /// Opens the log with the files that are there, or makes its first one (own). What the files read
    /// as is what it answers, and what a crash leaves. Whatever mode the settings name, a torn tail is cut
    /// away, and any other fault in a file refused. A refusal hands the files back: what an opening finds
    /// of them as they are it might have found of those before.
    pub fn open(alloc: Global, files: LogFiles) -> Result<MemoryLog, NotOpened<LogFiles>>
        ensures sound { IfOk result (λ l. l.has_failed ≡ false) }
        ensures answers { IfOk result (λ l. IsFoundBy files.settings (disk_in files.files) (answers_on disk_in l.engine)) }
        ensures leaves { IfOk result (λ l. LeavesOnly (leaves_of_log disk_in l) (answers_on disk_in l.engine)) }
        ensures opens_in_tail { IfOk result (λ l. OpensInTail (main_directory l.settings) (disk_in l.engine.files) l.engine.pipes) }
        ensures settings { IfOk result (λ l. l.settings ≡ files.settings) }
        ensures set { IfOk result (λ l. AreSetAs (settings_of files.settings) l.engine.pipes) }
        ensures holes { IfOk result (λ l. HasHolesIn TolerateTailCorruption (disk_in l.engine.files) l.engine.pipes) }
        ensures refused { IfErr result (λ refused. refused.files.settings ≡ files.settings) }
        ensures err { IfErr result (λ refused. IsLeftByOpening TolerateTailCorruption (main_directory files.settings) (disk_in files.files) (disk_in refused.files.files)) }
        ensures reads { IfErr result (λ refused. (content : Content (List ℕ)) → IsFoundBy files.settings (disk_in refused.files.files) content
            → IsFoundBy files.settings (disk_in files.files) content) }
        ensures corrupt { IfErr result (λ refused. (f : CorruptionFault) → refused.fault ≡ engine_fault.Log (Corruption f)
            → (queue : LogQueue) × CantBeOpened TolerateTailCorruption (main_directory files.settings) queue (disk_in files.files)) }
        ensures later { MatchResult result (λ l. RefusesNoMore (is_bounded_in files.files) (is_bounded_in l.engine.files) (meter_in files.files) (meter_in l.engine.files))
            (λ refused. RefusesNoMore (is_bounded_in files.files) (is_bounded_in refused.files.files) (meter_in files.files) (meter_in refused.files.files)) }
        ensures cause { IfErr result (λ refused. IsOpeningFault (settings_fault (settings_of files.settings)) TolerateTailCorruption (main_directory files.settings)
            (disk_in files.files) (disk_in refused.files.files) (is_bounded_in files.files) (meter_in files.files) (meter_in refused.files.files) refused.fault) }
        ensures taken { NothingRefuses (is_bounded_in files.files) (meter_in files.files) → IfErr result (λ refused. IsUnopenable (settings_fault (settings_of files.settings))
            TolerateTailCorruption (main_directory files.settings) (disk_in files.files) (disk_in refused.files.files) refused.fault) }
    {
        MemoryLog::open_by(
            &|builder: &DualPipesBuilder, files: &mut MemoryFileSystem, config: &RecoveryConfig, machine: &mut TracedReplay| -> Result<
                Vec<File>,
                Error,
            >
                requires { AreFound (disk_in files.now) (kind.Log config.now.queue) (directories_in builder.now) (names_in builder.now config.now.queue) }
                ensures { Recovers (IsReplayedTraced machine.entry.now) (IsReplayedTraced machine.exit.now) builder.entry.now config.entry.now (disk_in files.entry.now) (disk_in files.exit.now)
                    (is_bounded_in files.entry.now) (is_bounded_in files.exit.now) (meter_in files.entry.now) (meter_in files.exit.now) result }
            { recover_in_turn(builder, files, config, machine) },
            alloc,
            files,
        )
    }

    /// Opens the log as `open` does, by as many workers as `recovery_threads` of the settings says
    /// (own): as `Engine::open_with_file_system`.
    pub fn open_by_workers<R: Threads + Sync>(
        rt: &R,
        alloc: Global,
        files: LogFiles,
    ) -> Result<MemoryLog, NotOpened<LogFiles>>
        ensures sound { IfOk result (λ l. l.has_failed ≡ false) }
        ensures answers { IfOk result (λ l. IsFoundBy files.settings (disk_in files.files) (answers_on disk_in l.engine)) }
        ensures leaves { IfOk result (λ l. LeavesOnly (leaves_of_log disk_in l) (answers_on disk_in l.engine)) }
        ensures opens_in_tail { IfOk result (λ l. OpensInTail (main_directory l.settings) (disk_in l.engine.files) l.engine.pipes) }
        ensures settings { IfOk result (λ l. l.settings ≡ files.settings) }
        ensures set { IfOk result (λ l. AreSetAs (settings_of files.settings) l.engine.pipes) }
        ensures holes { IfOk result (λ l. HasHolesIn TolerateTailCorruption (disk_in l.engine.files) l.engine.pipes) }
        ensures refused { IfErr result (λ refused. refused.files.settings ≡ files.settings) }
        ensures err { IfErr result (λ refused. IsLeftByOpening TolerateTailCorruption (main_directory files.settings) (disk_in files.files) (disk_in refused.files.files)) }
        ensures reads { IfErr result (λ refused. (content : Content (List ℕ)) → IsFoundBy files.settings (disk_in refused.files.files) content
            → IsFoundBy files.settings (disk_in files.files) content) }
        ensures corrupt { IfErr result (λ refused. (f : CorruptionFault) → refused.fault ≡ engine_fault.Log (Corruption f)
            → (queue : LogQueue) × CantBeOpened TolerateTailCorruption (main_directory files.settings) queue (disk_in files.files)) }
        ensures later { MatchResult result (λ l. RefusesNoMore (is_bounded_in files.files) (is_bounded_in l.engine.files) (meter_in files.files) (meter_in l.engine.files))
            (λ refused. RefusesNoMore (is_bounded_in files.files) (is_bounded_in refused.files.files) (meter_in files.files) (meter_in refused.files.files)) }
        ensures cause { IfErr result (λ refused. IsOpeningFault (settings_fault (settings_of files.settings)) TolerateTailCorruption (main_directory files.settings)
            (disk_in files.files) (disk_in refused.files.files) (is_bounded_in files.files) (meter_in files.files) (meter_in refused.files.files) refused.fault) }
        ensures taken { NothingRefuses (is_bounded_in files.files) (meter_in files.files) → IfErr result (λ refused. IsUnopenable (settings_fault (settings_of files.settings))
            TolerateTailCorruption (main_directory files.settings) (disk_in files.files) (disk_in refused.files.files) refused.fault) }
    {
        MemoryLog::open_by(
            &|builder: &DualPipesBuilder, files: &mut MemoryFileSystem, config: &RecoveryConfig, machine: &mut TracedReplay| -> Result<
                Vec<File>,
                Error,
            >
                requires { AreFound (disk_in files.now) (kind.Log config.now.queue) (directories_in builder.now) (names_in builder.now config.now.queue) }
                ensures { Recovers (IsReplayedTraced machine.entry.now) (IsReplayedTraced machine.exit.now) builder.entry.now config.entry.now (disk_in files.entry.now) (disk_in files.exit.now)
                    (is_bounded_in files.entry.now) (is_bounded_in files.exit.now) (meter_in files.entry.now) (meter_in files.exit.now) result }
            { recover_by_workers(rt, builder, files, config, machine) },
            alloc,
            files,
        )
    }
}
