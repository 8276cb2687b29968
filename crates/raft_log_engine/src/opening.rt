//! Opening an engine with the files that are there.
ghost use Rattle.std.specs.Prelude.{◌≡◌, ℕ, true, false, List, [], Err, IfOk, IfErr, IsErrAnd, IsOk, MatchOption, MatchResult, None, OnErr, Some};
ghost use Rattle.raft_log_disk.specs.Cause.{NothingRefuses, RefusesNoMore};
ghost use Rattle.raft_log_engine.specs.Caused.{IsSyncFault};
ghost use Rattle.raft_log_engine.specs.Closing.{handed_back};
ghost use Rattle.raft_log_engine.specs.Left.{IsSound, answers_on};
ghost use Rattle.raft_log_engine.specs.declared.fault.EngineFault.TheVariants.{Log, Stopped};
ghost use Rattle.raft_log_engine.specs.Opening.{AreSetAs, CantBeOpened, HasHolesIn, IsFoundAgain, IsFoundContent, IsLeftByOpening, IsRecoveredAs, KeepsWanted};
ghost use Rattle.raft_log_engine.specs.Reopened.{OpensAs, OpensAsFront, OpensInTail, StandAlone, StandsAlone, directories_of_engine, directories_of_pipes};
ghost use Rattle.raft_log_engine.specs.Since.{HasWritten};
ghost use Rattle.raft_log_engine.specs.Unopened.{IsOpeningFault, IsUnopenable};
ghost use Rattle.raft_log_file.specs.Laws.{Batch};
ghost use Rattle.raft_log_memtables.specs.Content.{Content, nothing};
ghost use Rattle.raft_log_pipe.specs.Alone.{IsOnce};
ghost use Rattle.raft_log_records.specs.declared.file_id.LogQueue.{LogQueue};
ghost use Rattle.raft_log_files.specs.Settings.{sanitized, settings_fault, settings_of};
ghost use Rattle.raft_log_files.specs.Size.{size_of};
ghost use Rattle.raft_log_files.specs.declared.error.CorruptionFault.{CorruptionFault};
ghost use Rattle.raft_log_files.specs.declared.error.Error.TheVariants.{Corruption, Other};
ghost use Rattle.raft_log_files.specs.declared.error.OtherFault.{OtherFault};
ghost use Rattle.raft_log_recovery.specs.Scan.{directories_of};
ghost use Rattle.raft_log_recovery.specs.Ways.{IsWay};
ghost use Rattle.raft_log_traced.specs.Traced.{IsReplayedTraced};

use crate::block_cache::BlockCache;
use crate::engine::Engine;
use crate::fault::EngineFault;
use raft_log_cleaner::PurgeManager;
use raft_log_files::{Config, Error, FileSystem, RecoveryConfig};
use raft_log_pipe::File;
use raft_log_pipes::DualPipes;
use raft_log_records::LogQueue;
use raft_log_recovery::{DefaultMachineFactory, DualPipesBuilder};
use raft_log_traced::{TracedReplay, TracedTables};
use std::alloc::Global;

/// An engine that wasn't opened (own): why, and its files.
#[derive(Drop)]
pub struct NotOpened<F> {
    /// Why.
    pub fault: EngineFault,
    /// The files, handed back.
    pub files: F,
}

/// An engine that wasn't closed (own): why, and its files.
#[derive(Drop)]
pub struct NotClosed<F> {
    /// Why.
    pub fault: EngineFault,
    /// The files, handed back.
    pub files: F,
}

/// The settings with what is too small raised, or `Other` where no log can be kept under them.
fn sound_settings(mut config: Config) -> Result<Config, Error>
    ensures directories { IfOk result (λ sound. directories_of (settings_of sound) ≡ directories_of (settings_of config)) }
    ensures mode { IfOk result (λ sound. sound.recovery_mode ≡ config.recovery_mode) }
    ensures settings { IfOk result (λ sound. settings_of sound ≡ sanitized (settings_of config)) }
    ensures refused { MatchOption (settings_fault (settings_of config)) (IsOk result) (λ f. result ≡ Err (Other f)) }
{
    config.sanitize()?;
    Ok(config)
}

/// How many bytes the rewrite queue may have before it is judged by its garbage, which settings may
/// leave open.
fn rewrite_threshold_of(config: &Config) -> u64
    ensures { (sanitized (settings_of config.now)).purge_rewrite_threshold ≡ Some (size_of result) }
{
    match config.purge_rewrite_threshold {
        Some(size) => size.0,
        None => (config.purge_threshold.0 / 10).max(config.target_file_size.0),
    }
}

/// The pipes over the files that are there, and the tables and traces of their batches, where each
/// queue is recovered in this way. Then reserved files are made and deleted, until there are as many
/// as are wanted.
fn recovered<
    F: FileSystem,
    W: Fn(
        &DualPipesBuilder,
        &mut F,
        &RecoveryConfig,
        &mut TracedReplay,
    ) -> Result<Vec<File>, Error>,
>(
    way: &W,
    files: &mut F,
    alloc: Global,
    config: Config,
) -> Result<(DualPipes, TracedTables), EngineFault>
    requires { IsWay (W.pre way.now) (W.post way.now) F.disk F.meter F.is_bounded IsReplayedTraced }
    ensures ok { IfOk result (λ found. IsRecoveredAs config.recovery_mode (directories_of (settings_of config)) (F.disk files.old) (F.disk files.new) found.0 found.1) }
    ensures paths { IfOk result (λ found. directories_of_pipes found.0 ≡ directories_of (settings_of config)) }
    ensures settings { IfOk result (λ found. AreSetAs (settings_of config) found.0) }
    ensures holes { IfOk result (λ found. HasHolesIn config.recovery_mode (F.disk files.new) found.0) }
    ensures alone { IfOk result (λ found. ((queue : LogQueue) → IsOnce (F.disk files.old).names (directories_of (settings_of config)) queue) → StandAlone found.0 (F.disk files.new)) }
    ensures reserved { IfOk result (λ found. KeepsWanted (settings_of config) (directories_of (settings_of config)) (F.disk files.old)
        (F.disk files.new) (F.meter files.old) (F.meter files.new) found.0) }
    ensures err { OnErr result (IsLeftByOpening config.recovery_mode (directories_of (settings_of config)) (F.disk files.old) (F.disk files.new)) }
    ensures reads { OnErr result (IsFoundAgain config.recovery_mode (directories_of (settings_of config)) (F.disk files.old) (F.disk files.new)) }
    ensures corrupt { (f : CorruptionFault) → result ≡ Err (Log (Corruption f))
        → (queue : LogQueue) × CantBeOpened config.recovery_mode (directories_of (settings_of config)) queue (F.disk files.old) }
    ensures later { RefusesNoMore (F.is_bounded files.old) (F.is_bounded files.new) (F.meter files.old) (F.meter files.new) }
    ensures cause { IfErr result (λ fault. IsOpeningFault None config.recovery_mode (directories_of (settings_of config)) (F.disk files.old) (F.disk files.new)
        (F.is_bounded files.old) (F.meter files.old) (F.meter files.new) fault) }
    ensures taken { NothingRefuses (F.is_bounded files.old) (F.meter files.old)
        → IfErr result (λ fault. IsUnopenable None config.recovery_mode (directories_of (settings_of config)) (F.disk files.old) (F.disk files.new) fault) }
{
    let mut builder = DualPipesBuilder::new(alloc, config);
    builder.scan(files)?;
    let factory = DefaultMachineFactory::new(alloc);
    let (mut pipes, machine) = builder.recover_by(way, files, &factory)?;
    let (first, _) = pipes.file_span(LogQueue::Append);
    let traced = machine.finish(first)?;
    let wanted = builder.wanted_reserved();
    pipes.prepare_reserved(files, wanted)?;
    Ok((pipes, traced))
}

/// The same under sound settings. Unsound ones are refused before any call on the files.
fn found_soundly<
    F: FileSystem,
    W: Fn(
        &DualPipesBuilder,
        &mut F,
        &RecoveryConfig,
        &mut TracedReplay,
    ) -> Result<Vec<File>, Error>,
>(
    way: &W,
    files: &mut F,
    alloc: Global,
    config: Config,
) -> Result<(DualPipes, TracedTables), EngineFault>
    requires { IsWay (W.pre way.now) (W.post way.now) F.disk F.meter F.is_bounded IsReplayedTraced }
    ensures ok { IfOk result (λ found. IsRecoveredAs config.recovery_mode (directories_of (settings_of config)) (F.disk files.old) (F.disk files.new) found.0 found.1) }
    ensures paths { IfOk result (λ found. directories_of_pipes found.0 ≡ directories_of (settings_of config)) }
    ensures settings { IfOk result (λ found. AreSetAs (settings_of config) found.0) }
    ensures holes { IfOk result (λ found. HasHolesIn config.recovery_mode (F.disk files.new) found.0) }
    ensures alone { IfOk result (λ found. ((queue : LogQueue) → IsOnce (F.disk files.old).names (directories_of (settings_of config)) queue) → StandAlone found.0 (F.disk files.new)) }
    ensures reserved { IfOk result (λ found. KeepsWanted (sanitized (settings_of config)) (directories_of (settings_of config)) (F.disk files.old)
        (F.disk files.new) (F.meter files.old) (F.meter files.new) found.0) }
    ensures err { OnErr result (IsLeftByOpening config.recovery_mode (directories_of (settings_of config)) (F.disk files.old) (F.disk files.new)) }
    ensures reads { OnErr result (IsFoundAgain config.recovery_mode (directories_of (settings_of config)) (F.disk files.old) (F.disk files.new)) }
    ensures corrupt { (f : CorruptionFault) → result ≡ Err (Log (Corruption f))
        → (queue : LogQueue) × CantBeOpened config.recovery_mode (directories_of (settings_of config)) queue (F.disk files.old) }
    ensures refused { (f : OtherFault) → settings_fault (settings_of config) ≡ Some f → (result ≡ Err (Log (Other f))) × (files.new ≡ files.old) }
    ensures later { RefusesNoMore (F.is_bounded files.old) (F.is_bounded files.new) (F.meter files.old) (F.meter files.new) }
    ensures cause { IfErr result (λ fault. IsOpeningFault (settings_fault (settings_of config)) config.recovery_mode (directories_of (settings_of config)) (F.disk files.old) (F.disk files.new)
        (F.is_bounded files.old) (F.meter files.old) (F.meter files.new) fault) }
    ensures taken { NothingRefuses (F.is_bounded files.old) (F.meter files.old)
        → IfErr result (λ fault. IsUnopenable (settings_fault (settings_of config)) config.recovery_mode (directories_of (settings_of config)) (F.disk files.old) (F.disk files.new) fault) }
{
    let sound = sound_settings(config)?;
    recovered(way, files, alloc, sound)
}

impl<F: FileSystem + Drop> Engine<F> {
    /// Opens the engine as `open_alone` does, with each queue recovered in this way (own).
    pub(crate) fn open_by<
        W: Fn(
            &DualPipesBuilder,
            &mut F,
            &RecoveryConfig,
            &mut TracedReplay,
        ) -> Result<Vec<File>, Error>,
    >(way: &W, mut files: F, alloc: Global, config: Config) -> Result<Engine<F>, NotOpened<F>>
        requires { IsWay (W.pre way.now) (W.post way.now) F.disk F.meter F.is_bounded IsReplayedTraced }
        ensures sound { IfOk result IsSound }
        ensures answers { IfOk result (λ e. IsFoundContent config.recovery_mode (directories_of (settings_of config)) (F.disk files) (answers_on F.disk e)) }
        ensures fresh { (F.disk files).names ≡ [] → IfOk result (λ e. answers_on F.disk e ≡ nothing) }
        ensures directories { IfOk result (λ e. directories_of_engine e ≡ directories_of (settings_of config)) }
        ensures settings { IfOk result (λ e. AreSetAs (settings_of config) e.pipes) }
        ensures threshold { IfOk result (λ e. e.purge_threshold ≡ (settings_of config).purge_threshold.0) }
        ensures holes { IfOk result (λ e. HasHolesIn config.recovery_mode (F.disk e.files) e.pipes) }
        ensures alone { IfOk result (λ e. ((queue : LogQueue) → IsOnce (F.disk files).names (directories_of (settings_of config)) queue) → StandsAlone F.disk e) }
        ensures reserved { IfOk result (λ e. KeepsWanted (sanitized (settings_of config)) (directories_of (settings_of config)) (F.disk files)
            (F.disk e.files) (F.meter files) (F.meter e.files) e.pipes) }
        ensures written { IfOk result (λ e. HasWritten F.disk e (answers_on F.disk e) []) }
        ensures opens { IfOk result (λ e. StandsAlone F.disk e → OpensAs (directories_of_engine e) (F.disk e.files) (answers_on F.disk e)) }
        ensures opens_in_tail { IfOk result (λ e. StandsAlone F.disk e → OpensInTail (directories_of_engine e) (F.disk e.files) e.pipes) }
        ensures unread { IfOk result (λ e. e.block_reads ≡ 0) }
        ensures err { IfErr result (λ refused. IsLeftByOpening config.recovery_mode (directories_of (settings_of config)) (F.disk files) (F.disk refused.files)) }
        ensures reads { IfErr result (λ refused. IsFoundAgain config.recovery_mode (directories_of (settings_of config)) (F.disk files) (F.disk refused.files)) }
        ensures corrupt { IfErr result (λ refused. (f : CorruptionFault) → refused.fault ≡ Log (Corruption f)
            → (queue : LogQueue) × CantBeOpened config.recovery_mode (directories_of (settings_of config)) queue (F.disk files)) }
        ensures refused { (f : OtherFault) → settings_fault (settings_of config) ≡ Some f → IsErrAnd result (λ refused. (refused.fault ≡ Log (Other f)) × (refused.files ≡ files)) }
        ensures later { MatchResult result (λ e. RefusesNoMore (F.is_bounded files) (F.is_bounded e.files) (F.meter files) (F.meter e.files))
            (λ refused. RefusesNoMore (F.is_bounded files) (F.is_bounded refused.files) (F.meter files) (F.meter refused.files)) }
        ensures cause { IfErr result (λ refused. IsOpeningFault (settings_fault (settings_of config)) config.recovery_mode (directories_of (settings_of config)) (F.disk files)
            (F.disk refused.files) (F.is_bounded files) (F.meter files) (F.meter refused.files) refused.fault) }
        ensures taken { NothingRefuses (F.is_bounded files) (F.meter files)
            → IfErr result (λ refused. IsUnopenable (settings_fault (settings_of config)) config.recovery_mode (directories_of (settings_of config))
            (F.disk files) (F.disk refused.files) refused.fault) }
    {
        let manager = PurgeManager::new(
            alloc,
            config.purge_threshold.0,
            rewrite_threshold_of(&config),
            config.purge_rewrite_garbage_percent,
        );
        match found_soundly(way, &mut files, alloc, config) {
            Ok((pipes, traced)) => Ok(Engine {
                alloc,
                files,
                pipes,
                traced,
                is_stopped: false,
                wrote_unsynced: false,
                blocks: BlockCache::new(alloc),
                manager,
            }),
            Err(fault) => Err(NotOpened { fault, files }),
        }
    }

    /// Closes the engine, and hands the files back in any case (raft-engine's `close`). After `Ok` the
    /// last one of each queue is cut behind its last record and synced. A refusal is told. Behind one
    /// by the append queue the rewrite queue isn't closed: it is on the disk, and an opening finds the
    /// same. Where a write failed before it is `Stopped`, with no call on the files.
    pub fn close(mut self) -> Result<F, NotClosed<F>>
        ensures opens { IsSound self → StandsAlone F.disk self → OpensAs (directories_of_engine self) (F.disk (handed_back result)) (answers_on F.disk self) }
        ensures opens_all { StandsAlone F.disk self → IfOk result (λ files. OpensAs (directories_of_engine self) (F.disk files) (answers_on F.disk self)) }
        ensures opens_front { (before : Content (List ℕ)) (batches : List Batch) → StandsAlone F.disk self → HasWritten F.disk self before batches
            → OpensAsFront (directories_of_engine self) (F.disk (handed_back result)) before batches }
        ensures opens_in_tail { self.is_stopped ≡ false → StandsAlone F.disk self → OpensInTail (directories_of_engine self) (F.disk (handed_back result)) self.pipes }
        ensures later { RefusesNoMore (F.is_bounded self.files) (F.is_bounded (handed_back result)) (F.meter self.files) (F.meter (handed_back result)) }
        ensures cause { IfErr result (λ refused. IsSyncFault self (F.meter self.files) (F.meter refused.files) refused.fault) }
        ensures stopped { self.is_stopped ≡ true → IsErrAnd result (λ refused. (refused.fault ≡ Stopped) × (refused.files ≡ self.files)) }
    {
        if self.is_stopped {
            return Err(NotClosed {
                fault: EngineFault::Stopped,
                files: self.files,
            });
        }
        if let Err(error) = self.pipes.close(&mut self.files, LogQueue::Append) {
            return Err(NotClosed {
                fault: EngineFault::Log(error),
                files: self.files,
            });
        }
        if let Err(error) = self.pipes.close(&mut self.files, LogQueue::Rewrite) {
            return Err(NotClosed {
                fault: EngineFault::Log(error),
                files: self.files,
            });
        }
        Ok(self.files)
    }
}
