//! Cleaning of the log.
ghost use Rattle.std.specs.List.Sorted.{IsStrictlySortedBy};
ghost use Rattle.std.specs.Ordering.{nat_cmp};
ghost use Rattle.std.specs.Prelude.{◌≡◌, ◌⊎◌, ◌+◌, ℕ, List, [], ◌++◌, true, false, Err, IfErr, IfOk, IsOk, IsOkAnd, OnOk, OnErr};
ghost use Rattle.raft_content_log.specs.Leaving.{LeavesNoMore};
ghost use Rattle.raft_log_cleaner.specs.Cleaning.{KeepsFromBarrier};
ghost use Rattle.raft_log_cleaner.specs.Pipes.{KeepsRewrites};
ghost use Rattle.raft_log_cleaner.specs.Told.{is_among, queue_of};
ghost use Rattle.raft_log_cleaning.specs.Extents.{HasNewRewrites, HasOnlyNew, writes_anew};
ghost use Rattle.raft_log_cleaning.specs.declared.cleaning.Extent.TheVariants.{All, Expired, Rewrites, Stale};
ghost use Rattle.raft_log_cleaning.specs.declared.due.Due.{Due};
ghost use Rattle.raft_log_disk.specs.Cause.{RefusesNoMore};
ghost use Rattle.raft_log_engine.specs.Barred.{IsBarred};
ghost use Rattle.raft_log_engine.specs.Caused.{IsCleaningCause};
ghost use Rattle.raft_log_engine.specs.Left.{IsSound, answers_on, leaves_on};
ghost use Rattle.raft_log_engine.specs.Reopened.{OpensAs, OpensInTail, StandsAlone, StandsInTail, directories_of_engine};
ghost use Rattle.raft_log_engine.specs.Since.{HasWritten};
ghost use Rattle.raft_log_engine.specs.Still.{IsStill};
ghost use Rattle.raft_log_engine.specs.declared.fault.EngineFault.TheVariants.{Marked, Stopped};
ghost use Rattle.raft_log_memtables.specs.MemTables.{content_in};
ghost use Rattle.raft_log_pipe.specs.Caused.{IsRefusalOrMemory};
ghost use Rattle.raft_log_pipe.specs.Pipe.{Holds, IsPipe, Numbered, first_of};
ghost use Rattle.raft_log_pipes.specs.Kept.{KeepSettings};
ghost use Rattle.raft_log_purge.specs.Due.{IsLarge};
ghost use Rattle.raft_log_purge.specs.Going.{GoesToNeeded};
ghost use Rattle.raft_log_traces.specs.GroupTraces.{traces_in};

use crate::engine::Engine;
use crate::fault::EngineFault;
use crate::memory::MemoryLog;
use raft_content_log::CleanLog;
use raft_log_cleaning::{Cleaned, Due, Extent, clean, due_of, may_clean};
use raft_log_files::{Error, FileSystem};
use raft_log_pipes::DualPipes;
use raft_log_records::{FileSeq, LogQueue};

/// Brings the append queue onto the disk, where a write wasn't synced.
fn sync_unsynced<F: FileSystem>(
    files: &mut F,
    pipes: &mut DualPipes,
    wrote_unsynced: bool,
) -> Result<(), Error>
    requires { IsPipe pipes.old.append (F.disk files.old) }
    ensures still { IsStill (F.disk files.old) pipes.old (F.disk files.new) pipes.new }
    ensures synced { wrote_unsynced ≡ true → OnOk result ((synced unsynced : Numbered) → Holds pipes.old.append (F.disk files.old) synced unsynced
        → Holds pipes.new.append (F.disk files.new) (synced ++ unsynced) []) }
    ensures err { OnErr result ((synced unsynced : Numbered) → Holds pipes.old.append (F.disk files.old) synced unsynced → Holds pipes.new.append (F.disk files.new) synced unsynced) }
    ensures needed { wrote_unsynced ≡ false → IsOk result }
    ensures set { KeepSettings pipes.old pipes.new }
    ensures later { RefusesNoMore (F.is_bounded files.old) (F.is_bounded files.new) (F.meter files.old) (F.meter files.new) }
    ensures cause { IfErr result (λ e. IsRefusalOrMemory (F.meter files.old) (F.meter files.new) e) }
{
    if !wrote_unsynced {
        return Ok(());
    }
    pipes.sync(files, LogQueue::Append)
}

impl<F: FileSystem + Drop> Engine<F> {
    /// Cleans as much of the log as is asked for, as `clean_append_queue` says (own).
    pub(crate) fn clean_by(
        &mut self,
        extent: Extent,
        barrier: Option<FileSeq>,
    ) -> Result<Cleaned, EngineFault>
        ensures answers { OnOk result (answers_on F.disk self.new ≡ answers_on F.disk self.old) }
        ensures goes_on { self.new.is_stopped ≡ false → answers_on F.disk self.new ≡ answers_on F.disk self.old }
        ensures sound { OnOk result (IsSound self.new) }
        ensures left { OnOk result (LeavesNoMore (leaves_on F.disk self.old) (leaves_on F.disk self.new)) }
        ensures paths { self.new.pipes.append.paths ≡ self.old.pipes.append.paths }
        ensures set { KeepSettings self.old.pipes self.new.pipes }
        ensures alone { StandsAlone F.disk self.old → OnOk result (StandsAlone F.disk self.new) }
        ensures opens { StandsAlone F.disk self.old → OnOk result (OpensAs (directories_of_engine self.new) (F.disk self.new.files) (answers_on F.disk self.new)) }
        ensures opens_still { IsSound self.old → StandsAlone F.disk self.old → OpensAs (directories_of_engine self.new) (F.disk self.new.files) (answers_on F.disk self.old) }
        ensures opens_in_tail { self.old.is_stopped ≡ false → StandsAlone F.disk self.old → OpensInTail (directories_of_engine self.new) (F.disk self.new.files) self.new.pipes }
        ensures goes_on_in_tail { StandsAlone F.disk self.old → self.new.is_stopped ≡ false → StandsInTail F.disk self.new }
        ensures barrier { OnOk result (KeepsFromBarrier barrier self.old.pipes self.new.pipes) }
        ensures gone { extent ≡ All → OnOk result (GoesToNeeded (traces_in self.new.traces) barrier self.old.pipes.append self.new.pipes.append) }
        ensures stale { extent ≡ Stale → OnOk result (GoesToNeeded (traces_in self.new.traces) barrier self.old.pipes.append self.new.pipes.append) }
        ensures expired { (due : Due) → extent ≡ Expired due → IsLarge (queue_of self.old.pipes.append) self.old.purge_threshold
            → OnOk result (GoesToNeeded (traces_in self.new.traces) barrier self.old.pipes.append self.new.pipes.append) }
        ensures count { extent ≡ All → IfOk result (λ done. first_of self.old.pipes.append + done.went ≡ first_of self.new.pipes.append) }
        ensures stale_count { extent ≡ Stale → IfOk result (λ done. first_of self.old.pipes.append + done.went ≡ first_of self.new.pipes.append) }
        ensures held { writes_anew extent ≡ false → OnOk result (KeepsRewrites self.old.pipes self.new.pipes) }
        ensures replaced { writes_anew extent ≡ true → OnOk result (HasNewRewrites self.old.pipes self.new.pipes) }
        ensures anew { extent ≡ Rewrites → OnOk result (HasOnlyNew self.old.pipes self.new.pipes) }
        ensures rising { IfOk result (λ done. IsStrictlySortedBy nat_cmp done.told.items) }
        ensures there { IfOk result (λ done. (group : ℕ) → is_among done.told.items group ≡ true → (content_in self.old.tables group).there ≡ true) }
        ensures all_written { OnOk result (HasWritten F.disk self.new (answers_on F.disk self.new) []) }
        ensures threshold { self.new.purge_threshold ≡ self.old.purge_threshold }
        ensures reads { self.new.block_reads ≡ self.old.block_reads }
        ensures stopped { self.old.is_stopped ≡ true → result ≡ Err Stopped }
        ensures marked { result ≡ Err Marked → self.new ≡ self.old }
        ensures barred { result ≡ Err Marked → IsBarred extent self.old }
        ensures stops { IfErr result (λ fault. (fault ≡ Marked) ⊎ (self.new.is_stopped ≡ true)) }
        ensures later { RefusesNoMore (F.is_bounded self.old.files) (F.is_bounded self.new.files) (F.meter self.old.files) (F.meter self.new.files) }
        ensures cause { IfErr result (λ fault. IsCleaningCause (self.old.is_stopped ≡ true) (IsBarred extent self.old) (F.meter self.old.files) (F.meter self.new.files) fault) }
    {
        if self.is_stopped {
            return Err(EngineFault::Stopped);
        }
        if !may_clean(extent, &self.traced) {
            return Err(EngineFault::Marked);
        }
        if let Err(error) = sync_unsynced(&mut self.files, &mut self.pipes, self.wrote_unsynced) {
            self.is_stopped = true;
            return Err(EngineFault::Log(error));
        }
        match clean(
            self.alloc,
            &mut self.manager,
            &mut self.files,
            &mut self.pipes,
            &mut self.traced,
            extent,
            barrier,
        ) {
            Ok(done) => {
                self.blocks.clear();
                self.wrote_unsynced = false;
                Ok(done)
            }
            Err(error) => {
                self.is_stopped = true;
                Err(EngineFault::Log(error))
            }
        }
    }

    /// Cleans the append queue (own, of what raft-engine's `purge_expired_files` does): what counts in
    /// its files is written anew to the rewrite queue, and all those go that are needed no more, but none
    /// from the barrier on, the least file that somebody else keeps. Answers how many went. Writes that
    /// weren't synced are synced before. The content stays, whatever is refused. `Marked`, with nothing
    /// done: an opening found a batch of the append queue that belongs to an atomic group. After any
    /// other refusal the engine is stopped. No block of entries is kept in memory behind a cleaning.
    pub fn clean_append_queue(&mut self, barrier: Option<FileSeq>) -> Result<u64, EngineFault>
        ensures answers { OnOk result (answers_on F.disk self.new ≡ answers_on F.disk self.old) }
        ensures goes_on { self.new.is_stopped ≡ false → answers_on F.disk self.new ≡ answers_on F.disk self.old }
        ensures sound { OnOk result (IsSound self.new) }
        ensures left { OnOk result (LeavesNoMore (leaves_on F.disk self.old) (leaves_on F.disk self.new)) }
        ensures paths { self.new.pipes.append.paths ≡ self.old.pipes.append.paths }
        ensures set { KeepSettings self.old.pipes self.new.pipes }
        ensures alone { StandsAlone F.disk self.old → OnOk result (StandsAlone F.disk self.new) }
        ensures opens { StandsAlone F.disk self.old → OnOk result (OpensAs (directories_of_engine self.new) (F.disk self.new.files) (answers_on F.disk self.new)) }
        ensures opens_still { IsSound self.old → StandsAlone F.disk self.old → OpensAs (directories_of_engine self.new) (F.disk self.new.files) (answers_on F.disk self.old) }
        ensures opens_in_tail { self.old.is_stopped ≡ false → StandsAlone F.disk self.old → OpensInTail (directories_of_engine self.new) (F.disk self.new.files) self.new.pipes }
        ensures goes_on_in_tail { StandsAlone F.disk self.old → self.new.is_stopped ≡ false → StandsInTail F.disk self.new }
        ensures barrier { OnOk result (KeepsFromBarrier barrier self.old.pipes self.new.pipes) }
        ensures gone { OnOk result (GoesToNeeded (traces_in self.new.traces) barrier self.old.pipes.append self.new.pipes.append) }
        ensures count { IfOk result (λ n. first_of self.old.pipes.append + n ≡ first_of self.new.pipes.append) }
        ensures held { OnOk result (KeepsRewrites self.old.pipes self.new.pipes) }
        ensures all_written { OnOk result (HasWritten F.disk self.new (answers_on F.disk self.new) []) }
        ensures threshold { self.new.purge_threshold ≡ self.old.purge_threshold }
        ensures reads { self.new.block_reads ≡ self.old.block_reads }
        ensures stopped { self.old.is_stopped ≡ true → result ≡ Err Stopped }
        ensures marked { result ≡ Err Marked → self.new ≡ self.old }
        ensures barred { result ≡ Err Marked → IsBarred All self.old }
        ensures stops { IfErr result (λ fault. (fault ≡ Marked) ⊎ (self.new.is_stopped ≡ true)) }
        ensures later { RefusesNoMore (F.is_bounded self.old.files) (F.is_bounded self.new.files) (F.meter self.old.files) (F.meter self.new.files) }
        ensures cause { IfErr result (λ fault. IsCleaningCause (self.old.is_stopped ≡ true) (IsBarred All self.old) (F.meter self.old.files) (F.meter self.new.files) fault) }
    {
        match self.clean_by(Extent::All, barrier) {
            Ok(done) => Ok(done.went),
            Err(fault) => Err(fault),
        }
    }

    /// Writes the rewrite queue anew, whatever it is (own, over raft-engine's
    /// `must_rewrite_rewrite_queue`): behind its old records goes what each group has there, and then
    /// the old files go. Writes that weren't synced are synced before, and the append queue keeps its
    /// files. The content stays, whatever is refused. `Marked`, with nothing done: an opening found a
    /// batch of the append queue that belongs to an atomic group, or records of one in the rewrite queue
    /// that stand apart. `EntryNotFound`: a group's list has a hole, or reaches the greatest index. After
    /// any refusal but `Marked` the engine is stopped. No block of entries is kept in memory behind it.
    pub fn clean_rewrite_queue(&mut self) -> Result<(), EngineFault>
        ensures answers { OnOk result (answers_on F.disk self.new ≡ answers_on F.disk self.old) }
        ensures goes_on { self.new.is_stopped ≡ false → answers_on F.disk self.new ≡ answers_on F.disk self.old }
        ensures sound { OnOk result (IsSound self.new) }
        ensures left { OnOk result (LeavesNoMore (leaves_on F.disk self.old) (leaves_on F.disk self.new)) }
        ensures paths { self.new.pipes.append.paths ≡ self.old.pipes.append.paths }
        ensures set { KeepSettings self.old.pipes self.new.pipes }
        ensures alone { StandsAlone F.disk self.old → OnOk result (StandsAlone F.disk self.new) }
        ensures opens { StandsAlone F.disk self.old → OnOk result (OpensAs (directories_of_engine self.new) (F.disk self.new.files) (answers_on F.disk self.new)) }
        ensures opens_still { IsSound self.old → StandsAlone F.disk self.old → OpensAs (directories_of_engine self.new) (F.disk self.new.files) (answers_on F.disk self.old) }
        ensures opens_in_tail { self.old.is_stopped ≡ false → StandsAlone F.disk self.old → OpensInTail (directories_of_engine self.new) (F.disk self.new.files) self.new.pipes }
        ensures goes_on_in_tail { StandsAlone F.disk self.old → self.new.is_stopped ≡ false → StandsInTail F.disk self.new }
        ensures anew { OnOk result (HasOnlyNew self.old.pipes self.new.pipes) }
        ensures all_written { OnOk result (HasWritten F.disk self.new (answers_on F.disk self.new) []) }
        ensures threshold { self.new.purge_threshold ≡ self.old.purge_threshold }
        ensures reads { self.new.block_reads ≡ self.old.block_reads }
        ensures stopped { self.old.is_stopped ≡ true → result ≡ Err Stopped }
        ensures marked { result ≡ Err Marked → self.new ≡ self.old }
        ensures barred { result ≡ Err Marked → IsBarred Rewrites self.old }
        ensures stops { IfErr result (λ fault. (fault ≡ Marked) ⊎ (self.new.is_stopped ≡ true)) }
        ensures later { RefusesNoMore (F.is_bounded self.old.files) (F.is_bounded self.new.files) (F.meter self.old.files) (F.meter self.new.files) }
        ensures cause { IfErr result (λ fault. IsCleaningCause (self.old.is_stopped ≡ true) (IsBarred Rewrites self.old) (F.meter self.old.files) (F.meter self.new.files) fault) }
    {
        match self.clean_by(Extent::Rewrites, None) {
            Ok(_done) => Ok(()),
            Err(fault) => Err(fault),
        }
    }
}

/// What is due, without a rewrite queue that is held.
fn free_of(due: Due, is_held: bool) -> Due
    ensures rewrites { result.rewrites ≡ true → (due.rewrites ≡ true) × (is_held ≡ false) }
    ensures held { is_held ≡ true → result.rewrites ≡ false }
    ensures free { is_held ≡ false → result ≡ due }
    ensures appends { result.appends ≡ due.appends }
{
    Due {
        rewrites: due.rewrites && !is_held,
        appends: due.appends,
    }
}

impl<F: FileSystem + Drop> Engine<F> {
    /// Cleans both queues where they are due, as `purge_expired_files` says. A rewrite queue that is
    /// held isn't.
    pub(crate) fn purge_due(
        &mut self,
        barrier: Option<FileSeq>,
        is_held: bool,
    ) -> Result<Vec<u64>, EngineFault>
        ensures rising { IfOk result (λ groups. IsStrictlySortedBy nat_cmp groups.items) }
        ensures there { IfOk result (λ groups. (group : ℕ) → is_among groups.items group ≡ true → (content_in self.old.tables group).there ≡ true) }
        ensures answers { OnOk result (answers_on F.disk self.new ≡ answers_on F.disk self.old) }
        ensures sound { IsSound self.old → OnOk result (IsSound self.new) }
        ensures paths { self.new.pipes.append.paths ≡ self.old.pipes.append.paths }
        ensures set { KeepSettings self.old.pipes self.new.pipes }
        ensures alone { StandsAlone F.disk self.old → OnOk result (StandsAlone F.disk self.new) }
        ensures opens_still { IsSound self.old → StandsAlone F.disk self.old → OpensAs (directories_of_engine self.new) (F.disk self.new.files) (answers_on F.disk self.old) }
        ensures opens_in_tail { self.old.is_stopped ≡ false → StandsAlone F.disk self.old → OpensInTail (directories_of_engine self.new) (F.disk self.new.files) self.new.pipes }
        ensures barrier { OnOk result (KeepsFromBarrier barrier self.old.pipes self.new.pipes) }
        ensures held { is_held ≡ true → OnOk result (KeepsRewrites self.old.pipes self.new.pipes) }
        ensures few { self.old.is_stopped ≡ false → self.old.pipes.append.older.items ≡ [] → self.old.pipes.rewrite.older.items ≡ []
            → IsOkAnd result (λ groups. groups.items ≡ []) × (self.new ≡ self.old) }
        ensures expired { self.old.has_marked ≡ false → IsLarge (queue_of self.old.pipes.append) self.old.purge_threshold
            → OnOk result (GoesToNeeded (traces_in self.new.traces) barrier self.old.pipes.append self.new.pipes.append) }
        ensures threshold { self.new.purge_threshold ≡ self.old.purge_threshold }
        ensures reads { self.new.block_reads ≡ self.old.block_reads }
        ensures stopped { self.old.is_stopped ≡ true → result ≡ Err Stopped }
        ensures stops { OnErr result (self.new.is_stopped ≡ true) }
        ensures later { RefusesNoMore (F.is_bounded self.old.files) (F.is_bounded self.new.files) (F.meter self.old.files) (F.meter self.new.files) }
        ensures cause { IfErr result (λ fault. IsCleaningCause (self.old.is_stopped ≡ true) ⊥ (F.meter self.old.files) (F.meter self.new.files) fault) }
    {
        if self.is_stopped {
            return Err(EngineFault::Stopped);
        }
        let none = Vec::new(self.alloc);
        let Ok(due) = due_of(&self.manager, &self.pipes, &self.traced) else {
            self.is_stopped = true;
            return Err(EngineFault::Log(Error::Memory));
        };
        let Some(due) = due else {
            return Ok(none);
        };
        let free = free_of(due, is_held);
        match self.clean_by(Extent::Expired(free), barrier) {
            Ok(done) => Ok(done.told),
            Err(EngineFault::Marked) => Ok(none),
            Err(fault) => Err(fault),
        }
    }

    /// Cleans both queues where they are due (raft-engine's `purge_expired_files`), and answers the groups
    /// that whoever writes them is told to compact, rising, each once.
    ///
    /// The rewrite queue comes first. It is written anew where it has more than one file, these may have
    /// more bytes than `purge_rewrite_threshold` of the settings, and more than
    /// `purge_rewrite_garbage_percent` of the entries and keys that were written to it, since it was last
    /// written anew, or of these with its marks, count no more. Groups with more than 32 entries in it
    /// are told. Where an opening found records of an atomic group in it that stand apart it is left
    /// alone.
    ///
    /// The append queue is cleaned where its files may have more bytes than `purge_threshold`. Groups are
    /// told that hold old files back: with something in the oldest files, or entries in the rewrite queue,
    /// and with 32 entries or more in old files. Told nine times in a row a group is left alone, and the
    /// next time it is rewritten. No file goes from the barrier on, the least file that somebody else
    /// keeps.
    ///
    /// Where neither is due nothing is done, nor where an opening found a batch of the append queue that
    /// belongs to an atomic group. The content stays, whatever is refused. After a refusal the engine is
    /// stopped.
    pub fn purge_expired_files(&mut self, barrier: Option<FileSeq>) -> Result<Vec<u64>, EngineFault>
        ensures rising { IfOk result (λ groups. IsStrictlySortedBy nat_cmp groups.items) }
        ensures there { IfOk result (λ groups. (group : ℕ) → is_among groups.items group ≡ true → (content_in self.old.tables group).there ≡ true) }
        ensures answers { OnOk result (answers_on F.disk self.new ≡ answers_on F.disk self.old) }
        ensures sound { IsSound self.old → OnOk result (IsSound self.new) }
        ensures paths { self.new.pipes.append.paths ≡ self.old.pipes.append.paths }
        ensures set { KeepSettings self.old.pipes self.new.pipes }
        ensures alone { StandsAlone F.disk self.old → OnOk result (StandsAlone F.disk self.new) }
        ensures opens_still { IsSound self.old → StandsAlone F.disk self.old → OpensAs (directories_of_engine self.new) (F.disk self.new.files) (answers_on F.disk self.old) }
        ensures opens_in_tail { self.old.is_stopped ≡ false → StandsAlone F.disk self.old → OpensInTail (directories_of_engine self.new) (F.disk self.new.files) self.new.pipes }
        ensures barrier { OnOk result (KeepsFromBarrier barrier self.old.pipes self.new.pipes) }
        ensures few { self.old.is_stopped ≡ false → self.old.pipes.append.older.items ≡ [] → self.old.pipes.rewrite.older.items ≡ []
            → IsOkAnd result (λ groups. groups.items ≡ []) × (self.new ≡ self.old) }
        ensures expired { self.old.has_marked ≡ false → IsLarge (queue_of self.old.pipes.append) self.old.purge_threshold
            → OnOk result (GoesToNeeded (traces_in self.new.traces) barrier self.old.pipes.append self.new.pipes.append) }
        ensures threshold { self.new.purge_threshold ≡ self.old.purge_threshold }
        ensures reads { self.new.block_reads ≡ self.old.block_reads }
        ensures stopped { self.old.is_stopped ≡ true → result ≡ Err Stopped }
        ensures stops { OnErr result (self.new.is_stopped ≡ true) }
        ensures later { RefusesNoMore (F.is_bounded self.old.files) (F.is_bounded self.new.files) (F.meter self.old.files) (F.meter self.new.files) }
        ensures cause { IfErr result (λ fault. IsCleaningCause (self.old.is_stopped ≡ true) ⊥ (F.meter self.old.files) (F.meter self.new.files) fault) }
    {
        self.purge_due(barrier, false)
    }
}

impl CleanLog for MemoryLog {
    /// Cleans the engine's files, as `Engine::purge_expired_files` says. A log that has failed is
    /// `Stopped`, with no call.
    fn clean(&mut self) -> Result<Vec<u64>, EngineFault> {
        if self.has_failed {
            return Err(EngineFault::Stopped);
        }
        match self.engine.purge_expired_files(None) {
            Ok(groups) => Ok(groups),
            Err(fault) => {
                self.has_failed = true;
                Err(fault)
            }
        }
    }
}
