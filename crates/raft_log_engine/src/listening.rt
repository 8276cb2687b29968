//! Listeners, who keep files and hear of them.
ghost use Rattle.std.specs.List.Sorted.{IsStrictlySortedBy};
ghost use Rattle.std.specs.Ordering.{nat_cmp};
ghost use Rattle.std.specs.Prelude.{◌≡◌, ◌⊎◌, ◌+◌, ℕ, [], true, false, Err, IfErr, IfOk, IsOkAnd, OnErr, OnOk};
ghost use Rattle.raft_content_log.specs.Leaving.{LeavesNoMore};
ghost use Rattle.raft_log_cleaner.specs.Pipes.{KeepsRewrites};
ghost use Rattle.raft_log_cleaner.specs.Told.{is_among, queue_of};
ghost use Rattle.raft_log_cleaning.specs.declared.cleaning.Extent.TheVariants.{All};
ghost use Rattle.raft_log_disk.specs.Cause.{RefusesNoMore};
ghost use Rattle.raft_log_engine.specs.Barred.{IsBarred};
ghost use Rattle.raft_log_engine.specs.Caused.{IsCleaningCause};
ghost use Rattle.raft_log_engine.specs.Hearing.{heard_changes, heard_cleaning, span_of};
ghost use Rattle.raft_log_engine.specs.Left.{IsSound, answers_on, leaves_on};
ghost use Rattle.raft_log_engine.specs.Listening.{GoesToKept};
ghost use Rattle.raft_log_engine.specs.Reopened.{OpensAs, OpensInTail, StandsAlone, StandsInTail, directories_of_engine};
ghost use Rattle.raft_log_engine.specs.Since.{HasWritten};
ghost use Rattle.raft_log_engine.specs.declared.fault.EngineFault.TheVariants.{Marked, Stopped};
ghost use Rattle.raft_log_memtables.specs.MemTables.{content_in};
ghost use Rattle.raft_log_pipe.specs.Pipe.{first_of};
ghost use Rattle.raft_log_pipes.specs.Kept.{KeepSettings};
ghost use Rattle.raft_log_purge.specs.Due.{IsLarge};
ghost use Rattle.raft_log_purge.specs.Heard.{HearAll, last_gone};
ghost use Rattle.raft_log_purge.specs.Listeners.{AllKeepFrom};
ghost use Rattle.raft_log_records.specs.declared.file_id.LogQueue.TheVariants.{Append, Rewrite};

use crate::engine::Engine;
use crate::fault::EngineFault;
use crate::hearing::tell_begun;
use raft_log_files::FileSystem;
use raft_log_pipes::DualPipes;
use raft_log_purge::{EventListener, least_kept, tell_gone};
use raft_log_records::{FileId, FileSeq, LogQueue};

/// Tells listeners of the last file of a queue that went, if one did: these were the first ones that
/// were there before, and behind.
fn tell_last<L: EventListener>(
    listeners: &mut [L],
    queue: LogQueue,
    before: FileSeq,
    behind: FileSeq,
)
    ensures told { HearAll L.hears (last_gone queue before behind) listeners.old listeners.new }
{
    if before < behind {
        tell_gone(listeners, FileId::new(queue, behind - 1));
    }
}

/// Tells listeners of the files that a cleaning began, and of the last ones that went, where the queues
/// had these first and last files before.
fn tell_changes<L: EventListener>(
    listeners: &mut [L],
    pipes: &DualPipes,
    appends: (FileSeq, FileSeq),
    rewrites: (FileSeq, FileSeq),
)
    ensures told { HearAll L.hears (heard_changes appends rewrites (span_of pipes.now.append) (span_of pipes.now.rewrite)) listeners.old listeners.new }
{
    let (first_append, last_append) = pipes.file_span(LogQueue::Append);
    let (first_rewrite, last_rewrite) = pipes.file_span(LogQueue::Rewrite);
    tell_begun(listeners, LogQueue::Append, appends.1, last_append);
    tell_begun(listeners, LogQueue::Rewrite, rewrites.1, last_rewrite);
    tell_last(listeners, LogQueue::Rewrite, rewrites.0, first_rewrite);
    tell_last(listeners, LogQueue::Append, appends.0, first_append);
}

impl<F: FileSystem + Drop> Engine<F> {
    /// Cleans both queues where they are due, as `purge_expired_files` says, with listeners
    /// (raft-engine's, which are set at the opening). No append file goes from the least one on that one
    /// of them keeps. A rewrite queue of which one keeps a file isn't written anew, and keeps its files.
    /// Each is told of the new files, and of the last file of each queue that went.
    pub fn purge_expired_files_with<L: EventListener>(
        &mut self,
        listeners: &mut [L],
    ) -> Result<Vec<u64>, EngineFault>
        ensures rising { IfOk result (λ groups. IsStrictlySortedBy nat_cmp groups.items) }
        ensures there { IfOk result (λ groups. (group : ℕ) → is_among groups.items group ≡ true → (content_in self.old.tables group).there ≡ true) }
        ensures answers { OnOk result (answers_on F.disk self.new ≡ answers_on F.disk self.old) }
        ensures sound { IsSound self.old → OnOk result (IsSound self.new) }
        ensures paths { self.new.pipes.append.paths ≡ self.old.pipes.append.paths }
        ensures set { KeepSettings self.old.pipes self.new.pipes }
        ensures alone { StandsAlone F.disk self.old → OnOk result (StandsAlone F.disk self.new) }
        ensures opens_still { IsSound self.old → StandsAlone F.disk self.old → OpensAs (directories_of_engine self.new) (F.disk self.new.files) (answers_on F.disk self.old) }
        ensures opens_in_tail { self.old.is_stopped ≡ false → StandsAlone F.disk self.old → OpensInTail (directories_of_engine self.new) (F.disk self.new.files) self.new.pipes }
        ensures kept { OnOk result ((first_of self.new.pipes.append ≡ first_of self.old.pipes.append)
            ⊎ AllKeepFrom L.kept Append (first_of self.new.pipes.append) listeners.old) }
        ensures held { OnOk result (KeepsRewrites self.old.pipes self.new.pipes
            ⊎ AllKeepFrom L.kept Rewrite (first_of self.new.pipes.rewrite) listeners.old) }
        ensures few { self.old.is_stopped ≡ false → self.old.pipes.append.older.items ≡ [] → self.old.pipes.rewrite.older.items ≡ []
            → IsOkAnd result (λ groups. groups.items ≡ []) × (self.new ≡ self.old) }
        ensures expired { self.old.has_marked ≡ false → IsLarge (queue_of self.old.pipes.append) self.old.purge_threshold
            → OnOk result (GoesToKept L.kept listeners.old self.old self.new) }
        ensures threshold { self.new.purge_threshold ≡ self.old.purge_threshold }
        ensures reads { self.new.block_reads ≡ self.old.block_reads }
        ensures stopped { self.old.is_stopped ≡ true → result ≡ Err Stopped }
        ensures stops { OnErr result (self.new.is_stopped ≡ true) }
        ensures later { RefusesNoMore (F.is_bounded self.old.files) (F.is_bounded self.new.files) (F.meter self.old.files) (F.meter self.new.files) }
        ensures heard { OnOk result (HearAll L.hears (heard_cleaning self.old.pipes self.new.pipes) listeners.old listeners.new) }
        ensures unheard { OnErr result (listeners.new ≡ listeners.old) }
        ensures cause { IfErr result (λ fault. IsCleaningCause (self.old.is_stopped ≡ true) ⊥ (F.meter self.old.files) (F.meter self.new.files) fault) }
    {
        let barrier = least_kept(listeners, LogQueue::Append);
        let is_held = least_kept(listeners, LogQueue::Rewrite).is_some();
        let appends = self.pipes.file_span(LogQueue::Append);
        let rewrites = self.pipes.file_span(LogQueue::Rewrite);
        match self.purge_due(barrier, is_held) {
            Ok(groups) => {
                tell_changes(listeners, &self.pipes, appends, rewrites);
                Ok(groups)
            }
            Err(fault) => Err(fault),
        }
    }

    /// Cleans the append queue, as `clean_append_queue` says, with listeners. No file goes from the least
    /// one on that one of them keeps. Each is told of the new files, and of the last one that went.
    pub fn clean_append_queue_with<L: EventListener>(
        &mut self,
        listeners: &mut [L],
    ) -> Result<u64, EngineFault>
        ensures answers { OnOk result (answers_on F.disk self.new ≡ answers_on F.disk self.old) }
        ensures goes_on { self.new.is_stopped ≡ false → answers_on F.disk self.new ≡ answers_on F.disk self.old }
        ensures sound { OnOk result (IsSound self.new) }
        ensures left { OnOk result (LeavesNoMore (leaves_on F.disk self.old) (leaves_on F.disk self.new)) }
        ensures paths { self.new.pipes.append.paths ≡ self.old.pipes.append.paths }
        ensures set { KeepSettings self.old.pipes self.new.pipes }
        ensures alone { StandsAlone F.disk self.old → OnOk result (StandsAlone F.disk self.new) }
        ensures opens { StandsAlone F.disk self.old → OnOk result (OpensAs (directories_of_engine self.new) (F.disk self.new.files) (answers_on F.disk self.new)) }
        ensures opens_still { IsSound self.old → StandsAlone F.disk self.old → OpensAs (directories_of_engine self.new) (F.disk self.new.files) (answers_on F.disk self.old) }
        ensures opens_in_tail { self.old.is_stopped ≡ false → StandsAlone F.disk self.old → OpensInTail (directories_of_engine self.new) (F.disk self.new.files) self.new.pipes }
        ensures goes_on_in_tail { StandsAlone F.disk self.old → self.new.is_stopped ≡ false → StandsInTail F.disk self.new }
        ensures kept { OnOk result ((first_of self.new.pipes.append ≡ first_of self.old.pipes.append)
            ⊎ AllKeepFrom L.kept Append (first_of self.new.pipes.append) listeners.old) }
        ensures held { OnOk result (KeepsRewrites self.old.pipes self.new.pipes) }
        ensures gone { OnOk result (GoesToKept L.kept listeners.old self.old self.new) }
        ensures count { IfOk result (λ n. first_of self.old.pipes.append + n ≡ first_of self.new.pipes.append) }
        ensures all_written { OnOk result (HasWritten F.disk self.new (answers_on F.disk self.new) []) }
        ensures threshold { self.new.purge_threshold ≡ self.old.purge_threshold }
        ensures reads { self.new.block_reads ≡ self.old.block_reads }
        ensures stopped { self.old.is_stopped ≡ true → result ≡ Err Stopped }
        ensures marked { result ≡ Err Marked → self.new ≡ self.old }
        ensures barred { result ≡ Err Marked → IsBarred All self.old }
        ensures stops { IfErr result (λ fault. (fault ≡ Marked) ⊎ (self.new.is_stopped ≡ true)) }
        ensures later { RefusesNoMore (F.is_bounded self.old.files) (F.is_bounded self.new.files) (F.meter self.old.files) (F.meter self.new.files) }
        ensures heard { OnOk result (HearAll L.hears (heard_cleaning self.old.pipes self.new.pipes) listeners.old listeners.new) }
        ensures unheard { OnErr result (listeners.new ≡ listeners.old) }
        ensures cause { IfErr result (λ fault. IsCleaningCause (self.old.is_stopped ≡ true) (IsBarred All self.old) (F.meter self.old.files) (F.meter self.new.files) fault) }
    {
        let barrier = least_kept(listeners, LogQueue::Append);
        let appends = self.pipes.file_span(LogQueue::Append);
        let rewrites = self.pipes.file_span(LogQueue::Rewrite);
        match self.clean_append_queue(barrier) {
            Ok(went) => {
                tell_changes(listeners, &self.pipes, appends, rewrites);
                Ok(went)
            }
            Err(fault) => Err(fault),
        }
    }
}
