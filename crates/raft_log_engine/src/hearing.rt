//! Listeners, who hear of writes and of files.
ghost use Rattle.std.specs.Prelude.{◌≡◌, ◌⊎◌, ◌++◌, ◌∷◌, ℕ, List, [], true, false, Err, IfErr, IfOk, OnOk, OnErr};
ghost use Rattle.raft_content_log.specs.Leaving.{AgreesElsewhere, IsWritten, LeavesElsewhere, MayBeWritten};
ghost use Rattle.raft_log_disk.specs.Cause.{NothingRefuses, RefusesNoMore, Spends};
ghost use Rattle.raft_log_engine.specs.Barred.{KeepsFound};
ghost use Rattle.raft_log_engine.specs.Caused.{IsWriteFault};
ghost use Rattle.raft_log_engine.specs.Hearing.{HearAppend, heard_files};
ghost use Rattle.raft_log_engine.specs.Left.{IsSound, answers_on, leaves_on};
ghost use Rattle.raft_log_engine.specs.Reopened.{OpensAs, OpensAsEither, OpensAsFront, OpensInTail, StandsAlone, StandsInTail, directories_of_engine};
ghost use Rattle.raft_log_engine.specs.Since.{HasWritten, written_batch};
ghost use Rattle.raft_log_engine.specs.Taken.{IsWriteTaken};
ghost use Rattle.raft_log_engine.specs.declared.fault.EngineFault.TheVariants.{Log, Stopped};
ghost use Rattle.raft_log_file.specs.Laws.{Batch};
ghost use Rattle.raft_log_files.specs.declared.error.Error.TheVariants.{Memory};
ghost use Rattle.raft_log_memtables.specs.Content.{Content, after_batch};
ghost use Rattle.raft_log_pipes.specs.Kept.{KeepSettings};
ghost use Rattle.raft_log_purge.specs.Heard.{HearAll, files_behind, files_within};
ghost use Rattle.raft_log_purge.specs.Heard.Heard.{Appended, Applied};
ghost use Rattle.raft_log_records.specs.Batch.{nothing_logged};
ghost use Rattle.raft_log_records.specs.Spelling.{record_len};

use crate::appending::append_batch;
use crate::engine::Engine;
use crate::fault::EngineFault;
use crate::writing::{apply, prepare};
use raft_log_files::FileSystem;
use raft_log_purge::{EventListener, tell_new_file};
use raft_log_records::{FileBlockHandle, FileId, FileSeq, LogBatch, LogQueue};

/// Whether a write wasn't synced, with one more write.
fn skips_sync(before: bool, sync: bool) -> bool
    ensures synced { sync ≡ true → result ≡ before }
    ensures none { result ≡ false → (sync ≡ true) × (before ≡ false) }
{
    before || !sync
}

/// Tells listeners of the new files of a queue, in order: those behind the last one of before, up to
/// the last one.
pub(crate) fn tell_begun<L: EventListener>(
    listeners: &mut [L],
    queue: LogQueue,
    before: FileSeq,
    last: FileSeq,
)
    ensures told { HearAll L.hears (files_behind queue before last) listeners.old listeners.new }
{
    for seq in before..last {
        tell_new_file(listeners, FileId::new(queue, seq + 1));
    }
}

/// Tells listeners of each file of a queue, in order.
fn tell_each<L: EventListener>(listeners: &mut [L], queue: LogQueue, first: FileSeq, last: FileSeq)
    ensures told { HearAll L.hears (files_within queue first last) listeners.old listeners.new }
{
    tell_new_file(listeners, FileId::new(queue, first));
    tell_begun(listeners, queue, first, last);
}

/// Tells listeners of a batch that was appended as a record at this place, and before it of the files
/// that were begun for it, behind the last one of before.
fn tell_appended<L: EventListener>(listeners: &mut [L], last: FileSeq, written: FileBlockHandle)
    ensures told { HearAll L.hears (files_behind written.id.queue last written.id.seq ++ Appended written ∷ []) listeners.old listeners.new }
{
    tell_begun(listeners, written.id.queue, last, written.id.seq);
    for listener in listeners.iter_mut() {
        listener.on_append_log_file(written);
    }
}

/// Tells listeners that a batch which was appended to this file is in the memtables.
fn tell_applied<L: EventListener>(listeners: &mut [L], id: FileId)
    ensures told { HearAll L.hears (Applied id ∷ []) listeners.old listeners.new }
{
    for listener in listeners.iter_mut() {
        listener.post_apply_memtables(id);
    }
}

impl<F: FileSystem + Drop> Engine<F> {
    /// Writes a batch, as `write` says, with listeners (raft-engine's, which are set at the opening).
    /// Each is told of a new file, if one was begun for the batch, then that it was appended, and where,
    /// and once it is in the memtables of that. Of an empty batch none is told, nor of a refused append.
    pub fn write_with<L: EventListener>(
        &mut self,
        batch: &mut LogBatch,
        sync: bool,
        listeners: &mut [L],
    ) -> Result<usize, EngineFault>
        ensures answers { OnOk result (answers_on F.disk self.new ≡ after_batch batch.old.items (answers_on F.disk self.old)) }
        ensures ok { IsSound self.old → OnOk result (sync ≡ true
            → IsWritten (answers_on F.disk self.new) (leaves_on F.disk self.new) (after_batch batch.old.items (answers_on F.disk self.old))) }
        ensures err { IsSound self.old → OnErr result (MayBeWritten (IsSound self.new) (answers_on F.disk self.new) (leaves_on F.disk self.new)
            (answers_on F.disk self.old) (after_batch batch.old.items (answers_on F.disk self.old))) }
        ensures sound { IsSound self.old → OnOk result (sync ≡ true → IsSound self.new) }
        ensures paths { self.new.pipes.append.paths ≡ self.old.pipes.append.paths }
        ensures set { KeepSettings self.old.pipes self.new.pipes }
        ensures threshold { self.new.purge_threshold ≡ self.old.purge_threshold }
        ensures alone { StandsAlone F.disk self.old → OnOk result (StandsAlone F.disk self.new) }
        ensures opens { StandsAlone F.disk self.old → OnOk result (sync ≡ true → OpensAs (directories_of_engine self.new) (F.disk self.new.files) (answers_on F.disk self.new)) }
        ensures opens_in_tail { self.old.is_stopped ≡ false → StandsAlone F.disk self.old → OpensInTail (directories_of_engine self.new) (F.disk self.new.files) self.new.pipes }
        ensures goes_on_in_tail { StandsAlone F.disk self.old → self.new.is_stopped ≡ false → StandsInTail F.disk self.new }
        ensures opens_either { IsSound self.old → StandsAlone F.disk self.old → OnErr result (OpensAsEither (directories_of_engine self.new) (F.disk self.new.files)
            (answers_on F.disk self.old) (after_batch batch.old.items (answers_on F.disk self.old))) }
        ensures written { (before : Content (List ℕ)) (batches : List Batch) → HasWritten F.disk self.old before batches
            → OnOk result (HasWritten F.disk self.new before (batches ++ written_batch batch.old.items)) }
        ensures opens_front { (before : Content (List ℕ)) (batches : List Batch) → StandsAlone F.disk self.old → HasWritten F.disk self.old before batches
            → OpensAsFront (directories_of_engine self.new) (F.disk self.new.files) before (batches ++ written_batch batch.old.items) }
        ensures all_written { OnOk result (sync ≡ true → HasWritten F.disk self.new (answers_on F.disk self.new) []) }
        ensures emptied { OnOk result (batch.new ≡ nothing_logged) }
        ensures marks { KeepsFound self.old self.new }
        ensures stopped { self.old.is_stopped ≡ true → result ≡ Err Stopped }
        ensures others { sync ≡ true → LeavesElsewhere batch.old.items (leaves_on F.disk self.old) (leaves_on F.disk self.new) }
        ensures others_answered { IsSound self.new → IsSound self.old × AgreesElsewhere batch.old.items (answers_on F.disk self.new) (answers_on F.disk self.old) }
        ensures empty { batch.old.items ≡ [] → IfOk result (λ len. len ≡ 0) }
        ensures len { (batch.old.items ≡ [] → ⊥) → IfOk result (λ len. len ≡ record_len batch.old.items) }
        ensures later { RefusesNoMore (F.is_bounded self.old.files) (F.is_bounded self.new.files) (F.meter self.old.files) (F.meter self.new.files) }
        ensures taken { NothingRefuses (F.is_bounded self.old.files) (F.meter self.old.files) → IsWriteTaken F.disk self.old batch.old.items result }
        ensures cause { IfErr result (λ fault. IsWriteFault F.disk self.old batch.old.items (F.meter self.old.files) (F.meter self.new.files) fault) }
        ensures spends { OnOk result (sync ≡ true → Spends (F.meter self.old.files) (F.meter self.new.files)) }
        ensures heard { (batch.old.items ≡ [] → ⊥) → OnOk result (HearAppend L.hears F.disk batch.old.items (λ id. Applied id ∷ []) self.old self.new listeners.old listeners.new) }
        ensures unheard { batch.old.items ≡ [] → listeners.new ≡ listeners.old }
        ensures err_heard { IfErr result (λ fault. (listeners.new ≡ listeners.old)
            ⊎ ((fault ≡ Log Memory) × HearAppend L.hears F.disk batch.old.items (λ id. []) self.old self.new listeners.old listeners.new)) }
    {
        if self.is_stopped {
            return Err(EngineFault::Stopped);
        }
        if batch.is_empty() {
            let _ = batch.drain();
            if sync {
                self.sync()?;
                return Ok(0);
            }
            return Ok(0);
        }
        let len = prepare(&self.traced.tables, batch)?;
        let block = batch.entries_block();
        let (_, last) = self.pipes.file_span(LogQueue::Append);
        let written = match append_batch(&mut self.files, &mut self.pipes, batch, sync) {
            Ok(written) => written,
            Err(error) => {
                self.is_stopped = true;
                return Err(EngineFault::Log(error));
            }
        };
        tell_appended(listeners, last, written);
        let items = batch.drain();
        if let Err(fault) = apply(&mut self.traced, items, block, written) {
            self.is_stopped = true;
            return Err(fault);
        }
        tell_applied(listeners, written.id);
        self.wrote_unsynced = skips_sync(self.wrote_unsynced, sync);
        Ok(len)
    }

    /// Tells listeners of each file of the engine, as of one that was opened (raft-engine's
    /// `post_new_log_file` for each file of an opened pipe): those of the append queue, in order, and then
    /// those of the rewrite queue.
    pub fn tell_files<L: EventListener>(&self, listeners: &mut [L])
        ensures told { HearAll L.hears (heard_files self.now.pipes) listeners.old listeners.new }
    {
        let (first, last) = self.pipes.file_span(LogQueue::Append);
        tell_each(listeners, LogQueue::Append, first, last);
        let (first, last) = self.pipes.file_span(LogQueue::Rewrite);
        tell_each(listeners, LogQueue::Rewrite, first, last);
    }
}
