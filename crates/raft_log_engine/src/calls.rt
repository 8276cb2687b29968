//! Writes and reads of an engine.
ghost use Rattle.std.specs.Prelude.{◌≡◌, ◌≤◌, ◌+◌, ◌++◌, ℕ, List, [], true, false, Err, IfErr, IfOk, OnOk, OnErr, length, option_map};
ghost use Rattle.raft_content_log.specs.Leaving.{AgreesElsewhere, IsWritten, LeavesElsewhere, LeavesNoMore, MayBeWritten};
ghost use Rattle.raft_log_disk.specs.Cause.{NothingRefuses, RefusesNoMore, Spends};
ghost use Rattle.raft_log_engine.specs.Barred.{KeepsFound};
ghost use Rattle.raft_log_engine.specs.Caused.{IsFetchFault, IsSyncFault, IsWriteFault};
ghost use Rattle.raft_log_engine.specs.Left.{IsSound, answers_on, leaves_on};
ghost use Rattle.raft_log_engine.specs.Reads.{HasRead, IsStopped, IsTableFault};
ghost use Rattle.raft_log_engine.specs.Reopened.{OpensAs, OpensAsEither, OpensAsFront, OpensInTail, StandsAlone, StandsInTail, directories_of_engine};
ghost use Rattle.raft_log_engine.specs.Since.{HasWritten, written_batch};
ghost use Rattle.raft_log_engine.specs.Taken.{IsSyncTaken, IsWriteTaken};
ghost use Rattle.raft_log_engine.specs.declared.fault.EngineFault.TheVariants.{Stopped};
ghost use Rattle.raft_log_file.specs.Laws.{Batch};
ghost use Rattle.raft_log_memtables.specs.Content.{Content, after_batch};
ghost use Rattle.raft_log_memtables.specs.MemTables.{content_in};
ghost use Rattle.raft_log_pipe.specs.Alone.{main_of};
ghost use Rattle.raft_log_pipes.specs.Kept.{KeepSettings};
ghost use Rattle.raft_log_records.specs.Batch.{nothing_logged, payloads};
ghost use Rattle.raft_log_records.specs.Spelling.{record_len};

use crate::blocks::{copies_of, fault_of};
use crate::engine::Engine;
use crate::fault::EngineFault;
use raft_log_files::FileSystem;
use raft_log_purge::PurgeHook;
use raft_log_records::{LogBatch, LogQueue};

impl<F: FileSystem + Drop> Engine<F> {
    /// Writes a batch (raft-engine's `write`), and syncs it where that is asked for. Before anything
    /// is written it is refused as `Marked` or `NotTaken`. An empty batch writes nothing; with a sync
    /// the append queue is synced all the same, and what was written before is on the disk then. After
    /// a refusal by the files, or where memory runs out behind the append, the engine is stopped. Of
    /// batches that weren't synced a crash leaves a front.
    /// Answers how many bytes the batch's record has, none for an empty batch.
    pub fn write(&mut self, batch: &mut LogBatch, sync: bool) -> Result<usize, EngineFault>
        ensures answers { OnOk result (answers_on F.disk self.new ≡ after_batch batch.old.items (answers_on F.disk self.old)) }
        ensures ok { IsSound self.old → OnOk result (sync ≡ true
            → IsWritten (answers_on F.disk self.new) (leaves_on F.disk self.new) (after_batch batch.old.items (answers_on F.disk self.old))) }
        ensures err { IsSound self.old → OnErr result (MayBeWritten (IsSound self.new) (answers_on F.disk self.new) (leaves_on F.disk self.new)
            (answers_on F.disk self.old) (after_batch batch.old.items (answers_on F.disk self.old))) }
        ensures sound { IsSound self.old → OnOk result (sync ≡ true → IsSound self.new) }
        ensures paths { self.new.pipes.append.paths ≡ self.old.pipes.append.paths }
        ensures set { KeepSettings self.old.pipes self.new.pipes }
        ensures threshold { self.new.purge_threshold ≡ self.old.purge_threshold }
        ensures alone { StandsAlone F.disk self.old → OnOk result (StandsAlone F.disk self.new) }
        ensures opens { StandsAlone F.disk self.old → OnOk result (sync ≡ true → OpensAs (directories_of_engine self.new) (F.disk self.new.files) (answers_on F.disk self.new)) }
        ensures opens_in_tail { self.old.is_stopped ≡ false → StandsAlone F.disk self.old → OpensInTail (directories_of_engine self.new) (F.disk self.new.files) self.new.pipes }
        ensures goes_on_in_tail { StandsAlone F.disk self.old → self.new.is_stopped ≡ false → StandsInTail F.disk self.new }
        ensures opens_either { IsSound self.old → StandsAlone F.disk self.old → OnErr result (OpensAsEither (directories_of_engine self.new) (F.disk self.new.files)
            (answers_on F.disk self.old) (after_batch batch.old.items (answers_on F.disk self.old))) }
        ensures written { (before : Content (List ℕ)) (batches : List Batch) → HasWritten F.disk self.old before batches
            → OnOk result (HasWritten F.disk self.new before (batches ++ written_batch batch.old.items)) }
        ensures opens_front { (before : Content (List ℕ)) (batches : List Batch) → StandsAlone F.disk self.old → HasWritten F.disk self.old before batches
            → OpensAsFront (directories_of_engine self.new) (F.disk self.new.files) before (batches ++ written_batch batch.old.items) }
        ensures all_written { OnOk result (sync ≡ true → HasWritten F.disk self.new (answers_on F.disk self.new) []) }
        ensures emptied { OnOk result (batch.new ≡ nothing_logged) }
        ensures marks { KeepsFound self.old self.new }
        ensures stopped { self.old.is_stopped ≡ true → result ≡ Err Stopped }
        ensures others { sync ≡ true → LeavesElsewhere batch.old.items (leaves_on F.disk self.old) (leaves_on F.disk self.new) }
        ensures others_answered { IsSound self.new → IsSound self.old × AgreesElsewhere batch.old.items (answers_on F.disk self.new) (answers_on F.disk self.old) }
        ensures empty { batch.old.items ≡ [] → IfOk result (λ len. len ≡ 0) }
        ensures len { (batch.old.items ≡ [] → ⊥) → IfOk result (λ len. len ≡ record_len batch.old.items) }
        ensures later { RefusesNoMore (F.is_bounded self.old.files) (F.is_bounded self.new.files) (F.meter self.old.files) (F.meter self.new.files) }
        ensures taken { NothingRefuses (F.is_bounded self.old.files) (F.meter self.old.files) → IsWriteTaken F.disk self.old batch.old.items result }
        ensures cause { IfErr result (λ fault. IsWriteFault F.disk self.old batch.old.items (F.meter self.old.files) (F.meter self.new.files) fault) }
        ensures spends { OnOk result (sync ≡ true → Spends (F.meter self.old.files) (F.meter self.new.files)) }
    {
        let mut none: [PurgeHook; 0] = [];
        self.write_with(batch, sync, &mut none)
    }

    /// Brings what was written onto the disk (raft-engine's `sync`): the append queue is synced, also
    /// where each write was. Nothing of the rewrite queue waits for a sync. After a refusal the
    /// engine is stopped, and what was on the disk stays.
    pub fn sync(&mut self) -> Result<(), EngineFault>
        ensures answers { OnOk result (answers_on F.disk self.new ≡ answers_on F.disk self.old) }
        ensures sound { IsSound self.old → OnOk result (IsSound self.new) }
        ensures kept { IsSound self.new → IsSound self.old × (answers_on F.disk self.new ≡ answers_on F.disk self.old) }
        ensures left { LeavesNoMore (leaves_on F.disk self.old) (leaves_on F.disk self.new) }
        ensures paths { self.new.pipes.append.paths ≡ self.old.pipes.append.paths }
        ensures set { KeepSettings self.old.pipes self.new.pipes }
        ensures threshold { self.new.purge_threshold ≡ self.old.purge_threshold }
        ensures alone { StandsAlone F.disk self.old → StandsAlone F.disk self.new }
        ensures opens { StandsAlone F.disk self.old → OnOk result (OpensAs (directories_of_engine self.new) (F.disk self.new.files) (answers_on F.disk self.new)) }
        ensures opens_still { IsSound self.old → StandsAlone F.disk self.old → OpensAs (directories_of_engine self.new) (F.disk self.new.files) (answers_on F.disk self.old) }
        ensures opens_in_tail { self.old.is_stopped ≡ false → StandsAlone F.disk self.old → OpensInTail (directories_of_engine self.new) (F.disk self.new.files) self.new.pipes }
        ensures goes_on_in_tail { StandsAlone F.disk self.old → self.new.is_stopped ≡ false → StandsInTail F.disk self.new }
        ensures written { (before : Content (List ℕ)) (batches : List Batch) → HasWritten F.disk self.old before batches → HasWritten F.disk self.new before batches }
        ensures opens_front { (before : Content (List ℕ)) (batches : List Batch) → StandsAlone F.disk self.old → HasWritten F.disk self.old before batches
            → OpensAsFront (directories_of_engine self.new) (F.disk self.new.files) before batches }
        ensures all_written { OnOk result (HasWritten F.disk self.new (answers_on F.disk self.new) []) }
        ensures tail_still { (before : Content (List ℕ)) (batches : List Batch) → StandsAlone F.disk self.old → HasWritten F.disk self.old before batches
            → OpensInTail (directories_of_engine self.new) (F.disk self.new.files) self.new.pipes }
        ensures flag { self.new.wrote_unsynced ≡ self.old.wrote_unsynced }
        ensures marks { KeepsFound self.old self.new }
        ensures stopped { self.old.is_stopped ≡ true → result ≡ Err Stopped }
        ensures later { RefusesNoMore (F.is_bounded self.old.files) (F.is_bounded self.new.files) (F.meter self.old.files) (F.meter self.new.files) }
        ensures taken { NothingRefuses (F.is_bounded self.old.files) (F.meter self.old.files) → IsSyncTaken self.old result }
        ensures cause { IfErr result (λ fault. IsSyncFault self.old (F.meter self.old.files) (F.meter self.new.files) fault) }
        ensures spends { OnOk result (Spends (F.meter self.old.files) (F.meter self.new.files)) }
    {
        if self.is_stopped {
            return Err(EngineFault::Stopped);
        }
        if let Err(error) = self.pipes.sync(&mut self.files, LogQueue::Append) {
            self.is_stopped = true;
            return Err(EngineFault::Log(error));
        }
        Ok(())
    }

    /// The main directory, which the engine was opened with (raft-engine's `path`).
    pub fn path(&self) -> &str
        ensures { result.now ≡ main_of (directories_of_engine self.now) }
    {
        self.pipes.path()
    }

    /// The value of a key of a group, if it is there.
    pub fn get(&self, group: u64, key: &[u8]) -> Result<Option<Vec<u8>>, EngineFault>
        ensures found { IfOk result (λ found. option_map (λ v. v.items) found ≡ (answers_on F.disk self.now group).value key.now) }
        ensures stopped { self.now.is_stopped ≡ true → result ≡ Err Stopped }
        ensures err { IfErr result (λ fault. IsTableFault self.now.is_stopped fault) }
    {
        if self.is_stopped {
            return Err(EngineFault::Stopped);
        }
        match self.traced.tables.get(group, key) {
            Some(value) => Ok(Some(Vec::from_slice(self.alloc, value)?)),
            None => Ok(None),
        }
    }

    /// A group's entries from an index on up to another one, which is left out (raft-engine's
    /// `fetch_entries_to`). With a size in bytes they end before the entry that would pass it, but
    /// one at least is given. Refused where the range begins before the first entry or ends past the
    /// last one. A group that isn't there has none.
    pub fn fetch_entries_to(
        &mut self,
        group: u64,
        begin: u64,
        end: u64,
        max_size: Option<u64>,
    ) -> Result<Vec<Vec<u8>>, EngineFault>
        ensures found { IfOk result (λ found. HasRead (answers_on F.disk self.old group) begin end max_size (payloads found.items)) }
        ensures stopped { self.old.is_stopped ≡ true → result ≡ Err Stopped }
        ensures same { self.new ≡ record self.old { block_reads = self.new.block_reads } }
        ensures reads { IfOk result (λ found. self.new.block_reads ≤ self.old.block_reads + length found.items) }
        ensures err { IfErr result (λ fault. IsFetchFault F.disk F.meter self.old (content_in self.old.tables group) begin end fault) }
    {
        if self.is_stopped {
            return Err(EngineFault::Stopped);
        }
        let places = match self
            .traced
            .tables
            .fetch_entries_to(group, begin, end, max_size)
        {
            Ok(places) => places,
            Err(error) => return Err(fault_of(error)),
        };
        copies_of(
            self.alloc,
            &self.files,
            &self.pipes,
            &mut self.blocks,
            &places,
        )
    }

    /// Whether the engine has something of a group (own).
    pub fn is_there(&self, group: u64) -> Result<bool, EngineFault>
        ensures there { IfOk result (λ there. there ≡ (answers_on F.disk self.now group).there) }
        ensures stopped { self.now.is_stopped ≡ true → result ≡ Err Stopped }
        ensures err { IfErr result (λ fault. IsStopped self.now.is_stopped fault) }
    {
        if self.is_stopped {
            return Err(EngineFault::Stopped);
        }
        Ok(self.traced.tables.has_group(group))
    }
}
