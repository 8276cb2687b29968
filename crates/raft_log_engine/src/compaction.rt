//! Compaction of a group.
ghost use Rattle.std.specs.Prelude.{◌≡◌, ◌∷◌, ◌++◌, ℕ, List, [], true, false, Err, IfOk, IfErr, OnOk, OnErr};
ghost use Rattle.raft_content_log.specs.Leaving.{AgreesElsewhere, IsWritten, LeavesElsewhere, MayBeWritten};
ghost use Rattle.raft_log_disk.specs.Cause.{NothingRefuses, RefusesNoMore};
ghost use Rattle.raft_log_engine.specs.Barred.{KeepsFound};
ghost use Rattle.raft_log_engine.specs.Caused.{IsCompactionFault};
ghost use Rattle.raft_log_engine.specs.Left.{IsSound, answers_on, leaves_on};
ghost use Rattle.raft_log_engine.specs.Reads.{compaction};
ghost use Rattle.raft_log_engine.specs.Reopened.{OpensAs, OpensAsEither, OpensAsFront, OpensInTail, StandsAlone, StandsInTail, directories_of_engine};
ghost use Rattle.raft_log_engine.specs.Since.{HasWritten};
ghost use Rattle.raft_log_engine.specs.Taken.{IsCompactionTaken};
ghost use Rattle.raft_log_engine.specs.declared.fault.EngineFault.TheVariants.{Log, Stopped};
ghost use Rattle.raft_log_file.specs.Laws.{Batch};
ghost use Rattle.raft_log_files.specs.declared.error.Error.TheVariants.{Memory};
ghost use Rattle.raft_log_memtables.specs.Content.{Content, after_batch};
ghost use Rattle.raft_log_memtables.specs.Fetch.{count_before};
ghost use Rattle.raft_log_pipes.specs.Kept.{KeepSettings};

use crate::blocks::of_record;
use crate::engine::Engine;
use crate::fault::EngineFault;
use raft_log_files::FileSystem;
use raft_log_records::{Command, LogBatch};
use std::alloc::Global;

/// A batch that compacts a group.
fn compaction_of(alloc: Global, group: u64, index: u64) -> Result<LogBatch, EngineFault>
    ensures items { IfOk result (λ batch. batch.items ≡ compaction group index ∷ []) }
    ensures err { IfErr result (λ e. e ≡ Log Memory) }
{
    let mut batch = LogBatch::new(alloc);
    match batch.add_command(group, Command::Compact { index }) {
        Ok(()) => Ok(batch),
        Err(error) => Err(of_record(error)),
    }
}

impl<F: FileSystem + Drop> Engine<F> {
    /// Removes a group's entries before an index, by a batch that is written and synced, and answers
    /// how many they were (raft-engine's `compact_to`, which takes them for as many as the indexes
    /// between, and passes over a group without entries: here it is there from then on).
    pub fn compact_to(&mut self, group: u64, index: u64) -> Result<u64, EngineFault>
        ensures count { IfOk result (λ count. count ≡ count_before (answers_on F.disk self.old group).entry index) }
        ensures ok { IsSound self.old → OnOk result (IsWritten (answers_on F.disk self.new) (leaves_on F.disk self.new) (after_batch (compaction group index ∷ []) (answers_on F.disk self.old))) }
        ensures err { IsSound self.old → OnErr result (MayBeWritten (IsSound self.new) (answers_on F.disk self.new) (leaves_on F.disk self.new)
            (answers_on F.disk self.old) (after_batch (compaction group index ∷ []) (answers_on F.disk self.old))) }
        ensures sound { IsSound self.old → OnOk result (IsSound self.new) }
        ensures paths { self.new.pipes.append.paths ≡ self.old.pipes.append.paths }
        ensures set { KeepSettings self.old.pipes self.new.pipes }
        ensures threshold { self.new.purge_threshold ≡ self.old.purge_threshold }
        ensures alone { StandsAlone F.disk self.old → OnOk result (StandsAlone F.disk self.new) }
        ensures opens { StandsAlone F.disk self.old → OnOk result (OpensAs (directories_of_engine self.new) (F.disk self.new.files) (answers_on F.disk self.new)) }
        ensures opens_in_tail { self.old.is_stopped ≡ false → StandsAlone F.disk self.old → OpensInTail (directories_of_engine self.new) (F.disk self.new.files) self.new.pipes }
        ensures goes_on_in_tail { StandsAlone F.disk self.old → self.new.is_stopped ≡ false → StandsInTail F.disk self.new }
        ensures opens_either { IsSound self.old → StandsAlone F.disk self.old → OnErr result (OpensAsEither (directories_of_engine self.new) (F.disk self.new.files)
            (answers_on F.disk self.old) (after_batch (compaction group index ∷ []) (answers_on F.disk self.old))) }
        ensures written { (before : Content (List ℕ)) (batches : List Batch) → HasWritten F.disk self.old before batches
            → OnOk result (HasWritten F.disk self.new before (batches ++ (compaction group index ∷ []) ∷ [])) }
        ensures opens_front { (before : Content (List ℕ)) (batches : List Batch) → StandsAlone F.disk self.old → HasWritten F.disk self.old before batches
            → OpensAsFront (directories_of_engine self.new) (F.disk self.new.files) before (batches ++ (compaction group index ∷ []) ∷ []) }
        ensures all_written { OnOk result (HasWritten F.disk self.new (answers_on F.disk self.new) []) }
        ensures marks { KeepsFound self.old self.new }
        ensures stopped { self.old.is_stopped ≡ true → result ≡ Err Stopped }
        ensures others { LeavesElsewhere (compaction group index ∷ []) (leaves_on F.disk self.old) (leaves_on F.disk self.new) }
        ensures others_answered { IsSound self.new → IsSound self.old × AgreesElsewhere (compaction group index ∷ []) (answers_on F.disk self.new) (answers_on F.disk self.old) }
        ensures later { RefusesNoMore (F.is_bounded self.old.files) (F.is_bounded self.new.files) (F.meter self.old.files) (F.meter self.new.files) }
        ensures taken { NothingRefuses (F.is_bounded self.old.files) (F.meter self.old.files) → IsCompactionTaken F.disk self.old group index result }
        ensures cause { IfErr result (λ fault. IsCompactionFault F.disk self.old (F.meter self.old.files) (F.meter self.new.files) fault) }
    {
        if self.is_stopped {
            return Err(EngineFault::Stopped);
        }
        let mut batch = compaction_of(self.alloc, group, index)?;
        let count = self.traced.tables.count_before(group, index);
        self.write(&mut batch, true)?;
        Ok(count)
    }
}
