//! Files that nothing needs any more.
ghost use Rattle.std.specs.Prelude.{◌≡◌, ◌⊎◌, ◌+◌, [], true, false, Err, IfErr, IfOk, OnOk};
ghost use Rattle.raft_content_log.specs.Leaving.{LeavesNoMore};
ghost use Rattle.raft_log_cleaner.specs.Cleaning.{KeepsFromBarrier};
ghost use Rattle.raft_log_cleaning.specs.Extents.{HasNewRewrites};
ghost use Rattle.raft_log_cleaning.specs.declared.cleaning.Extent.TheVariants.{Stale};
ghost use Rattle.raft_log_disk.specs.Cause.{RefusesNoMore};
ghost use Rattle.raft_log_engine.specs.Barred.{IsBarred};
ghost use Rattle.raft_log_engine.specs.Caused.{IsCleaningCause};
ghost use Rattle.raft_log_engine.specs.Left.{IsSound, answers_on, leaves_on};
ghost use Rattle.raft_log_engine.specs.Reopened.{OpensAs, OpensInTail, StandsAlone, StandsInTail, directories_of_engine};
ghost use Rattle.raft_log_engine.specs.Since.{HasWritten};
ghost use Rattle.raft_log_engine.specs.declared.fault.EngineFault.TheVariants.{Marked, Stopped};
ghost use Rattle.raft_log_pipe.specs.Pipe.{first_of};
ghost use Rattle.raft_log_pipes.specs.Kept.{KeepSettings};
ghost use Rattle.raft_log_purge.specs.Going.{GoesToNeeded};
ghost use Rattle.raft_log_traces.specs.GroupTraces.{traces_in};

use crate::engine::Engine;
use crate::fault::EngineFault;
use raft_log_cleaning::Extent;
use raft_log_files::FileSystem;
use raft_log_records::FileSeq;

impl<F: FileSystem + Drop> Engine<F> {
    /// Lets all files of both queues go that nothing needs, whatever they hold (raft-engine's
    /// `must_purge_all_stale`, which deletes without writing). The rewrite queue is written anew, so none
    /// of its files of before is needed. Groups get their marks, a new append file is begun, and those go
    /// that no entry and no key needs, but none from the barrier on, the least file that somebody else
    /// keeps. Answers how many append files went. Entries and keys of the append queue aren't rewritten.
    /// Writes that weren't synced are synced before. It is refused as `clean_rewrite_queue` is.
    pub fn must_purge_all_stale(&mut self, barrier: Option<FileSeq>) -> Result<u64, EngineFault>
        ensures answers { OnOk result (answers_on F.disk self.new ≡ answers_on F.disk self.old) }
        ensures goes_on { self.new.is_stopped ≡ false → answers_on F.disk self.new ≡ answers_on F.disk self.old }
        ensures sound { OnOk result (IsSound self.new) }
        ensures left { OnOk result (LeavesNoMore (leaves_on F.disk self.old) (leaves_on F.disk self.new)) }
        ensures paths { self.new.pipes.append.paths ≡ self.old.pipes.append.paths }
        ensures set { KeepSettings self.old.pipes self.new.pipes }
        ensures alone { StandsAlone F.disk self.old → OnOk result (StandsAlone F.disk self.new) }
        ensures opens { StandsAlone F.disk self.old → OnOk result (OpensAs (directories_of_engine self.new) (F.disk self.new.files) (answers_on F.disk self.new)) }
        ensures opens_still { IsSound self.old → StandsAlone F.disk self.old → OpensAs (directories_of_engine self.new) (F.disk self.new.files) (answers_on F.disk self.old) }
        ensures opens_in_tail { self.old.is_stopped ≡ false → StandsAlone F.disk self.old → OpensInTail (directories_of_engine self.new) (F.disk self.new.files) self.new.pipes }
        ensures goes_on_in_tail { StandsAlone F.disk self.old → self.new.is_stopped ≡ false → StandsInTail F.disk self.new }
        ensures barrier { OnOk result (KeepsFromBarrier barrier self.old.pipes self.new.pipes) }
        ensures gone { OnOk result (GoesToNeeded (traces_in self.new.traces) barrier self.old.pipes.append self.new.pipes.append) }
        ensures replaced { OnOk result (HasNewRewrites self.old.pipes self.new.pipes) }
        ensures count { IfOk result (λ n. first_of self.old.pipes.append + n ≡ first_of self.new.pipes.append) }
        ensures all_written { OnOk result (HasWritten F.disk self.new (answers_on F.disk self.new) []) }
        ensures threshold { self.new.purge_threshold ≡ self.old.purge_threshold }
        ensures reads { self.new.block_reads ≡ self.old.block_reads }
        ensures stopped { self.old.is_stopped ≡ true → result ≡ Err Stopped }
        ensures marked { result ≡ Err Marked → self.new ≡ self.old }
        ensures barred { result ≡ Err Marked → IsBarred Stale self.old }
        ensures stops { IfErr result (λ fault. (fault ≡ Marked) ⊎ (self.new.is_stopped ≡ true)) }
        ensures later { RefusesNoMore (F.is_bounded self.old.files) (F.is_bounded self.new.files) (F.meter self.old.files) (F.meter self.new.files) }
        ensures cause { IfErr result (λ fault. IsCleaningCause (self.old.is_stopped ≡ true) (IsBarred Stale self.old) (F.meter self.old.files) (F.meter self.new.files) fault) }
    {
        match self.clean_by(Extent::Stale, barrier) {
            Ok(done) => Ok(done.went),
            Err(fault) => Err(fault),
        }
    }
}
