//! An engine and a log whose files crash where they lie.
ghost use Rattle.std.specs.Prelude.{◌≡◌, ℕ, List, true, IfErr, OnOk, OnErr};
ghost use Rattle.raft_log_disk.specs.MemorySystem.{disk_in, meter_in};
ghost use Rattle.raft_log_disk.specs.Text.{Text};
ghost use Rattle.raft_log_engine.specs.Log.{AreCrashed, CantBeLeftSo, IsCrashedLog, IsFusedLog, IsSameLog, leaves_of_log, left_by};
ghost use Rattle.raft_log_engine.specs.Reopened.{OpensInTail};
ghost use Rattle.raft_log_memtables.specs.Content.{Content};
ghost use Rattle.raft_log_recovery.specs.Crashed.{IsCrashed};

use crate::engine::Engine;
use crate::memory::MemoryLog;
use raft_content_log::CrashLog;
use raft_log_files::{CrashChoice, CrashFiles, CrashRefusal};

impl<F: CrashFiles + Drop> Engine<F> {
    /// Leaves of the files what the choice says, as where a machine stops (own). The engine is stopped
    /// then, as after a write that failed. An opening that tolerates a torn tail refuses nothing then
    /// that it wouldn't have refused before. An `Err` says why the files can't be left so, and changes
    /// nothing.
    pub fn crash(&mut self, choice: &CrashChoice) -> Result<(), CrashRefusal>
        ensures crashed { OnOk result (IsCrashed (F.FileSystem.disk self.old.files) (left_by choice.now (F.FileSystem.disk self.old.files)) (F.FileSystem.disk self.new.files)) }
        ensures chosen { OnOk result (AreCrashed F.FileSystem.disk F.FileSystem.meter self.old.files choice.now self.new.files) }
        ensures stops { OnOk result (self.new ≡ record self.old { files = self.new.files; is_stopped = true }) }
        ensures why { IfErr result (λ why. CantBeLeftSo choice.now why (F.FileSystem.disk self.old.files)) }
        ensures err { OnErr result (self.new ≡ self.old) }
        ensures in_tail { OnOk result ((directories : List Text) → OpensInTail directories (F.FileSystem.disk self.old.files) self.old.pipes
            → OpensInTail directories (F.FileSystem.disk self.new.files) self.new.pipes) }
    {
        self.files.crash(choice)?;
        self.is_stopped = true;
        Ok(())
    }
}

impl MemoryLog {
    /// Leaves of the log's files what the choice says, as where a machine stops (own). The log takes no
    /// write any more: it is to be opened again. What an opening finds then was left by the log before.
    /// An `Err` says why the files can't be left so, and changes nothing.
    pub fn crash_files(&mut self, choice: &CrashChoice) -> Result<(), CrashRefusal>
        ensures crashed { OnOk result (IsCrashedLog disk_in meter_in self.old choice.now self.new) }
        ensures fails { OnOk result (self.new.has_failed ≡ true) }
        ensures leaves { OnOk result ((content : Content (List ℕ)) → leaves_of_log disk_in self.new content → leaves_of_log disk_in self.old content) }
        ensures why { IfErr result (λ why. CantBeLeftSo choice.now why (disk_in self.old.engine.files)) }
        ensures err { OnErr result (self.new ≡ self.old) }
    {
        self.engine.crash(choice)?;
        self.has_failed = true;
        Ok(())
    }

    /// Lets the log's files refuse each changing call from this one on, the first one counted as 1;
    /// with none they refuse no call any more (own). The log is as it was, but that its files are
    /// others that have the same.
    pub fn fuse_files(&mut self, first_refused: Option<u64>)
        ensures fused { IsFusedLog disk_in meter_in self.old first_refused self.new }
        ensures same { IsSameLog disk_in self.old self.new }
    {
        self.engine.set_fuse(first_refused);
    }
}

impl CrashLog for MemoryLog {
    type Choice = CrashChoice;

    type Refusal = CrashRefusal;

    ghost use Rattle.raft_log_disk.specs.MemorySystem.{disk_in, meter_in};
    ghost use Rattle.raft_log_engine.specs.Log.{CantBeLeftSo, IsCrashedLog, IsFusedLog};

    ghost crashed = { λ old choice new. IsCrashedLog disk_in meter_in old choice new };

    ghost refuses = { λ log choice why. CantBeLeftSo choice why (disk_in log.engine.files) };

    ghost fused = { λ old first new. IsFusedLog disk_in meter_in old first new };

    fn crash(&mut self, choice: &CrashChoice) -> Result<(), CrashRefusal> {
        self.crash_files(choice)
    }

    fn fuse(&mut self, first_refused: Option<u64>) {
        self.fuse_files(first_refused);
    }
}
