//! Files in memory behind a gate.

use crate::gate::Gate;
use crate::late::LateRead;
use raft_log_disk::{Fd, MemoryFileSystem};
use std::alloc::Global;

/// Files in memory whose first write, once the gate is shut, waits there for that of others. Reads of
/// one of them may wait for another one. What the calls do is what they do without a gate.
#[derive(Drop)]
pub struct GateFiles {
    pub(crate) files: MemoryFileSystem,
    gate: Gate,
    met: Option<bool>,
    late: Option<LateRead>,
}

impl GateFiles {
    ghost use Rattle.std.specs.Prelude.{◌≡◌, ◌-◌, ◌^◌, List, ℕ, None, IsSome};
    ghost use Rattle.raft_log_disk.specs.Cause.{NothingRefuses};
    ghost use Rattle.raft_log_disk.specs.MemorySystem.{empty_disk, full_meter};
    ghost use Rattle.raft_gate_files.specs.Files.{disk_in, is_bounded_in, met_in, meter_in, room_in};

    /// No directories and no files, behind this gate, where they didn't come yet. No call is refused.
    pub fn new(alloc: Global, gate: Gate) -> GateFiles
        ensures disk { disk_in result ≡ empty_disk }
        ensures meter { meter_in result ≡ full_meter }
        ensures room { (directory : List ℕ) → room_in result directory ≡ 2 ^ 64 - 1 }
        ensures free { NothingRefuses (is_bounded_in result) (meter_in result) }
        ensures met { met_in result ≡ None }
    {
        GateFiles {
            files: MemoryFileSystem::new(alloc),
            gate,
            met: None,
            late: None,
        }
    }

    /// Whether their first write, once the gate was shut, met that of other files; none before it.
    pub fn met(&self) -> Option<bool>
        ensures { result ≡ met_in self.now }
    {
        self.met
    }

    /// From now on reads of a file wait so.
    pub fn read_late(&mut self, late: LateRead)
        ensures files { self.new.files ≡ self.old.files }
        ensures met { met_in self.new ≡ met_in self.old }
    {
        self.late = Some(late);
    }

    /// Whether a read that was to wait gave up.
    pub fn gave_up(&self) -> bool {
        match &self.late {
            Some(late) => late.gave_up(),
            None => false,
        }
    }

    /// A file is to be read.
    pub(crate) fn wait(&self, fd: Fd) {
        if let Some(late) = &self.late {
            late.wait(fd);
        }
    }

    /// A file was read.
    pub(crate) fn note(&self, fd: Fd) {
        if let Some(late) = &self.late {
            late.note(fd);
        }
    }

    /// They come to the gate, where it is shut and they didn't come before.
    pub(crate) fn come(&mut self)
        ensures files { self.new.files ≡ self.old.files }
        ensures once { IsSome (met_in self.old) → met_in self.new ≡ met_in self.old }
    {
        if self.met.is_none() && self.gate.is_shut() {
            self.met = Some(self.gate.meets());
        }
    }
}
