//! When calls are refused.

ghost use Rattle.std.specs.Prelude.{◌≡◌, ◌+◌, ◌-◌, ◌^◌, min, Some, IsTrue, if◌then◌else◌};
ghost use Rattle.raft_log_disk.specs.declared.fault.IoFault.TheVariants.{NotFound, NoSpace, Refused};
ghost use Rattle.raft_log_disk.specs.Cause.{spent};

use crate::IoFault;

/// Counts the changing calls that are still taken, and those that were refused.
#[derive(Drop)]
pub struct Fuse {
    /// How many changing calls are taken before each is refused, if there is an end.
    pub calls_left: Option<u64>,
    /// How many were refused or found no space; it stays at 2^64 - 1.
    pub refusals: u64,
    /// How many writes found no space; it stays at 2^64 - 1.
    pub lacks: u64,
    /// The paths whose reads are refused.
    pub unreadable: Vec<String>,
}

impl Fuse {
    /// Takes one changing call. Whether it is to be refused.
    pub fn spend(&mut self) -> bool
        ensures reads { self.new.unreadable ≡ self.old.unreadable }
        ensures refusals { self.new.refusals ≡ self.old.refusals }
        ensures lacks { self.new.lacks ≡ self.old.lacks }
        ensures left { self.new.calls_left ≡ spent self.old.calls_left }
        ensures blown { self.old.calls_left ≡ Some 0 → IsTrue result }
        ensures only { IsTrue result → self.old.calls_left ≡ Some 0 }
    {
        match self.calls_left {
            None => false,
            Some(0) => true,
            Some(left) => {
                self.calls_left = Some(left - 1);
                false
            }
        }
    }

    /// Counts a refusal, and answers it.
    pub fn refuse(&mut self) -> IoFault
        ensures refused { result ≡ Refused }
        ensures reads { self.new.unreadable ≡ self.old.unreadable }
        ensures left { self.new.calls_left ≡ self.old.calls_left }
        ensures lacks { self.new.lacks ≡ self.old.lacks }
        ensures counted { self.new.refusals ≡ min (self.old.refusals + 1) (2 ^ 64 - 1) }
    {
        self.refusals = self.refusals.saturating_add(1);
        IoFault::Refused
    }

    /// Counts a call that found no room for a file to grow, and answers that.
    pub fn lack_room(&mut self) -> IoFault
        ensures fault { result ≡ NoSpace }
        ensures reads { self.new.unreadable ≡ self.old.unreadable }
        ensures left { self.new.calls_left ≡ self.old.calls_left }
        ensures lacks { self.new.lacks ≡ self.old.lacks }
        ensures counted { self.new.refusals ≡ min (self.old.refusals + 1) (2 ^ 64 - 1) }
    {
        let _ = self.refuse();
        IoFault::NoSpace
    }

    /// The same of a write, which is counted as one without space too.
    pub fn lack_space(&mut self) -> IoFault
        ensures fault { result ≡ NoSpace }
        ensures reads { self.new.unreadable ≡ self.old.unreadable }
        ensures left { self.new.calls_left ≡ self.old.calls_left }
        ensures lacks { self.new.lacks ≡ min (self.old.lacks + 1) (2 ^ 64 - 1) }
        ensures counted { self.new.refusals ≡ min (self.old.refusals + 1) (2 ^ 64 - 1) }
    {
        self.lacks = self.lacks.saturating_add(1);
        self.lack_room()
    }

    /// The fault of a call on a file that isn't there: a refused call stays refused.
    pub fn missing(&mut self, is_refused: bool) -> IoFault
        ensures fault { result ≡ (if is_refused then Refused else NotFound) }
        ensures reads { self.new.unreadable ≡ self.old.unreadable }
        ensures left { self.new.calls_left ≡ self.old.calls_left }
        ensures lacks { self.new.lacks ≡ self.old.lacks }
        ensures counted { self.new.refusals ≡ (if is_refused then min (self.old.refusals + 1) (2 ^ 64 - 1) else self.old.refusals) }
    {
        if is_refused {
            self.refuse()
        } else {
            IoFault::NotFound
        }
    }
}
