//! How a script ends.
ghost use Rattle.std.specs.Prelude.{◌≡◌};
ghost use Rattle.raft_script_session.specs.End.{status_of};

/// How a script ended (own).
#[derive(Clone, Copy, Debug, PartialEq, Eq)]
pub enum ScriptEnd {
    /// Each line was run.
    Done,
    /// The line with this number, counted from 1, is no event. The lines before it were run.
    NoEvent(u64),
    /// Memory was refused, to the script or to its cluster. The answers of the lines before the
    /// one that met it are written.
    Memory,
    /// The reader or the writer failed, or the input didn't end within 2^40 reads.
    Fault,
}

impl ScriptEnd {
    /// The exit status of a program that ends so.
    pub fn status(&self) -> u8
        ensures { result ≡ status_of self.now }
    {
        match self {
            ScriptEnd::Done => 0,
            ScriptEnd::NoEvent(_) => 1,
            ScriptEnd::Memory => 2,
            ScriptEnd::Fault => 3,
        }
    }
}

/// Why a script stops before its end (own).
#[derive(Clone, Copy, PartialEq, Eq)]
pub enum Stop {
    /// The line with this number is no event.
    NoEvent(u64),
    /// Memory was refused.
    Memory,
    /// The reader or the writer failed.
    Fault,
}
