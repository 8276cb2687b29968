//! How the program ends.
ghost use Rattle.std.specs.Prelude.{◌≡◌};
ghost use Rattle.raft_node_files.specs.End.{status_of};

use raft_node_script::ScriptEnd;

/// How the program ended (own). docs/SCRIPT.md has its statuses.
#[derive(Clone, Copy, Debug, PartialEq, Eq)]
pub enum End {
    /// The input ended.
    Done,
    /// The script took no line that this program had taken for one.
    NoEvent,
    /// Memory was refused.
    Memory,
    /// The input can't be read, or didn't end within 2^40 reads.
    Input,
    /// The arguments are none of this program's.
    Arguments,
    /// The settings can't be read, or are refused.
    Settings,
    /// The node wasn't opened.
    Opening,
    /// An answer can't be written.
    Output,
}

impl End {
    /// The exit status of the program.
    pub fn status(&self) -> u8
        ensures { result ≡ status_of self.now }
    {
        match self {
            End::Done => 0,
            End::NoEvent => 1,
            End::Memory => 2,
            End::Input => 3,
            End::Arguments => 4,
            End::Settings => 5,
            End::Opening => 6,
            End::Output => 7,
        }
    }
}

/// How the program ends where its script ended so, and neither the reader nor the writer knows more
/// (own).
pub fn end_of_script(end: ScriptEnd) -> End {
    match end {
        ScriptEnd::Done => End::Done,
        ScriptEnd::NoEvent(_) => End::NoEvent,
        ScriptEnd::Memory => End::Memory,
        ScriptEnd::Fault => End::Input,
    }
}
