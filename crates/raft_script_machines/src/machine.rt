//! What a script needs of a machine.
ghost use Rattle.std.specs.Prelude.{◌≡◌, ◌++◌, IfOk, OnOk, string_bytes};
ghost use Rattle.raft_script_machines.specs.Speech.{Speech};

use raft_machines::{StateMachine, Told};
use raft_script_lines::{ScriptEvent, ScriptLine};
use raft_state::Bytes;
use std::alloc::{AllocError, Global};

/// A machine whose commands and answers a script has in words (own). Only want of memory refuses a
/// call.
pub trait ScriptMachine: StateMachine {
    /// What its scripts say of it.
    ghost speech: { Speech };

    /// Whether its scripts have such a line.
    fn takes_line(line: &ScriptLine) -> bool
        ensures { result ≡ speech.speaks line.now };

    /// The command that an event proposes; none where it proposes none of this machine's.
    fn command_of(alloc: Global, event: &ScriptEvent) -> Result<Option<Bytes>, AllocError>
        ensures { IfOk result (λ command. command ≡ speech.proposes event.now) };

    /// The text, and what is told behind it.
    fn push_told(text: &mut String, told: &Told) -> Result<(), AllocError>
        ensures { OnOk result (string_bytes text.new ≡ string_bytes text.old ++ speech.shows told.now) };

    /// The total so far; none where the machine adds nothing up.
    fn total_of(&self) -> Option<u64>
        ensures { result ≡ speech.totals (Self.state self.now) };
}
