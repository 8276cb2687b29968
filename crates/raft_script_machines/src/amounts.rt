//! The adding machine in scripts.
ghost use Rattle.std.specs.Prelude.{◌≡◌, IfOk, Some};
ghost use Rattle.raft_machines.specs.Adding.{state_of_total, total_of};
ghost use Rattle.raft_script_machines.specs.Amounts.{amounts, total_in};

use crate::machine::ScriptMachine;
use raft_machines::{AddingMachine, Told};
use raft_script_answers::push_total;
use raft_script_lines::{ScriptEvent, ScriptLine};
use raft_state::Bytes;
use std::alloc::{AllocError, Global};

// The total that an answer of 8 bytes is, the greatest byte first.
fn total_in(answer: &[u8]) -> Option<u64>
    ensures { result ≡ total_in answer.now }
{
    match <[u8; 8]>::try_from(answer) {
        Ok(bytes) => Some(u64::from_be_bytes(bytes)),
        Err(_) => None,
    }
}

// The total that the state of a machine with this total is.
fn total_again(total: u64) -> Option<u64>
    ensures { result ≡ Some (total_of (state_of_total total)) }
{
    Some(total)
}

impl ScriptMachine for AddingMachine {
    ghost speech = { amounts };

    fn takes_line(line: &ScriptLine) -> bool {
        !matches!(line, ScriptLine::Kv { .. })
    }

    fn command_of(alloc: Global, event: &ScriptEvent) -> Result<Option<Bytes>, AllocError> {
        match event {
            ScriptEvent::Propose { amount, .. } => {
                Ok(Some(Bytes::from_slice(alloc, &amount.to_be_bytes())?))
            }
            _ => Ok(None),
        }
    }

    fn push_told(text: &mut String, told: &Told) -> Result<(), AllocError> {
        let total = total_in(told.answer.as_slice());
        push_total(text, told.token, told.place, total)
    }

    fn total_of(&self) -> Option<u64> {
        total_again(self.total())
    }
}
