//! The key-value machine in scripts.
ghost use Rattle.std.specs.Prelude.{◌≡◌, ◌++◌, IfOk, OnOk, string_bytes};
ghost use Rattle.raft_wire.specs.declared.kv.KvCommand.TheVariants.{Put, Get, Drop};
ghost use Rattle.raft_script_answers.specs.Answer.{value_text};
ghost use Rattle.raft_script_machines.specs.Keys.{keys, spelled, text_of, value_in};

use crate::machine::ScriptMachine;
use raft_kv::{KvCommand, KvMachine, write_kv};
use raft_machines::Told;
use raft_script_answers::{push_full, push_value};
use raft_script_lines::{ScriptEvent, ScriptLine};
use raft_state::Bytes;
use raft_wire::FrameError;
use std::alloc::{AllocError, Global};
use std::str;

// The bytes of a command within its limits.
fn spelled(alloc: Global, command: &KvCommand) -> Result<Option<Bytes>, AllocError>
    ensures { IfOk result (λ bytes. bytes ≡ spelled command.now) }
{
    match write_kv(alloc, command) {
        Ok(bytes) => Ok(Some(Bytes::from_slice(alloc, bytes.as_slice())?)),
        Err(FrameError::Memory) => Err(AllocError),
        Err(FrameError::Fault(_) | FrameError::StreamFailed) => Ok(None),
    }
}

fn put(alloc: Global, key: &Bytes, value: &Bytes) -> Result<Option<Bytes>, AllocError>
    ensures { IfOk result (λ bytes. bytes ≡ spelled (Put key.now value.now)) }
{
    let key = Bytes::from_slice(alloc, key.as_slice())?;
    let value = Bytes::from_slice(alloc, value.as_slice())?;
    spelled(alloc, &KvCommand::Put { key, value })
}

fn get(alloc: Global, key: &Bytes) -> Result<Option<Bytes>, AllocError>
    ensures { IfOk result (λ bytes. bytes ≡ spelled (Get key.now)) }
{
    let key = Bytes::from_slice(alloc, key.as_slice())?;
    spelled(alloc, &KvCommand::Get { key })
}

fn take_out(alloc: Global, key: &Bytes) -> Result<Option<Bytes>, AllocError>
    ensures { IfOk result (λ bytes. bytes ≡ spelled (Drop key.now)) }
{
    let key = Bytes::from_slice(alloc, key.as_slice())?;
    spelled(alloc, &KvCommand::Drop { key })
}

// A value as text. One that is none came from no script.
fn text_of(value: &[u8]) -> &str
    ensures { result.now ≡ text_of value.now }
{
    match str::from_utf8(value) {
        Ok(text) => text,
        Err(_) => "?",
    }
}

// The value that an answer tells, or `-` where there is none.
fn value_in(answer: &[u8]) -> &str
    ensures { result.now ≡ value_in answer.now }
{
    match answer {
        [1, value @ ..] => text_of(value),
        _ => "-",
    }
}

impl ScriptMachine for KvMachine {
    ghost speech = { keys };

    fn takes_line(line: &ScriptLine) -> bool {
        !matches!(line, ScriptLine::Nodes { .. } | ScriptLine::Total { .. })
    }

    fn command_of(alloc: Global, event: &ScriptEvent) -> Result<Option<Bytes>, AllocError> {
        match event {
            ScriptEvent::Put { key, value, .. } => put(alloc, key, value),
            ScriptEvent::Get { key, .. } => get(alloc, key),
            ScriptEvent::Drop { key, .. } => take_out(alloc, key),
            _ => Ok(None),
        }
    }

    fn push_told(text: &mut String, told: &Told) -> Result<(), AllocError> {
        let answer = told.answer.as_slice();
        match answer {
            [2, ..] => push_full(text, told.token, told.place),
            _ => push_value(text, told.token, told.place, value_in(answer)),
        }
    }

    fn total_of(&self) -> Option<u64> {
        None
    }
}
