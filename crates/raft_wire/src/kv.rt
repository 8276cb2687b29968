//! Commands of a key-value machine, and their bytes.
ghost use Rattle.std.specs.Prelude.{◌≡◌, ◌++◌, None, Ok, IfOk, OnOk};
ghost use Rattle.raft_wire.specs.Reader.{Gives, all_of, filled_at};
ghost use Rattle.raft_wire.specs.Writing.{Writes};
ghost use Rattle.raft_wire.specs.declared.kv.KvCommand.{KvCommand as KvCommandOf};
ghost use Rattle.raft_wire.specs.Kv.{FitsCommand, command_at, spelled_command};
ghost use Rattle.raft_wire.specs.Kv.{fault_of, fault_of_command};

use crate::error::{FrameError, FrameFault};
use crate::fields::{filled_of, put_text};
use raft_state::Bytes;
use std::alloc::{AllocError, Global};

/// The most bytes of a key.
pub const MAX_KEY_BYTES: usize = 255;

/// The most bytes of a value.
pub const MAX_VALUE_BYTES: usize = 199;

/// A command of the key-value machine (own). A key has 1 to 255 bytes, a value 1 to 199.
#[derive(Debug, Drop)]
pub enum KvCommand {
    /// Tag 1: the key gets this value.
    Put {
        /// The key.
        key: Bytes,
        /// Its new value.
        value: Bytes,
    },
    /// Tag 2: the key's value is asked for.
    Get {
        /// The key.
        key: Bytes,
    },
    /// Tag 3: the key and its value leave the map.
    Drop {
        /// The key.
        key: Bytes,
    },
}

fn filled_bytes(alloc: Global, limit: usize, bytes: &[u8]) -> Result<(Bytes, &[u8]), FrameError>
    ensures { Gives (λ x. (x.0, x.1.now)) result (filled_at limit bytes.now) }
{
    let (text, rest) = filled_of(limit, bytes)?;
    Ok((Bytes::from_slice(alloc, text)?, rest))
}

#[tactic(auto, unfolding(crate::specs::Kv::command_at))]
fn command_of(alloc: Global, bytes: &[u8]) -> Result<(KvCommand, &[u8]), FrameError>
    ensures { Gives (λ x. (x.0, x.1.now)) result (command_at bytes.now) }
{
    match bytes {
        [] => Err(FrameError::Fault(FrameFault::CutShort)),
        [1, rest @ ..] => {
            let (key, rest) = filled_bytes(alloc, MAX_KEY_BYTES, rest)?;
            let (value, rest) = filled_bytes(alloc, MAX_VALUE_BYTES, rest)?;
            Ok((KvCommand::Put { key, value }, rest))
        }
        [2, rest @ ..] => {
            let (key, rest) = filled_bytes(alloc, MAX_KEY_BYTES, rest)?;
            Ok((KvCommand::Get { key }, rest))
        }
        [3, rest @ ..] => {
            let (key, rest) = filled_bytes(alloc, MAX_KEY_BYTES, rest)?;
            Ok((KvCommand::Drop { key }, rest))
        }
        [_, ..] => Err(FrameError::Fault(FrameFault::BadTag)),
    }
}

// The command that takes all of the bytes.
#[tactic(auto, unfolding(crate::specs::Reader::all_of))]
fn whole_command(alloc: Global, bytes: &[u8]) -> Result<KvCommand, FrameError>
    ensures { Gives (λ x. x) result (all_of command_at bytes.now) }
{
    let (command, rest) = command_of(alloc, bytes)?;
    if !rest.is_empty() {
        return Err(FrameError::Fault(FrameFault::TrailingBytes));
    }
    Ok(command)
}

/// Reads the command that takes all of the bytes, as `write_kv` wrote it (own). Refused are bytes
/// that are no command, by the first fault from left to right (`Fault`: `BadTag`, `TooLong`,
/// `CutShort`, also where a length is 0, and `TrailingBytes`), and want of memory (`Memory`).
pub fn read_kv(alloc: Global, bytes: &[u8]) -> Result<KvCommand, FrameError>
    // What is read is spelled so, each byte of it.
    ensures found { IfOk result (λ c. FitsCommand c × (bytes.now ≡ spelled_command c)) }
    // What is spelled so is read, unless memory runs out.
    ensures only { (c : KvCommandOf) → FitsCommand c → bytes.now ≡ spelled_command c
        → Gives (λ x. x) result (Ok c) }
    // Which fault it is.
    ensures exact { Gives (λ x. x) result (all_of command_at bytes.now) }
{
    whole_command(alloc, bytes)
}

// ---- writing

// What is wrong with bytes that are to be a key or a value.
fn fault_of(limit: usize, bytes: &[u8]) -> Option<FrameFault>
    ensures { result ≡ fault_of limit bytes.now }
{
    if bytes.is_empty() {
        return Some(FrameFault::CutShort);
    }
    if limit < bytes.len() {
        return Some(FrameFault::TooLong);
    }
    None
}

// What is wrong with a command, from left to right.
fn fault_of_command(command: &KvCommand) -> Option<FrameFault>
    ensures { result ≡ fault_of_command command.now }
{
    match command {
        KvCommand::Put { key, value } => match fault_of(MAX_KEY_BYTES, key.as_slice()) {
            Some(fault) => Some(fault),
            None => fault_of(MAX_VALUE_BYTES, value.as_slice()),
        },
        KvCommand::Get { key } | KvCommand::Drop { key } => {
            fault_of(MAX_KEY_BYTES, key.as_slice())
        }
    }
}

fn put_command(out: &mut Vec<u8>, command: &KvCommand) -> Result<(), AllocError>
    requires { fault_of_command command.now ≡ None }
    ensures { OnOk result (out.new.items ≡ out.old.items ++ spelled_command command.now) }
{
    match command {
        KvCommand::Put { key, value } => {
            out.push(1)?;
            put_text(out, key.as_slice())?;
            put_text(out, value.as_slice())
        }
        KvCommand::Get { key } => {
            out.push(2)?;
            put_text(out, key.as_slice())
        }
        KvCommand::Drop { key } => {
            out.push(3)?;
            put_text(out, key.as_slice())
        }
    }
}

// The bytes of a command that is within its limits.
fn command_bytes(alloc: Global, command: &KvCommand) -> Result<Vec<u8>, AllocError>
    requires { fault_of_command command.now ≡ None }
    ensures items { IfOk result (λ v. v.items ≡ spelled_command command.now) }
    ensures fits { OnOk result (FitsCommand command.now) }
{
    let mut out = Vec::new(alloc);
    put_command(&mut out, command)?;
    Ok(out)
}

/// The one spelling of a command: its tag, and the key and the value, each behind its length in four
/// bytes, the greatest first (own). Refused are a key or a value of no bytes (`CutShort`) or of too
/// many (`TooLong`), the key's fault first, and then want of memory (`Memory`).
pub fn write_kv(alloc: Global, command: &KvCommand) -> Result<Vec<u8>, FrameError>
    ensures written { Writes (fault_of_command command.now) (spelled_command command.now) result }
    ensures fits { OnOk result (FitsCommand command.now) }
    // What was written is read again as this command.
    ensures found { IfOk result (λ v. all_of command_at v.items ≡ Ok command.now) }
{
    if let Some(fault) = fault_of_command(command) {
        return Err(FrameError::Fault(fault));
    }
    Ok(command_bytes(alloc, command)?)
}
