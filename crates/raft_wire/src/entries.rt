//! Entries, read from the front of bytes and written behind others, and alone as they are stored.
ghost use Rattle.std.specs.Prelude.{◌≡◌, ◌++◌, true, OnOk, IfOk};
ghost use Rattle.raft_group_step.specs.Limits.{command_limit};
ghost use Rattle.raft_group_step.specs.Values.{Entry as EntryValue};
ghost use Rattle.raft_wire.specs.Reader.{Gives, all_of, text_at};
ghost use Rattle.raft_wire.specs.Entries.{payload_at, follows, entry_behind, entry_at};
ghost use Rattle.raft_wire.specs.Entries.{spelled_payload, spelled_entry, FitsPayload, FitsEntry};
ghost use Rattle.raft_group_step.specs.Refusal.{is_payload_short};
ghost use Rattle.raft_wire.specs.Writing.{Writes, fault_of_entry};

use crate::error::{FrameError, FrameFault};
use crate::fields::{log_id_of, put_log_id, put_text, text_of};
use crate::memberships::{membership_of, put_membership};
use raft_messages::{
    GroupEntry, GroupPayload, MAX_COMMAND_BYTES, is_short_command, is_within_limits,
};
use raft_state::{Bytes, EntryPayload};
use std::alloc::{AllocError, Global};

// Room for an entry with a short command, so that its bytes don't move as they are written.
const ENTRY_ROOM: usize = 64;

fn command_of(alloc: Global, bytes: &[u8]) -> Result<(Bytes, &[u8]), FrameError>
    ensures { Gives (λ x. (x.0, x.1.now)) result (text_at command_limit bytes.now) }
{
    let (text, rest) = text_of(MAX_COMMAND_BYTES, bytes)?;
    Ok((Bytes::from_slice(alloc, text)?, rest))
}

#[tactic(auto, unfolding(crate::specs::Entries::payload_at))]
fn payload_of(alloc: Global, bytes: &[u8]) -> Result<(GroupPayload, &[u8]), FrameError>
    ensures { Gives (λ x. (x.0, x.1.now)) result (payload_at bytes.now) }
{
    match bytes {
        [] => Err(FrameError::Fault(FrameFault::CutShort)),
        [0, rest @ ..] => Ok((EntryPayload::Blank, rest)),
        [1, rest @ ..] => {
            let (command, rest) = command_of(alloc, rest)?;
            Ok((EntryPayload::Normal(command), rest))
        }
        [2, rest @ ..] => {
            let (membership, rest) = membership_of(alloc, rest)?;
            Ok((EntryPayload::Membership(membership), rest))
        }
        [_, ..] => Err(FrameError::Fault(FrameFault::BadTag)),
    }
}

// Whether the place is the one after the last.
pub(crate) fn follows(last: Option<u64>, index: u64) -> bool
    ensures { result ≡ follows last index }
{
    match last {
        None => true,
        Some(last) => last < index && index - last == 1,
    }
}

/// The entry at the front, whose place follows the last one.
#[tactic(auto, unfolding(crate::specs::Entries::entry_behind))]
pub(crate) fn entry_of(
    alloc: Global,
    last: Option<u64>,
    bytes: &[u8],
) -> Result<(GroupEntry, &[u8]), FrameError>
    ensures { Gives (λ x. (x.0, x.1.now)) result (entry_behind last bytes.now) }
{
    let (log_id, rest) = log_id_of(bytes)?;
    if !follows(last, log_id.index) {
        return Err(FrameError::Fault(FrameFault::NotRising));
    }
    let (payload, rest) = payload_of(alloc, rest)?;
    Ok((GroupEntry { log_id, payload }, rest))
}

// The entry that takes all of the bytes.
#[tactic(auto, unfolding(crate::specs::Entries::entry_at, crate::specs::Reader::all_of))]
fn whole_entry(alloc: Global, bytes: &[u8]) -> Result<GroupEntry, FrameError>
    ensures { Gives (λ x. x) result (all_of entry_at bytes.now) }
{
    let (entry, rest) = entry_of(alloc, None, bytes)?;
    if !rest.is_empty() {
        return Err(FrameError::Fault(FrameFault::TrailingBytes));
    }
    Ok(entry)
}

/// Reads the entry that takes all of the bytes, as `write_entry` wrote it. Refused are bytes that are
/// no entry, by the first fault from left to right (`Fault`), and want of memory (`Memory`).
pub fn read_entry(alloc: Global, bytes: &[u8]) -> Result<GroupEntry, FrameError>
    // What is read is spelled so, each byte of it.
    ensures found { IfOk result (λ e. FitsEntry e × (bytes.now ≡ spelled_entry e)) }
    // What is spelled so is read, unless memory runs out.
    ensures only { (e : EntryValue) → FitsEntry e → bytes.now ≡ spelled_entry e → Gives (λ x. x) result (Ok e) }
    // Which fault it is.
    ensures exact { Gives (λ x. x) result (all_of entry_at bytes.now) }
{
    whole_entry(alloc, bytes)
}

// ---- writing

// Whether the command or membership is within its limits.
pub(crate) fn is_payload_short(payload: &GroupPayload) -> bool
    ensures { result ≡ is_payload_short payload.now }
{
    match payload {
        EntryPayload::Blank => true,
        EntryPayload::Normal(command) => is_short_command(command),
        EntryPayload::Membership(membership) => is_within_limits(membership),
    }
}

fn put_payload(out: &mut Vec<u8>, payload: &GroupPayload) -> Result<(), AllocError>
    requires { is_payload_short payload.now ≡ true }
    ensures items { OnOk result (out.new.items ≡ out.old.items ++ spelled_payload payload.now) }
    ensures fits { OnOk result (FitsPayload payload.now) }
{
    match payload {
        EntryPayload::Blank => Ok(out.push(0)?),
        EntryPayload::Normal(command) => {
            out.push(1)?;
            put_text(out, command.as_slice())
        }
        EntryPayload::Membership(membership) => {
            out.push(2)?;
            put_membership(out, membership)
        }
    }
}

pub(crate) fn put_entry(out: &mut Vec<u8>, entry: &GroupEntry) -> Result<(), AllocError>
    requires { is_payload_short entry.now.payload ≡ true }
    ensures items { OnOk result (out.new.items ≡ out.old.items ++ spelled_entry entry.now) }
    ensures fits { OnOk result (FitsEntry entry.now) }
{
    put_log_id(out, &entry.log_id)?;
    put_payload(out, &entry.payload)
}

// The bytes of an entry that is within its limits.
fn entry_bytes(alloc: Global, entry: &GroupEntry) -> Result<Vec<u8>, AllocError>
    requires { is_payload_short entry.now.payload ≡ true }
    ensures items { IfOk result (λ v. v.items ≡ spelled_entry entry.now) }
    ensures fits { OnOk result (FitsEntry entry.now) }
{
    let mut out = Vec::with_capacity(alloc, ENTRY_ROOM)?;
    put_entry(&mut out, entry)?;
    Ok(out)
}

/// The one spelling of an entry. Refused are a command or a membership past its limits (`TooLong`),
/// and then want of memory (`Memory`).
pub fn write_entry(alloc: Global, entry: &GroupEntry) -> Result<Vec<u8>, FrameError>
    ensures written { Writes (fault_of_entry entry.now) (spelled_entry entry.now) result }
    ensures fits { OnOk result (FitsEntry entry.now) }
    // What was written is read again as this entry.
    ensures found { IfOk result (λ v. all_of entry_at v.items ≡ Ok entry.now) }
{
    if !is_payload_short(&entry.payload) {
        return Err(FrameError::Fault(FrameFault::TooLong));
    }
    Ok(entry_bytes(alloc, entry)?)
}
