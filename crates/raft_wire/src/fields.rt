//! Numbers, flags, votes and log ids, read from the front of bytes and written behind others.
ghost use Rattle.std.specs.Prelude.{◌≡◌, ◌++◌, ◌<◌, ◌^◌, length, OnOk};
ghost use Rattle.std.specs.Int.{w32, w64, to_be_bytes};
ghost use Rattle.raft_wire.specs.Reader.{Gives, number_at, byte_at, piece_at, count_at, text_at, filled_at};
ghost use Rattle.raft_wire.specs.Fields.{spelled_flag, spelled_vote, spelled_log_id, spelled_last};
ghost use Rattle.raft_wire.specs.Fields.{flag_at, vote_at, log_id_at, last_at, option_at, FitsVote, FitsLogId, FitsLast};
ghost use Rattle.raft_wire.specs.Entries.{spelled_text};

use crate::error::{FrameError, FrameFault};
use raft_state::{LeaderId, LogId, Vote};
use std::alloc::AllocError;

fn u32_at(bytes: &[u8]) -> Result<(u32, &[u8]), FrameError>
    ensures { Gives (λ x. (x.0, x.1.now)) result (number_at w32 bytes.now) }
{
    if bytes.len() < 4 {
        return Err(FrameError::Fault(FrameFault::CutShort));
    }
    let (front, rest) = bytes.split_at(4);
    let number = u32::from_be_bytes([front[0], front[1], front[2], front[3]]);
    Ok((number, rest))
}

pub(crate) fn u64_at(bytes: &[u8]) -> Result<(u64, &[u8]), FrameError>
    ensures { Gives (λ x. (x.0, x.1.now)) result (number_at w64 bytes.now) }
{
    if bytes.len() < 8 {
        return Err(FrameError::Fault(FrameFault::CutShort));
    }
    let (front, rest) = bytes.split_at(8);
    let number = u64::from_be_bytes([
        front[0], front[1], front[2], front[3], front[4], front[5], front[6], front[7],
    ]);
    Ok((number, rest))
}

pub(crate) fn byte_of(bytes: &[u8]) -> Result<(u8, &[u8]), FrameError>
    ensures { Gives (λ x. (x.0, x.1.now)) result (byte_at bytes.now) }
{
    match bytes {
        [] => Err(FrameError::Fault(FrameFault::CutShort)),
        [byte, rest @ ..] => Ok((*byte, rest)),
    }
}

// So many bytes, lent.
#[tactic(auto, unfolding(crate::specs::Reader::piece_at))]
pub(crate) fn piece_of(len: usize, bytes: &[u8]) -> Result<(&[u8], &[u8]), FrameError>
    ensures { Gives (λ x. (x.0.now, x.1.now)) result (piece_at len bytes.now) }
{
    if bytes.len() < len {
        return Err(FrameError::Fault(FrameFault::CutShort));
    }
    let (piece, rest) = bytes.split_at(len);
    Ok((piece, rest))
}

/// The count or length at the front, in four bytes, the greatest first, and the bytes behind it (own).
/// Refused are fewer than four bytes (`CutShort`), and a count above the limit (`TooLong`).
#[tactic(auto, unfolding(crate::specs::Reader::count_at))]
pub fn count_of(limit: usize, bytes: &[u8]) -> Result<(u32, &[u8]), FrameError>
    ensures { Gives (λ x. (x.0, x.1.now)) result (count_at limit bytes.now) }
{
    let (count, rest) = u32_at(bytes)?;
    if limit < count as usize {
        return Err(FrameError::Fault(FrameFault::TooLong));
    }
    Ok((count, rest))
}

// A length up to a limit, and so many bytes, lent.
#[tactic(auto, unfolding(crate::specs::Reader::text_at))]
pub(crate) fn text_of(limit: usize, bytes: &[u8]) -> Result<(&[u8], &[u8]), FrameError>
    ensures { Gives (λ x. (x.0.now, x.1.now)) result (text_at limit bytes.now) }
{
    let (len, rest) = count_of(limit, bytes)?;
    piece_of(len as usize, rest)
}

/// A text at the front behind its length in four bytes, lent, and the bytes behind it (own). Refused
/// are want of bytes and a length of 0 (`CutShort`), and a length above the limit in bytes (`TooLong`).
#[tactic(auto, unfolding(crate::specs::Reader::filled_at))]
pub fn filled_of(limit: usize, bytes: &[u8]) -> Result<(&[u8], &[u8]), FrameError>
    ensures { Gives (λ x. (x.0.now, x.1.now)) result (filled_at limit bytes.now) }
{
    let (text, rest) = text_of(limit, bytes)?;
    if text.is_empty() {
        return Err(FrameError::Fault(FrameFault::CutShort));
    }
    Ok((text, rest))
}

#[tactic(auto, unfolding(crate::specs::Fields::flag_at))]
pub(crate) fn flag_of(bytes: &[u8]) -> Result<(bool, &[u8]), FrameError>
    ensures { Gives (λ x. (x.0, x.1.now)) result (flag_at bytes.now) }
{
    match bytes {
        [] => Err(FrameError::Fault(FrameFault::CutShort)),
        [0, rest @ ..] => Ok((false, rest)),
        [1, rest @ ..] => Ok((true, rest)),
        [_, ..] => Err(FrameError::Fault(FrameFault::BadTag)),
    }
}

#[tactic(auto, unfolding(crate::specs::Fields::vote_at))]
pub(crate) fn vote_of(bytes: &[u8]) -> Result<(Vote<u64>, &[u8]), FrameError>
    ensures { Gives (λ x. (x.0, x.1.now)) result (vote_at bytes.now) }
{
    let (term, rest) = u64_at(bytes)?;
    let (node_id, rest) = u64_at(rest)?;
    let (committed, rest) = flag_of(rest)?;
    let leader_id = LeaderId { term, node_id };
    Ok((
        Vote {
            leader_id,
            committed,
        },
        rest,
    ))
}

#[tactic(auto, unfolding(crate::specs::Fields::log_id_at))]
pub(crate) fn log_id_of(bytes: &[u8]) -> Result<(LogId<u64>, &[u8]), FrameError>
    ensures { Gives (λ x. (x.0, x.1.now)) result (log_id_at bytes.now) }
{
    let (term, rest) = u64_at(bytes)?;
    let (node_id, rest) = u64_at(rest)?;
    let (index, rest) = u64_at(rest)?;
    let leader_id = LeaderId { term, node_id };
    Ok((LogId { leader_id, index }, rest))
}

#[tactic(auto, unfolding(crate::specs::Fields::option_at))]
pub(crate) fn last_of(bytes: &[u8]) -> Result<(Option<LogId<u64>>, &[u8]), FrameError>
    ensures { Gives (λ x. (x.0, x.1.now)) result (last_at bytes.now) }
{
    match bytes {
        [] => Err(FrameError::Fault(FrameFault::CutShort)),
        [0, rest @ ..] => Ok((None, rest)),
        [1, rest @ ..] => {
            let (id, rest) = log_id_of(rest)?;
            Ok((Some(id), rest))
        }
        [_, ..] => Err(FrameError::Fault(FrameFault::BadTag)),
    }
}

// ---- writing

pub(crate) fn put_u64(out: &mut Vec<u8>, number: u64) -> Result<(), AllocError>
    ensures items { OnOk result (out.new.items ≡ out.old.items ++ to_be_bytes w64 number) }
    ensures fits { number < 2 ^ 64 }
{
    out.extend_from_slice(&number.to_be_bytes())
}

/// Writes a count or length in four bytes, the greatest first, behind others (own). It fails for want
/// of memory alone.
pub fn put_count(out: &mut Vec<u8>, count: usize) -> Result<(), AllocError>
    requires { count < 2 ^ 32 }
    ensures { OnOk result (out.new.items ≡ out.old.items ++ to_be_bytes w32 count) }
{
    out.extend_from_slice(&(count as u32).to_be_bytes())
}

/// Writes bytes behind their length in four bytes, behind others (own). It fails for want of memory
/// alone, and may leave a part of them then.
pub fn put_text(out: &mut Vec<u8>, bytes: &[u8]) -> Result<(), AllocError>
    requires { length bytes.now < 2 ^ 32 }
    ensures { OnOk result (out.new.items ≡ out.old.items ++ spelled_text bytes.now) }
{
    put_count(out, bytes.len())?;
    out.extend_from_slice(bytes)
}

pub(crate) fn put_flag(out: &mut Vec<u8>, flag: bool) -> Result<(), AllocError>
    ensures { OnOk result (out.new.items ≡ out.old.items ++ spelled_flag flag) }
{
    if flag {
        Ok(out.push(1)?)
    } else {
        Ok(out.push(0)?)
    }
}

pub(crate) fn put_vote(out: &mut Vec<u8>, vote: &Vote<u64>) -> Result<(), AllocError>
    ensures items { OnOk result (out.new.items ≡ out.old.items ++ spelled_vote vote.now) }
    ensures fits { OnOk result (FitsVote vote.now) }
{
    put_u64(out, vote.leader_id.term)?;
    put_u64(out, vote.leader_id.node_id)?;
    put_flag(out, vote.committed)
}

pub(crate) fn put_log_id(out: &mut Vec<u8>, id: &LogId<u64>) -> Result<(), AllocError>
    ensures items { OnOk result (out.new.items ≡ out.old.items ++ spelled_log_id id.now) }
    ensures fits { OnOk result (FitsLogId id.now) }
{
    put_u64(out, id.leader_id.term)?;
    put_u64(out, id.leader_id.node_id)?;
    put_u64(out, id.index)
}

pub(crate) fn put_last(out: &mut Vec<u8>, id: &Option<LogId<u64>>) -> Result<(), AllocError>
    ensures items { OnOk result (out.new.items ≡ out.old.items ++ spelled_last id.now) }
    ensures fits { OnOk result (FitsLast id.now) }
{
    match id {
        None => Ok(out.push(0)?),
        Some(id) => {
            out.push(1)?;
            put_log_id(out, id)
        }
    }
}
