//! Votes, log ids and places, alone as they are stored.
ghost use Rattle.std.specs.Prelude.{◌≡◌, ◌<◌, ◌^◌, Ok, OnOk, IfOk, ℕ};
ghost use Rattle.std.specs.Int.{w64, to_be_bytes};
ghost use Rattle.raft_values.specs.declared.vote.Vote.{Vote as VoteOf};
ghost use Rattle.raft_values.specs.declared.log_id.LogId.{LogId as LogIdOf};
ghost use Rattle.raft_wire.specs.Reader.{Gives, all_of, number_at};
ghost use Rattle.raft_wire.specs.Fields.{spelled_vote, vote_at, FitsVote, spelled_log_id, log_id_at, FitsLogId};

use crate::error::{FrameError, FrameFault};
use crate::fields::{log_id_of, put_log_id, put_u64, put_vote, u64_at, vote_of};
use raft_state::{LogId, Vote};
use std::alloc::{AllocError, Global};

/// The one spelling of a vote (own). It fails for want of memory alone.
pub fn write_vote(alloc: Global, vote: &Vote<u64>) -> Result<Vec<u8>, AllocError>
    ensures written { IfOk result (λ v. v.items ≡ spelled_vote vote.now) }
    ensures fits { OnOk result (FitsVote vote.now) }
    // What was written is read again as this vote.
    ensures found { IfOk result (λ v. all_of vote_at v.items ≡ Ok vote.now) }
{
    let mut out = Vec::new(alloc);
    put_vote(&mut out, vote)?;
    Ok(out)
}

// The vote that takes all of the bytes.
#[tactic(auto, unfolding(crate::specs::Reader::all_of))]
fn whole_vote(bytes: &[u8]) -> Result<Vote<u64>, FrameError>
    ensures { Gives (λ x. x) result (all_of vote_at bytes.now) }
{
    let (vote, rest) = vote_of(bytes)?;
    if !rest.is_empty() {
        return Err(FrameError::Fault(FrameFault::TrailingBytes));
    }
    Ok(vote)
}

/// Reads the vote that takes all of the bytes, as `write_vote` wrote it (own). Refused are bytes that
/// are no vote, by the first fault from left to right (`Fault`).
pub fn read_vote(bytes: &[u8]) -> Result<Vote<u64>, FrameError>
    // What is read is spelled so, each byte of it.
    ensures found { IfOk result (λ v. FitsVote v × (bytes.now ≡ spelled_vote v)) }
    // What is spelled so is read.
    ensures only { (v : VoteOf ℕ) → FitsVote v → bytes.now ≡ spelled_vote v → Gives (λ x. x) result (Ok v) }
    // Which fault it is.
    ensures exact { Gives (λ x. x) result (all_of vote_at bytes.now) }
{
    whole_vote(bytes)
}

/// The one spelling of a log id (own). It fails for want of memory alone.
pub fn write_log_id(alloc: Global, id: &LogId<u64>) -> Result<Vec<u8>, AllocError>
    ensures written { IfOk result (λ v. v.items ≡ spelled_log_id id.now) }
    ensures fits { OnOk result (FitsLogId id.now) }
    // What was written is read again as this log id.
    ensures found { IfOk result (λ v. all_of log_id_at v.items ≡ Ok id.now) }
{
    let mut out = Vec::new(alloc);
    put_log_id(&mut out, id)?;
    Ok(out)
}

// The log id that takes all of the bytes.
#[tactic(auto, unfolding(crate::specs::Reader::all_of))]
fn whole_log_id(bytes: &[u8]) -> Result<LogId<u64>, FrameError>
    ensures { Gives (λ x. x) result (all_of log_id_at bytes.now) }
{
    let (id, rest) = log_id_of(bytes)?;
    if !rest.is_empty() {
        return Err(FrameError::Fault(FrameFault::TrailingBytes));
    }
    Ok(id)
}

/// Reads the log id that takes all of the bytes, as `write_log_id` wrote it (own). Refused are bytes
/// that are none, by the first fault from left to right (`Fault`).
pub fn read_log_id(bytes: &[u8]) -> Result<LogId<u64>, FrameError>
    // What is read is spelled so, each byte of it.
    ensures found { IfOk result (λ id. FitsLogId id × (bytes.now ≡ spelled_log_id id)) }
    // What is spelled so is read.
    ensures only { (id : LogIdOf ℕ) → FitsLogId id → bytes.now ≡ spelled_log_id id → Gives (λ x. x) result (Ok id) }
    // Which fault it is.
    ensures exact { Gives (λ x. x) result (all_of log_id_at bytes.now) }
{
    whole_log_id(bytes)
}

/// The one spelling of a place (own). It fails for want of memory alone.
pub fn write_place(alloc: Global, place: u64) -> Result<Vec<u8>, AllocError>
    ensures written { IfOk result (λ v. v.items ≡ to_be_bytes w64 place) }
    ensures fits { place < 2 ^ 64 }
    // What was written is read again as this place.
    ensures found { IfOk result (λ v. all_of (number_at w64) v.items ≡ Ok place) }
{
    let mut out = Vec::new(alloc);
    put_u64(&mut out, place)?;
    Ok(out)
}

// The place that takes all of the bytes.
#[tactic(auto, unfolding(crate::specs::Reader::all_of))]
fn whole_place(bytes: &[u8]) -> Result<u64, FrameError>
    ensures { Gives (λ x. x) result (all_of (number_at w64) bytes.now) }
{
    let (place, rest) = u64_at(bytes)?;
    if !rest.is_empty() {
        return Err(FrameError::Fault(FrameFault::TrailingBytes));
    }
    Ok(place)
}

/// Reads the place that takes all of the bytes, as `write_place` wrote it (own). Refused are bytes that
/// are none, by the first fault from left to right (`Fault`).
pub fn read_place(bytes: &[u8]) -> Result<u64, FrameError>
    // What is read is spelled so, each byte of it.
    ensures found { IfOk result (λ place. (place < 2 ^ 64) × (bytes.now ≡ to_be_bytes w64 place)) }
    // What is spelled so is read.
    ensures only { (place : ℕ) → place < 2 ^ 64 → bytes.now ≡ to_be_bytes w64 place → Gives (λ x. x) result (Ok place) }
    // Which fault it is.
    ensures exact { Gives (λ x. x) result (all_of (number_at w64) bytes.now) }
{
    whole_place(bytes)
}
