//! A machine that runs a group's entries, and what it answers to whom waits for them.
ghost use Rattle.std.specs.Prelude.{◌≡◌, ◌+◌, ◌<◌, ◌^◌, ◌++◌, List, IfOk, OnOk, OnErr, drop, length, slice_get};
ghost use Rattle.raft_group_step.specs.Values.{Entry};
ghost use Rattle.raft_machines.specs.Fold.{after_payload, answer_to_payload, state_from};
ghost use Rattle.raft_machines.specs.Telling.{AreToldAs, WaitFrom, answer_on, told_at, untold_of};

use crate::StateMachine;
use raft_messages::{GroupEntry, GroupPayload};
use raft_state::{Bytes, EntryPayload};
use std::alloc::{AllocError, Global};

/// A token that is to be told once its place is applied (own).
#[derive(Clone, Copy, Debug, PartialEq, Eq)]
pub struct Untold {
    /// The token that the proposal came with.
    pub token: u64,
    /// The place at which its entry stands.
    pub place: u64,
}

/// The tokens of a group that nobody will be told of (own).
#[derive(Debug, Drop)]
pub struct UnknownTokens {
    /// The group.
    pub group: u64,
    /// Its tokens, by rising place.
    pub tokens: Vec<Untold>,
}

/// What whoever proposed is told (own).
#[derive(Debug, Drop)]
pub struct Told {
    /// The token that the proposal came with.
    pub token: u64,
    /// The place at which its entry stands.
    pub place: u64,
    /// What the machine answered as it ran the entry; no bytes for a change of the membership.
    pub answer: Bytes,
}

// The machine runs what the entry at a place asks for: a command. Else it stands still, and answers
// no bytes.
fn run_payload<M: StateMachine>(
    alloc: Global,
    machine: &mut M,
    place: u64,
    payload: &GroupPayload,
) -> Result<Bytes, AllocError>
    ensures answer { IfOk result (λ a. a ≡ answer_to_payload M.rules (M.state machine.old) place payload.now) }
    ensures ok { OnOk result (M.state machine.new ≡ after_payload M.rules (M.state machine.old) place payload.now) }
    ensures err { OnErr result (M.state machine.new ≡ M.state machine.old) }
{
    match payload {
        EntryPayload::Normal(command) => machine.apply(place, command),
        EntryPayload::Blank | EntryPayload::Membership(_) => Ok(Bytes::new(alloc)),
    }
}

// The next token that waits, where so many are told.
fn next_waiting(waiting: &[Untold], count: usize) -> Option<Untold>
    ensures { result ≡ slice_get waiting.now count }
{
    waiting.get(count).copied()
}

// The answer is told, if the next token that waits does so for this place.
fn tell(
    told: &mut Vec<Told>,
    next: Option<Untold>,
    place: u64,
    answer: Bytes,
) -> Result<(), AllocError>
    ensures { OnOk result (told.new.items ≡ told.old.items ++ told_at next place answer) }
{
    match next {
        Some(next) if next.place == place => {
            told.push(Told {
                token: next.token,
                place,
                answer,
            })?;
            Ok(())
        }
        _ => Ok(()),
    }
}

/// The machine runs entries of the group's list, of which the first stands at `place`, and answers
/// the tokens that wait for them, by rising place (own). It fails for want of memory alone: then
/// the machine has run some of the entries, from the first on.
pub fn run_entries<M: StateMachine>(
    alloc: Global,
    machine: &mut M,
    place: u64,
    entries: &[GroupEntry],
    waiting: &[Untold],
) -> Result<Vec<Told>, AllocError>
    requires { place + length entries.now < 2 ^ 64 }
    ensures state { OnOk result (M.state machine.new ≡ state_from M.rules (M.state machine.old) place entries.now) }
    ensures told { (list : List Entry) → entries.now ≡ drop place list → WaitFrom place (length list) (untold_of waiting.now)
        → IfOk result (λ told. AreToldAs (answer_on M.rules (record { state = M.state machine.old; count = place }) list) told.items (untold_of waiting.now)) }
{
    let mut told = Vec::new(alloc);
    for (index, entry) in entries.iter().enumerate() {
        let at = place + index as u64;
        let answer = run_payload(alloc, machine, at, &entry.payload)?;
        let next = next_waiting(waiting, told.len());
        tell(&mut told, next, at, answer)?;
    }
    Ok(told)
}
