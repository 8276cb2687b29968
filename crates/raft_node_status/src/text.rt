//! The text that tells a group's status, and that of the log behind it.
ghost use Rattle.std.specs.Prelude.{◌≡◌, ◌++◌, [], IfOk, OnOk, string_bytes};
ghost use Rattle.std.specs.List.{flat_map};
ghost use Rattle.std.specs.Fmt.{decimal};
ghost use Rattle.raft_script_answers.specs.Answer.{number_or_dash};
ghost use Rattle.raft_node_status.specs.Queues.{queue_text, queues_text};
ghost use Rattle.raft_node_status.specs.Text.{named_text, peer_text, place_of, places_text, role_name, status_text, votes_text, wait_text};

use crate::queues::{LogStatus, QueueStatus};
use crate::status::{GroupStatus, PeerStatus};
use itoa::Buffer;
use raft_state::{LogId, ServerState};
use std::alloc::{AllocError, Global};

// How a line names the part that a node plays.
fn role_name(role: ServerState) -> &'static str
    ensures { result.now ≡ role_name role }
{
    match role {
        ServerState::Learner => "learner",
        ServerState::Follower => "follower",
        ServerState::Candidate => "candidate",
        ServerState::Leader => "leader",
        ServerState::Shutdown => "shutdown",
    }
}

fn place_of(id: Option<LogId<u64>>) -> Option<u64>
    ensures { result ≡ place_of id }
{
    match id {
        Some(id) => Some(id.index),
        None => None,
    }
}

// The text, and the number behind it.
fn push_number(text: &mut String, number: u64) -> Result<(), AllocError>
    ensures { OnOk result (string_bytes text.new ≡ string_bytes text.old ++ decimal number) }
{
    let mut digits = Buffer::new();
    text.push_str(digits.format(number))
}

// The text, and behind it a number, or `-` where there is none.
fn push_number_or_dash(text: &mut String, number: Option<u64>) -> Result<(), AllocError>
    ensures { OnOk result (string_bytes text.new ≡ string_bytes text.old ++ number_or_dash number) }
{
    match number {
        Some(number) => push_number(text, number),
        None => text.push_str("-"),
    }
}

// The text, and behind it a number with its name.
fn push_named(text: &mut String, name: &str, number: Option<u64>) -> Result<(), AllocError>
    ensures { OnOk result (string_bytes text.new ≡ string_bytes text.old ++ named_text name.now number) }
{
    text.push_str(" ")?;
    text.push_str(name)?;
    text.push_str(" ")?;
    push_number_or_dash(text, number)
}

// The text, and a peer behind it.
fn push_peer(text: &mut String, peer: &PeerStatus) -> Result<(), AllocError>
    ensures { OnOk result (string_bytes text.new ≡ string_bytes text.old ++ peer_text peer.now) }
{
    text.push_str(" ")?;
    push_number(text, peer.id)?;
    text.push_str(":")?;
    push_number_or_dash(text, place_of(peer.matched))?;
    text.push_str(if peer.is_waiting { "+" } else { "" })
}

// The text, and each peer behind it.
fn push_peers(text: &mut String, peers: &[PeerStatus]) -> Result<(), AllocError>
    ensures { OnOk result (string_bytes text.new ≡ string_bytes text.old ++ flat_map peer_text peers.now) }
{
    for peer in peers {
        push_peer(text, peer)?;
    }
    Ok(())
}

// The text, and behind it whose vote is stored, and who leads.
fn push_votes(text: &mut String, told: &GroupStatus) -> Result<(), AllocError>
    ensures { OnOk result (string_bytes text.new ≡ string_bytes text.old ++ votes_text told.now) }
{
    push_named(text, "term", Some(told.vote.leader_id.term))?;
    push_named(text, "vote", Some(told.vote.leader_id.node_id))?;
    push_named(text, "leader", told.leader)
}

// The text, and the places of the log behind it.
fn push_places(text: &mut String, told: &GroupStatus) -> Result<(), AllocError>
    ensures { OnOk result (string_bytes text.new ≡ string_bytes text.old ++ places_text told.now) }
{
    push_named(text, "last", place_of(told.last))?;
    push_named(text, "committed", place_of(told.committed))?;
    push_named(text, "applied", told.applied)?;
    push_named(text, "snapshot", place_of(told.snapshot))?;
    push_named(text, "purged", place_of(told.purged))
}

/// What a status line says of the group (own): `status PART term T vote NODE leader NODE last P committed P
/// applied P snapshot P purged P`, then `PEER:P` for each peer of a leader, with a `+` where a request
/// to it waits. What there is none of is `-`. An `Err` is want of memory. No newline ends it.
pub fn status_text(alloc: Global, told: &GroupStatus) -> Result<String, AllocError>
    ensures { IfOk result (λ text. string_bytes text ≡ status_text told.now) }
{
    let mut text = String::from_str(alloc, "status ")?;
    text.push_str(role_name(told.role))?;
    push_votes(&mut text, told)?;
    push_places(&mut text, told)?;
    push_peers(&mut text, told.peers.as_slice())?;
    Ok(text)
}

// The text, and a queue with its name behind it.
fn push_queue(text: &mut String, name: &str, queue: QueueStatus) -> Result<(), AllocError>
    ensures { OnOk result (string_bytes text.new ≡ string_bytes text.old ++ queue_text name.now queue) }
{
    text.push_str(" ")?;
    text.push_str(name)?;
    text.push_str(" ")?;
    push_number(text, queue.files)?;
    text.push_str(" ")?;
    push_number(text, queue.bytes)
}

/// What a status line says of the log behind that (own): ` append FILES BYTES rewrite FILES BYTES`.
/// An `Err` is want of memory.
pub fn queues_text(alloc: Global, log: &LogStatus) -> Result<String, AllocError>
    ensures { IfOk result (λ text. string_bytes text ≡ queues_text log.now) }
{
    let mut text = String::new(alloc);
    push_queue(&mut text, "append", log.append)?;
    push_queue(&mut text, "rewrite", log.rewrite)?;
    Ok(text)
}
