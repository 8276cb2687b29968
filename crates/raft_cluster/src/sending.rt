//! What a node's event sends is numbered.
ghost use Rattle.std.specs.Prelude.{◌≡◌, ◌∷◌, ℕ, List, [], IfOk, IfErr, OnOk, OnErr};
ghost use Rattle.raft_sent_frames.specs.Frames.{frames_of};
ghost use Rattle.raft_cluster.specs.Facts.{Sent};
ghost use Rattle.raft_cluster.specs.Sending.{AnySent, AreSent, part_of, parts_of, sent_after, sent_after_one};
ghost use Rattle.raft_node_laws.specs.Answered.{unsaid_of};
ghost use Rattle.raft_cluster_events.specs.declared.node.NodeOutcome.{NodeOutcome};

use raft_cluster_events::{GroupOutcome, NodeOutcome, Unsaid};
use raft_sent_frames::{SentFrames, Sequence};
use std::alloc::{AllocError, Global};

// The frames of a group's outcome are sent. An `Err` is want of memory: it sends none, and hands back
// the tokens.
fn send_one(
    sent: &mut SentFrames,
    sender: u64,
    outcome: NodeOutcome,
) -> Result<GroupOutcome, Unsaid>
    ensures part { IfOk result (λ part. part ≡ part_of (frames_of sent.old) outcome) }
    ensures sends { OnOk result ((group : ℕ) → frames_of sent.new group ≡ sent_after_one (frames_of sent.old) sender outcome group) }
    ensures err { OnErr result ((group : ℕ) → frames_of sent.new group ≡ frames_of sent.old group) }
    ensures unsaid { IfErr result (λ unsaid. unsaid ≡ unsaid_of outcome) }
{
    let NodeOutcome {
        group,
        frames,
        told,
        unknown,
    } = outcome;
    match sent.send(sender, group, frames) {
        Ok(sent) => Ok(GroupOutcome {
            group,
            sent,
            told,
            unknown,
        }),
        Err(_) => Err(Unsaid {
            group,
            told,
            unknown,
        }),
    }
}

/// The frames of a group's outcome are sent. An `Err` is want of memory: it sends none, and hands back
/// the tokens.
pub fn send_alone(
    alloc: Global,
    sent: &mut SentFrames,
    sender: u64,
    outcome: NodeOutcome,
) -> Result<Sequence<GroupOutcome>, Unsaid>
    ensures ok { IfOk result (λ parts. AreSent (frames_of sent.old) sender (outcome ∷ []) parts (frames_of sent.new)) }
    ensures err { OnErr result ((group : ℕ) → frames_of sent.new group ≡ frames_of sent.old group) }
    ensures unsaid { IfErr result (λ unsaid. unsaid ≡ unsaid_of outcome) }
{
    let mut parts = Vec::new(alloc);
    let Ok(()) = parts.reserve(1) else {
        return Err(Unsaid {
            group: outcome.group,
            told: outcome.told,
            unknown: outcome.unknown,
        });
    };
    let part = send_one(sent, sender, outcome)?;
    parts.push(part).unwrap();
    Ok(Sequence::from_vec(parts))
}

// What an outcome's group sent is taken back.
fn take_back(sent: &mut SentFrames, outcome: &GroupOutcome)
    ensures { (f : Sent) (sender : ℕ) (o : NodeOutcome) → outcome.now ≡ part_of f o
        → ((g : ℕ) → frames_of sent.old g ≡ sent_after_one f sender o g)
        → (g : ℕ) → frames_of sent.new g ≡ f g }
{
    if let Some(first) = outcome.sent.as_slice().first() {
        sent.take_back(outcome.group, first.number);
    }
}

// What the outcomes' groups sent is taken back, the last one first.
fn take_all_back(sent: &mut SentFrames, mut done: Vec<GroupOutcome>)
    ensures { (f : Sent) (sender : ℕ) (os : List NodeOutcome)
        → AreSent f sender os done.items (frames_of sent.old)
        → (g : ℕ) → frames_of sent.new g ≡ f g }
{
    while let Some(part) = done.pop() {
        take_back(sent, &part);
    }
}

// The frames of groups' outcomes are sent one after another. An `Err` leaves those of the first ones
// sent, which are done.
fn send_more(
    sent: &mut SentFrames,
    sender: u64,
    outcomes: Vec<NodeOutcome>,
    done: &mut Vec<GroupOutcome>,
) -> Result<(), AllocError>
    requires { done.old.items ≡ [] }
    ensures ok { OnOk result (AreSent (frames_of sent.old) sender outcomes.items done.new.items (frames_of sent.new)) }
    ensures err { OnErr result (AnySent (frames_of sent.old) sender done.new.items (frames_of sent.new)) }
{
    for outcome in outcomes {
        done.reserve(1)?;
        let Ok(part) = send_one(sent, sender, outcome) else {
            return Err(AllocError);
        };
        done.push(part).unwrap();
    }
    Ok(())
}

/// The frames of some groups' outcomes are sent. An `Err` sends none.
pub fn send_all(
    alloc: Global,
    sent: &mut SentFrames,
    sender: u64,
    outcomes: Sequence<NodeOutcome>,
) -> Result<Sequence<GroupOutcome>, AllocError>
    ensures ok { IfOk result (λ parts. AreSent (frames_of sent.old) sender outcomes parts (frames_of sent.new)) }
    ensures err { OnErr result ((group : ℕ) → frames_of sent.new group ≡ frames_of sent.old group) }
{
    let mut done = Vec::new(alloc);
    match send_more(sent, sender, outcomes.into_vec(), &mut done) {
        Ok(()) => Ok(Sequence::from_vec(done)),
        Err(refused) => {
            take_all_back(sent, done);
            Err(refused)
        }
    }
}
