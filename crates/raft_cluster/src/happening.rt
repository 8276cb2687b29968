//! An event comes to its node.
ghost use Rattle.std.specs.Prelude.{◌≡◌, ◌∷◌, ℕ, [], IfOk, None, Ok, OnErr};
ghost use Rattle.raft_sent_frames.specs.Frames.{frames_of};
ghost use Rattle.raft_cluster_events.specs.declared.event.ClusterEvent.{ClusterEvent as Event};
ghost use Rattle.raft_cluster_events.specs.declared.event.ClusterEvent.TheVariants.{Crash, Reopen};
ghost use Rattle.raft_cluster_events.specs.declared.outcome.CrashRefusal.TheVariants.{Memory};
ghost use Rattle.raft_cluster.specs.Facts.{Sent, delivered};
ghost use Rattle.raft_node_laws.specs.Answered.{one_of, opening_of, some_of};
ghost use Rattle.raft_cluster.specs.Happening.{Delivers, EndsAt, IsOfGroup, RefusesFor, Settles};
ghost use Rattle.raft_cluster.specs.Happening.{Did, cleaned, over, turned_by};
ghost use Rattle.raft_cluster.specs.Turn.{HappensAt, IsAnswered, quietly, refusal_for};

use crate::answer::Answer;
use crate::delivery::deliver;
use crate::facts::{delivered, refusal_at};
use crate::sending::{send_all, send_alone};
use raft_cluster_conditions::ClusterRefusal;
use raft_cluster_events::{
    ClusterEvent, ClusterNode, CrashChoice, CrashRefusal, EventOutcome, NodeError, NodeOutcome,
    Recorded, Stop, StopCause,
};
use raft_sent_frames::{SentFrames, Sequence};
use std::alloc::{AllocError, Global};
use std::thread::Threads;

// What becomes of an event that the node didn't do.
fn over(error: NodeError) -> EventOutcome
    ensures { result ≡ over error }
{
    match error {
        NodeError::Refused(why) => EventOutcome::Refused(why),
        NodeError::Stopped(stop) => EventOutcome::Stopped(stop),
    }
}

// What the node did in a group becomes the event's outcome. Without memory for that the node stops, and
// the event's own tokens stay unknown with the others.
fn settle_one<N: ClusterNode>(
    alloc: Global,
    sent: &mut SentFrames,
    node: &mut N,
    outcome: NodeOutcome,
) -> EventOutcome
    ensures does { (event : Event) → IsOfGroup event → Settles N.acts (frames_of sent.old) event node.old (Did (Ok (outcome ∷ []))) result (frames_of sent.new) node.new }
    ensures id { N.acts.id node.new ≡ N.acts.id node.old }
{
    match send_alone(alloc, sent, node.id(), outcome) {
        Ok(parts) => EventOutcome::Done(parts),
        Err(unsaid) => {
            let stop = node.fail();
            EventOutcome::Stopped(Stop {
                cause: stop.cause,
                unsaid: Some(unsaid),
                unknown: stop.unknown,
            })
        }
    }
}

// What the node answered to an event of a group becomes the event's outcome.
fn settle_group<N: ClusterNode>(
    alloc: Global,
    sent: &mut SentFrames,
    node: &mut N,
    answered: Result<Option<NodeOutcome>, NodeError>,
) -> EventOutcome
    ensures does { (event : Event) → IsOfGroup event → Settles N.acts (frames_of sent.old) event node.old (Did (some_of answered)) result (frames_of sent.new) node.new }
    ensures id { N.acts.id node.new ≡ N.acts.id node.old }
{
    match answered {
        Ok(Some(outcome)) => settle_one(alloc, sent, node, outcome),
        Ok(None) => EventOutcome::Done(Sequence::new(alloc)),
        Err(error) => over(error),
    }
}

// What the node answered to an event that sends nothing becomes the event's outcome.
fn settle_quietly(alloc: Global, answered: Result<(), NodeError>) -> EventOutcome
    ensures { result ≡ quietly answered }
{
    match answered {
        Ok(()) => EventOutcome::Done(Sequence::new(alloc)),
        Err(error) => over(error),
    }
}

// What a cleaning answered becomes its outcome.
fn settle_cleaning(answered: Result<Sequence<u64>, NodeError>) -> EventOutcome
    ensures { result ≡ cleaned answered }
{
    match answered {
        Ok(groups) => EventOutcome::Cleaned(groups),
        Err(error) => over(error),
    }
}

// What an opening did becomes its outcome. Without memory for that the node goes down again.
fn settle_opening<N: ClusterNode>(
    alloc: Global,
    sent: &mut SentFrames,
    node: &mut N,
    answered: Result<Sequence<NodeOutcome>, Stop>,
) -> EventOutcome
    ensures does { (at workers : ℕ) → Settles N.acts (frames_of sent.old) (Reopen at workers) node.old (Did (opening_of answered)) result (frames_of sent.new) node.new }
    ensures id { N.acts.id node.new ≡ N.acts.id node.old }
{
    match answered {
        Ok(outcomes) => match send_all(alloc, sent, node.id(), outcomes) {
            Ok(parts) => EventOutcome::Done(parts),
            Err(_) => {
                node.close();
                EventOutcome::Stopped(Stop {
                    cause: StopCause::Memory,
                    unsaid: None,
                    unknown: Sequence::new(alloc),
                })
            }
        },
        Err(stop) => EventOutcome::Stopped(stop),
    }
}

// The frame that an event delivers comes, if it was sent.
fn deliver_event<N: ClusterNode>(
    node: &mut N,
    sent: &SentFrames,
    event: &ClusterEvent,
    cuts: &[u64],
    now: u64,
) -> Result<Option<NodeOutcome>, NodeError>
    ensures delivers { Delivers N.acts (delivered (frames_of sent.now) event.now) cuts.now now node.old (Did (some_of result)) node.new }
    ensures id { N.acts.id node.new ≡ N.acts.id node.old }
{
    match delivered(sent, event) {
        Some(frame) => deliver(node, frame.sender, frame.bytes.as_slice(), cuts, now),
        None => Ok(None),
    }
}

// A node's one outcome.
fn some(answered: Result<NodeOutcome, NodeError>) -> Result<Option<NodeOutcome>, NodeError>
    ensures { some_of result ≡ one_of answered }
{
    match answered {
        Ok(outcome) => Ok(Some(outcome)),
        Err(error) => Err(error),
    }
}

// What a crash that its node refuses is turned away for; none for want of memory.
fn turned_by(why: CrashRefusal) -> Option<ClusterRefusal>
    ensures { result ≡ turned_by why }
{
    match why {
        CrashRefusal::NotAnImage => Some(ClusterRefusal::NotAnImage),
        CrashRefusal::ByChance => Some(ClusterRefusal::ByChance),
        CrashRefusal::Memory => None,
    }
}

// The node's machine stops, unless the node refuses that: then the crash is turned away. An `Err` is
// the node's want of memory. Where it doesn't stop the node is as before.
fn crash<N: ClusterNode>(node: &mut N, choice: &CrashChoice) -> Result<Answer, AllocError>
    ensures ok { IfOk result (λ a. (sent : Sent) (at : ℕ) → IsAnswered N.acts sent (Crash at choice.now) node.old a node.new) }
    ensures memory { OnErr result (N.acts.refuses node.old choice.now Memory) }
    ensures err { OnErr result (node.new ≡ node.old) }
{
    match node.crash(choice) {
        Ok(()) => Ok(Answer::Quiet(Ok(()))),
        Err(why) => match turned_by(why) {
            Some(away) => Ok(Answer::Spared(away)),
            None => Err(AllocError),
        },
    }
}

/// An event that isn't turned away comes to its node, which answers it, or refuses a crash. An `Err` is
/// the node's want of memory for a crash, and changes nothing.
pub fn ask_node<N: ClusterNode, R: Threads + Sync>(
    rt: &R,
    node: &mut N,
    sent: &SentFrames,
    event: &ClusterEvent,
) -> Result<Answer, AllocError>
    ensures ok { IfOk result (λ a. IsAnswered N.acts (frames_of sent.now) event.now node.old a node.new) }
    ensures memory { OnErr result (RefusesFor N.acts event.now node.old Memory) }
    ensures err { OnErr result (node.new ≡ node.old) }
{
    match event {
        ClusterEvent::AddGroup { group, .. } => {
            let answered = some(node.add_group(*group));
            Ok(Answer::OfGroup(answered))
        }
        ClusterEvent::Ask {
            group,
            call,
            now,
            ..
        } => {
            let answered = some(node.ask(*group, call, *now));
            Ok(Answer::OfGroup(answered))
        }
        ClusterEvent::Deliver { cuts, now, .. } => {
            let answered = deliver_event(node, sent, event, cuts.as_slice(), *now);
            Ok(Answer::OfGroup(answered))
        }
        ClusterEvent::ResetPeer { peer, .. } => Ok(Answer::Quiet(node.reset_peer(*peer))),
        ClusterEvent::Clean { .. } => Ok(Answer::Cleaned(node.clean_files())),
        ClusterEvent::Fuse { first_refused, .. } => {
            node.fuse(*first_refused);
            Ok(Answer::Quiet(Ok(())))
        }
        ClusterEvent::Crash { choice, .. } => crash(node, choice),
        ClusterEvent::Reopen { workers, .. } => Ok(Answer::Opened(node.reopen(rt, *workers))),
    }
}

/// What the node answered becomes the event's outcome: its frames are sent.
pub fn settle<N: ClusterNode>(
    alloc: Global,
    sent: &mut SentFrames,
    node: &mut N,
    answer: Answer,
) -> EventOutcome
    ensures { (event : Event) (before : _) → IsAnswered N.acts (frames_of sent.old) event before answer node.old
        → EndsAt N.acts (frames_of sent.old) event before result (frames_of sent.new) node.new }
{
    match answer {
        Answer::OfGroup(answered) => settle_group(alloc, sent, node, answered),
        Answer::Quiet(answered) => settle_quietly(alloc, answered),
        Answer::Cleaned(answered) => settle_cleaning(answered),
        Answer::Opened(answered) => settle_opening(alloc, sent, node, answered),
        Answer::Spared(away) => EventOutcome::TurnedAway(away),
    }
}

/// An event that isn't turned away comes to its node, which may refuse a crash. An `Err` is the node's
/// want of memory for a crash, and changes nothing.
pub fn come_to<N: ClusterNode, R: Threads + Sync>(
    rt: &R,
    alloc: Global,
    sent: &mut SentFrames,
    node: &mut N,
    event: &ClusterEvent,
) -> Result<EventOutcome, AllocError>
    ensures ok { IfOk result (λ o. EndsAt N.acts (frames_of sent.old) event.now node.old o (frames_of sent.new) node.new) }
    ensures memory { OnErr result (RefusesFor N.acts event.now node.old Memory) }
    ensures node { OnErr result (node.new ≡ node.old) }
    ensures frames { OnErr result (sent.new ≡ sent.old) }
{
    let answer = ask_node(rt, node, sent, event)?;
    Ok(settle(alloc, sent, node, answer))
}

/// An event for this node happens behind this history: it is turned away, or comes to the node. An
/// `Err` is the node's want of memory for a crash, and changes nothing.
pub fn happen_at<N: ClusterNode, R: Threads + Sync>(
    rt: &R,
    alloc: Global,
    sent: &mut SentFrames,
    history: &[Recorded],
    node: &mut N,
    event: &ClusterEvent,
) -> Result<EventOutcome, AllocError>
    ensures ok { IfOk result (λ o. HappensAt N.acts node.old (frames_of sent.old) history.now event.now o (frames_of sent.new) node.new) }
    ensures admitted { OnErr result (refusal_for N.acts node.old (frames_of sent.old) history.now event.now ≡ None) }
    ensures memory { OnErr result (RefusesFor N.acts event.now node.old Memory) }
    ensures node { OnErr result (node.new ≡ node.old) }
    ensures frames { OnErr result (sent.new ≡ sent.old) }
{
    match refusal_at(node, sent, history, event) {
        Some(why) => Ok(EventOutcome::TurnedAway(why)),
        None => come_to(rt, alloc, sent, node, event),
    }
}
