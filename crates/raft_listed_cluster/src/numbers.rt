//! What an event's frames accept, by the numbers that its outcome has of them.
ghost use Rattle.std.specs.Prelude.{◌≡◌};
ghost use Rattle.raft_listed_cluster.specs.Numbers.{accepts_at, accepts_by, accepts_in};

use raft_cluster_events::{Acceptance, EventOutcome, GroupOutcome, SentNumber};
use raft_sent_frames::SentFrame;

// What the first of the frames of these numbers accepts that accepts anything.
fn accepts_at(frames: &[SentFrame], sent: &[SentNumber]) -> Option<Acceptance>
    ensures { result ≡ accepts_at frames.now sent.now }
{
    let mut left = sent;
    while let Some((one, others)) = left.split_first() {
        if let Some(frame) = frames.get(one.number as usize) {
            if let Some(accepted) = frame.accepts {
                return Some(accepted);
            }
        }
        left = others;
    }
    None
}

// So it is of all parts that are the group's.
fn accepts_in(frames: &[SentFrame], group: u64, parts: &[GroupOutcome]) -> Option<Acceptance>
    ensures { result ≡ accepts_in frames.now group parts.now }
{
    let mut left = parts;
    while let Some((part, others)) = left.split_first() {
        if part.group == group {
            if let Some(accepted) = accepts_at(frames, part.sent.as_slice()) {
                return Some(accepted);
            }
        }
        left = others;
    }
    None
}

/// What an event of this outcome accepts with its frames of the group: the first that one does.
pub fn accepts_by(frames: &[SentFrame], group: u64, outcome: &EventOutcome) -> Option<Acceptance>
    ensures { result ≡ accepts_by frames.now group outcome.now }
{
    match outcome {
        EventOutcome::Done(parts) => accepts_in(frames, group, parts.as_slice()),
        EventOutcome::Cleaned(_)
        | EventOutcome::Refused(_)
        | EventOutcome::Stopped(_)
        | EventOutcome::TurnedAway(_) => None,
    }
}
