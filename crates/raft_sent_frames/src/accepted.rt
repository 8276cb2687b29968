//! What frames accept.
ghost use Rattle.std.specs.Prelude.{◌≡◌};
ghost use Rattle.raft_sent_frames.specs.Frames.{first_accepted};

use crate::frame::SentFrame;
use raft_list_facts::Acceptance;

/// What the first of these frames accepts that accepts anything.
pub fn first_accepted(frames: &[SentFrame]) -> Option<Acceptance>
    ensures { result ≡ first_accepted frames.now }
{
    let mut left = frames;
    while let Some((frame, others)) = left.split_first() {
        if let Some(accepted) = frame.accepts {
            return Some(accepted);
        }
        left = others;
    }
    None
}
